ghost use Rattle.std.specs.Prelude.{◌≡◌, ◌≤◌, ◌-◌, ◌++◌, List, IfErr, IfOk, OnOk, [], ◌∷◌, length};
ghost use Rattle.std.specs.List.{AllByRecursion};
ghost use Rattle.vrl_token.specs.Division.{IsDivision, IsFirstFault, kept};
ghost use Rattle.vrl_token.specs.OnFault.{OnFault};
ghost use Rattle.vrl_token.specs.Placing.{IsOnCharacters, script_limit};
ghost use Rattle.vrl_token.specs.declared.piece.Lexeme.{Lexeme as SpecLexeme};

use crate::context::Context;
use crate::cut::{Cut, cut_first};
use crate::fault::SyntaxFault;
use crate::piece::{Lexeme, Piece};
use std::alloc::Global;
use vrl_diag::{Diagnostic, Span};
use vrl_value::Memory;

// What stands between the place behind which `from` bytes stand and the one behind which `left`
// bytes stand, in a text of `total` bytes.
fn span_between(total: usize, from: usize, left: usize) -> Span
    requires fits { total ≤ script_limit }
    requires starts { from ≤ total }
    requires ends { left ≤ total }
    ensures start { result.start ≡ total - from }
    ensures end_is { result.«end» ≡ total - left }
{
    Span {
        start: (total - from) as u32,
        end: (total - left) as u32,
    }
}

// What is wrong with a text of `total` bytes: this code, between the same two places.
fn fault_between(total: usize, from: usize, left: usize, code: u16) -> SyntaxFault
    requires fits { total ≤ script_limit }
    requires starts { from ≤ total }
    requires ends { left ≤ total }
    ensures { result ≡ SyntaxFault.Fault
        (record { code = code; span = record { start = total - from; «end» = total - left } }) }
{
    let span = span_between(total, from, left);
    SyntaxFault::Fault(Diagnostic { code, span })
}

// Takes a piece, unless it is a blank or a comment.
fn push_kept(found: &mut Vec<Lexeme>, lexeme: Lexeme) -> Result<(), Memory>
    ensures { OnOk result (found.new.items ≡ found.old.items ++ kept (lexeme ∷ [])) }
{
    if !matches!(lexeme.piece, Piece::Blank | Piece::Comment) {
        found.push(lexeme)?;
    }
    Ok(())
}

/// The pieces of a text but its blanks and comments, in order. `Fault`: the first fault of its
/// spellings. `Memory`: want of memory.
pub(crate) fn lexemes(alloc: Global, text: &str) -> Result<Vec<Lexeme>, SyntaxFault>
    requires { length text.now ≤ script_limit }
    ensures ok { IfOk result (λ found. (pieces : List SpecLexeme) × IsDivision text.now pieces
        × (found.items ≡ kept pieces)) }
    ensures characters { IfOk result (λ found. AllByRecursion (λ l. IsOnCharacters text.now l.span) found.items) }
    ensures fault { IfErr result (OnFault (IsFirstFault text.now)) }
{
    let mut found = Vec::new(alloc);
    let mut context = Context::start();
    let mut rest = text;
    while !rest.is_empty() {
        match cut_first(alloc, rest, context)? {
            Cut::Fault(code, left) => {
                return Err(fault_between(text.len(), rest.len(), left, code));
            }
            Cut::Piece(piece, behind) => {
                context = context.behind(&piece);
                let span = span_between(text.len(), rest.len(), behind.len());
                push_kept(&mut found, Lexeme { piece, span })?;
                rest = behind;
            }
        }
    }
    Ok(found)
}

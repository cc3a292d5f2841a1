ghost use Rattle.std.specs.Prelude.{◌≡◌, ◌∷◌, ◌↔◌, true, Contains, IsTrue, List, IfOk, MatchOption, ℕ};
ghost use Rattle.vrl_token.specs.Cuts.{IsContext, IsCutOf, IsKeyword, IsPathCut};
ghost use Rattle.vrl_token.specs.Context.{closes_before};
ghost use Rattle.vrl_token.specs.Lexical.{BeginsInside, IsNameStart, keywords};
ghost use Rattle.vrl_token.specs.Paths.{HasFlaw, HasSteps, RootSegments, Segment};
ghost use Rattle.vrl_token.specs.Words.{BeginsRaw, IsCallRest, IsFreeName, NoSegment, NoSuffix};
ghost use Rattle.vrl_token.specs.declared.piece.Piece.{Piece as SpecPiece};

use crate::context::Context;
use crate::cut::Cut;
use crate::path::Gathering;
use crate::piece::Piece;
use crate::scan::{Class, begins_with, split_run, strip_mark};
use crate::token::Token;
use std::alloc::Global;
use vrl_path::Path;
use vrl_value::{Chars, Memory};

// The keyword of this spelling. `None` where it is no keyword.
fn keyword(name: &str) -> Option<Token>
    ensures { MatchOption result (¬ Contains keywords name.now) (IsKeyword name.now) }
{
    match name {
        "if" => Some(Token::If),
        "else" => Some(Token::Else),
        "abort" => Some(Token::Abort),
        "return" => Some(Token::Return),
        "true" => Some(Token::True),
        "false" => Some(Token::False),
        "null" => Some(Token::Null),
        _ => None,
    }
}

/// Whether a name is a keyword.
pub(crate) fn is_keyword(name: &str) -> bool
    ensures { IsTrue result ↔ Contains keywords name.now }
{
    keyword(name).is_some()
}

// The function whose name stands before a text. `None` where no call goes on with the text.
fn cut_function<'a>(alloc: Global, name: &str, behind: &'a str) -> Result<Option<Cut<'a>>, Memory>
    ensures { IfOk result
        (λ found. MatchOption found (¬ IsCallRest behind.now) (λ cut. (text : List ℕ) (before : List SpecPiece)
        → IsFreeName text name.now behind.now → IsCutOf before text cut)) }
{
    if begins_with(behind, b'(') {
        let name = Chars::copy_of(alloc, name)?;
        return Ok(Some(Cut::Piece(Piece::Word(Token::Function(name)), behind)));
    }
    match strip_mark(behind, '!') {
        Some(opening) if begins_with(opening, b'(') => {
            let name = Chars::copy_of(alloc, name)?;
            Ok(Some(Cut::Piece(Piece::Word(Token::BangFunction(name)), opening)))
        }
        _ => Ok(None),
    }
}

// The token of a path before a text, or the code of what is wrong with it.
fn path_cut(token: Token, fault: Option<u16>, rest: &str) -> Cut<'_>
    ensures { IsPathCut token fault rest.entry result }
{
    match fault {
        None => Cut::Piece(Piece::Word(token), rest),
        Some(code) => Cut::Fault(code, rest.len()),
    }
}

// The name or the path behind a name, that stands before a text with which no call goes on.
fn cut_name<'a>(alloc: Global, name: &str, behind: &'a str) -> Result<Cut<'a>, Memory>
    requires { ¬ IsCallRest behind.now }
    ensures { IfOk result (λ cut. (text : List ℕ) (before : List SpecPiece) → IsFreeName text name.now behind.now
        → ¬ BeginsRaw text → IsCutOf before text cut) }
{
    let mut found = Gathering::new(alloc);
    let rest = found.gather(alloc, behind)?;
    let name = Chars::copy_of(alloc, name)?;
    if rest.len() == behind.len() {
        return Ok(Cut::Piece(Piece::Word(Token::Name(name)), behind));
    }
    let (path, fault) = found.into_path();
    Ok(path_cut(Token::NamePath(name, path), fault, rest))
}

/// The name, keyword, function or path that a text begins with.
pub(crate) fn cut_word(alloc: Global, text: &str) -> Result<Cut<'_>, Memory>
    requires name { BeginsInside IsNameStart text.now }
    requires plain { ¬ BeginsRaw text.now }
    ensures { IfOk result (λ cut. (before : List SpecPiece) → IsCutOf before text.now cut) }
{
    let (name, behind) = split_run(text, Class::NamePart);
    if let Some(keyword) = keyword(name) {
        return Ok(Cut::Piece(Piece::Word(keyword), behind));
    }
    match cut_function(alloc, name, behind)? {
        Some(function) => Ok(function),
        None => cut_name(alloc, name, behind),
    }
}

// The suffix that a text begins with directly behind `)` or `]`. `None` where no segment begins it.
fn cut_suffix(alloc: Global, text: &str) -> Result<Option<Cut<'_>>, Memory>
    ensures { IfOk result (λ found. MatchOption found (NoSegment text.now) (λ cut. (before : List SpecPiece)
        → closes_before before ≡ true → IsCutOf before text.now cut)) }
{
    let mut found = Gathering::new(alloc);
    let rest = found.gather(alloc, text)?;
    if rest.len() == text.len() {
        return Ok(None);
    }
    let (path, fault) = found.into_path();
    Ok(Some(path_cut(Token::Suffix(path), fault, rest)))
}

// The path whose `.` or `%` stands before a text, the code of what is wrong with it, and what stands
// behind it.
fn split_root<'a>(alloc: Global, behind: &'a str) -> Result<(Path, Option<u16>, &'a str), Memory>
    ensures { IfOk result (λ found. (sign : ℕ) → (segments : List Segment)
        × RootSegments sign (sign ∷ behind.now) segments found.2.now
        × MatchOption found.1 (HasSteps segments found.0) (HasFlaw segments)) }
{
    let mut found = Gathering::new(alloc);
    let rest = found.gather_root(alloc, behind)?;
    let (path, fault) = found.into_path();
    Ok((path, fault, rest))
}

// The path of the event whose dot stands before a text.
fn cut_event<'a>(alloc: Global, behind: &'a str) -> Result<Cut<'a>, Memory>
    ensures { IfOk result (λ cut. (before : List SpecPiece) → NoSuffix before (46 ∷ behind.now)
        → IsCutOf before (46 ∷ behind.now) cut) }
{
    let (path, fault, rest) = split_root(alloc, behind)?;
    Ok(path_cut(Token::EventPath(path), fault, rest))
}

/// The path of the metadata whose `%` stands before a text.
pub(crate) fn cut_metadata<'a>(alloc: Global, behind: &'a str) -> Result<Cut<'a>, Memory>
    ensures { IfOk result (λ cut. (before : List SpecPiece) → IsCutOf before (37 ∷ behind.now) cut) }
{
    let (path, fault, rest) = split_root(alloc, behind)?;
    Ok(path_cut(Token::MetadataPath(path), fault, rest))
}

// The suffix that a text begins with at this place. `None` where none begins here.
fn suffix_at(alloc: Global, text: &str, context: Context) -> Result<Option<Cut<'_>>, Memory>
    ensures { IfOk result (λ found. MatchOption found
        ((before : List SpecPiece) → IsContext before context → NoSuffix before text.now)
        (λ cut. (before : List SpecPiece) → IsContext before context → IsCutOf before text.now cut)) }
{
    if !context.closes {
        return Ok(None);
    }
    cut_suffix(alloc, text)
}

/// What begins with a dot before a text: a suffix, or a path of the event.
pub(crate) fn cut_dot<'a>(
    alloc: Global,
    text: &'a str,
    behind: &'a str,
    context: Context,
) -> Result<Cut<'a>, Memory>
    requires { text.now ≡ 46 ∷ behind.now }
    ensures { IfOk result (λ cut. (before : List SpecPiece) → IsContext before context → IsCutOf before text.now cut) }
{
    match suffix_at(alloc, text, context)? {
        Some(suffix) => Ok(suffix),
        None => cut_event(alloc, behind),
    }
}

/// What begins with `[` before a text: a suffix, or the bracket.
pub(crate) fn cut_square<'a>(
    alloc: Global,
    text: &'a str,
    behind: &'a str,
    context: Context,
) -> Result<Cut<'a>, Memory>
    requires { text.now ≡ 91 ∷ behind.now }
    ensures { IfOk result (λ cut. (before : List SpecPiece) → IsContext before context → IsCutOf before text.now cut) }
{
    match suffix_at(alloc, text, context)? {
        Some(suffix) => Ok(suffix),
        None => Ok(Cut::Piece(Piece::Word(Token::OpenBracket), behind)),
    }
}

ghost use Rattle.std.specs.Prelude.{◌≡◌, ◌<◌, ◌∷◌, ◌↔◌, List, IfOk, IsTrue, length};
ghost use Rattle.vrl_token.specs.Cuts.{IsContext, IsCutOf};
ghost use Rattle.vrl_token.specs.Lexical.{BeginsInside, IsBlank, IsNameStart};
ghost use Rattle.vrl_token.specs.Words.{IsRawLetter};
ghost use Rattle.vrl_token.specs.declared.piece.Piece.{Piece as SpecPiece};

use crate::context::Context;
use crate::literals::{cut_number, cut_raw, cut_text};
use crate::names::{cut_dot, cut_metadata, cut_square, cut_word};
use crate::piece::Piece;
use crate::scan::{Class, begins_in, split_byte, split_line, split_run, strip_mark};
use crate::signs::{cut_sign, cut_stray};
use std::alloc::Global;
use vrl_value::Memory;

/// What a text begins with.
#[derive(Drop)]
pub(crate) enum Cut<'a> {
    /// A piece, and what stands behind it.
    Piece(Piece, &'a str),
    /// The code of what is wrong, and how many bytes stand behind the spelling at fault.
    Fault(u16, usize),
}

// The blanks that a text begins with.
fn cut_blank(text: &str) -> Cut<'_>
    requires { BeginsInside IsBlank text.now }
    ensures { (before : List SpecPiece) → IsCutOf before text.now result }
{
    let (_, rest) = split_run(text, Class::Blank);
    Cut::Piece(Piece::Blank, rest)
}

// The comment whose `#` stands before a text.
fn cut_comment(behind: &str) -> Cut<'_>
    ensures { (before : List SpecPiece) → IsCutOf before (35 ∷ behind.now) result }
{
    let (_, rest) = split_line(behind);
    Cut::Piece(Piece::Comment, rest)
}

// The minus before a text: the sign of a number, or an operator.
fn cut_minus(behind: &str, context: Context) -> Cut<'_>
    ensures { (before : List SpecPiece) → IsContext before context → IsCutOf before (45 ∷ behind.now) result }
{
    if !context.operand && begins_in(behind, Class::Digit) {
        return cut_number(true, behind);
    }
    cut_sign(b'-', behind)
}

// Whether a raw text, a regex or a timestamp begins with the letter.
fn is_raw_letter(letter: u8) -> bool
    ensures { IsTrue result ↔ IsRawLetter letter }
{
    matches!(letter, b's' | b'r' | b't')
}

// A letter or `_`, and a text behind it.
fn cut_letter<'a>(
    alloc: Global,
    text: &'a str,
    first: u8,
    behind: &'a str,
    context: Context,
) -> Result<Cut<'a>, Memory>
    requires parts { text.now ≡ first ∷ behind.now }
    requires letter { IsNameStart first }
    ensures { IfOk result (λ cut. (before : List SpecPiece) → IsContext before context → IsCutOf before text.now cut) }
{
    if is_raw_letter(first) {
        if let Some(inner) = strip_mark(behind, '\'') {
            return cut_raw(alloc, first, inner, context.regexes_left);
        }
    }
    cut_word(alloc, text)
}

/// What a text that isn't empty begins with. `Memory`: want of memory.
pub(crate) fn cut_first(alloc: Global, text: &str, context: Context) -> Result<Cut<'_>, Memory>
    requires { 0 < length text.now }
    ensures { IfOk result (λ cut. (before : List SpecPiece) → IsContext before context → IsCutOf before text.now cut) }
{
    let Some((first, behind)) = split_byte(text) else {
        return Ok(cut_stray(text));
    };
    match first {
        b' ' | b'\t' | b'\r' => Ok(cut_blank(text)),
        b'\n' => Ok(Cut::Piece(Piece::Newline, behind)),
        b'#' => Ok(cut_comment(behind)),
        b'"' => cut_text(alloc, behind),
        b'0'..=b'9' => Ok(cut_number(false, text)),
        b'-' => Ok(cut_minus(behind, context)),
        b'.' => cut_dot(alloc, text, behind, context),
        b'%' => cut_metadata(alloc, behind),
        b'[' => cut_square(alloc, text, behind, context),
        b'a'..=b'z' | b'A'..=b'Z' | b'_' => cut_letter(alloc, text, first, behind, context),
        _ => Ok(cut_sign(first, behind)),
    }
}

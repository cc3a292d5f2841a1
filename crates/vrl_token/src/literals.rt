ghost use Rattle.std.specs.Prelude.{◌≡◌, ◌-◌, ◌∷◌, ℕ, List, IfOk, MatchOption};
ghost use Rattle.vrl_token.specs.Characters.{Character, IsKnown, raw_of, text_of};
ghost use Rattle.std.specs.List.{AllByRecursion};
ghost use Rattle.vrl_token.specs.Context.{regexes_before};
ghost use Rattle.vrl_token.specs.Cuts.{IsCutOf};
ghost use Rattle.vrl_token.specs.Lexical.{BeginsInside, IsDigit};
ghost use Rattle.vrl_token.specs.Numbers.{IsBehindSign};
ghost use Rattle.vrl_token.specs.Templates.{IsWellFormed};
ghost use Rattle.vrl_token.specs.Words.{IsRaw, IsRawLetter, IsTextSpelling, MayHaveSign};
ghost use Rattle.vrl_token.specs.declared.piece.Piece.{Piece as SpecPiece};

use crate::cut::Cut;
use crate::number::{behind_float, number_of, split_digits};
use crate::piece::Piece;
use crate::quoted::{raw, split_quoted, unescaped};
use crate::scan::{Class, begins_in};
use crate::template::text_token;
use crate::token::Token;
use std::alloc::Global;
use vrl_diag::code;
use vrl_value::{Chars, Memory, Moment};

// A token that a text begins with, and what stands behind it.
fn token(token: Token, rest: &str) -> Cut<'_>
    ensures { result ≡ Cut.Piece (Piece.Word token) rest.entry }
{
    Cut::Piece(Piece::Word(token), rest)
}

// What is wrong with a text that has no token: an escape that isn't known where it can't be read,
// else a malformed template.
fn text_fault<'a>(read: &Option<Chars>, rest: &'a str) -> Cut<'a>
    ensures { (before : List SpecPiece) (opening : List ℕ) (characters : List Character)
        → IsTextSpelling opening characters rest.now
        → (AllByRecursion IsKnown characters → ¬ IsWellFormed characters)
        → MatchOption read.now (¬ AllByRecursion IsKnown characters) (λ t. AllByRecursion IsKnown characters
        × (t ≡ text_of characters)) → IsCutOf before opening result }
{
    match read {
        None => Cut::Fault(code::UNRECOGNIZED_TOKEN, rest.len()),
        Some(_) => Cut::Fault(code::TEMPLATE_OR_TOO_MANY_REGEXES, rest.len()),
    }
}

/// The text whose opening quote stands before the text given.
pub(crate) fn cut_text(alloc: Global, behind: &str) -> Result<Cut<'_>, Memory>
    ensures { IfOk result (λ cut. (before : List SpecPiece) → IsCutOf before (34 ∷ behind.now) cut) }
{
    let Some((inner, rest)) = split_quoted(behind, b'"') else {
        return Ok(Cut::Fault(code::UNRECOGNIZED_TOKEN, 0));
    };
    match text_token(alloc, inner)? {
        Some(found) => Ok(token(found, rest)),
        None => Ok(text_fault(&unescaped(alloc, inner)?, rest)),
    }
}

// The token of what stands between the quotes of a raw text, a regex or a timestamp, which begins
// with this letter.
fn cut_value<'a>(letter: u8, value: Chars, rest: &'a str, regexes_left: usize) -> Cut<'a>
    requires { IsRawLetter letter }
    ensures { (before : List SpecPiece) (text : List ℕ) (characters : List Character)
        → IsRaw letter text characters rest.now → value ≡ raw_of characters
        → regexes_left ≡ 256 - regexes_before before → IsCutOf before text result }
{
    match letter {
        b's' => token(Token::RawText(value), rest),
        b'r' if regexes_left > 0 => token(Token::Regex(value), rest),
        b'r' => Cut::Fault(code::TEMPLATE_OR_TOO_MANY_REGEXES, rest.len()),
        _ => match Moment::read(value.as_str()) {
            Some(moment) => token(Token::Timestamp(moment), rest),
            None => Cut::Fault(code::MALFORMED_TIMESTAMP, rest.len()),
        },
    }
}

/// The raw text, regex or timestamp whose letter and opening quote stand before a text.
pub(crate) fn cut_raw<'a>(
    alloc: Global,
    letter: u8,
    behind: &'a str,
    regexes_left: usize,
) -> Result<Cut<'a>, Memory>
    requires { IsRawLetter letter }
    ensures { IfOk result (λ cut. (before : List SpecPiece) → regexes_left ≡ 256 - regexes_before before
        → IsCutOf before (letter ∷ 39 ∷ behind.now) cut) }
{
    let Some((inner, rest)) = split_quoted(behind, b'\'') else {
        return Ok(Cut::Fault(code::UNRECOGNIZED_TOKEN, 0));
    };
    Ok(cut_value(letter, raw(alloc, inner)?, rest, regexes_left))
}

/// The number whose digits a text begins with. Where the flag says so a minus stands before them
/// and belongs to it.
pub(crate) fn cut_number(negative: bool, unsigned: &str) -> Cut<'_>
    requires { BeginsInside IsDigit unsigned.now }
    ensures { (before : List SpecPiece) (text : List ℕ) → MayHaveSign before negative
        → IsBehindSign negative text unsigned.now → IsCutOf before text result }
{
    let (digits, rest) = split_digits(unsigned);
    if let Some(behind) = behind_float(rest) {
        return Cut::Fault(code::FLOAT_LITERAL, behind.len());
    }
    if begins_in(rest, Class::NameStart) {
        return Cut::Fault(code::UNRECOGNIZED_TOKEN, rest.len());
    }
    match number_of(negative, digits) {
        Some(number) => token(Token::Number(number), rest),
        None => Cut::Fault(code::NUMBER_OUT_OF_RANGE, rest.len()),
    }
}

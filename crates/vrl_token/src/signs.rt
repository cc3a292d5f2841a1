ghost use Rattle.std.specs.Prelude.{◌≡◌, ◌≤◌, ◌<◌, ◌∷◌, ◌↔◌, ℕ, IsTrue, List, MatchOption, length, slice_index};
ghost use Rattle.vrl_token.specs.Cuts.{IsCutOf, IsEqualsCut, IsNoOther, IsSingle, LeavesBehind, MayBeMinus};
ghost use Rattle.vrl_token.specs.Faults.{IsContinuation};
ghost use Rattle.vrl_token.specs.Scan.{HasNoByte};
ghost use Rattle.vrl_token.specs.declared.piece.Piece.{Piece as SpecPiece};
ghost use Rattle.vrl_token.specs.declared.token.Token.{Token as SpecToken};

use crate::cut::Cut;
use crate::piece::Piece;
use crate::scan::strip_mark;
use crate::token::Token;
use vrl_diag::code;

// A sign that may go on with `=`: the token alone, or joined with it. The sign's first byte stands
// before the text.
fn cut_equals(alone: Token, joined: Token, behind: &str) -> Cut<'_>
    ensures { IsEqualsCut behind.now alone joined result }
{
    match strip_mark(behind, '=') {
        Some(rest) => Cut::Piece(Piece::Word(joined), rest),
        None => Cut::Piece(Piece::Word(alone), behind),
    }
}

// `|=`, `||` or `|`, whose first byte stands before the text.
fn cut_bar(behind: &str) -> Cut<'_>
    ensures { (before : List SpecPiece) → IsCutOf before (124 ∷ behind.now) result }
{
    if let Some(rest) = strip_mark(behind, '=') {
        return Cut::Piece(Piece::Word(Token::MergeAssign), rest);
    }
    match strip_mark(behind, '|') {
        Some(rest) => Cut::Piece(Piece::Word(Token::Or), rest),
        None => Cut::Piece(Piece::Bar, behind),
    }
}

// `??`, the operator `??=` that is left out, or a `?` that is part of no spelling. Its first byte
// stands before the text.
fn cut_question(behind: &str) -> Cut<'_>
    ensures { (before : List SpecPiece) → IsCutOf before (63 ∷ behind.now) result }
{
    let Some(rest) = strip_mark(behind, '?') else {
        return Cut::Fault(
            code::UNRECOGNIZED_TOKEN,
            left_behind_character(behind.as_bytes()),
        );
    };
    match strip_mark(rest, '=') {
        Some(end) => Cut::Fault(code::OPERATOR_LEFT_OUT, end.len()),
        None => Cut::Piece(Piece::Word(Token::Coalesce), rest),
    }
}

// `&&`, or a `&` that is part of no spelling. Its first byte stands before the text.
fn cut_ampersand(behind: &str) -> Cut<'_>
    ensures { (before : List SpecPiece) → IsCutOf before (38 ∷ behind.now) result }
{
    match strip_mark(behind, '&') {
        Some(rest) => Cut::Piece(Piece::Word(Token::And), rest),
        None => Cut::Fault(
            code::UNRECOGNIZED_TOKEN,
            left_behind_character(behind.as_bytes()),
        ),
    }
}

// `->` or `-`, whose first byte stands before the text.
fn cut_dash(behind: &str) -> Cut<'_>
    ensures { (before : List SpecPiece) → MayBeMinus before behind.now → IsCutOf before (45 ∷ behind.now) result }
{
    match strip_mark(behind, '>') {
        Some(rest) => Cut::Piece(Piece::Word(Token::Arrow), rest),
        None => Cut::Piece(Piece::Word(Token::Minus), behind),
    }
}

// The sign of one character with which no other sign begins. `None` where the byte is none.
fn single(first: u8) -> Option<Token>
    ensures { MatchOption result ((token : SpecToken) → ¬ IsSingle first token) (IsSingle first) }
{
    match first {
        b'+' => Some(Token::Plus),
        b'*' => Some(Token::Times),
        b'(' => Some(Token::OpenParenthesis),
        b')' => Some(Token::CloseParenthesis),
        b']' => Some(Token::CloseBracket),
        b'}' => Some(Token::CloseBrace),
        b',' => Some(Token::Comma),
        b':' => Some(Token::Colon),
        b';' => Some(Token::Separator),
        _ => None,
    }
}

// Whether a byte goes on with a character of several bytes.
fn is_continuation(byte: u8) -> bool
    ensures { IsTrue result ↔ IsContinuation byte }
{
    (128..=191).contains(&byte)
}

// How many bytes go on with the character whose first byte stands before them.
fn continuation_length(bytes: &[u8]) -> usize
    ensures within { result ≤ length bytes.now }
    ensures before { (k : ℕ) → k < result → IsContinuation (slice_index bytes.now k) }
    ensures after { result < length bytes.now → ¬ IsContinuation (slice_index bytes.now result) }
{
    bytes
        .iter()
        .position(|byte| !is_continuation(*byte))
        .unwrap_or(bytes.len())
}

// How many of the bytes stand behind the character whose first byte stands before them.
fn left_behind_character(bytes: &[u8]) -> usize
    ensures { LeavesBehind bytes.now result }
{
    bytes.len() - continuation_length(bytes)
}

/// A character of several bytes, with which a text begins.
pub(crate) fn cut_stray(text: &str) -> Cut<'_>
    requires several { HasNoByte text.now }
    requires some { 0 < length text.now }
    ensures { (before : List SpecPiece) → IsCutOf before text.now result }
{
    let (_, behind) = text.as_bytes().split_at(1);
    Cut::Fault(code::UNRECOGNIZED_TOKEN, left_behind_character(behind))
}

/// The sign whose first byte stands before the text, or what is wrong with it.
pub(crate) fn cut_sign(first: u8, behind: &str) -> Cut<'_>
    requires { IsNoOther first }
    ensures { (before : List SpecPiece) → (first ≡ 45 → MayBeMinus before behind.now)
        → IsCutOf before (first ∷ behind.now) result }
{
    match first {
        b'=' => cut_equals(Token::Assign, Token::Equal, behind),
        b'!' => cut_equals(Token::Not, Token::Unequal, behind),
        b'<' => cut_equals(Token::Less, Token::AtMost, behind),
        b'>' => cut_equals(Token::More, Token::AtLeast, behind),
        b'|' => cut_bar(behind),
        b'?' => cut_question(behind),
        b'&' => cut_ampersand(behind),
        b'-' => cut_dash(behind),
        b'{' => Cut::Piece(Piece::Brace, behind),
        b'/' => Cut::Fault(code::OPERATOR_LEFT_OUT, behind.len()),
        _ => match single(first) {
            Some(sign) => Cut::Piece(Piece::Word(sign), behind),
            None => Cut::Fault(
                code::UNRECOGNIZED_TOKEN,
                left_behind_character(behind.as_bytes()),
            ),
        },
    }
}

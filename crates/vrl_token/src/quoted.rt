ghost use Rattle.std.specs.Prelude.{◌≡◌, ◌≢◌, ◌<◌, List, [], ◌∷◌, IfOk, MatchOption, length};
ghost use Rattle.std.specs.List.{AllByRecursion};
ghost use Rattle.vrl_token.specs.Characters.{Character, IsEscape, IsKnown, IsUnclosed, escape_of, raw_of, text_of};
ghost use Rattle.vrl_token.specs.Quoted.{IsClosedAt, IsCut, IsInner, RawPair};

use crate::scan::{split_at_mark, split_byte, strip_mark};
use std::alloc::Global;
use vrl_value::{Chars, Memory};

// How many bytes stand before the closing quote of the text behind an opening one. `None` where it
// isn't closed.
fn closing_quote(text: &str, quote: u8) -> Option<usize>
    requires { quote ≢ 92 }
    ensures { MatchOption result (IsUnclosed quote text.now) (IsClosedAt quote text.now) }
{
    let bytes = text.as_bytes();
    let mut escaped = false;
    for index in 0..bytes.len() {
        let byte = bytes[index];
        if escaped {
            escaped = false;
        } else if byte == b'\\' {
            escaped = true;
        } else if byte == quote {
            return Some(index);
        }
    }
    None
}

/// Cuts a text that stands behind an opening quote into what stands before its closing quote, and
/// what stands behind that. `None` where it isn't closed.
pub(crate) fn split_quoted(text: &str, quote: u8) -> Option<(&str, &str)>
    requires ascii { quote < 128 }
    requires other { quote ≢ 92 }
    ensures { MatchOption result (IsUnclosed quote text.now) (λ cut. IsCut quote text.now cut.0.now cut.1.now) }
{
    let length = closing_quote(text, quote)?;
    let (inner, closing) = text.split_at(length);
    let (_, rest) = closing.split_at(1);
    Some((inner, rest))
}

// What the letter behind a backslash stands for, in a text or a quoted field. `None` where it
// stands for nothing.
fn escape(letter: u8) -> Option<&'static str>
    ensures { MatchOption result (¬ IsEscape letter) (λ meaning. IsEscape letter
        × (meaning.now ≡ escape_of letter ∷ [])) }
{
    match letter {
        b'n' => Some("\n"),
        b'r' => Some("\r"),
        b't' => Some("\t"),
        b'\\' => Some("\\"),
        b'"' => Some("\""),
        b'\'' => Some("'"),
        b'0' => Some("\0"),
        b'{' => Some("{"),
        _ => None,
    }
}

/// The text that the characters between `"` stand for. `None` where an escape is none that the
/// language has.
pub(crate) fn unescaped(alloc: Global, inner: &str) -> Result<Option<Chars>, Memory>
    ensures { IfOk result (λ found. MatchOption found
        ((characters : List Character) → IsInner 34 inner.now characters → ¬ AllByRecursion IsKnown characters)
        (λ text. (characters : List Character) → IsInner 34 inner.now characters → AllByRecursion IsKnown characters
        × (text ≡ text_of characters))) }
{
    let mut text = String::new(alloc);
    let mut rest = inner;
    while let Some((before, escaped)) = split_at_mark(rest, '\\') {
        let Some((letter, behind)) = split_byte(escaped) else {
            return Ok(None);
        };
        let Some(meaning) = escape(letter) else {
            return Ok(None);
        };
        text.push_str(before)?;
        text.push_str(meaning)?;
        rest = behind;
    }
    text.push_str(rest)?;
    Ok(Some(Chars::new(text)))
}

// What the start of a text that stands behind a backslash stands for in a raw text, with the
// backslash, and what goes on behind that.
fn raw_pair(escaped: &str) -> (&'static str, &str)
    ensures { RawPair escaped.now result.0.now result.1.now }
{
    if let Some(behind) = strip_mark(escaped, '\'') {
        return ("'", behind);
    }
    match strip_mark(escaped, '\\') {
        Some(behind) => ("\\\\", behind),
        None => ("\\", escaped),
    }
}

/// The text that the characters between `'` of a raw text, a regex or a timestamp stand for.
pub(crate) fn raw(alloc: Global, inner: &str) -> Result<Chars, Memory>
    ensures { IfOk result (λ text. (characters : List Character) → IsInner 39 inner.now characters
        → text ≡ raw_of characters) }
{
    let mut text = String::new(alloc);
    let mut rest = inner;
    while let Some((before, escaped)) = split_at_mark(rest, '\\') {
        let (meaning, behind) = raw_pair(escaped);
        text.push_str(before)?;
        text.push_str(meaning)?;
        rest = behind;
    }
    text.push_str(rest)?;
    Ok(Chars::new(text))
}

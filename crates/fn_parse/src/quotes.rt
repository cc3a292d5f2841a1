ghost use Rattle.std.specs.Prelude.{◌≡◌, ◌++◌, ◌∷◌, ◌<◌, ◌≤◌, ℕ, false, length, slice_index, string_bytes, true, IfOk, MatchOption, OnOk};
ghost use Rattle.fn_parse.specs.Quotes.{behind_unit, closing_place, escaped, in_quotes, is_mark, unescaped, IsClosed};

use std::alloc::Global;
use vrl_value::{Chars, Memory};

// Whether it is a quote or a backslash.
fn is_mark(byte: u8) -> bool
    ensures { result ≡ is_mark byte }
{
    byte == b'"' || byte == b'\\'
}

// What is left behind a byte, and behind the byte that it takes with it: a backslash takes a quote
// or a backslash.
fn behind_unit(first: u8, rest: &[u8]) -> &[u8]
    ensures { result.now ≡ behind_unit first rest.now }
{
    match rest.split_first() {
        Some((next, behind)) if first == b'\\' && is_mark(*next) => behind,
        _ => rest,
    }
}

// The place of the quote that closes a text behind an opening one. `None`: none does.
fn closing_place(text: &[u8]) -> Option<usize>
    ensures { result ≡ closing_place text.now }
{
    let mut left = text;
    while let Some((first, rest)) = left.split_first() {
        if *first == b'"' {
            return Some(text.len() - left.len());
        }
        left = behind_unit(*first, rest);
    }
    None
}

/// A text behind an opening quote, cut at the closing one: what stands before it, and what stands
/// behind it. `None`: no quote closes it. A quote or a backslash behind a backslash closes nothing.
pub(crate) fn split_quoted(text: &str) -> Option<(&str, &str)>
    ensures { MatchOption result (closing_place text.now ≡ None) (λ cut. IsClosed text.now cut.0.now cut.1.now) }
{
    let place = closing_place(text.as_bytes())?;
    let (inner, closing) = text.split_at(place);
    let (_quote, behind) = closing.split_at(1);
    Some((inner, behind))
}

// What a backslash before this text stands for, and what is left of the text behind it.
fn split_escape(behind: &str) -> (&'static str, &str)
    ensures value { unescaped (0x5C ∷ behind.now) ≡ result.0.now ++ unescaped result.1.now }
    ensures within { length result.1.now ≤ length behind.now }
{
    if let Some(rest) = behind.strip_prefix('"') {
        return ("\"", rest);
    }
    if let Some(rest) = behind.strip_prefix('\\') {
        return ("\\", rest);
    }
    ("\\", behind)
}

/// What a text between quotes stands for: `\"` for a quote, `\\` for a backslash, and any other
/// backslash for itself. `Memory`: want of memory.
pub(crate) fn unescaped(alloc: Global, text: &str) -> Result<Chars, Memory>
    ensures { IfOk result (λ plain. plain ≡ unescaped text.now) }
{
    let mut plain = String::with_capacity(alloc, text.len())?;
    let mut left = text;
    while let Some((before, behind)) = left.split_once('\\') {
        plain.push_str(before)?;
        let (stands_for, rest) = split_escape(behind);
        plain.push_str(stands_for)?;
        left = rest;
    }
    plain.push_str(left)?;
    Ok(Chars::new(plain))
}

// How many bytes stand before the first quote or backslash.
fn plain_length(text: &[u8]) -> usize
    ensures within { result ≤ length text.now }
    ensures before { (k : ℕ) → k < result → is_mark (slice_index text.now k) ≡ false }
    ensures after { result < length text.now → is_mark (slice_index text.now result) ≡ true }
{
    text.iter()
        .position(|byte| is_mark(*byte))
        .unwrap_or(text.len())
}

// A text cut at its first quote or backslash.
#[derive(Clone, Copy)]
struct Marked<'a> {
    before: &'a str,
    mark: &'a str,
    behind: &'a str,
}

// `None`: it holds none.
fn split_mark(text: &str) -> Option<Marked<'_>>
    ensures { MatchOption result
        (escaped text.now ≡ text.now)
        (λ cut. (escaped text.now ≡ cut.before.now ++ (0x5C ∷ (cut.mark.now ++ escaped cut.behind.now)))
        × (length cut.behind.now < length text.now)) }
{
    let length = plain_length(text.as_bytes());
    if length == text.len() {
        return None;
    }
    let (before, marked) = text.split_at(length);
    let (mark, behind) = marked.split_at(1);
    Some(Marked {
        before,
        mark,
        behind,
    })
}

// Writes a text with a backslash before each quote and each backslash. `Memory`: want of memory.
fn push_escaped(out: &mut String, text: &str) -> Result<(), Memory>
    ensures { OnOk result (string_bytes out.new ≡ string_bytes out.old ++ escaped text.now) }
{
    let mut left = text;
    while let Some(marked) = split_mark(left) {
        out.push_str(marked.before)?;
        out.push_str("\\")?;
        out.push_str(marked.mark)?;
        left = marked.behind;
    }
    Ok(out.push_str(left)?)
}

/// Writes a text in quotes, with a backslash before each quote and each backslash of it. `Memory`:
/// want of memory.
pub(crate) fn push_in_quotes(out: &mut String, text: &str) -> Result<(), Memory>
    ensures { OnOk result (string_bytes out.new ≡ string_bytes out.old ++ in_quotes text.now) }
{
    out.push_str("\"")?;
    push_escaped(out, text)?;
    Ok(out.push_str("\"")?)
}

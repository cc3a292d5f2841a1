ghost use Rattle.std.specs.Prelude.{◌≡◌, ◌≢◌, ◌<◌, ◌≤◌, ◌^◌, ◌++◌, [], ◌∷◌, IfOk, IfSome, OnOk, length, map, option_map, string_bytes};
ghost use Rattle.vrl_value.specs.Tree.{string};
ghost use Rattle.vrl_value.specs.View.{tree_of};
ghost use Rattle.fn_search.specs.Cut.{cut, cut_up, joined, parts_between};

use std::alloc::Global;
use vrl_value::{Chars, Memory, Value};

/// What stands before the first place where the text goes on with the part, and what stands behind
/// the part there. `None`: there is no such place.
pub(crate) fn cut<'a>(part: &str, text: &'a str) -> Option<(&'a str, &'a str)>
    ensures parts { option_map (λ parts. (parts.0.now, parts.1.now)) result ≡ cut part.now text.now }
    ensures within { IfSome result (λ parts. length parts.0.now ≤ length text.now) }
{
    text.split_once(part)
}

/// How many bytes the text has, which are fewer than 2^63.
pub(crate) fn length_of(text: &str) -> usize
    ensures value { result ≡ length text.now }
    ensures small { length text.now < 2 ^ 63 }
{
    text.len()
}

// ---- parts

// The texts, with one more behind them. `Memory`: want of memory.
fn with_text(alloc: Global, texts: Vec<Value>, last: &str) -> Result<Vec<Value>, Memory>
    ensures { IfOk result (λ all. map tree_of all.items ≡ map tree_of texts.items ++ (string last.now ∷ [])) }
{
    let mut all = texts;
    all.push(Value::Text(Chars::copy_of(alloc, last)?))?;
    Ok(all)
}

// The parts between the first so many places where the part stands, as strings. `Memory`: want of
// memory.
fn cut_up(alloc: Global, part: &str, cuts: usize, text: &str) -> Result<Vec<Value>, Memory>
    ensures { IfOk result (λ parts. map tree_of parts.items ≡ map string (cut_up part.now cuts text.now)) }
{
    let mut parts = Vec::new(alloc);
    let mut rest = text;
    let mut left = cuts;
    while left > 0 {
        let Some((before, behind)) = cut(part, rest) else {
            return with_text(alloc, parts, rest);
        };
        parts = with_text(alloc, parts, before)?;
        rest = behind;
        left -= 1;
    }
    with_text(alloc, parts, rest)
}

/// The parts between the first so many places where the part stands, as strings; an empty one cuts
/// nothing. `Memory`: want of memory.
pub(crate) fn parts_between(
    alloc: Global,
    part: &str,
    cuts: usize,
    text: &str,
) -> Result<Vec<Value>, Memory>
    ensures { IfOk result (λ parts. map tree_of parts.items ≡ map string (parts_between part.now cuts text.now)) }
{
    cut_up(alloc, part, cuts_by(part, cuts), text)
}

// How often an empty part cuts, or another.
fn cuts_by(part: &str, cuts: usize) -> usize
    ensures none { part.now ≡ [] → result ≡ 0 }
    ensures some { part.now ≢ [] → result ≡ cuts }
{
    if part.is_empty() { 0 } else { cuts }
}

// ---- parts put together

// Puts two texts behind another. `Memory`: want of memory.
fn push_both(text: &mut String, first: &str, second: &str) -> Result<(), Memory>
    ensures { OnOk result (string_bytes text.new ≡ string_bytes text.old ++ (first.now ++ second.now)) }
{
    text.push_str(first)?;
    text.push_str(second)?;
    Ok(())
}

// The parts between the first so many places where the part stands, with another text between each
// two. `Memory`: want of memory.
fn swap_up(alloc: Global, part: &str, with: &str, cuts: usize, text: &str) -> Result<Chars, Memory>
    ensures { IfOk result (λ changed. changed ≡ joined with.now (cut_up part.now cuts text.now)) }
{
    let mut changed = String::with_capacity(alloc, text.len())?;
    let mut rest = text;
    let mut left = cuts;
    while left > 0 {
        let Some((before, behind)) = cut(part, rest) else {
            changed.push_str(rest)?;
            return Ok(Chars::new(changed));
        };
        push_both(&mut changed, before, with)?;
        rest = behind;
        left -= 1;
    }
    changed.push_str(rest)?;
    Ok(Chars::new(changed))
}

/// The text with another in place of the part, at the first so many places where that stands; an
/// empty one stands nowhere. `Memory`: want of memory.
pub(crate) fn swapped(
    alloc: Global,
    part: &str,
    with: &str,
    cuts: usize,
    text: &str,
) -> Result<Chars, Memory>
    ensures { IfOk result (λ changed. changed ≡ joined with.now (parts_between part.now cuts text.now)) }
{
    swap_up(alloc, part, with, cuts_by(part, cuts), text)
}

ghost use Rattle.std.specs.Prelude.{◌≡◌, ◌<◌, ◌≤◌, ℕ, [], ◌∷◌, IfOk, MatchOption, length, slice_index};
ghost use Rattle.vrl_pattern.specs.Groups.{at, escaped, begun, parenthesis, name, behind as mode_behind, name_of, names_from, groups_of};
ghost use Rattle.vrl_pattern.specs.Marks.{IsMark, without};

use std::alloc::Global;
use vrl_value::{Chars, Memory, Names};

// How many bytes stand before the first `\`, `[`, `]` or `(`.
fn plain_length(source: &str) -> usize
    ensures within { result ≤ length source.now }
    ensures before { (k : ℕ) → k < result → ¬ IsMark (slice_index source.now k) }
    ensures after { result < length source.now → IsMark (slice_index source.now result) }
{
    source
        .bytes()
        .position(|byte| matches!(byte, b'\\' | b'[' | b']' | b'('))
        .unwrap_or(source.len())
}

// The first `\`, `[`, `]` or `(`, and what stands behind it. `None` where there is none.
fn split_mark(source: &str) -> Option<(u8, &str)>
    ensures { MatchOption result
        ((n : ℕ) → names_from (at n) source.now ≡ [])
        (λ cut. (length cut.1.now < length source.now)
        × ((n : ℕ) → names_from (at n) source.now ≡ names_from (mode_behind n cut.0) cut.1.now)) }
{
    let length = plain_length(source);
    if length == source.len() {
        return None;
    }
    let mark = source.as_bytes()[length];
    let (_, behind) = source.split_at(length + 1);
    Some((mark, behind))
}

// What stands behind the character that a backslash escapes. One of several bytes may stand, since
// it holds no mark.
fn behind_escape(source: &str) -> &str
    ensures within { length result.now ≤ length source.now }
    ensures same { (n : ℕ) → names_from (escaped n) source.now ≡ names_from (at n) result.now }
{
    if source.is_empty() || source.as_bytes()[0] >= 128 {
        return source;
    }
    let (_, behind) = source.split_at(1);
    behind
}

// The text without the mark, where it begins with it.
fn without_front(text: &str, mark: char) -> &str
    requires { mark < 128 }
    ensures value { result.now ≡ without mark text.now }
    ensures within { length result.now ≤ length text.now }
{
    match text.strip_prefix(mark) {
        Some(rest) => rest,
        None => text,
    }
}

// What stands behind the `^` and the plain `]` that a class may begin with.
fn behind_bracket(source: &str) -> &str
    ensures within { length result.now ≤ length source.now }
    ensures same { (n : ℕ) → names_from (begun n) source.now ≡ names_from (at n) result.now }
{
    without_front(without_front(source, '^'), ']')
}

// What stands behind the first `(` outside classes. `None` where there is none.
fn behind_parenthesis(source: &str) -> Option<&str>
    ensures { MatchOption result
        (names_from (at 0) source.now ≡ [])
        (λ behind. (length behind.now < length source.now)
        × (names_from (at 0) source.now ≡ names_from parenthesis behind.now)) }
{
    let mut classes: usize = 0;
    let mut rest = source;
    while let Some((mark, behind)) = split_mark(rest) {
        rest = match mark {
            b'\\' => behind_escape(behind),
            b'[' => {
                classes += 1;
                behind_bracket(behind)
            }
            b']' => {
                classes = classes.saturating_sub(1);
                behind
            }
            b'(' if classes == 0 => return Some(behind),
            _ => behind,
        };
    }
    None
}

// A name, which goes up to `>` or the end, and what stands behind it.
fn split_name(named: &str) -> (&str, &str)
    ensures name { result.0.now ≡ name_of named.now }
    ensures rest { names_from name named.now ≡ names_from (at 0) result.1.now }
    ensures within { length result.1.now ≤ length named.now }
{
    match named.split_once('>') {
        Some(cut) => cut,
        None => (named, ""),
    }
}

// The name of the group that a `(` before this text opens, which is empty for a group without a
// name, and what stands behind the name. `None` where it opens no group.
fn split_opening(behind: &str) -> Option<(&str, &str)>
    ensures { MatchOption result
        (names_from parenthesis behind.now ≡ names_from (at 0) behind.now)
        (λ cut. (length cut.1.now ≤ length behind.now)
        × (names_from parenthesis behind.now ≡ cut.0.now ∷ names_from (at 0) cut.1.now)) }
{
    let Some(asked) = behind.strip_prefix('?') else {
        return Some(("", behind));
    };
    match without_front(asked, 'P').strip_prefix('<') {
        Some(named) => Some(split_name(named)),
        None => None,
    }
}

/// The names of the groups that the source opens, from group 0 on; that of a group without a name
/// is empty. `Memory`: want of memory.
pub(crate) fn group_names(alloc: Global, source: &str) -> Result<Names, Memory>
    ensures { IfOk result (λ names. names ≡ groups_of source.now) }
{
    let mut names = vec![in alloc; Chars::copy_of(alloc, "")?]?;
    let mut rest = source;
    while let Some(behind) = behind_parenthesis(rest) {
        rest = behind;
        if let Some((name, after)) = split_opening(behind) {
            names.push(Chars::copy_of(alloc, name)?)?;
            rest = after;
        }
    }
    Ok(Names::new(names))
}

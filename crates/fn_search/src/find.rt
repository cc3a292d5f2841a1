ghost use Rattle.std.specs.Prelude.{◌≡◌, ◌≤◌, ◌<◌, ◌+◌, ◌^◌, ℕ, pos, IfOk, IfSome, IsErr, IsTrue, List, MatchOption, None, drop, length, option_map};
ghost use Rattle.vrl_value.specs.Regexes.{regexes_below};
ghost use Rattle.vrl_value.specs.View.{tree_of};
ghost use Rattle.vrl_builtin.specs.Rows.{value_at};
ghost use Rattle.fn_search.specs.Cut.{cut as cut_text};
ghost use Rattle.fn_search.specs.Find.{find_row, first_place, is_regex, number_or_null, place_from, start_of};
ghost use Rattle.fn_search.specs.Laws.{find-law};

use crate::cut::{cut, length_of};
use std::alloc::Global;
use vrl_builtin::{
    Applied, Arguments, Builtin, Givens, Parameter, Setting, Tags, either_tag, optional, required,
};
use vrl_kind::Kind;
use vrl_pattern::{Patterns, Searches};
use vrl_value::{Memory, Tag, Value};

/// `find(value: string, pattern: string or regex, from: integer = 0)`: integer or null. The byte at
/// which the pattern first stands in the text, from byte `from` on; what is left from there on is
/// taken by itself. Null where it doesn't stand there, and where `from` is outside the text or
/// inside a character. An empty string is found at `from`. It never fails. `find("abc", "c")` is 2.
#[derive(Clone, Copy)]
pub struct Find;

/// Strings and regexes.
pub(crate) const PATTERNS: Tags = Tags {
    string: true,
    regex: true,
    ..Tags::NONE
};

static PARAMETERS: [Parameter; 3] = [
    required!("value", Tags::STRING),
    required!("pattern", PATTERNS),
    optional!("from", Tags::INTEGER),
];

// How many bytes stand before the first place of the part. `None`: there is none.
fn text_place(part: &str, text: &str) -> Option<usize>
    ensures place { result ≡ option_map (λ parts. length parts.0) (cut_text part.now text.now) }
    ensures within { IfSome result (λ n. n ≤ length text.now) }
{
    match cut(part, text) {
        Some((before, _)) => Some(before.len()),
        None => None,
    }
}

// The byte at which a text or a regex first stands in a text. `None`: it doesn't. `Memory`: out of
// memory to search for a regex.
fn first_place(
    alloc: Global,
    searches: &Searches<'_>,
    text: &str,
    pattern: &Value,
) -> Result<Option<usize>, Memory>
    requires { IsTrue (regexes_below (length searches.now) (tree_of pattern.now)) }
    ensures place { IfOk result (λ place. place ≡ first_place searches.now text.now (tree_of pattern.now)) }
    ensures within { IfOk result (λ place. IfSome place (λ n. n ≤ length text.now)) }
    ensures memory { IsErr result → IsTrue (is_regex (tree_of pattern.now)) }
{
    match pattern {
        Value::Text(part) => Ok(text_place(part.as_str(), text)),
        Value::Pattern(number) => match searches.find(alloc, *number, text)? {
            Some(place) => Ok(Some(place.start)),
            None => Ok(None),
        },
        _ => Ok(None),
    }
}

// A byte from which on the text is looked at, and what is left from there on. `None`: it is outside
// the text or inside a character.
fn left_from(text: &str, from: i64) -> Option<(usize, &str)>
    ensures { MatchOption result (start_of text.now from ≡ None)
        (λ left. (from ≡ pos left.0) × (left.1.now ≡ drop left.0 text.now)
        × (left.0 + length left.1.now ≡ length text.now)) }
{
    let Ok(start) = usize::try_from(from) else {
        return None;
    };
    match text.get(start..) {
        Some(left) => Some((start, left)),
        None => None,
    }
}

// A place as a number, counted from a byte on, or null.
fn number_of(place: Option<usize>, start: usize) -> Value
    requires { IfSome place (λ k. start + k < 2 ^ 63) }
    ensures { tree_of result ≡ number_or_null (option_map (λ k. start + k) place) }
{
    match place {
        Some(place) => Value::Int((start + place) as i64),
        None => Value::Null,
    }
}

// Where the pattern stands in what is left from a byte on. `Memory`: out of memory to search for a
// regex.
fn place_behind(
    alloc: Global,
    searches: &Searches<'_>,
    left: &str,
    pattern: &Value,
    start: usize,
) -> Result<Value, Memory>
    requires regexes { IsTrue (regexes_below (length searches.now) (tree_of pattern.now)) }
    requires small { start + length left.now < 2 ^ 63 }
    ensures value { (text : List ℕ) → start ≤ length text → left.now ≡ drop start text
        → IfOk result
        (λ value. tree_of value ≡ number_or_null (place_from searches.now text (tree_of pattern.now) (pos start))) }
    ensures memory { IsErr result → IsTrue (is_regex (tree_of pattern.now)) }
{
    let place = first_place(alloc, searches, left, pattern)?;
    Ok(number_of(place, start))
}

// The byte at which a text or a regex first stands from a byte on, or null. `Memory`: out of memory
// to search for a regex.
fn place_from(
    alloc: Global,
    searches: &Searches<'_>,
    text: &str,
    pattern: &Value,
    from: i64,
) -> Result<Value, Memory>
    requires { IsTrue (regexes_below (length searches.now) (tree_of pattern.now)) }
    ensures value { IfOk result
        (λ value. tree_of value ≡ number_or_null (place_from searches.now text.now (tree_of pattern.now) from)) }
    ensures memory { IsErr result → IsTrue (is_regex (tree_of pattern.now)) }
{
    let _length = length_of(text);
    match left_from(text, from) {
        Some((start, left)) => place_behind(alloc, searches, left, pattern, start),
        None => Ok(Value::Null),
    }
}

impl Builtin for Find {
    ghost row = { λ _. find_row };

    ghost uses_memory = { λ _ arguments. is_regex (value_at 1 arguments) };

    fn name(&self) -> &'static str {
        "find"
    }

    fn parameters(&self) -> &'static [Parameter] {
        &PARAMETERS
    }

    fn accepts(&self, _place: usize, _literal: &Value) -> bool {
        true
    }

    fn result_kind(
        &self,
        alloc: Global,
        _given: &Givens,
        _patterns: &Patterns,
    ) -> Result<Kind, Memory> {
        either_tag(alloc, Tag::Int, Tag::Null)
    }

    fn may_fail(&self, _given: &Givens) -> bool {
        false
    }

    fn apply(
        &self,
        alloc: Global,
        arguments: &Arguments<'_>,
        setting: &Setting<'_, '_>,
    ) -> Applied {
        let (text, from) = (arguments.text(0, ""), arguments.integer(2, 0));
        match place_from(alloc, setting.searches, text, arguments.value(1), from) {
            Ok(place) => Applied::Value(place),
            Err(_memory) => Applied::Memory,
        }
    }

    ghost law = { λ _. find-law };
}

ghost use Rattle.std.specs.Prelude.{◌≡◌, ◌≤◌, IfOk, IsTrue, length, map};
ghost use Rattle.vrl_value.specs.Regexes.{regexes_below};
ghost use Rattle.vrl_value.specs.Tree.{array, string};
ghost use Rattle.vrl_value.specs.View.{items_of, items_of_trees, tree_of};
ghost use Rattle.fn_search.specs.Laws.{split-law};
ghost use Rattle.fn_search.specs.Split.{most_parts, split_by, split_row};

use crate::cut::parts_between;
use crate::find::PATTERNS;
use std::alloc::Global;
use vrl_builtin::{
    Applied, Arguments, Builtin, Givens, Parameter, Setting, Tags, array_of_tag, optional, required,
};
use vrl_kind::Kind;
use vrl_pattern::{Patterns, Searches};
use vrl_value::{Items, Memory, Tag, Value};

/// `split(value: string, pattern: string or regex, limit: integer)`: array of string. The parts of
/// the text between the matches of the pattern, from the left; an empty string cuts nothing. With a
/// limit there are at most so many parts, the last of which holds the rest; a limit below 1 counts
/// as 1. It never fails. `split("a,b,c", ",", limit: 2)` is `["a","b,c"]`.
#[derive(Clone, Copy)]
pub struct Split;

static PARAMETERS: [Parameter; 3] = [
    required!("value", Tags::STRING),
    required!("pattern", PATTERNS),
    optional!("limit", Tags::INTEGER),
];

// How many parts there may be of a text: what a limit says, of which one below 1 counts as 1, or as
// many as there can be.
fn most_parts(limit: Option<i64>, text: &str) -> usize
    ensures most { result ≡ most_parts limit text.now }
    ensures some { 1 ≤ result }
{
    match limit {
        Some(limit) if limit < 1 => 1,
        Some(limit) => limit.unsigned_abs() as usize,
        None => text.len() + 2,
    }
}

// The parts of a text between the matches of a text or a regex, at most so many. `Memory`: want of
// memory.
fn split_by(
    alloc: Global,
    searches: &Searches<'_>,
    text: &str,
    pattern: &Value,
    most: usize,
) -> Result<Items, Memory>
    requires regexes { IsTrue (regexes_below (length searches.now) (tree_of pattern.now)) }
    requires some { 1 ≤ most }
    ensures { IfOk result
        (λ parts. items_of parts ≡ items_of_trees
        (map string (split_by searches.now text.now (tree_of pattern.now) most))) }
{
    match pattern {
        Value::Text(part) => Ok(Items::new(parts_between(alloc, part.as_str(), most - 1, text)?)),
        Value::Pattern(number) => searches.split(alloc, *number, text, most as u64),
        _ => Ok(Items::new(Vec::new(alloc))),
    }
}

// The same as a value. `Memory`: want of memory.
fn parts(
    alloc: Global,
    searches: &Searches<'_>,
    text: &str,
    pattern: &Value,
    limit: Option<i64>,
) -> Result<Value, Memory>
    requires { IsTrue (regexes_below (length searches.now) (tree_of pattern.now)) }
    ensures { IfOk result
        (λ value. tree_of value ≡ array
        (items_of_trees
        (map string (split_by searches.now text.now (tree_of pattern.now) (most_parts limit text.now))))) }
{
    let most = most_parts(limit, text);
    Ok(Value::List(split_by(alloc, searches, text, pattern, most)?))
}

impl Builtin for Split {
    ghost row = { λ _. split_row };

    fn name(&self) -> &'static str {
        "split"
    }

    fn parameters(&self) -> &'static [Parameter] {
        &PARAMETERS
    }

    fn accepts(&self, _place: usize, _literal: &Value) -> bool {
        true
    }

    fn result_kind(
        &self,
        alloc: Global,
        _given: &Givens,
        _patterns: &Patterns,
    ) -> Result<Kind, Memory> {
        array_of_tag(alloc, Tag::Text)
    }

    fn may_fail(&self, _given: &Givens) -> bool {
        false
    }

    fn apply(
        &self,
        alloc: Global,
        arguments: &Arguments<'_>,
        setting: &Setting<'_, '_>,
    ) -> Applied {
        let (text, limit) = (arguments.text(0, ""), arguments.optional_integer(2));
        Applied::value(parts(alloc, setting.searches, text, arguments.value(1), limit))
    }

    ghost law = { λ _. split-law };
}

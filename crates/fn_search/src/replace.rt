ghost use Rattle.std.specs.Prelude.{◌≡◌, IfOk, IsTrue, length};
ghost use Rattle.vrl_value.specs.Regexes.{regexes_below};
ghost use Rattle.vrl_value.specs.View.{tree_of};
ghost use Rattle.fn_search.specs.Laws.{replace-law};
ghost use Rattle.fn_search.specs.Replace.{count_of, cuts_of, replace_by, replace_row};

use crate::cut::swapped;
use crate::find::PATTERNS;
use std::alloc::Global;
use vrl_builtin::{
    Applied, Arguments, Givens, OneTag, Parameter, Setting, Tags, optional, required,
};
use vrl_pattern::Searches;
use vrl_value::{Chars, Memory, Tag, Value};

/// `replace(value: string, pattern: string or regex, with: string, count: integer =
/// -1)`: string. The text with the first `count` matches of the pattern from the left replaced, or
/// each where the count is negative. For a regex `with` is a template of the crate `regex`: `$1`,
/// `${1}` and `${name}` stand for what a group matched, and `$$` for `$`. An empty string changes
/// nothing. It never fails. `replace("aaa", "a", "b", count: 2)` is `"bba"`.
#[derive(Clone, Copy)]
pub struct Replace;

static PARAMETERS: [Parameter; 4] = [
    required!("value", Tags::STRING),
    required!("pattern", PATTERNS),
    required!("with", Tags::STRING),
    optional!("count", Tags::INTEGER),
];

// How many matches are replaced at most. `None`: each is.
fn count_of(count: i64) -> Option<u64>
    ensures { result ≡ count_of count }
{
    if count < 0 {
        None
    } else {
        Some(count.unsigned_abs())
    }
}

// How often a text is looked for in another.
fn cuts_of(text: &str, count: Option<u64>) -> usize
    ensures { result ≡ cuts_of text.now count }
{
    match count {
        Some(count) => count as usize,
        None => text.len(),
    }
}

// The text with the first so many matches of a text or a regex replaced, or each. `Memory`: want of
// memory.
fn replace_by(
    alloc: Global,
    searches: &Searches<'_>,
    text: &str,
    pattern: &Value,
    with: &str,
    count: Option<u64>,
) -> Result<Chars, Memory>
    requires { IsTrue (regexes_below (length searches.now) (tree_of pattern.now)) }
    ensures { IfOk result (λ changed. changed ≡ replace_by searches.now text.now (tree_of pattern.now) with.now count) }
{
    match pattern {
        Value::Text(part) => swapped(alloc, part.as_str(), with, cuts_of(text, count), text),
        Value::Pattern(number) => searches.replace(alloc, *number, text, with, count),
        _ => Chars::copy_of(alloc, text),
    }
}

impl OneTag for Replace {
    ghost one_tag_row = { λ _. replace_row };

    fn name(&self) -> &'static str {
        "replace"
    }

    fn parameters(&self) -> &'static [Parameter] {
        &PARAMETERS
    }

    fn tag(&self) -> Tag {
        Tag::Text
    }

    fn may_fail(&self, _given: &Givens) -> bool {
        false
    }

    fn apply(
        &self,
        alloc: Global,
        arguments: &Arguments<'_>,
        setting: &Setting<'_, '_>,
    ) -> Applied {
        let (text, with) = (arguments.text(0, ""), arguments.text(2, ""));
        let count = count_of(arguments.integer(3, -1));
        Applied::text(replace_by(
            alloc,
            setting.searches,
            text,
            arguments.value(1),
            with,
            count,
        ))
    }

    ghost one_tag = { λ _. replace-law };
}

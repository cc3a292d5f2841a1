ghost use Rattle.std.specs.Prelude.{◌≡◌, codes, length, IfOk, IsOk, IsTrue};
ghost use Rattle.vrl_value.specs.Regexes.{items_regexes_below};
ghost use Rattle.vrl_value.specs.Tree.{no_items};
ghost use Rattle.vrl_value.specs.View.{items_view};
ghost use Rattle.vrl_builtin.specs.Rows.{items_at, named};
ghost use Rattle.vrl_builtin.specs.View.{Applies};
ghost use Rattle.fn_search.specs.MatchAny.{are_tried, match_any_answer, match_any_row, some_matches};
ghost use Rattle.fn_search.specs.MatchAnyLaw.{match_any-law};

use crate::sources::is_match;
use std::alloc::Global;
use vrl_builtin::{
    Applied, Arguments, Givens, OneTag, Parameter, Setting, Tags, fail_at_element, first_other,
    required,
};
use vrl_pattern::Searches;
use vrl_value::{Memory, Tag, Value};

/// `match_any(value: string, patterns: array)`: boolean. Whether one of the regexes in the array
/// matches somewhere in the text. It may fail where a part may be something else than a regex:
/// `element N is TAG`, N being the place of the first such part from 0 on, whatever matches before
/// it. `match_any("ab", [r'x', r'b'])` is true.
#[derive(Clone, Copy)]
pub struct MatchAny;

static PARAMETERS: [Parameter; 2] = [
    required!("value", Tags::STRING),
    required!("patterns", Tags::ARRAY),
];

// Whether one of the values is a regex that matches somewhere in the text. `Memory`: want of
// memory, which takes a value to be tried.
fn some_matches(
    alloc: Global,
    searches: &Searches<'_>,
    text: &str,
    items: &[Value],
) -> Result<bool, Memory>
    requires { IsTrue (items_regexes_below (length searches.now) (items_view items.now)) }
    ensures found { IfOk result (λ found. found ≡ some_matches searches.now text.now (items_view items.now)) }
    ensures none { items_view items.now ≡ no_items → IsOk result }
{
    let mut left = items;
    while let Some((first, others)) = left.split_first() {
        if is_match(alloc, searches, text, first)? {
            return Ok(true);
        }
        left = others;
    }
    Ok(false)
}

// What the function answers to this text and these parts.
fn answer(alloc: Global, searches: &Searches<'_>, text: &str, items: &[Value]) -> Applied
    requires { IsTrue (items_regexes_below (length searches.now) (items_view items.now)) }
    ensures { Applies (are_tried (items_view items.now))
        (named (codes "match_any") (match_any_answer searches.now text.now (items_view items.now))) result }
{
    match first_other(items, &Tags::REGEX) {
        Some((place, tag)) => fail_at_element("match_any", place, tag),
        None => Applied::boolean(some_matches(alloc, searches, text, items)),
    }
}

impl OneTag for MatchAny {
    ghost one_tag_row = { λ _. match_any_row };

    ghost uses_memory = { λ _ arguments. are_tried (items_at 1 arguments) };

    fn name(&self) -> &'static str {
        "match_any"
    }

    fn parameters(&self) -> &'static [Parameter] {
        &PARAMETERS
    }

    fn tag(&self) -> Tag {
        Tag::Bool
    }

    fn may_fail(&self, given: &Givens) -> bool {
        given.part_allows_other(1, &Tags::REGEX)
    }

    fn apply(
        &self,
        alloc: Global,
        arguments: &Arguments<'_>,
        setting: &Setting<'_, '_>,
    ) -> Applied {
        let text = arguments.text(0, "");
        answer(alloc, setting.searches, text, arguments.items(1))
    }

    ghost one_tag = { λ _. match_any-law };
}

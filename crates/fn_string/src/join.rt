ghost use Rattle.std.specs.Prelude.{◌≡◌, codes, false, IfOk, IsOk};
ghost use Rattle.vrl_value.specs.Tree.{no_items};
ghost use Rattle.vrl_value.specs.View.{items_view, tree_of};
ghost use Rattle.vrl_builtin.specs.Rows.{named};
ghost use Rattle.vrl_builtin.specs.View.{Applies};
ghost use Rattle.fn_string.specs.Join.{join_answer, join_row, joined, text_of};
ghost use Rattle.fn_string.specs.JoinLaw.{join-law};

use std::alloc::Global;
use vrl_builtin::{
    Applied, Arguments, Givens, OneTag, Parameter, Setting, Tags, fail_at_element, first_other,
    optional, required,
};
use vrl_value::{Chars, Memory, Tag, Value};

/// `join(value: array, separator: string = "")`: string. The strings of the array as one, with the
/// separator between each two. It may fail where a part may be something else than a string:
/// `element N is TAG`, N being the place of the first such part from 0 on. `join(["a","b"], "-")`
/// is `"a-b"`.
#[derive(Clone, Copy)]
pub struct Join;

static PARAMETERS: [Parameter; 2] = [
    required!("value", Tags::ARRAY),
    optional!("separator", Tags::STRING),
];

// The text of a string; empty for another value.
fn text_of(value: &Value) -> &str
    ensures { result.now ≡ text_of (tree_of value.now) }
{
    match value {
        Value::Text(text) => text.as_str(),
        _ => "",
    }
}

// The strings as one, with the separator between each two. `Memory`: out of memory; no string at
// all takes none.
fn joined(alloc: Global, items: &[Value], separator: &str) -> Result<Chars, Memory>
    ensures text { IfOk result (λ text. text ≡ joined separator.now (items_view items.now)) }
    ensures nothing { items_view items.now ≡ no_items → IsOk result }
{
    let Some((first, mut left)) = items.split_first() else {
        return Ok(Chars::new(String::new(alloc)));
    };
    let mut text = String::from_str(alloc, text_of(first))?;
    while let Some((next, others)) = left.split_first() {
        text.push_str(separator)?;
        text.push_str(text_of(next))?;
        left = others;
    }
    Ok(Chars::new(text))
}

// What the function answers to these parts and this separator.
fn answer(alloc: Global, items: &[Value], separator: &str) -> Applied
    ensures { Applies false (named (codes "join") (join_answer (items_view items.now) separator.now)) result }
{
    match first_other(items, &Tags::STRING) {
        Some((place, tag)) => fail_at_element("join", place, tag),
        None => Applied::text(joined(alloc, items, separator)),
    }
}

impl OneTag for Join {
    ghost one_tag_row = { λ _. join_row };

    fn name(&self) -> &'static str {
        "join"
    }

    fn parameters(&self) -> &'static [Parameter] {
        &PARAMETERS
    }

    fn tag(&self) -> Tag {
        Tag::Text
    }

    fn may_fail(&self, given: &Givens) -> bool {
        given.part_allows_other(0, &Tags::STRING)
    }

    fn apply(
        &self,
        alloc: Global,
        arguments: &Arguments<'_>,
        _setting: &Setting<'_, '_>,
    ) -> Applied {
        answer(alloc, arguments.items(0), arguments.text(1, ""))
    }

    ghost one_tag = { λ _. join-law };
}

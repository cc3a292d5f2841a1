ghost use Rattle.std.specs.Prelude.{◌≡◌, ◌<◌, ◌≤◌, ◌^◌, codes, false, length, IfOk, IfSome};
ghost use Rattle.vrl_value.specs.View.{items_of, items_view, tree_of};
ghost use Rattle.vrl_value.specs.Tree.{array, string};
ghost use Rattle.vrl_kind.specs.Kinds.{tags_at};
ghost use Rattle.vrl_kind.specs.Sets.{SameSets};
ghost use Rattle.vrl_builtin.specs.Rows.{named};
ghost use Rattle.vrl_builtin.specs.View.{Applies};
ghost use Rattle.fn_string.specs.Slice.{array_between, array_kind, end_of, is_range, place_of, range_between, range_of, slice_kind, slice_row, sliced, text_between, text_kind};
ghost use Rattle.fn_string.specs.SliceLaw.{slice-law};

use crate::characters::{first_characters, from_character};
use crate::strlen::count_of_characters;
use std::alloc::Global;
use vrl_builtin::{
    Applied, Arguments, Builtin, Givens, Parameter, Setting, Tags, array_of, array_parts, fail,
    optional, required,
};
use vrl_kind::{Kind, has, join};
use vrl_pattern::Patterns;
use vrl_value::{Chars, Items, Memory, Tag, Value};

/// `slice(value: string or array, start: integer, end: integer)`: a string where the value may be
/// one, and an array of the parts of its arrays where it may be an array. The characters of the
/// text, or the parts of the array, from `start` on up to `end`, by default to the end of the
/// value. A negative number counts from that end. It always may fail: `out of range`, unless 0 <=
/// start <= end <= the length. `slice("abcd", 1, -1)` is `"bc"`.
#[derive(Clone, Copy)]
pub struct Slice;

static PARAMETERS: [Parameter; 3] = [
    required!(
        "value",
        Tags {
            string: true,
            array: true,
            ..Tags::NONE
        }
    ),
    required!("start", Tags::INTEGER),
    optional!("end", Tags::INTEGER),
];

// ---- the range

// A place that is negative counts from the end.
fn place_of(count: usize, place: i64) -> i64
    requires { count < 2 ^ 63 }
    ensures { result ≡ place_of count place }
{
    if place < 0 {
        count as i64 + place
    } else {
        place
    }
}

// The end, where none is given that of the value.
fn end_of(count: usize, end: Option<i64>) -> i64
    requires { count < 2 ^ 63 }
    ensures { result ≡ end_of count end }
{
    match end {
        Some(end) => place_of(count, end),
        None => count as i64,
    }
}

fn is_range(count: usize, start: i64, end: i64) -> bool
    requires { count < 2 ^ 63 }
    ensures { result ≡ is_range count start end }
{
    0 <= start && start <= end && end <= count as i64
}

fn range_between(count: usize, start: i64, end: i64) -> Option<(usize, usize)>
    requires { count < 2 ^ 63 }
    ensures range { result ≡ range_between count start end }
    ensures within { IfSome result (λ range. (range.0 ≤ range.1) × (range.1 ≤ count)) }
{
    if is_range(count, start, end) {
        Some((start as usize, end as usize))
    } else {
        None
    }
}

// The first place, and the one behind the last, of so many. `None`: they are out of range.
fn range_of(count: usize, start: i64, end: Option<i64>) -> Option<(usize, usize)>
    requires { count < 2 ^ 63 }
    ensures range { result ≡ range_of count start end }
    ensures within { IfSome result (λ range. (range.0 ≤ range.1) × (range.1 ≤ count)) }
{
    range_between(count, place_of(count, start), end_of(count, end))
}

// ---- the value

// The characters of a text in a range. `Memory`: want of memory.
fn text_between(alloc: Global, text: &str, range: (usize, usize)) -> Result<Value, Memory>
    requires { range.0 ≤ range.1 }
    ensures { IfOk result (λ value. tree_of value ≡ text_between text.now range) }
{
    let behind = from_character(text, range.0);
    let between = first_characters(behind, range.1 - range.0);
    Ok(Value::Text(Chars::copy_of(alloc, between)?))
}

// Equal values. `Memory`: want of memory.
fn copies_of(alloc: Global, items: &[Value]) -> Result<Items, Memory>
    ensures { IfOk result (λ copies. items_of copies ≡ items_view items.now) }
{
    let mut copies = Vec::with_capacity(alloc, items.len())?;
    for item in items {
        copies.push(item.copy(alloc)?)?;
    }
    Ok(Items::new(copies))
}

// The parts of an array in a range. `Memory`: want of memory.
fn array_between(alloc: Global, items: &[Value], range: (usize, usize)) -> Result<Value, Memory>
    requires start { range.0 ≤ range.1 }
    requires end { range.1 ≤ length items.now }
    ensures { IfOk result (λ value. tree_of value ≡ array_between (items_view items.now) range) }
{
    Ok(Value::List(copies_of(alloc, &items[range.0..range.1])?))
}

fn answer_of_text(alloc: Global, text: &str, start: i64, end: Option<i64>) -> Applied
    ensures { Applies false (named (codes "slice") (sliced (string text.now) start end)) result }
{
    match range_of(count_of_characters(text), start, end) {
        Some(range) => Applied::value(text_between(alloc, text, range)),
        None => fail("slice", "out of range"),
    }
}

fn answer_of_array(alloc: Global, items: &[Value], start: i64, end: Option<i64>) -> Applied
    ensures { Applies false (named (codes "slice") (sliced (array (items_view items.now)) start end)) result }
{
    match range_of(items.len(), start, end) {
        Some(range) => Applied::value(array_between(alloc, items, range)),
        None => fail("slice", "out of range"),
    }
}

// What the function answers to this value and these places.
fn answer(alloc: Global, value: &Value, start: i64, end: Option<i64>) -> Applied
    ensures { Applies false (named (codes "slice") (sliced (tree_of value.now) start end)) result }
{
    match value {
        Value::Text(text) => answer_of_text(alloc, text.as_str(), start, end),
        Value::List(items) => answer_of_array(alloc, items.as_slice(), start, end),
        _ => fail("slice", "out of range"),
    }
}

// ---- the kind

// A text, where the kind allows one.
fn text_kind(alloc: Global, kind: &Kind) -> Kind
    ensures { SameSets (tags_at result) (text_kind kind.now) }
{
    if has(kind, Tag::Text) {
        Kind::of(alloc, Tag::Text)
    } else {
        Kind::never()
    }
}

// An array of the parts of the kind's arrays, where it allows an array. `Memory`: want of memory.
fn array_kind(alloc: Global, kind: &Kind) -> Result<Kind, Memory>
    ensures { IfOk result (λ arrays. SameSets (tags_at arrays) (array_kind kind.now)) }
{
    if has(kind, Tag::List) {
        array_of(alloc, array_parts(alloc, kind)?)
    } else {
        Ok(Kind::never())
    }
}

// Both. `Memory`: want of memory.
fn slice_kind(alloc: Global, kind: &Kind) -> Result<Kind, Memory>
    ensures { IfOk result (λ both. SameSets (tags_at both) (slice_kind (Some kind.now))) }
{
    let texts = text_kind(alloc, kind);
    let arrays = array_kind(alloc, kind)?;
    join(alloc, &texts, &arrays)
}

impl Builtin for Slice {
    ghost row = { λ _. slice_row };

    fn name(&self) -> &'static str {
        "slice"
    }

    fn parameters(&self) -> &'static [Parameter] {
        &PARAMETERS
    }

    fn accepts(&self, _place: usize, _literal: &Value) -> bool {
        true
    }

    fn result_kind(
        &self,
        alloc: Global,
        given: &Givens,
        _patterns: &Patterns,
    ) -> Result<Kind, Memory> {
        match given.kind(0) {
            Some(kind) => slice_kind(alloc, kind),
            None => Ok(Kind::never()),
        }
    }

    fn may_fail(&self, _given: &Givens) -> bool {
        true
    }

    fn apply(
        &self,
        alloc: Global,
        arguments: &Arguments<'_>,
        _setting: &Setting<'_, '_>,
    ) -> Applied {
        let (start, end) = (arguments.integer(1, 0), arguments.optional_integer(2));
        answer(alloc, arguments.value(0), start, end)
    }

    ghost law = { λ _. slice-law };
}

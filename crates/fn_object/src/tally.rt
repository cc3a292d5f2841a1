ghost use Rattle.std.specs.Prelude.{◌≡◌, ◌<◌, ◌^◌, codes, false, length, map, option_map, IfOk, IsOk, OnOk};
ghost use Rattle.vrl_value.specs.Tag.{tag_of};
ghost use Rattle.vrl_value.specs.Tree.{object};
ghost use Rattle.vrl_value.specs.View.{members_of, tree_of};
ghost use Rattle.vrl_value.specs.declared.value.Tag.TheVariants as tag;
ghost use Rattle.vrl_kind.specs.Tags.{same_tag};
ghost use Rattle.vrl_builtin.specs.Rows.{named};
ghost use Rattle.vrl_builtin.specs.View.{Applies};
ghost use Rattle.fn_object.specs.Counting.{add_count, add_counts, one_more};
ghost use Rattle.fn_object.specs.Tally.{counted, tallied, tally_row};
ghost use Rattle.fn_object.specs.TallyLaw.{tally-law};
ghost use Rattle.vrl_value.specs.Tree.{no_members};

use std::alloc::Global;
use std::collections::BTreeMap;
use vrl_builtin::{
    Applied, Arguments, Builtin, Givens, Parameter, Setting, Tags, fail_at_element, first_other,
    items_of, object_of_tag, required,
};
use vrl_kind::Kind;
use vrl_pattern::Patterns;
use vrl_value::{Fields, Memory, Tag, Value, members_are_maps};

/// `tally(value: array)`: object of integer. How many times each string stands in the array. It may
/// fail where the parts of the array's kind aren't within string: `element N is TAG`, for the first
/// that is none, by its place from 0. `tally(["a","b","a"])` is `{"a":2,"b":1}`.
#[derive(Clone, Copy)]
pub struct Tally;

static PARAMETERS: [Parameter; 1] = [required!("value", Tags::ARRAY)];

// The count with one more; one where nothing was counted.
fn one_more(found: Option<&Value>) -> i64
    ensures { result ≡ one_more (option_map (λ value. tree_of value.now) found.entry) }
{
    match found {
        Some(Value::Int(count)) => count.wrapping_add(1),
        _ => 1,
    }
}

// Counts a string; another value is passed over, which takes no memory. `Memory`: out of memory.
fn add_count(alloc: Global, fields: &mut Fields, item: &Value) -> Result<(), Memory>
    ensures counts { OnOk result
        (members_of fields.new ≡ add_count (tree_of item.now) (members_of fields.old)) }
    ensures other { same_tag tag.Text (tag_of (tree_of item.now)) ≡ false → IsOk result }
{
    match item {
        Value::Text(name) => {
            let count = one_more(fields.get(name.as_str()));
            fields.insert(name.copy(alloc)?, Value::Int(count))
        }
        _ => Ok(()),
    }
}

// Counts the strings among the items.
fn add_counts(alloc: Global, items: &[Value]) -> Result<Fields, Memory>
    ensures { IfOk result (λ fields. members_of fields ≡ add_counts (map tree_of items.now) no_members) }
{
    let mut fields = Fields::new(BTreeMap::new(alloc));
    for item in items {
        add_count(alloc, &mut fields, item)?;
    }
    Ok(fields)
}

// How many items there are, which are fewer than 2^63.
fn length_of(items: &[Value]) -> usize
    ensures value { result ≡ length items.now }
    ensures small { length items.now < 2 ^ 63 }
{
    items.len()
}

// The object of the counts of the strings among the items.
fn counts(alloc: Global, items: &[Value]) -> Result<Value, Memory>
    ensures { IfOk result (λ value. tree_of value ≡ object (counted (map tree_of items.now) (map tree_of items.now))) }
{
    members_are_maps();
    let _length = length_of(items);
    let fields = add_counts(alloc, items)?;
    Ok(Value::Object(fields))
}

// What is answered to an array.
fn tallied(alloc: Global, value: &Value) -> Applied
    ensures { Applies false (named (codes "tally") (tallied (tree_of value.now))) result }
{
    let items = items_of(value);
    match first_other(items, &Tags::STRING) {
        Some((place, tag)) => fail_at_element("tally", place, tag),
        None => Applied::value(counts(alloc, items)),
    }
}

impl Builtin for Tally {
    ghost row = { λ _. tally_row };

    fn name(&self) -> &'static str {
        "tally"
    }

    fn parameters(&self) -> &'static [Parameter] {
        &PARAMETERS
    }

    fn accepts(&self, _place: usize, _literal: &Value) -> bool {
        true
    }

    fn result_kind(
        &self,
        alloc: Global,
        _given: &Givens,
        _patterns: &Patterns,
    ) -> Result<Kind, Memory> {
        object_of_tag(alloc, Tag::Int)
    }

    fn may_fail(&self, given: &Givens) -> bool {
        given.part_allows_other(0, &Tags::STRING)
    }

    fn apply(
        &self,
        alloc: Global,
        arguments: &Arguments<'_>,
        _setting: &Setting<'_, '_>,
    ) -> Applied {
        tallied(alloc, arguments.value(0))
    }

    ghost law = { λ _. tally-law };
}

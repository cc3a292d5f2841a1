ghost use Rattle.std.specs.Prelude.{◌≡◌, codes, false, map, option_map, IfOk, IsOk, None, OnOk};
ghost use Rattle.vrl_value.specs.Tree.{no_members, object};
ghost use Rattle.vrl_value.specs.View.{items_view, members_of, tree_of};
ghost use Rattle.vrl_builtin.specs.Rows.{named};
ghost use Rattle.vrl_builtin.specs.View.{Applies};
ghost use Rattle.fn_object.specs.ObjectFromArray.{entry_of, first_unfit, made_of, object_from_array_row, pair_in, put_entries, put_entry};
ghost use Rattle.fn_object.specs.ObjectFromArrayLaw.{object_from_array-law};

use std::alloc::Global;
use std::collections::BTreeMap;
use vrl_builtin::{
    Applied, Arguments, Builtin, Givens, Parameter, Setting, Tags, any_of, fail_at_bad_element,
    items_of, required,
};
use vrl_kind::Kind;
use vrl_pattern::Patterns;
use vrl_value::{Chars, Fields, Memory, Value};

/// `object_from_array(values: array)`: object of any. The object with the name and the value of
/// each element, which is an array of two whose first item is a string. The later of equal names
/// counts. It always may fail: `element N`, for the first element that is no such array, by its
/// place from 0. `object_from_array([["a",1]])` is `{"a":1}`.
#[derive(Clone, Copy)]
pub struct ObjectFromArray;

static PARAMETERS: [Parameter; 1] = [required!("values", Tags::ARRAY)];

// A text and a value.
#[derive(Clone, Copy)]
struct Entry<'a> {
    name: &'a str,
    value: &'a Value,
}

// The name and the value of an array of two whose first item is a string. `None`: it is none.
fn pair_in(items: &[Value]) -> Option<Entry<'_>>
    ensures { option_map (λ e. (e.name.now, tree_of e.value.now)) result ≡ pair_in (items_view items.now) }
{
    let (first, rest) = items.split_first()?;
    let (value, behind) = rest.split_first()?;
    if !behind.is_empty() {
        return None;
    }
    match first {
        Value::Text(name) => Some(Entry {
            name: name.as_str(),
            value,
        }),
        _ => None,
    }
}

// The same of an element; what is no array is none.
fn entry_of(element: &Value) -> Option<Entry<'_>>
    ensures { option_map (λ e. (e.name.now, tree_of e.value.now)) result ≡ entry_of (tree_of element.now) }
{
    match element {
        Value::List(items) => pair_in(items.as_slice()),
        _ => None,
    }
}

// The place of the first element that is no entry. `None`: each is one.
fn first_unfit(elements: &[Value]) -> Option<usize>
    ensures { result ≡ first_unfit 0 (map tree_of elements.now) }
{
    let mut place = 0;
    let mut left = elements;
    while let Some((element, others)) = left.split_first() {
        if entry_of(element).is_none() {
            return Some(place);
        }
        place += 1;
        left = others;
    }
    None
}

// Puts a copy of the value of an element's entry at its name; an element that is no entry is passed
// over, which takes no memory.
fn put_element(alloc: Global, fields: &mut Fields, element: &Value) -> Result<(), Memory>
    ensures fields { OnOk result
        (members_of fields.new ≡ put_entry (entry_of (tree_of element.now)) (members_of fields.old)) }
    ensures passed { entry_of (tree_of element.now) ≡ None → IsOk result }
{
    match entry_of(element) {
        Some(entry) => {
            let name = Chars::copy_of(alloc, entry.name)?;
            fields.insert(name, entry.value.copy(alloc)?)
        }
        None => Ok(()),
    }
}

// The object of the elements' entries.
fn object(alloc: Global, elements: &[Value]) -> Result<Value, Memory>
    ensures { IfOk result (λ value. tree_of value ≡ object (put_entries (map tree_of elements.now) no_members)) }
{
    let mut fields = Fields::new(BTreeMap::new(alloc));
    for element in elements {
        put_element(alloc, &mut fields, element)?;
    }
    Ok(Value::Object(fields))
}

// What comes of the elements of an array.
fn made(alloc: Global, elements: &[Value]) -> Applied
    ensures { Applies false (named (codes "object_from_array") (made_of (map tree_of elements.now))) result }
{
    match first_unfit(elements) {
        Some(place) => fail_at_bad_element("object_from_array", place),
        None => Applied::value(object(alloc, elements)),
    }
}

impl Builtin for ObjectFromArray {
    ghost row = { λ _. object_from_array_row };

    fn name(&self) -> &'static str {
        "object_from_array"
    }

    fn parameters(&self) -> &'static [Parameter] {
        &PARAMETERS
    }

    fn accepts(&self, _place: usize, _literal: &Value) -> bool {
        true
    }

    fn result_kind(
        &self,
        alloc: Global,
        _given: &Givens,
        _patterns: &Patterns,
    ) -> Result<Kind, Memory> {
        any_of(alloc, &Tags::OBJECT)
    }

    fn may_fail(&self, _given: &Givens) -> bool {
        true
    }

    fn apply(
        &self,
        alloc: Global,
        arguments: &Arguments<'_>,
        _setting: &Setting<'_, '_>,
    ) -> Applied {
        made(alloc, items_of(arguments.value(0)))
    }

    ghost law = { λ _. object_from_array-law };
}

ghost use Rattle.std.specs.Prelude.{◌≡◌, ◌&&◌, IfOk, Some};
ghost use Rattle.vrl_value.specs.View.{tree_of};
ghost use Rattle.vrl_kind.specs.Canonical.{list_tree};
ghost use Rattle.vrl_kind.specs.Kinds.{tags_at};
ghost use Rattle.vrl_kind.specs.Sets.{SameSets};
ghost use Rattle.vrl_kind.specs.View.{places_view, rest_of};
ghost use Rattle.vrl_builtin.specs.Rows.{kind_at};
ghost use Rattle.vrl_builtin.specs.View.{givens_of};
ghost use Rattle.fn_list.specs.Append.{appended, appended_at, append_kind, append_row};
ghost use Rattle.fn_list.specs.AppendLaw.{append-law};
ghost use Rattle.fn_list.specs.Sure.{is_known};

use crate::copies::{copies_of, push_items};
use crate::places::{exact, is_known, widened};
use std::alloc::Global;
use vrl_builtin::{
    Applied, Arguments, Builtin, Givens, Parameter, Setting, Tags, array_parts, required,
};
use vrl_kind::{Kind, Rest, list_part};
use vrl_pattern::Patterns;
use vrl_value::{Items, Memory, Value};

/// `append(value: array, items: array)`: array; where both lengths are known, the places of the one
/// behind those of the other, and else the parts of the other at each place that may be absent or
/// stands behind one that may. The items of the one, and then those of the other. It never fails.
/// It copies both. `append([1], [2])` is `[1,2]`.
#[derive(Clone, Copy)]
pub struct Append;

static PARAMETERS: [Parameter; 2] = [
    required!("value", Tags::ARRAY),
    required!("items", Tags::ARRAY),
];

// Copies of the items of an array, and then of another.
fn appended(alloc: Global, array: &Value, more: &Value) -> Result<Value, Memory>
    ensures { IfOk result (λ value. tree_of value ≡ appended (tree_of array.now) (tree_of more.now)) }
{
    let mut items = copies_of(alloc, array)?;
    push_items(alloc, &mut items, more)?;
    Ok(Value::List(Items::new(items)))
}

// Whether the lengths of both arrays are known.
fn both_known(places: &[Kind], rest: &Rest, others: &[Kind], behind: &Rest) -> bool
    ensures { result ≡
        (is_known (places_view places.now) (rest_of rest.now) && is_known (places_view others.now)
        (rest_of behind.now)) }
{
    is_known(places, rest) && is_known(others, behind)
}

// The kind of the items of arrays of one kind, and then those of another, the kind of whose parts
// is the last.
fn appended_kind(alloc: Global, arrays: &Kind, others: &Kind, parts: &Kind) -> Result<Kind, Memory>
    ensures { IfOk result
        (λ kind. SameSets (tags_at kind)
        (appended_at (list_tree arrays.now) (list_tree others.now) (tags_at parts.now))) }
{
    let Some((places, rest)) = list_part(arrays) else {
        return Ok(Kind::never());
    };
    let Some((more, behind)) = list_part(others) else {
        return Ok(Kind::never());
    };
    if both_known(places.as_slice(), rest, more.as_slice(), behind) {
        exact(alloc, places.as_slice(), more.as_slice())
    } else {
        widened(alloc, places.as_slice(), rest, parts)
    }
}

// The kind of the items of arrays of one kind, and then those of another.
fn joined_kind(alloc: Global, arrays: &Kind, others: &Kind) -> Result<Kind, Memory>
    ensures { IfOk result (λ kind. SameSets (tags_at kind) (append_kind (Some arrays.now) (Some others.now))) }
{
    let parts = array_parts(alloc, others)?;
    appended_kind(alloc, arrays, others, &parts)
}

// The kind of what a call gives.
fn given_kind(alloc: Global, given: &Givens) -> Result<Kind, Memory>
    ensures { IfOk result
        (λ kind. SameSets (tags_at kind)
        (append_kind (kind_at 0 (givens_of given.now)) (kind_at 1 (givens_of given.now)))) }
{
    let Some(arrays) = given.kind(0) else {
        return Ok(Kind::never());
    };
    let Some(others) = given.kind(1) else {
        return Ok(Kind::never());
    };
    joined_kind(alloc, arrays, others)
}

impl Builtin for Append {
    ghost row = { λ _. append_row };

    fn name(&self) -> &'static str {
        "append"
    }

    fn parameters(&self) -> &'static [Parameter] {
        &PARAMETERS
    }

    fn accepts(&self, _place: usize, _literal: &Value) -> bool {
        true
    }

    fn result_kind(
        &self,
        alloc: Global,
        given: &Givens,
        _patterns: &Patterns,
    ) -> Result<Kind, Memory> {
        given_kind(alloc, given)
    }

    fn may_fail(&self, _given: &Givens) -> bool {
        false
    }

    fn apply(
        &self,
        alloc: Global,
        arguments: &Arguments<'_>,
        _setting: &Setting<'_, '_>,
    ) -> Applied {
        Applied::value(appended(alloc, arguments.value(0), arguments.value(1)))
    }

    ghost law = { λ _. append-law };
}

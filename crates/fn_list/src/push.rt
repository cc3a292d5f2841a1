ghost use Rattle.std.specs.Prelude.{◌≡◌, IfOk};
ghost use Rattle.vrl_value.specs.View.{tree_of};
ghost use Rattle.vrl_kind.specs.Canonical.{list_tree};
ghost use Rattle.vrl_kind.specs.KindTree.{list_part as list_with};
ghost use Rattle.vrl_kind.specs.Kinds.{tags_at};
ghost use Rattle.vrl_kind.specs.Sets.{SameSets};
ghost use Rattle.vrl_kind.specs.View.{places_view, rest_of};
ghost use Rattle.vrl_builtin.specs.Rows.{kind_at};
ghost use Rattle.vrl_builtin.specs.View.{givens_of};
ghost use Rattle.fn_list.specs.Push.{pushed, pushed_at, push_kind, push_row};
ghost use Rattle.fn_list.specs.PushLaw.{push-law};

use crate::copies::copies_of;
use crate::places::{exact_with, is_known, widened};
use std::alloc::Global;
use vrl_builtin::{Applied, Arguments, Builtin, Givens, Parameter, Setting, Tags, required};
use vrl_kind::{Kind, Rest, list_part};
use vrl_pattern::Patterns;
use vrl_value::{Items, Memory, Value};

/// `push(value: array, item: any)`: array; where its length is known, the item's kind stands at the
/// next place, and else at each place that may be absent or stands behind one that may. The array
/// with one item more at its end. It never fails. It copies the array and the item.
/// `push([1], "a")` is `[1,"a"]`.
#[derive(Clone, Copy)]
pub struct Push;

static PARAMETERS: [Parameter; 2] = [
    required!("value", Tags::ARRAY),
    required!("item", Tags::ALL),
];

// A copy of an array with a copy of a value at its end.
fn pushed(alloc: Global, array: &Value, item: &Value) -> Result<Value, Memory>
    ensures { IfOk result (λ value. tree_of value ≡ pushed (tree_of array.now) (tree_of item.now)) }
{
    let mut items = copies_of(alloc, array)?;
    items.push(item.copy(alloc)?)?;
    Ok(Value::List(Items::new(items)))
}

// The kind of arrays with these places and this rest, with one item more.
fn longer_kind(alloc: Global, places: &[Kind], rest: &Rest, item: &Kind) -> Result<Kind, Memory>
    ensures { IfOk result
        (λ kind. SameSets (tags_at kind) (pushed_at (list_with (places_view places.now) (rest_of rest.now)) item.now)) }
{
    if is_known(places, rest) {
        exact_with(alloc, places, item)
    } else {
        widened(alloc, places, rest, item)
    }
}

// The kind of the arrays of a kind, with one item more.
fn pushed_kind(alloc: Global, arrays: &Kind, item: &Kind) -> Result<Kind, Memory>
    ensures { IfOk result (λ kind. SameSets (tags_at kind) (pushed_at (list_tree arrays.now) item.now)) }
{
    match list_part(arrays) {
        None => Ok(Kind::never()),
        Some((places, rest)) => longer_kind(alloc, places.as_slice(), rest, item),
    }
}

// The kind of what a call gives.
fn given_kind(alloc: Global, given: &Givens) -> Result<Kind, Memory>
    ensures { IfOk result
        (λ kind. SameSets (tags_at kind)
        (push_kind (kind_at 0 (givens_of given.now)) (kind_at 1 (givens_of given.now)))) }
{
    let Some(arrays) = given.kind(0) else {
        return Ok(Kind::never());
    };
    let Some(item) = given.kind(1) else {
        return Ok(Kind::never());
    };
    pushed_kind(alloc, arrays, item)
}

impl Builtin for Push {
    ghost row = { λ _. push_row };

    fn name(&self) -> &'static str {
        "push"
    }

    fn parameters(&self) -> &'static [Parameter] {
        &PARAMETERS
    }

    fn accepts(&self, _place: usize, _literal: &Value) -> bool {
        true
    }

    fn result_kind(
        &self,
        alloc: Global,
        given: &Givens,
        _patterns: &Patterns,
    ) -> Result<Kind, Memory> {
        given_kind(alloc, given)
    }

    fn may_fail(&self, _given: &Givens) -> bool {
        false
    }

    fn apply(
        &self,
        alloc: Global,
        arguments: &Arguments<'_>,
        _setting: &Setting<'_, '_>,
    ) -> Applied {
        Applied::value(pushed(alloc, arguments.value(0), arguments.value(1)))
    }

    ghost law = { λ _. push-law };
}

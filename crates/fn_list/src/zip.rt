ghost use Rattle.std.specs.Prelude.{◌≡◌, map, IfOk};
ghost use Rattle.vrl_value.specs.View.{tree_of};
ghost use Rattle.vrl_kind.specs.Kinds.{tags_at};
ghost use Rattle.vrl_kind.specs.Sets.{SameSets};
ghost use Rattle.vrl_builtin.specs.Rows.{kind_at};
ghost use Rattle.vrl_builtin.specs.View.{givens_of};
ghost use Rattle.fn_list.specs.Zip.{pair_at, pair_of, pairs_of, zip_kind, zipped, zip_row};
ghost use Rattle.fn_list.specs.ZipLaw.{zip-law};

use std::alloc::Global;
use vrl_builtin::{
    Applied, Arguments, Builtin, Givens, Parameter, Setting, Tags, array_of, items_of, required,
};
use vrl_kind::{Kind, Rest};
use vrl_pattern::Patterns;
use vrl_value::{Items, Memory, Value};

/// `zip(array_0: array, array_1: array)`: array of arrays of two places, of the parts of each. The
/// items of both in pairs, up to the shorter length. It never fails. `zip([1,2], ["a"])` is
/// `[[1,"a"]]`.
#[derive(Clone, Copy)]
pub struct Zip;

static PARAMETERS: [Parameter; 2] = [
    required!("array_0", Tags::ARRAY),
    required!("array_1", Tags::ARRAY),
];

// An array of copies of two values.
fn pair(alloc: Global, first: &Value, second: &Value) -> Result<Value, Memory>
    ensures { IfOk result (λ pair. tree_of pair ≡ pair_of (tree_of first.now) (tree_of second.now)) }
{
    let mut both = Vec::with_capacity(alloc, 2)?;
    both.push(first.copy(alloc)?)?;
    both.push(second.copy(alloc)?)?;
    Ok(Value::List(Items::new(both)))
}

// The values in pairs, up to the shorter length.
fn pairs(alloc: Global, first: &[Value], second: &[Value]) -> Result<Vec<Value>, Memory>
    ensures { IfOk result
        (λ pairs. map tree_of pairs.items ≡ pairs_of (map tree_of first.now) (map tree_of second.now)) }
{
    let mut pairs = Vec::new(alloc);
    let mut left = first;
    let mut right = second;
    while let Some((one, ones)) = left.split_first() {
        let Some((other, others)) = right.split_first() else {
            return Ok(pairs);
        };
        pairs.push(pair(alloc, one, other)?)?;
        left = ones;
        right = others;
    }
    Ok(pairs)
}

// The items of two arrays in pairs.
fn zipped(alloc: Global, first: &Value, second: &Value) -> Result<Value, Memory>
    ensures { IfOk result (λ value. tree_of value ≡ zipped (tree_of first.now) (tree_of second.now)) }
{
    let pairs = pairs(alloc, items_of(first), items_of(second))?;
    Ok(Value::List(Items::new(pairs)))
}

// The kind of an array of two places. `Memory`: want of memory.
fn pair_kind(alloc: Global, first: Kind, second: Kind) -> Result<Kind, Memory>
    ensures { IfOk result (λ kind. SameSets (tags_at kind) (pair_at (tags_at first) (tags_at second))) }
{
    let mut places = Vec::with_capacity(alloc, 2)?;
    places.push(first)?;
    places.push(second)?;
    Kind::list(alloc, places, Rest::Nothing)
}

// The kind of the pairs of what is given.
fn zipped_kind(alloc: Global, given: &Givens) -> Result<Kind, Memory>
    ensures { IfOk result
        (λ kind. SameSets (tags_at kind)
        (zip_kind (kind_at 0 (givens_of given.now)) (kind_at 1 (givens_of given.now)))) }
{
    let first = given.array_parts(alloc, 0)?;
    let second = given.array_parts(alloc, 1)?;
    let pair = pair_kind(alloc, first, second)?;
    array_of(alloc, pair)
}

impl Builtin for Zip {
    ghost row = { λ _. zip_row };

    fn name(&self) -> &'static str {
        "zip"
    }

    fn parameters(&self) -> &'static [Parameter] {
        &PARAMETERS
    }

    fn accepts(&self, _place: usize, _literal: &Value) -> bool {
        true
    }

    fn result_kind(
        &self,
        alloc: Global,
        given: &Givens,
        _patterns: &Patterns,
    ) -> Result<Kind, Memory> {
        zipped_kind(alloc, given)
    }

    fn may_fail(&self, _given: &Givens) -> bool {
        false
    }

    fn apply(
        &self,
        alloc: Global,
        arguments: &Arguments<'_>,
        _setting: &Setting<'_, '_>,
    ) -> Applied {
        Applied::value(zipped(alloc, arguments.value(0), arguments.value(1)))
    }

    ghost law = { λ _. zip-law };
}

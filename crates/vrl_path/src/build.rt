ghost use Rattle.std.specs.Prelude.{◌≡◌, ◌++◌, ◌<◌, ◌-◌, IfOk, OnErr, OnOk};
ghost use Rattle.vrl_path.specs.FromEnd.{behind_nulls, front_padded, step_in};
ghost use Rattle.vrl_path.specs.Parts.{set_part};
ghost use Rattle.vrl_path.specs.Steps.{IsWritable, IsWritableStep};
ghost use Rattle.vrl_path.specs.Trees.{set_tree};
ghost use Rattle.vrl_value.specs.Tree.{array, item, no_items, null};
ghost use Rattle.vrl_value.specs.View.{items_of, tree_of};

use crate::parts::index;
use crate::path::Step;
use std::alloc::Global;
use std::collections::BTreeMap;
use std::mem;
use vrl_value::{Fields, Items, Memory, Value};

/// The value at the end of the steps, in containers that are all new. `Memory`: want of memory.
pub fn built(alloc: Global, steps: &[Step], new: Value) -> Result<Value, Memory>
    requires { IsWritable steps.now }
    ensures { IfOk result (λ value. tree_of value ≡ set_tree null steps.now (tree_of new)) }
{
    let [step, rest @ ..] = steps else {
        return Ok(new);
    };
    let part = built(alloc, rest, new)?;
    holder(alloc, step, part)
}

// A new container with one part; in an array with nulls before it, or behind it where its place
// counts from the end. `Memory`: want of memory.
fn holder(alloc: Global, step: &Step, part: Value) -> Result<Value, Memory>
    requires { IsWritableStep step.now }
    ensures { IfOk result
        (λ value. tree_of value ≡ set_part (step_in null step.now) (tree_of part) (front_padded null step.now)) }
{
    match step {
        Step::Field(name) => {
            let mut fields = Fields::new(BTreeMap::new(alloc));
            fields.insert(name.copy(alloc)?, part)?;
            Ok(Value::Object(fields))
        }
        Step::Place(place) => Ok(Value::List(item_holder(alloc, *place, part)?)),
    }
}

// The items of a new array with one part at a place. `Memory`: want of memory.
fn item_holder(alloc: Global, place: i64, part: Value) -> Result<Items, Memory>
    requires { IsWritableStep (Step.Place place) }
    ensures { IfOk result (λ items. array (items_of items)
        ≡ set_part (step_in null (Step.Place place)) (tree_of part) (front_padded null (Step.Place place))) }
{
    let Some(index) = index(0, place) else {
        return first_of(alloc, place.unsigned_abs() as usize, part);
    };
    let mut items = Items::new(Vec::new(alloc));
    items.push_at(index, part)?;
    Ok(items)
}

// This many items: a value with nulls behind it. `Memory`: want of memory.
#[tactic(auto, using(crate::proofs::Places::one_made))]
fn first_of(alloc: Global, count: usize, value: Value) -> Result<Items, Memory>
    requires { 0 < count }
    ensures { IfOk result (λ items. items_of items ≡ item (tree_of value) (behind_nulls (count - 1) no_items)) }
{
    let mut items = Items::new(Vec::new(alloc));
    items.push_at(0, value)?;
    if count < 2 {
        return Ok(items);
    }
    items.push_at(count - 1, Value::Null)?;
    Ok(items)
}

/// Puts so many items in front of others: a value with nulls behind it. `Memory`: want of memory;
/// the others stay as they were, and the value is gone.
pub fn put_in_front(
    alloc: Global,
    items: &mut Items,
    count: usize,
    value: Value,
) -> Result<(), Memory>
    requires { 0 < count }
    ensures ok { OnOk result
        (items_of items.new ≡ item (tree_of value) (behind_nulls (count - 1) (items_of items.old))) }
    ensures err { OnErr result (items_of items.new ≡ items_of items.old) }
{
    let mut all = first_of(alloc, count, value)?.into_vec();
    let mut others = mem::replace(items, Items::new(Vec::new(alloc))).into_vec();
    let outcome = all.append(&mut others);
    if outcome.is_err() {
        *items = Items::new(others);
        return Err(Memory);
    }
    *items = Items::new(all);
    Ok(())
}

ghost use Rattle.std.specs.Prelude.{◌<◌, ◌≡◌, ◌≢◌, ◌≤◌, ◌∷◌, IsOk, IsSome, OnErr, OnOk};
ghost use Rattle.vrl_path.specs.Read.{read_at};
ghost use Rattle.vrl_path.specs.Steps.{IsWritable, IsWritableStep};
ghost use Rattle.vrl_path.specs.Trees.{read_in, set_in_fields, set_in_items, set_tree};
ghost use Rattle.vrl_path.specs.Write.{depth_limit, IsAsDeep, IsSet, IsTooDeep};
ghost use Rattle.vrl_value.specs.Depth.{depth_of};
ghost use Rattle.vrl_value.specs.Look.{item_at};
ghost use Rattle.vrl_value.specs.Tree.{array, find, IsOrdered};
ghost use Rattle.vrl_value.specs.View.{items_of, members_of, tree_of};

use crate::build::{built, put_in_front};
use crate::depth::is_within_limit;
use crate::fault::SetFault;
use crate::parts::index;
use crate::path::{Path, Step};
use std::alloc::Global;
use vrl_value::{
    Chars, Fields, Items, Memory, Value, items_are_lists, members_are_maps, trees_stay_in_order,
};

/// Sets a value at a path: a step into what is no fitting container replaces it by one, and an
/// array is filled up with nulls, behind its last item up to a place, and in front of its first one
/// where it has fewer than a place that counts from its end wants. The new value is moved in.
/// `TooDeep`: the result would be deeper than 128; `Memory`: want of memory, but not where
/// something stands at the path already. At both the value stays as it was, and the new one is
/// gone.
///
/// It is one walk down the path with one change at its end. Before that, the new value is walked
/// through for its depth, and, unless that and the path settle it, so is each part of the value
/// beside the path: where the value is known to be within the limit, [`put`] spares that walk.
pub fn set(alloc: Global, value: &mut Value, path: &Path, new: Value) -> Result<(), SetFault>
    requires { IsWritable path.now }
    ensures set { OnOk result (IsSet (tree_of value.old) path.now (tree_of new) (tree_of value.new)) }
    ensures tree { OnOk result (tree_of value.new ≡ set_tree (tree_of value.old) path.now (tree_of new)) }
    ensures within { OnOk result (depth_of (tree_of value.new) ≤ depth_limit) }
    ensures ordered { IsOrdered (tree_of value.old) → IsOrdered (tree_of new) → IsOrdered (tree_of value.new) }
    ensures deeper { result ≡ Err SetFault.TooDeep
        → depth_limit < depth_of (set_tree (tree_of value.old) path.now (tree_of new)) }
    ensures deep { depth_limit < depth_of (set_tree (tree_of value.old) path.now (tree_of new))
        → result ≡ Err SetFault.TooDeep }
    ensures too_deep { result ≡ Err SetFault.TooDeep → IsTooDeep (tree_of value.old) path.now (tree_of new) }
    ensures there { IsSome (read_at (tree_of value.old) path.now) → result ≢ Err SetFault.Memory }
    ensures err { OnErr result (tree_of value.new ≡ tree_of value.old) }
{
    members_are_maps();
    items_are_lists();
    trees_stay_in_order();
    if !is_within_limit(value, path.as_slice(), &new) {
        return Err(SetFault::TooDeep);
    }
    put_at(alloc, value, path.as_slice(), new)?;
    Ok(())
}

/// Sets a value at a path as [`set`] does, whatever the depth. `Memory`: want of memory, but not
/// where something stands at the path already; the value stays as it was, and the new one is gone.
/// It is one walk down the path with one change at its end.
pub fn put(alloc: Global, value: &mut Value, path: &Path, new: Value) -> Result<(), Memory>
    requires { IsWritable path.now }
    ensures set { OnOk result (IsSet (tree_of value.old) path.now (tree_of new) (tree_of value.new)) }
    ensures tree { OnOk result (tree_of value.new ≡ set_tree (tree_of value.old) path.now (tree_of new)) }
    ensures depth { OnOk result (IsAsDeep (tree_of value.old) path.now (tree_of new) (tree_of value.new)) }
    ensures ordered { IsOrdered (tree_of value.old) → IsOrdered (tree_of new) → IsOrdered (tree_of value.new) }
    ensures there { IsSome (read_at (tree_of value.old) path.now) → IsOk result }
    ensures err { OnErr result (tree_of value.new ≡ tree_of value.old) }
{
    members_are_maps();
    items_are_lists();
    trees_stay_in_order();
    put_at(alloc, value, path.as_slice(), new)
}

// Sets a value at the end of the steps. `Memory`: want of memory, where nothing stands there; the
// value stays as it was.
#[cycle(put)]
fn put_at(alloc: Global, value: &mut Value, steps: &[Step], new: Value) -> Result<(), Memory>
    requires { IsWritable steps.now }
    ensures ok { OnOk result (tree_of value.new ≡ set_tree (tree_of value.old) steps.now (tree_of new)) }
    ensures there { IsSome (read_at (tree_of value.old) steps.now) → IsOk result }
    ensures err { OnErr result (tree_of value.new ≡ tree_of value.old) }
{
    let [step, rest @ ..] = steps else {
        *value = new;
        return Ok(());
    };
    match step {
        Step::Field(name) => {
            if let Value::Object(fields) = value {
                put_in_fields(alloc, fields, name, rest, new)
            } else {
                *value = built(alloc, steps, new)?;
                Ok(())
            }
        }
        Step::Place(place) => {
            if let Value::List(items) = value {
                put_at_place(alloc, items, *place, rest, new)
            } else {
                *value = built(alloc, steps, new)?;
                Ok(())
            }
        }
    }
}

// Sets a value at the end of the steps in the field of a name.
#[cycle(put)]
fn put_in_fields(
    alloc: Global,
    fields: &mut Fields,
    name: &Chars,
    steps: &[Step],
    new: Value,
) -> Result<(), Memory>
    requires { IsWritable steps.now }
    ensures ok { OnOk result
        (members_of fields.new ≡ set_in_fields name.now (members_of fields.old) steps.now (tree_of new)) }
    ensures there { IsSome (read_in (find name.now (members_of fields.old)) steps.now) → IsOk result }
    ensures err { OnErr result (members_of fields.new ≡ members_of fields.old) }
{
    match fields.get_mut(name.as_str()) {
        Some(part) => put_at(alloc, part, steps, new),
        None => {
            let part = built(alloc, steps, new)?;
            fields.insert(name.copy(alloc)?, part)
        }
    }
}

// Sets a value at the end of the steps in the item at a place, which may count from the end.
#[cycle(put)]
fn put_at_place(
    alloc: Global,
    items: &mut Items,
    place: i64,
    steps: &[Step],
    new: Value,
) -> Result<(), Memory>
    requires place { IsWritableStep (Step.Place place) }
    requires rest { IsWritable steps.now }
    ensures ok { OnOk result (array (items_of items.new)
        ≡ set_tree (array (items_of items.old)) (Step.Place place ∷ steps.now) (tree_of new)) }
    ensures there { IsSome (read_at (array (items_of items.old)) (Step.Place place ∷ steps.now)) → IsOk result }
    ensures err { OnErr result (items_of items.new ≡ items_of items.old) }
{
    let count = items.len();
    match index(count, place) {
        Some(index) => put_in_items(alloc, items, index, steps, new),
        None => {
            let part = built(alloc, steps, new)?;
            put_in_front(alloc, items, place.unsigned_abs() as usize - count, part)
        }
    }
}

// Sets a value at the end of the steps in the item at a place.
#[cycle(put)]
fn put_in_items(
    alloc: Global,
    items: &mut Items,
    place: usize,
    steps: &[Step],
    new: Value,
) -> Result<(), Memory>
    requires { IsWritable steps.now }
    ensures ok { OnOk result
        (items_of items.new ≡ set_in_items place (items_of items.old) steps.now (tree_of new)) }
    ensures there { IsSome (read_in (item_at place (items_of items.old)) steps.now) → IsOk result }
    ensures err { OnErr result (items_of items.new ≡ items_of items.old) }
{
    match items.get_mut(place) {
        Some(part) => put_at(alloc, part, steps, new),
        None => {
            let part = built(alloc, steps, new)?;
            items.push_at(place, part)
        }
    }
}

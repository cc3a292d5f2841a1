ghost use Rattle.std.specs.Prelude.{◌<◌, ◌≡◌, ◌∷◌, length, option_map, IfNone, OnSome};
ghost use Rattle.vrl_path.specs.Remove.{removable_at, IsRemoved};
ghost use Rattle.vrl_path.specs.Trees.{remove_in_fields, remove_in_items, remove_tree, removable_in};
ghost use Rattle.vrl_value.specs.Look.{item_at};
ghost use Rattle.vrl_value.specs.Tree.{array, find, IsOrdered};
ghost use Rattle.vrl_value.specs.View.{items_of, members_of, tree_of};

use crate::parts::{index, take_part};
use crate::path::{Path, Step};
use vrl_value::{Fields, Items, Value, items_are_lists, members_are_maps, trees_stay_in_order};

/// Takes out the part of a value at a path; a negative place counts from the end of its array, and
/// the places behind one that is taken out of an array move down. `None`: the path is empty, or
/// nothing stands there; the value stays as it was.
///
/// It is one walk down the path, takes no memory, and moves the places behind of one array at most.
pub fn remove(value: &mut Value, path: &Path) -> Option<Value>
    ensures value { option_map tree_of result ≡ removable_at (tree_of value.old) path.now }
    ensures removed { OnSome result (IsRemoved (tree_of value.old) path.now (tree_of value.new)) }
    ensures tree { tree_of value.new ≡ remove_tree (tree_of value.old) path.now }
    ensures ordered { IsOrdered (tree_of value.old) → IsOrdered (tree_of value.new) }
    ensures none { IfNone result (tree_of value.new ≡ tree_of value.old) }
{
    members_are_maps();
    items_are_lists();
    trees_stay_in_order();
    remove_at(value, path.as_slice())
}

// Takes out the part at the end of the steps. `None`: there is none, or there are no steps.
#[cycle(removal)]
fn remove_at(value: &mut Value, steps: &[Step]) -> Option<Value>
    ensures value { option_map tree_of result ≡ removable_at (tree_of value.old) steps.now }
    ensures rest { tree_of value.new ≡ remove_tree (tree_of value.old) steps.now }
{
    let [step, rest @ ..] = steps else {
        return None;
    };
    if rest.is_empty() {
        return take_part(value, step);
    }
    match step {
        Step::Field(name) => {
            if let Value::Object(fields) = value {
                remove_in_fields(fields, name.as_str(), rest)
            } else {
                None
            }
        }
        Step::Place(place) => {
            if let Value::List(items) = value {
                remove_at_place(items, *place, rest)
            } else {
                None
            }
        }
    }
}

// Takes out the part at the end of the steps in the field of a name.
#[cycle(removal)]
fn remove_in_fields(fields: &mut Fields, name: &str, steps: &[Step]) -> Option<Value>
    ensures value { option_map tree_of result ≡ removable_in (find name.now (members_of fields.old)) steps.now }
    ensures rest { members_of fields.new ≡ remove_in_fields name.now (members_of fields.old) steps.now }
{
    match fields.get_mut(name) {
        Some(part) => remove_at(part, steps),
        None => None,
    }
}

// Takes out the part at the end of the steps, of which there are some, in the item at a place, which
// may count from the end.
#[cycle(removal)]
fn remove_at_place(items: &mut Items, place: i64, steps: &[Step]) -> Option<Value>
    requires { 0 < length steps.now }
    ensures value { option_map tree_of result
        ≡ removable_at (array (items_of items.old)) (Step.Place place ∷ steps.now) }
    ensures rest { array (items_of items.new)
        ≡ remove_tree (array (items_of items.old)) (Step.Place place ∷ steps.now) }
{
    let Some(index) = index(items.len(), place) else {
        return None;
    };
    remove_in_items(items, index, steps)
}

// Takes out the part at the end of the steps in the item at a place.
#[cycle(removal)]
fn remove_in_items(items: &mut Items, place: usize, steps: &[Step]) -> Option<Value>
    ensures value { option_map tree_of result ≡ removable_in (item_at place (items_of items.old)) steps.now }
    ensures rest { items_of items.new ≡ remove_in_items place (items_of items.old) steps.now }
{
    match items.get_mut(place) {
        Some(part) => remove_at(part, steps),
        None => None,
    }
}

ghost use Rattle.std.specs.Prelude.{◌≡◌, option_map, [], ◌∷◌};
ghost use Rattle.vrl_path.specs.Read.{place_of, signed_part_at, tree_found};
ghost use Rattle.vrl_path.specs.Trees.{remove_tree};
ghost use Rattle.vrl_value.specs.View.{tree_of};

use crate::path::Step;
use vrl_value::{Value, items_are_lists, members_are_maps};

/// The part of a value at a step. `None`: there is none.
pub fn part<'a>(value: &'a Value, step: &Step) -> Option<&'a Value>
    ensures { option_map (λ part. tree_of part.now) result ≡ tree_found (signed_part_at (tree_of value.now) step.now) }
{
    match (value, step) {
        (Value::Object(fields), Step::Field(name)) => fields.get(name.as_str()),
        (Value::List(items), Step::Place(place)) => items.get(index(items.len(), *place)?),
        _ => None,
    }
}

/// The place among this many, counted from the start. `None`: it is before the first.
pub fn index(count: usize, place: i64) -> Option<usize>
    ensures { result ≡ place_of count place }
{
    let distance = place.unsigned_abs() as usize;
    if place >= 0 {
        Some(distance)
    } else {
        count.checked_sub(distance)
    }
}

/// Takes out the part of a value at a step. `None`: there is none, and the value stays as it was.
pub fn take_part(value: &mut Value, step: &Step) -> Option<Value>
    ensures value { option_map tree_of result ≡ tree_found (signed_part_at (tree_of value.old) step.now) }
    ensures rest { tree_of value.new ≡ remove_tree (tree_of value.old) (step.now ∷ []) }
{
    members_are_maps();
    items_are_lists();
    match (value, step) {
        (Value::Object(fields), Step::Field(name)) => fields.remove(name.as_str()),
        (Value::List(items), Step::Place(place)) => items.remove(index(items.len(), *place)?),
        _ => None,
    }
}

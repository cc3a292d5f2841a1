ghost use Rattle.std.specs.Prelude.{◌↔◌, ◌<◌, ◌≤◌, ◌≡◌, ◌+◌, [], ◌∷◌, length, option_map, IsTrue};
ghost use Rattle.vrl_path.specs.Steps.{IsWritable, IsWritableStep};
ghost use Rattle.vrl_path.specs.Trees.{items_if_array, members_if_object, set_in_fields, set_in_items, set_tree};
ghost use Rattle.vrl_path.specs.Write.{depth_limit};
ghost use Rattle.vrl_value.specs.Depth.{depth_of, items_depth, members_depth};
ghost use Rattle.vrl_value.specs.Parts.{put_item, without};
ghost use Rattle.vrl_value.specs.Tree.{Tree, array, member, no_members};
ghost use Rattle.vrl_value.specs.View.{items_of as list_of, members_of, members_view, tree_of};

use crate::parts::index;
use crate::path::Step;
use std::collections::BTreeMap;
use vrl_value::{Fields, Items, Value, members_are_maps};

/// The greatest depth of a value that a write may leave.
pub const DEPTH_LIMIT: u64 = 128;

/// Whether the value with a new one at the end of the steps is within the limit of depth. Where the
/// new one and the steps settle it, only the new one is looked at; else each part beside the steps,
/// too.
pub fn is_within_limit(value: &Value, steps: &[Step], new: &Value) -> bool
    requires { IsWritable steps.now }
    ensures { IsTrue result
        ↔ (depth_of (set_tree (tree_of value.now) steps.now (tree_of new.now)) ≤ depth_limit) }
{
    let depth = new.depth();
    let length = steps.len() as u64;
    if depth > DEPTH_LIMIT {
        return false;
    }
    if length > DEPTH_LIMIT - depth {
        return false;
    }
    fits_at(value, steps, DEPTH_LIMIT)
}

// Whether the value is within a limit of depth with a new one at the end of the steps, which has
// room there.
#[cycle(fits)]
fn fits_at(value: &Value, steps: &[Step], limit: u64) -> bool
    requires writable { IsWritable steps.now }
    requires room { length steps.now ≤ limit }
    requires small { limit ≤ depth_limit }
    ensures { (n : Tree) → length steps.now + depth_of n ≤ limit
        → (IsTrue result ↔ (depth_of (set_tree (tree_of value.now) steps.now n) ≤ limit)) }
{
    let [step, rest @ ..] = steps else {
        return true;
    };
    match step {
        Step::Field(name) => match fields_of(value) {
            Some(fields) => field_fits(fields, name.as_str(), rest, limit - 1),
            None => true,
        },
        Step::Place(place) => match items_of(value) {
            Some(items) => place_fits(items, *place, rest, limit),
            None => true,
        },
    }
}

// The fields of an object.
fn fields_of(value: &Value) -> Option<&Fields>
    ensures { option_map (λ fields. members_of fields.now) result ≡ members_if_object (tree_of value.now) }
{
    match value {
        Value::Object(fields) => Some(fields),
        _ => None,
    }
}

// The items of an array.
fn items_of(value: &Value) -> Option<&Items>
    ensures { option_map (λ items. list_of items.now) result ≡ items_if_array (tree_of value.now) }
{
    match value {
        Value::List(items) => Some(items),
        _ => None,
    }
}

// Whether fields are within a limit of depth with a new value at the end of the steps in the one of
// a name.
#[cycle(fits)]
fn field_fits(fields: &Fields, name: &str, steps: &[Step], limit: u64) -> bool
    requires writable { IsWritable steps.now }
    requires room { length steps.now ≤ limit }
    requires small { limit ≤ depth_limit }
    ensures { (n : Tree) → length steps.now + depth_of n ≤ limit
        → (IsTrue result
        ↔ (members_depth (set_in_fields name.now (members_of fields.now) steps.now n) ≤ limit)) }
{
    match fields.get(name) {
        Some(part) => fits_at(part, steps, limit) && fields_fit(fields, name, limit),
        None => fields_fit(fields, name, limit),
    }
}

// Whether an array of these items is within a limit of depth with a new value at the end of the
// steps in the one at a place, which may count from the end.
#[cycle(fits)]
fn place_fits(items: &Items, place: i64, steps: &[Step], limit: u64) -> bool
    requires place { IsWritableStep (Step.Place place) }
    requires writable { IsWritable steps.now }
    requires room { length steps.now < limit }
    requires small { limit ≤ depth_limit }
    ensures { (n : Tree) → length steps.now + depth_of n < limit
        → (IsTrue result ↔ (depth_of (set_tree (array (list_of items.now)) (Step.Place place ∷ steps.now) n) ≤ limit)) }
{
    let count = items.len();
    match index(count, place) {
        Some(index) => item_fits(items, index, steps, limit - 1),
        None => items_fit(items, count, limit - 1),
    }
}

// Whether items are within a limit of depth with a new value at the end of the steps in the one at
// a place.
#[cycle(fits)]
fn item_fits(items: &Items, place: usize, steps: &[Step], limit: u64) -> bool
    requires writable { IsWritable steps.now }
    requires room { length steps.now ≤ limit }
    requires small { limit ≤ depth_limit }
    ensures { (n : Tree) → length steps.now + depth_of n ≤ limit
        → (IsTrue result ↔ (items_depth (set_in_items place (list_of items.now) steps.now n) ≤ limit)) }
{
    match items.get(place) {
        Some(part) => fits_at(part, steps, limit) && items_fit(items, place, limit),
        None => items_fit(items, place, limit),
    }
}

// Whether fields are within a limit of depth but for the one of a name.
fn fields_fit(fields: &Fields, name: &str, limit: u64) -> bool
    requires { limit ≤ depth_limit }
    ensures { (t : Tree) → depth_of t ≤ limit
        → (IsTrue result ↔ (members_depth (set_in_fields name.now (members_of fields.now) [] t) ≤ limit)) }
{
    are_within(fields.as_map(), name, limit)
}

// Whether the entries of a map are within a limit of depth but for the one of a name.
fn are_within(map: &BTreeMap<String, Value>, name: &str, limit: u64) -> bool
    requires { limit ≤ depth_limit }
    ensures { (t : Tree) → depth_of t ≤ limit
        → (IsTrue result ↔ (members_depth (set_in_fields name.now (members_view map.now.entries) [] t) ≤ limit)) }
{
    members_are_maps();
    for (key, part) in map.iter() {
        if !entry_fits(key.as_str(), part, name, limit) {
            return false;
        }
    }
    true
}

// Whether an entry is within a limit of depth, or the one of a name.
fn entry_fits(key: &str, part: &Value, name: &str, limit: u64) -> bool
    requires { limit ≤ depth_limit }
    ensures { IsTrue result
        ↔ (members_depth (without name.now (member key.now (tree_of part.now) no_members)) ≤ limit) }
{
    if key == name {
        return true;
    }
    if part.depth() > limit {
        return false;
    }
    true
}

// Whether items are within a limit of depth but for the one at a place.
fn items_fit(items: &Items, place: usize, limit: u64) -> bool
    requires { limit ≤ depth_limit }
    ensures { (t : Tree) → depth_of t ≤ limit
        → (IsTrue result ↔ (items_depth (put_item place t (list_of items.now)) ≤ limit)) }
{
    let values = items.as_slice();
    for (index, value) in values.iter().enumerate() {
        if index != place && value.depth() > limit {
            return false;
        }
    }
    true
}

ghost use Rattle.std.specs.Prelude.{◌≡◌, ◌-◌, ◌^◌, min};
ghost use Rattle.vrl_kind.specs.Count as count;
ghost use Rattle.vrl_kind.specs.View.{list_of, object_of, places_view, fields_view, rest_of};

use crate::kind::{Kind, KindField, ListPart, ObjectPart, Rest};

/// The nodes of a kind: itself, and those of each known part's kind and of each exact rest's, or
/// `u64::MAX` where there are more. It takes no memory.
#[cycle(nodes)]
pub fn nodes(kind: &Kind) -> u64
    ensures { result ≡ min (count.nodes kind.now) (2 ^ 64 - 1) }
{
    list_nodes(&kind.list)
        .saturating_add(object_nodes(&kind.object))
        .saturating_add(1)
}

#[cycle(nodes)]
fn list_nodes(list: &Option<ListPart>) -> u64
    ensures { result ≡ min (count.list_nodes (list_of list.now)) (2 ^ 64 - 1) }
{
    match list {
        None => 0,
        Some(part) => places_nodes(&part.places.kinds).saturating_add(rest_nodes(&part.rest)),
    }
}

#[cycle(nodes)]
fn object_nodes(object: &Option<ObjectPart>) -> u64
    ensures { result ≡ min (count.object_nodes (object_of object.now)) (2 ^ 64 - 1) }
{
    match object {
        None => 0,
        Some(part) => fields_nodes(&part.fields.fields).saturating_add(rest_nodes(&part.rest)),
    }
}

#[cycle(nodes)]
fn places_nodes(kinds: &[Kind]) -> u64
    ensures { result ≡ min (count.places_nodes (places_view kinds.now)) (2 ^ 64 - 1) }
{
    let mut sum: u64 = 0;
    for kind in kinds {
        sum = sum.saturating_add(nodes(kind));
    }
    sum
}

#[cycle(nodes)]
fn fields_nodes(fields: &[KindField]) -> u64
    ensures { result ≡ min (count.fields_nodes (fields_view fields.now)) (2 ^ 64 - 1) }
{
    let mut sum: u64 = 0;
    for field in fields {
        sum = sum.saturating_add(nodes(&field.kind));
    }
    sum
}

#[cycle(nodes)]
fn rest_nodes(rest: &Rest) -> u64
    ensures { result ≡ min (count.rest_nodes (rest_of rest.now)) (2 ^ 64 - 1) }
{
    match rest {
        Rest::Nothing | Rest::Json | Rest::Any => 0,
        Rest::Exact(kind) => nodes(kind),
    }
}

/// The levels of a kind: the steps down to its deepest node, or `u64::MAX` where there are more. A
/// kind without parts has none. It takes no memory.
#[cycle(levels)]
pub fn levels(kind: &Kind) -> u64
    ensures { result ≡ min (count.levels kind.now) (2 ^ 64 - 1) }
{
    list_levels(&kind.list).max(object_levels(&kind.object))
}

#[cycle(levels)]
fn list_levels(list: &Option<ListPart>) -> u64
    ensures { result ≡ min (count.list_levels (list_of list.now)) (2 ^ 64 - 1) }
{
    match list {
        None => 0,
        Some(part) => places_levels(&part.places.kinds).max(rest_levels(&part.rest)),
    }
}

#[cycle(levels)]
fn object_levels(object: &Option<ObjectPart>) -> u64
    ensures { result ≡ min (count.object_levels (object_of object.now)) (2 ^ 64 - 1) }
{
    match object {
        None => 0,
        Some(part) => fields_levels(&part.fields.fields).max(rest_levels(&part.rest)),
    }
}

#[cycle(levels)]
fn places_levels(kinds: &[Kind]) -> u64
    ensures { result ≡ min (count.places_levels (places_view kinds.now)) (2 ^ 64 - 1) }
{
    let mut most: u64 = 0;
    for kind in kinds {
        most = most.max(levels(kind).saturating_add(1));
    }
    most
}

#[cycle(levels)]
fn fields_levels(fields: &[KindField]) -> u64
    ensures { result ≡ min (count.fields_levels (fields_view fields.now)) (2 ^ 64 - 1) }
{
    let mut most: u64 = 0;
    for field in fields {
        most = most.max(levels(&field.kind).saturating_add(1));
    }
    most
}

#[cycle(levels)]
fn rest_levels(rest: &Rest) -> u64
    ensures { result ≡ min (count.rest_levels (rest_of rest.now)) (2 ^ 64 - 1) }
{
    match rest {
        Rest::Nothing | Rest::Json | Rest::Any => 0,
        Rest::Exact(kind) => levels(kind).saturating_add(1),
    }
}

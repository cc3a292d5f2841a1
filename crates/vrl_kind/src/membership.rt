ghost use Rattle.std.specs.Prelude.{◌↔◌, ◌≡◌, IsTrue, MatchOption, option_map};
ghost use Rattle.std.specs.List.{list_all};
ghost use Rattle.vrl_value.specs.Look.{item_at};
ghost use Rattle.vrl_value.specs.View.{tree_of, items_view, members_of};
ghost use Rattle.vrl_kind.specs.Canonical.{allows_absent};
ghost use Rattle.vrl_kind.specs.Kinds.{Inhabits};
ghost use Rattle.vrl_kind.specs.Membership.{PartInhabits, ItemsInhabit, MembersInhabit, IsFound, IsLacking};
ghost use Rattle.vrl_kind.specs.Merge.{FieldsAreSorted};
ghost use Rattle.vrl_kind.specs.Seen.{part_rest, seen_tree};
ghost use Rattle.vrl_kind.specs.View.{places_view, fields_view};

use crate::kind::{Kind, KindField, has};
use crate::seen::{Part, Seen, SeenList, SeenObject};
use std::cmp::Ordering;
use vrl_value::{Fields, Tag, Value};

/// Whether the value is of the kind: at each path where it has something, or lacks a part that
/// could be there, the kind allows that. It takes no memory, and looks at each part of the value,
/// and at each field of the kind beside one of the value's objects, at most once.
pub fn inhabits(value: &Value, kind: &Kind) -> bool
    ensures { IsTrue result ↔ Inhabits (tree_of value.now) kind.now }
{
    seen_inhabits(value, Seen::of(kind))
}

#[cycle(inhabits)]
fn seen_inhabits(value: &Value, seen: Seen<'_>) -> bool
    ensures { IsTrue result ↔ Inhabits (tree_of value.now) (seen_tree seen.entry) }
{
    if let Part::Any = seen.part {
        return true;
    }
    match value {
        Value::Text(_) => seen.scalars().string,
        Value::Int(_) => seen.scalars().integer,
        Value::Bool(_) => seen.scalars().boolean,
        Value::Null => seen.scalars().null,
        Value::Time(_) => seen.scalars().timestamp,
        Value::Pattern(_) => seen.scalars().regex,
        Value::List(items) => match seen.list() {
            None => false,
            Some(list) => items_inhabit(items.as_slice(), list),
        },
        Value::Object(fields) => match seen.object() {
            None => false,
            Some(object) => fields_inhabit(fields, object),
        },
    }
}

#[cycle(inhabits)]
fn items_inhabit(items: &[Value], list: SeenList<'_>) -> bool
    ensures { IsTrue result
        ↔ ItemsInhabit (items_view items.now) (places_view list.entry.places.now) (part_rest list.entry.rest) }
{
    for at in 0..items.len().max(list.places.len()) {
        if !item_inhabits(items, at, list.place(at)) {
            return false;
        }
    }
    true
}

// Whether the item at a place, or that there is none, is of the kind of the place.
#[cycle(inhabits)]
fn item_inhabits(items: &[Value], at: usize, place: Seen<'_>) -> bool
    ensures { IsTrue result ↔ PartInhabits (item_at at (items_view items.now)) (seen_tree place.entry) }
{
    match items.get(at) {
        Some(item) => seen_inhabits(item, place),
        None => place.absent,
    }
}

#[cycle(inhabits)]
fn fields_inhabit(fields: &Fields, object: SeenObject<'_>) -> bool
    requires { FieldsAreSorted (fields_view object.fields.now) }
    ensures { IsTrue result
        ↔ MembersInhabit (members_of fields.now) (fields_view object.entry.fields.now) (part_rest object.entry.rest) }
{
    let mut left = object.fields;
    for (name, value) in fields.as_map().iter() {
        let Some(found) = found_from(left, name.as_str()) else {
            return false;
        };
        if !seen_inhabits(value, object.known_or_rest(found.kind)) {
            return false;
        }
        left = found.behind;
    }
    may_be_left_out(left)
}

// The kind of a name among the fields, if it is known, and the fields behind it.
#[derive(Clone, Copy)]
struct FoundField<'a> {
    kind: Option<&'a Kind>,
    behind: &'a [KindField],
}

// What is known of a name, past the fields that come before it. `None`: one of these may not be
// absent.
fn found_from<'a>(fields: &'a [KindField], name: &str) -> Option<FoundField<'a>>
    requires { FieldsAreSorted (fields_view fields.now) }
    ensures { MatchOption result (IsLacking name.now (fields_view fields.now))
        (λ found. IsFound name.now (fields_view fields.now) (option_map (λ kind. kind.now) found.kind)
        (fields_view found.behind.now)) }
{
    let mut left = fields;
    while let Some((first, rest)) = left.split_first() {
        match first.name.as_str().cmp(name) {
            Ordering::Less => {
                if !has(&first.kind, Tag::Absent) {
                    return None;
                }
                left = rest;
            }
            Ordering::Equal => {
                return Some(FoundField {
                    kind: Some(&first.kind),
                    behind: rest,
                });
            }
            Ordering::Greater => {
                return Some(FoundField {
                    kind: None,
                    behind: left,
                });
            }
        }
    }
    Some(FoundField {
        kind: None,
        behind: left,
    })
}

// Whether each of the fields may be absent.
fn may_be_left_out(fields: &[KindField]) -> bool
    ensures { result ≡ list_all (λ field. allows_absent field.kind) fields.now }
{
    fields.iter().all(|field| field.kind.scalars.absent)
}

ghost use Rattle.std.specs.Prelude.{◌↔◌, ◌≡◌, IsTrue};
ghost use Rattle.vrl_kind.specs.View.{list_of, object_of, places_view, fields_view, rest_of};

use crate::kind::{Kind, KindField, ListPart, ObjectPart, Rest};

// Whether two kinds are one. It ends at the first part where they differ.
#[cycle(same)]
pub(crate) fn same(a: &Kind, b: &Kind) -> bool
    ensures { IsTrue result ↔ (a.now ≡ b.now) }
{
    if !a.scalars.same(b.scalars) {
        return false;
    }
    if !same_lists(&a.list, &b.list) {
        return false;
    }
    same_objects(&a.object, &b.object)
}

#[cycle(same)]
fn same_lists(a: &Option<ListPart>, b: &Option<ListPart>) -> bool
    ensures { IsTrue result ↔ (list_of a.now ≡ list_of b.now) }
{
    match (a, b) {
        (None, None) => true,
        (Some(a), Some(b)) => {
            if !same_rests(&a.rest, &b.rest) {
                return false;
            }
            same_places(&a.places.kinds, &b.places.kinds)
        }
        _ => false,
    }
}

#[cycle(same)]
fn same_objects(a: &Option<ObjectPart>, b: &Option<ObjectPart>) -> bool
    ensures { IsTrue result ↔ (object_of a.now ≡ object_of b.now) }
{
    match (a, b) {
        (None, None) => true,
        (Some(a), Some(b)) => {
            if !same_rests(&a.rest, &b.rest) {
                return false;
            }
            same_fields(&a.fields.fields, &b.fields.fields)
        }
        _ => false,
    }
}

#[cycle(same)]
fn same_rests(a: &Rest, b: &Rest) -> bool
    ensures { IsTrue result ↔ (rest_of a.now ≡ rest_of b.now) }
{
    match (a, b) {
        (Rest::Nothing, Rest::Nothing) => true,
        (Rest::Json, Rest::Json) => true,
        (Rest::Any, Rest::Any) => true,
        (Rest::Exact(a), Rest::Exact(b)) => same(a, b),
        _ => false,
    }
}

#[cycle(same)]
pub(crate) fn same_places(a: &[Kind], b: &[Kind]) -> bool
    ensures { IsTrue result ↔ (places_view a.now ≡ places_view b.now) }
{
    if a.len() != b.len() {
        return false;
    }
    for at in 0..a.len() {
        if !same(&a[at], &b[at]) {
            return false;
        }
    }
    true
}

#[cycle(same)]
pub(crate) fn same_fields(a: &[KindField], b: &[KindField]) -> bool
    ensures { IsTrue result ↔ (fields_view a.now ≡ fields_view b.now) }
{
    if a.len() != b.len() {
        return false;
    }
    for at in 0..a.len() {
        if !same_field(&a[at], &b[at]) {
            return false;
        }
    }
    true
}

#[cycle(same)]
fn same_field(a: &KindField, b: &KindField) -> bool
    ensures { IsTrue result ↔ (a.now ≡ b.now) }
{
    if a.name.as_str() != b.name.as_str() {
        return false;
    }
    same(&a.kind, &b.kind)
}

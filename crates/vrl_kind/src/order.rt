ghost use Rattle.std.specs.Prelude.{◌≡◌, ◌↔◌, ◌&&◌, ◌≤◌, ◌+◌, [], Some, IsTrue};
ghost use Rattle.std.specs.List.{list_any};
ghost use Rattle.vrl_kind.specs.Kinds.{tags_at, IsWithin, IsDisjoint};
ghost use Rattle.vrl_kind.specs.Tags.{all_tags};
ghost use Rattle.vrl_kind.specs.Parts.{ListsAreWithin, ObjectsAreWithin};
ghost use Rattle.vrl_kind.specs.Seen.{seen_tree, seen_list, seen_object, weight};
ghost use Rattle.vrl_kind.specs.Canonical.{ObjectIsCanonical};

use crate::kind::{Kind, has};
use crate::merge::Merge;
use crate::seen::{Seen, SeenList, SeenObject, some_exact};
use vrl_value::Tag;

/// Every tag, each once: those of the eight sorts of value, and `Absent`.
pub const TAGS: [Tag; 9] = [
    Tag::Text,
    Tag::Int,
    Tag::Bool,
    Tag::Null,
    Tag::Time,
    Tag::Pattern,
    Tag::List,
    Tag::Object,
    Tag::Absent,
];

/// Whether all that the first kind allows at any path, `Absent` too, is allowed there by the
/// second. It takes no memory, and walks both kinds side by side, a rest once for each part that
/// the other kind knows in its place.
pub fn within(a: &Kind, b: &Kind) -> bool
    ensures { IsTrue result ↔ IsWithin a.now b.now }
{
    within_seen(Seen::of(a), Seen::of(b))
}

/// Whether no tag, `Absent` too, is allowed by both kinds at the root. It takes no memory.
pub fn disjoint(a: &Kind, b: &Kind) -> bool
    ensures { IsTrue result ↔ IsDisjoint a.now b.now }
{
    !some_tag_in_both(a, b)
}

// Whether a tag is allowed by both kinds at the root.
fn some_tag_in_both(a: &Kind, b: &Kind) -> bool
    ensures { result ≡ list_any (λ t. tags_at a.now [] t && tags_at b.now [] t) all_tags }
{
    TAGS.iter().any(|tag| has(a, *tag) && has(b, *tag))
}

fn implies(first: bool, second: bool) -> bool
    ensures { IsTrue result ↔ (IsTrue first → IsTrue second) }
{
    !first || second
}

#[cycle(within)]
fn within_seen(a: Seen<'_>, b: Seen<'_>) -> bool
    ensures { IsTrue result ↔ IsWithin (seen_tree a.entry) (seen_tree b.entry) }
{
    if !implies(a.absent, b.absent) {
        return false;
    }
    if b.part.covers(a.part) {
        return true;
    }
    if !some_exact(a.part, b.part) {
        return false;
    }
    parts_within(a, b)
}

#[cycle(within)]
fn parts_within(a: Seen<'_>, b: Seen<'_>) -> bool
    requires { 1 ≤ weight a + weight b }
    ensures { IsTrue result ↔ IsWithin (seen_tree a.entry) (seen_tree b.entry) }
{
    if !a.scalars().within(b.scalars()) {
        return false;
    }
    if !lists_within(a.list(), b.list()) {
        return false;
    }
    objects_within(a.object(), b.object())
}

#[cycle(within)]
fn lists_within(a: Option<SeenList<'_>>, b: Option<SeenList<'_>>) -> bool
    ensures { IsTrue result ↔ ListsAreWithin (seen_list a.entry) (seen_list b.entry) }
{
    match (a, b) {
        (None, _) => true,
        (Some(_), None) => false,
        (Some(a), Some(b)) => places_within(a, b),
    }
}

#[cycle(within)]
fn places_within(a: SeenList<'_>, b: SeenList<'_>) -> bool
    ensures { IsTrue result ↔ ListsAreWithin (seen_list (Some a.entry)) (seen_list (Some b.entry)) }
{
    for at in 0..a.places.len().max(b.places.len()) {
        if !within_seen(a.place(at), b.place(at)) {
            return false;
        }
    }
    within_seen(Seen::of_rest(a.rest), Seen::of_rest(b.rest))
}

#[cycle(within)]
fn objects_within(a: Option<SeenObject<'_>>, b: Option<SeenObject<'_>>) -> bool
    requires a_canonical { ObjectIsCanonical (seen_object a) }
    requires b_canonical { ObjectIsCanonical (seen_object b) }
    ensures { IsTrue result ↔ ObjectsAreWithin (seen_object a.entry) (seen_object b.entry) }
{
    match (a, b) {
        (None, _) => true,
        (Some(_), None) => false,
        (Some(a), Some(b)) => fields_within(a, b),
    }
}

#[cycle(within)]
fn fields_within(a: SeenObject<'_>, b: SeenObject<'_>) -> bool
    requires a_canonical { ObjectIsCanonical (seen_object (Some a)) }
    requires b_canonical { ObjectIsCanonical (seen_object (Some b)) }
    ensures { IsTrue result ↔ ObjectsAreWithin (seen_object (Some a.entry)) (seen_object (Some b.entry)) }
{
    let mut merge = Merge {
        left: a.fields,
        right: b.fields,
    };
    while let Some(pair) = merge.next() {
        if !within_seen(a.known_or_rest(pair.left), b.known_or_rest(pair.right)) {
            return false;
        }
    }
    within_seen(Seen::of_rest(a.rest), Seen::of_rest(b.rest))
}

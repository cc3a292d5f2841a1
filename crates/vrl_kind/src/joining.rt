ghost use Rattle.std.specs.Prelude.{◌≡◌, ◌||◌, ◌≤◌, ◌+◌, IfOk, Some};
ghost use Rattle.vrl_value.specs.Tree.{Tree};
ghost use Rattle.vrl_kind.specs.KindTree.{KindTree};
ghost use Rattle.vrl_kind.specs.Canonical.{IsCanonical, ListIsCanonical, ObjectIsCanonical, rest_kind, with_absent};
ghost use Rattle.vrl_kind.specs.Kinds.{Inhabits, IsJoin, IsParts, IsWithin, list_at, object_at};
ghost use Rattle.vrl_kind.specs.Parts.{AddsParts, AreCombined, IsListJoin, IsObjectJoin, either_at};
ghost use Rattle.vrl_kind.specs.Seen.{part_rest, seen_tree, seen_list, seen_object, weight};
ghost use Rattle.vrl_kind.specs.View.{fields_view, list_of, object_of};

use crate::kind::{Kind, KindField, ListPart, ObjectPart};
use crate::make::{copy_list, copy_object, copy_part, push_known};
use crate::merge::Merge;
use crate::seen::{Seen, SeenList, SeenObject};
use std::alloc::Global;
use vrl_value::{Chars, Memory};

/// The kind of what is of either kind: at each path it allows what either allows there, and nothing
/// else. It walks both kinds side by side, and a rest once for each part that the other kind knows
/// in its place, so it takes time linear in both and in what it gives. `Memory`: want of memory.
pub fn join(alloc: Global, a: &Kind, b: &Kind) -> Result<Kind, Memory>
    ensures union { IfOk result (λ kind. IsJoin a.now b.now kind) }
    ensures above { IfOk result (λ kind. IsWithin a.now kind × IsWithin b.now kind) }
    ensures least { IfOk result (λ kind. (upper : KindTree)
        → IsWithin a.now upper → IsWithin b.now upper → IsWithin kind upper) }
    ensures first { IfOk result (λ kind. (value : Tree) → Inhabits value a.now → Inhabits value kind) }
    ensures second { IfOk result (λ kind. (value : Tree) → Inhabits value b.now → Inhabits value kind) }
{
    join_seen(alloc, Seen::of(a), Seen::of(b))
}

/// The join of the kinds of all places and fields, without absent: what an array's or an object's
/// parts may be. It is `never` where the kind has neither. Each part is joined with what the
/// earlier ones gave, so it takes at most a walk of the kind for each of its places and fields.
/// `Memory`: want of memory.
pub fn parts(alloc: Global, kind: &Kind) -> Result<Kind, Memory>
    ensures { IfOk result (λ all. IsParts kind.now all) }
{
    let seen = Seen::of(kind);
    let places = with_places(alloc, Kind::never(), seen.list())?;
    let all = with_fields(alloc, places, seen.object())?;
    Ok(with_either(all, false, false))
}

fn with_places(alloc: Global, first: Kind, list: Option<SeenList<'_>>) -> Result<Kind, Memory>
    ensures { IfOk result (λ all. AddsParts (list_at (seen_list list.entry)) first all) }
{
    match list {
        None => Ok(first),
        Some(list) => join_places_into(alloc, first, list),
    }
}

fn with_fields(alloc: Global, first: Kind, object: Option<SeenObject<'_>>) -> Result<Kind, Memory>
    requires { ObjectIsCanonical (seen_object object) }
    ensures { IfOk result (λ all. AddsParts (object_at (seen_object object.entry)) first all) }
{
    match object {
        None => Ok(first),
        Some(object) => join_fields_into(alloc, first, object),
    }
}

fn join_places_into(alloc: Global, first: Kind, list: SeenList<'_>) -> Result<Kind, Memory>
    ensures { IfOk result (λ all. AddsParts (list_at (seen_list (Some list.entry))) first all) }
{
    let mut all = join_seen(alloc, Seen::of(&first), Seen::of_rest(list.rest))?;
    for place in list.places {
        all = join(alloc, &all, place)?;
    }
    Ok(all)
}

fn join_fields_into(alloc: Global, first: Kind, object: SeenObject<'_>) -> Result<Kind, Memory>
    requires { ObjectIsCanonical (seen_object (Some object)) }
    ensures { IfOk result (λ all. AddsParts (object_at (seen_object (Some object.entry))) first all) }
{
    let mut all = join_seen(alloc, Seen::of(&first), Seen::of_rest(object.rest))?;
    for field in object.fields {
        all = join(alloc, &all, &field.kind)?;
    }
    Ok(all)
}

#[cycle(join)]
pub(crate) fn join_seen(alloc: Global, a: Seen<'_>, b: Seen<'_>) -> Result<Kind, Memory>
    ensures union { IfOk result (λ kind. IsJoin (seen_tree a.entry) (seen_tree b.entry) kind) }
    ensures canonical { IfOk result (λ kind. IsCanonical kind) }
{
    if a.part.covers(b.part) {
        let first = copy_part(alloc, a.part)?;
        return Ok(with_either(first, a.absent, b.absent));
    }
    if b.part.covers(a.part) {
        let second = copy_part(alloc, b.part)?;
        return Ok(with_either(second, a.absent, b.absent));
    }
    join_parts(alloc, a, b)
}

// The kind, which may be absent where either of two may.
pub(crate) fn with_either(kind: Kind, first: bool, second: bool) -> Kind
    ensures kind { result ≡ with_absent (first || second) kind }
    ensures canonical { IsCanonical result }
{
    let mut joined = kind;
    joined.scalars.absent = first || second;
    joined
}

#[cycle(join)]
fn join_parts(alloc: Global, a: Seen<'_>, b: Seen<'_>) -> Result<Kind, Memory>
    requires { 1 ≤ weight a + weight b }
    ensures union { IfOk result (λ kind. IsJoin (seen_tree a.entry) (seen_tree b.entry) kind) }
    ensures canonical { IfOk result (λ kind. IsCanonical kind) }
{
    Ok(Kind {
        scalars: a.scalars().union(b.scalars()),
        list: join_lists(alloc, a.list(), b.list())?,
        object: join_objects(alloc, a.object(), b.object())?,
    })
}

#[cycle(join)]
fn join_lists(
    alloc: Global,
    a: Option<SeenList<'_>>,
    b: Option<SeenList<'_>>,
) -> Result<Option<ListPart>, Memory>
    requires a_canonical { ListIsCanonical (seen_list a) }
    requires b_canonical { ListIsCanonical (seen_list b) }
    ensures union { IfOk result (λ list. IsListJoin (seen_list a.entry) (seen_list b.entry) (list_of list)) }
    ensures canonical { IfOk result (λ list. ListIsCanonical (list_of list)) }
{
    match (a, b) {
        (None, other) => copy_list(alloc, other),
        (other, None) => copy_list(alloc, other),
        (Some(a), Some(b)) => Ok(Some(join_places(alloc, a, b)?)),
    }
}

#[cycle(join)]
fn join_places(alloc: Global, a: SeenList<'_>, b: SeenList<'_>) -> Result<ListPart, Memory>
    ensures union { IfOk result
        (λ list. IsListJoin (seen_list (Some a.entry)) (seen_list (Some b.entry)) (list_of (Some list))) }
    ensures canonical { IfOk result (λ list. ListIsCanonical (list_of (Some list))) }
{
    let known = a.places.len().max(b.places.len());
    let mut kinds = Vec::with_capacity(alloc, known)?;
    for at in 0..known {
        kinds.push(join_seen(alloc, a.place(at), b.place(at))?)?;
    }
    let own = join_seen(alloc, Seen::of_rest(a.rest), Seen::of_rest(b.rest))?;
    ListPart::of(alloc, kinds, own)
}

#[cycle(join)]
fn join_objects(
    alloc: Global,
    a: Option<SeenObject<'_>>,
    b: Option<SeenObject<'_>>,
) -> Result<Option<ObjectPart>, Memory>
    requires a_canonical { ObjectIsCanonical (seen_object a) }
    requires b_canonical { ObjectIsCanonical (seen_object b) }
    ensures union { IfOk result
        (λ object. IsObjectJoin (seen_object a.entry) (seen_object b.entry) (object_of object)) }
    ensures canonical { IfOk result (λ object. ObjectIsCanonical (object_of object)) }
{
    match (a, b) {
        (None, other) => copy_object(alloc, other),
        (other, None) => copy_object(alloc, other),
        (Some(a), Some(b)) => Ok(Some(join_fields(alloc, a, b)?)),
    }
}

#[cycle(join)]
fn join_fields(alloc: Global, a: SeenObject<'_>, b: SeenObject<'_>) -> Result<ObjectPart, Memory>
    requires a_canonical { ObjectIsCanonical (seen_object (Some a)) }
    requires b_canonical { ObjectIsCanonical (seen_object (Some b)) }
    ensures union { IfOk result
        (λ object. IsObjectJoin (seen_object (Some a.entry)) (seen_object (Some b.entry)) (object_of (Some object))) }
    ensures canonical { IfOk result (λ object. ObjectIsCanonical (object_of (Some object))) }
{
    let own = join_seen(alloc, Seen::of_rest(a.rest), Seen::of_rest(b.rest))?;
    let known = join_known(alloc, a, b, &own)?;
    ObjectPart::of(alloc, known, own)
}

// The joined kinds at the names that either knows, where they say more than the joined rest.
#[cycle(join)]
fn join_known(
    alloc: Global,
    a: SeenObject<'_>,
    b: SeenObject<'_>,
    own: &Kind,
) -> Result<Vec<KindField>, Memory>
    requires a_canonical { ObjectIsCanonical (seen_object (Some a)) }
    requires b_canonical { ObjectIsCanonical (seen_object (Some b)) }
    requires rests { IsJoin (rest_kind (part_rest a.rest)) (rest_kind (part_rest b.rest)) own.now }
    ensures { IfOk result
        (λ known. AreCombined either_at
        (rest_kind (part_rest a.entry.rest)) (rest_kind (part_rest b.entry.rest)) own.now
        (fields_view a.entry.fields.now) (fields_view b.entry.fields.now) (fields_view known.items)) }
{
    let mut known: Vec<KindField> = Vec::new(alloc);
    let mut merge = Merge {
        left: a.fields,
        right: b.fields,
    };
    while let Some(pair) = merge.next() {
        let kind = join_seen(
            alloc,
            a.known_or_rest(pair.left),
            b.known_or_rest(pair.right),
        )?;
        let name = Chars::copy_of(alloc, pair.name)?;
        push_known(&mut known, name, kind, own)?;
    }
    Ok(known)
}

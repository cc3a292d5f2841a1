ghost use Rattle.std.specs.Prelude.{◌≡◌, ◌-◌, ◌^◌, ◌++◌, min, replicate, IfOk, OnOk};
ghost use Rattle.vrl_kind.specs.Count as count;
ghost use Rattle.vrl_kind.specs.Cut.{IsCut};
ghost use Rattle.vrl_kind.specs.Stretch.{FieldsKnowAtMost, KnowsAtMost, ListKnowsAtMost};
ghost use Rattle.vrl_kind.specs.Stretch.{ObjectKnowsAtMost, PlacesKnowAtMost, RestKnowsAtMost};
ghost use Rattle.vrl_kind.specs.Stretch.{more_at, stretched, stretched_fields, stretched_list};
ghost use Rattle.vrl_kind.specs.Stretch.{stretched_object, stretched_places, stretched_rest};
ghost use Rattle.vrl_kind.specs.View.{list_of, object_of, places_view, fields_view, rest_of};

use crate::count::{levels, nodes};
use crate::kind::{Kind, KindField, KindFields, Kinds, ListPart, ObjectPart, Rest};
use crate::limits::{LEVEL_LIMIT, NODE_LIMIT, flatten};
use std::alloc::Global;
use vrl_value::Memory;

/// A place that is repeated: what stands there stands at this many more places behind it, and what
/// stood behind it moves up by as many. With no more places nothing changes.
#[derive(Clone, Copy)]
pub struct Stretch {
    /// The place.
    pub place: usize,
    /// The places behind it at which the same stands.
    pub more: usize,
}

impl Stretch {
    // The places behind a place at which the same stands.
    fn more_at(self, place: usize) -> usize
        ensures { result ≡ more_at self place }
    {
        if place == self.place { self.more } else { 0 }
    }
}

/// The kind, cut, each of whose arrays is stretched: those of the kind itself as the first says,
/// those one step down as the second says, and so on; those below the last stay. It is told without
/// a walk over places that are more than a cut kind may keep. `Memory`: want of memory.
pub fn stretched_cut(alloc: Global, kind: &Kind, stretches: &[Stretch]) -> Result<Kind, Memory>
    ensures { IfOk result (λ small. IsCut (stretched stretches.now kind.now) small) }
{
    if stretched_nodes(kind, stretches) > NODE_LIMIT {
        return Ok(flatten(alloc, kind));
    }
    if levels(kind) > LEVEL_LIMIT {
        return Ok(flatten(alloc, kind));
    }
    stretched(alloc, kind, stretches)
}

/// The nodes of a kind whose arrays are stretched, or `u64::MAX` where there are more. It takes no
/// memory, and walks each of the kind's own nodes once.
#[cycle(stretched_nodes)]
pub fn stretched_nodes(kind: &Kind, stretches: &[Stretch]) -> u64
    ensures { result ≡ min (count.nodes (stretched stretches.now kind.now)) (2 ^ 64 - 1) }
{
    match stretches.split_first() {
        None => nodes(kind),
        Some((first, behind)) => list_nodes(&kind.list, *first, behind)
            .saturating_add(object_nodes(&kind.object, behind))
            .saturating_add(1),
    }
}

#[cycle(stretched_nodes)]
fn list_nodes(list: &Option<ListPart>, first: Stretch, behind: &[Stretch]) -> u64
    ensures { result ≡ min (count.list_nodes (stretched_list first behind.now (list_of list.now)))
        (2 ^ 64 - 1) }
{
    match list {
        None => 0,
        Some(part) => places_nodes(&part.places.kinds, first, behind).saturating_add(rest_nodes(
            &part.rest, behind,
        )),
    }
}

#[cycle(stretched_nodes)]
fn object_nodes(object: &Option<ObjectPart>, behind: &[Stretch]) -> u64
    ensures { result ≡ min (count.object_nodes (stretched_object behind.now (object_of object.now)))
        (2 ^ 64 - 1) }
{
    match object {
        None => 0,
        Some(part) => fields_nodes(&part.fields.fields, behind).saturating_add(rest_nodes(
            &part.rest, behind,
        )),
    }
}

#[cycle(stretched_nodes)]
fn places_nodes(kinds: &[Kind], first: Stretch, behind: &[Stretch]) -> u64
    ensures { result ≡ min (count.places_nodes (stretched_places first behind.now (places_view kinds.now)))
        (2 ^ 64 - 1) }
{
    let mut sum: u64 = 0;
    for place in 0..kinds.len() {
        let each = stretched_nodes(&kinds[place], behind);
        let more = each.saturating_mul(first.more_at(place) as u64);
        sum = sum.saturating_add(each).saturating_add(more);
    }
    sum
}

#[cycle(stretched_nodes)]
fn fields_nodes(fields: &[KindField], behind: &[Stretch]) -> u64
    ensures { result ≡ min (count.fields_nodes (stretched_fields behind.now (fields_view fields.now)))
        (2 ^ 64 - 1) }
{
    let mut sum: u64 = 0;
    for field in fields {
        sum = sum.saturating_add(stretched_nodes(&field.kind, behind));
    }
    sum
}

#[cycle(stretched_nodes)]
fn rest_nodes(rest: &Rest, behind: &[Stretch]) -> u64
    ensures { result ≡ min (count.rest_nodes (stretched_rest behind.now (rest_of rest.now)))
        (2 ^ 64 - 1) }
{
    match rest {
        Rest::Nothing | Rest::Json | Rest::Any => 0,
        Rest::Exact(kind) => stretched_nodes(kind, behind),
    }
}

// The kind whose arrays are stretched. `Memory`: want of memory.
#[cycle(stretched)]
fn stretched(alloc: Global, kind: &Kind, stretches: &[Stretch]) -> Result<Kind, Memory>
    ensures { IfOk result (λ whole. whole ≡ stretched stretches.now kind.now) }
{
    match stretches.split_first() {
        None => kind.copy(alloc),
        Some((first, behind)) => {
            let list = stretched_list(alloc, &kind.list, *first, behind)?;
            let object = stretched_object(alloc, &kind.object, behind)?;
            Ok(Kind {
                scalars: kind.scalars,
                list,
                object,
            })
        }
    }
}

#[cycle(stretched)]
fn stretched_list(
    alloc: Global,
    list: &Option<ListPart>,
    first: Stretch,
    behind: &[Stretch],
) -> Result<Option<ListPart>, Memory>
    ensures { IfOk result
        (λ whole. list_of whole ≡ stretched_list first behind.now (list_of list.now)) }
{
    match list {
        None => Ok(None),
        Some(part) => Ok(Some(ListPart {
            places: stretched_places(alloc, &part.places.kinds, first, behind)?,
            rest: stretched_rest(alloc, &part.rest, behind)?,
        })),
    }
}

#[cycle(stretched)]
fn stretched_object(
    alloc: Global,
    object: &Option<ObjectPart>,
    behind: &[Stretch],
) -> Result<Option<ObjectPart>, Memory>
    ensures { IfOk result
        (λ whole. object_of whole ≡ stretched_object behind.now (object_of object.now)) }
{
    match object {
        None => Ok(None),
        Some(part) => Ok(Some(ObjectPart {
            fields: stretched_fields(alloc, &part.fields.fields, behind)?,
            rest: stretched_rest(alloc, &part.rest, behind)?,
        })),
    }
}

#[cycle(stretched)]
fn stretched_places(
    alloc: Global,
    kinds: &[Kind],
    first: Stretch,
    behind: &[Stretch],
) -> Result<Kinds, Memory>
    ensures { IfOk result
        (λ whole. places_view whole.kinds.items ≡
        stretched_places first behind.now (places_view kinds.now)) }
{
    let mut whole = Vec::new(alloc);
    for place in 0..kinds.len() {
        let each = stretched(alloc, &kinds[place], behind)?;
        push_copies(alloc, &mut whole, &each, first.more_at(place))?;
        whole.push(each)?;
    }
    Ok(Kinds { kinds: whole })
}

// Puts a kind behind others so often. `Memory`: want of memory.
fn push_copies(
    alloc: Global,
    kinds: &mut Vec<Kind>,
    kind: &Kind,
    copies: usize,
) -> Result<(), Memory>
    ensures { OnOk result (kinds.new.items ≡ kinds.old.items ++ replicate copies kind.now) }
{
    for _copy in 0..copies {
        kinds.push(kind.copy(alloc)?)?;
    }
    Ok(())
}

#[cycle(stretched)]
fn stretched_fields(
    alloc: Global,
    fields: &[KindField],
    behind: &[Stretch],
) -> Result<KindFields, Memory>
    ensures { IfOk result
        (λ whole. fields_view whole.fields.items ≡
        stretched_fields behind.now (fields_view fields.now)) }
{
    let mut whole = Vec::with_capacity(alloc, fields.len())?;
    for field in fields {
        let name = field.name.copy(alloc)?;
        whole.push(KindField {
            name,
            kind: stretched(alloc, &field.kind, behind)?,
        })?;
    }
    Ok(KindFields { fields: whole })
}

#[cycle(stretched)]
fn stretched_rest(alloc: Global, rest: &Rest, behind: &[Stretch]) -> Result<Rest, Memory>
    ensures { IfOk result (λ whole. rest_of whole ≡ stretched_rest behind.now (rest_of rest.now)) }
{
    match rest {
        Rest::Nothing => Ok(Rest::Nothing),
        Rest::Json => Ok(Rest::Json),
        Rest::Any => Ok(Rest::Any),
        Rest::Exact(kind) => Ok(Rest::Exact(Box::new(alloc, stretched(alloc, kind, behind)?)?)),
    }
}

/// The most places that an array of the kind knows by themselves, of those this many steps down. It
/// takes no memory.
#[cycle(longest)]
pub fn longest_list(kind: &Kind, depth: usize) -> usize
    ensures { KnowsAtMost depth result kind.now }
{
    list_longest(&kind.list, depth).max(object_longest(&kind.object, depth))
}

#[cycle(longest)]
fn list_longest(list: &Option<ListPart>, depth: usize) -> usize
    ensures { ListKnowsAtMost depth result (list_of list.now) }
{
    match list {
        None => 0,
        Some(part) => {
            if depth == 0 {
                return part.places.kinds.len();
            }
            places_longest(&part.places.kinds, depth - 1).max(rest_longest(&part.rest, depth - 1))
        }
    }
}

#[cycle(longest)]
fn object_longest(object: &Option<ObjectPart>, depth: usize) -> usize
    ensures { ObjectKnowsAtMost depth result (object_of object.now) }
{
    match object {
        None => 0,
        Some(part) => {
            if depth == 0 {
                return 0;
            }
            fields_longest(&part.fields.fields, depth - 1).max(rest_longest(&part.rest, depth - 1))
        }
    }
}

#[cycle(longest)]
fn places_longest(kinds: &[Kind], depth: usize) -> usize
    ensures { PlacesKnowAtMost depth result (places_view kinds.now) }
{
    let mut most: usize = 0;
    for kind in kinds {
        most = most.max(longest_list(kind, depth));
    }
    most
}

#[cycle(longest)]
fn fields_longest(fields: &[KindField], depth: usize) -> usize
    ensures { FieldsKnowAtMost depth result (fields_view fields.now) }
{
    let mut most: usize = 0;
    for field in fields {
        most = most.max(longest_list(&field.kind, depth));
    }
    most
}

#[cycle(longest)]
fn rest_longest(rest: &Rest, depth: usize) -> usize
    ensures { RestKnowsAtMost depth result (rest_of rest.now) }
{
    match rest {
        Rest::Nothing | Rest::Json | Rest::Any => 0,
        Rest::Exact(kind) => longest_list(kind, depth),
    }
}

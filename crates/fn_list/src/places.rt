ghost use Rattle.std.specs.Prelude.{◌≡◌, ◌++◌, ◌&&◌, true, IfOk, OnOk};
ghost use Rattle.std.specs.List.{list_all};
ghost use Rattle.vrl_kind.specs.KindTree.{exact, known_place, no_places, nothing};
ghost use Rattle.vrl_kind.specs.Kinds.{tags_at, SameTags};
ghost use Rattle.vrl_kind.specs.Make.{array_kind};
ghost use Rattle.vrl_kind.specs.Sets.{SameSets};
ghost use Rattle.vrl_kind.specs.View.{places_view, rest_of};
ghost use Rattle.fn_list.specs.Sure.{is_known, is_nothing, is_there, joined, placed, then_places, widened};
ghost use Rattle.fn_list.specs.Widened.{AreWidened, IsWidened};

use std::alloc::Global;
use vrl_kind::{Kind, Rest, has, join};
use vrl_value::{Memory, Tag};

// Whether what is of the kind is there.
fn is_there(kind: &Kind) -> bool
    ensures { result ≡ is_there kind.now }
{
    !has(kind, Tag::Absent)
}

// Whether each known place is sure.
fn all_there(places: &[Kind]) -> bool
    ensures { result ≡ list_all is_there places.now }
{
    places.iter().all(|place| is_there(place))
}

// Whether the rest is nothing.
fn is_nothing(rest: &Rest) -> bool
    ensures { result ≡ is_nothing (rest_of rest.now) }
{
    match rest {
        Rest::Nothing => true,
        Rest::Json => false,
        Rest::Any => false,
        Rest::Exact(_) => false,
    }
}

// Whether the length of arrays with these places and this rest is known: the rest is nothing, and
// each place is sure.
pub(crate) fn is_known(places: &[Kind], rest: &Rest) -> bool
    ensures { result ≡ is_known (places_view places.now) (rest_of rest.now) }
{
    if is_nothing(rest) {
        all_there(places)
    } else {
        false
    }
}

// Puts copies of kinds behind others.
fn push_kinds(alloc: Global, kinds: &mut Vec<Kind>, more: &[Kind]) -> Result<(), Memory>
    ensures { OnOk result (kinds.new.items ≡ kinds.old.items ++ more.now) }
{
    for kind in more {
        kinds.push(kind.copy(alloc)?)?;
    }
    Ok(())
}

// The kind of the arrays with these places, and then those. `Memory`: want of memory.
pub(crate) fn exact(alloc: Global, first: &[Kind], second: &[Kind]) -> Result<Kind, Memory>
    ensures { IfOk result
        (λ kind. SameTags kind (array_kind (then_places (places_view first.now) (places_view second.now)) nothing)) }
{
    let mut kinds = Vec::with_capacity(alloc, first.len())?;
    push_kinds(alloc, &mut kinds, first)?;
    push_kinds(alloc, &mut kinds, second)?;
    Kind::list(alloc, kinds, Rest::Nothing)
}

// The kind of the arrays with these places, and then one of this kind. `Memory`: want of memory.
pub(crate) fn exact_with(alloc: Global, first: &[Kind], last: &Kind) -> Result<Kind, Memory>
    ensures { IfOk result
        (λ kind. SameTags kind
        (array_kind (then_places (places_view first.now) (known_place last.now no_places)) nothing)) }
{
    let mut kinds = Vec::with_capacity(alloc, first.len())?;
    push_kinds(alloc, &mut kinds, first)?;
    kinds.push(last.copy(alloc)?)?;
    Kind::list(alloc, kinds, Rest::Nothing)
}

// The kind of what is of either kind, or may be absent.
fn joined(alloc: Global, place: &Kind, with: &Kind) -> Result<Kind, Memory>
    ensures { IfOk result (λ kind. SameSets (tags_at kind) (joined (tags_at place.now) (tags_at with.now))) }
{
    let either = join(alloc, place, with)?;
    Ok(either.or_absent())
}

// The kind of a place that stays as it is where it is sure, and else is joined with another kind
// and absent.
fn widened_place(alloc: Global, place: &Kind, with: &Kind, sure: bool) -> Result<Kind, Memory>
    ensures { IfOk result (λ kind. IsWidened sure (tags_at with.now) place.now kind) }
{
    if sure {
        place.copy(alloc)
    } else {
        joined(alloc, place, with)
    }
}

// Whether a place is sure behind one of which that is known.
fn is_sure(before: bool, place: &Kind) -> bool
    ensures { result ≡ (before && is_there place.now) }
{
    before && is_there(place)
}

// The kinds of places of which those that aren't sure are joined with another kind and absent.
fn widened_places(alloc: Global, places: &[Kind], with: &Kind) -> Result<Vec<Kind>, Memory>
    ensures { IfOk result (λ kinds. AreWidened true (tags_at with.now) places.now kinds.items) }
{
    let mut kinds = Vec::with_capacity(alloc, places.len())?;
    let mut sure = true;
    for place in places {
        sure = is_sure(sure, place);
        kinds.push(widened_place(alloc, place, with, sure)?)?;
    }
    Ok(kinds)
}

// What is of this kind stands behind.
fn exactly(alloc: Global, kind: Kind) -> Result<Rest, Memory>
    ensures { IfOk result (λ rest. rest_of rest ≡ exact kind) }
{
    Ok(Rest::Exact(Box::new(alloc, kind)?))
}

// The kind of arrays whose sure places stay as they are, and each other place is joined with
// another kind and absent. `Memory`: want of memory.
pub(crate) fn widened(
    alloc: Global,
    places: &[Kind],
    rest: &Rest,
    with: &Kind,
) -> Result<Kind, Memory>
    ensures { IfOk result
        (λ kind. SameSets (tags_at kind)
        (placed (widened (places_view places.now) (rest_of rest.now) (tags_at with.now)))) }
{
    let kinds = widened_places(alloc, places, with)?;
    let behind = rest.kind(alloc)?;
    let own = join(alloc, &behind, with)?;
    let rest = exactly(alloc, own)?;
    Kind::list(alloc, kinds, rest)
}

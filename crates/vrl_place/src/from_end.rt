ghost use Rattle.std.specs.Prelude.{◌≡◌, IfOk, MatchOption, ℕ};
ghost use Rattle.std.specs.List.{list_all};
ghost use Rattle.vrl_kind.specs.Kinds.{tags_at};
ghost use Rattle.vrl_kind.specs.View.{rest_of};
ghost use Rattle.vrl_place.specs.FromEnd.{AreSomePlaces, HasLength, IsSurePlace};
ghost use Rattle.vrl_place.specs.Inner.{from_start, is_nothing, is_sure, spot_sets};

use crate::spot::{Bare, Spot};
use std::alloc::Global;
use vrl_kind::{Kind, Rest, has, kind_is_canonical, list_part, parts, without};
use vrl_path::index;
use vrl_value::{Memory, Tag};

// The place, where it counts from the start. `None`: it counts from the end.
pub(crate) fn from_start(place: i64) -> Option<usize>
    ensures { result ≡ from_start place }
{
    let distance = place.unsigned_abs() as usize;
    if place >= 0 { Some(distance) } else { None }
}

// What may stand at any place. `Memory`: want of memory.
pub(crate) fn some_place(alloc: Global, spot: Spot<'_>) -> Result<Kind, Memory>
    ensures { IfOk result (λ kind. AreSomePlaces (spot_sets spot.entry) (tags_at kind)) }
{
    parts(alloc, &without(alloc, &spot.kind(alloc)?, Tag::Object)?)
}

// Whether what is of the kind is there.
fn is_sure(kind: &Kind) -> bool
    ensures { result ≡ is_sure kind.now }
{
    !has(kind, Tag::Absent)
}

// Whether each of these kinds is of what is there.
fn all_sure(places: &[Kind]) -> bool
    ensures { result ≡ list_all is_sure places.now }
{
    places.iter().all(|place| is_sure(place))
}

// Whether the rest is nothing.
fn is_nothing(rest: &Rest) -> bool
    ensures { result ≡ is_nothing (rest_of rest.now) }
{
    match rest {
        Rest::Nothing => true,
        Rest::Json => false,
        Rest::Any => false,
        Rest::Exact(_) => false,
    }
}

// The length of the arrays of a kind. `None`: there are none, or they have no one length.
fn length_of(kind: &Kind) -> Option<usize>
    ensures { MatchOption result ((count : ℕ) → HasLength (tags_at kind.now) count → ⊥)
        (λ count. HasLength (tags_at kind.now) count) }
{
    kind_is_canonical(kind);
    let (places, rest) = list_part(kind)?;
    if !is_nothing(rest) {
        return None;
    }
    let places = places.as_slice();
    if !all_sure(places) {
        return None;
    }
    Some(places.len())
}

impl<'a> Spot<'a> {
    // The length of its arrays. `None`: there are none, or they have no one length.
    pub(crate) fn length(self) -> Option<usize>
        ensures { MatchOption result ((count : ℕ) → HasLength (spot_sets self.entry) count → ⊥)
            (λ count. HasLength (spot_sets self.entry) count) }
    {
        match self.bare {
            Bare::Nothing | Bare::Json | Bare::Any => None,
            Bare::Exact(kind) => length_of(kind),
        }
    }

    // The place that one from the end is in each of its values. `None`: there is no such one.
    pub(crate) fn sure_place(self, at: i64) -> Option<usize>
        ensures { MatchOption result ((j : ℕ) → IsSurePlace (spot_sets self.entry) at j → ⊥)
            (λ j. IsSurePlace (spot_sets self.entry) at j) }
    {
        if !self.is_alone(Tag::List) {
            return None;
        }
        match self.length() {
            None => None,
            Some(count) => index(count, at),
        }
    }
}

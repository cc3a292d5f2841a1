ghost use Rattle.std.specs.Prelude.{◌≡◌, ◌<◌, ◌≤◌, ◌+◌, IfOk, length};
ghost use Rattle.vrl_kind.specs.Kinds.{tags_at};
ghost use Rattle.vrl_kind.specs.Sets.{SameSets};
ghost use Rattle.vrl_place.specs.Inner.{ArePlaces, PlacesAreOf, changed_place, lower_place};
ghost use Rattle.vrl_place.specs.Inner.{moved_place, null_if, places_sets, spot_sets};
ghost use Rattle.vrl_place.specs.Sets.{or_absent_if};

use crate::spot::{Bare, Spot};
use std::alloc::Global;
use vrl_kind::{Kind, list_part};
use vrl_value::Memory;

/// What a kind knows of the places of an array, borrowed.
#[derive(Clone, Copy)]
pub(crate) struct Places<'a> {
    pub(crate) known: &'a [Kind],
    pub(crate) behind: Spot<'a>,
}

// The places of the arrays of a kind.
fn places_of(kind: &Kind) -> Places<'_>
    ensures { PlacesAreOf (tags_at kind.now) result }
{
    match list_part(kind) {
        None => Places {
            known: &[],
            behind: Spot::lacking(),
        },
        Some((places, rest)) => Places {
            known: places.as_slice(),
            behind: Spot::of_rest(rest),
        },
    }
}

impl<'a> Spot<'a> {
    // The places of its arrays.
    pub(crate) fn places(self) -> Places<'a>
        ensures { PlacesAreOf (spot_sets self.entry) result }
    {
        match self.bare {
            Bare::Nothing => Places {
                known: &[],
                behind: Spot::lacking(),
            },
            Bare::Json | Bare::Any => Places {
                known: &[],
                behind: Spot {
                    bare: self.bare,
                    absent: true,
                },
            },
            Bare::Exact(kind) => places_of(kind),
        }
    }
}

impl<'a> Places<'a> {
    // What stands at a place.
    pub(crate) fn place(self, at: usize) -> Spot<'a>
        ensures { SameSets (spot_sets result) (places_sets self.entry at) }
    {
        match self.known.get(at) {
            Some(kind) => Spot::of(kind),
            None => self.behind,
        }
    }

    // The kinds of the places with this one at the place `at`, up to that one and the last known
    // one. If it is wanted, what stands at the others may be absent; and the lower ones have null
    // for absent. `Memory`: want of memory.
    pub(crate) fn with(
        self,
        alloc: Global,
        at: usize,
        kind: Kind,
        absent: bool,
        filled: bool,
    ) -> Result<Vec<Kind>, Memory>
        ensures places { IfOk result (λ kinds. ArePlaces kinds.items
            (changed_place self.entry at (tags_at kind) absent filled)) }
        ensures known { IfOk result (λ kinds. length self.entry.known.now ≤ length kinds.items) }
        ensures at { IfOk result (λ kinds. at < length kinds.items) }
    {
        let mut kinds = self.before(alloc, at, absent, filled)?;
        kinds.push(kind)?;
        for place in kinds.len()..self.known.len() {
            kinds.push(self.place(place).or_absent_if(absent).kind(alloc)?)?;
        }
        Ok(kinds)
    }

    // The kinds of the places before this one. `Memory`: want of memory.
    fn before(
        self,
        alloc: Global,
        at: usize,
        absent: bool,
        filled: bool,
    ) -> Result<Vec<Kind>, Memory>
        ensures places { IfOk result
            (λ kinds. ArePlaces kinds.items (lower_place self.entry absent filled)) }
        ensures at { IfOk result (λ kinds. length kinds.items ≡ at) }
    {
        let mut kinds = Vec::with_capacity(alloc, at)?;
        for place in 0..at {
            let kind = self.place(place).or_absent_if(absent).kind(alloc)?;
            kinds.push(filled_if(kind, filled))?;
        }
        Ok(kinds)
    }

    // The kinds of the known places once what stands at the place `at` is removed, from which on
    // each has what the next one had, and may be absent if `absent`. `Memory`: want of memory.
    pub(crate) fn moved(self, alloc: Global, at: usize, absent: bool) -> Result<Vec<Kind>, Memory>
        ensures places { IfOk result
            (λ kinds. ArePlaces kinds.items (moved_place self.entry at absent)) }
        ensures known { IfOk result (λ kinds. length kinds.items ≡ length self.entry.known.now) }
    {
        let mut kinds = Vec::with_capacity(alloc, self.known.len())?;
        for place in 0..self.known.len() {
            kinds.push(self.moved_to(place, at, absent).kind(alloc)?)?;
        }
        Ok(kinds)
    }

    // What stands at a place once what stands at the place `at` is removed.
    fn moved_to(self, place: usize, at: usize, absent: bool) -> Spot<'a>
        requires { place < length self.known.now }
        ensures { SameSets (spot_sets result) (moved_place self.entry at absent place) }
    {
        if place < at {
            self.place(place)
        } else {
            self.place(place + 1).or_absent_if(absent)
        }
    }
}

// The kind with null for absent, if it is wanted.
fn filled_if(kind: Kind, filled: bool) -> Kind
    ensures { SameSets (tags_at result) (null_if filled (tags_at kind)) }
{
    if filled { kind.null_for_absent() } else { kind }
}

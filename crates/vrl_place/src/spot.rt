ghost use Rattle.std.specs.Prelude.{◌≡◌, ◌||◌, ◌&&◌, not, IfOk, [], true, false};
ghost use Rattle.vrl_kind.specs.Kinds.{never_at, rest_at, tags_at};
ghost use Rattle.vrl_kind.specs.Make.{named_view};
ghost use Rattle.vrl_kind.specs.Sets.{SameSets};
ghost use Rattle.vrl_kind.specs.Tags.{same_tag};
ghost use Rattle.vrl_kind.specs.View.{places_view, rest_of};
ghost use Rattle.vrl_place.specs.Inner.{bare_sets, spot_sets, sets_with_list, sets_with_object};
ghost use Rattle.vrl_place.specs.Sets.{has_other, is_alone, or_absent_if};

use std::alloc::Global;
use vrl_kind::{Kind, Rest, TAGS, has};
use vrl_value::{Chars, Memory, Tag};

/// What stands somewhere in a kind, but for absent.
#[derive(Clone, Copy)]
pub(crate) enum Bare<'a> {
    Nothing,
    Json,
    Any,
    Exact(&'a Kind),
}

/// What stands somewhere in a kind, borrowed: so no walk down a kind makes one.
#[derive(Clone, Copy)]
pub(crate) struct Spot<'a> {
    pub(crate) bare: Bare<'a>,
    pub(crate) absent: bool,
}

impl<'a> Bare<'a> {
    fn has(self, tag: Tag) -> bool
        ensures { result ≡ bare_sets self.entry [] tag }
    {
        match self {
            Bare::Nothing => false,
            Bare::Json => !matches!(tag, Tag::Time | Tag::Pattern | Tag::Absent),
            Bare::Any => tag != Tag::Absent,
            Bare::Exact(kind) => has(kind, tag),
        }
    }

    fn kind(self, alloc: Global) -> Result<Kind, Memory>
        ensures { IfOk result (λ kind. SameSets (tags_at kind) (bare_sets self.entry)) }
    {
        match self {
            Bare::Nothing => Ok(Kind::never()),
            Bare::Json => Ok(Kind::json(alloc)),
            Bare::Any => Ok(Kind::any(alloc)),
            Bare::Exact(kind) => kind.copy(alloc),
        }
    }

    fn rest(self, alloc: Global) -> Result<Rest, Memory>
        ensures { IfOk result
            (λ rest. SameSets (rest_at (rest_of rest)) (or_absent_if true (bare_sets self.entry))) }
    {
        match self {
            Bare::Nothing => Ok(Rest::Nothing),
            Bare::Json => Ok(Rest::Json),
            Bare::Any => Ok(Rest::Any),
            Bare::Exact(kind) => exact(alloc, kind.copy(alloc)?),
        }
    }

    fn with_list(self, alloc: Global, places: Vec<Kind>, rest: Rest) -> Result<Kind, Memory>
        ensures { IfOk result (λ kind. SameSets (tags_at kind)
            (sets_with_list (bare_sets self.entry) (places_view places.items) (rest_of rest))) }
    {
        match self {
            Bare::Nothing => Kind::list(alloc, places, rest),
            Bare::Json => Kind::json(alloc).with_list(alloc, places, rest),
            Bare::Any => Kind::any(alloc).with_list(alloc, places, rest),
            Bare::Exact(kind) => kind.with_list(alloc, places, rest),
        }
    }

    fn with_object(
        self,
        alloc: Global,
        fields: Vec<(Chars, Kind)>,
        rest: Rest,
    ) -> Result<Kind, Memory>
        ensures { IfOk result (λ kind. SameSets (tags_at kind)
            (sets_with_object (bare_sets self.entry) (named_view fields.items) (rest_of rest))) }
    {
        match self {
            Bare::Nothing => Kind::object(alloc, fields, rest),
            Bare::Json => Kind::json(alloc).with_object(alloc, fields, rest),
            Bare::Any => Kind::any(alloc).with_object(alloc, fields, rest),
            Bare::Exact(kind) => kind.with_object(alloc, fields, rest),
        }
    }
}

impl<'a> Spot<'a> {
    // No tag at all.
    pub(crate) fn lacking() -> Spot<'a>
        ensures tags { SameSets (spot_sets result) never_at }
        ensures present { result.absent ≡ false }
    {
        Spot {
            bare: Bare::Nothing,
            absent: false,
        }
    }

    // The root of a kind, or a part that is known by itself.
    pub(crate) fn of(kind: &'a Kind) -> Spot<'a>
        ensures { SameSets (spot_sets result) (tags_at kind.now) }
    {
        Spot {
            bare: Bare::Exact(kind),
            absent: false,
        }
    }

    // What stands where nothing is known by itself.
    pub(crate) fn of_rest(rest: &'a Rest) -> Spot<'a>
        ensures tags { SameSets (spot_sets result) (rest_at (rest_of rest.now)) }
        ensures absent { result.absent ≡ true }
    {
        let bare = match rest {
            Rest::Nothing => Bare::Nothing,
            Rest::Json => Bare::Json,
            Rest::Any => Bare::Any,
            Rest::Exact(kind) => Bare::Exact(kind),
        };
        Spot { bare, absent: true }
    }

    // The same, which may be absent too, if that is wanted.
    pub(crate) fn or_absent_if(self, absent: bool) -> Spot<'a>
        ensures { SameSets (spot_sets result) (or_absent_if absent (spot_sets self.entry)) }
    {
        Spot {
            bare: self.bare,
            absent: either(self.absent, absent),
        }
    }

    // Whether it allows the tag.
    pub(crate) fn has(self, tag: Tag) -> bool
        ensures { result ≡ spot_sets self.entry [] tag }
    {
        either(self.bare.has(tag), both(self.absent, tag == Tag::Absent))
    }

    // Whether it allows another tag than this.
    #[tactic(auto, unfolding(crate::specs::Sets::has_other))]
    pub(crate) fn has_other(self, tag: Tag) -> bool
        ensures { result ≡ has_other (spot_sets self.entry []) tag }
    {
        TAGS.iter()
            .any(|other| is_other(self.has(*other), *other, tag))
    }

    // Whether it allows this tag alone.
    pub(crate) fn is_alone(self, tag: Tag) -> bool
        ensures { result ≡ is_alone (spot_sets self.entry []) tag }
    {
        both(self.has(tag), !self.has_other(tag))
    }

    // The kind of what stands there. `Memory`: want of memory.
    pub(crate) fn kind(self, alloc: Global) -> Result<Kind, Memory>
        ensures { IfOk result (λ kind. SameSets (tags_at kind) (spot_sets self.entry)) }
    {
        Ok(or_absent_if(self.bare.kind(alloc)?, self.absent))
    }

    // The rest of which this stands at each place or field, which may be absent there. `Memory`:
    // want of memory.
    pub(crate) fn rest(self, alloc: Global) -> Result<Rest, Memory>
        ensures { IfOk result
            (λ rest. SameSets (rest_at (rest_of rest)) (or_absent_if true (spot_sets self.entry))) }
    {
        self.bare.rest(alloc)
    }

    // The kind with these arrays in place of its own. `Memory`: want of memory.
    pub(crate) fn with_list(
        self,
        alloc: Global,
        places: Vec<Kind>,
        rest: Rest,
    ) -> Result<Kind, Memory>
        ensures { IfOk result (λ kind. SameSets (tags_at kind)
            (sets_with_list (spot_sets self.entry) (places_view places.items) (rest_of rest))) }
    {
        Ok(or_absent_if(self.bare.with_list(alloc, places, rest)?, self.absent))
    }

    // The kind with these objects in place of its own. `Memory`: want of memory.
    pub(crate) fn with_object(
        self,
        alloc: Global,
        fields: Vec<(Chars, Kind)>,
        rest: Rest,
    ) -> Result<Kind, Memory>
        ensures { IfOk result (λ kind. SameSets (tags_at kind)
            (sets_with_object (spot_sets self.entry) (named_view fields.items) (rest_of rest))) }
    {
        Ok(or_absent_if(self.bare.with_object(alloc, fields, rest)?, self.absent))
    }
}

// The rest of which this kind stands at each place or field, which may be absent there. `Memory`:
// want of memory.
pub(crate) fn exact(alloc: Global, kind: Kind) -> Result<Rest, Memory>
    ensures { IfOk result
        (λ rest. SameSets (rest_at (rest_of rest)) (or_absent_if true (tags_at kind))) }
{
    Ok(Rest::Exact(Box::new(alloc, kind)?))
}

// The kind, which may be absent too, if that is wanted.
fn or_absent_if(kind: Kind, absent: bool) -> Kind
    ensures { SameSets (tags_at result) (or_absent_if absent (tags_at kind)) }
{
    if absent { kind.or_absent() } else { kind }
}

fn either(a: bool, b: bool) -> bool
    ensures { result ≡ (a || b) }
{
    a || b
}

fn both(a: bool, b: bool) -> bool
    ensures { result ≡ (a && b) }
{
    a && b
}

// Whether a tag that is allowed or not is allowed, and another one than this.
fn is_other(allowed: bool, tag: Tag, this: Tag) -> bool
    ensures { result ≡ (allowed && not (same_tag tag this)) }
{
    allowed && tag != this
}

ghost use Rattle.std.specs.Prelude.{◌≡◌, ◌||◌, not, [], Some};
ghost use Rattle.std.specs.List.{list_any};
ghost use Rattle.vrl_value.specs.declared.value.Tag.TheVariants.{Absent};
ghost use Rattle.vrl_kind.specs.Kinds.{any_at, json_at, rest_at, tags_at};
ghost use Rattle.vrl_kind.specs.PartSets.{known_places_at};
ghost use Rattle.vrl_kind.specs.Tags.{same_tag};
ghost use Rattle.vrl_kind.specs.View.{places_view, rest_of};
ghost use Rattle.vrl_builtin.specs.PartKinds.{array_parts_at, part_allows_other};
ghost use Rattle.vrl_builtin.specs.Rows.{kind_at};
ghost use Rattle.vrl_builtin.specs.TagSets.{allows};
ghost use Rattle.vrl_builtin.specs.View.{givens_of};

use crate::given::Givens;
use crate::tags::Tags;
use vrl_kind::{Kind, Rest, TAGS, has, list_part};
use vrl_value::Tag;

// Whether the tag tells that nothing is there.
fn is_absent(tag: Tag) -> bool
    ensures { result ≡ same_tag Absent tag }
{
    tag == Tag::Absent
}

// Whether it is a tag of JSON.
fn is_json(tag: Tag) -> bool
    ensures { result ≡ json_at [] tag }
{
    match tag {
        Tag::Text => true,
        Tag::Int => true,
        Tag::Bool => true,
        Tag::Null => true,
        Tag::Time => false,
        Tag::Pattern => false,
        Tag::List => true,
        Tag::Object => true,
        Tag::Absent => false,
    }
}

// Whether it is a tag of some value.
fn is_present(tag: Tag) -> bool
    ensures { result ≡ any_at [] tag }
{
    tag != Tag::Absent
}

// Whether what stands behind the known places may have the tag.
fn rest_allows(rest: &Rest, tag: Tag) -> bool
    ensures { result ≡ rest_at (rest_of rest.now) [] tag }
{
    match rest {
        Rest::Nothing => is_absent(tag),
        Rest::Json => is_json(tag) || is_absent(tag),
        Rest::Any => is_present(tag) || is_absent(tag),
        Rest::Exact(kind) => has(kind, tag) || is_absent(tag),
    }
}

// Whether some known place may have the tag.
fn known_allow(places: &[Kind], tag: Tag) -> bool
    ensures { result ≡ list_any (λ place. tags_at place [] tag) places.now }
{
    places.iter().any(|place| has(place, tag))
}

// Whether some place may have the tag.
fn places_allow(places: &[Kind], rest: &Rest, tag: Tag) -> bool
    ensures { result ≡ (known_places_at (places_view places.now) [] tag || rest_at (rest_of rest.now) [] tag) }
{
    if known_allow(places, tag) {
        return true;
    }
    rest_allows(rest, tag)
}

// Whether some part of the kind's arrays may have the tag.
fn part_allows(kind: &Kind, tag: Tag) -> bool
    ensures { result ≡ array_parts_at (Some kind.now) [] tag }
{
    if is_absent(tag) {
        return false;
    }
    match list_part(kind) {
        None => false,
        Some((places, rest)) => places_allow(places.as_slice(), rest, tag),
    }
}

// Whether the tag isn't in the set.
fn is_outside(tag: Tag, tags: &Tags) -> bool
    ensures { result ≡ not (allows tags.now tag) }
{
    !tags.contains(tag)
}

// Whether some part of the kind's arrays may have a tag outside the set. It takes no memory.
#[tactic(auto, unfolding(crate::specs::PartKinds::part_allows_other))]
fn some_other(kind: &Kind, tags: &Tags) -> bool
    ensures { result ≡ part_allows_other tags.now (Some kind.now) }
{
    TAGS.iter()
        .any(|tag| part_allows(kind, *tag) && is_outside(*tag, tags))
}

impl Givens {
    /// Whether a part of the arrays that are given at a place may have a tag outside the set. It
    /// takes no memory.
    #[tactic(auto, unfolding(crate::specs::PartKinds::part_allows_other))]
    pub fn part_allows_other(&self, place: usize, tags: &Tags) -> bool
        ensures { result ≡ part_allows_other tags.now (kind_at place (givens_of self.now)) }
    {
        match self.kind(place) {
            Some(kind) => some_other(kind, tags),
            None => false,
        }
    }
}

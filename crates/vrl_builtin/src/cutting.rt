ghost use Rattle.std.specs.Prelude.{◌≡◌, [], ◌∷◌, IfOk, Some, not};
ghost use Rattle.vrl_kind.specs.Kinds.{tags_at};
ghost use Rattle.vrl_kind.specs.Sets.{SameSets};
ghost use Rattle.vrl_kind.specs.Tags.{same_tag};
ghost use Rattle.vrl_builtin.specs.CutDown.{allows_other, cut_to, given_cut_to, IsCutBy};
ghost use Rattle.vrl_builtin.specs.Rows.{kind_at};
ghost use Rattle.vrl_builtin.specs.View.{givens_of};

use crate::given::Givens;
use crate::tags::Tags;
use std::alloc::Global;
use vrl_kind::{Kind, TAGS, has, without};
use vrl_value::{Memory, Tag};

// Whether they are two tags.
fn is_other(tag: Tag, other: Tag) -> bool
    ensures { result ≡ not (same_tag tag other) }
{
    tag != other
}

// Whether the kind allows another tag.
#[tactic(auto, unfolding(crate::specs::CutDown::allows_other))]
fn kind_allows_other(kind: &Kind, tag: Tag) -> bool
    ensures { result ≡ allows_other tag (Some kind.now) }
{
    TAGS.iter()
        .any(|other| has(kind, *other) && is_other(*other, tag))
}

// The kind without a tag at its root, unless the tag is in the set. `Memory`: want of memory.
fn cut_at(alloc: Global, kind: Kind, tags: &Tags, tag: Tag) -> Result<Kind, Memory>
    ensures { IfOk result (λ lower. IsCutBy tags.now (tag ∷ []) kind lower) }
{
    if tags.contains(tag) {
        Ok(kind)
    } else {
        without(alloc, &kind, tag)
    }
}

/// The kind without the tags at its root that aren't in the set. `Memory`: want of memory.
pub fn cut_down(alloc: Global, kind: &Kind, tags: &Tags) -> Result<Kind, Memory>
    ensures { IfOk result (λ lower. SameSets (tags_at lower) (cut_to tags.now kind.now)) }
{
    let mut lower = kind.copy(alloc)?;
    for tag in &TAGS {
        lower = cut_at(alloc, lower, tags, *tag)?;
    }
    Ok(lower)
}

impl Givens {
    /// The kind of the argument at a place, without the tags at its root that aren't in the set; no
    /// value's where none is given. `Memory`: want of memory.
    pub fn cut_down(&self, alloc: Global, place: usize, tags: &Tags) -> Result<Kind, Memory>
        ensures { IfOk result
            (λ lower. SameSets (tags_at lower) (given_cut_to tags.now (kind_at place (givens_of self.now)))) }
    {
        match self.kind(place) {
            Some(kind) => cut_down(alloc, kind, tags),
            None => Ok(Kind::never()),
        }
    }

    /// Whether an argument is given at a place whose kind allows another tag.
    #[tactic(auto, unfolding(crate::specs::CutDown::allows_other))]
    pub fn allows_other(&self, place: usize, tag: Tag) -> bool
        ensures { result ≡ allows_other tag (kind_at place (givens_of self.now)) }
    {
        match self.kind(place) {
            Some(kind) => kind_allows_other(kind, tag),
            None => false,
        }
    }
}

ghost use Rattle.std.specs.Prelude.{IfOk};
ghost use Rattle.vrl_kind.specs.Kinds.{tags_at};
ghost use Rattle.vrl_kind.specs.Sets.{SameSets};
ghost use Rattle.vrl_builtin.specs.AnyParts.{any_of, containers_in};
ghost use Rattle.vrl_builtin.specs.Rows.{kind_at};
ghost use Rattle.vrl_builtin.specs.View.{givens_of};

use crate::cutting::cut_down;
use crate::given::Givens;
use crate::tags::Tags;
use std::alloc::Global;
use vrl_kind::Kind;
use vrl_value::{Memory, Tag};

/// The kind of every value with one of the tags. `Memory`: want of memory.
pub fn any_of(alloc: Global, tags: &Tags) -> Result<Kind, Memory>
    ensures { IfOk result (λ kind. SameSets (tags_at kind) (any_of tags.now)) }
{
    let any = Kind::any(alloc);
    cut_down(alloc, &any, tags)
}

impl Givens {
    /// The kind of every array, where the kind that is given at a place allows arrays, and of every
    /// object, where it allows objects. `Memory`: want of memory.
    pub fn any_containers(&self, alloc: Global, place: usize) -> Result<Kind, Memory>
        ensures { IfOk result
            (λ kind. SameSets (tags_at kind) (any_of (containers_in (kind_at place (givens_of self.now))))) }
    {
        let tags = Tags {
            array: self.allows(place, Tag::List),
            object: self.allows(place, Tag::Object),
            ..Tags::NONE
        };
        any_of(alloc, &tags)
    }
}

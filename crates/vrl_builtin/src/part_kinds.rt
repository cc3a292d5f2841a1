ghost use Rattle.std.specs.Prelude.{IfOk, Some};
ghost use Rattle.vrl_kind.specs.Kinds.{tags_at};
ghost use Rattle.vrl_kind.specs.Sets.{SameSets};
ghost use Rattle.vrl_builtin.specs.PartKinds.{array_parts_at, object_parts_at};
ghost use Rattle.vrl_builtin.specs.Rows.{kind_at};
ghost use Rattle.vrl_builtin.specs.View.{givens_of};

use crate::cutting::cut_down;
use crate::given::Givens;
use crate::tags::Tags;
use std::alloc::Global;
use vrl_kind::{Kind, parts};
use vrl_value::Memory;

/// The kind of the parts of a kind's arrays. `Memory`: want of memory.
pub fn array_parts(alloc: Global, kind: &Kind) -> Result<Kind, Memory>
    ensures { IfOk result (λ all. SameSets (tags_at all) (array_parts_at (Some kind.now))) }
{
    let arrays = cut_down(alloc, kind, &Tags::ARRAY)?;
    parts(alloc, &arrays)
}

impl Givens {
    /// The kind of the parts of the arrays that are given at a place; no value's where none are.
    /// `Memory`: want of memory.
    pub fn array_parts(&self, alloc: Global, place: usize) -> Result<Kind, Memory>
        ensures { IfOk result (λ all. SameSets (tags_at all) (array_parts_at (kind_at place (givens_of self.now)))) }
    {
        match self.kind(place) {
            Some(kind) => array_parts(alloc, kind),
            None => Ok(Kind::never()),
        }
    }

    /// The kind of the parts of the objects that are given at a place; no value's where none are.
    /// `Memory`: want of memory.
    pub fn object_parts(&self, alloc: Global, place: usize) -> Result<Kind, Memory>
        ensures { IfOk result (λ all. SameSets (tags_at all) (object_parts_at (kind_at place (givens_of self.now)))) }
    {
        let objects = self.cut_down(alloc, place, &Tags::OBJECT)?;
        parts(alloc, &objects)
    }
}

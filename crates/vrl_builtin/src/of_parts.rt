ghost use Rattle.std.specs.Prelude.{◌≡◌, IfOk};
ghost use Rattle.vrl_kind.specs.KindTree.{exact};
ghost use Rattle.vrl_kind.specs.Kinds.{only_at, tags_at};
ghost use Rattle.vrl_kind.specs.Sets.{SameSets};
ghost use Rattle.vrl_kind.specs.View.{rest_of};
ghost use Rattle.vrl_builtin.specs.Containers.{array_of, either, object_of};

use std::alloc::Global;
use vrl_kind::{Kind, Rest, join};
use vrl_value::{Memory, Tag};

// Each part is of the kind.
fn exactly(alloc: Global, kind: Kind) -> Result<Rest, Memory>
    ensures { IfOk result (λ rest. rest_of rest ≡ exact kind) }
{
    Ok(Rest::Exact(Box::new(alloc, kind)?))
}

/// The kind of the arrays whose parts are of this kind. `Memory`: want of memory.
pub fn array_of(alloc: Global, kind: Kind) -> Result<Kind, Memory>
    ensures { IfOk result (λ all. SameSets (tags_at all) (array_of (tags_at kind))) }
{
    let rest = exactly(alloc, kind)?;
    Kind::list(alloc, Vec::new(alloc), rest)
}

/// The kind of the objects whose parts are of this kind. `Memory`: want of memory.
pub fn object_of(alloc: Global, kind: Kind) -> Result<Kind, Memory>
    ensures { IfOk result (λ all. SameSets (tags_at all) (object_of (tags_at kind))) }
{
    let rest = exactly(alloc, kind)?;
    Kind::object(alloc, Vec::new(alloc), rest)
}

/// The kind of the arrays whose parts have the tag. `Memory`: want of memory.
pub fn array_of_tag(alloc: Global, tag: Tag) -> Result<Kind, Memory>
    ensures { IfOk result (λ all. SameSets (tags_at all) (array_of (only_at tag))) }
{
    let part = Kind::of(alloc, tag);
    array_of(alloc, part)
}

/// The kind of the objects whose parts have the tag. `Memory`: want of memory.
pub fn object_of_tag(alloc: Global, tag: Tag) -> Result<Kind, Memory>
    ensures { IfOk result (λ all. SameSets (tags_at all) (object_of (only_at tag))) }
{
    let part = Kind::of(alloc, tag);
    object_of(alloc, part)
}

/// The kind of what has one of two tags. `Memory`: want of memory.
pub fn either_tag(alloc: Global, first: Tag, second: Tag) -> Result<Kind, Memory>
    ensures { IfOk result (λ both. SameSets (tags_at both) (either (only_at first) (only_at second))) }
{
    let one = Kind::of(alloc, first);
    let other = Kind::of(alloc, second);
    join(alloc, &one, &other)
}

ghost use Rattle.std.specs.Prelude.{◌≡◌, IfOk, [], false, unwrap_or};
ghost use Rattle.vrl_kind.specs.Kinds.{Inhabits, tags_at};
ghost use Rattle.vrl_path.specs.Read.{read_at};
ghost use Rattle.vrl_place.specs.Inner.{spot_sets};
ghost use Rattle.vrl_place.specs.Read.{HasJust, allowed, read, read_part, read_some_place};
ghost use Rattle.vrl_place.specs.Read.{read_step};
ghost use Rattle.vrl_value.specs.Look.{field, place};
ghost use Rattle.vrl_value.specs.Tree.{Tree, null};
ghost use Rattle.vrl_value.specs.declared.value.Tag.TheVariants as tag;

use crate::from_end::{from_start, some_place};
use crate::spot::Spot;
use std::alloc::Global;
use vrl_kind::Kind;
use vrl_path::{Path, Step};
use vrl_value::{Chars, Memory, Tag};

/// The kind of what a read at the path finds in a value of `kind`, where it finds null if nothing
/// stands there. A negative place, which counts from the end of its array, may be each place, or
/// none. `Memory`: want of memory.
///
/// It copies what each step leads to, and for each negative place all that the kind knows of the
/// array. It goes on step by step, so a path may have any number of them.
pub fn read_kind(alloc: Global, kind: &Kind, path: &Path) -> Result<Kind, Memory>
    ensures tags { IfOk result
        (λ found. HasJust (tags_at found) (read (allowed (tags_at kind.now)) path.now)) }
    ensures inhabited { IfOk result (λ found. (value : Tree) → Inhabits value kind.now
        → Inhabits (unwrap_or (read_at value path.now) null) found) }
    ensures present { IfOk result (λ found. tags_at kind.now [] tag.Absent ≡ false
        → tags_at found [] tag.Absent ≡ false) }
{
    match path.as_slice().split_first() {
        None => kind.copy(alloc),
        Some((step, behind)) => read_behind(alloc, Spot::of(kind), step, behind),
    }
}

// The kind of what a read finds behind a step and at the end of the steps behind it.
fn read_behind(alloc: Global, spot: Spot<'_>, step: &Step, behind: &[Step]) -> Result<Kind, Memory>
    ensures { IfOk result (λ kind. HasJust (tags_at kind)
        (read (read_step (allowed (spot_sets spot.entry)) step.now) behind.now)) }
{
    read_on(alloc, read_one(alloc, spot, step)?, behind)
}

// The kind of what a read finds at the end of the steps in what is of a kind. It is a loop, and not
// a call for each step: a path that is only read has no limit of steps, and the stack has.
fn read_on(alloc: Global, kind: Kind, steps: &[Step]) -> Result<Kind, Memory>
    ensures { IfOk result
        (λ found. HasJust (tags_at found) (read (allowed (tags_at kind)) steps.now)) }
{
    let mut found = kind;
    for step in steps {
        found = read_one(alloc, Spot::of(&found), step)?;
    }
    Ok(found)
}

// The kind of what a read finds behind one step.
fn read_one(alloc: Global, spot: Spot<'_>, step: &Step) -> Result<Kind, Memory>
    ensures { IfOk result
        (λ kind. HasJust (tags_at kind) (read_step (allowed (spot_sets spot.entry)) step.now)) }
{
    match step {
        Step::Field(name) => read_field(alloc, spot, name),
        Step::Place(at) => match from_start(*at) {
            Some(at) => read_place(alloc, spot, at),
            None => read_some_place(alloc, spot),
        },
    }
}

fn read_field(alloc: Global, spot: Spot<'_>, name: &Chars) -> Result<Kind, Memory>
    ensures { IfOk result
        (λ kind. HasJust (tags_at kind)
        (read_part (allowed (spot_sets spot.entry)) (field name.now))) }
{
    let part = spot.fields().field(name);
    let open = part.or_absent_if(spot.has_other(Tag::Object));
    Ok(open.kind(alloc)?.null_for_absent())
}

fn read_place(alloc: Global, spot: Spot<'_>, at: usize) -> Result<Kind, Memory>
    ensures { IfOk result
        (λ kind. HasJust (tags_at kind) (read_part (allowed (spot_sets spot.entry)) (place at))) }
{
    let part = spot.places().place(at);
    let open = part.or_absent_if(spot.has_other(Tag::List));
    Ok(open.kind(alloc)?.null_for_absent())
}

fn read_some_place(alloc: Global, spot: Spot<'_>) -> Result<Kind, Memory>
    ensures { IfOk result
        (λ kind. HasJust (tags_at kind) (read_some_place (allowed (spot_sets spot.entry)))) }
{
    let part = some_place(alloc, spot)?;
    let open = Spot::of(&part).or_absent_if(true);
    Ok(open.kind(alloc)?.null_for_absent())
}

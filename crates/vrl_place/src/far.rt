ghost use Rattle.std.specs.Prelude.{◌≡◌, IfOk, OnErr, OnOk, pos};
ghost use Rattle.std.specs.List.{list_any};
ghost use Rattle.vrl_path.specs.Steps.{IsWritable};
ghost use Rattle.vrl_path.specs.declared.path.Step.TheVariants.{Place};
ghost use Rattle.vrl_place.specs.Far.{is_far, near_step, near_steps, AreLevels, AreStretchesOf};
ghost use Rattle.vrl_place.specs.Far.{IsLevel, IsRemovedCut, IsStretchOf, IsWrittenCut};

use crate::from_end::from_start;
use crate::remove::{remove_in, remove_kind};
use crate::write::{write_in, write_kind};
use std::alloc::Global;
use vrl_kind::{Kind, Stretch, kind_is_canonical, longest_list, stretched_cut};
use vrl_path::{Path, Step};
use vrl_value::Memory;

// A place that is at most so many places behind the known ones is written as it is.
const NEAR: usize = 16;

/// Writes a kind at a path of another, which is then cut: the kind is that of `write_kind`, and
/// then that of `cut`. A place far behind those that the kind knows is written near them, and how
/// many places there are between is told of the kind then, so this takes no more time and memory
/// than the kind's parts before and after it. `Memory`: want of memory; the kind stays as it was.
pub fn write_cut(alloc: Global, kind: &mut Kind, path: &Path, new: Kind) -> Result<(), Memory>
    requires { IsWritable path.now }
    ensures ok { OnOk result (IsWrittenCut kind.old path.now new kind.new) }
    ensures err { OnErr result (kind.new ≡ kind.old) }
{
    if has_far_place(path.as_slice()) {
        return write_far(alloc, kind, path.as_slice(), new);
    }
    write_kind(alloc, kind, path, new)?;
    kind_is_canonical(kind);
    kind.cut(alloc);
    Ok(())
}

/// Removes what stands at a path of a kind, which is then cut: the kind is that of `remove_kind`,
/// and then that of `cut`. Far places take as little time and memory as in `write_cut`. `Memory`:
/// want of memory; the kind stays as it was.
pub fn remove_cut(alloc: Global, kind: &mut Kind, path: &Path) -> Result<(), Memory>
    ensures ok { OnOk result (IsRemovedCut kind.old path.now kind.new) }
    ensures err { OnErr result (kind.new ≡ kind.old) }
{
    if has_far_place(path.as_slice()) {
        return remove_far(alloc, kind, path.as_slice());
    }
    remove_kind(alloc, kind, path)?;
    kind_is_canonical(kind);
    kind.cut(alloc);
    Ok(())
}

// Whether a step leads to a place that may be far behind the known ones.
fn has_far_place(steps: &[Step]) -> bool
    ensures { result ≡ list_any is_far steps.now }
{
    steps.iter().any(|step| is_far(step))
}

fn is_far(step: &Step) -> bool
    ensures { result ≡ is_far step.now }
{
    match step {
        Step::Field(_name) => false,
        Step::Place(at) => match from_start(*at) {
            None => false,
            Some(at) => at > NEAR,
        },
    }
}

// `write_cut` at a path with a place that may be far. The kind that it makes first has the far
// places near.
fn write_far(alloc: Global, kind: &mut Kind, steps: &[Step], new: Kind) -> Result<(), Memory>
    ensures ok { OnOk result (IsWrittenCut kind.old steps.now new kind.new) }
    ensures err { OnErr result (kind.new ≡ kind.old) }
{
    let stretches = stretches_of(alloc, kind, steps)?;
    let near = near_steps(alloc, steps, &stretches)?;
    let mut near_kind = kind.copy(alloc)?;
    write_in(alloc, &mut near_kind, &near, new)?;
    kind_is_canonical(&near_kind);
    let written = stretched_cut(alloc, &near_kind, &stretches)?;
    *kind = written;
    Ok(())
}

// `remove_cut` at a path with a place that may be far, in the same way.
fn remove_far(alloc: Global, kind: &mut Kind, steps: &[Step]) -> Result<(), Memory>
    ensures ok { OnOk result (IsRemovedCut kind.old steps.now kind.new) }
    ensures err { OnErr result (kind.new ≡ kind.old) }
{
    let stretches = stretches_of(alloc, kind, steps)?;
    let near = near_steps(alloc, steps, &stretches)?;
    let mut near_kind = kind.copy(alloc)?;
    remove_in(alloc, &mut near_kind, &near)?;
    kind_is_canonical(&near_kind);
    let left = stretched_cut(alloc, &near_kind, &stretches)?;
    *kind = left;
    Ok(())
}

// For each step how far the arrays on its level are stretched once it is near. `Memory`: want of
// memory.
fn stretches_of(alloc: Global, kind: &Kind, steps: &[Step]) -> Result<Vec<Stretch>, Memory>
    ensures stretches { IfOk result (λ stretches. AreStretchesOf steps.now stretches.items) }
    ensures levels { IfOk result (λ stretches. AreLevels 0 stretches.items kind.now) }
{
    let mut stretches = Vec::with_capacity(alloc, steps.len())?;
    for depth in 0..steps.len() {
        stretches.push(stretch_of(&steps[depth], kind, depth))?;
    }
    Ok(stretches)
}

// How far the arrays so many steps down in the kind are stretched once this step is near.
fn stretch_of(step: &Step, kind: &Kind, depth: usize) -> Stretch
    ensures step { IsStretchOf step.now result }
    ensures level { IsLevel depth result kind.now }
{
    match step {
        Step::Field(_name) => Stretch { place: 0, more: 0 },
        Step::Place(at) => match from_start(*at) {
            None => Stretch { place: 0, more: 0 },
            Some(at) => stretch_to(at, longest_list(kind, depth)),
        },
    }
}

// The stretch by which the second place behind so many known ones comes to be the place `at`, if
// that is far.
fn stretch_to(at: usize, known: usize) -> Stretch
    ensures place { result.place ≡ known }
    ensures step { IsStretchOf (Place (pos at)) result }
{
    if at <= known {
        return Stretch {
            place: known,
            more: 0,
        };
    }
    let behind = at - known;
    if behind <= NEAR {
        return Stretch {
            place: known,
            more: 0,
        };
    }
    Stretch {
        place: known,
        more: behind - 1,
    }
}

// The steps with each far place near. `Memory`: want of memory.
fn near_steps(alloc: Global, steps: &[Step], stretches: &[Stretch]) -> Result<Vec<Step>, Memory>
    requires { AreStretchesOf steps.now stretches.now }
    ensures { IfOk result (λ near. near.items ≡ near_steps stretches.now steps.now) }
{
    let mut near = Vec::with_capacity(alloc, steps.len())?;
    for depth in 0..steps.len() {
        near.push(near_step(alloc, &steps[depth], stretches[depth])?)?;
    }
    Ok(near)
}

// A step, or that to the place that comes to be its place. `Memory`: want of memory.
fn near_step(alloc: Global, step: &Step, stretch: Stretch) -> Result<Step, Memory>
    requires { IsStretchOf step.now stretch }
    ensures { IfOk result (λ near. near ≡ near_step stretch step.now) }
{
    match step {
        Step::Field(name) => Ok(Step::Field(name.copy(alloc)?)),
        Step::Place(at) => Ok(Step::Place(near_place(*at, stretch))),
    }
}

// A place, or that which comes to be it.
fn near_place(at: i64, stretch: Stretch) -> i64
    requires { IsStretchOf (Place at) stretch }
    ensures { Place result ≡ near_step stretch (Place at) }
{
    match from_start(at) {
        None => at,
        Some(place) => (place - stretch.more) as i64,
    }
}

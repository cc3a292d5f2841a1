ghost use Rattle.std.specs.Prelude.{◌≡◌, IfOk, IsOk, OnErr, OnOk, [], ◌∷◌, false, true};
ghost use Rattle.vrl_kind.specs.Canonical.{IsCanonical};
ghost use Rattle.vrl_kind.specs.Fields.{knows_field, IsTaken};
ghost use Rattle.vrl_kind.specs.KindTree.{KindTree};
ghost use Rattle.vrl_kind.specs.Kinds.{Inhabits, tags_at};
ghost use Rattle.vrl_path.specs.Steps.{IsWritable};
ghost use Rattle.vrl_path.specs.Write.{IsSet};
ghost use Rattle.vrl_path.specs.declared.path.Step.TheVariants.{Field, Place};
ghost use Rattle.vrl_place.specs.Inner.{spot_sets};
ghost use Rattle.vrl_place.specs.Sets.{is_alone};
ghost use Rattle.vrl_place.specs.Write.{IsContainerFor, IsPut, IsPutFromEnd, IsPutSomewhere};
ghost use Rattle.vrl_place.specs.Write.{IsWrite};
ghost use Rattle.vrl_value.specs.Look.{place};
ghost use Rattle.vrl_value.specs.Tree.{Tree};
ghost use Rattle.vrl_value.specs.declared.value.Tag.TheVariants as tag;

use crate::fields::other_fields;
use crate::from_end::{from_start, some_place};
use crate::spot::{Spot, exact};
use std::alloc::Global;
use vrl_kind::{Kind, equal_tags_are_one_kind, join, kind_is_canonical};
use vrl_path::{Path, Step, sets_go_on};
use vrl_value::{Chars, Memory, Tag};

/// Makes the kind of a value that of the value once one of `new` is set at the path: the container
/// of the first step alone, so that another tag of the kind stays nowhere on the way, and a place
/// below that of the path has null where it could be absent. A negative place counts from the end
/// of its array: where the kind is that of arrays of one length alone it is the place that it
/// counts to, and else each place may be what some place was, or null, or that with `new` written.
/// `Memory`: want of memory, but not at an empty path; the kind stays as it was.
///
/// It goes down the fields of the path in place, as long as the kind is that of an object alone and
/// knows the field by itself, and looks at none beside them. What stands beside the rest of the
/// path it copies once.
pub fn write_kind(alloc: Global, kind: &mut Kind, path: &Path, new: Kind) -> Result<(), Memory>
    requires { IsWritable path.now }
    ensures tags { OnOk result
        (IsWrite (tags_at kind.old) path.now (tags_at new) (tags_at kind.new)) }
    ensures inhabited { OnOk result ((value part set : Tree) → Inhabits value kind.old
        → Inhabits part new → IsSet value path.now part set → Inhabits set kind.new) }
    ensures container { OnOk result (IsContainerFor path.now (tags_at kind.new [])) }
    ensures present { OnOk result (tags_at new [] tag.Absent ≡ false
        → tags_at kind.new [] tag.Absent ≡ false) }
    ensures whole { path.now ≡ [] → IsOk result }
    ensures err { OnErr result (kind.new ≡ kind.old) }
{
    sets_go_on();
    write_in(alloc, kind, path.as_slice(), new)
}

// Writes a kind at the end of the steps, in place as far as that goes.
#[cycle(write_in)]
pub(crate) fn write_in(
    alloc: Global,
    kind: &mut Kind,
    steps: &[Step],
    new: Kind,
) -> Result<(), Memory>
    ensures ok { OnOk result
        (IsWrite (tags_at kind.old) steps.now (tags_at new) (tags_at kind.new)) }
    ensures whole { steps.now ≡ [] → IsOk result }
    ensures err { OnErr result (kind.new ≡ kind.old) }
{
    match steps.split_first() {
        None => {
            *kind = new;
            Ok(())
        }
        Some((Step::Field(name), behind)) => {
            if !Spot::of(kind).is_alone(Tag::Object) {
                return write_anew(alloc, kind, steps, &new);
            }
            write_in_field(alloc, kind, name, behind, new)
        }
        Some((Step::Place(_at), _behind)) => write_anew(alloc, kind, steps, &new),
    }
}

// Makes the kind anew with one written at the end of the steps.
fn write_anew(alloc: Global, kind: &mut Kind, steps: &[Step], new: &Kind) -> Result<(), Memory>
    ensures ok { OnOk result
        (IsWrite (tags_at kind.old) steps.now (tags_at new.now) (tags_at kind.new)) }
    ensures err { OnErr result (kind.new ≡ kind.old) }
{
    let written = write_at(alloc, Spot::of(kind), steps, new)?;
    *kind = written;
    Ok(())
}

// Writes a kind behind a field of objects alone.
#[cycle(write_in)]
fn write_in_field(
    alloc: Global,
    kind: &mut Kind,
    name: &Chars,
    behind: &[Step],
    new: Kind,
) -> Result<(), Memory>
    requires { is_alone (tags_at kind.old []) tag.Object ≡ true }
    ensures ok { OnOk result
        (IsWrite (tags_at kind.old) (Field name.now ∷ behind.now) (tags_at new)
        (tags_at kind.new)) }
    ensures err { OnErr result (kind.new ≡ kind.old) }
{
    if behind.is_empty() {
        kind.put_field(alloc, name, new)?;
        return Ok(());
    }
    kind_is_canonical(kind);
    match kind.take_field(name) {
        None => write_new_field(alloc, kind, name, behind, &new),
        Some(part) => write_known_field(alloc, kind, name, part, behind, new),
    }
}

// Writes a kind behind a field of objects alone that isn't known by itself.
fn write_new_field(
    alloc: Global,
    kind: &mut Kind,
    name: &Chars,
    behind: &[Step],
    new: &Kind,
) -> Result<(), Memory>
    requires alone { is_alone (tags_at kind.old []) tag.Object ≡ true }
    requires unknown { knows_field name.now kind.old ≡ false }
    ensures ok { OnOk result
        (IsWrite (tags_at kind.old) (Field name.now ∷ behind.now) (tags_at new.now)
        (tags_at kind.new)) }
    ensures err { OnErr result (kind.new ≡ kind.old) }
{
    let part = write_at(alloc, other_fields(kind), behind, new)?;
    kind.put_field(alloc, name, part)?;
    Ok(())
}

// Writes a kind behind a field of objects alone, out of which what was known of the field is taken.
#[cycle(write_in)]
fn write_known_field(
    alloc: Global,
    kind: &mut Kind,
    name: &Chars,
    part: Kind,
    behind: &[Step],
    new: Kind,
) -> Result<(), Memory>
    requires known { knows_field name.now kind.old ≡ true }
    requires object { tags_at kind.old [] tag.Object ≡ true }
    ensures ok { OnOk result ((whole : KindTree) → IsTaken name.now whole kind.old part
        → is_alone (tags_at whole []) tag.Object ≡ true
        → IsWrite (tags_at whole) (Field name.now ∷ behind.now) (tags_at new) (tags_at kind.new)) }
    ensures err { OnErr result
        ((whole : KindTree) → IsCanonical whole → IsTaken name.now whole kind.old part
        → kind.new ≡ whole) }
{
    equal_tags_are_one_kind();
    let mut part = part;
    let written = write_in(alloc, &mut part, behind, new);
    kind.put_field(alloc, name, part)?;
    kind_is_canonical(kind);
    written
}

// The kind of what stands here once a value of `new` is set at the end of the steps.
#[cycle(write)]
fn write_at(alloc: Global, spot: Spot<'_>, steps: &[Step], new: &Kind) -> Result<Kind, Memory>
    ensures { IfOk result
        (λ kind. IsWrite (spot_sets spot.entry) steps.now (tags_at new.now) (tags_at kind)) }
{
    match steps.split_first() {
        None => new.copy(alloc),
        Some((step, behind)) => write_behind(alloc, spot, step, behind, new),
    }
}

#[cycle(write)]
fn write_behind(
    alloc: Global,
    spot: Spot<'_>,
    step: &Step,
    behind: &[Step],
    new: &Kind,
) -> Result<Kind, Memory>
    ensures { IfOk result
        (λ kind. IsWrite (spot_sets spot.entry) (step.now ∷ behind.now) (tags_at new.now)
        (tags_at kind)) }
{
    match step {
        Step::Field(name) => write_field(alloc, spot, name, behind, new),
        Step::Place(at) => write_signed_place(alloc, spot, *at, behind, new),
    }
}

#[cycle(write)]
fn write_field(
    alloc: Global,
    spot: Spot<'_>,
    name: &Chars,
    behind: &[Step],
    new: &Kind,
) -> Result<Kind, Memory>
    ensures { IfOk result
        (λ kind. IsWrite (spot_sets spot.entry) (Field name.now ∷ behind.now) (tags_at new.now)
        (tags_at kind)) }
{
    let absent = !spot.is_alone(Tag::Object);
    let fields = spot.fields();
    let part = write_at(alloc, fields.field(name).or_absent_if(absent), behind, new)?;
    let known = fields.with(alloc, name, part, absent)?;
    Kind::object(alloc, known, fields.behind.rest(alloc)?)
}

#[cycle(write)]
fn write_signed_place(
    alloc: Global,
    spot: Spot<'_>,
    at: i64,
    behind: &[Step],
    new: &Kind,
) -> Result<Kind, Memory>
    ensures { IfOk result
        (λ kind. IsWrite (spot_sets spot.entry) (Place at ∷ behind.now) (tags_at new.now)
        (tags_at kind)) }
{
    match from_start(at) {
        Some(at) => write_place(alloc, spot, at, behind, new),
        None => write_from_end(alloc, spot, at, behind, new),
    }
}

#[cycle(write)]
fn write_place(
    alloc: Global,
    spot: Spot<'_>,
    at: usize,
    behind: &[Step],
    new: &Kind,
) -> Result<Kind, Memory>
    ensures { IfOk result (λ kind. IsPut (spot_sets spot.entry) (place at)
        (λ part written. IsWrite part behind.now (tags_at new.now) written) (tags_at kind)) }
{
    let absent = !spot.is_alone(Tag::List);
    let places = spot.places();
    let part = write_at(alloc, places.place(at).or_absent_if(absent), behind, new)?;
    let known = places.with(alloc, at, part, absent, true)?;
    Kind::list(alloc, known, places.behind.rest(alloc)?)
}

#[cycle(write)]
fn write_from_end(
    alloc: Global,
    spot: Spot<'_>,
    at: i64,
    behind: &[Step],
    new: &Kind,
) -> Result<Kind, Memory>
    ensures { IfOk result (λ kind. IsPutFromEnd (spot_sets spot.entry) at
        (λ part written. IsWrite part behind.now (tags_at new.now) written) (tags_at kind)) }
{
    match spot.sure_place(at) {
        Some(at) => write_place(alloc, spot, at, behind, new),
        None => write_somewhere(alloc, spot, behind, new),
    }
}

// Writes at a place that isn't known.
#[cycle(write)]
fn write_somewhere(
    alloc: Global,
    spot: Spot<'_>,
    behind: &[Step],
    new: &Kind,
) -> Result<Kind, Memory>
    ensures { IfOk result (λ kind. IsPutSomewhere (spot_sets spot.entry)
        (λ part written. IsWrite part behind.now (tags_at new.now) written) (tags_at kind)) }
{
    let places = some_place(alloc, spot)?;
    let null = Kind::of(alloc, Tag::Null);
    let old = join(alloc, &places, &null)?;
    let written = write_at(alloc, Spot::of(&old), behind, new)?;
    let each = join(alloc, &old, &written)?;
    let rest = exact(alloc, each)?;
    Kind::list(alloc, Vec::new(alloc), rest)
}

ghost use Rattle.std.specs.Prelude.{◌≡◌, ◌<◌, IfOk, IsOk, IsSome, List, MatchOption, ℕ, OnErr};
ghost use Rattle.std.specs.Prelude.{OnOk, [], ◌∷◌, None, false, length, true};
ghost use Rattle.vrl_kind.specs.Canonical.{IsCanonical};
ghost use Rattle.vrl_kind.specs.Fields.{knows_field, IsTaken};
ghost use Rattle.vrl_kind.specs.KindTree.{KindTree};
ghost use Rattle.vrl_kind.specs.Kinds.{Inhabits, tags_at};
ghost use Rattle.vrl_kind.specs.Sets.{SameSets};
ghost use Rattle.vrl_path.specs.Remove.{IsRemoved, removable_at};
ghost use Rattle.vrl_path.specs.declared.path.Step.{Step as CodeStep};
ghost use Rattle.vrl_path.specs.declared.path.Step.TheVariants.{Field, Place};
ghost use Rattle.vrl_place.specs.Inner.{spot_sets};
ghost use Rattle.vrl_place.specs.Remove.{without_part, IsLeftSomewhere, IsRemoval, IsTakenAt};
ghost use Rattle.vrl_place.specs.Remove.{IsTakenFromEnd, IsTakenSomewhere};
ghost use Rattle.vrl_value.specs.Look.{field, place};
ghost use Rattle.vrl_value.specs.Tree.{Tree};
ghost use Rattle.vrl_value.specs.declared.value.Tag.{Tag};
ghost use Rattle.vrl_value.specs.declared.value.Tag.TheVariants as tag;

use crate::fields::other_fields;
use crate::from_end::{from_start, some_place};
use crate::spot::{Spot, exact};
use std::alloc::Global;
use vrl_kind::{Kind, equal_tags_are_one_kind, has, join, kind_is_canonical};
use vrl_path::{Path, Step, index};
use vrl_value::{Chars, Memory, Tag};

/// Makes the kind of a value that of the value once what stands at the path is removed: a field is
/// absent, from a place on each has what the next one had, and all else stays. A negative place
/// counts from the end of its array: where the arrays of the kind have one length it is the place
/// that it counts to, if they have it, and else each place may be what some place was, or that
/// without what stood in it. At an empty path nothing is removed. `Memory`: want of memory, but
/// neither there nor at a field of what is never an object; the kind stays as it was.
///
/// It goes down the fields of the path in place, as long as the kind knows the field by itself, and
/// looks at none beside them. What stands beside the rest of the path it copies once.
pub fn remove_kind(alloc: Global, kind: &mut Kind, path: &Path) -> Result<(), Memory>
    ensures tags { OnOk result (IsRemoval (tags_at kind.old) path.now (tags_at kind.new)) }
    ensures inhabited { OnOk result ((value without : Tree) → Inhabits value kind.old
        → IsSome (removable_at value path.now) → IsRemoved value path.now without
        → Inhabits without kind.new) }
    ensures unchanged { OnOk result ((value : Tree) → Inhabits value kind.old
        → removable_at value path.now ≡ None → Inhabits value kind.new) }
    ensures root { OnOk result ((t : Tag) → tags_at kind.new [] t ≡ tags_at kind.old [] t) }
    ensures whole { path.now ≡ [] → IsOk result }
    ensures none { (name : List ℕ) (behind : List CodeStep) → path.now ≡ Field name ∷ behind
        → tags_at kind.old [] tag.Object ≡ false → IsOk result }
    ensures err { OnErr result (kind.new ≡ kind.old) }
{
    remove_in(alloc, kind, path.as_slice())
}

// Removes what stands at the end of the steps, in place as far as that goes.
#[cycle(remove_in)]
pub(crate) fn remove_in(alloc: Global, kind: &mut Kind, steps: &[Step]) -> Result<(), Memory>
    ensures ok { OnOk result (IsRemoval (tags_at kind.old) steps.now (tags_at kind.new)) }
    ensures whole { steps.now ≡ [] → IsOk result }
    ensures none { (name : List ℕ) (behind : List CodeStep) → steps.now ≡ Field name ∷ behind
        → tags_at kind.old [] tag.Object ≡ false → IsOk result }
    ensures err { OnErr result (kind.new ≡ kind.old) }
{
    match steps.split_first() {
        None => Ok(()),
        Some((Step::Field(name), behind)) => remove_behind(alloc, kind, name, behind),
        Some((Step::Place(_at), _behind)) => remove_anew(alloc, kind, steps),
    }
}

// Makes the kind anew without what stands at the end of the steps.
fn remove_anew(alloc: Global, kind: &mut Kind, steps: &[Step]) -> Result<(), Memory>
    ensures ok { OnOk result (IsRemoval (tags_at kind.old) steps.now (tags_at kind.new)) }
    ensures err { OnErr result (kind.new ≡ kind.old) }
{
    let left = remove_at(alloc, Spot::of(kind), steps)?;
    *kind = left;
    Ok(())
}

// Removes what stands behind a field, if there may be an object.
#[cycle(remove_in)]
fn remove_behind(
    alloc: Global,
    kind: &mut Kind,
    name: &Chars,
    behind: &[Step],
) -> Result<(), Memory>
    ensures ok { OnOk result
        (IsRemoval (tags_at kind.old) (Field name.now ∷ behind.now) (tags_at kind.new)) }
    ensures none { tags_at kind.old [] tag.Object ≡ false → IsOk result }
    ensures err { OnErr result (kind.new ≡ kind.old) }
{
    if !has(kind, Tag::Object) {
        return Ok(());
    }
    if behind.is_empty() {
        return remove_whole_field(alloc, kind, name);
    }
    remove_part(alloc, kind, name, behind)
}

// Removes a field.
fn remove_whole_field(alloc: Global, kind: &mut Kind, name: &Chars) -> Result<(), Memory>
    requires { tags_at kind.old [] tag.Object ≡ true }
    ensures ok { OnOk result
        (SameSets (tags_at kind.new) (without_part (tags_at kind.old) (field name.now))) }
    ensures err { OnErr result (kind.new ≡ kind.old) }
{
    let absent = Kind::of(alloc, Tag::Absent);
    kind.put_field(alloc, name, absent)?;
    Ok(())
}

// Removes what stands at the end of some steps behind a field.
#[cycle(remove_in)]
fn remove_part(alloc: Global, kind: &mut Kind, name: &Chars, behind: &[Step]) -> Result<(), Memory>
    requires some { 0 < length behind.now }
    requires object { tags_at kind.old [] tag.Object ≡ true }
    ensures ok { OnOk result
        (IsRemoval (tags_at kind.old) (Field name.now ∷ behind.now) (tags_at kind.new)) }
    ensures err { OnErr result (kind.new ≡ kind.old) }
{
    kind_is_canonical(kind);
    match kind.take_field(name) {
        None => remove_in_others(alloc, kind, name, behind),
        Some(part) => remove_in_known(alloc, kind, name, part, behind),
    }
}

// The same of a field that isn't known by itself.
fn remove_in_others(
    alloc: Global,
    kind: &mut Kind,
    name: &Chars,
    behind: &[Step],
) -> Result<(), Memory>
    requires some { 0 < length behind.now }
    requires object { tags_at kind.old [] tag.Object ≡ true }
    requires unknown { knows_field name.now kind.old ≡ false }
    ensures ok { OnOk result
        (IsRemoval (tags_at kind.old) (Field name.now ∷ behind.now) (tags_at kind.new)) }
    ensures err { OnErr result (kind.new ≡ kind.old) }
{
    let part = remove_at(alloc, other_fields(kind), behind)?;
    kind.put_field(alloc, name, part)?;
    Ok(())
}

// The same of a field of which what was known is taken out.
#[cycle(remove_in)]
fn remove_in_known(
    alloc: Global,
    kind: &mut Kind,
    name: &Chars,
    part: Kind,
    behind: &[Step],
) -> Result<(), Memory>
    requires some { 0 < length behind.now }
    requires known { knows_field name.now kind.old ≡ true }
    requires object { tags_at kind.old [] tag.Object ≡ true }
    ensures ok { OnOk result ((whole : KindTree) → IsTaken name.now whole kind.old part
        → IsRemoval (tags_at whole) (Field name.now ∷ behind.now) (tags_at kind.new)) }
    ensures err { OnErr result
        ((whole : KindTree) → IsCanonical whole → IsTaken name.now whole kind.old part
        → kind.new ≡ whole) }
{
    equal_tags_are_one_kind();
    let mut part = part;
    let removed = remove_in(alloc, &mut part, behind);
    kind.put_field(alloc, name, part)?;
    kind_is_canonical(kind);
    removed
}

// The kind of what stands here once what stands at the end of the steps is removed.
#[cycle(remove)]
fn remove_at(alloc: Global, spot: Spot<'_>, steps: &[Step]) -> Result<Kind, Memory>
    ensures { IfOk result (λ kind. IsRemoval (spot_sets spot.entry) steps.now (tags_at kind)) }
{
    match steps.split_first() {
        None => spot.kind(alloc),
        Some((Step::Field(name), behind)) => remove_field(alloc, spot, name, behind),
        Some((Step::Place(at), behind)) => remove_signed_place(alloc, spot, *at, behind),
    }
}

#[cycle(remove)]
fn remove_field(
    alloc: Global,
    spot: Spot<'_>,
    name: &Chars,
    behind: &[Step],
) -> Result<Kind, Memory>
    ensures { IfOk result
        (λ kind. IsRemoval (spot_sets spot.entry) (Field name.now ∷ behind.now) (tags_at kind)) }
{
    if !spot.has(Tag::Object) {
        return spot.kind(alloc);
    }
    if behind.is_empty() {
        return remove_last_field(alloc, spot, name);
    }
    remove_in_field(alloc, spot, name, behind)
}

fn remove_last_field(alloc: Global, spot: Spot<'_>, name: &Chars) -> Result<Kind, Memory>
    requires { spot_sets spot [] tag.Object ≡ true }
    ensures { IfOk result
        (λ kind. SameSets (tags_at kind) (without_part (spot_sets spot.entry) (field name.now))) }
{
    let fields = spot.fields();
    let part = Kind::of(alloc, Tag::Absent);
    let known = fields.with(alloc, name, part, false)?;
    spot.with_object(alloc, known, fields.behind.rest(alloc)?)
}

#[cycle(remove)]
fn remove_in_field(
    alloc: Global,
    spot: Spot<'_>,
    name: &Chars,
    behind: &[Step],
) -> Result<Kind, Memory>
    requires some { 0 < length behind.now }
    requires object { spot_sets spot [] tag.Object ≡ true }
    ensures { IfOk result
        (λ kind. IsRemoval (spot_sets spot.entry) (Field name.now ∷ behind.now) (tags_at kind)) }
{
    let fields = spot.fields();
    let part = remove_at(alloc, fields.field(name), behind)?;
    let known = fields.with(alloc, name, part, false)?;
    spot.with_object(alloc, known, fields.behind.rest(alloc)?)
}

#[cycle(remove)]
fn remove_signed_place(
    alloc: Global,
    spot: Spot<'_>,
    at: i64,
    behind: &[Step],
) -> Result<Kind, Memory>
    ensures { IfOk result
        (λ kind. IsRemoval (spot_sets spot.entry) (Place at ∷ behind.now) (tags_at kind)) }
{
    match from_start(at) {
        Some(at) => remove_place(alloc, spot, at, behind),
        None => remove_from_end(alloc, spot, at, behind),
    }
}

#[cycle(remove)]
fn remove_place(alloc: Global, spot: Spot<'_>, at: usize, behind: &[Step]) -> Result<Kind, Memory>
    ensures { IfOk result (λ kind. IsTakenAt (spot_sets spot.entry) (place at) behind.now
        (λ part left. IsRemoval part behind.now left) (tags_at kind)) }
{
    if !spot.has(Tag::List) {
        return spot.kind(alloc);
    }
    if behind.is_empty() {
        return remove_last_place(alloc, spot, at);
    }
    remove_in_place(alloc, spot, at, behind)
}

fn remove_last_place(alloc: Global, spot: Spot<'_>, at: usize) -> Result<Kind, Memory>
    requires { spot_sets spot [] tag.List ≡ true }
    ensures { IfOk result
        (λ kind. SameSets (tags_at kind) (without_part (spot_sets spot.entry) (place at))) }
{
    let places = spot.places();
    let absent = places.place(at).has(Tag::Absent);
    let known = places.moved(alloc, at, absent)?;
    spot.with_list(alloc, known, places.behind.rest(alloc)?)
}

#[cycle(remove)]
fn remove_in_place(
    alloc: Global,
    spot: Spot<'_>,
    at: usize,
    behind: &[Step],
) -> Result<Kind, Memory>
    requires some { 0 < length behind.now }
    requires list { spot_sets spot [] tag.List ≡ true }
    ensures { IfOk result (λ kind. IsTakenAt (spot_sets spot.entry) (place at) behind.now
        (λ part left. IsRemoval part behind.now left) (tags_at kind)) }
{
    let places = spot.places();
    let part = remove_at(alloc, places.place(at), behind)?;
    let known = places.with(alloc, at, part, false, false)?;
    spot.with_list(alloc, known, places.behind.rest(alloc)?)
}

#[cycle(remove)]
fn remove_from_end(alloc: Global, spot: Spot<'_>, at: i64, behind: &[Step]) -> Result<Kind, Memory>
    ensures { IfOk result (λ kind. IsTakenFromEnd (spot_sets spot.entry) at behind.now
        (λ part left. IsRemoval part behind.now left) (tags_at kind)) }
{
    if !spot.has(Tag::List) {
        return spot.kind(alloc);
    }
    match spot.length() {
        None => remove_somewhere(alloc, spot, behind),
        Some(count) => remove_if_there(alloc, spot, index(count, at), behind),
    }
}

// Removes at a place of arrays of one length, if they have it.
#[cycle(remove)]
fn remove_if_there(
    alloc: Global,
    spot: Spot<'_>,
    at: Option<usize>,
    behind: &[Step],
) -> Result<Kind, Memory>
    ensures { IfOk result (λ kind. MatchOption at (SameSets (tags_at kind) (spot_sets spot.entry))
        (λ j. IsTakenAt (spot_sets spot.entry) (place j) behind.now
        (λ part left. IsRemoval part behind.now left) (tags_at kind))) }
{
    match at {
        None => spot.kind(alloc),
        Some(at) => remove_place(alloc, spot, at, behind),
    }
}

// Removes at a place that isn't known.
#[cycle(remove)]
fn remove_somewhere(alloc: Global, spot: Spot<'_>, behind: &[Step]) -> Result<Kind, Memory>
    requires { spot_sets spot [] tag.List ≡ true }
    ensures { IfOk result (λ kind. IsTakenSomewhere (spot_sets spot.entry) behind.now
        (λ part left. IsRemoval part behind.now left) (tags_at kind)) }
{
    let places = some_place(alloc, spot)?;
    let left = left_somewhere(alloc, places, behind)?;
    let rest = exact(alloc, left)?;
    spot.with_list(alloc, Vec::new(alloc), rest)
}

// What may stand at each place, of which all are of this kind, once one is removed or what stands
// in it.
#[cycle(remove)]
fn left_somewhere(alloc: Global, places: Kind, behind: &[Step]) -> Result<Kind, Memory>
    ensures { IfOk result (λ left. IsLeftSomewhere (tags_at places) behind.now
        (λ part left. IsRemoval part behind.now left) (tags_at left)) }
{
    if behind.is_empty() {
        return Ok(places);
    }
    let removed = remove_at(alloc, Spot::of(&places), behind)?;
    join(alloc, &places, &removed)
}

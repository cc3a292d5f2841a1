ghost use Rattle.std.specs.Prelude.{◌≡◌, IfOk, OnOk};
ghost use Rattle.vrl_kind.specs.Kinds.{tags_at};
ghost use Rattle.vrl_kind.specs.Merge.{FieldsAreSorted};
ghost use Rattle.vrl_kind.specs.Sets.{SameSets};
ghost use Rattle.vrl_kind.specs.View.{fields_view};
ghost use Rattle.vrl_place.specs.Inner.{AreOtherFields, ArePushed, FieldsAre, FieldsAreOf, IsCutAt};
ghost use Rattle.vrl_place.specs.Inner.{fields_sets, spot_sets};
ghost use Rattle.vrl_place.specs.Sets.{or_absent_if};

use crate::spot::{Bare, Spot};
use std::alloc::Global;
use vrl_kind::{Kind, KindField, field_index, kind_is_canonical, object_part};
use vrl_value::{Chars, Memory};

/// What a kind knows of the fields of an object, borrowed.
#[derive(Clone, Copy)]
pub(crate) struct Fields<'a> {
    pub(crate) known: &'a [KindField],
    pub(crate) behind: Spot<'a>,
}

// The fields of the objects of a kind.
fn fields_of(kind: &Kind) -> Fields<'_>
    ensures { FieldsAreOf (tags_at kind.now) result }
{
    kind_is_canonical(kind);
    match object_part(kind) {
        None => Fields {
            known: &[],
            behind: Spot::lacking(),
        },
        Some((fields, rest)) => Fields {
            known: fields.as_slice(),
            behind: Spot::of_rest(rest),
        },
    }
}

// What stands at each field that a kind doesn't know by itself.
pub(crate) fn other_fields(kind: &Kind) -> Spot<'_>
    ensures { AreOtherFields kind.now (spot_sets result) }
{
    match object_part(kind) {
        None => Spot::lacking(),
        Some((_fields, rest)) => Spot::of_rest(rest),
    }
}

impl<'a> Spot<'a> {
    // The fields of its objects.
    pub(crate) fn fields(self) -> Fields<'a>
        ensures { FieldsAreOf (spot_sets self.entry) result }
    {
        match self.bare {
            Bare::Nothing => Fields {
                known: &[],
                behind: Spot::lacking(),
            },
            Bare::Json | Bare::Any => Fields {
                known: &[],
                behind: Spot {
                    bare: self.bare,
                    absent: true,
                },
            },
            Bare::Exact(kind) => fields_of(kind),
        }
    }
}

impl<'a> Fields<'a> {
    // What stands at a field.
    pub(crate) fn field(self, name: &Chars) -> Spot<'a>
        requires { FieldsAreSorted (fields_view self.known.now) }
        ensures { SameSets (spot_sets result) (fields_sets self.entry name.now) }
    {
        match cut_at(self.known, name).at {
            Some(field) => Spot::of(&field.kind),
            None => self.behind,
        }
    }

    // The kinds of the fields with this one at a name, the last field first. If it is wanted, what
    // stands at the others may be absent. `Memory`: want of memory.
    pub(crate) fn with(
        self,
        alloc: Global,
        name: &Chars,
        kind: Kind,
        absent: bool,
    ) -> Result<Vec<(Chars, Kind)>, Memory>
        requires { FieldsAreSorted (fields_view self.known.now) }
        ensures { IfOk result
            (λ fields. FieldsAre self.entry name.now (tags_at kind) absent fields.items) }
    {
        let cut = cut_at(self.known, name);
        let mut fields = Vec::with_capacity(alloc, self.known.len().saturating_add(1))?;
        push_copies(alloc, &mut fields, cut.behind, absent)?;
        fields.push((name.copy(alloc)?, kind))?;
        push_copies(alloc, &mut fields, cut.before, absent)?;
        Ok(fields)
    }
}

/// The known fields of a kind, cut at a name: those before it, the one that has it, and those
/// behind it.
#[derive(Clone, Copy)]
pub(crate) struct Cut<'a> {
    pub(crate) before: &'a [KindField],
    pub(crate) at: Option<&'a KindField>,
    pub(crate) behind: &'a [KindField],
}

// Fields in the order of their names' bytes, cut at a name, which is found by halves.
fn cut_at<'a>(fields: &'a [KindField], name: &Chars) -> Cut<'a>
    requires { FieldsAreSorted (fields_view fields.now) }
    ensures { IsCutAt name.now fields.now result }
{
    match field_index(fields, name) {
        Ok(at) => Cut {
            before: &fields[..at],
            at: Some(&fields[at]),
            behind: &fields[at + 1..],
        },
        Err(at) => Cut {
            before: &fields[..at],
            at: None,
            behind: &fields[at..],
        },
    }
}

// Puts copies of known fields behind others, the last field first. If it is wanted, what stands
// there may be absent. `Memory`: want of memory; some may be put.
fn push_copies(
    alloc: Global,
    fields: &mut Vec<(Chars, Kind)>,
    known: &[KindField],
    absent: bool,
) -> Result<(), Memory>
    ensures { OnOk result (ArePushed absent known.now fields.old.items fields.new.items) }
{
    let mut left = known;
    while let Some((last, rest)) = left.split_last() {
        fields.push(copied(alloc, last, absent)?)?;
        left = rest;
    }
    Ok(())
}

// A copy of a field, which may be absent too, if that is wanted. `Memory`: want of memory.
fn copied(alloc: Global, field: &KindField, absent: bool) -> Result<(Chars, Kind), Memory>
    ensures name { IfOk result (λ copy. copy.0 ≡ field.now.name) }
    ensures kind { IfOk result
        (λ copy. SameSets (tags_at copy.1) (or_absent_if absent (tags_at field.now.kind))) }
{
    let name = field.name.copy(alloc)?;
    Ok((
        name,
        Spot::of(&field.kind).or_absent_if(absent).kind(alloc)?,
    ))
}

ghost use Rattle.std.specs.Prelude.{◌≡◌, ◌↔◌, [], false, IfErr, IfOk, IsOk, IsTrue, MatchOption, OnErr, OnOk, Some, true};
ghost use Rattle.vrl_kind.specs.Canonical.{FieldsAreCanonical, IsCanonical, ObjectIsCanonical, never_kind};
ghost use Rattle.vrl_kind.specs.Fields.{AreTaken, IsFieldAt, IsGapAt, IsLeftOut, IsObjectPut, IsPut, IsTaken, knows_field, knows_name, object_knows, put_at};
ghost use Rattle.vrl_kind.specs.Kinds.{tags_at};
ghost use Rattle.vrl_kind.specs.Merge.{FieldsAreSorted};
ghost use Rattle.vrl_kind.specs.Seen.{part_rest, seen_list, seen_object, seen_tree};
ghost use Rattle.vrl_kind.specs.Sets.{SameSets};
ghost use Rattle.vrl_kind.specs.View.{fields_view, list_of, object_of, rest_of};
ghost use Rattle.vrl_value.specs.declared.value.Tag.TheVariants as tag;

use crate::kind::{Kind, KindField, ListPart, ObjectPart, Rest, kind_is_canonical};
use crate::same::{same, same_fields, same_places};
use crate::scalars::Scalars;
use crate::seen::{Part, Seen, SeenList, SeenObject};
use std::alloc::Global;
use std::mem;
use vrl_value::{Chars, Memory};

impl Kind {
    /// Takes out what is known of a field by itself; nothing may stand there then. `None`: nothing
    /// is known of it by itself, and the kind stays as it was. It takes no memory, and finds the
    /// field by halves.
    pub fn take_field(&mut self, name: &Chars) -> Option<Kind>
        ensures { MatchOption result ((self.new ≡ self.old) × (knows_field name.now self.old ≡ false))
            (λ kind. IsTaken name.now self.old self.new kind) }
    {
        match &mut self.object {
            None => None,
            Some(part) => take_known(&mut part.fields.fields, name),
        }
    }

    /// Puts a kind at a field in place of what stands there. `Memory`: want of memory, which a
    /// field that is known by itself never has; the kind stays as it was. It finds the field by
    /// halves, and looks at no other.
    pub fn put_field(&mut self, alloc: Global, name: &Chars, kind: Kind) -> Result<(), Memory>
        requires { tags_at self.old [] tag.Object ≡ true }
        ensures put { OnOk result (SameSets (tags_at self.new) (put_at name.now (tags_at kind) (tags_at self.old))) }
        ensures err { OnErr result (self.new ≡ self.old) }
        ensures known { knows_field name.now self.old ≡ true → IsOk result }
    {
        kind_is_canonical(&kind);
        match &mut self.object {
            None => Ok(()),
            Some(part) => put_in(alloc, part, name, kind),
        }
    }
}

// Puts a kind at a field of objects.
fn put_in(alloc: Global, part: &mut ObjectPart, name: &Chars, kind: Kind) -> Result<(), Memory>
    requires objects { ObjectIsCanonical (object_of (Some part.old)) }
    requires kind { IsCanonical kind }
    ensures put { OnOk result (IsObjectPut name.now kind (object_of (Some part.old)) (object_of (Some part.new))) }
    ensures canonical { ObjectIsCanonical (object_of (Some part.new)) }
    ensures err { OnErr result (object_of (Some part.new) ≡ object_of (Some part.old)) }
    ensures known { object_knows name.now (object_of (Some part.old)) ≡ true → IsOk result }
{
    if is_as_seen(&kind, Seen::of_rest(part.rest.as_part())) {
        leave_out(&mut part.fields.fields, name);
        return Ok(());
    }
    put_known(alloc, &mut part.fields.fields, name, kind)?;
    Ok(())
}

// Puts a kind at a name among fields.
fn put_known(
    alloc: Global,
    fields: &mut Vec<KindField>,
    name: &Chars,
    kind: Kind,
) -> Result<(), Memory>
    requires fields { FieldsAreCanonical (fields_view fields.old.items) }
    requires kind { IsCanonical kind }
    ensures put { OnOk result (IsPut name.now kind (fields_view fields.old.items) (fields_view fields.new.items)) }
    ensures err { OnErr result (fields.new.items ≡ fields.old.items) }
    ensures known { knows_name name.now (fields_view fields.old.items) ≡ true → IsOk result }
{
    match field_index(fields.as_slice(), name) {
        Ok(at) => {
            drop(set_kind(&mut fields[at], kind));
            Ok(())
        }
        Err(at) => {
            let copy = name.copy(alloc)?;
            fields.insert(at, KindField { name: copy, kind })?;
            Ok(())
        }
    }
}

// Leaves a name out of fields, if it is known.
fn leave_out(fields: &mut Vec<KindField>, name: &Chars)
    requires { FieldsAreCanonical (fields_view fields.old.items) }
    ensures { IsLeftOut name.now (fields_view fields.old.items) (fields_view fields.new.items) }
{
    match field_index(fields.as_slice(), name) {
        Ok(at) => drop(fields.remove(at)),
        Err(_at) => {}
    }
}

// Takes out what stands at a name, where nothing may stand then. `None`: no field has the name.
fn take_known(fields: &mut Vec<KindField>, name: &Chars) -> Option<Kind>
    requires { FieldsAreCanonical (fields_view fields.old.items) }
    ensures { MatchOption result
        ((fields.new.items ≡ fields.old.items) × (knows_name name.now (fields_view fields.old.items) ≡ false))
        (λ kind. AreTaken name.now (fields_view fields.old.items) (fields_view fields.new.items) kind) }
{
    match field_index(fields.as_slice(), name) {
        Ok(at) => Some(set_kind(&mut fields[at], no_value())),
        Err(_at) => None,
    }
}

// The kind of no value.
fn no_value() -> Kind
    ensures { result ≡ never_kind }
{
    Kind {
        scalars: Scalars::NONE,
        list: None,
        object: None,
    }
}

// Gives a field another kind, and hands out the one that it had.
fn set_kind(field: &mut KindField, kind: Kind) -> Kind
    ensures name { field.new.name ≡ field.old.name }
    ensures kind { field.new.kind ≡ kind }
    ensures given { result ≡ field.old.kind }
{
    mem::replace(&mut field.kind, kind)
}

/// Where a field stands among others in the order of their names' bytes; `Err`: where it would
/// stand, since none has the name. It takes no memory, and finds the field by halves.
pub fn field_index(fields: &[KindField], name: &Chars) -> Result<usize, usize>
    requires { FieldsAreSorted (fields_view fields.now) }
    ensures found { IfOk result (IsFieldAt name.now fields.now) }
    ensures lacking { IfErr result (IsGapAt name.now fields.now) }
{
    fields.binary_search_by(|field| field.name.as_str().cmp(name.as_str()))
}

// Whether a kind is one that is read so.
fn is_as_seen(kind: &Kind, seen: Seen<'_>) -> bool
    ensures { IsTrue result ↔ (kind.now ≡ seen_tree seen.entry) }
{
    if !kind.scalars.same(seen.scalars()) {
        return false;
    }
    if !is_list_as_seen(&kind.list, seen.list()) {
        return false;
    }
    is_object_as_seen(&kind.object, seen.object())
}

fn is_list_as_seen(list: &Option<ListPart>, seen: Option<SeenList<'_>>) -> bool
    ensures { IsTrue result ↔ (list_of list.now ≡ seen_list seen.entry) }
{
    match (list, seen) {
        (None, None) => true,
        (Some(part), Some(seen)) => {
            if !is_rest_as_seen(&part.rest, seen.rest) {
                return false;
            }
            same_places(&part.places.kinds, seen.places)
        }
        _ => false,
    }
}

fn is_object_as_seen(object: &Option<ObjectPart>, seen: Option<SeenObject<'_>>) -> bool
    ensures { IsTrue result ↔ (object_of object.now ≡ seen_object seen.entry) }
{
    match (object, seen) {
        (None, None) => true,
        (Some(part), Some(seen)) => {
            if !is_rest_as_seen(&part.rest, seen.rest) {
                return false;
            }
            same_fields(&part.fields.fields, seen.fields)
        }
        _ => false,
    }
}

fn is_rest_as_seen(rest: &Rest, seen: Part<'_>) -> bool
    ensures { IsTrue result ↔ (rest_of rest.now ≡ part_rest seen.entry) }
{
    match (rest, seen) {
        (Rest::Nothing, Part::Nothing) => true,
        (Rest::Json, Part::Json) => true,
        (Rest::Any, Part::Any) => true,
        (Rest::Exact(a), Part::Exact(b)) => same(a, b),
        _ => false,
    }
}

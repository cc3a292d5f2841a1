ghost use Rattle.std.specs.Prelude.{◌≡◌, IfOk, IsTrue, OnOk, Some, true, List, take};
ghost use Rattle.vrl_value.specs.Look.{Step};
ghost use Rattle.vrl_kind.specs.Canonical.{IsBeforeFields, IsCanonical, PlacesAreCanonical, FieldsAreCanonical, RestIsCanonical, NoFieldIs, allows_absent, bare_rest, rest_kind};
ghost use Rattle.vrl_kind.specs.Kinds.{SameTags, rest_at, tags_at, without_at};
ghost use Rattle.vrl_kind.specs.Make.{AreKnown, SameFields, entries_view, list_unless, object_unless, IsListOf, IsObjectOf, IsTrimmed, IsKnownPushed, array_kind, object_kind, named_view};
ghost use Rattle.vrl_kind.specs.Merge.{FieldsAreSorted};
ghost use Rattle.vrl_kind.specs.Seen.{seen_list, seen_object, part_rest};
ghost use Rattle.vrl_kind.specs.View.{list_of, object_of, places_view, fields_view, rest_of};

use crate::kind::{
    Kind, KindField, KindFields, Kinds, ListPart, ObjectPart, Rest, is_tag, kind_is_canonical,
};
use crate::same::same;
use crate::seen::{Part, Seen, SeenList, SeenObject};
use std::alloc::Global;
use std::collections::BTreeMap;
use vrl_value::{Chars, Memory, Tag};

impl Kind {
    /// The kind of the arrays with these kinds at their first places and this rest behind.
    /// `Memory`: want of memory.
    pub fn list(alloc: Global, places: Vec<Kind>, rest: Rest) -> Result<Kind, Memory>
        ensures { IfOk result (λ kind. SameTags kind (array_kind (places_view places.items) (rest_of rest))) }
    {
        Kind::never().with_list(alloc, places, rest)
    }

    /// The kind of the objects with these kinds at these fields, of equal names the last, and this
    /// rest at each other field. `Memory`: want of memory.
    pub fn object(alloc: Global, fields: Vec<(Chars, Kind)>, rest: Rest) -> Result<Kind, Memory>
        ensures { IfOk result (λ kind. SameTags kind (object_kind (named_view fields.items) (rest_of rest))) }
    {
        Kind::never().with_object(alloc, fields, rest)
    }

    /// An equal kind. `Memory`: want of memory.
    #[cycle(copy)]
    pub fn copy(&self, alloc: Global) -> Result<Kind, Memory>
        ensures { IfOk result (λ copy. copy ≡ self.now) }
    {
        let seen = Seen::of(self);
        Ok(Kind {
            scalars: self.scalars,
            list: copy_list(alloc, seen.list())?,
            object: copy_object(alloc, seen.object())?,
        })
    }
}

/// The kind without this tag at its root, and without what stands below it; all else stays.
/// `Memory`: want of memory.
pub fn without(alloc: Global, kind: &Kind, tag: Tag) -> Result<Kind, Memory>
    ensures { IfOk result (λ lower. (p : List Step) → tags_at lower p ≡ without_at kind.now tag p) }
{
    let (scalars, list, object) = kind.copy(alloc)?.into_parts();
    Ok(Kind {
        scalars: scalars.without(tag),
        list: list_unless(is_tag(Tag::List, tag), list),
        object: object_unless(is_tag(Tag::Object, tag), object),
    })
}

fn list_unless(removed: bool, list: Option<ListPart>) -> Option<ListPart>
    ensures { list_of result ≡ list_unless removed (list_of list) }
{
    if removed { None } else { list }
}

fn object_unless(removed: bool, object: Option<ObjectPart>) -> Option<ObjectPart>
    ensures { object_of result ≡ object_unless removed (object_of object) }
{
    if removed { None } else { object }
}

// The kind that a part stands for, but for absent.
pub(crate) fn copy_part(alloc: Global, part: Part<'_>) -> Result<Kind, Memory>
    ensures { IfOk result (λ kind. kind ≡ bare_rest (part_rest part.entry)) }
{
    match part {
        Part::Nothing => Ok(Kind::never()),
        Part::Json => Ok(Kind::json(alloc)),
        Part::Any => Ok(Kind::any(alloc)),
        Part::Exact(kind) => kind.copy(alloc),
    }
}

#[cycle(copy)]
pub(crate) fn copy_list(
    alloc: Global,
    list: Option<SeenList<'_>>,
) -> Result<Option<ListPart>, Memory>
    ensures { IfOk result (λ copy. list_of copy ≡ seen_list list.entry) }
{
    match list {
        None => Ok(None),
        Some(list) => Ok(Some(ListPart {
            places: copy_places(alloc, list.places)?,
            rest: copy_rest(alloc, list.rest)?,
        })),
    }
}

#[cycle(copy)]
fn copy_places(alloc: Global, places: &[Kind]) -> Result<Kinds, Memory>
    ensures { IfOk result (λ copy. places_view copy.kinds.items ≡ places_view places.now) }
{
    let mut kinds = Vec::with_capacity(alloc, places.len())?;
    for kind in places {
        kinds.push(kind.copy(alloc)?)?;
    }
    Ok(Kinds { kinds })
}

#[cycle(copy)]
pub(crate) fn copy_object(
    alloc: Global,
    object: Option<SeenObject<'_>>,
) -> Result<Option<ObjectPart>, Memory>
    ensures { IfOk result (λ copy. object_of copy ≡ seen_object object.entry) }
{
    match object {
        None => Ok(None),
        Some(object) => Ok(Some(ObjectPart {
            fields: copy_fields(alloc, object.fields)?,
            rest: copy_rest(alloc, object.rest)?,
        })),
    }
}

#[cycle(copy)]
fn copy_fields(alloc: Global, fields: &[KindField]) -> Result<KindFields, Memory>
    ensures { IfOk result (λ copy. fields_view copy.fields.items ≡ fields_view fields.now) }
{
    let mut copies = Vec::with_capacity(alloc, fields.len())?;
    for field in fields {
        let name = field.name.copy(alloc)?;
        copies.push(KindField {
            name,
            kind: field.kind.copy(alloc)?,
        })?;
    }
    Ok(KindFields { fields: copies })
}

#[cycle(copy)]
fn copy_rest(alloc: Global, rest: Part<'_>) -> Result<Rest, Memory>
    ensures { IfOk result (λ copy. rest_of copy ≡ part_rest rest.entry) }
{
    match rest {
        Part::Nothing => Ok(Rest::Nothing),
        Part::Json => Ok(Rest::Json),
        Part::Any => Ok(Rest::Any),
        Part::Exact(kind) => Ok(Rest::Exact(Box::new(alloc, kind.copy(alloc)?)?)),
    }
}

impl Rest {
    /// An equal rest. `Memory`: want of memory.
    pub fn copy(&self, alloc: Global) -> Result<Rest, Memory>
        ensures { IfOk result (λ copy. rest_of copy ≡ rest_of self.now) }
    {
        copy_rest(alloc, self.as_part())
    }

    /// The kind of what may stand where nothing is known by itself: what the rest says, and absent.
    /// `Memory`: want of memory.
    pub fn kind(&self, alloc: Global) -> Result<Kind, Memory>
        ensures { IfOk result (λ kind. (p : List Step) → tags_at kind p ≡ rest_at (rest_of self.now) p) }
    {
        Ok(self.copy(alloc)?.into_kind(alloc))
    }

    // The same of a rest that is let go.
    pub(crate) fn into_kind(self, alloc: Global) -> Kind
        ensures tree { result ≡ rest_kind (rest_of self) }
        ensures canonical { IsCanonical result }
    {
        let mut kind = match self {
            Rest::Nothing => Kind::never(),
            Rest::Json => Kind::json(alloc),
            Rest::Any => Kind::any(alloc),
            Rest::Exact(kind) => Box::into_inner(kind),
        };
        kind.scalars.absent = true;
        kind
    }

    // The rest whose own kind this is.
    fn of_kind(alloc: Global, own: Kind) -> Result<Rest, Memory>
        requires { allows_absent own ≡ true }
        ensures own { IfOk result (λ rest. rest_kind (rest_of rest) ≡ own) }
        ensures canonical { IfOk result (λ rest. RestIsCanonical (rest_of rest)) }
    {
        let mut bare = own;
        bare.scalars.absent = false;
        if same(&bare, &Kind::never()) {
            return Ok(Rest::Nothing);
        }
        if same(&bare, &Kind::json(alloc)) {
            return Ok(Rest::Json);
        }
        if same(&bare, &Kind::any(alloc)) {
            return Ok(Rest::Any);
        }
        Ok(Rest::Exact(Box::new(alloc, bare)?))
    }
}

impl ListPart {
    // The arrays with these kinds at their first places, and this own kind of the rest behind, in
    // the one form: known places at the end that say no more than the rest are left out.
    pub(crate) fn of(alloc: Global, mut kinds: Vec<Kind>, own: Kind) -> Result<ListPart, Memory>
        requires absent { allows_absent own ≡ true }
        requires canonical { PlacesAreCanonical (places_view kinds.items) }
        ensures { IfOk result (λ part. IsListOf (places_view kinds.items) own (list_of (Some part))) }
    {
        kinds.truncate(kept_len(&kinds, &own));
        Ok(ListPart {
            places: Kinds { kinds },
            rest: Rest::of_kind(alloc, own)?,
        })
    }
}

// How many kinds are left without those at the end that are this one.
fn kept_len(kinds: &[Kind], own: &Kind) -> usize
    ensures { IsTrimmed own.now (places_view kinds.now) (places_view (take result kinds.now)) }
{
    let mut kept = kinds.len();
    while kept > 0 {
        if !same(&kinds[kept - 1], own) {
            return kept;
        }
        kept -= 1;
    }
    0
}

impl ObjectPart {
    // The objects with these kinds at these fields, and this own kind of the rest at each other
    // field.
    pub(crate) fn of(alloc: Global, fields: Vec<KindField>, own: Kind) -> Result<ObjectPart, Memory>
        requires absent { allows_absent own ≡ true }
        requires canonical { FieldsAreCanonical (fields_view fields.items) }
        requires known { NoFieldIs own (fields_view fields.items) }
        ensures { IfOk result (λ part. IsObjectOf (fields_view fields.items) own (object_of (Some part))) }
    {
        Ok(ObjectPart {
            fields: KindFields { fields },
            rest: Rest::of_kind(alloc, own)?,
        })
    }
}

// The fields, in the order of their names' bytes, that say more than the rest, whose own kind this
// is: of equal names the last. Fields that come the last name first, as those of a kind that is
// changed do, want no map.
pub(crate) fn known_fields(
    alloc: Global,
    fields: Vec<(Chars, Kind)>,
    own: &Kind,
) -> Result<Vec<KindField>, Memory>
    ensures { IfOk result (λ known. AreKnown own.now (named_view fields.items) (fields_view known.items)) }
{
    if are_falling(&fields) {
        return known_falling(alloc, fields, own);
    }
    known_by_name(alloc, by_name(alloc, fields)?, own)
}

// Whether each name is before the one in front of it, in the order of bytes.
fn are_falling(fields: &[(Chars, Kind)]) -> bool
    ensures { IsTrue result → FieldsAreSorted (named_view fields.now) }
{
    let mut left = fields;
    while let Some((last, rest)) = left.split_last() {
        if !is_before_last(&last.0, rest) {
            return false;
        }
        left = rest;
    }
    true
}

// Whether a name is before the last of the fields', if there is one.
fn is_before_last(name: &Chars, fields: &[(Chars, Kind)]) -> bool
    ensures { IsTrue result → FieldsAreSorted (named_view fields.now)
        → IsBeforeFields name.now (named_view fields.now) }
{
    match fields.split_last() {
        None => true,
        Some((last, _rest)) => name.as_str().cmp(last.0.as_str()).is_lt(),
    }
}

// The known fields of those that come the last name first.
fn known_falling(
    alloc: Global,
    mut fields: Vec<(Chars, Kind)>,
    own: &Kind,
) -> Result<Vec<KindField>, Memory>
    requires { FieldsAreSorted (named_view fields.items) }
    ensures { IfOk result (λ known. AreKnown own.now (named_view fields.items) (fields_view known.items)) }
{
    let mut known = Vec::with_capacity(alloc, fields.len())?;
    while let Some((name, kind)) = fields.pop() {
        kind_is_canonical(&kind);
        push_known(&mut known, name, kind, own)?;
    }
    Ok(known)
}

// The kinds by their names, of equal names the last.
fn by_name(alloc: Global, fields: Vec<(Chars, Kind)>) -> Result<BTreeMap<String, Kind>, Memory>
    ensures { IfOk result (λ named. SameFields (named_view fields.items) (entries_view named.entries)) }
{
    let mut named = BTreeMap::new(alloc);
    for (name, kind) in fields {
        drop(named.insert(name.into_string(), kind)?);
    }
    Ok(named)
}

// The known fields of kinds by their names.
fn known_by_name(
    alloc: Global,
    named: BTreeMap<String, Kind>,
    own: &Kind,
) -> Result<Vec<KindField>, Memory>
    ensures { IfOk result (λ known. AreKnown own.now (entries_view named.entries) (fields_view known.items)) }
{
    let mut known = Vec::new(alloc);
    for (name, kind) in named {
        kind_is_canonical(&kind);
        push_known(&mut known, Chars::new(name), kind, own)?;
    }
    Ok(known)
}

// Puts a kind at a name behind the known fields, where it says more than the rest, whose own kind
// this is.
pub(crate) fn push_known(
    fields: &mut Vec<KindField>,
    name: Chars,
    kind: Kind,
    own: &Kind,
) -> Result<(), Memory>
    ensures { OnOk result
        (IsKnownPushed name kind own.now (fields_view fields.old.items) (fields_view fields.new.items)) }
{
    if !same(&kind, own) {
        fields.push(KindField { name, kind })?;
    }
    Ok(())
}

// Each kind of a vector is in the one form. This changes nothing: it is a law of the type.
pub(crate) fn all_canonical(kinds: &[Kind])
    ensures { PlacesAreCanonical (places_view kinds.now) }
{
    for kind in kinds {
        kind_is_canonical(kind);
    }
}

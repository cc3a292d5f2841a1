ghost use Rattle.std.specs.Prelude.{◌≡◌, MatchOption, Some, List, []};
ghost use Rattle.vrl_value.specs.Look.{Step};
ghost use Rattle.vrl_kind.specs.KindTree.{kind, no_list, no_object, no_places, no_fields, list_part as list_with, object_part as object_with};
ghost use Rattle.vrl_kind.specs.Kinds.{tags_at, any_at, json_at, never_at, only_at};
ghost use Rattle.vrl_kind.specs.Canonical.{list_tree, object_tree, never_kind, any_kind, json_kind, list_if, object_if, IsCanonical};
ghost use Rattle.vrl_kind.specs.Tags.{same_tag};
ghost use Rattle.vrl_kind.specs.View.{list_of, object_of, places_of, places_view, fields_of, fields_view, rest_of};

use crate::scalars::Scalars;
use std::alloc::Global;
use std::marker::Model;
use vrl_value::{Chars, Tag};

/// A kind: which sorts of value may stand at each path, and where nothing may be there.
///
/// It is a set of scalars, what it knows of arrays and what it knows of objects. It is always in
/// the one form that its tags have: the last known place, and each known field, says more than the
/// rest does, the fields stand in the order of their names' bytes, and an exact rest is none of the
/// others.
#[cycle(kind)]
pub struct Kind {
    pub(crate) scalars: Scalars,
    pub(crate) list: Option<ListPart>,
    pub(crate) object: Option<ObjectPart>,
}

// Written out, so that a kind is let go by one call.
impl Drop for Kind {
    #[cycle(let_go)]
    fn drop(self) {
        let Kind {
            scalars: _,
            list,
            object,
        } = self;
        if let Some(list) = list {
            let_list_go(list);
        }
        if let Some(object) = object {
            let_object_go(object);
        }
    }
}

#[cycle(let_go)]
fn let_list_go(_list: ListPart) {}

#[cycle(let_go)]
fn let_object_go(_object: ObjectPart) {}

impl Model for Kind {
    ghost use Rattle.vrl_kind.specs.KindTree.{KindTree, kind};
    ghost use Rattle.vrl_kind.specs.KindCode.{kind_code};
    ghost use Rattle.vrl_kind.specs.Count.{nodes};

    ghost Value = { KindTree };

    ghost coded = { kind_code };

    ghost use Rattle.vrl_kind.specs.Canonical.{list_if, object_if, IsCanonical};
    ghost use Rattle.vrl_kind.specs.View.{list_of, object_of};

    ghost view = { λ k. kind k.scalars (list_of k.list) (object_of k.object) };

    ghost invariant = { λ k. IsCanonical (kind k.scalars (list_of k.list) (object_of k.object)) };

    ghost size = { nodes };

    ghost use Rattle.vrl_kind.specs.KindFalls.{kind_falls};

    ghost size_decreases = { λ a h. kind_falls a };
}

/// What a kind knows of arrays.
#[cycle(kind)]
#[derive(Drop)]
pub(crate) struct ListPart {
    pub(crate) places: Kinds,
    pub(crate) rest: Rest,
}

/// What a kind knows of objects.
#[cycle(kind)]
#[derive(Drop)]
pub(crate) struct ObjectPart {
    pub(crate) fields: KindFields,
    pub(crate) rest: Rest,
}

/// The kinds of the known places of an array, from place 0 on.
#[cycle(kind)]
#[derive(Drop)]
pub struct Kinds {
    pub(crate) kinds: Vec<Kind>,
}

/// The kinds of the known fields of an object, in the order of their names' bytes, each name once.
#[cycle(kind)]
#[derive(Drop)]
pub struct KindFields {
    pub(crate) fields: Vec<KindField>,
}

/// The kind of a known field.
#[cycle(kind)]
#[derive(Drop)]
pub struct KindField {
    /// The name.
    pub name: Chars,
    /// What may stand there.
    pub kind: Kind,
}

/// What may stand at the places, or the fields, of which nothing is known by itself. Each of these
/// may be absent.
#[cycle(kind)]
#[derive(Drop)]
pub enum Rest {
    /// Nothing.
    Nothing,
    /// What JSON (RFC 8259) can hold.
    Json,
    /// Every value.
    Any,
    /// What is of this kind.
    Exact(Box<Kind>),
}

impl Kind {
    // Its parts, taken out.
    pub(crate) fn into_parts(self) -> (Scalars, Option<ListPart>, Option<ObjectPart>)
        ensures { self ≡ kind result.0 (list_of result.1) (object_of result.2) }
    {
        let Kind {
            scalars,
            list,
            object,
        } = self;
        (scalars, list, object)
    }
}

impl Kinds {
    /// The kinds, borrowed.
    pub fn as_slice(&self) -> &[Kind]
        ensures { places_view result.now ≡ places_of self.now }
    {
        &self.kinds
    }
}

impl KindFields {
    /// The fields, borrowed.
    pub fn as_slice(&self) -> &[KindField]
        ensures { fields_view result.now ≡ fields_of self.now }
    {
        &self.fields
    }
}

impl Kind {
    /// The kind of no value.
    pub fn never() -> Kind
        ensures tree { result ≡ never_kind }
        ensures tags { (p : List Step) → tags_at result p ≡ never_at p }
    {
        Kind {
            scalars: Scalars::NONE,
            list: None,
            object: None,
        }
    }

    /// The kind of every value.
    pub fn any(alloc: Global) -> Kind
        ensures tree { result ≡ any_kind }
        ensures tags { (p : List Step) → tags_at result p ≡ any_at p }
    {
        Kind {
            scalars: Scalars::ALL,
            list: Some(ListPart::of_rest(alloc, Rest::Any)),
            object: Some(ObjectPart::of_rest(alloc, Rest::Any)),
        }
    }

    /// The kind of what JSON (RFC 8259) can hold: each value without timestamps and regexes in it.
    pub fn json(alloc: Global) -> Kind
        ensures tree { result ≡ json_kind }
        ensures tags { (p : List Step) → tags_at result p ≡ json_at p }
    {
        Kind {
            scalars: Scalars::JSON,
            list: Some(ListPart::of_rest(alloc, Rest::Json)),
            object: Some(ObjectPart::of_rest(alloc, Rest::Json)),
        }
    }

    /// The kind of the values with this tag: every array at `List`, every object at `Object`, and
    /// at `Absent` the kind that allows only that nothing is there.
    pub fn of(alloc: Global, tag: Tag) -> Kind
        ensures { (p : List Step) → tags_at result p ≡ only_at tag p }
    {
        Kind {
            scalars: Scalars::only(tag),
            list: any_list(alloc, is_tag(tag, Tag::List)),
            object: any_object(alloc, is_tag(tag, Tag::Object)),
        }
    }
}

// Whether both tags are one.
pub(crate) fn is_tag(tag: Tag, other: Tag) -> bool
    ensures { result ≡ same_tag tag other }
{
    tag == other
}

// Every array, if they are wanted.
pub(crate) fn any_list(alloc: Global, wanted: bool) -> Option<ListPart>
    ensures { list_of result ≡ list_if wanted }
{
    wanted.then_some(ListPart::of_rest(alloc, Rest::Any))
}

// Every object, if they are wanted.
pub(crate) fn any_object(alloc: Global, wanted: bool) -> Option<ObjectPart>
    ensures { object_of result ≡ object_if wanted }
{
    wanted.then_some(ObjectPart::of_rest(alloc, Rest::Any))
}

impl ListPart {
    // Arrays of which no place is known by itself.
    pub(crate) fn of_rest(alloc: Global, rest: Rest) -> ListPart
        ensures { list_of (Some result) ≡ list_with no_places (rest_of rest) }
    {
        ListPart {
            places: Kinds {
                kinds: Vec::new(alloc),
            },
            rest,
        }
    }
}

impl ObjectPart {
    // Objects of which no field is known by itself.
    pub(crate) fn of_rest(alloc: Global, rest: Rest) -> ObjectPart
        ensures { object_of (Some result) ≡ object_with no_fields (rest_of rest) }
    {
        ObjectPart {
            fields: KindFields {
                fields: Vec::new(alloc),
            },
            rest,
        }
    }
}

/// Each kind is in the one form that its tags have. This takes no time: it is a law of the type.
pub fn kind_is_canonical(kind: &Kind)
    ensures { IsCanonical kind.now }
{
    let _scalars = &kind.scalars;
}

/// Whether the kind allows the tag at its root. It takes no memory.
pub fn has(kind: &Kind, tag: Tag) -> bool
    ensures { result ≡ tags_at kind.now [] tag }
{
    match tag {
        Tag::Text => kind.scalars.string,
        Tag::Int => kind.scalars.integer,
        Tag::Bool => kind.scalars.boolean,
        Tag::Null => kind.scalars.null,
        Tag::Time => kind.scalars.timestamp,
        Tag::Pattern => kind.scalars.regex,
        Tag::List => kind.list.is_some(),
        Tag::Object => kind.object.is_some(),
        Tag::Absent => kind.scalars.absent,
    }
}

/// What the kind knows of arrays: the kinds of the first places, and what stands at each place
/// behind. `None`: it allows no array. It takes no memory.
pub fn list_part(kind: &Kind) -> Option<(&Kinds, &Rest)>
    ensures { MatchOption result (list_tree kind.now ≡ no_list)
        (λ part. list_tree kind.now ≡ list_with (places_of part.0.now) (rest_of part.1.now)) }
{
    match &kind.list {
        None => None,
        Some(part) => Some((&part.places, &part.rest)),
    }
}

/// What the kind knows of objects: the kinds of the known fields, and what stands at each other
/// field. `None`: it allows no object. It takes no memory.
pub fn object_part(kind: &Kind) -> Option<(&KindFields, &Rest)>
    ensures { MatchOption result (object_tree kind.now ≡ no_object)
        (λ part. object_tree kind.now ≡ object_with (fields_of part.0.now) (rest_of part.1.now)) }
{
    match &kind.object {
        None => None,
        Some(part) => Some((&part.fields, &part.rest)),
    }
}

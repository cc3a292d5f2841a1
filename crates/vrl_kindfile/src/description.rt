ghost use Rattle.std.specs.Prelude.{◌≡◌, ◌≤◌, ◌+◌, ◌++◌, [], ◌∷◌, false, length, true, List, None, Some, IfErr, IfOk, IsOk, OnOk};
ghost use Rattle.vrl_value.specs.Look.{Step};
ghost use Rattle.vrl_value.specs.Tree.{array, object, string};
ghost use Rattle.vrl_value.specs.View.{items_of, items_view, members_of, tree_of};
ghost use Rattle.vrl_kind.specs.KindTree.{exact};
ghost use Rattle.vrl_kind.specs.Kinds.{or_absent, tags_at};
ghost use Rattle.vrl_kind.specs.View.{rest_of};
ghost use Rattle.vrl_kindfile.specs.Faults.{as_description, as_fields, as_part, as_places, faults, fits, items_faults, members_faults};
ghost use Rattle.vrl_kindfile.specs.Shapes.{arrays, is_nothing, objects};
ghost use Rattle.vrl_kindfile.specs.Walk.{AreAlternatives, AreFields, AreKnownFields, AreKnownPlaces, ArePlaces, given, IsDescription, IsHere, IsPart, IsRefusal, IsRestOf, IsShape, rest_faults, shape_faults};

use crate::container::{Container, container_in, optional_part};
use crate::file::PLACE_LIMIT;
use crate::pointer::{refused_here, under_name, under_place};
use crate::refusal::Refusal;
use crate::word::word_kind;
use std::alloc::Global;
use vrl_kind::{Kind, Rest, join};
use vrl_value::{Chars, Fields, Items, Memory, Value};

/// The kind of a description. Where the value itself is none, that is the refusal, and no memory is wanted for it.
#[cycle(describe)]
pub(crate) fn description(alloc: Global, value: &Value) -> Result<Kind, Refusal>
    ensures kind { IfOk result (IsDescription (tree_of value.now)) }
    ensures fault { IfErr result (IsRefusal (faults as_description (tree_of value.now))) }
    ensures own { fits as_description (tree_of value.now) ≡ false → IfErr result IsHere }
{
    match value {
        Value::Text(word) => named_kind(alloc, word.as_str()),
        Value::List(items) => joined(alloc, items),
        Value::Object(fields) => containers(alloc, fields),
        _ => Err(refused_here(alloc)),
    }
}

fn named_kind(alloc: Global, word: &str) -> Result<Kind, Refusal>
    ensures kind { IfOk result (IsDescription (string word.now)) }
    ensures fault { IfErr result (IsRefusal (faults as_description (string word.now))) }
    ensures own { fits as_description (string word.now) ≡ false → IfErr result IsHere }
{
    match word_kind(alloc, word) {
        Some(kind) => Ok(kind),
        None => Err(refused_here(alloc)),
    }
}

// The join of the kinds of one description or more.
#[cycle(describe)]
fn joined(alloc: Global, items: &Items) -> Result<Kind, Refusal>
    ensures kind { IfOk result (IsDescription (array (items_of items.now))) }
    ensures fault { IfErr result (IsRefusal (faults as_description (array (items_of items.now)))) }
    ensures own { fits as_description (array (items_of items.now)) ≡ false → IfErr result IsHere }
{
    let items = items.as_slice();
    if items.is_empty() {
        return Err(refused_here(alloc));
    }
    joined_from(alloc, items, 0)
}

// The same of the items from this place on.
#[cycle(describe)]
fn joined_from(alloc: Global, items: &[Value], from: usize) -> Result<Kind, Refusal>
    requires some { 1 ≤ length items.now }
    requires room { from + length items.now ≤ usize.MAX }
    ensures kind { IfOk result (AreAlternatives from (items_view items.now)) }
    ensures fault { IfErr result (IsRefusal (items_faults as_description from (items_view items.now))) }
{
    if let [only] = items {
        return match description(alloc, only) {
            Ok(kind) => Ok(kind),
            Err(refusal) => Err(under_place(alloc, from, refusal)),
        };
    }
    halves(alloc, items, from)
}

// The same of two items or more. The kinds of halves are joined, so that no kind is walked once for each item.
#[cycle(describe)]
fn halves(alloc: Global, items: &[Value], from: usize) -> Result<Kind, Refusal>
    requires some { 2 ≤ length items.now }
    requires room { from + length items.now ≤ usize.MAX }
    ensures kind { IfOk result (AreAlternatives from (items_view items.now)) }
    ensures fault { IfErr result (IsRefusal (items_faults as_description from (items_view items.now))) }
{
    let (front, back) = items.split_at(items.len() / 2);
    let first = joined_from(alloc, front, from)?;
    let second = joined_from(alloc, back, from + front.len())?;
    Ok(join(alloc, &first, &second)?)
}

#[cycle(describe)]
fn containers(alloc: Global, fields: &Fields) -> Result<Kind, Refusal>
    ensures kind { IfOk result (IsDescription (object (members_of fields.now))) }
    ensures fault { IfErr result (IsRefusal (faults as_description (object (members_of fields.now)))) }
    ensures own { fits as_description (object (members_of fields.now)) ≡ false → IfErr result IsHere }
{
    match container_in(fields) {
        None => Err(refused_here(alloc)),
        Some(Container::Arrays(places, rest)) => arrays(alloc, places, rest),
        Some(Container::Objects(parts, rest)) => objects(alloc, parts, rest),
    }
}

#[cycle(describe)]
fn arrays(alloc: Global, places: &Value, rest: Option<&Value>) -> Result<Kind, Refusal>
    ensures kind { IfOk result (IsShape (arrays (tree_of places.now) (given rest.entry))) }
    ensures fault { IfErr result (IsRefusal (shape_faults (arrays (tree_of places.now) (given rest.entry)))) }
{
    let known = match places_in(alloc, places) {
        Ok(known) => known,
        Err(refusal) => return Err(under_name(alloc, "array", refusal)),
    };
    let rest = rest_in(alloc, rest)?;
    Ok(Kind::list(alloc, known, rest)?)
}

#[cycle(describe)]
fn objects(alloc: Global, fields: &Value, rest: Option<&Value>) -> Result<Kind, Refusal>
    ensures kind { IfOk result (IsShape (objects (tree_of fields.now) (given rest.entry))) }
    ensures fault { IfErr result (IsRefusal (shape_faults (objects (tree_of fields.now) (given rest.entry)))) }
{
    let known = match fields_in(alloc, fields) {
        Ok(known) => known,
        Err(refusal) => return Err(under_name(alloc, "object", refusal)),
    };
    let rest = rest_in(alloc, rest)?;
    Ok(Kind::object(alloc, known, rest)?)
}

#[cycle(describe)]
fn places_in(alloc: Global, value: &Value) -> Result<Vec<Kind>, Refusal>
    ensures kind { IfOk result (λ known. ArePlaces (tree_of value.now) known.items) }
    ensures fault { IfErr result (IsRefusal (faults as_places (tree_of value.now))) }
    ensures own { fits as_places (tree_of value.now) ≡ false → IfErr result IsHere }
{
    match value {
        Value::List(items) if items.len() <= PLACE_LIMIT => known_places(alloc, items),
        _ => Err(refused_here(alloc)),
    }
}

#[cycle(describe)]
fn known_places(alloc: Global, items: &Items) -> Result<Vec<Kind>, Refusal>
    ensures kind { IfOk result (λ known. AreKnownPlaces (items_of items.now) known.items) }
    ensures fault { IfErr result (IsRefusal (items_faults as_part 0 (items_of items.now))) }
{
    let mut known = Vec::new(alloc);
    for (place, item) in items.as_slice().iter().enumerate() {
        match part(alloc, item) {
            Ok(kind) => push_place(&mut known, kind)?,
            Err(refusal) => return Err(under_place(alloc, place, refusal)),
        }
    }
    Ok(known)
}

fn push_place(known: &mut Vec<Kind>, kind: Kind) -> Result<(), Memory>
    ensures { OnOk result (known.new.items ≡ known.old.items ++ kind ∷ []) }
{
    Ok(known.push(kind)?)
}

#[cycle(describe)]
fn fields_in(alloc: Global, value: &Value) -> Result<Vec<(Chars, Kind)>, Refusal>
    ensures kind { IfOk result (λ known. AreFields (tree_of value.now) known.items) }
    ensures fault { IfErr result (IsRefusal (faults as_fields (tree_of value.now))) }
    ensures own { fits as_fields (tree_of value.now) ≡ false → IfErr result IsHere }
{
    match value {
        Value::Object(fields) => known_fields(alloc, fields),
        _ => Err(refused_here(alloc)),
    }
}

#[cycle(describe)]
fn known_fields(alloc: Global, fields: &Fields) -> Result<Vec<(Chars, Kind)>, Refusal>
    ensures kind { IfOk result (λ known. AreKnownFields (members_of fields.now) known.items) }
    ensures fault { IfErr result (IsRefusal (members_faults as_fields (members_of fields.now))) }
{
    let mut known = Vec::new(alloc);
    for (name, value) in fields.as_map().iter() {
        match part(alloc, value) {
            Ok(kind) => push_field(alloc, &mut known, name.as_str(), kind)?,
            Err(refusal) => return Err(under_name(alloc, name.as_str(), refusal)),
        }
    }
    Ok(known)
}

fn push_field(
    alloc: Global,
    known: &mut Vec<(Chars, Kind)>,
    name: &str,
    kind: Kind,
) -> Result<(), Memory>
    ensures { OnOk result (known.new.items ≡ known.old.items ++ (name.now, kind) ∷ []) }
{
    let name = Chars::copy_of(alloc, name)?;
    Ok(known.push((name, kind))?)
}

// The kind of a known part.
#[cycle(describe)]
fn part(alloc: Global, value: &Value) -> Result<Kind, Refusal>
    ensures kind { IfOk result (IsPart (tree_of value.now)) }
    ensures fault { IfErr result (IsRefusal (faults as_part (tree_of value.now))) }
    ensures own { fits as_part (tree_of value.now) ≡ false → IfErr result IsHere }
{
    match optional_part(value) {
        None => description(alloc, value),
        Some(held) => match description(alloc, held) {
            Ok(kind) => Ok(or_absent(alloc, kind)?),
            Err(refusal) => Err(under_name(alloc, "optional", refusal)),
        },
    }
}

// The kind, which may be absent besides.
fn or_absent(alloc: Global, kind: Kind) -> Result<Kind, Memory>
    ensures { IfOk result (λ part. (p : List Step) → tags_at part p ≡ or_absent p (tags_at kind p)) }
{
    Rest::Exact(Box::new(alloc, kind)?).kind(alloc)
}

// What stands at the other parts, where the value of `rest` is this.
#[cycle(describe)]
fn rest_in(alloc: Global, value: Option<&Value>) -> Result<Rest, Refusal>
    ensures kind { IfOk result (λ rest. IsRestOf (given value.entry) (rest_of rest)) }
    ensures fault { IfErr result (IsRefusal (rest_faults (given value.entry))) }
    ensures none { given value.entry ≡ None → IsOk result }
{
    match value {
        None => Ok(Rest::Json),
        Some(value) => rest_given(alloc, value),
    }
}

#[cycle(describe)]
fn rest_given(alloc: Global, value: &Value) -> Result<Rest, Refusal>
    ensures kind { IfOk result (λ rest. IsRestOf (Some (tree_of value.now)) (rest_of rest)) }
    ensures fault { IfErr result (IsRefusal (rest_faults (Some (tree_of value.now)))) }
    ensures nothing { is_nothing (tree_of value.now) ≡ true → IsOk result }
{
    if is_nothing(value) {
        return Ok(Rest::Nothing);
    }
    match description(alloc, value) {
        Ok(kind) => Ok(exactly(alloc, kind)?),
        Err(refusal) => Err(under_name(alloc, "rest", refusal)),
    }
}

fn exactly(alloc: Global, kind: Kind) -> Result<Rest, Memory>
    ensures { IfOk result (λ rest. rest_of rest ≡ exact kind) }
{
    Ok(Rest::Exact(Box::new(alloc, kind)?))
}

fn is_nothing(value: &Value) -> bool
    ensures { result ≡ is_nothing (tree_of value.now) }
{
    match value {
        Value::Text(word) => word.as_str() == "nothing",
        _ => false,
    }
}

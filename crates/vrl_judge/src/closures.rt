ghost use Rattle.std.specs.Prelude.{[], bytes_eq, codes, length, true, ◌≢◌, ◌≡◌, All, IfOk, IsOk, OnOk, Option};
ghost use Rattle.vrl_builtin.specs.Containers.{object_of as objects_of};
ghost use Rattle.vrl_judge.specs.Bodies.{AreBound, IsBound};
ghost use Rattle.vrl_judge.specs.ChangedParts.{kept_field, kept_place, put_part, put_place, with_places, AreFieldsMade, ArePlacesMade};
ghost use Rattle.vrl_judge.specs.Closures.{call_at, filtered_at, first_try, held_of, is_possible as is_possible_kind, is_wrong_body as is_wrong_value, key_tags, mapped_at, mapped_part as part_mapped, second_try, ClosureBody, IsBodyEndAs, IsBodyEntered, IsNextTry, IsTakenBack};
ghost use Rattle.vrl_judge.specs.Judging.{HasJudged, IsInBlock, IsMoved};
ghost use Rattle.vrl_judge.specs.Rules.{scalars_at, Judgement};
ghost use Rattle.vrl_judge.specs.declared.checker.Checker.{Checker as SpecChecker};
ghost use Rattle.vrl_kind.specs.KindTree.{exact};
ghost use Rattle.vrl_kind.specs.Kinds.{rest_at, root_tags, tags_at};
ghost use Rattle.vrl_kind.specs.PartSets.{parts_at};
ghost use Rattle.vrl_kind.specs.Sets.{SameSets};
ghost use Rattle.vrl_kind.specs.View.{rest_of};
ghost use Rattle.vrl_place.specs.Sets.{is_alone};
ghost use Rattle.vrl_state.specs.States.{IsCutOf, IsPresent, IsRootKind, RootMap};
ghost use Rattle.vrl_syntax.specs.Written.{exprs_write};

use crate::checker::Checker;
use crate::finding::Finding;
use crate::kinds::{cut, either, has_alone};
use crate::shared_kind::SharedKind;
use crate::tables::kind_where;
use crate::values::add_field;
use std::alloc::Global;
use vrl_builtin::{array_parts, object_of};
use vrl_kind::{
    Kind, KindField, Rest, TAGS, has, kind_is_canonical, list_part, object_part, parts,
};
use vrl_state::{Branch, State};
use vrl_syntax::{CallForm, Roots};
use vrl_value::{Chars, Memory, Names, Tag};

/// The kind of the keys of a collection, cut: texts in an object, whole numbers in an array.
/// `Memory`: want of memory.
pub fn key_kind(alloc: Global, collection: &Kind) -> Result<SharedKind, Memory>
    ensures kind { IfOk result (IsCutOf (scalars_at (key_tags collection.now))) }
    ensures root { IfOk result IsRootKind }
{
    let text = kind_where(alloc, has(collection, Tag::Object), Tag::Text);
    let integer = kind_where(alloc, has(collection, Tag::List), Tag::Int);
    either(alloc, &text, &integer)
}

/// The kind of the parts of a collection, cut. `Memory`: want of memory.
pub fn value_kind(alloc: Global, collection: &Kind) -> Result<SharedKind, Memory>
    ensures kind { IfOk result (IsCutOf (parts_at collection.now)) }
    ensures root { IfOk result IsRootKind }
{
    let all = parts(alloc, collection)?;
    kind_is_canonical(&all);
    cut(alloc, all)
}

/// Whether the kind allows some tag. It takes no memory.
pub fn is_possible(kind: &Kind) -> bool
    ensures { result ≡ is_possible_kind kind.now }
{
    TAGS.iter().any(|tag| has(kind, *tag))
}

/// The kind of the value of a call with a closure, cut, from those of its collection and of the
/// closure's body. `Memory`: want of memory.
pub fn call_kind(
    alloc: Global,
    form: CallForm,
    collection: &Kind,
    body: &Kind,
) -> Result<SharedKind, Memory>
    ensures kind { IfOk result (IsCutOf (call_at form collection.now body.now)) }
    ensures root { IsPresent collection.now → IfOk result IsRootKind }
{
    let whole = whole_kind(alloc, form, collection, body)?;
    kind_is_canonical(&whole);
    cut(alloc, whole)
}

// The same, whole.
fn whole_kind(alloc: Global, form: CallForm, collection: &Kind, body: &Kind) -> Result<Kind, Memory>
    ensures { IfOk result (λ kind. SameSets (tags_at kind) (call_at form collection.now body.now)) }
{
    match form {
        CallForm::ForEach => Ok(Kind::of(alloc, Tag::Null)),
        CallForm::Filter => filtered(alloc, collection),
        CallForm::MapValues => mapped(alloc, collection, body),
        CallForm::MapKeys => renamed(alloc, collection),
        CallForm::Del => Ok(Kind::never()),
        CallForm::Exists => Ok(Kind::never()),
    }
}

// What a filter leaves of a collection: each field may be gone, and any part may stand at each
// place.
fn filtered(alloc: Global, collection: &Kind) -> Result<Kind, Memory>
    ensures { IfOk result (λ kind. SameSets (tags_at kind) (filtered_at collection.now)) }
{
    let lists = filtered_lists(alloc, collection)?;
    match object_part(collection) {
        None => Ok(lists),
        Some((fields, rest)) => {
            let known = filtered_fields(alloc, fields.as_slice())?;
            let behind = rest.copy(alloc)?;
            lists.with_object(alloc, known, behind)
        }
    }
}

// The collection with what a filter leaves of its arrays.
fn filtered_lists(alloc: Global, collection: &Kind) -> Result<Kind, Memory>
    ensures { IfOk result (λ kind. SameSets (tags_at kind) (with_places collection.now (kept_place collection.now))) }
{
    if !has(collection, Tag::List) {
        return collection.copy(alloc);
    }
    let part = array_parts(alloc, collection)?;
    let rest = exactly(alloc, part)?;
    collection.with_list(alloc, Vec::new(alloc), rest)
}

// What a filter leaves of known fields: each may be gone.
fn filtered_fields(alloc: Global, fields: &[KindField]) -> Result<Vec<(Chars, Kind)>, Memory>
    ensures { IfOk result (λ known. AreFieldsMade kept_field fields.now known.items) }
{
    let mut known = Vec::with_capacity(alloc, fields.len())?;
    let mut left = fields;
    while let Some((last, others)) = left.split_last() {
        let kind = last.kind.copy(alloc)?.or_absent();
        add_field(&mut known, alloc, &last.name, kind)?;
        left = others;
    }
    Ok(known)
}

// A collection with values of the body's kind in place of its parts.
fn mapped(alloc: Global, collection: &Kind, body: &Kind) -> Result<Kind, Memory>
    ensures { IfOk result (λ kind. SameSets (tags_at kind) (mapped_at collection.now body.now)) }
{
    let lists = mapped_lists(alloc, collection, body)?;
    match object_part(collection) {
        None => Ok(lists),
        Some((fields, rest)) => {
            let known = mapped_fields(alloc, fields.as_slice(), body)?;
            let behind = mapped_rest(alloc, rest, body)?;
            lists.with_object(alloc, known, behind)
        }
    }
}

// The collection with such values in its arrays.
fn mapped_lists(alloc: Global, collection: &Kind, body: &Kind) -> Result<Kind, Memory>
    ensures { IfOk result
        (λ kind. SameSets (tags_at kind) (with_places collection.now (put_place collection.now body.now))) }
{
    match list_part(collection) {
        None => collection.copy(alloc),
        Some((places, rest)) => {
            let known = mapped_places(alloc, places.as_slice(), body)?;
            let behind = mapped_rest(alloc, rest, body)?;
            collection.with_list(alloc, known, behind)
        }
    }
}

// Such a value in place of each known place.
fn mapped_places(alloc: Global, places: &[Kind], body: &Kind) -> Result<Vec<Kind>, Memory>
    ensures { IfOk result (λ kinds. ArePlacesMade (put_part body.now) places.now kinds.items) }
{
    let mut kinds = Vec::with_capacity(alloc, places.len())?;
    for place in places {
        let kind = mapped_part(alloc, place, body)?;
        kinds.push(kind)?;
    }
    Ok(kinds)
}

// Such a value in place of each known field.
fn mapped_fields(
    alloc: Global,
    fields: &[KindField],
    body: &Kind,
) -> Result<Vec<(Chars, Kind)>, Memory>
    ensures { IfOk result (λ known. AreFieldsMade (put_part body.now) fields.now known.items) }
{
    let mut known = Vec::with_capacity(alloc, fields.len())?;
    let mut left = fields;
    while let Some((last, others)) = left.split_last() {
        let kind = mapped_part(alloc, &last.kind, body)?;
        add_field(&mut known, alloc, &last.name, kind)?;
        left = others;
    }
    Ok(known)
}

// Such a value in place of what stands where nothing is known by itself.
fn mapped_rest(alloc: Global, rest: &Rest, body: &Kind) -> Result<Rest, Memory>
    ensures { IfOk result
        (λ put. SameSets (rest_at (rest_of put)) (part_mapped (rest_at (rest_of rest.now) []) body.now)) }
{
    let own = rest.kind(alloc)?;
    let kind = mapped_part(alloc, &own, body)?;
    exactly(alloc, kind)
}

// Such a value in place of a part: one that is never there stays so, and one that may be absent
// still may.
fn mapped_part(alloc: Global, part: &Kind, body: &Kind) -> Result<Kind, Memory>
    ensures put { IfOk result (λ kind. SameSets (tags_at kind) (put_part body.now part.now)) }
    ensures none { is_alone (root_tags part.now) Tag.Absent ≡ true → IsOk result }
{
    if has_alone(part, Tag::Absent) {
        return Ok(Kind::of(alloc, Tag::Absent));
    }
    let kind = body.copy(alloc)?;
    if has(part, Tag::Absent) {
        Ok(kind.or_absent())
    } else {
        Ok(kind)
    }
}

// The objects with any part of the collection at any name.
fn renamed(alloc: Global, collection: &Kind) -> Result<Kind, Memory>
    ensures { IfOk result (λ kind. SameSets (tags_at kind) (objects_of (parts_at collection.now))) }
{
    let all = parts(alloc, collection)?;
    object_of(alloc, all)
}

// Each part is of this kind, or absent.
fn exactly(alloc: Global, kind: Kind) -> Result<Rest, Memory>
    ensures { IfOk result (λ rest. rest_of rest ≡ exact kind) }
{
    Ok(Rest::Exact(Box::new(alloc, kind)?))
}

impl Checker<'_> {
    /// Begins the body of a closure: a scope is open, in which each of its names has its kind and
    /// hides what was known of a variable of that name; `_` takes none. `Memory`: want of memory.
    pub fn enter_body(&mut self, names: &Names, kinds: &[SharedKind]) -> Result<(), Memory>
        requires count { length names.now ≡ length kinds.now }
        requires kinds { All IsRootKind kinds.now }
        ensures { OnOk result (IsBodyEntered names.now kinds.now self.old self.new) }
    {
        self.state.enter()?;
        bind_all(&mut self.state, names.as_slice(), kinds)
    }

    /// Ends the body of a closure, behind its items: its names end, and those that it hid have the
    /// kinds again that they had. `Memory`: want of memory.
    pub fn end_body(&mut self, part: Finding) -> Result<Finding, Memory>
        requires { IsInBlock self.old part }
        ensures { IfOk result (λ finding. IsBodyEndAs part self.old self.new finding) }
    {
        let mut part = part;
        self.state.leave()?;
        part.ends.leave()?;
        Ok(part)
    }

    /// What is known at the second try at a body that writes these roots, from what is known here,
    /// at the first, and behind the body: each of the roots keeps its outer tags alone. `Memory`:
    /// want of memory.
    pub fn widened(&mut self, behind: Branch, roots: &Roots) -> Result<(), Memory>
        requires { behind.scopes ≡ self.old.state.scopes }
        ensures known { OnOk result
            ((b : ClosureBody) → exprs_write b.items ≡ roots.now
            → IsNextTry first_try b self.old.state.known behind.known self.new.state.known) }
        ensures others { IsMoved self.old self.new }
    {
        self.state.join(&behind)?;
        self.state.flatten(roots)
    }

    /// What is known at the third try at a body that writes these roots, from what is known here,
    /// at the second: of each of the roots nothing is known but that it is there. `Memory`: want of
    /// memory.
    pub fn forgotten(&mut self, roots: &Roots) -> Result<(), Memory>
        ensures known { OnOk result
            ((b : ClosureBody) (behind : Option RootMap) → exprs_write b.items ≡ roots.now
            → IsNextTry second_try b self.old.state.known behind self.new.state.known) }
        ensures others { IsMoved self.old self.new }
    {
        self.state.forget(roots)
    }

    /// Whether the body of a closure, which was judged last, gives what is wrong for the function:
    /// a filter's isn't exactly a boolean, or one that gives keys isn't exactly a text.
    pub fn is_wrong_body(&self, form: CallForm, part: &Finding) -> bool
        ensures { (before : SpecChecker) (j : Judgement) → HasJudged before self.now part.now j
            → result ≡ is_wrong_value form j }
    {
        match form {
            CallForm::Filter => self.is_other(Tag::Bool, part),
            CallForm::MapKeys => self.is_other(Tag::Text, part),
            CallForm::ForEach => false,
            CallForm::MapValues => false,
            CallForm::Del => false,
            CallForm::Exists => false,
        }
    }
}

// Gives each name its kind in the innermost scope, in order.
fn bind_all(state: &mut State, names: &[Chars], kinds: &[SharedKind]) -> Result<(), Memory>
    requires entered { state.old.scopes ≢ [] }
    requires kinds { All IsRootKind kinds.now }
    ensures { OnOk result (AreBound names.now kinds.now state.old state.new) }
{
    let mut left = names;
    let mut kinds_left = kinds;
    while let Some((name, others)) = left.split_first() {
        let Some((kind, behind)) = kinds_left.split_first() else {
            return Ok(());
        };
        bind(state, name, kind.as_kind())?;
        left = others;
        kinds_left = behind;
    }
    Ok(())
}

// Gives a name its kind in the innermost scope; `_` takes none.
fn bind(state: &mut State, name: &Chars, kind: &Kind) -> Result<(), Memory>
    requires entered { state.old.scopes ≢ [] }
    requires kind { IsRootKind kind.now }
    ensures bound { OnOk result (IsBound name.now kind.now state.old state.new) }
    ensures entered { OnOk result (state.new.scopes ≢ []) }
{
    if is_blank(name) {
        return Ok(());
    }
    state.hide(name, kind)
}

fn is_blank(name: &Chars) -> bool
    ensures { result ≡ bytes_eq name.now (codes "_") }
{
    name.as_str() == "_"
}

/// How much was gathered at a place, so that what is gathered behind it can be let go.
#[derive(Clone, Copy)]
pub struct Held {
    /// How many codes.
    pub diagnostics: usize,
    /// How many tags of empty values.
    pub empties: usize,
    /// How many closures.
    pub loops: usize,
}

impl Checker<'_> {
    /// How much was gathered so far.
    pub fn held(&self) -> Held
        ensures { result ≡ held_of self.now }
    {
        Held {
            diagnostics: self.diagnostics.len(),
            empties: self.empties.len(),
            loops: self.loops.len(),
        }
    }

    /// Lets go what was gathered since.
    pub fn take_back(&mut self, held: Held)
        ensures { IsTakenBack held self.old self.new }
    {
        self.diagnostics.truncate(held.diagnostics);
        self.empties.truncate(held.empties);
        self.loops.truncate(held.loops);
    }
}

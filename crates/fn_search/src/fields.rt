ghost use Rattle.std.specs.Prelude.{◌≡◌, [], IfOk, IfSome, IsOk, None, OnOk, decimal, option_map};
ghost use Rattle.vrl_value.specs.Tree.{no_members, object, put};
ghost use Rattle.vrl_value.specs.View.{members_of, tree_of};
ghost use Rattle.vrl_kind.specs.Kinds.{tags_at};
ghost use Rattle.vrl_kind.specs.Sets.{SameSets};
ghost use Rattle.vrl_pattern.specs.Places.{place_span, place_spans, AreParts, IsPart};
ghost use Rattle.fn_search.specs.Fields.{fields, fields_kind, first_group, later_groups, named_kind, text_or_null, text_or_null_kind, with_named, with_names, with_numbers};
ghost use Rattle.fn_search.specs.Known.{AreKnown, IsOneMore};

use std::alloc::Global;
use std::collections::BTreeMap;
use vrl_builtin::{either_tag, object_of};
use vrl_kind::{Kind, Rest};
use vrl_pattern::Place;
use vrl_value::{Chars, Fields, Memory, Tag, Value};

// The text of a part of a text, or null, which takes no memory. `Memory`: out of memory.
fn text_or_null(alloc: Global, text: &str, place: Option<Place>) -> Result<Value, Memory>
    requires { IfSome place (λ place. IsPart text.now (place_span place)) }
    ensures value { IfOk result (λ value. tree_of value ≡ text_or_null text.now (option_map place_span place)) }
    ensures null { place ≡ None → IsOk result }
{
    match place {
        Some(place) => {
            let part = &text[place.start..place.end];
            Ok(Value::Text(Chars::copy_of(alloc, part)?))
        }
        None => Ok(Value::Null),
    }
}

// Puts a value at a name, unless that is empty, which takes no memory. `Memory`: out of memory.
fn put_named(alloc: Global, fields: &mut Fields, name: &Chars, value: Value) -> Result<(), Memory>
    ensures fields { OnOk result (members_of fields.new ≡ with_named name.now (tree_of value) (members_of fields.old)) }
    ensures nameless { name.now ≡ [] → IsOk result }
{
    if name.as_str().is_empty() {
        return Ok(());
    }
    fields.insert(name.copy(alloc)?, value)
}

// Where the first of these groups lies. `None`: it took no part, or there is none.
fn first_group(groups: &[Option<Place>]) -> Option<Place>
    ensures { option_map place_span result ≡ first_group (place_spans groups.now) }
{
    match groups.split_first() {
        Some((first, _)) => *first,
        None => None,
    }
}

// The groups behind the first.
fn later_groups(groups: &[Option<Place>]) -> &[Option<Place>]
    ensures { place_spans result.now ≡ later_groups (place_spans groups.now) }
{
    match groups.split_first() {
        Some((_, later)) => later,
        None => groups,
    }
}

// Puts the text of the first of these groups at a name, unless that is empty. `Memory`: want of
// memory.
fn put_first(
    alloc: Global,
    fields: &mut Fields,
    name: &Chars,
    text: &str,
    groups: &[Option<Place>],
) -> Result<(), Memory>
    requires { AreParts text.now (place_spans groups.now) }
    ensures { OnOk result
        (members_of fields.new ≡ with_named name.now (text_or_null text.now (first_group (place_spans groups.now)))
        (members_of fields.old)) }
{
    let value = text_or_null(alloc, text, first_group(groups))?;
    put_named(alloc, fields, name, value)
}

// The fields that the names make. `Memory`: want of memory.
fn with_names(
    alloc: Global,
    names: &[Chars],
    text: &str,
    groups: &[Option<Place>],
) -> Result<Fields, Memory>
    requires { AreParts text.now (place_spans groups.now) }
    ensures { IfOk result
        (λ fields. members_of fields ≡ with_names names.now text.now (place_spans groups.now) no_members) }
{
    let mut fields = Fields::new(BTreeMap::new(alloc));
    let mut names_left = names;
    let mut left = groups;
    while let Some((name, others)) = names_left.split_first() {
        put_first(alloc, &mut fields, name, text, left)?;
        names_left = others;
        left = later_groups(left);
    }
    Ok(fields)
}

// Puts the text of the first of these groups at a number. `Memory`: want of memory.
fn put_numbered(
    alloc: Global,
    fields: &mut Fields,
    number: usize,
    text: &str,
    groups: &[Option<Place>],
) -> Result<(), Memory>
    requires { AreParts text.now (place_spans groups.now) }
    ensures { OnOk result
        (members_of fields.new ≡ put (decimal number) (text_or_null text.now (first_group (place_spans groups.now)))
        (members_of fields.old)) }
{
    let value = text_or_null(alloc, text, first_group(groups))?;
    let name = format!(in alloc; "{number}")?;
    fields.insert(Chars::new(name), value)
}

// The fields with those that the numbers make. `Memory`: want of memory.
fn with_numbers(
    alloc: Global,
    fields: &mut Fields,
    text: &str,
    groups: &[Option<Place>],
) -> Result<(), Memory>
    requires { AreParts text.now (place_spans groups.now) }
    ensures { OnOk result
        (members_of fields.new ≡ with_numbers 0 text.now (place_spans groups.now) (members_of fields.old)) }
{
    let mut number: usize = 0;
    let mut left = groups;
    while number < groups.len() {
        put_numbered(alloc, fields, number, text, left)?;
        number += 1;
        left = later_groups(left);
    }
    Ok(())
}

/// The object of a match: the text of each group that has a name there, and, where these are
/// wanted, that of each group at its number. `Memory`: want of memory.
pub(crate) fn match_object(
    alloc: Global,
    names: &[Chars],
    numbered: bool,
    text: &str,
    groups: &[Option<Place>],
) -> Result<Value, Memory>
    requires { AreParts text.now (place_spans groups.now) }
    ensures { IfOk result
        (λ value. tree_of value ≡ object (fields names.now numbered text.now (place_spans groups.now))) }
{
    let mut made = with_names(alloc, names, text, groups)?;
    if numbered {
        with_numbers(alloc, &mut made, text, groups)?;
    }
    Ok(Value::Object(made))
}

// ---- the kind

// A text or null. `Memory`: want of memory.
fn text_or_null_kind(alloc: Global) -> Result<Kind, Memory>
    ensures { IfOk result (λ kind. SameSets (tags_at kind) text_or_null_kind) }
{
    either_tag(alloc, Tag::Text, Tag::Null)
}

// Puts a field behind the others whose name isn't empty. `Memory`: want of memory.
fn push_known(alloc: Global, known: &mut Vec<(Chars, Kind)>, name: &Chars) -> Result<(), Memory>
    ensures { OnOk result (IsOneMore name.now known.old.items known.new.items) }
{
    if name.as_str().is_empty() {
        return Ok(());
    }
    known.push((name.copy(alloc)?, text_or_null_kind(alloc)?))?;
    Ok(())
}

// A text or null in the field of each name that isn't empty. `Memory`: want of memory.
fn known_fields(alloc: Global, names: &[Chars]) -> Result<Vec<(Chars, Kind)>, Memory>
    ensures { IfOk result (λ known. AreKnown names.now known.items) }
{
    let mut known = Vec::new(alloc);
    for name in names {
        push_known(alloc, &mut known, name)?;
    }
    Ok(known)
}

// An object with a text or null in the field of each name that isn't empty. `Memory`: want of
// memory.
fn named_kind(alloc: Global, names: &[Chars]) -> Result<Kind, Memory>
    ensures { IfOk result (λ kind. SameSets (tags_at kind) (named_kind names.now)) }
{
    let known = known_fields(alloc, names)?;
    Kind::object(alloc, known, Rest::Nothing)
}

/// The kind of the object of a match, whose groups have these names. `Memory`: want of memory.
pub(crate) fn fields_kind(alloc: Global, names: &[Chars], numbered: bool) -> Result<Kind, Memory>
    ensures { IfOk result (λ kind. SameSets (tags_at kind) (fields_kind names.now numbered)) }
{
    if numbered {
        let part = text_or_null_kind(alloc)?;
        return object_of(alloc, part);
    }
    named_kind(alloc, names)
}

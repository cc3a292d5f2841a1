ghost use Rattle.std.specs.Prelude.{◌≡◌, ◌&&◌, ℕ, List, ◌++◌, [], IfOk, MatchOption, OnOk, codes, Some, string_bytes};
ghost use Rattle.json.specs.Print.{quoted};
ghost use Rattle.vrl_kind.specs.Print.{absent_mark, field_words, is_any_kind, is_json_kind, is_never, is_rest, list_words, named_or, object_words, place_words, printed, rest_words, scalar_words, word_if, has_rests};
ghost use Rattle.vrl_kind.specs.Separated.{separated_after};
ghost use Rattle.vrl_kind.specs.KindTree.{RestTree, any_rest, json_rest};
ghost use Rattle.vrl_kind.specs.View.{fields_view, places_view, list_of, object_of, rest_of};

use crate::kind::{Kind, KindField, ListPart, ObjectPart, Rest};
use crate::scalars::Scalars;
use json::Writer;
use std::alloc::Global;
use vrl_value::{Chars, Memory};

/// The text of a kind, without absent at its root. `never`, `any` and `json` are these words. Else
/// its parts stand between `|`: the scalars, an array as `[integer, ?string, ..json]` with its
/// places and its rest, an object as `{"a"?: integer, ..any}` with its fields, as JSON strings (RFC
/// 8259), and its rest. A `?` says that the part may be absent. It takes the time of the text's
/// bytes. `Memory`: want of memory.
pub fn print(alloc: Global, kind: &Kind) -> Result<Chars, Memory>
    ensures { IfOk result (λ text. text ≡ printed kind.now) }
{
    let mut text = String::new(alloc);
    push_kind(alloc, &mut text, kind)?;
    Ok(Chars::new(text))
}

// Writes the text of a kind.
#[cycle(print)]
fn push_kind(alloc: Global, text: &mut String, kind: &Kind) -> Result<(), Memory>
    ensures { OnOk result (string_bytes text.new ≡ string_bytes text.old ++ printed kind.now) }
{
    if let Some(word) = whole_word(kind) {
        return Ok(text.push_str(word)?);
    }
    let before = push_scalars(text, kind.scalars)?;
    let before = push_list(alloc, text, before, &kind.list)?;
    push_object(alloc, text, before, &kind.object)
}

// The word for the whole kind. `None`: it has none.
fn whole_word(kind: &Kind) -> Option<&'static str>
    ensures { MatchOption result
        ((parts : List ℕ) → named_or kind.now parts ≡ parts)
        (λ word. (parts : List ℕ) → named_or kind.now parts ≡ word.now) }
{
    if is_nothing(kind) {
        return Some("never");
    }
    if is_anything(kind) {
        return Some("any");
    }
    if is_json(kind) {
        return Some("json");
    }
    None
}

// Writes the words for these scalars, in the order in which they are printed, and gives what stands
// before a part behind them.
fn push_scalars(text: &mut String, scalars: Scalars) -> Result<&'static str, Memory>
    ensures { IfOk result (λ before. (more : List (List ℕ))
        → string_bytes text.new ++ separated_after before.now (codes "|") more
        ≡ string_bytes text.old ++ separated_after [] (codes "|") (scalar_words scalars more)) }
{
    let before = push_if(text, "", scalars.string, "string")?;
    let before = push_if(text, before, scalars.integer, "integer")?;
    let before = push_if(text, before, scalars.boolean, "boolean")?;
    let before = push_if(text, before, scalars.null, "null")?;
    let before = push_if(text, before, scalars.timestamp, "timestamp")?;
    push_if(text, before, scalars.regex, "regex")
}

// Writes a word behind what stands before it, if it is wanted, and gives what stands before a part
// behind it.
fn push_if(
    text: &mut String,
    before: &'static str,
    wanted: bool,
    word: &str,
) -> Result<&'static str, Memory>
    ensures { IfOk result (λ next. (more : List (List ℕ))
        → string_bytes text.new ++ separated_after next.now (codes "|") more
        ≡ string_bytes text.old ++ separated_after before.now (codes "|") (word_if wanted word.now more)) }
{
    if !wanted {
        return Ok(before);
    }
    push_behind(text, before, word)?;
    Ok("|")
}

// Writes a word behind what stands before it.
fn push_behind(text: &mut String, before: &str, word: &str) -> Result<(), Memory>
    ensures { OnOk result (string_bytes text.new ≡ string_bytes text.old ++ (before.now ++ word.now)) }
{
    text.push_str(before)?;
    Ok(text.push_str(word)?)
}

// Writes what is known of arrays, and gives what stands before a part behind it.
#[cycle(print)]
fn push_list(
    alloc: Global,
    text: &mut String,
    before: &'static str,
    list: &Option<ListPart>,
) -> Result<&'static str, Memory>
    ensures { IfOk result (λ next. (more : List (List ℕ))
        → string_bytes text.new ++ separated_after next.now (codes "|") more
        ≡ string_bytes text.old ++ separated_after before.now (codes "|") (list_words (list_of list.now) more)) }
{
    let Some(list) = list else {
        return Ok(before);
    };
    push_behind(text, before, "[")?;
    let within = push_places(alloc, text, &list.places.kinds)?;
    push_rest(alloc, text, within, &list.rest)?;
    text.push_str("]")?;
    Ok("|")
}

// Writes what is known of objects.
#[cycle(print)]
fn push_object(
    alloc: Global,
    text: &mut String,
    before: &str,
    object: &Option<ObjectPart>,
) -> Result<(), Memory>
    ensures { OnOk result (string_bytes text.new
        ≡ string_bytes text.old ++ separated_after before.now (codes "|") (object_words (object_of object.now))) }
{
    let Some(object) = object else {
        return Ok(());
    };
    push_behind(text, before, "{")?;
    let within = push_fields(alloc, text, &object.fields.fields)?;
    push_rest(alloc, text, within, &object.rest)?;
    Ok(text.push_str("}")?)
}

// Writes the kinds of the places, and gives what stands before a part behind them.
#[cycle(print)]
fn push_places(alloc: Global, text: &mut String, kinds: &[Kind]) -> Result<&'static str, Memory>
    ensures { IfOk result (λ before. (more : List (List ℕ))
        → string_bytes text.new ++ separated_after before.now (codes ", ") more
        ≡ string_bytes text.old ++ separated_after [] (codes ", ") (place_words (places_view kinds.now) more)) }
{
    let mut before = "";
    for kind in kinds {
        push_behind(text, before, optional_mark(kind))?;
        push_kind(alloc, text, kind)?;
        before = ", ";
    }
    Ok(before)
}

// Writes the fields, and gives what stands before a part behind them.
#[cycle(print)]
fn push_fields(
    alloc: Global,
    text: &mut String,
    fields: &[KindField],
) -> Result<&'static str, Memory>
    ensures { IfOk result (λ before. (more : List (List ℕ))
        → string_bytes text.new ++ separated_after before.now (codes ", ") more
        ≡ string_bytes text.old ++ separated_after [] (codes ", ") (field_words (fields_view fields.now) more)) }
{
    let mut before = "";
    for field in fields {
        push_key(alloc, text, before, field)?;
        push_kind(alloc, text, &field.kind)?;
        before = ", ";
    }
    Ok(before)
}

// Writes the key of a field behind what stands before it: its name as a JSON string (RFC 8259,
// section 7), and whether it may be absent.
fn push_key(alloc: Global, text: &mut String, before: &str, field: &KindField) -> Result<(), Memory>
    ensures { OnOk result (string_bytes text.new
        ≡ string_bytes text.old ++ (before.now ++ (quoted field.now.name ++ (absent_mark field.now.kind ++ codes ": ")))) }
{
    let name = quote(alloc, field.name.as_str())?;
    push_behind(text, before, name.as_str())?;
    push_behind(text, optional_mark(&field.kind), ": ")
}

// Writes the rest, if there is one, behind what stands before it.
#[cycle(print)]
fn push_rest(alloc: Global, text: &mut String, before: &str, rest: &Rest) -> Result<(), Memory>
    ensures { OnOk result (string_bytes text.new
        ≡ string_bytes text.old ++ separated_after before.now (codes ", ") (rest_words (rest_of rest.now))) }
{
    match rest {
        Rest::Nothing => Ok(()),
        Rest::Json => push_behind(text, before, "..json"),
        Rest::Any => push_behind(text, before, "..any"),
        Rest::Exact(kind) => {
            push_behind(text, before, "..")?;
            push_kind(alloc, text, kind)
        }
    }
}

// The mark of a kind that allows a part to be absent.
fn optional_mark(kind: &Kind) -> &'static str
    ensures { result.now ≡ absent_mark kind.now }
{
    if kind.scalars.absent { "?" } else { "" }
}

// Whether the kind allows no value.
fn is_nothing(kind: &Kind) -> bool
    ensures { result ≡ is_never kind.now }
{
    let scalars = kind.scalars;
    !scalars.string
        && !scalars.integer
        && !scalars.boolean
        && !scalars.null
        && !scalars.timestamp
        && !scalars.regex
        && kind.list.is_none()
        && kind.object.is_none()
}

// Whether the kind allows every value.
fn is_anything(kind: &Kind) -> bool
    ensures { result ≡ is_any_kind kind.now }
{
    let scalars = kind.scalars;
    scalars.string
        && scalars.integer
        && scalars.boolean
        && scalars.null
        && scalars.timestamp
        && scalars.regex
        && has_any_rests(&kind.list, &kind.object)
}

// Whether the kind is that of JSON.
fn is_json(kind: &Kind) -> bool
    ensures { result ≡ is_json_kind kind.now }
{
    let scalars = kind.scalars;
    scalars.string
        && scalars.integer
        && scalars.boolean
        && scalars.null
        && !scalars.timestamp
        && !scalars.regex
        && has_json_rests(&kind.list, &kind.object)
}

fn has_any_rests(list: &Option<ListPart>, object: &Option<ObjectPart>) -> bool
    ensures { result ≡ has_rests any_rest (list_of list.now) (object_of object.now) }
{
    match (list, object) {
        (Some(list), Some(object)) => has_no_parts(list, object)
            && is_any_rest(&list.rest)
            && is_any_rest(&object.rest),
        _ => false,
    }
}

fn has_json_rests(list: &Option<ListPart>, object: &Option<ObjectPart>) -> bool
    ensures { result ≡ has_rests json_rest (list_of list.now) (object_of object.now) }
{
    match (list, object) {
        (Some(list), Some(object)) => has_no_parts(list, object)
            && is_json_rest(&list.rest)
            && is_json_rest(&object.rest),
        _ => false,
    }
}

// Whether neither a place nor a field is known by itself.
fn has_no_parts(list: &ListPart, object: &ObjectPart) -> bool
    ensures { (r : RestTree) → has_rests r (list_of (Some list.now)) (object_of (Some object.now))
        ≡ (result && (is_rest r (rest_of list.now.rest) && is_rest r (rest_of object.now.rest))) }
{
    if !list.places.as_slice().is_empty() {
        return false;
    }
    object.fields.as_slice().is_empty()
}

fn is_any_rest(rest: &Rest) -> bool
    ensures { result ≡ is_rest any_rest (rest_of rest.now) }
{
    match rest {
        Rest::Any => true,
        Rest::Nothing | Rest::Json | Rest::Exact(_) => false,
    }
}

fn is_json_rest(rest: &Rest) -> bool
    ensures { result ≡ is_rest json_rest (rest_of rest.now) }
{
    match rest {
        Rest::Json => true,
        Rest::Nothing | Rest::Any | Rest::Exact(_) => false,
    }
}

// A text as a JSON string (RFC 8259, section 7).
fn quote(alloc: Global, name: &str) -> Result<Chars, Memory>
    ensures { IfOk result (λ text. text ≡ quoted name.now) }
{
    let mut out = Writer::new(Vec::new(alloc));
    out.string(name)?;
    match Chars::from_utf8(out.into_inner()) {
        Ok(text) => Ok(text),
        Err(_) => unreachable!(),
    }
}

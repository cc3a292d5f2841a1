ghost use Rattle.std.specs.Prelude.{◌≡◌, length, Some, IfOk, IsTrue, option_map};
ghost use Rattle.vrl_value.specs.Regexes.{regexes_below};
ghost use Rattle.vrl_value.specs.Tree as trees;
ghost use Rattle.vrl_value.specs.Tree.{IsOrdered, MembersAreOrdered};
ghost use Rattle.vrl_value.specs.View.{members_of, tree_of};
ghost use Rattle.vrl_run.specs.Enclosed.{enclosed_text, metadata_text, parts_in};
ghost use Rattle.vrl_run.specs.Laws.{LinesStandForJson};
ghost use Rattle.vrl_run.specs.LineResult as spec;

use std::alloc::Global;
use std::collections::BTreeMap;
use vrl_json::{lines_are_json, lines_are_ordered, lines_are_shallow, to_line};
use vrl_value::{Bytes, Chars, Fields, Memory, Value, members_are_maps, trees_stay_in_order};

// The member of an envelope that is its event.
const EVENT: &str = "event";

// The member that is its metadata.
const METADATA: &str = "metadata";

// What a line stands for.
#[derive(Drop)]
pub(crate) struct Parts {
    pub(crate) event: Value,
    pub(crate) metadata: Value,
}

/// An event and its metadata that a line stands for are JSON, in order and nested at most 127 deep,
/// and the metadata is an object. This takes no time: it is a law about the definitions.
pub fn lines_stand_for_json()
    ensures { LinesStandForJson }
{
    lines_are_json();
    lines_are_ordered();
    lines_are_shallow();
}

// The event and the metadata that a line stands for. `None`: it is no envelope, and has to be one.
pub(crate) fn parts_of(alloc: Global, envelope: bool, line: Value) -> Option<Parts>
    requires { IsOrdered (tree_of line) }
    ensures { option_map parts_in result ≡ spec.parts_of envelope (tree_of line) }
{
    if envelope {
        return opened(line);
    }
    Some(Parts {
        event: line,
        metadata: Value::Object(Fields::new(BTreeMap::new(alloc))),
    })
}

// The event and the metadata of an envelope. `None`: it is none.
fn opened(line: Value) -> Option<Parts>
    requires { IsOrdered (tree_of line) }
    ensures { option_map parts_in result ≡ spec.opened (tree_of line) }
{
    match line {
        Value::Object(members) => taken_out(members),
        _ => None,
    }
}

// The event and the metadata among the members of an envelope, which they are moved out of. `None`:
// it is none.
fn taken_out(mut members: Fields) -> Option<Parts>
    requires { MembersAreOrdered (members_of members) }
    ensures { option_map parts_in result ≡ spec.opened (trees.object (members_of members)) }
{
    members_are_maps();
    trees_stay_in_order();
    let Some(event) = members.remove(EVENT) else {
        return None;
    };
    let Some(metadata) = members.remove(METADATA) else {
        return None;
    };
    if !members.is_empty() {
        return None;
    }
    if !is_object(&metadata) {
        return None;
    }
    Some(Parts { event, metadata })
}

// Whether a value is an object.
fn is_object(value: &Value) -> bool
    ensures { result ≡ trees.is_object (tree_of value.now) }
{
    matches!(value, Value::Object(_))
}

// The text of metadata that is written beside events; without envelopes none is. `Memory`: out of
// memory.
pub(crate) fn metadata_text(
    alloc: Global,
    sources: &[Chars],
    envelope: bool,
    metadata: &Value,
) -> Result<Option<Bytes>, Memory>
    requires { IsTrue (regexes_below (length sources.now) (tree_of metadata.now)) }
    ensures { IfOk result (λ text. text ≡ metadata_text envelope sources.now (tree_of metadata.now)) }
{
    if !envelope {
        return Ok(None);
    }
    Ok(Some(to_line(alloc, metadata, sources)?))
}

// The text of an event, in an envelope where there is a text of metadata. `Memory`: out of memory,
// for an envelope.
pub(crate) fn enclosed(
    alloc: Global,
    event: Vec<u8>,
    metadata: &Option<Bytes>,
) -> Result<Vec<u8>, Memory>
    ensures { IfOk result (λ text. text.items ≡ enclosed_text metadata.now event.items) }
{
    match metadata {
        None => Ok(event),
        Some(metadata) => envelope_text(alloc, &event, metadata.as_slice()),
    }
}

// The text of an envelope, by the texts of its event and of its metadata. `Memory`: out of memory.
fn envelope_text(alloc: Global, event: &[u8], metadata: &[u8]) -> Result<Vec<u8>, Memory>
    ensures { IfOk result (λ text. text.items ≡ enclosed_text (Some metadata.now) event.now) }
{
    let mut text = "{\"event\":".as_bytes().to_vec(alloc)?;
    text.extend_from_slice(event)?;
    text.extend_from_slice(",\"metadata\":".as_bytes())?;
    text.extend_from_slice(metadata)?;
    text.push(b'}')?;
    Ok(text)
}

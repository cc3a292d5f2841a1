ghost use Rattle.std.specs.Prelude.{◌≡◌, ℕ, Bool, false, List, [], ◌∷◌, length, map, IfOk, IsOk, IsTrue};
ghost use Rattle.vrl_value.specs.Regexes.{items_regexes_below, regexes_below};
ghost use Rattle.vrl_value.specs.Tree.{Tree};
ghost use Rattle.vrl_value.specs.View.{items_view, tree_of};
ghost use Rattle.vrl_run.specs.Enclosed.{text_line, AreTextLines};
ghost use Rattle.vrl_run.specs.LineResult as spec;
ghost use Rattle.vrl_run.specs.LineResult.{each_with, events_of, kept_if, StandsFor};
ghost use Rattle.vrl_run.specs.Ran.{end_in, left_in, AreLinesOf};

use crate::envelope::{enclosed, metadata_text};
use crate::options::Options;
use std::alloc::Global;
use vrl_batch::Line;
use vrl_json::{Scratch, from_line, json_needs_no_sources, lines_are_json, to_line};
use vrl_resolve::{Ended, Ran};
use vrl_value::{Bytes, Chars, Memory, Value};

// The events of a line that are kept.
#[derive(Drop)]
pub(crate) struct Kept {
    // As lines of JSON.
    pub(crate) lines: Bytes,
    // How many there are.
    pub(crate) count: u64,
}

// The events that are kept after a run over the event of a line, in envelopes where they are asked
// for; the regexes are those of `sources`. `Memory`: out of memory, for events that are kept.
pub(crate) fn kept_events(
    alloc: Global,
    sources: &[Chars],
    options: &Options,
    line: &Line,
    ran: &Ran,
    scratch: &mut Scratch,
) -> Result<Kept, Memory>
    requires event { IsTrue (regexes_below (length sources.now) (tree_of ran.now.event)) }
    requires metadata { IsTrue (regexes_below (length sources.now) (tree_of ran.now.metadata)) }
    ensures kept { IfOk result (λ kept. (read : Tree × Tree) → StandsFor options.now.envelope line.now.bytes read →
        AreLinesOf options.now.envelope sources.now
        (spec.kept_events options.now read (end_in ran.now.ended) (left_in ran.now)) kept) }
    ensures none { (read : Tree × Tree)
        → spec.kept_events options.now read (end_in ran.now.ended) (left_in ran.now) ≡ [] → IsOk result }
{
    let keep_on_error = !options.drop_on_error;
    match &ran.ended {
        Ended::Value(_) => kept_left(alloc, sources, options.envelope, &ran.event, &ran.metadata),
        Ended::Aborted(_) => kept_as_read(alloc, sources, options.keep_on_abort, line, scratch),
        Ended::Banged(_) | Ended::Deep => kept_as_read(
            alloc,
            sources,
            keep_on_error,
            line,
            scratch,
        ),
    }
}

// No event.
fn nothing(alloc: Global) -> Kept
    ensures { (envelope : Bool) (sources : List (List ℕ)) → AreLinesOf envelope sources [] result }
{
    Kept {
        lines: Bytes::new(Vec::new(alloc)),
        count: 0,
    }
}

// The event that a run left, with its metadata; of an array its elements. `Memory`: out of memory,
// for what has an element.
fn kept_left(
    alloc: Global,
    sources: &[Chars],
    envelope: bool,
    event: &Value,
    metadata: &Value,
) -> Result<Kept, Memory>
    requires event { IsTrue (regexes_below (length sources.now) (tree_of event.now)) }
    requires metadata { IsTrue (regexes_below (length sources.now) (tree_of metadata.now)) }
    ensures kept { IfOk result (AreLinesOf envelope sources.now
        (each_with (tree_of metadata.now) (events_of (tree_of event.now)))) }
    ensures none { events_of (tree_of event.now) ≡ [] → IsOk result }
{
    match event {
        Value::List(items) => kept_items(alloc, sources, envelope, items.as_slice(), metadata),
        _ => kept_alone(alloc, sources, envelope, event, metadata),
    }
}

// One event with its metadata. `Memory`: out of memory.
fn kept_alone(
    alloc: Global,
    sources: &[Chars],
    envelope: bool,
    event: &Value,
    metadata: &Value,
) -> Result<Kept, Memory>
    requires event { IsTrue (regexes_below (length sources.now) (tree_of event.now)) }
    requires metadata { IsTrue (regexes_below (length sources.now) (tree_of metadata.now)) }
    ensures { IfOk result
        (AreLinesOf envelope sources.now (each_with (tree_of metadata.now) (tree_of event.now ∷ []))) }
{
    let metadata = metadata_text(alloc, sources, envelope, metadata)?;
    kept_one(alloc, sources, event, &metadata)
}

// Each of some events with the metadata. `Memory`: out of memory, for one of them.
fn kept_items(
    alloc: Global,
    sources: &[Chars],
    envelope: bool,
    events: &[Value],
    metadata: &Value,
) -> Result<Kept, Memory>
    requires events { IsTrue (items_regexes_below (length sources.now) (items_view events.now)) }
    requires metadata { IsTrue (regexes_below (length sources.now) (tree_of metadata.now)) }
    ensures kept { IfOk result
        (AreLinesOf envelope sources.now (each_with (tree_of metadata.now) (map tree_of events.now))) }
    ensures none { events.now ≡ [] → IsOk result }
{
    if events.is_empty() {
        return Ok(nothing(alloc));
    }
    let metadata = metadata_text(alloc, sources, envelope, metadata)?;
    kept_each(alloc, sources, events, &metadata)
}

// Each of some events, in an envelope where there is a text of metadata. `Memory`: out of memory.
fn kept_each(
    alloc: Global,
    sources: &[Chars],
    events: &[Value],
    metadata: &Option<Bytes>,
) -> Result<Kept, Memory>
    requires { IsTrue (items_regexes_below (length sources.now) (items_view events.now)) }
    ensures { IfOk result (AreTextLines metadata.now sources.now (map tree_of events.now)) }
{
    let mut lines = Vec::new(alloc);
    for event in events {
        let line = event_line(alloc, sources, event, metadata)?;
        lines.extend_from_slice(&line)?;
    }
    Ok(Kept {
        lines: Bytes::new(lines),
        count: events.len() as u64,
    })
}

// One event, in an envelope where there is a text of metadata. `Memory`: out of memory.
fn kept_one(
    alloc: Global,
    sources: &[Chars],
    event: &Value,
    metadata: &Option<Bytes>,
) -> Result<Kept, Memory>
    requires { IsTrue (regexes_below (length sources.now) (tree_of event.now)) }
    ensures { IfOk result (AreTextLines metadata.now sources.now (tree_of event.now ∷ [])) }
{
    Ok(Kept {
        lines: Bytes::new(event_line(alloc, sources, event, metadata)?),
        count: 1,
    })
}

// The line as it was read, if it is kept: its bytes are read again. `Memory`: out of memory, for an
// event that is kept.
fn kept_as_read(
    alloc: Global,
    sources: &[Chars],
    keep: bool,
    line: &Line,
    scratch: &mut Scratch,
) -> Result<Kept, Memory>
    ensures read { IfOk result (λ kept. (envelope : Bool) (read : Tree × Tree)
        → StandsFor envelope line.now.bytes read → AreLinesOf envelope sources.now (kept_if keep read) kept) }
    ensures dropped { keep ≡ false → IsOk result }
{
    if !keep {
        return Ok(nothing(alloc));
    }
    lines_are_json();
    json_needs_no_sources();
    // They were read before, so no other fault is left.
    let Ok(value) = from_line(alloc, line.bytes.as_slice(), scratch) else {
        return Err(Memory);
    };
    // An envelope is written as the object that it was read as.
    kept_one(alloc, sources, &value, &None)
}

// An event as a line, in an envelope where there is a text of metadata. `Memory`: out of memory.
fn event_line(
    alloc: Global,
    sources: &[Chars],
    event: &Value,
    metadata: &Option<Bytes>,
) -> Result<Vec<u8>, Memory>
    requires { IsTrue (regexes_below (length sources.now) (tree_of event.now)) }
    ensures { IfOk result (λ line. line.items ≡ text_line metadata.now sources.now (tree_of event.now)) }
{
    let text = to_line(alloc, event, sources)?.into_vec();
    let mut line = enclosed(alloc, text, metadata)?;
    line.push(b'\n')?;
    Ok(line)
}

ghost use Rattle.std.specs.Prelude.{◌≡◌, ◌↔◌, [], length, IfOk, IsOk, IsTrue};
ghost use Rattle.vrl_value.specs.Regexes.{regexes_below};
ghost use Rattle.vrl_value.specs.Tree.{Tree, is_json};
ghost use Rattle.vrl_value.specs.View.{tree_of};
ghost use Rattle.vrl_json.specs.Line.{whole, reading_of};
ghost use Rattle.vrl_kind.specs.Kinds.{Inhabits};
ghost use Rattle.vrl_kind.specs.View.{rest_of};
ghost use Rattle.vrl_resolve.specs.Meaning.{IsUnhandled};
ghost use Rattle.vrl_resolve.specs.Program.{ended_over, program_of};
ghost use Rattle.vrl_run.specs.Enclosed.{parts_in};
ghost use Rattle.vrl_run.specs.JsonObjects.{is_json_rest, takes_json_objects};
ghost use Rattle.vrl_run.specs.LineResult.{end_report, end_result, event_result, kept_events, refused_line, result_of_line, result_of_reading, HandlesErrors, StandsFor};
ghost use Rattle.vrl_run.specs.LineResult as spec;
ghost use Rattle.vrl_run.specs.Unread.{IsReasonOf, IsUnread};
ghost use Rattle.vrl_run.specs.Ran.{end_in, left_in};

use crate::envelope::{Parts, lines_stand_for_json, parts_of};
use crate::kept::kept_events;
use crate::options::Options;
use crate::reason::Reason;
use crate::report::{end_report, report_line};
use std::alloc::Global;
use vrl_batch::{Line, LineOut, Outcome};
use vrl_json::{JsonFault, Scratch, from_line, json_needs_no_sources, lines_are_ordered};
use vrl_kind::{Kind, Rest, inhabits, inhabits_is_computed, object_part};
use vrl_pattern::Searches;
use vrl_resolve::{Ended, Program, Ran, run_measured};
use vrl_value::{Bytes, Memory, Names, Value};

/// Runs a program over the event that a line stands for, with its metadata; the options say whether
/// the line is an envelope of both. `_sources` are those of the program's regex literals, which
/// `searches` tell too, and over no event of the declared kind, with an object of JSON as its
/// metadata, does the program end with an error that it doesn't handle, as `vrl_compile` promises
/// of each that it accepts. A line that is too long, is no JSON text or has a number that isn't
/// whole, is no envelope where it has to be one, or whose event is not of the declared kind, is
/// refused. `searches` are those of the program, and `scratch` is what reading needs; keep both
/// from line to line. `Memory`: out of memory.
pub fn run_line(
    alloc: Global,
    program: &Program,
    searches: &Searches<'_>,
    _sources: &Names,
    declared: &Kind,
    options: &Options,
    line: &Line,
    scratch: &mut Scratch,
) -> Result<LineOut, Memory>
    requires searches { searches.now ≡ (program_of program.now).sources }
    requires sources { _sources.now ≡ (program_of program.now).sources }
    requires handled { HandlesErrors declared.now (program_of program.now) }
    ensures { IfOk result (λ out. out ≡ result_of_line (program_of program.now) declared.now options.now line.now) }
{
    if line.long {
        return refused(alloc, line.number, Reason::TooLong);
    }
    let read = match from_line(alloc, line.bytes.as_slice(), scratch) {
        Ok(read) => read,
        Err(fault) => return unread(alloc, line.number, fault),
    };
    run_read(
        alloc, program, searches, declared, options, line, read, scratch,
    )
}

// A line that was read. `Memory`: out of memory.
fn run_read(
    alloc: Global,
    program: &Program,
    searches: &Searches<'_>,
    declared: &Kind,
    options: &Options,
    line: &Line,
    read: Value,
    scratch: &mut Scratch,
) -> Result<LineOut, Memory>
    requires searches { searches.now ≡ (program_of program.now).sources }
    requires read { reading_of line.now.bytes ≡ whole (tree_of read) }
    requires handled { HandlesErrors declared.now (program_of program.now) }
    ensures { IfOk result (λ out. out ≡ result_of_reading (program_of program.now) declared.now options.now line.now
        (whole (tree_of read))) }
{
    inhabits_is_computed();
    json_needs_no_sources();
    lines_are_ordered();
    lines_stand_for_json();
    let Some(parts) = parts_of(alloc, options.envelope, read) else {
        return refused(alloc, line.number, Reason::NotEnvelope);
    };
    if !is_declared(&parts.event, declared) {
        return refused(alloc, line.number, Reason::NotDeclared);
    }
    run_event(alloc, program, searches, options, line, parts, scratch)
}

// Whether the event of a line is of the declared kind. An object isn't walked where the kind takes
// each of JSON.
fn is_declared(event: &Value, declared: &Kind) -> bool
    requires json { IsTrue (is_json (tree_of event.now)) }
    ensures { IsTrue result ↔ Inhabits (tree_of event.now) declared.now }
{
    if let Value::Object(_members) = event {
        if takes_json_objects(declared) {
            return true;
        }
    }
    inhabits(event, declared)
}

// Whether the kind takes each object of JSON: no field is known by itself, and each may hold what
// JSON can.
fn takes_json_objects(declared: &Kind) -> bool
    ensures { result ≡ takes_json_objects declared.now }
{
    let Some((fields, rest)) = object_part(declared) else {
        return false;
    };
    if !is_json(rest) {
        return false;
    }
    fields.as_slice().is_empty()
}

// Whether each part that isn't known by itself holds what JSON can.
fn is_json(rest: &Rest) -> bool
    ensures { result ≡ is_json_rest (rest_of rest.now) }
{
    matches!(rest, Rest::Json)
}

// Why a line is refused from which no value was read. `Memory`: that was for want of memory, and
// the line isn't refused.
fn reason_of(fault: JsonFault) -> Result<Reason, Memory>
    ensures { IsReasonOf fault result }
{
    match fault {
        JsonFault::NotJson => Ok(Reason::NotJson),
        JsonFault::NotWhole => Ok(Reason::NotWhole),
        JsonFault::Memory => Err(Memory),
    }
}

// A line from which no value was read. `Memory`: want of memory.
fn unread(alloc: Global, number: u64, fault: JsonFault) -> Result<LineOut, Memory>
    ensures { IfOk result (IsUnread fault number) }
{
    let reason = reason_of(fault)?;
    refused(alloc, number, reason)
}

// A line that is refused. `Memory`: want of memory.
fn refused(alloc: Global, number: u64, reason: Reason) -> Result<LineOut, Memory>
    ensures { IfOk result (λ out. out ≡ refused_line reason number) }
{
    let text = format!(in alloc; "refused: {reason}")?;
    Ok(LineOut {
        output: Bytes::new(Vec::new(alloc)),
        report: report_line(alloc, number, &text)?,
        kept: 0,
        outcome: Outcome::Refused,
    })
}

// A line whose event is of the declared kind. `Memory`: out of memory.
fn run_event(
    alloc: Global,
    program: &Program,
    searches: &Searches<'_>,
    options: &Options,
    line: &Line,
    parts: Parts,
    scratch: &mut Scratch,
) -> Result<LineOut, Memory>
    requires searches { searches.now ≡ (program_of program.now).sources }
    requires read { StandsFor options.now.envelope line.now.bytes (parts_in parts) }
    requires handled { ¬ IsUnhandled (ended_over (program_of program.now) line.now.moment (tree_of parts.event)
        (tree_of parts.metadata)).outcome }
    ensures { IfOk result (λ out. out ≡ event_result searches.now options.now line.now.number (parts_in parts)
        (ended_over (program_of program.now) line.now.moment (tree_of parts.event) (tree_of parts.metadata))) }
{
    json_needs_no_sources();
    lines_stand_for_json();
    let Parts { event, metadata } = parts;
    // Of what the script gives nothing is written.
    let ran = run_measured(
        alloc,
        program,
        searches,
        event,
        metadata,
        true,
        line.moment,
        false,
    )?;
    ran_result(alloc, searches, options, line, &ran, scratch)
}

// What comes of a run over the event of a line. `Memory`: out of memory, for events that are kept,
// or for a report.
fn ran_result(
    alloc: Global,
    searches: &Searches<'_>,
    options: &Options,
    line: &Line,
    ran: &Ran,
    scratch: &mut Scratch,
) -> Result<LineOut, Memory>
    requires event { IsTrue (regexes_below (length searches.now) (tree_of ran.now.event)) }
    requires metadata { IsTrue (regexes_below (length searches.now) (tree_of ran.now.metadata)) }
    ensures result { IfOk result (λ out. (read : Tree × Tree) → StandsFor options.now.envelope line.now.bytes read →
        out ≡ end_result searches.now options.now line.now.number read (end_in ran.now.ended) (left_in ran.now)) }
    ensures none { (read : Tree × Tree)
        → kept_events options.now read (end_in ran.now.ended) (left_in ran.now) ≡ []
        → end_report line.now.number (end_in ran.now.ended) ≡ [] → IsOk result }
{
    let kept = kept_events(alloc, searches.sources(), options, line, ran, scratch)?;
    let report = end_report(alloc, line.number, &ran.ended)?;
    Ok(LineOut {
        output: kept.lines,
        report,
        kept: kept.count,
        outcome: outcome_of(&ran.ended),
    })
}

// How a line went, by how the run over its event ended.
fn outcome_of(ended: &Ended) -> Outcome
    ensures { result ≡ spec.outcome_of (end_in ended.now) }
{
    match ended {
        Ended::Value(_) => Outcome::Fine,
        Ended::Aborted(_) => Outcome::Aborted,
        Ended::Banged(_) | Ended::Deep => Outcome::Errored,
    }
}

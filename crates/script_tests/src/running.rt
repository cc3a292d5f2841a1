ghost use Rattle.std.specs.Prelude.{◌≡◌, false, IfOk, IfSome, IsTrue};
ghost use Rattle.vrl_value.specs.Tree.{is_json, IsOrdered};
ghost use Rattle.vrl_value.specs.View.{tree_of};
ghost use Rattle.vrl_kind.specs.Canonical.{allows_absent};
ghost use Rattle.vrl_kind.specs.Kinds.{Inhabits};
ghost use Rattle.vrl_resolve.specs.Program.{program_of};
ghost use Rattle.vrl_run.specs.LineResult.{HandlesErrors};
ghost use Rattle.vrl_state.specs.States.{json_object};

// Runs of scripts that are accepted over events, with what they leave told as text.
use std::alloc::Global;
use std::process::Abort;
use vrl_compile::{Accepted, Compiled, SCRIPT_LIMIT, compile};
use vrl_json::{
    JsonFault, Scratch, from_line, json_needs_no_sources, lines_are_json, lines_are_ordered,
};
use vrl_kind::{Kind, inhabits};
use vrl_resolve::{Ended, Produced, Program, Ran, run};
use vrl_state::json_object;
use vrl_syntax::METADATA;
use vrl_value::{Chars, Fields, Memory, Moment, Value};

// A script, an event, how the run ends, the event that it leaves, and the variables but the metadata.
// An end is `= ` and a value, `abort`, `abort ` and a message, `bang ` and a text, or `deep`.
pub(crate) type Row = (
    &'static str,
    &'static str,
    &'static str,
    &'static str,
    &'static str,
);

// A row, and the metadata with which the script begins, and that it leaves.
pub(crate) type Beside = (Row, &'static str, &'static str);

// The row of a script that leaves its event as it was, `{}` where none is given, and no variable.
macro_rules! unchanged {
    ($script:expr, $end:expr) => {
        unchanged!($script, "{}", $end)
    };
    ($script:expr, $event:expr, $end:expr) => {
        ($script, $event, $end, $event, "{}")
    };
}

pub(crate) use unchanged;

// A text as a script that is accepted. `None`: it isn't.
pub(crate) fn accepted(
    alloc: Global,
    text: &str,
    declared: &Kind,
) -> Result<Option<Accepted>, Memory>
    requires { allows_absent declared.now ≡ false }
    ensures sources { IfOk result
        (λ found. IfSome found (λ script. script.sources ≡ (program_of script.program).sources)) }
    ensures handled { IfOk result
        (λ found. IfSome found (λ script. HandlesErrors declared.now (program_of script.program))) }
{
    if text.len() > SCRIPT_LIMIT {
        return Ok(None);
    }
    match compile(alloc, text, declared)? {
        Compiled::Accepted(script) => Ok(Some(script)),
        Compiled::Refused(_diagnostics) => Ok(None),
    }
}

// A value of JSON; null where the text is none.
pub(crate) fn json_of(alloc: Global, text: &str) -> Result<Value, Memory> {
    match from_line(alloc, text.as_bytes(), &mut Scratch::new(alloc)) {
        Ok(value) => Ok(value),
        Err(JsonFault::Memory) => Err(Memory),
        Err(_fault) => Ok(Value::Null),
    }
}

// A value of JSON of a kind. `None`: the text is none.
fn value_of(alloc: Global, text: &str, kind: &Kind) -> Result<Option<Value>, Memory>
    ensures kind { IfOk result (λ found. IfSome found (λ value. Inhabits (tree_of value) kind.now)) }
    ensures json { IfOk result (λ found. IfSome found (λ value. IsTrue (is_json (tree_of value)))) }
    ensures ordered { IfOk result (λ found. IfSome found (λ value. IsOrdered (tree_of value))) }
{
    lines_are_json();
    lines_are_ordered();
    match from_line(alloc, text.as_bytes(), &mut Scratch::new(alloc)) {
        Ok(value) => {
            if inhabits(&value, kind) {
                Ok(Some(value))
            } else {
                Ok(None)
            }
        }
        Err(JsonFault::Memory) => Err(Memory),
        Err(_fault) => Ok(None),
    }
}

// What a program leaves of an event and metadata, which are objects of JSON. `None`: there are no
// such.
fn ran_over(
    alloc: Global,
    program: &Program,
    object: &Kind,
    event: &str,
    metadata: &str,
    is_asked: bool,
) -> Result<Option<Ran>, Memory>
    requires object { object.now ≡ json_object }
    requires handled { HandlesErrors object.now (program_of program.now) }
{
    json_needs_no_sources();
    let Some(event) = value_of(alloc, event, object)? else {
        return Ok(None);
    };
    let Some(metadata) = value_of(alloc, metadata, object)? else {
        return Ok(None);
    };
    let searches = program.searches();
    let moment = Moment::epoch();
    let ran = run(alloc, program, &searches, event, metadata, moment, is_asked)?;
    Ok(Some(ran))
}

// What a script leaves of an event and metadata, and what it leaves where its value isn't asked for.
// `None`: it isn't accepted, or there are no such.
fn ran(
    alloc: Global,
    text: &str,
    event: &str,
    metadata: &str,
) -> Result<Option<(Ran, Ran)>, Memory> {
    let object = json_object(alloc)?;
    match accepted(alloc, text, &object)? {
        Some(script) => {
            let program = &script.program;
            let asked = ran_over(alloc, program, &object, event, metadata, true)?;
            let unasked = ran_over(alloc, program, &object, event, metadata, false)?;
            Ok(asked.zip(unasked))
        }
        None => Ok(None),
    }
}

fn is_value(alloc: Global, value: &Value, wanted: &str) -> Result<bool, Memory> {
    match wanted.strip_prefix("= ") {
        Some(text) => Ok(value.same(&json_of(alloc, text)?)),
        None => Ok(false),
    }
}

fn is_aborted(message: &Option<Chars>, wanted: &str) -> bool {
    match message {
        Some(text) => wanted.strip_prefix("abort ") == Some(text.as_str()),
        None => wanted == "abort",
    }
}

// Whether these are the variables, with this metadata among them.
fn are_variables(
    alloc: Global,
    fields: Fields,
    metadata: &Value,
    wanted: &str,
) -> Result<bool, Memory> {
    let mut fields = fields;
    let Some(beside) = fields.remove(METADATA) else {
        return Ok(false);
    };
    let variables = Value::Object(fields);
    Ok(beside.same(metadata) && variables.same(&json_of(alloc, wanted)?))
}

fn is_produced(
    alloc: Global,
    produced: Produced,
    metadata: &Value,
    end: &str,
    variables: &str,
) -> Result<bool, Memory> {
    let Produced {
        value,
        variables: fields,
    } = produced;
    Ok(is_value(alloc, &value, end)? && are_variables(alloc, fields, metadata, variables)?)
}

// Whether a run ended so, of which a value is told where it is asked for.
fn is_end(
    alloc: Global,
    ended: Ended,
    metadata: &Value,
    end: &str,
    variables: &str,
    is_asked: bool,
) -> Result<bool, Memory> {
    match ended {
        Ended::Value(Some(produced)) => is_produced(alloc, produced, metadata, end, variables),
        Ended::Value(None) => Ok(!is_asked && end.starts_with("= ")),
        Ended::Aborted(message) => Ok(is_aborted(&message, end) && variables == "{}"),
        Ended::Banged(text) => {
            Ok(end.strip_prefix("bang ") == Some(text.as_str()) && variables == "{}")
        }
        Ended::Deep => Ok(end == "deep" && variables == "{}"),
    }
}

fn is_so(
    alloc: Global,
    found: Ran,
    row: &Row,
    beside: &str,
    is_asked: bool,
) -> Result<bool, Memory> {
    let (_text, _event, end, left, variables) = row;
    let Ran {
        ended,
        event,
        metadata,
    } = found;
    let is_end = is_end(alloc, ended, &metadata, end, variables, is_asked)?;
    let is_event = event.same(&json_of(alloc, left)?);
    Ok(is_end && is_event && metadata.same(&json_of(alloc, beside)?))
}

// Whether a row is so, of a script that begins with this metadata, and leaves that.
fn holds(alloc: Global, row: &Row, metadata: &str, beside: &str) -> Result<bool, Memory> {
    match ran(alloc, row.0, row.1, metadata)? {
        Some((asked, unasked)) => {
            let is_asked = is_so(alloc, asked, row, beside, true)?;
            Ok(is_asked && is_so(alloc, unasked, row, beside, false)?)
        }
        None => Ok(false),
    }
}

// Rows of scripts without metadata, which leave none.
pub(crate) fn expect_rows(rt: &impl Abort, alloc: Global, rows: &[Row]) -> Result<(), Memory> {
    for row in rows {
        let is_so = holds(alloc, row, "{}", "{}")?;
        assert!(rt; is_so, "at {}", row.0);
    }
    Ok(())
}

pub(crate) fn expect_beside(rt: &impl Abort, alloc: Global, rows: &[Beside]) -> Result<(), Memory> {
    for (row, metadata, beside) in rows {
        let is_so = holds(alloc, row, metadata, beside)?;
        assert!(rt; is_so, "at {} over {metadata}", row.0);
    }
    Ok(())
}

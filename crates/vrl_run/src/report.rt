ghost use Rattle.std.specs.Prelude.{◌≡◌, ◌++◌, [], IfOk, IsOk};
ghost use Rattle.vrl_run.specs.LineResult as spec;
ghost use Rattle.vrl_run.specs.Ran.{end_in};

use std::alloc::Global;
use vrl_json::to_line;
use vrl_resolve::Ended;
use vrl_value::{Bytes, Chars, Memory, Value};

// A line of the report. `Memory`: want of memory.
pub(crate) fn report_line(alloc: Global, number: u64, text: &str) -> Result<Bytes, Memory>
    ensures { IfOk result (λ line. line ≡ spec.report_line number text.now) }
{
    let line = format!(in alloc; "line {number}: {text}\n")?;
    Ok(Bytes::new(line.into_bytes()))
}

// What a run reports by how it ended. `Memory`: out of memory, for a report.
pub(crate) fn end_report(alloc: Global, number: u64, ended: &Ended) -> Result<Bytes, Memory>
    ensures report { IfOk result (λ report. report ≡ spec.end_report number (end_in ended.now)) }
    ensures none { spec.end_report number (end_in ended.now) ≡ [] → IsOk result }
{
    match ended {
        Ended::Value(_) => Ok(Bytes::new(Vec::new(alloc))),
        Ended::Aborted(None) => report_line(alloc, number, "aborted"),
        Ended::Aborted(Some(message)) => text_report(alloc, number, "aborted: ", message),
        Ended::Banged(text) => text_report(alloc, number, "error: ", text),
        Ended::Deep => report_line(alloc, number, "error: nested deeper than 128"),
    }
}

// A line of the report that ends with a text as a JSON string. `Memory`: want of memory.
fn text_report(alloc: Global, number: u64, words: &str, text: &Chars) -> Result<Bytes, Memory>
    ensures { IfOk result (λ line. line ≡ spec.report_line number (words.now ++ spec.quoted text.now)) }
{
    let quoted = quoted(alloc, text)?;
    let mut line = format!(in alloc; "line {number}: {words}")?.into_bytes();
    line.extend_from_slice(quoted.as_slice())?;
    line.push(b'\n')?;
    Ok(Bytes::new(line))
}

// A text as a JSON string. `Memory`: want of memory.
fn quoted(alloc: Global, text: &Chars) -> Result<Bytes, Memory>
    ensures { IfOk result (λ bytes. bytes ≡ spec.quoted text.now) }
{
    let text = Value::Text(text.copy(alloc)?);
    to_line(alloc, &text, &[])
}

ghost use Rattle.std.specs.Prelude.{◌≡◌, IfOk};
ghost use Rattle.vrl_resolve.specs.Program.{program_of};
ghost use Rattle.vrl_run.specs.LineResult.{HandlesErrors};
ghost use Rattle.vrl_run.specs.Request.{IsReadyRequest};

// Answers to requests, over devices in memory that give pieces and fail.
use crate::running::accepted;
use std::alloc::Global;
use std::process::Abort;
use std::thread::Threads;
use vrl_batch::FreeGate;
use vrl_compile::Accepted;
use vrl_diag::{Diagnostic, Diagnostics, Span};
use vrl_io::{MemoryClock, MemorySink, MemorySource};
use vrl_kind::Kind;
use vrl_run::{Options, ReadyScript, Request, Status, answer};
use vrl_state::json_object;
use vrl_value::{Bytes, Memory};

// The size of the input's pieces, where it comes in pieces, and the number of the call that fails,
// of the input, the output and the report.
#[derive(Clone, Copy)]
struct Faults {
    pieces: Option<usize>,
    input: Option<u64>,
    output: Option<u64>,
    report: Option<u64>,
}

const NONE: Faults = Faults {
    pieces: None,
    input: None,
    output: None,
    report: None,
};

// A script (`None`: the words are refused), what fails, and what comes of it over `INPUT`: the
// status, the output and the report.
type Row = (
    Option<&'static str>,
    Faults,
    Status,
    &'static str,
    &'static str,
);

const INPUT: &str = "{\"a\":1}\n[2]\n{\"c\":3}";

const OUTPUT: &str = "{\"a\":1,\"x\":1}\n{\"c\":3,\"x\":1}\n";

const REPORT: &str = "line 2: refused: not of the declared kind\n";

// What is wrong with each script that isn't accepted.
const UNDEFINED: [Diagnostic; 1] = [Diagnostic {
    code: 701,
    span: Span { start: 5, end: 6 },
}];

// The numbers of the calls that fail.
fn failing(alloc: Global, number: Option<u64>) -> Result<Vec<u64>, Memory> {
    let mut numbers = Vec::new(alloc);
    if let Some(number) = number {
        numbers.push(number)?;
    }
    Ok(numbers)
}

fn sink(alloc: Global, number: Option<u64>) -> Result<MemorySink, Memory> {
    Ok(MemorySink::new(alloc, failing(alloc, number)?))
}

fn pieces_of(alloc: Global, size: Option<usize>) -> Result<Vec<usize>, Memory> {
    let mut pieces = Vec::new(alloc);
    if let Some(size) = size {
        pieces.resize(20, size)?;
    }
    Ok(pieces)
}

// The input, and how it comes.
fn source(alloc: Global, faults: &Faults) -> Result<MemorySource, Memory> {
    let bytes = INPUT.as_bytes().to_vec(alloc)?;
    let pieces = pieces_of(alloc, faults.pieces)?;
    Ok(MemorySource::new(bytes, pieces, failing(alloc, faults.input)?))
}

// Whether a request is answered as the row wants it.
fn is_answered<R: Threads + Sync>(
    rt: &R,
    alloc: Global,
    request: &Request,
    row: &Row,
) -> Result<bool, Memory>
    requires { IsReadyRequest request.now }
{
    let (_script, faults, status, written, reported) = row;
    let mut input = source(alloc, faults)?;
    let mut output = sink(alloc, faults.output)?;
    let mut report = sink(alloc, faults.report)?;
    let mut clock = MemoryClock::new(Vec::new(alloc));
    let told = answer(
        rt,
        alloc,
        request,
        2,
        &mut input,
        &mut output,
        &mut report,
        &mut clock,
        &FreeGate,
    );
    Ok(
        told == *status
            && output.written() == written.as_bytes()
            && report.written() == reported.as_bytes(),
    )
}

// Whether a script that runs does what the row wants.
fn is_run<R: Threads + Sync>(
    rt: &R,
    alloc: Global,
    text: &str,
    script: Accepted,
    declared: Kind,
    row: &Row,
) -> Result<bool, Memory>
    requires sources { script.sources ≡ (program_of script.program).sources }
    requires handled { HandlesErrors declared (program_of script.program) }
{
    let text = Bytes::new(text.as_bytes().to_vec(alloc)?);
    let Accepted {
        program,
        judged: _judged,
        sources,
    } = script;
    let request = Request::Run(ReadyScript {
        text,
        program,
        sources,
        declared,
        options: Options {
            drop_on_error: false,
            keep_on_abort: false,
            envelope: false,
        },
        warnings: Diagnostics::new(Vec::new(alloc)),
    });
    is_answered(rt, alloc, &request, row)
}

// What is asked where a script isn't accepted.
fn refusal(alloc: Global, text: &str) -> Result<Request, Memory>
    ensures { IfOk result IsReadyRequest }
{
    let text = Bytes::new(text.as_bytes().to_vec(alloc)?);
    let diagnostics = Diagnostics::new(UNDEFINED.to_vec(alloc)?);
    Ok(Request::Refused(text, diagnostics))
}

fn is_told<R: Threads + Sync>(
    rt: &R,
    alloc: Global,
    text: &str,
    row: &Row,
) -> Result<bool, Memory> {
    let declared = json_object(alloc)?;
    match accepted(alloc, text, &declared)? {
        Some(script) => is_run(rt, alloc, text, script, declared, row),
        None => is_answered(rt, alloc, &refusal(alloc, text)?, row),
    }
}

fn holds<R: Threads + Sync>(rt: &R, alloc: Global, row: &Row) -> Result<bool, Memory> {
    match row.0 {
        Some(text) => is_told(rt, alloc, text, row),
        None => is_answered(rt, alloc, &Request::Words, row),
    }
}

#[rattlefmt::skip]
const FAULTS: [Row; 13] = [
    // The input in pieces.
    (Some(".x = 1"), Faults { pieces: Some(1), ..NONE }, Status::Marked, OUTPUT, REPORT),
    (Some(".x = 1"), Faults { pieces: Some(7), ..NONE }, Status::Marked, OUTPUT, REPORT),
    (Some(".x = 1"), Faults { pieces: Some(100), ..NONE }, Status::Marked, OUTPUT, REPORT),
    // A take fails: in pieces of 7 bytes the input of 19 bytes takes three calls, and one that
    // tells its end.
    (Some(".x = 1"), Faults { pieces: Some(7), input: Some(0), ..NONE }, Status::ReadFault, "", ""),
    (Some(".x = 1"), Faults { pieces: Some(7), input: Some(1), ..NONE }, Status::ReadFault, "", ""),
    (Some(".x = 1"), Faults { pieces: Some(7), input: Some(2), ..NONE }, Status::ReadFault, "", ""),
    (Some(".x = 1"), Faults { pieces: Some(7), input: Some(3), ..NONE }, Status::ReadFault, "", ""),
    // A write fails: of the output, the report, the diagnostics of a script, and the usage line.
    (Some(".x = 1"), Faults { output: Some(0), ..NONE }, Status::WriteFault, "", ""),
    (Some(".x = 1"), Faults { report: Some(0), ..NONE }, Status::WriteFault, OUTPUT, ""),
    (Some(".x = y"), Faults { report: Some(0), ..NONE }, Status::WriteFault, "", ""),
    (None, Faults { report: Some(0), ..NONE }, Status::WriteFault, "", ""),
    // No call fails: a script is refused, and the words are.
    (Some(".x = y"), NONE, Status::Refused, "", "error[E701] 1:6 undefined variable\n"),
    (None, NONE, Status::Usage, "", "usage: remap SCRIPT [--kind FILE] [--jobs N] [--drop-on-error] [--keep-on-abort] [--envelope] [--check] [--generate COUNT:SEED]\n"),
];

#[test]
fn devices_fail(rt: HostRuntime) -> Result<(), Memory> {
    let alloc = rt.alloc();
    for row in &FAULTS {
        let is_so = holds(&rt, alloc, row)?;
        assert!(rt; is_so, "at {:?}", row.0);
    }
    Ok(())
}

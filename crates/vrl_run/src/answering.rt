ghost use Rattle.std.specs.Prelude.{◌≡◌, ◌≤◌, IfOk};
ghost use Rattle.vrl_run.specs.Answer.{refusal};
ghost use Rattle.vrl_run.specs.Answered.{IsAnswered};
ghost use Rattle.vrl_run.specs.Devices.{devices};
ghost use Rattle.vrl_run.specs.Request.{bad_kind, bad_script, bad_words, map_made, tell_kinds, request_of, run_of, IsReadyRequest, IsReadyScript, IsSame};
ghost use Rattle.vrl_run.specs.Writing.{answer_in, IsTold};

use crate::kinds::kind_lines;
use crate::made::run_made;
use crate::mapping::{map_lines, status_if};
use crate::ready_script::ReadyScript;
use crate::request::Request;
use crate::status::Status;
use crate::writing::{Told, write_told};
use std::alloc::Global;
use std::thread::Threads;
use vrl_batch::Gate;
use vrl_diag::{Diagnostics, render_all};
use vrl_io::{Clock, Sink, Source};
use vrl_kind::Kind;
use vrl_kindfile::KindFault;
use vrl_state::Known;
use vrl_value::{Bytes, Memory};

/// What is reported where the words are refused.
const USAGE_LINE: &str = concat!(
    "usage: remap SCRIPT [--kind FILE] [--jobs N] [--drop-on-error] [--keep-on-abort]",
    " [--envelope] [--check] [--generate COUNT:SEED]\n",
);

/// Answers a request, with at most so many workers, 1 to 32, that pass the gate before each line.
/// Words, a kind file and a script that are refused are reported. A script that runs over the lines
/// of the input is run over each, at a moment of the clock, batch by batch: its events go to
/// `output`, and its warnings and the reports on lines to `report`. Of one that runs over made
/// lines, the summary goes to `output`, and the warnings to `report`, as do the kinds that a script
/// may end with and its warnings. But for the lines of the input neither the input nor the clock is
/// asked.
pub fn answer<R: Threads + Sync, S: Source, O: Sink, E: Sink, C: Clock, G: Gate + Sync>(
    rt: &R,
    alloc: Global,
    request: &Request,
    jobs: u32,
    input: &mut S,
    output: &mut O,
    report: &mut E,
    clock: &mut C,
    gate: &G,
) -> Status
    requires request { IsReadyRequest request.now }
    requires jobs { (1 ≤ jobs) × (jobs ≤ 32) }
    ensures { IsAnswered (IsSame (request_of request.now)) result
        (devices (S.left input.old) (S.taken input.old) (S.ended input.old) (S.faults input.old) (C.ahead clock.old)
        (O.written output.old) (O.faults output.old) (E.written report.old) (E.faults report.old))
        (devices (S.left input.new) (S.taken input.new) (S.ended input.new) (S.faults input.new) (C.ahead clock.new)
        (O.written output.new) (O.faults output.new) (E.written report.new) (E.faults report.new))
        ((input.new ≡ input.old) × (clock.new ≡ clock.old)) }
{
    match request {
        Request::Words => write_told(&usage(alloc), output, report),
        Request::Kind(fault) => write_told(&kind_refusal(alloc, fault), output, report),
        Request::Refused(text, diagnostics) => {
            write_told(&script_refusal(alloc, text, diagnostics), output, report)
        }
        Request::Run(script) => map_lines(
            rt, alloc, script, jobs, input, output, report, clock, gate,
        ),
        Request::Generate(script, count, seed) => {
            write_told(
                &summary(rt, alloc, script, jobs, *count, *seed, gate),
                output,
                report,
            )
        }
        Request::Check(text, warnings, kind, known, envelope) => {
            write_told(
                &kinds(alloc, text, warnings, kind, known, *envelope),
                output,
                report,
            )
        }
    }
}

// How the words go. `Memory`: want of memory.
fn usage(alloc: Global) -> Result<Told, Memory>
    ensures { IfOk result (IsTold bad_words) }
{
    let line = USAGE_LINE.as_bytes().to_vec(alloc)?;
    Ok(refused(alloc, Status::Usage, line))
}

// Why a kind file has no kind. `Memory`: want of memory.
fn kind_refusal(alloc: Global, fault: &KindFault) -> Result<Told, Memory>
    ensures { IfOk result (IsTold (bad_kind fault.now)) }
{
    let line = format!(in alloc; "{fault}\n")?;
    Ok(refused(alloc, Status::KindRefused, line.into_bytes()))
}

// What is wrong with a script. `Memory`: want of memory.
fn script_refusal(alloc: Global, text: &Bytes, diagnostics: &Diagnostics) -> Result<Told, Memory>
    ensures { IfOk result (IsTold (bad_script text.now diagnostics.now)) }
{
    let lines = render_all(alloc, diagnostics.as_slice(), text.as_slice())?;
    Ok(refused(alloc, Status::Refused, lines))
}

// A refusal, of which no event comes.
fn refused(alloc: Global, status: Status, report: Vec<u8>) -> Told
    ensures { answer_in result ≡ refusal status report.items }
{
    Told {
        status,
        output: Vec::new(alloc),
        report,
    }
}

// The sum of the results of made lines. `Memory`: want of memory.
fn summary<R: Threads + Sync, G: Gate + Sync>(
    rt: &R,
    alloc: Global,
    script: &ReadyScript,
    jobs: u32,
    count: u64,
    seed: u64,
    gate: &G,
) -> Result<Told, Memory>
    requires ready { IsReadyScript script.now }
    requires jobs { (1 ≤ jobs) × (jobs ≤ 32) }
    requires count { count ≤ 1000000 }
    ensures { IfOk result (IsTold (map_made (run_of script.now) count seed)) }
{
    let report = script.warning_lines(alloc)?;
    let made = run_made(rt, alloc, script, jobs, count, seed, gate)?;
    Ok(Told {
        status: status_if(made.marked),
        output: made.summary,
        report,
    })
}

// The kinds that a script may end with. `Memory`: want of memory.
fn kinds(
    alloc: Global,
    text: &Bytes,
    warnings: &Diagnostics,
    kind: &Kind,
    known: &Known,
    envelope: bool,
) -> Result<Told, Memory>
    ensures { IfOk result (IsTold (tell_kinds text.now warnings.now kind.now known.now envelope)) }
{
    let report = render_all(alloc, warnings.as_slice(), text.as_slice())?;
    Ok(Told {
        status: Status::Done,
        output: kind_lines(alloc, kind, known, envelope)?,
        report,
    })
}

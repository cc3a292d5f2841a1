ghost use Rattle.std.specs.Prelude.{◌≡◌, ◌⊎◌, ◌≤◌, ◌||◌, [], List, None, IfErr, IfOk, IsOk, OnOk};
ghost use Rattle.vrl_batch.specs.Reads.{AsksAtMost, stream};
ghost use Rattle.vrl_batch.specs.Sinks.{Appends, AppendsFront};
ghost use Rattle.vrl_batch.specs.declared.line.Line.{Line};
ghost use Rattle.vrl_generate.specs.Summary.{is_marked};
ghost use Rattle.vrl_io.specs.Faults.{HasRisen};
ghost use Rattle.vrl_run.specs.Answer as spec;
ghost use Rattle.vrl_run.specs.Answer.{outputs, reports};
ghost use Rattle.vrl_run.specs.Answered.{IsAnswered};
ghost use Rattle.vrl_run.specs.Devices.{devices};
ghost use Rattle.vrl_run.specs.Mapping.{run_at, stop_status, EndsMapping, HasStopped, MapsBatch, StopsMapping, TellsMore};
ghost use Rattle.vrl_run.specs.Request.{map_lines as lines_of, run_of, IsReadyScript, IsSame};

use crate::joining::join_results;
use crate::ready_script::ReadyScript;
use crate::status::Status;
use std::alloc::Global;
use std::thread::Threads;
use vrl_batch::{
    BatchFault, Gate, LineOut, Lines, Work, give_all, map_batch, runs_ask_at_most, runs_begin,
    runs_end, runs_front, runs_go_on, runs_stop,
};
use vrl_io::{Clock, Sink, Source};
use vrl_value::Memory;

/// Runs a script over the lines of the input, batch by batch: the results of each are written
/// before more is read.
pub(crate) fn map_lines<R: Threads + Sync, S: Source, O: Sink, E: Sink, C: Clock, G: Gate + Sync>(
    rt: &R,
    alloc: Global,
    script: &ReadyScript,
    jobs: u32,
    input: &mut S,
    output: &mut O,
    report: &mut E,
    clock: &mut C,
    gate: &G,
) -> Status
    requires script { IsReadyScript script.now }
    requires jobs { (1 ≤ jobs) × (jobs ≤ 32) }
    ensures { IsAnswered (IsSame (lines_of (run_of script.now))) result
        (devices (S.left input.old) (S.taken input.old) (S.ended input.old) (S.faults input.old) (C.ahead clock.old)
        (O.written output.old) (O.faults output.old) (E.written report.old) (E.faults report.old))
        (devices (S.left input.new) (S.taken input.new) (S.ended input.new) (S.faults input.new) (C.ahead clock.new)
        (O.written output.new) (O.faults output.new) (E.written report.new) (E.faults report.new))
        ((input.new ≡ input.old) × (clock.new ≡ clock.old)) }
{
    runs_ask_at_most();
    runs_end();
    runs_front();
    runs_go_on();
    runs_stop();
    let warnings = match script.warning_lines(alloc) {
        Ok(warnings) => warnings,
        Err(Memory) => return Status::Memory,
    };
    if give_all(report, &warnings).is_err() {
        return Status::WriteFault;
    }
    let mut lines = match Lines::new(alloc) {
        Ok(lines) => lines,
        Err(Memory) => return Status::Memory,
    };
    let work = script.work();
    let mut marked = false;
    match map_batches(
        rt,
        alloc,
        &work,
        jobs,
        &mut lines,
        &mut marked,
        input,
        output,
        report,
        clock,
        gate,
    ) {
        Ok(()) => status_if(marked),
        Err(status) => status,
    }
}

// Does the work over one batch after the other, to the end of the input.
fn map_batches<
    R: Threads + Sync,
    W: Work + Sync,
    S: Source,
    O: Sink,
    E: Sink,
    C: Clock,
    G: Gate + Sync,
>(
    rt: &R,
    alloc: Global,
    work: &W,
    jobs: u32,
    lines: &mut Lines,
    marked: &mut bool,
    input: &mut S,
    output: &mut O,
    report: &mut E,
    clock: &mut C,
    gate: &G,
) -> Result<(), Status>
    requires jobs { (1 ≤ jobs) × (jobs ≤ 32) }
    requires fresh { lines.old ≡ record { bytes = record { held = []; next = 1; taken = 0 }; fault = None } }
    ensures ends { OnOk result (EndsMapping (W.makes work.now)
        (run_at (stream lines.old.bytes (S.left input.old) (S.taken input.old) (S.ended input.old) (C.ahead clock.old))
        (O.written output.old) (E.written report.old) marked.old)
        (run_at (stream lines.new.bytes (S.left input.new) (S.taken input.new) (S.ended input.new) (C.ahead clock.new))
        (O.written output.new) (E.written report.new) marked.new)) }
    ensures stops { IfErr result (HasStopped (W.makes work.now)
        (run_at (stream lines.old.bytes (S.left input.old) (S.taken input.old) (S.ended input.old) (C.ahead clock.old))
        (O.written output.old) (E.written report.old) marked.old)
        (run_at (stream lines.new.bytes (S.left input.new) (S.taken input.new) (S.ended input.new) (C.ahead clock.new))
        (O.written output.new) (E.written report.new) marked.new)) }

    // Why it stops.
    ensures read_fault { result ≡ Err Status.ReadFault → HasRisen (S.faults input.old) (S.faults input.new) }
    ensures write_fault { result ≡ Err Status.WriteFault
        → HasRisen (O.faults output.old) (O.faults output.new) ⊎ HasRisen (E.faults report.old) (E.faults report.new) }
    ensures read_told { (result ≡ Err Status.ReadFault) ⊎ (S.faults input.new ≡ S.faults input.old) }
    ensures write_told { (result ≡ Err Status.WriteFault)
        ⊎ ((O.faults output.new ≡ O.faults output.old) × (E.faults report.new ≡ E.faults report.old)) }
{
    runs_begin();
    runs_go_on();
    while map_next(
        rt, alloc, work, jobs, lines, marked, input, output, report, clock, gate,
    )? {}
    Ok(())
}

// How a run over lines ended, of which some were refused or none.
pub(crate) fn status_if(marked: bool) -> Status
    ensures { result ≡ spec.status_if marked }
{
    if marked { Status::Marked } else { Status::Done }
}

// Does the work over one batch more, and tells whether there was one.
fn map_next<
    R: Threads + Sync,
    W: Work + Sync,
    S: Source,
    O: Sink,
    E: Sink,
    C: Clock,
    G: Gate + Sync,
>(
    rt: &R,
    alloc: Global,
    work: &W,
    jobs: u32,
    lines: &mut Lines,
    marked: &mut bool,
    input: &mut S,
    output: &mut O,
    report: &mut E,
    clock: &mut C,
    gate: &G,
) -> Result<bool, Status>
    requires jobs { (1 ≤ jobs) × (jobs ≤ 32) }
    requires fault { lines.old.fault ≡ None }
    ensures batch { IfOk result (λ more. (batch : List Line) × MapsBatch (W.makes work.now)
        (run_at (stream lines.old.bytes (S.left input.old) (S.taken input.old) (S.ended input.old) (C.ahead clock.old))
        (O.written output.old) (E.written report.old) marked.old)
        (run_at (stream lines.new.bytes (S.left input.new) (S.taken input.new) (S.ended input.new) (C.ahead clock.new))
        (O.written output.new) (E.written report.new) marked.new)
        batch × TellsMore more batch) }
    ensures stops { IfErr result (StopsMapping (W.makes work.now)
        (run_at (stream lines.old.bytes (S.left input.old) (S.taken input.old) (S.ended input.old) (C.ahead clock.old))
        (O.written output.old) (E.written report.old) marked.old)
        (run_at (stream lines.new.bytes (S.left input.new) (S.taken input.new) (S.ended input.new) (C.ahead clock.new))
        (O.written output.new) (E.written report.new) marked.new)) }
    ensures fault { OnOk result (lines.new.fault ≡ None) }
    ensures asks { AsksAtMost
        (stream lines.old.bytes (S.left input.old) (S.taken input.old) (S.ended input.old) (C.ahead clock.old))
        (stream lines.new.bytes (S.left input.new) (S.taken input.new) (S.ended input.new) (C.ahead clock.new)) }

    // Why it stops.
    ensures read_fault { result ≡ Err Status.ReadFault → HasRisen (S.faults input.old) (S.faults input.new) }
    ensures write_fault { result ≡ Err Status.WriteFault
        → HasRisen (O.faults output.old) (O.faults output.new) ⊎ HasRisen (E.faults report.old) (E.faults report.new) }
    ensures read_told { (result ≡ Err Status.ReadFault) ⊎ (S.faults input.new ≡ S.faults input.old) }
    ensures write_told { (result ≡ Err Status.WriteFault)
        ⊎ ((O.faults output.new ≡ O.faults output.old) × (E.faults report.new ≡ E.faults report.old)) }
{
    let batch = match lines.next_batch(input, clock) {
        Ok(batch) => batch,
        Err(fault) => return Err(status_of(fault)),
    };
    let Ok(results) = map_batch(rt, alloc, jobs, &batch, work, gate) else {
        return Err(Status::Memory);
    };
    let refused = write_results(alloc, results.as_slice(), output, report)?;
    mark_if(marked, refused);
    Ok(!batch.as_slice().is_empty())
}

// Marks a run of which a line was refused.
fn mark_if(marked: &mut bool, refused: bool)
    ensures { marked.new ≡ (marked.old || refused) }
{
    if refused {
        *marked = true;
    }
}

// How a run ends at a fault of its lines.
fn status_of(fault: BatchFault) -> Status
    ensures { result ≡ stop_status fault }
{
    match fault {
        BatchFault::ReadFault => Status::ReadFault,
        BatchFault::TooMuch => Status::TooMuch,
        BatchFault::Memory => Status::Memory,
    }
}

// Writes the results of a batch, first those for the output, and tells whether a line was refused.
fn write_results<O: Sink, E: Sink>(
    alloc: Global,
    results: &[LineOut],
    output: &mut O,
    report: &mut E,
) -> Result<bool, Status>
    ensures written { IfOk result (λ marked. (marked ≡ is_marked results.now)
        × Appends (O.written output.old) (O.written output.new) (outputs results.now)
        × Appends (E.written report.old) (E.written report.new) (reports results.now)) }
    ensures front { AppendsFront (O.written output.old) (O.written output.new) (outputs results.now)
        × AppendsFront (E.written report.old) (E.written report.new) (reports results.now) }
    ensures order { Appends (O.written output.old) (O.written output.new) (outputs results.now)
        ⊎ (E.written report.new ≡ E.written report.old) }
    ensures none { results.now ≡ [] → IsOk result }
    ensures memory { result ≡ Err Status.Memory → (O.written output.new ≡ O.written output.old)
        × (E.written report.new ≡ E.written report.old) }
    ensures either { IfErr result (λ status. (status ≡ Status.WriteFault) ⊎ (status ≡ Status.Memory)) }
    ensures cause { result ≡ Err Status.WriteFault
        → HasRisen (O.faults output.old) (O.faults output.new) ⊎ HasRisen (E.faults report.old) (E.faults report.new) }
    ensures told { (result ≡ Err Status.WriteFault)
        ⊎ ((O.faults output.new ≡ O.faults output.old) × (E.faults report.new ≡ E.faults report.old)) }
{
    let Ok(all) = join_results(alloc, results) else {
        return Err(Status::Memory);
    };
    if give_all(output, &all.output).is_err() || give_all(report, &all.report).is_err() {
        return Err(Status::WriteFault);
    }
    Ok(all.marked)
}

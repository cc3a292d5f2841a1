// Workers on the lines of a batch.
ghost use Rattle.std.specs.Prelude.{◌≡◌, IfOk};
ghost use Rattle.vrl_batch.specs.declared.work.Outcome.TheVariants.{Fine};

use crate::meeting::Meeting;
use std::alloc::Global;
use std::process::Abort;
use std::sync::atomic::{AtomicU64, Ordering};
use std::thread::Threads;
use vrl_batch::{Batch, Chunk, FreeGate, Gate, Line, LineOut, Outcome, Outs, Work, map_batch};
use vrl_value::{Bytes, Memory, Moment};

// Gives each line back, and its number as the count of events.
struct Copies;

impl Work for Copies {
    ghost use Rattle.vrl_batch.specs.declared.work.Outcome.TheVariants.{Fine};

    ghost makes = { λ _ line. record { output = line.bytes; report = line.bytes; kept = line.number; outcome = Fine } };

    fn each<G: Gate>(&self, alloc: Global, mut chunk: Chunk<'_, G>) -> Result<Outs, Memory> {
        let mut outs = Vec::with_capacity(alloc, chunk.len())?;
        while let Some(line) = chunk.next() {
            outs.push(copied(alloc, line)?)?;
        }
        Ok(Outs::new(outs))
    }
}

// The line, and its number as the count of events.
fn copied(alloc: Global, line: &Line) -> Result<LineOut, Memory>
    ensures { IfOk result
        (λ out. out
        ≡ record { output = line.now.bytes; report = line.now.bytes; kept = line.now.number; outcome = Fine }) }
{
    Ok(LineOut {
        output: Bytes::new(line.bytes.as_slice().to_vec(alloc)?),
        report: Bytes::new(line.bytes.as_slice().to_vec(alloc)?),
        kept: line.number,
        outcome: Outcome::Fine,
    })
}

// So many lines `{}`, numbered from 1.
fn batch_of(alloc: Global, count: u64) -> Result<Batch, Memory> {
    let mut lines = Vec::new(alloc);
    for number in 0..count {
        lines.push(Line::new(alloc, number + 1, b"{}", Moment::epoch())?)?;
    }
    Ok(Batch::new(lines))
}

// Whether the results stand in the lines' order.
fn are_in_order(outs: &[LineOut], count: u64) -> bool {
    let mut number = 0u64;
    for out in outs {
        number = number.saturating_add(1);
        if out.kept != number || out.output.as_slice() != b"{}".as_slice() {
            return false;
        }
    }
    number == count
}

fn is_mapped<R: Threads + Sync, G: Gate + Sync>(
    rt: &R,
    alloc: Global,
    count: u64,
    jobs: u32,
    gate: &G,
) -> Result<bool, Memory> {
    let batch = batch_of(alloc, count)?;
    let outs = map_batch(rt, alloc, jobs.max(1).min(32), &batch, &Copies, gate)?;
    Ok(are_in_order(outs.as_slice(), count))
}

// How many lines, and by how many workers.
const ROWS: [(u64, u32); 12] = [
    (0, 1),
    (0, 32),
    (1, 1),
    (1, 32),
    (2, 2),
    (3, 2),
    (31, 32),
    (33, 32),
    (100, 3),
    (256, 1),
    (256, 7),
    (256, 32),
];

#[test]
fn results_in_order(rt: HostRuntime) -> Result<(), Memory> {
    for (count, jobs) in &ROWS {
        assert!(rt;
            is_mapped(&rt, rt.alloc(), *count, *jobs, &FreeGate)?,
            "{count} {jobs}"
        );
    }
    Ok(())
}

#[test]
fn two_workers_meet(rt: HostRuntime) -> Result<(), Memory> {
    let meeting = Meeting::within(100_000_000);
    assert!(rt; is_mapped(&rt, rt.alloc(), 64, 2, &meeting)?);
    assert!(rt; !meeting.is_missed());
    Ok(())
}

#[test]
fn one_worker_meets_nobody(rt: HostRuntime) -> Result<(), Memory> {
    let meeting = Meeting::within(10_000_000);
    assert!(rt; is_mapped(&rt, rt.alloc(), 64, 1, &meeting)?);
    assert!(rt; meeting.is_missed());
    Ok(())
}

// How many lines have passed, and whether a line passed or was worked on out of turn: each passes,
// and then the work on it is done.
#[derive(Drop)]
struct Turns {
    passed: AtomicU64,
    wrong: AtomicU64,
}

impl Gate for Turns {
    fn pass(&self, place: usize) {
        if self.passed.fetch_add(1, Ordering::SeqCst) != place as u64 {
            self.wrong.store(1, Ordering::SeqCst);
        }
    }
}

impl Work for Turns {
    ghost use Rattle.vrl_batch.specs.declared.work.Outcome.TheVariants.{Fine};

    ghost makes = { λ _ line. record { output = line.bytes; report = line.bytes; kept = line.number; outcome = Fine } };

    fn each<G: Gate>(&self, alloc: Global, mut chunk: Chunk<'_, G>) -> Result<Outs, Memory> {
        let mut outs = Vec::with_capacity(alloc, chunk.len())?;
        while let Some(line) = chunk.next() {
            if self.passed.load(Ordering::SeqCst) != line.number {
                self.wrong.store(1, Ordering::SeqCst);
            }
            outs.push(copied(alloc, line)?)?;
        }
        Ok(Outs::new(outs))
    }
}

#[test]
fn lines_pass_before_their_work(rt: HostRuntime) -> Result<(), Memory> {
    let alloc = rt.alloc();
    let turns = Turns {
        passed: AtomicU64::new(0),
        wrong: AtomicU64::new(0),
    };
    let batch = batch_of(alloc, 64)?;
    let outs = map_batch(&rt, alloc, 1, &batch, &turns, &turns)?;
    assert!(rt; are_in_order(outs.as_slice(), 64));
    assert!(rt;
        turns.passed.load(Ordering::SeqCst) == 64 && turns.wrong.load(Ordering::SeqCst) == 0
    );
    Ok(())
}

ghost use Rattle.std.specs.Prelude.{◌≡◌, ◌++◌, ◌≤◌, List, IfOk};
ghost use Rattle.vrl_batch.specs.declared.work.LineOut.{LineOut};
ghost use Rattle.vrl_generate.specs.Summary.{is_marked, summary_of, IsSummaryOf};
ghost use Rattle.vrl_run.specs.Answer.{made_results};
ghost use Rattle.vrl_run.specs.Request.{IsReadyScript, run_of};

use crate::ready_script::ReadyScript;
use std::alloc::Global;
use std::thread::Threads;
use vrl_batch::{Gate, LineOut, map_batch};
use vrl_generate::{Generator, Summary};
use vrl_value::Memory;

// What is told of the results of made lines.
#[derive(Drop)]
pub(crate) struct Told {
    // Their summary.
    pub(crate) summary: Vec<u8>,
    // Whether a line was refused.
    pub(crate) marked: bool,
}

// Runs a script over so many lines, which are made from a seed, batch by batch, and tells of their
// results. `Memory`: want of memory.
pub(crate) fn run_made<R: Threads + Sync, G: Gate + Sync>(
    rt: &R,
    alloc: Global,
    script: &ReadyScript,
    jobs: u32,
    count: u64,
    seed: u64,
    gate: &G,
) -> Result<Told, Memory>
    requires ready { IsReadyScript script.now }
    requires jobs { (1 ≤ jobs) × (jobs ≤ 32) }
    requires count { count ≤ 1000000 }
    ensures summary { IfOk result
        (λ told. told.summary.items ≡ summary_of (made_results (run_of script.now) count seed)) }
    ensures marked { IfOk result (λ told. told.marked ≡ is_marked (made_results (run_of script.now) count seed)) }
{
    let work = script.work();
    let mut lines = Generator::new(count, seed);
    let mut summary = Summary::new();
    let mut batch = lines.next_batch(alloc)?;
    while !batch.as_slice().is_empty() {
        let results = map_batch(rt, alloc, jobs, &batch, &work, gate)?;
        add_all(&mut summary, results.as_slice());
        batch = lines.next_batch(alloc)?;
    }
    let marked = summary.is_marked();
    Ok(Told {
        summary: summary.into_text(alloc)?,
        marked,
    })
}

// Adds these results to a summary.
fn add_all(summary: &mut Summary, results: &[LineOut])
    ensures { (outs : List LineOut) → IsSummaryOf outs summary.old → IsSummaryOf (outs ++ results.now) summary.new }
{
    for made in results {
        summary.add(made);
    }
}

ghost use Rattle.std.specs.Prelude.{◌≡◌, ◌+◌, ◌-◌, ◌/◌, ◌^◌, ◌<◌, ◌≤◌, [], length, map, IfOk, IsOk};
ghost use Rattle.vrl_batch.specs.Outs.{Joins};

use crate::batch::Batch;
use crate::chunk::Chunk;
use crate::gate::Gate;
use crate::line::Line;
use crate::outs::Outs;
use crate::work::Work;
use std::alloc::Global;
use std::thread;
use std::thread::Threads;
use vrl_value::Memory;

/// What `work` makes of the lines of a batch, in their order, by at most `jobs` workers, which are
/// 1 to 32. The batch is cut into consecutive chunks of (lines + jobs - 1) / jobs lines, and each
/// worker owns the results of its chunk; before each line it passes the gate with the line's place.
/// Where a thread can't be started the caller does that work itself. `Memory`: out of memory, for a
/// batch that has a line.
pub fn map_batch<R: Threads + Sync, W: Work + Sync, G: Gate + Sync>(
    rt: &R,
    alloc: Global,
    jobs: u32,
    batch: &Batch,
    work: &W,
    gate: &G,
) -> Result<Outs, Memory>
    requires jobs { (1 ≤ jobs) × (jobs ≤ 32) }
    ensures made { IfOk result (λ outs. outs ≡ map (W.makes work.now) batch.now) }
    ensures none { batch.now ≡ [] → IsOk result }
{
    let lines = batch.as_slice();
    if lines.is_empty() {
        return Ok(Outs::new(Vec::new(alloc)));
    }
    let size = chunk_size(lines.len(), jobs as usize);
    let chunk = |start: usize, chunk: &[Line]| -> Result<Outs, Memory>
        requires { start + length chunk.now < 2 ^ 64 }
        ensures { IfOk result (λ outs. outs ≡ map (W.makes work.entry.now) chunk.now) }
    { work.each(alloc, Chunk::new(start, chunk, gate)) };
    let parts = thread::map_chunks(rt, alloc, lines, size, &chunk)?;
    joined(alloc, parts)
}

// How many lines a chunk has, but for the last one.
fn chunk_size(lines: usize, jobs: usize) -> usize
    requires lines { (0 < lines) × (lines < 2 ^ 63) }
    requires jobs { (1 ≤ jobs) × (jobs ≤ 32) }
    ensures is { result ≡ (lines + jobs - 1) / jobs }
    ensures some { 0 < result }
{
    (lines + jobs - 1) / jobs
}

// The results of all chunks.
fn joined(alloc: Global, parts: Vec<Result<Outs, Memory>>) -> Result<Outs, Memory>
    ensures { IfOk result (Joins parts.items []) }
{
    let mut all = Vec::new(alloc);
    for part in parts {
        all.append(&mut part?.into_vec())?;
    }
    Ok(Outs::new(all))
}

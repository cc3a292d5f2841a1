// Calls over a script, a kind file and lines in memory.
use remap_call::remap;
use std::alloc::Global;
use std::process::Abort;
use std::thread::Threads;
use vrl_batch::{FreeGate, Gate};
use vrl_io::{MemoryClock, MemorySink, MemorySource, MemoryStore};
use vrl_run::Status;
use vrl_tests::Meeting;
use vrl_value::{Bytes, Chars, Memory};

// What is written by a call: its status, and what its sinks hold.
#[derive(Drop)]
pub(crate) struct Written {
    pub(crate) status: Status,
    pub(crate) output: Vec<u8>,
    pub(crate) report: Vec<u8>,
}

pub(crate) fn words_of(alloc: Global, words: &[&str]) -> Result<Vec<String>, Memory> {
    let mut owned = Vec::new(alloc);
    for word in words {
        owned.push(String::from_str(alloc, word)?)?;
    }
    Ok(owned)
}

// A store that holds a script under `s` and a kind file under `k`, and the loads that fail.
pub(crate) fn store(
    alloc: Global,
    script: &str,
    kind: &str,
    failing: Vec<u64>,
) -> Result<MemoryStore, Memory> {
    let mut held = Vec::new(alloc);
    held.push((
        Chars::copy_of(alloc, "s")?,
        Bytes::new(script.as_bytes().to_vec(alloc)?),
    ))?;
    held.push((
        Chars::copy_of(alloc, "k")?,
        Bytes::new(kind.as_bytes().to_vec(alloc)?),
    ))?;
    Ok(MemoryStore::new(alloc, held, failing))
}

// So many lines `{}`.
fn lines(alloc: Global, count: usize) -> Result<Vec<u8>, Memory> {
    let mut bytes = Vec::new(alloc);
    for _ in 0..count {
        bytes.extend_from_slice(b"{}\n")?;
    }
    Ok(bytes)
}

// So many pieces of three bytes, and the take that fails.
fn source(alloc: Global, count: usize, failing: Option<u64>) -> Result<MemorySource, Memory> {
    let mut pieces = Vec::new(alloc);
    pieces.resize(count, 3)?;
    let mut faults = Vec::new(alloc);
    if let Some(number) = failing {
        faults.push(number)?;
    }
    Ok(MemorySource::new(lines(alloc, count)?, pieces, faults))
}

fn call<R: Threads + Sync, G: Gate + Sync>(
    rt: &R,
    alloc: Global,
    words: &[&str],
    count: usize,
    failing: Option<u64>,
    gate: &G,
) -> Result<Written, Memory> {
    let words = words_of(alloc, words)?;
    let mut output = MemorySink::new(alloc, Vec::new(alloc));
    let mut report = MemorySink::new(alloc, Vec::new(alloc));
    let status = remap(
        rt,
        alloc,
        &words,
        &mut store(
            alloc,
            ".x = 1",
            "{\"object\":{\"a\":\"string\"}}",
            Vec::new(alloc),
        )?,
        &mut source(alloc, count, failing)?,
        &mut output,
        &mut report,
        &mut MemoryClock::new(Vec::new(alloc)),
        gate,
    );
    Ok(Written {
        status,
        output: output.written().to_vec(alloc)?,
        report: report.written().to_vec(alloc)?,
    })
}

// The words, how many lines, the take that fails, the status, and how many events are written, each
// `{"x":1}` and a newline.
type Row = (&'static [&'static str], usize, Option<u64>, Status, usize);

#[rattlefmt::skip]
const ROWS: [Row; 9] = [
    (&["s"], 300, None, Status::Done, 300),
    (&["s", "--jobs", "2"], 300, None, Status::Done, 300),
    (&["s", "--jobs=32"], 257, None, Status::Done, 257),
    // The batch before the fault is written whole, and no line of the next.
    (&["s"], 300, Some(290), Status::ReadFault, 256),
    (&["s", "--jobs=8"], 300, Some(290), Status::ReadFault, 256),
    (&["s"], 300, Some(100), Status::ReadFault, 0),
    (&["s", "--kind", "k"], 2, None, Status::Marked, 0),
    (&["s", "--kind", "s"], 2, None, Status::KindRefused, 0),
    (&["s", "--jobs=33"], 2, None, Status::Usage, 0),
];

#[test]
fn batches_are_written(rt: HostRuntime) -> Result<(), Memory> {
    let alloc = rt.alloc();
    for row in &ROWS {
        let written = call(&rt, alloc, row.0, row.1, row.2, &FreeGate)?;
        assert!(rt; written.status == row.3, "{:?} {:?}", row.0, row.1);
        assert!(rt;
            written.output.len() == 8 * row.4,
            "{:?} {:?}",
            row.0,
            row.1
        );
    }
    Ok(())
}

// Whether place 0 and place 32 of 64 lines meet.
fn is_met<R: Threads + Sync>(
    rt: &R,
    alloc: Global,
    words: &[&str],
    size: usize,
) -> Result<bool, Memory> {
    let meeting = Meeting::within(100_000_000);
    let written = call(rt, alloc, words, 64, None, &meeting)?;
    Ok(written.status == Status::Done && written.output.len() >= size && !meeting.is_missed())
}

#[test]
fn two_workers_meet(rt: HostRuntime) -> Result<(), Memory> {
    let alloc = rt.alloc();
    assert!(rt; is_met(&rt, alloc, &["s", "--jobs", "2"], 8 * 64)?);
    // Lines that are made, of which a summary is written.
    assert!(rt; is_met(&rt, alloc, &["s", "--jobs", "2", "--generate", "64:1"], 1)?);
    Ok(())
}

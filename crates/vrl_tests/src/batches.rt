// Batches of lines, over sources in memory that give pieces and fail.
use std::alloc::Global;
use std::process::Abort;
use vrl_batch::{Batch, BatchFault, Lines};
use vrl_io::{MemoryClock, MemorySource};
use vrl_value::Memory;

// An input is so many lines, each of which has this text and then so many of this byte, and then
// the last text. It comes behind so many bytes that are counted as taken, in pieces of this size,
// and the take with this number fails.
#[derive(Clone, Copy)]
struct Input {
    text: &'static str,
    fill: u8,
    width: usize,
    lines: usize,
    last: &'static str,
    taken: u64,
    piece: Option<usize>,
    failing: Option<u64>,
}

const NONE: Input = Input {
    text: "",
    fill: b'a',
    width: 0,
    lines: 0,
    last: "",
    taken: 0,
    piece: None,
    failing: None,
};

// What is told of each batch: its first and last number, how many lines it has, how many bytes
// these keep, and how many are too long; then of the end or the fault, and of one call more.
const ROWS: [(Input, &str); 24] = [
    (NONE, "end end "),
    (Input { last: "{}", ..NONE }, "1-1 1 2 0|end end "),
    (
        Input {
            last: "{}\n",
            ..NONE
        },
        "1-1 1 2 0|end end ",
    ),
    (
        Input {
            last: "\n \n{}\n\n[1]",
            ..NONE
        },
        "3-5 2 5 0|end end ",
    ),
    (
        Input {
            last: "\n\t\r \n",
            ..NONE
        },
        "end end ",
    ),
    (Input { last: "  ", ..NONE }, "end end "),
    // One line more than a batch has.
    (
        Input {
            text: "{}",
            lines: 257,
            ..NONE
        },
        "1-256 256 512 0|257-257 1 2 0|end end ",
    ),
    (
        Input {
            text: "{}",
            lines: 256,
            last: "[]",
            ..NONE
        },
        "1-256 256 512 0|257-257 1 2 0|end end ",
    ),
    (
        Input {
            text: "{}",
            lines: 255,
            last: "[]",
            ..NONE
        },
        "1-256 256 512 0|end end ",
    ),
    (
        Input {
            text: "{}",
            lines: 256,
            ..NONE
        },
        "1-256 256 512 0|end end ",
    ),
    // Pieces of one byte.
    (
        Input {
            text: "{}\n",
            lines: 129,
            last: "{}",
            piece: Some(1),
            ..NONE
        },
        "1-259 130 260 0|end end ",
    ),
    (
        Input {
            text: "{}",
            lines: 257,
            piece: Some(1),
            ..NONE
        },
        "1-256 256 512 0|257-257 1 2 0|end end ",
    ),
    // Lines about the limit of length.
    (
        Input {
            width: 1_048_576,
            lines: 1,
            last: "{}\n",
            ..NONE
        },
        "1-2 2 1048578 0|end end ",
    ),
    (
        Input {
            width: 1_048_577,
            lines: 1,
            last: "{}\n",
            ..NONE
        },
        "1-2 2 2 1|end end ",
    ),
    (
        Input {
            width: 1_200_000,
            lines: 1,
            ..NONE
        },
        "1-1 1 0 1|end end ",
    ),
    (
        Input {
            fill: b' ',
            width: 1_200_000,
            lines: 1,
            last: "{}\n",
            ..NONE
        },
        "2-2 1 2 0|end end ",
    ),
    // As many bytes as a batch has.
    (
        Input {
            width: 1_048_576,
            lines: 9,
            ..NONE
        },
        "1-8 8 8388608 0|9-9 1 1048576 0|end end ",
    ),
    // Faults.
    (
        Input {
            last: "{}\n{}\n{}",
            piece: Some(4),
            failing: Some(1),
            ..NONE
        },
        "ReadFault ReadFault ",
    ),
    (
        Input {
            text: "{}",
            lines: 300,
            piece: Some(3),
            failing: Some(290),
            ..NONE
        },
        "1-256 256 512 0|ReadFault ReadFault ",
    ),
    // Five takes of 65,536 bytes, and one that tells the end.
    (
        Input {
            width: 65_535,
            lines: 5,
            failing: Some(6),
            ..NONE
        },
        "1-5 5 327675 0|end end ",
    ),
    (
        Input {
            width: 65_535,
            lines: 5,
            failing: Some(5),
            ..NONE
        },
        "ReadFault ReadFault ",
    ),
    // The last bytes of 2^40.
    (
        Input {
            last: "{}\n",
            taken: 1_099_511_627_774,
            ..NONE
        },
        "TooMuch TooMuch ",
    ),
    (
        Input {
            last: "{}",
            taken: 1_099_511_627_774,
            ..NONE
        },
        "1-1 1 2 0|end end ",
    ),
    (
        Input {
            last: "",
            taken: 1_099_511_627_776,
            ..NONE
        },
        "end end ",
    ),
];

fn add_line(bytes: &mut Vec<u8>, input: &Input) -> Result<(), Memory> {
    bytes.extend_from_slice(input.text.as_bytes())?;
    bytes.resize(bytes.len().saturating_add(input.width), input.fill)?;
    Ok(bytes.extend_from_slice(b"\n")?)
}

// The bytes of the input.
fn bytes_of(alloc: Global, input: &Input) -> Result<Vec<u8>, Memory> {
    let mut bytes = Vec::new(alloc);
    for _ in 0..input.lines {
        add_line(&mut bytes, input)?;
    }
    bytes.extend_from_slice(input.last.as_bytes())?;
    Ok(bytes)
}

fn source(alloc: Global, input: &Input) -> Result<MemorySource, Memory> {
    let mut pieces = Vec::new(alloc);
    if let Some(size) = input.piece {
        pieces.resize(2_000, size)?;
    }
    let mut failing = Vec::new(alloc);
    if let Some(number) = input.failing {
        failing.push(number)?;
    }
    Ok(MemorySource::new(bytes_of(alloc, input)?, pieces, failing))
}

fn batch_told(alloc: Global, batch: &Batch) -> Result<String, Memory> {
    let lines = batch.as_slice();
    if lines.is_empty() {
        return Ok(String::from_str(alloc, "end ")?);
    }
    let mut kept = 0u64;
    let mut long = 0u64;
    for line in lines {
        kept = kept.saturating_add(line.bytes.as_slice().len() as u64);
        long = long.saturating_add(u64::from(line.long));
    }
    let first = lines.first().map_or(0, |line| line.number);
    let last = lines.last().map_or(0, |line| line.number);
    Ok(format!(in alloc; "{first}-{last} {} {kept} {long}|", lines.len())?)
}

fn fault_told(fault: BatchFault) -> &'static str {
    match fault {
        BatchFault::ReadFault => "ReadFault ",
        BatchFault::TooMuch => "TooMuch ",
        BatchFault::Memory => "Memory ",
    }
}

// Adds what is told of the next batch, and answers whether there may be more.
fn tell_next(
    alloc: Global,
    lines: &mut Lines,
    source: &mut MemorySource,
    clock: &mut MemoryClock,
    text: &mut String,
) -> Result<bool, Memory> {
    match lines.next_batch(source, clock) {
        Ok(batch) => {
            text.push_str(batch_told(alloc, &batch)?.as_str())?;
            Ok(!batch.as_slice().is_empty())
        }
        Err(fault) => {
            text.push_str(fault_told(fault))?;
            Ok(false)
        }
    }
}

// What is told of all batches of an input, and of one call more.
fn told(alloc: Global, input: &Input) -> Result<String, Memory> {
    let mut source = source(alloc, input)?;
    let mut clock = MemoryClock::new(Vec::new(alloc));
    let mut lines = Lines::after(alloc, input.taken.min(1_099_511_627_776))?;
    let mut text = String::new(alloc);
    for _ in 0..10 {
        if !tell_next(alloc, &mut lines, &mut source, &mut clock, &mut text)? {
            break;
        }
    }
    tell_next(alloc, &mut lines, &mut source, &mut clock, &mut text)?;
    Ok(text)
}

#[test]
fn batches(rt: HostRuntime) -> Result<(), Memory> {
    let alloc = rt.alloc();
    for (input, wanted) in &ROWS {
        let text = told(alloc, input)?;
        assert!(rt; text.as_str() == *wanted, "{text} for {wanted}");
    }
    Ok(())
}

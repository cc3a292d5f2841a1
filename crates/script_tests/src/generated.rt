// Lines that are made from a seed, and the summary of their results.
use std::alloc::Global;
use std::process::Abort;
use vrl_batch::{Line, LineOut, Outcome};
use vrl_generate::{Generator, Summary};
use vrl_value::{Bytes, Memory};

// A seed, and the first, the second and the thousandth of its lines, as `trials/generate.py` works
// them out.
type Row = (u64, &'static str, &'static str, &'static str);

const LINES: [Row; 3] = [
    (
        1,
        "{\"host\":\"h6\",\"level\":\"ERROR\",\"message\":\"request 1 took 543 ms\",\"n\":774}",
        "{\"host\":\"h9\",\"level\":\"INFO\",\"message\":\"request 2 took 877 ms\",\"n\":153}",
        "{\"host\":\"h3\",\"level\":\"ERROR\",\"message\":\"request 1000 took 926 ms\",\"n\":315}",
    ),
    (
        7,
        "{\"host\":\"h14\",\"level\":\"INFO\",\"message\":\"request 1 took 457 ms\",\"n\":278}",
        "{\"host\":\"h15\",\"level\":\"ERROR\",\"message\":\"request 2 took 612 ms\",\"n\":231}",
        "{\"host\":\"h6\",\"level\":\"ERROR\",\"message\":\"request 1000 took 834 ms\",\"n\":414}",
    ),
    (
        4_294_967_295,
        "{\"host\":\"h15\",\"level\":\"INFO\",\"message\":\"request 1 took 964 ms\",\"n\":759}",
        "{\"host\":\"h12\",\"level\":\"INFO\",\"message\":\"request 2 took 78 ms\",\"n\":36}",
        "{\"host\":\"h2\",\"level\":\"INFO\",\"message\":\"request 1000 took 166 ms\",\"n\":674}",
    ),
];

// Whether a line has this number, its moment, and the text that the row has for it, if any.
fn is_line(line: &Line, number: u64, row: &Row) -> bool {
    let text = match number {
        1 => row.1,
        2 => row.2,
        1000 => row.3,
        _ => return line.number == number,
    };
    let seconds = line.moment.nanos() / 1_000_000_000;
    line.number == number
        && line.bytes.as_slice() == text.as_bytes()
        && seconds - 1_700_000_000 == number as i128
}

// Whether the next line is the row's line of this number.
fn is_next(alloc: Global, lines: &mut Generator, number: u64, row: &Row) -> Result<bool, Memory> {
    match lines.next_line(alloc)? {
        Some(line) => Ok(is_line(&line, number, row)),
        None => Ok(false),
    }
}

fn holds(alloc: Global, row: &Row) -> Result<bool, Memory> {
    let mut lines = Generator::new(1000, row.0);
    for number in 1..1001 {
        if !is_next(alloc, &mut lines, number, row)? {
            return Ok(false);
        }
    }
    Ok(lines.next_line(alloc)?.is_none())
}

fn expect_rows(rt: &impl Abort, alloc: Global, rows: &[Row]) -> Result<(), Memory> {
    for row in rows {
        let is_so = holds(alloc, row)?;
        assert!(rt; is_so, "seed {}", row.0);
    }
    Ok(())
}

#[test]
fn lines(rt: HostRuntime) -> Result<(), Memory> {
    expect_rows(&rt, rt.alloc(), &LINES)
}

// How a line went, what is written of it, and how many events that is.
type Made = (Outcome, &'static str, u64);

const RESULTS: [Made; 5] = [
    (Outcome::Fine, "{\"a\":1}\n{\"a\":2}\n", 2),
    (Outcome::Errored, "{\"b\":3}\n", 1),
    (Outcome::Aborted, "", 0),
    (Outcome::Refused, "", 0),
    (Outcome::Errored, "", 0),
];

// What is told of these results. The digest is that of the texts one after another, by Python's
// `hashlib`.
const SUMMARY: &str =
    "lines 5\nwritten 3\nerrors 2\naborted 1\nrefused 1\nbytes 24\nsha256 b0574d4f6453b68b991cdaf2ccf7cc5befe86de529131e52d4c9736d9d2f77b0\n";

fn add(alloc: Global, summary: &mut Summary, row: &Made) -> Result<(), Memory> {
    let made = LineOut {
        output: Bytes::new(row.1.as_bytes().to_vec(alloc)?),
        report: Bytes::new(Vec::new(alloc)),
        kept: row.2,
        outcome: row.0,
    };
    summary.add(&made);
    Ok(())
}

// The summary of results, as its text. `None`: it isn't marked.
fn summary_of(alloc: Global, rows: &[Made]) -> Result<Option<Vec<u8>>, Memory> {
    let mut summary = Summary::new();
    for row in rows {
        add(alloc, &mut summary, row)?;
    }
    if !summary.is_marked() {
        return Ok(None);
    }
    Ok(Some(summary.into_text(alloc)?))
}

#[test]
fn summary(rt: HostRuntime) -> Result<(), Memory> {
    let text = summary_of(rt.alloc(), &RESULTS)?;
    let is_so = match text {
        Some(text) => text.as_slice() == SUMMARY.as_bytes(),
        None => false,
    };
    assert!(rt; is_so);
    Ok(())
}

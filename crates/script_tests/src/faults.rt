// Calls over devices that come in pieces, and that fail at each of their calls in turn.
use crate::program::{Written, store, words_of};
use remap_call::remap;
use std::alloc::Global;
use std::process::Abort;
use std::thread::Threads;
use vrl_batch::FreeGate;
use vrl_io::{MemoryClock, MemorySink, MemorySource, MemoryStore};
use vrl_run::Status;
use vrl_value::{Memory, Moment};

// A script and its lines, and what comes of them: the events, the reports and the status.
#[derive(Clone, Copy)]
struct Run {
    script: &'static str,
    lines: &'static str,
    output: &'static str,
    report: &'static str,
    status: Status,
}

// Lines that are refused, a blank one, and an event without a newline.
const REFUSED: Run = Run {
    script: ".x = 1",
    lines: "{\"p\":1.5}\n{\n\n{\"a\":1}",
    output: "{\"a\":1,\"x\":1}\n",
    report: "line 1: refused: not whole numbers\nline 2: refused: not JSON\n",
    status: Status::Marked,
};

// A message of JSON laid over its event, and one of plain text.
const MESSAGES: Run = Run {
    script: "parsed, err = parse_json(.message)\n. = . | (object(parsed) ?? {})\ndel(.message)\n.level = downcase(.level) ?? \"info\"\n.at = parse_timestamp(.ts, format: \"%+\") ?? now()",
    lines: "{\"host\":\"a\",\"message\":\"{\\\"level\\\":\\\"WARN\\\",\\\"n\\\":3,\\\"ts\\\":\\\"2024-05-06T07:08:09Z\\\"}\"}\n{\"host\":\"b\",\"message\":\"plain\"}\n",
    output: "{\"at\":\"2024-05-06T07:08:09Z\",\"host\":\"a\",\"level\":\"warn\",\"n\":3,\"ts\":\"2024-05-06T07:08:09Z\"}\n{\"at\":\"2024-05-06T10:00:00Z\",\"host\":\"b\",\"level\":\"info\"}\n",
    report: "",
    status: Status::Done,
};

// A script that is refused, so that no line is asked for.
const UNDEFINED: Run = Run {
    script: ".x = y",
    lines: "{}",
    output: "",
    report: "error[E701] 1:6 undefined variable\n",
    status: Status::Refused,
};

// The devices of a call that fail.
#[derive(Clone, Copy, PartialEq, Eq)]
enum Device {
    Store,
    Input,
    Output,
    Report,
}

// How a call is made: the number of workers, the size of the input's pieces, how many bytes a sink
// takes at most, and the device of which the call with this number fails.
#[derive(Clone, Copy)]
struct Way {
    jobs: &'static str,
    piece: usize,
    most: usize,
    fault: Option<(Device, u64)>,
}

// The numbers of the device's calls that fail.
fn failing(alloc: Global, device: Device, way: &Way) -> Result<Vec<u64>, Memory> {
    let mut numbers = Vec::new(alloc);
    if let Some((faulty, number)) = way.fault {
        if faulty == device {
            numbers.push(number)?;
        }
    }
    Ok(numbers)
}

fn source(alloc: Global, lines: &str, way: &Way) -> Result<MemorySource, Memory> {
    let bytes = lines.as_bytes().to_vec(alloc)?;
    let mut pieces = Vec::new(alloc);
    pieces.resize(bytes.len(), way.piece)?;
    Ok(MemorySource::new(bytes, pieces, failing(alloc, Device::Input, way)?))
}

fn sink(alloc: Global, device: Device, way: &Way) -> Result<MemorySink, Memory> {
    Ok(MemorySink::narrow(alloc, failing(alloc, device, way)?, way.most))
}

fn scripts(alloc: Global, script: &str, way: &Way) -> Result<MemoryStore, Memory> {
    store(alloc, script, "", failing(alloc, Device::Store, way)?)
}

// A clock that tells one moment twice.
fn clock(alloc: Global) -> Result<MemoryClock, Memory> {
    let mut moments = Vec::new(alloc);
    if let Some(moment) = Moment::read("2024-05-06T10:00:00Z") {
        moments.resize(2, moment)?;
    }
    Ok(MemoryClock::new(moments))
}

fn call<R: Threads + Sync>(rt: &R, alloc: Global, run: &Run, way: &Way) -> Result<Written, Memory> {
    let words = words_of(alloc, &["s", "--jobs", way.jobs])?;
    let mut output = sink(alloc, Device::Output, way)?;
    let mut report = sink(alloc, Device::Report, way)?;
    let status = remap(
        rt,
        alloc,
        &words,
        &mut scripts(alloc, run.script, way)?,
        &mut source(alloc, run.lines, way)?,
        &mut output,
        &mut report,
        &mut clock(alloc)?,
        &FreeGate,
    );
    Ok(Written {
        status,
        output: output.written().to_vec(alloc)?,
        report: report.written().to_vec(alloc)?,
    })
}

fn is_whole(written: &Written, run: &Run) -> bool {
    written.status == run.status
        && written.output.as_slice() == run.output.as_bytes()
        && written.report.as_slice() == run.report.as_bytes()
}

// Whether a fault is told so, and the sinks hold fronts of the answer.
fn is_front(written: &Written, run: &Run, fault: Status) -> bool {
    written.status == fault
        && run.output.as_bytes().starts_with(&written.output)
        && run.report.as_bytes().starts_with(&written.report)
}

// What a fault of a device is told as.
fn told_as(device: Device) -> Status {
    match device {
        Device::Store | Device::Input => Status::ReadFault,
        Device::Output | Device::Report => Status::WriteFault,
    }
}

// More than the devices have calls.
const MOST_CALLS: u64 = 100;

// What runs, with how many workers, which device fails at each of its calls in turn, and how many
// calls it has.
type Row = (Run, &'static str, Device, u64);

// Whether each of these faults is told so, and the answer is whole where no call has that number.
fn holds<R: Threads + Sync>(rt: &R, alloc: Global, row: &Row) -> Result<bool, Memory> {
    let (run, jobs, device, calls) = row;
    for number in 0..MOST_CALLS {
        let way = Way {
            jobs: *jobs,
            piece: 16,
            most: 7,
            fault: Some((*device, number)),
        };
        let written = call(rt, alloc, run, &way)?;
        if written.status == Status::Memory {
            return Err(Memory);
        }
        if is_whole(&written, run) {
            return Ok(number == *calls);
        }
        if !is_front(&written, run, told_as(*device)) {
            return Ok(false);
        }
    }
    Ok(false)
}

// Inputs of 20 and 117 bytes in pieces of 16, with a call that tells the end; outputs of 14 and 146
// bytes and reports of 61 and 35 in pieces of 7.
#[rattlefmt::skip]
const FAULTS: [Row; 18] = [
    (REFUSED, "1", Device::Store, 1),
    (REFUSED, "1", Device::Input, 3),
    (REFUSED, "1", Device::Output, 2),
    (REFUSED, "1", Device::Report, 9),
    (REFUSED, "8", Device::Store, 1),
    (REFUSED, "8", Device::Input, 3),
    (REFUSED, "8", Device::Output, 2),
    (REFUSED, "8", Device::Report, 9),
    (MESSAGES, "1", Device::Store, 1),
    (MESSAGES, "1", Device::Input, 9),
    (MESSAGES, "1", Device::Output, 21),
    (MESSAGES, "1", Device::Report, 0),
    (MESSAGES, "8", Device::Store, 1),
    (MESSAGES, "8", Device::Input, 9),
    (MESSAGES, "8", Device::Output, 21),
    (MESSAGES, "8", Device::Report, 0),
    (UNDEFINED, "1", Device::Input, 0),
    (UNDEFINED, "1", Device::Report, 5),
];

#[test]
fn each_call_of_a_device_fails(rt: HostRuntime) -> Result<(), Memory> {
    let alloc = rt.alloc();
    for row in &FAULTS {
        let is_so = holds(&rt, alloc, row)?;
        assert!(rt; is_so, "{} with {} workers", row.0.script, row.1);
    }
    Ok(())
}

#[rattlefmt::skip]
const WHOLE: [(Run, &str); 8] = [
    (REFUSED, "1"), (REFUSED, "2"), (REFUSED, "8"), (REFUSED, "32"),
    (MESSAGES, "1"), (MESSAGES, "2"), (MESSAGES, "8"), (MESSAGES, "32"),
];

// Whether the answer is whole where the input comes byte by byte, and each sink takes one at a
// call.
fn is_whole_in_pieces<R: Threads + Sync>(
    rt: &R,
    alloc: Global,
    run: &Run,
    jobs: &'static str,
) -> Result<bool, Memory> {
    let way = Way {
        jobs,
        piece: 1,
        most: 0,
        fault: None,
    };
    let written = call(rt, alloc, run, &way)?;
    Ok(is_whole(&written, run))
}

#[test]
fn pieces_and_workers_change_nothing(rt: HostRuntime) -> Result<(), Memory> {
    let alloc = rt.alloc();
    for row in &WHOLE {
        let is_so = is_whole_in_pieces(&rt, alloc, &row.0, row.1)?;
        assert!(rt; is_so, "{} with {} workers", row.0.script, row.1);
    }
    Ok(())
}

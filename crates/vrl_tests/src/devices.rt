ghost use Rattle.std.specs.Prelude.{◌≤◌, IfOk};

use std::alloc::{AllocError, Global};
use std::io::{self, ErrorKind, Read, Write};
use std::process::Abort;
use std::test::Fail;
use std::time::Duration;
use std::vec::IntoIter;
use std::{env, fs, process, rt};
use vrl_io::{
    Clock, Failed, FileStore, LoadFault, MemoryClock, MemorySink, MemorySource, MemoryStore, Sink,
    Source, StdSink, StdSource, Store, SystemClock,
};
use vrl_value::{Bytes, Chars, Memory, Moment};

/// What one take into the buffer gave; `None`: it failed.
fn take_piece<'a, S: Source>(source: &mut S, buffer: &'a mut [u8]) -> Option<&'a [u8]> {
    let count = source.take(buffer).ok()?;
    Some(&buffer[..count])
}

/// Asserts what takes of up to four bytes give in turn, and that a take of none gives nothing
/// before each.
fn expect_pieces<S: Source>(rt: &impl Abort, source: &mut S, rows: &[Option<&[u8]>]) {
    for row in rows {
        assert!(rt; take_piece(source, &mut []) == Some(b"".as_slice()));
        assert!(rt; take_piece(source, &mut [0; 4]) == *row, "at {row:?}");
    }
}

const PIECES: [Option<&[u8]>; 8] = [
    Some(b"ab"),
    None,
    Some(b"c"),
    None,
    Some(b"defg"),
    Some(b"h"),
    Some(b""),
    Some(b""),
];

#[test]
fn memory_source_gives_its_pieces(rt: HostRuntime) -> Result<(), Fail> {
    let bytes = b"abcdefgh".to_vec(rt.alloc())?;
    let pieces = vec![in rt.alloc(); 2, 0, 100]?;
    let mut source = MemorySource::new(bytes, pieces, vec![in rt.alloc(); 1, 3]?);
    expect_pieces(&rt, &mut source, &PIECES);
    Ok(())
}

/// Asserts how a sink takes each of these in turn.
fn expect_gives<S: Sink>(rt: &impl Abort, sink: &mut S, rows: &[(&[u8], Result<usize, Failed>)]) {
    for (bytes, taken) in rows {
        assert!(rt; sink.give(bytes) == *taken, "at {bytes:?}");
    }
}

const GIVEN: [(&[u8], Result<usize, Failed>); 4] = [
    (b"ab", Ok(2)),
    (b"", Ok(0)),
    (b"cd", Err(Failed)),
    (b"ef", Ok(2)),
];

#[test]
fn memory_sink_keeps_what_is_given(rt: HostRuntime) -> Result<(), Fail> {
    let mut sink = MemorySink::new(rt.alloc(), vec![in rt.alloc(); 1]?);
    expect_gives(&rt, &mut sink, &GIVEN);
    assert!(rt; sink.written() == b"abef".as_slice());
    Ok(())
}

/// Asserts how a sink that takes so many bytes at a call, and fails at the second, takes each of
/// these in turn, and what it holds then.
fn expect_parts(
    rt: &impl Abort,
    alloc: Global,
    most: usize,
    rows: &[(&[u8], Result<usize, Failed>)],
    written: &[u8],
) -> Result<(), AllocError> {
    let mut sink = MemorySink::narrow(alloc, vec![in alloc; 1]?, most);
    expect_gives(rt, &mut sink, rows);
    assert!(rt; sink.written() == written, "at {most}");
    Ok(())
}

const IN_PARTS: [(&[u8], Result<usize, Failed>); 5] = [
    (b"abc", Ok(2)),
    (b"", Ok(0)),
    (b"cd", Err(Failed)),
    (b"cd", Ok(2)),
    (b"e", Ok(1)),
];

const BYTE_BY_BYTE: [(&[u8], Result<usize, Failed>); 3] = [
    (b"ab", Ok(1)),
    (b"b", Err(Failed)),
    (b"b", Ok(1)),
];

#[test]
fn narrow_memory_sinks_take_parts(rt: HostRuntime) -> Result<(), AllocError> {
    expect_parts(&rt, rt.alloc(), 2, &IN_PARTS, b"abcde")?;
    expect_parts(&rt, rt.alloc(), 0, &BYTE_BY_BYTE, b"ab")
}

/// What a load of the name gives, up to this many bytes.
fn load_front<S: Store>(store: &mut S, name: &str, limit: usize) -> Result<Bytes, LoadFault> {
    store.load(name, limit)
}

/// Puts an entry into what a store is to hold.
fn hold(
    alloc: Global,
    held: &mut Vec<(Chars, Bytes)>,
    name: &str,
    bytes: &[u8],
) -> Result<(), Memory> {
    held.push((
        Chars::copy_of(alloc, name)?,
        Bytes::new(bytes.to_vec(alloc)?),
    ))?;
    Ok(())
}

/// A store with two entries of one name, whose third load fails.
fn make_store(alloc: Global) -> Result<MemoryStore, Memory> {
    let mut held = Vec::new(alloc);
    hold(alloc, &mut held, "a", b"first")?;
    hold(alloc, &mut held, "a", b"second")?;
    hold(alloc, &mut held, "b", b"x")?;
    Ok(MemoryStore::new(alloc, held, vec![in alloc; 2]?))
}

/// Whether a load of up to three bytes gives these; `None`: it fails.
fn is_loaded<S: Store>(store: &mut S, name: &str, wanted: Option<&[u8]>) -> bool {
    match load_front(store, name, 3) {
        Ok(bytes) => Some(bytes.as_slice()) == wanted,
        Err(fault) => fault == LoadFault::Failed && wanted.is_none(),
    }
}

/// Asserts what loads of up to three bytes give in turn; `None`: it fails.
fn expect_loads<S: Store>(rt: &impl Abort, store: &mut S, rows: &[(&str, Option<&[u8]>)]) {
    for (name, wanted) in rows {
        assert!(rt; is_loaded(store, name, *wanted), "at {name}");
    }
}

/// Asserts that these names, and no others, were refused in turn.
fn expect_failures(rt: &impl Abort, failures: &[Chars], names: &[&str]) {
    assert!(rt; failures.len() == names.len());
    for (failure, name) in failures.iter().zip(names) {
        assert!(rt; failure.as_str() == *name, "at {name}");
    }
}

const LOADS: [(&str, Option<&[u8]>); 4] = [
    ("a", Some(b"fir")),
    ("c", None),
    ("a", None),
    ("b", Some(b"x")),
];

#[test]
fn memory_store_loads_by_name(rt: HostRuntime) -> Result<(), Memory> {
    let mut store = make_store(rt.alloc())?;
    expect_loads(&rt, &mut store, &LOADS);
    expect_failures(&rt, store.failures(), &["c", "a"]);
    Ok(())
}

/// The nanoseconds of the next moment.
fn next_nanos<C: Clock>(clock: &mut C) -> i128 {
    clock.moment().nanos()
}

/// The moments at these numbers of nanoseconds, but for those out of range.
fn make_moments(alloc: Global, nanos: &[i128]) -> Result<Vec<Moment>, Memory> {
    let mut moments = Vec::new(alloc);
    for nanos in nanos {
        if let Some(moment) = Moment::new(*nanos) {
            moments.push(moment)?;
        }
    }
    Ok(moments)
}

#[test]
fn memory_clock_tells_its_moments(rt: HostRuntime) -> Result<(), Memory> {
    let mut clock = MemoryClock::new(make_moments(rt.alloc(), &[5, -7])?);
    for nanos in &[5, -7, 0] {
        assert!(rt; next_nanos(&mut clock) == *nanos, "at {nanos}");
    }
    Ok(())
}

/// A device whose calls have these outcomes: the number of bytes that it takes or gives, each the
/// letter `x`, or how it fails; after the last it is at its end.
#[derive(Drop)]
struct Scripted {
    outcomes: IntoIter<Result<usize, ErrorKind>>,
}

impl Scripted {
    fn next(&mut self, most: usize) -> io::Result<usize>
        ensures { IfOk result (λ n. n ≤ most) }
    {
        match self.outcomes.next() {
            Some(Ok(count)) => Ok(count.min(most)),
            Some(Err(kind)) => Err(io::Error::from(kind)),
            None => Ok(0),
        }
    }
}

impl Read for Scripted {
    fn read(&mut self, buffer: &mut [u8]) -> io::Result<usize> {
        let count = self.next(buffer.len())?;
        buffer[..count].fill(b'x');
        Ok(count)
    }
}

impl Write for Scripted {
    fn write(&mut self, bytes: &[u8]) -> io::Result<usize> {
        self.next(bytes.len())
    }

    fn flush(&mut self) -> io::Result<()> {
        Ok(())
    }
}

/// Interrupted once, then 2, then a failure, then 1.
fn make_scripted(alloc: Global) -> Result<Scripted, AllocError> {
    let outcomes = vec![in alloc;
        Err(ErrorKind::Interrupted),
        Ok(2),
        Err(ErrorKind::Other),
        Ok(1),
    ]?;
    Ok(Scripted {
        outcomes: outcomes.into_iter(),
    })
}

const SCRIPTED_PIECES: [Option<&[u8]>; 5] = [Some(b"xx"), None, Some(b"x"), Some(b""), Some(b"")];

#[test]
fn std_source_reads(rt: HostRuntime) -> Result<(), Fail> {
    let mut source = StdSource::new(make_scripted(rt.alloc())?);
    expect_pieces(&rt, &mut source, &SCRIPTED_PIECES);
    Ok(())
}

#[test]
fn std_sink_writes(rt: HostRuntime) -> Result<(), Fail> {
    let mut sink = StdSink::new(make_scripted(rt.alloc())?);
    for row in &[Ok(2), Err(Failed), Ok(1), Err(Failed)] {
        assert!(rt; sink.give(b"abc") == *row, "at {row:?}");
    }
    Ok(())
}

/// A writer that takes each byte, and fails to flush.
#[derive(Drop)]
struct Unflushed;

impl Write for Unflushed {
    fn write(&mut self, bytes: &[u8]) -> io::Result<usize> {
        Ok(bytes.len())
    }

    fn flush(&mut self) -> io::Result<()> {
        Err(io::Error::from(ErrorKind::Other))
    }
}

#[test]
fn std_sink_tells_a_fault_of_a_flush(rt: HostRuntime) {
    assert_eq!(rt; StdSink::new(Unflushed).give(b"a"), Err(Failed));
}

// More bytes than one piece of a file.
fn long_bytes(alloc: Global) -> Result<Vec<u8>, AllocError> {
    let mut bytes = Vec::new(alloc);
    for number in 0..10_000u32 {
        bytes.push((number % 251) as u8)?;
    }
    Ok(bytes)
}

/// A path in the folder for temporary files. A name is taken as it is, with its blanks.
fn temporary_path(rt: &HostRuntime, alloc: Global, name: &str) -> Result<String, Fail> {
    let folder = env::temp_dir(rt)?;
    let number = process::id(rt.process());
    Ok(format!(in alloc; "{}/{name}-{number} ", folder.display())?)
}

/// Whether these bytes, up to this many, were loaded.
fn is_front(loaded: &Result<Bytes, LoadFault>, bytes: &[u8], limit: usize) -> bool {
    match loaded {
        Ok(found) => found.as_slice() == &bytes[..bytes.len().min(limit)],
        Err(_fault) => false,
    }
}

/// Whether a file with these bytes is loaded, up to this many.
fn is_file_loaded(
    rt: &HostRuntime,
    alloc: Global,
    path: &str,
    bytes: &[u8],
    limit: usize,
) -> Result<bool, Fail> {
    fs::write(rt, path, bytes)?;
    let mut store = FileStore::new(rt, alloc);
    let loaded = load_front(&mut store, path, limit);
    fs::remove_file(rt, path)?;
    Ok(is_front(&loaded, bytes, limit))
}

#[test]
fn file_store_loads_files(rt: HostRuntime) -> Result<(), Fail> {
    let path = temporary_path(&rt, rt.alloc(), "vrl_io")?;
    assert!(rt; is_file_loaded(&rt, rt.alloc(), path.as_str(), b"abcde", 3)?);
    // They fill more than two pieces of a load, none of which is made of whole texts.
    let bytes = long_bytes(rt.alloc())?;
    for limit in &[9_000, 20_000] {
        assert!(rt;
            is_file_loaded(&rt, rt.alloc(), path.as_str(), bytes.as_slice(), *limit)?,
            "at {limit}"
        );
    }
    Ok(())
}

#[test]
fn file_store_tells_a_file_that_is_not_there(rt: HostRuntime) -> Result<(), Fail> {
    let path = temporary_path(&rt, rt.alloc(), "vrl_io-none")?;
    let mut store = FileStore::new(&rt, rt.alloc());
    assert!(rt; is_loaded(&mut store, path.as_str(), None));
    expect_failures(&rt, store.failures(), &[path.as_str()]);
    Ok(())
}

/// A clock that tells one time; `None`: it can't be read.
#[derive(Drop)]
struct Fixed(Option<Duration>);

impl rt::Clock for Fixed {
    fn monotonic(&self) -> io::Result<Duration> {
        self.since_1970()
    }

    fn since_1970(&self) -> io::Result<Duration> {
        self.0.ok_or(io::Error::from(ErrorKind::Other))
    }
}

#[test]
fn system_clock_keeps_to_the_range(rt: HostRuntime) {
    for (time, nanos) in &[
        (Some(Duration::from_millis(1500)), 1_500_000_000),
        (Some(Duration::MAX), 253_402_127_999_999_999_999),
        (None, 0),
    ] {
        assert!(rt;
            next_nanos(&mut SystemClock::new(Fixed(*time))) == *nanos,
            "at {nanos}"
        );
    }
}

ghost use Rattle.std.specs.Prelude.{◌≡◌, ◌<◌, ◌≤◌, [], length, take, None, IfOk, IfSome, OnErr, OnOk};
ghost use Rattle.std.specs.Io.KnownBytes.{Appends};
ghost use Rattle.vrl_io.specs.Faults.{HasRisen};

use crate::fault::Failed;
use crate::sink::Sink;
use std::io::{ErrorKind, Write};
use std::marker::Model;

// How often one give asks the writer again after a signal came in between.
const MOST_TRIES: u32 = 64;

/// A writer, as standard output or standard error. It does not tell what was written.
///
/// Nothing is kept back: each give flushes the writer. A give fails where the writer takes no byte
/// or fails to flush, where it fails, and where it is interrupted by signals 64 times in a row.
#[derive(Drop)]
pub struct StdSink<W> {
    writer: W,
    faults: u64,
}

impl<W> Model for StdSink<W> {
    ghost use Rattle.vrl_io.specs.StdSink.{BytesGiven};

    ghost Value = { BytesGiven W };

    ghost view = { λ s. record { writer = s.writer; faults = s.faults } };
}

impl<W> StdSink<W> {
    /// A sink that writes to the writer, with no fault yet.
    pub fn new(writer: W) -> StdSink<W>
        ensures { result ≡ record { writer = writer; faults = 0 } }
    {
        StdSink { writer, faults: 0 }
    }
}

// Writes once and flushes, and writes again where a signal interrupted it. `None`: the writer took
// nothing or failed.
fn write_once<W: Write>(writer: &mut W, bytes: &[u8]) -> Option<usize>
    ensures some { IfSome result (λ n. 0 < n) }
    ensures within { IfSome result (λ n. n ≤ length bytes.now) }
    ensures written { IfSome result (λ n. Appends (W.contents writer.old) (W.contents writer.new)
        (take n bytes.now)) }
{
    for _ in 0..MOST_TRIES {
        match writer.write(bytes) {
            Ok(0) => return None,
            Ok(count) => {
                writer.flush().ok()?;
                return Some(count);
            }
            Err(error) if error.kind() == ErrorKind::Interrupted => {}
            Err(_) => return None,
        }
    }
    None
}

impl<W: Write> Sink for StdSink<W> {
    ghost written = { λ _. None };

    ghost faults = { λ s. s.faults };

    fn give(&mut self, bytes: &[u8]) -> Result<usize, Failed>
        // Exactly the bytes that the writer took, where it tells what it holds.
        ensures writer { IfOk result (λ n. Appends (W.contents self.old.writer)
            (W.contents self.new.writer) (take n bytes.now)) }

        // What the trait asks.
        ensures within { IfOk result (λ n. n ≤ length bytes.now) }
        ensures some { 0 < length bytes.now → IfOk result (λ n. 0 < n) }
        ensures no_call { bytes.now ≡ [] → (result ≡ Ok 0) × (self.new ≡ self.old) }
        ensures cause { OnErr result (HasRisen self.old.faults self.new.faults) }
        ensures count { self.old.faults ≤ self.new.faults }
        ensures no_fault { OnOk result (self.new.faults ≡ self.old.faults) }
    {
        if bytes.is_empty() {
            return Ok(0);
        }
        match write_once(&mut self.writer, bytes) {
            Some(count) => Ok(count),
            None => {
                self.faults = self.faults.saturating_add(1);
                Err(Failed)
            }
        }
    }
}

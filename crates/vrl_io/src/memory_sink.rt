ghost use Rattle.std.specs.Prelude.{◌≡◌, ◌<◌, ◌≤◌, [], length, take, None, Some, IsErr, MatchResult, OnErr, OnOk, IsTrue};
ghost use Rattle.vrl_io.specs.Calls.{first_call, next_fails};
ghost use Rattle.vrl_io.specs.Faults.{HasRisen};
ghost use Rattle.vrl_io.specs.MemorySink.{count_taken, after_write, after_fault};

use crate::calls::Calls;
use crate::fault::Failed;
use crate::sink::Sink;
use std::alloc::Global;
use std::marker::Model;

/// Bytes that are written to memory, whole pieces or a few bytes at a call, with chosen calls that
/// fail.
#[derive(Drop)]
pub struct MemorySink {
    bytes: Vec<u8>,
    // `None`: a call takes its whole piece.
    most: Option<usize>,
    calls: Calls,
    faults: u64,
}

impl Model for MemorySink {
    ghost use Rattle.vrl_io.specs.MemorySink.{BytesWritten};

    ghost Value = { BytesWritten };

    ghost view = { λ s. record { written = s.bytes.items; most = s.most; calls = s.calls; faults = s.faults } };
}

impl MemorySink {
    /// A sink with nothing in it. The calls with the numbers in `failing`, from 0, fail, and so
    /// does one for whose piece there is no memory.
    pub fn new(alloc: Global, failing: Vec<u64>) -> MemorySink
        ensures { result ≡ record { written = []; most = None; calls = first_call failing.items; faults = 0 } }
    {
        MemorySink {
            bytes: Vec::new(alloc),
            most: None,
            calls: Calls::new(failing),
            faults: 0,
        }
    }

    /// A sink as `new` makes it, a call of which takes no more than `most` bytes from the front of
    /// its piece, 0 counting as 1.
    pub fn narrow(alloc: Global, failing: Vec<u64>, most: usize) -> MemorySink
        ensures { result ≡ record { written = []; most = Some most; calls = first_call failing.items; faults = 0 } }
    {
        MemorySink {
            bytes: Vec::new(alloc),
            most: Some(most),
            calls: Calls::new(failing),
            faults: 0,
        }
    }

    /// The bytes that were written.
    pub fn written(&self) -> &[u8]
        ensures { result.now ≡ self.now.written }
    {
        &self.bytes
    }

    // How many bytes a call takes of a piece of this size.
    fn count_of(&self, size: usize) -> usize
        ensures count { result ≡ count_taken self.now.most size }
        ensures within { result ≤ size }
        ensures some { 0 < size → 0 < result }
    {
        match self.most {
            Some(most) => most.max(1).min(size),
            None => size,
        }
    }
}

impl Sink for MemorySink {
    ghost written = { λ s. Some s.written };

    ghost faults = { λ s. s.faults };

    fn give(&mut self, bytes: &[u8]) -> Result<usize, Failed>
        ensures no_call { bytes.now ≡ [] → (result ≡ Ok 0) × (self.new ≡ self.old) }
        // A call writes as much of the piece's front as it takes, or fails.
        ensures call { 0 < length bytes.now → MatchResult result
            (λ n. (n ≡ count_taken self.old.most (length bytes.now))
            × (self.new ≡ after_write self.old (take n bytes.now)))
            (λ _. self.new ≡ after_fault self.old) }
        ensures failing { 0 < length bytes.now → IsTrue (next_fails self.old.calls) → IsErr result }

        // What the counter's type tells.
        ensures cause { OnErr result (HasRisen self.old.faults self.new.faults) }
        ensures count { self.old.faults ≤ self.new.faults }
        ensures no_fault { OnOk result (self.new.faults ≡ self.old.faults) }
    {
        if bytes.is_empty() {
            return Ok(0);
        }
        let count = self.count_of(bytes.len());
        if self.calls.count() || self.bytes.extend_from_slice(&bytes[..count]).is_err() {
            self.faults = self.faults.saturating_add(1);
            return Err(Failed);
        }
        Ok(count)
    }
}

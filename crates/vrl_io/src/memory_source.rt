ghost use Rattle.std.specs.Prelude.{◌≡◌, ◌≤◌, [], false, length, take, drop, Some, IfOk, OnErr, OnOk, IsTrue};
ghost use Rattle.std.specs.Result.{result_ok};
ghost use Rattle.vrl_io.specs.Calls.{first_call};
ghost use Rattle.vrl_io.specs.Faults.{HasRisen};
ghost use Rattle.vrl_io.specs.MemorySource.{piece_size, answer_of, after_take};

use crate::calls::Calls;
use crate::fault::Failed;
use crate::source::Source;
use std::marker::Model;
use std::vec::IntoIter;

/// Bytes in memory, given in pieces of chosen sizes, with chosen calls that fail.
#[derive(Drop)]
pub struct MemorySource {
    bytes: Vec<u8>,
    taken: usize,
    pieces: IntoIter<usize>,
    calls: Calls,
    faults: u64,
    ended: bool,
}

impl Model for MemorySource {
    ghost use Rattle.std.specs.Prelude.{◌≡◌, ◌≤◌, length, drop, IsTrue};
    ghost use Rattle.std.specs.Vec.Iter.{into_iter_items};
    ghost use Rattle.vrl_io.specs.MemorySource.{BytesLeft};

    ghost Value = { BytesLeft };

    ghost view = { λ s. record {
      left = drop s.taken s.bytes.items;
      pieces = into_iter_items s.pieces;
      calls = s.calls;
      taken = s.taken;
      faults = s.faults;
      ended = s.ended;
    } };

    ghost invariant = { λ s. (s.taken ≤ length s.bytes.items) × (IsTrue s.ended → s.taken ≡ length s.bytes.items) };
}

impl MemorySource {
    /// The bytes, which are given in pieces of these sizes, 0 counting as 1, and after the last
    /// size in pieces as large as the buffer. The calls with the numbers in `failing`, from 0,
    /// fail.
    pub fn new(bytes: Vec<u8>, pieces: Vec<usize>, failing: Vec<u64>) -> MemorySource
        ensures { result ≡ record {
          left = bytes.items;
          pieces = pieces.items;
          calls = first_call failing.items;
          taken = 0;
          faults = 0;
          ended = false;
        } }
    {
        MemorySource {
            bytes,
            taken: 0,
            pieces: pieces.into_iter(),
            calls: Calls::new(failing),
            faults: 0,
            ended: false,
        }
    }

    // How many bytes the next piece may have, within a buffer of this size.
    fn next_size(&mut self, room: usize) -> usize
        ensures size { result ≡ piece_size self.old.pieces room }
        ensures used { self.new ≡ record self.old { pieces = drop 1 self.old.pieces } }
    {
        match self.pieces.next() {
            Some(piece) => piece.max(1).min(room),
            None => room,
        }
    }
}

impl Source for MemorySource {
    ghost left = { λ s. Some s.left };

    ghost taken = { λ s. s.taken };

    ghost ended = { λ s. s.ended };

    ghost faults = { λ s. s.faults };

    fn take(&mut self, buffer: &mut [u8]) -> Result<usize, Failed>
        ensures answer { result_ok result ≡ answer_of self.old (length buffer.old) }
        ensures after { self.new ≡ after_take self.old (length buffer.old) }
        ensures bytes { IfOk result (λ n. take n buffer.new ≡ take n self.old.left) }

        // What the invariant and the counter's type tell.
        ensures end_empty { IsTrue self.new.ended → self.new.left ≡ [] }
        ensures cause { OnErr result (HasRisen self.old.faults self.new.faults) }
        ensures count { self.old.faults ≤ self.new.faults }
        ensures no_fault { OnOk result (self.new.faults ≡ self.old.faults) }
    {
        if self.ended || buffer.is_empty() {
            return Ok(0);
        }
        if self.calls.count() {
            self.faults = self.faults.saturating_add(1);
            return Err(Failed);
        }
        let size = self.next_size(buffer.len());
        let rest = &self.bytes[self.taken..];
        let count = size.min(rest.len());
        buffer[..count].copy_from_slice(&rest[..count]);
        self.taken += count;
        self.ended = count == 0;
        Ok(count)
    }
}

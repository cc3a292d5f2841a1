ghost use Rattle.std.specs.Prelude.{◌≡◌, ◌+◌, ◌<◌, ◌≤◌, ◌⊎◌, [], false, length, take, None, IfOk, IfSome, IsTrue, OnErr, OnOk};
ghost use Rattle.std.specs.Io.KnownBytes.{Consumes, IsAtEnd, Keeps};
ghost use Rattle.vrl_io.specs.Faults.{HasRisen};
ghost use Rattle.vrl_io.specs.StdSource.{BytesTaken};

use crate::fault::Failed;
use crate::source::Source;
use std::io::{ErrorKind, Read};
use std::marker::Model;

// How often one take asks the reader again after a signal came in between.
const MOST_TRIES: u32 = 64;

/// The bytes of a reader, as of standard input or of a file. It does not tell which are left.
///
/// A take that could bring the count of bytes past the last `u64` fails, and so does one at which
/// the reader fails, or is interrupted by signals 64 times in a row.
#[derive(Drop)]
pub struct StdSource<R> {
    reader: R,
    taken: u64,
    faults: u64,
    ended: bool,
}

impl<R> Model for StdSource<R> {
    ghost use Rattle.vrl_io.specs.StdSource.{BytesTaken};

    ghost Value = { BytesTaken R };

    ghost view = { λ s. record { reader = s.reader; taken = s.taken; faults = s.faults; ended = s.ended } };
}

impl<R> StdSource<R> {
    /// The bytes that the reader will give, with none taken and no fault yet.
    pub fn new(reader: R) -> StdSource<R>
        ensures { result ≡ record { reader = reader; taken = 0; faults = 0; ended = false } }
    {
        StdSource {
            reader,
            taken: 0,
            faults: 0,
            ended: false,
        }
    }
}

// Reads once, and again where a signal interrupted it. `None`: the reader failed.
fn read_once<R: Read>(reader: &mut R, buffer: &mut [u8]) -> Option<usize>
    ensures within { IfSome result (λ n. n ≤ length buffer.new) }
    ensures read { IfSome result (λ n. Consumes (R.remaining reader.old) (R.remaining reader.new)
        (take n buffer.new)) }
    ensures end { IfSome result (λ n. n ≡ 0 → 0 < length buffer.old
        → IsAtEnd (R.remaining reader.new)) }
    ensures unread { result ≡ None → Keeps (R.remaining reader.old) (R.remaining reader.new) }
{
    for _ in 0..MOST_TRIES {
        match reader.read(buffer) {
            Ok(count) => return Some(count),
            Err(error) if error.kind() == ErrorKind::Interrupted => {}
            Err(_) => return None,
        }
    }
    None
}

impl<R: Read> Source for StdSource<R> {
    ghost left = { λ _. None };

    ghost taken = { λ s. s.taken };

    ghost ended = { λ s. s.ended };

    ghost faults = { λ s. s.faults };

    fn take(&mut self, buffer: &mut [u8]) -> Result<usize, Failed>
        // Exactly the bytes that the reader gives, and its end, where it tells what is left.
        ensures read { IfOk result (λ n. Consumes (R.remaining self.old.reader)
            (R.remaining self.new.reader) (take n buffer.new)) }
        ensures unread { OnErr result
            (Keeps (R.remaining self.old.reader) (R.remaining self.new.reader)) }
        ensures read_end { IsTrue self.new.ended
            → IsTrue self.old.ended ⊎ IsAtEnd (R.remaining self.new.reader) }

        // What the trait asks.
        ensures within { IfOk result (λ n. n ≤ length buffer.new) }
        ensures taken { IfOk result (λ n. self.new.taken ≡ self.old.taken + n) }
        ensures end { result ≡ Ok 0 → 0 < length buffer.old → IsTrue self.new.ended }
        ensures end_only { IsTrue self.new.ended
            → IsTrue self.old.ended ⊎ ((result ≡ Ok 0) × (0 < length buffer.old)) }
        ensures no_call { (buffer.old ≡ []) ⊎ IsTrue self.old.ended
            → (result ≡ Ok 0) × (self.new ≡ self.old) }
        ensures unchanged { OnErr result ((self.new.taken ≡ self.old.taken)
            × (self.new.ended ≡ self.old.ended)) }
        ensures cause { OnErr result (HasRisen self.old.faults self.new.faults) }
        ensures count { self.old.faults ≤ self.new.faults }
        ensures no_fault { OnOk result (self.new.faults ≡ self.old.faults) }
    {
        if self.ended || buffer.is_empty() {
            return Ok(0);
        }
        if u64::MAX - self.taken >= buffer.len() as u64 {
            if let Some(count) = read_once(&mut self.reader, buffer) {
                self.taken += count as u64;
                self.ended = count == 0;
                return Ok(count);
            }
        }
        self.faults = self.faults.saturating_add(1);
        Err(Failed)
    }
}

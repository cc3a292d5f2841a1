ghost use Rattle.std.specs.Prelude.{◌≡◌, ◌+◌, ◌^◌, ◌<◌, ◌≤◌, ◌++◌, ◌⊎◌, ℕ, ℤ, false, List, [], length, Option, None, Some, IfErr, IfOk, IfSome, IsTrue, OnErr, OnOk};
ghost use Rattle.std.specs.Result.{result_err};
ghost use Rattle.vrl_io.specs.Faults.{HasRisen};
ghost use Rattle.vrl_batch.specs.Begun.{DividesAt, IsBegun, is_filled};
ghost use Rattle.vrl_batch.specs.Limits.{input_limit};
ghost use Rattle.vrl_batch.specs.Lines.{event_lines_from};
ghost use Rattle.vrl_batch.specs.Moments.{MovesAtMost};
ghost use Rattle.vrl_batch.specs.Pieces.{held_by};
ghost use Rattle.vrl_batch.specs.Reads.{AsksAtMost, KeepsCount, ReadsBatch, StopsAt, stream};
ghost use Rattle.vrl_batch.specs.declared.fault.BatchFault.{BatchFault};

use crate::batch::Batch;
use crate::begun::Begun;
use crate::fault::BatchFault;
use crate::piece::Piece;
use std::alloc::Global;
use std::marker::Model;
use vrl_io::{Clock, Source};
use vrl_value::Memory;

/// Reads the lines of an input batch by batch, as they come. A contract sees the bytes that it
/// holds, the number of the line with which they begin, how many bytes it has taken, and its fault.
#[derive(Drop)]
pub struct Lines {
    alloc: Global,
    piece: Piece,
    // How many lines stand before the bytes that are held.
    number: u64,
    fault: Option<BatchFault>,
}

impl Model for Lines {
    ghost use Rattle.std.specs.Prelude.{◌≡◌, ◌+◌, ◌≤◌, length, None, Some};
    ghost use Rattle.vrl_batch.specs.Pieces.{held_by};
    ghost use Rattle.vrl_batch.specs.Limits.{input_limit};
    ghost use Rattle.vrl_batch.specs.Reads.{Reader};
    ghost use Rattle.vrl_batch.specs.declared.fault.BatchFault.{BatchFault};

    ghost Value = { Reader };

    ghost view = { λ l. record { bytes = held_by l.piece l.number; fault = l.fault } };

    ghost invariant = { λ l. (l.fault ≡ None → l.number + length l.piece.rest ≤ l.piece.taken)
        × (l.fault ≡ None → l.piece.taken ≤ input_limit)
        × (l.fault ≡ Some BatchFault.TooMuch → l.piece.taken ≡ input_limit + 1)
        × (l.piece.taken ≡ input_limit + 1 → l.fault ≡ Some BatchFault.TooMuch) };
}

impl Lines {
    /// A reader that has taken nothing yet. `Memory`: want of memory.
    pub fn new(alloc: Global) -> Result<Lines, Memory>
        ensures { IfOk result (λ lines. lines ≡ record {
          bytes = record { held = []; next = 1; taken = 0 };
          fault = None;
        }) }
    {
        Lines::after(alloc, 0)
    }

    /// A reader that counts this many bytes as taken, which are at most 2^40. `Memory`: want of
    /// memory.
    pub fn after(alloc: Global, taken: u64) -> Result<Lines, Memory>
        requires { taken ≤ input_limit }
        ensures { IfOk result (λ lines. lines ≡ record {
          bytes = record { held = []; next = 1; taken = taken };
          fault = None;
        }) }
    {
        Ok(Lines {
            alloc,
            piece: Piece::after(alloc, taken)?,
            number: 0,
            fault: None,
        })
    }

    /// The next lines that aren't blank, each with its number, from 1, and the moment that the
    /// clock told for it. A line has spaces, tabs and carriage returns alone where it is blank; it
    /// is counted. A line of more than 1,048,576 bytes keeps none of them.
    ///
    /// A batch ends with its 256th line, or with the line with which the bytes of its lines,
    /// newlines not counted, reach 8,388,608, or at the end of the input. It is empty exactly at
    /// the end. The source is asked for at most 65,536 bytes at a time, and only where those that
    /// are held make no whole batch.
    ///
    /// `ReadFault`: the source failed. `TooMuch`: 2^40 bytes were taken and more follow; one of
    /// them was taken. `Memory`: want of memory. After a fault each further call answers it again.
    pub fn next_batch<S: Source, C: Clock>(
        &mut self,
        source: &mut S,
        clock: &mut C,
    ) -> Result<Batch, BatchFault>
        ensures batch { IfOk result (ReadsBatch
            (stream self.old.bytes (S.left source.old) (S.taken source.old) (S.ended source.old) (C.ahead clock.old))
            (stream self.new.bytes (S.left source.new) (S.taken source.new) (S.ended source.new) (C.ahead clock.new))) }
        ensures empty { IfOk result (λ batch. batch ≡ [] → IsTrue (S.ended source.new)) }
        ensures within { OnOk result (self.new.bytes.taken ≤ input_limit) }

        // Whatever comes of it, the clock told at most one moment for each line that isn't blank.
        ensures asks { AsksAtMost
            (stream self.old.bytes (S.left source.old) (S.taken source.old) (S.ended source.old) (C.ahead clock.old))
            (stream self.new.bytes (S.left source.new) (S.taken source.new) (S.ended source.new) (C.ahead clock.new)) }

        // What a fault leaves, and that it is answered again.
        ensures fault { self.old.fault ≡ None → IfErr result (StopsAt
            (stream self.old.bytes (S.left source.old) (S.taken source.old) (S.ended source.old) (C.ahead clock.old))
            (stream self.new.bytes (S.left source.new) (S.taken source.new) (S.ended source.new) (C.ahead clock.new))) }
        ensures standing { self.new.fault ≡ result_err result }
        ensures again { IfSome self.old.fault (λ fault. (result ≡ Err fault) × (self.new ≡ self.old)
            × (source.new ≡ source.old) × (clock.new ≡ clock.old)) }

        // Why there is a fault.
        ensures read_fault { result ≡ Err BatchFault.ReadFault
            → (self.old.fault ≡ Some BatchFault.ReadFault) ⊎ HasRisen (S.faults source.old) (S.faults source.new) }
        ensures too_much { result ≡ Err BatchFault.TooMuch → self.new.bytes.taken ≡ input_limit + 1 }
        ensures too_much_wherever { self.new.bytes.taken ≡ input_limit + 1 → result ≡ Err BatchFault.TooMuch }
        ensures no_fault { OnOk result (S.faults source.new ≡ S.faults source.old) }
        ensures count { IfErr result (KeepsCount (S.faults source.old) (S.faults source.new)) }
    {
        if let Some(fault) = self.fault {
            return Err(fault);
        }
        let mut begun = Begun::new(self.alloc, self.number);
        if let Err(fault) = fill(&mut self.piece, &mut begun, source, clock) {
            self.fault = Some(fault);
            return Err(fault);
        }
        self.number = begun.number;
        Ok(begun.into_batch())
    }
}

// Adds lines of what is left of the last take.
fn add_rest<C: Clock>(piece: &mut Piece, begun: &mut Begun, clock: &mut C) -> Result<(), Memory>
    requires room { begun.old.number + length piece.old.rest < 2 ^ 64 }
    ensures lines { (first : ℕ) (ahead : Option (ℕ → ℤ)) (front part : List ℕ)
        → IsBegun first ahead front part begun.old (C.ahead clock.old)
        → OnOk result (DividesAt first ahead (front ++ (part ++ piece.old.rest)) piece.new.rest
        begun.new (C.ahead clock.new)) }
    ensures all { OnOk result (is_filled begun.new ≡ false → piece.new.rest ≡ []) }
    ensures asks { (first : ℕ) (ahead : Option (ℕ → ℤ)) (front part : List ℕ)
        → IsBegun first ahead front part begun.old (C.ahead clock.old)
        → OnErr result (MovesAtMost ahead (length (event_lines_from first (front ++ (part ++ piece.old.rest))))
        (C.ahead clock.new)) }
    ensures taken { piece.new.taken ≡ piece.old.taken }
    ensures room { OnOk result (begun.new.number + length piece.new.rest
        ≤ begun.old.number + length piece.old.rest) }
{
    let used = begun.add_lines(piece.rest(), clock)?;
    piece.skip(used);
    Ok(())
}

// Takes and adds lines until the batch is whole or the source has ended.
fn fill<S: Source, C: Clock>(
    piece: &mut Piece,
    begun: &mut Begun,
    source: &mut S,
    clock: &mut C,
) -> Result<(), BatchFault>
    requires begun { (ahead : Option (ℕ → ℤ)) → IsBegun (begun.old.number + 1) ahead [] [] begun.old ahead }
    requires room { begun.old.number + length piece.old.rest ≤ piece.old.taken }
    requires within { piece.old.taken ≤ input_limit }
    ensures batch { OnOk result (ReadsBatch
        (stream (held_by piece.old begun.old.number) (S.left source.old) (S.taken source.old) (S.ended source.old)
        (C.ahead clock.old))
        (stream (held_by piece.new begun.new.number) (S.left source.new) (S.taken source.new) (S.ended source.new)
        (C.ahead clock.new))
        begun.new.lines.items) }
    ensures room { OnOk result (begun.new.number + length piece.new.rest ≤ piece.new.taken) }
    ensures within { OnOk result (piece.new.taken ≤ input_limit) }
    ensures fault { IfErr result (StopsAt
        (stream (held_by piece.old begun.old.number) (S.left source.old) (S.taken source.old) (S.ended source.old)
        (C.ahead clock.old))
        (stream (held_by piece.new begun.old.number) (S.left source.new) (S.taken source.new) (S.ended source.new)
        (C.ahead clock.new))) }
    ensures cause { result ≡ Err BatchFault.ReadFault → HasRisen (S.faults source.old) (S.faults source.new) }
    ensures no_fault { OnOk result (S.faults source.new ≡ S.faults source.old) }
    ensures count { IfErr result (KeepsCount (S.faults source.old) (S.faults source.new)) }
{
    add_rest(piece, begun, clock)?;
    while !begun.is_whole() {
        if piece.take(source)? == 0 {
            begun.end(clock)?;
            return Ok(());
        }
        add_rest(piece, begun, clock)?;
    }
    Ok(())
}

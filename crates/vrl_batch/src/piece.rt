ghost use Rattle.std.specs.Prelude.{◌≡◌, ◌+◌, ◌<◌, ◌≤◌, [], length, take, drop, option_map, IfErr, IfOk, IfSome, IsTrue, OnErr, OnOk};
ghost use Rattle.vrl_io.specs.Faults.{HasRisen};
ghost use Rattle.vrl_batch.specs.Pieces.{MissesPiece, PieceHeld, TakesPiece};
ghost use Rattle.vrl_batch.specs.Limits.{input_limit};
ghost use Rattle.vrl_batch.specs.Reads.{KeepsCount};

use crate::fault::BatchFault;
use std::alloc::{AllocError, Global};
use std::cmp::min;
use std::marker::Model;
use vrl_io::{Failed, Source};
use vrl_value::Memory;

/// The most bytes that are taken: 2^40.
const INPUT_LIMIT: u64 = 1 << 40;

/// How many bytes one take asks for.
const MOST_TAKEN: usize = 65_536;

// What is left of the last take, and how many bytes were taken in all. The buffer is kept from take
// to take.
#[derive(Drop)]
pub struct Piece {
    buffer: Vec<u8>,
    from: usize,
    to: usize,
    taken: u64,
}

impl Model for Piece {
    ghost use Rattle.std.specs.Prelude.{◌≡◌, ◌+◌, ◌-◌, ◌≤◌, length, take, drop};
    ghost use Rattle.vrl_batch.specs.Pieces.{PieceHeld};
    ghost use Rattle.vrl_batch.specs.Limits.{input_limit};
    ghost use Rattle.vrl_batch.specs.Reads.{most_taken};

    ghost Value = { PieceHeld };

    ghost view = { λ p. record { rest = take (p.to - p.from) (drop p.from p.buffer.items); taken = p.taken } };

    ghost invariant = { λ p. (p.from ≤ p.to) × (p.to ≤ length p.buffer.items) × (length p.buffer.items ≡ most_taken)
        × (p.taken ≤ input_limit + 1) };
}

// A buffer for one take.
fn buffer(alloc: Global) -> Result<Vec<u8>, AllocError>
    ensures { IfOk result (λ buffer. length buffer.items ≡ 65536) }
{
    vec![in alloc; 0; MOST_TAKEN]
}

// Takes at most this many bytes, to the front of a buffer.
fn take_front<S: Source>(source: &mut S, buffer: &mut [u8], room: usize) -> Result<usize, Failed>
    requires room { (0 < room) × (room ≤ length buffer.old) }
    ensures len { length buffer.new ≡ length buffer.old }
    ensures within { IfOk result (λ count. count ≤ room) }
    ensures bytes { IfOk result (λ count. IfSome (S.left source.old)
        (λ bytes. (count ≤ length bytes) × (take count buffer.new ≡ take count bytes))) }
    ensures left { IfOk result (λ count. S.left source.new ≡ option_map (drop count) (S.left source.old)) }
    ensures taken { IfOk result (λ count. S.taken source.new ≡ S.taken source.old + count) }
    ensures end { result ≡ Ok 0 → IsTrue (S.ended source.new) }
    ensures end_empty { result ≡ Ok 0 → IfSome (S.left source.new) (λ left. left ≡ []) }
    ensures after_end { IsTrue (S.ended source.old) → (result ≡ Ok 0) × (source.new ≡ source.old) }
    ensures unchanged { OnErr result ((S.left source.new ≡ S.left source.old)
        × (S.taken source.new ≡ S.taken source.old)) }
    ensures cause { OnErr result (HasRisen (S.faults source.old) (S.faults source.new)) }
    ensures count { S.faults source.old ≤ S.faults source.new }
    ensures no_fault { OnOk result (S.faults source.new ≡ S.faults source.old) }
{
    source.take(&mut buffer[..room])
}

impl Piece {
    // Nothing is left, and this many bytes were taken.
    pub fn after(alloc: Global, taken: u64) -> Result<Piece, Memory>
        requires { taken ≤ input_limit }
        ensures { IfOk result (λ piece. piece ≡ record { rest = []; taken = taken }) }
    {
        Ok(Piece {
            buffer: buffer(alloc)?,
            from: 0,
            to: 0,
            taken,
        })
    }

    // What is left of the last take.
    pub fn rest(&self) -> &[u8]
        ensures { result.now ≡ self.now.rest }
    {
        &self.buffer[self.from..self.to]
    }

    // Passes over the first bytes of what is left.
    pub fn skip(&mut self, count: usize)
        requires { count ≤ length self.old.rest }
        ensures { self.new ≡ record self.old { rest = drop count self.old.rest } }
    {
        self.from += count;
    }

    // Takes a piece, once nothing is left, and answers its length, which is 0 at the end alone.
    pub fn take<S: Source>(&mut self, source: &mut S) -> Result<usize, BatchFault>
        requires none_left { self.old.rest ≡ [] }
        requires within { self.old.taken ≤ input_limit }
        ensures piece { IfOk result (λ count. TakesPiece self.old self.new (S.left source.old)
            (S.left source.new) (S.taken source.old) (S.taken source.new) count) }
        ensures end { result ≡ Ok 0 → IsTrue (S.ended source.new) }
        ensures end_empty { result ≡ Ok 0 → IfSome (S.left source.new) (λ left. left ≡ []) }
        ensures after_end { IsTrue (S.ended source.old) → (result ≡ Ok 0) × IsTrue (S.ended source.new) }
        ensures missed { IfErr result (MissesPiece self.old self.new (S.left source.old)
            (S.left source.new) (S.taken source.old) (S.taken source.new)) }
        ensures cause { result ≡ Err BatchFault.ReadFault
            → HasRisen (S.faults source.old) (S.faults source.new) }
        ensures no_fault { OnOk result (S.faults source.new ≡ S.faults source.old) }
        ensures count { IfErr result (KeepsCount (S.faults source.old) (S.faults source.new)) }
    {
        let room = min(MOST_TAKEN as u64, INPUT_LIMIT - self.taken) as usize;
        if room == 0 {
            return self.take_past(source);
        }
        self.from = 0;
        self.to = 0;
        let count = take_front(source, &mut self.buffer, room)?;
        self.to = count;
        self.taken += count as u64;
        Ok(count)
    }

    // Takes one byte past the most that are taken, which is counted and not kept. Answers 0 at the
    // end.
    fn take_past<S: Source>(&mut self, source: &mut S) -> Result<usize, BatchFault>
        requires none_left { self.old.rest ≡ [] }
        requires taken { self.old.taken ≡ input_limit }
        ensures piece { IfOk result (λ count. TakesPiece self.old self.new (S.left source.old)
            (S.left source.new) (S.taken source.old) (S.taken source.new) count) }
        ensures end { result ≡ Ok 0 → IsTrue (S.ended source.new) }
        ensures end_empty { result ≡ Ok 0 → IfSome (S.left source.new) (λ left. left ≡ []) }
        ensures after_end { IsTrue (S.ended source.old) → (result ≡ Ok 0) × IsTrue (S.ended source.new) }
        ensures missed { IfErr result (MissesPiece self.old self.new (S.left source.old)
            (S.left source.new) (S.taken source.old) (S.taken source.new)) }
        ensures cause { result ≡ Err BatchFault.ReadFault
            → HasRisen (S.faults source.old) (S.faults source.new) }
        ensures no_fault { OnOk result (S.faults source.new ≡ S.faults source.old) }
        ensures count { IfErr result (KeepsCount (S.faults source.old) (S.faults source.new)) }
    {
        self.from = 0;
        self.to = 0;
        if take_front(source, &mut self.buffer, 1)? == 0 {
            return Ok(0);
        }
        self.taken += 1;
        Err(BatchFault::TooMuch)
    }
}

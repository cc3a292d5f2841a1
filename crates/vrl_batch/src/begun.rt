ghost use Rattle.std.specs.Prelude.{◌≡◌, ◌+◌, ◌^◌, ◌<◌, ◌≤◌, ◌++◌, ℕ, ℤ, false, List, [], Option, length, drop, IfOk, OnErr, OnOk};
ghost use Rattle.vrl_batch.specs.Begun.{AddsLine, DividesAt, EndsLine, HoldsLines, IsBegun, is_filled};
ghost use Rattle.vrl_batch.specs.Lines.{event_lines_from, moment_count};
ghost use Rattle.vrl_batch.specs.Moments.{MovesAtMost};
ghost use Rattle.vrl_batch.specs.Parts.{part_of};

use crate::batch::Batch;
use crate::line::Line;
use crate::lines::{is_blank, line_end};
use crate::part::Part;
use std::alloc::Global;
use std::mem;
use vrl_io::Clock;
use vrl_value::Memory;

/// A batch ends with this many lines.
const BATCH_LINES: usize = 256;

/// A batch ends with the line with which its bytes reach this number.
const BATCH_BYTES: usize = 8_388_608;

// A batch that is begun, and the line that is begun behind it.
#[derive(Drop)]
pub struct Begun {
    pub alloc: Global,
    pub lines: Vec<Line>,
    // How many bytes the lines keep.
    pub kept: usize,
    // How many lines of the input have ended.
    pub number: u64,
    pub part: Part,
}

impl Begun {
    // A batch without lines, behind this many lines of the input.
    pub fn new(alloc: Global, number: u64) -> Begun
        ensures begun { (ahead : Option (ℕ → ℤ)) → IsBegun (number + 1) ahead [] [] result ahead }
        ensures number { result.number ≡ number }
    {
        Begun {
            alloc,
            lines: Vec::new(alloc),
            kept: 0,
            number,
            part: Part::new(alloc),
        }
    }

    // Whether it ends here, by its lines or its bytes.
    pub fn is_whole(&self) -> bool
        ensures { result ≡ is_filled self.now }
    {
        self.lines.len() >= BATCH_LINES || self.kept >= BATCH_BYTES
    }

    // Adds the lines of these bytes until it is whole, and answers how many bytes were used. The
    // bytes behind the last newline begin a line.
    pub fn add_lines<C: Clock>(&mut self, bytes: &[u8], clock: &mut C) -> Result<usize, Memory>
        requires room { self.old.number + length bytes.now < 2 ^ 64 }
        ensures lines { (first : ℕ) (ahead : Option (ℕ → ℤ)) (front part : List ℕ)
            → IsBegun first ahead front part self.old (C.ahead clock.old)
            → IfOk result (λ used. DividesAt first ahead (front ++ (part ++ bytes.now))
            (drop used bytes.now) self.new (C.ahead clock.new)) }
        ensures within { IfOk result (λ used. used ≤ length bytes.now) }
        ensures all { IfOk result (λ used. is_filled self.new ≡ false → used ≡ length bytes.now) }
        ensures room { IfOk result (λ used. self.new.number ≤ self.old.number + used) }
        ensures asks { (first : ℕ) (ahead : Option (ℕ → ℤ)) (front part : List ℕ)
            → IsBegun first ahead front part self.old (C.ahead clock.old)
            → OnErr result (MovesAtMost ahead (length (event_lines_from first (front ++ (part ++ bytes.now))))
            (C.ahead clock.new)) }
    {
        let mut used = 0;
        while used < bytes.len() && !self.is_whole() {
            used += self.add_front(&bytes[used..], clock)?;
        }
        Ok(used)
    }

    // Adds bytes up to the first newline, or all where there is none, and answers how many.
    fn add_front<C: Clock>(&mut self, bytes: &[u8], clock: &mut C) -> Result<usize, Memory>
        requires some { 0 < length bytes.now }
        requires room { self.old.number + length bytes.now < 2 ^ 64 }
        requires unfilled { is_filled self.old ≡ false }
        ensures lines { (first : ℕ) (ahead : Option (ℕ → ℤ)) (front part : List ℕ)
            → IsBegun first ahead front part self.old (C.ahead clock.old)
            → IfOk result (λ used. DividesAt first ahead (front ++ (part ++ bytes.now))
            (drop used bytes.now) self.new (C.ahead clock.new)) }
        ensures some { IfOk result (λ used. 0 < used) }
        ensures within { IfOk result (λ used. used ≤ length bytes.now) }
        ensures room { IfOk result (λ used. self.new.number ≤ self.old.number + used) }
        ensures asks { (first : ℕ) (ahead : Option (ℕ → ℤ)) (front part : List ℕ)
            → IsBegun first ahead front part self.old (C.ahead clock.old)
            → OnErr result (MovesAtMost ahead (length (event_lines_from first (front ++ (part ++ bytes.now))))
            (C.ahead clock.new)) }
    {
        let end = line_end(bytes);
        if end < bytes.len() {
            self.end_line(&bytes[..end], clock)?;
            return Ok(end + 1);
        }
        self.part.add(bytes)?;
        Ok(end)
    }

    // Ends the line that is begun, behind these bytes.
    fn end_line<C: Clock>(&mut self, bytes: &[u8], clock: &mut C) -> Result<(), Memory>
        requires room { self.old.number + 1 < 2 ^ 64 }
        requires unfilled { is_filled self.old ≡ false }
        ensures number { OnOk result (self.new.number ≡ self.old.number + 1) }
        ensures line { (line : List ℕ) → self.old.part ≡ part_of line → OnOk result
            (EndsLine (line ++ bytes.now) self.old self.new (C.ahead clock.old) (C.ahead clock.new)) }
        ensures asks { (line : List ℕ) → self.old.part ≡ part_of line → OnErr result
            (MovesAtMost (C.ahead clock.old) (moment_count (line ++ bytes.now)) (C.ahead clock.new)) }
    {
        if !self.part.is_empty() {
            self.part.add(bytes)?;
            self.end_part(clock)?;
            return Ok(());
        }
        self.number += 1;
        if !is_blank(bytes) {
            let line = Line::new(self.alloc, self.number, bytes, clock.moment())?;
            self.push(line)?;
        }
        Ok(())
    }

    // Ends the line that is begun.
    fn end_part<C: Clock>(&mut self, clock: &mut C) -> Result<(), Memory>
        requires room { self.old.number + 1 < 2 ^ 64 }
        requires unfilled { is_filled self.old ≡ false }
        ensures number { OnOk result (self.new.number ≡ self.old.number + 1) }
        ensures line { (line : List ℕ) → self.old.part ≡ part_of line → OnOk result
            (EndsLine line self.old self.new (C.ahead clock.old) (C.ahead clock.new)) }
        ensures asks { (line : List ℕ) → self.old.part ≡ part_of line → OnErr result
            (MovesAtMost (C.ahead clock.old) (moment_count line) (C.ahead clock.new)) }
    {
        self.number += 1;
        let part = mem::replace(&mut self.part, Part::new(self.alloc));
        if !part.is_blank() {
            self.push(part.into_line(self.number, clock.moment()))?;
        }
        Ok(())
    }

    // Adds a line.
    fn push(&mut self, line: Line) -> Result<(), Memory>
        requires unfilled { is_filled self.old ≡ false }
        ensures { OnOk result (AddsLine self.old self.new line) }
    {
        self.kept += line.bytes.as_slice().len();
        Ok(self.lines.push(line)?)
    }

    // At the end of the input, ends the line that is begun, if it has a byte.
    pub fn end<C: Clock>(&mut self, clock: &mut C) -> Result<(), Memory>
        requires room { self.old.number + 1 < 2 ^ 64 }
        requires unfilled { is_filled self.old ≡ false }
        ensures lines { (first : ℕ) (ahead : Option (ℕ → ℤ)) (front part : List ℕ)
            → IsBegun first ahead front part self.old (C.ahead clock.old)
            → OnOk result (HoldsLines first ahead (front ++ part) self.new (C.ahead clock.new)) }
        ensures asks { (first : ℕ) (ahead : Option (ℕ → ℤ)) (front part : List ℕ)
            → IsBegun first ahead front part self.old (C.ahead clock.old)
            → OnErr result (MovesAtMost ahead (length (event_lines_from first (front ++ part))) (C.ahead clock.new)) }
    {
        if self.part.is_empty() {
            return Ok(());
        }
        self.end_part(clock)?;
        Ok(())
    }

    // The batch.
    pub fn into_batch(self) -> Batch
        ensures { result ≡ self.lines.items }
    {
        Batch::new(self.lines)
    }
}

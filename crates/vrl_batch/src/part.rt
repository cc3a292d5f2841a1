ghost use Rattle.std.specs.Prelude.{◌≡◌, ◌++◌, ℕ, List, [], IsTrue, OnOk};
ghost use Rattle.vrl_batch.specs.Parts.{part_of};
ghost use Rattle.vrl_batch.specs.Lines.{line_at};

use crate::line::{LINE_LIMIT, Line};
use crate::lines::is_blank;
use std::alloc::Global;
use std::marker::Model;
use vrl_value::{Bytes, Memory, Moment};

// A line that is begun. A contract sees what is kept of its bytes so far.
#[derive(Drop)]
pub struct Part {
    alloc: Global,
    bytes: Vec<u8>,
    long: bool,
    blank: bool,
}

impl Model for Part {
    ghost use Rattle.std.specs.Prelude.{◌≤◌, length};
    ghost use Rattle.vrl_batch.specs.Parts.{PartSeen};
    ghost use Rattle.vrl_batch.specs.Lines.{line_limit};

    ghost Value = { PartSeen };

    ghost view = { λ p. record { bytes = p.bytes.items; long = p.long; blank = p.blank } };

    ghost invariant = { λ p. length p.bytes.items ≤ line_limit };
}

impl Part {
    // A line without bytes.
    pub fn new(alloc: Global) -> Part
        ensures { result ≡ part_of [] }
    {
        Part {
            alloc,
            bytes: Vec::new(alloc),
            long: false,
            blank: true,
        }
    }

    // Whether the line has no byte yet.
    pub fn is_empty(&self) -> bool
        ensures only { (line : List ℕ) → self.now ≡ part_of line → IsTrue result → line ≡ [] }
        ensures wherever { self.now ≡ part_of [] → IsTrue result }
    {
        self.bytes.is_empty() && !self.long
    }

    // Whether it has spaces, tabs and carriage returns alone so far.
    pub fn is_blank(&self) -> bool
        ensures { result ≡ self.now.blank }
    {
        self.blank
    }

    // Adds bytes without a newline.
    pub fn add(&mut self, bytes: &[u8]) -> Result<(), Memory>
        ensures { (line : List ℕ) → self.old ≡ part_of line
            → OnOk result (self.new ≡ part_of (line ++ bytes.now)) }
    {
        self.blank = self.blank && is_blank(bytes);
        if self.long {
            return Ok(());
        }
        if bytes.len() > LINE_LIMIT - self.bytes.len() {
            self.long = true;
            self.bytes = Vec::new(self.alloc);
            return Ok(());
        }
        Ok(self.bytes.extend_from_slice(bytes)?)
    }

    // The line, which has ended.
    pub fn into_line(self, number: u64, moment: Moment) -> Line
        ensures { (line : List ℕ) → self ≡ part_of line → result ≡ line_at moment (number, line) }
    {
        Line {
            number,
            bytes: Bytes::new(self.bytes),
            long: self.long,
            moment,
        }
    }
}

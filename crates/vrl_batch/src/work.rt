use crate::chunk::Chunk;
use crate::gate::Gate;
use crate::outs::Outs;
use std::alloc::Global;
use vrl_value::{Bytes, Memory};

/// How a line went.
#[derive(Clone, Copy, Debug, PartialEq, Eq)]
pub enum Outcome {
    /// The script ended with a value.
    Fine,
    /// It ended with the error of a call with a `!`, or by the limit of depth.
    Errored,
    /// It ended with an `abort`.
    Aborted,
    /// The line is no event of the declared kind.
    Refused,
}

/// What is made of a line.
#[derive(Drop)]
pub struct LineOut {
    /// The events that are kept, as lines of JSON.
    pub output: Bytes,
    /// What is reported of the line, as lines of text.
    pub report: Bytes,
    /// How many events are kept.
    pub kept: u64,
    /// How the line went.
    pub outcome: Outcome,
}

/// What is done with each line.
pub trait Work {
    ghost use Rattle.std.specs.Prelude.{◌≡◌, map, IfOk};
    ghost use Rattle.vrl_batch.specs.declared.line.Line.{Line};
    ghost use Rattle.vrl_batch.specs.declared.work.LineOut.{LineOut};

    /// What it makes of a line.
    ghost makes: { Self → Line → LineOut };

    /// What one worker makes of the lines of a chunk, in their order. What it keeps from line to
    /// line is its own. `Memory`: want of memory.
    fn each<G: Gate>(&self, alloc: Global, chunk: Chunk<'_, G>) -> Result<Outs, Memory>
        ensures { IfOk result (λ outs. outs ≡ map (makes self.now) chunk.entry) };
}

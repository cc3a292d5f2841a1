//! The lines of an input, read batch by batch as they come, what workers make of them, and bytes
//! given to a sink.
//!
//! Files: `line.rt` has what a line is, `reader.rt` the reader of batches, over `piece.rt` (a
//! take), `part.rt` (a line that is begun), `begun.rt` (a batch that is begun), `lines.rt` (where a
//! line ends, and whether it is blank), `batch.rt` and `fault.rt`; `laws.rt` has what holds over
//! any number of batches; `work.rt` has what is made of a line, `mapping.rt` the workers,
//! `chunk.rt` the lines of each, `outs.rt` their results and `gate.rt` what they pass; `giving.rt`
//! has bytes for a sink.
#![tactic(auto)]

mod batch;
mod begun;
mod chunk;
mod fault;
mod gate;
mod giving;
mod laws;
mod line;
mod lines;
mod mapping;
mod outs;
mod part;
mod piece;
mod reader;
mod work;

pub use batch::Batch;
pub use chunk::Chunk;
pub use fault::BatchFault;
pub use gate::{FreeGate, Gate};
pub use giving::give_all;
pub use laws::{
    batches_end, runs_ask_at_most, runs_begin, runs_end, runs_front, runs_go_on, runs_stop,
};
pub use line::Line;
pub use mapping::map_batch;
pub use outs::Outs;
pub use reader::Lines;
pub use work::{LineOut, Outcome, Work};

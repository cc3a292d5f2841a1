//! Lines of JSON: a line's bytes to its value, and a value to its line.
//!
//! What a text stands for, and which text a value has, is `serde_json`'s own definition.
//!
//! Files: `read.rt` reads a line, `number.rt` the numbers in it, `write.rt` writes one, and
//! `fault.rt` says why no value was read.
#![tactic(auto)]

mod fault;
mod number;
mod read;
mod write;

pub use fault::JsonFault;
pub use json::Scratch;
pub use read::{from_line, lines_are_json, lines_are_ordered, lines_are_shallow};
pub use write::{json_needs_no_sources, to_line};

//! The words of the command line: which script is asked for, with which options, or that the words
//! are refused.
//!
//! The rule is told in `specs/Words.antt`, about the list of words alone. Files: `invocation.rt`
//! has what is read, `read.rt` the call that reads, `command.rt` the command as `clap` is told of
//! it, and `value.rt` what the values of options say.
#![tactic(auto)]

mod command;
mod invocation;
mod read;
mod value;

pub use invocation::{Invocation, Mode, WordsFault};
pub use read::read_words;

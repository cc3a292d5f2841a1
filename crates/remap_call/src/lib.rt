//! The top call of the program: what it does with its words, its files, its input and its sinks, as
//! one clause.
//!
//! Files: `call.rt` has `remap`, `loading.rt` the words, and the bytes of the script and of the
//! kind file that they name, and `asking.rt` what is asked with these, for which no device is
//! needed.
#![tactic(auto)]

mod asking;
mod call;
mod loading;

pub use call::remap;

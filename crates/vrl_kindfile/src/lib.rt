//! Kind files: the JSON text in which an operator declares the kind of the events.
//!
//! What a text stands for is told by `vrl_json`, and what a kind allows by `vrl_kind`; here it is told which
//! tags a description allows at each path, and which of its values are at fault.
//!
//! Files: `file.rt` reads a file, `description.rt` walks what it describes, over `word.rt` and
//! `container.rt`; `refusal.rt` and `pointer.rt` tell where the first fault is, and `fault.rt` why a file is
//! refused. `laws.rt` has that a file has one answer.
#![tactic(auto)]

mod container;
mod description;
mod fault;
mod file;
mod laws;
mod pointer;
mod refusal;
mod word;

pub use fault::KindFault;
pub use file::{FILE_LIMIT, PLACE_LIMIT, read_kind_file};
pub use laws::files_have_one_answer;

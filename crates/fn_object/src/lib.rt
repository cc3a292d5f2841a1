//! The functions that read, make and change objects, and what stands at a path.
//!
//! Files: each function has a file, and its row one of `specs/`; its law stands in the file of
//! `specs/` with its name and `Law`. `paths.rt` has the paths that are given as arrays, and their
//! faults. Of the definitions `Paths` has the paths; `Counting` says what the code promises on its
//! way. What the laws rest on stands in `EachChanged` and `PathLaw`.
#![tactic(auto)]

mod get;
mod keys;
mod merge;
mod object_from_array;
mod paths;
mod remove;
mod set;
mod tally;
mod unflatten;
mod values;

pub use get::Get;
pub use keys::Keys;
pub use merge::Merge;
pub use object_from_array::ObjectFromArray;
pub use remove::Remove;
pub use set::Set;
pub use tally::Tally;
pub use unflatten::Unflatten;
pub use values::Values;

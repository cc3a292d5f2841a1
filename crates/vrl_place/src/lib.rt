//! Kinds at paths: what a read finds at a path of a value of a kind, and what the kind becomes
//! where a value is written or removed there.
//!
//! Files: `spot.rt` has what stands somewhere in a kind, borrowed, `places.rt` and `fields.rt` what
//! an array and an object have there, `from_end.rt` the places that count from the end, and each
//! call has a file: `read.rt`, `write.rt`, `remove.rt` and `absence.rt`. `far.rt` has writes and
//! removals at places far behind those that a kind knows. `laws.rt` tells of values what these tell
//! of kinds.
#![tactic(auto)]

mod absence;
mod far;
mod fields;
mod from_end;
mod laws;
mod places;
mod read;
mod remove;
mod spot;
mod write;

pub use absence::may_be_absent;
pub use far::{remove_cut, write_cut};
pub use laws::{
    nothing_removed_is_of_the_kind, reads_are_of_their_cut, reads_are_of_their_kind,
    removals_are_of_their_kind, removals_are_one_kind, writes_are_of_their_kind,
    writes_are_one_kind,
};
pub use read::read_kind;
pub use remove::remove_kind;
pub use write::write_kind;

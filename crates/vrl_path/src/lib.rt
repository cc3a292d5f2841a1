//! Paths into values: the steps that lead from a value to a part of it, and what is read, set and
//! removed there.
//!
//! Files: `path.rt` has steps and paths, `read.rt` what is read, `write.rt` `set` and `put`,
//! `build.rt` new containers for the missing rest of a path and new items in front of others,
//! `depth.rt` whether a set is within the limit, `removal.rt` `remove`, `parts.rt` one step,
//! `fault.rt` why a set is refused, and `laws.rt` the laws.
#![tactic(auto)]

mod build;
mod depth;
mod fault;
mod laws;
mod parts;
mod path;
mod read;
mod removal;
mod write;

pub use depth::DEPTH_LIMIT;
pub use fault::SetFault;
pub use laws::{
    reads_are_look_ups, removals_are_one, removed_trees_are_removals, set_trees_are_sets,
    sets_are_one, sets_deepen, sets_go_on,
};
pub use parts::index;
pub use path::{LEAST_PLACE, PLACE_LIMIT, Path, Step};
pub use read::{exists, get};
pub use removal::remove;
pub use write::{put, set};

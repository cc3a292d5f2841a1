//! The regex literals of a script: whether each is well formed, which groups it has, and what it
//! matches.
//!
//! What a source means is told by the grammar of the crate `regex` under its own options, and what
//! a pattern matches by that crate's definitions. A contract sees [`Patterns`] and [`Searches`] as
//! the list of their sources.
//!
//! Files: `patterns.rt` has the regexes of a script, `building.rt` what is built of its sources and
//! which are malformed, `searches.rt` the searches for them, over `search.rt` (one of which is kept
//! what it writes to) and `matching.rt` (what is read of the matches), `place.rt` where matches and
//! groups lie, `groups.rt` the names of groups, and `fault.rt` why regexes weren't built.
#![tactic(auto)]

mod building;
mod fault;
mod groups;
mod matching;
mod patterns;
mod place;
mod search;
mod searches;

pub use fault::{BuildFault, Numbers};
pub use patterns::Patterns;
pub use place::{Groups, Matches, Place};
pub use searches::Searches;

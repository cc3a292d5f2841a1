//! The functions of texts.
//!
//! Files: each function has a file, and its row one of `specs/`; those that differ in a word stand
//! in one: `case.rt` has `upcase` and `downcase`, and `search.rt` the tests of where a text stands
//! in another. The laws stand in `Laws`, `JoinLaw` and `SliceLaw`.
#![tactic(auto)]

mod case;
mod characters;
mod join;
mod length;
mod search;
mod slice;
mod strip_whitespace;
mod strlen;
mod truncate;

pub use case::{Downcase, Upcase};
pub use join::Join;
pub use length::Length;
pub use search::{Contains, EndsWith, Search, SearchTest, StartsWith};
pub use slice::Slice;
pub use strip_whitespace::StripWhitespace;
pub use strlen::StrLen;
pub use truncate::Truncate;

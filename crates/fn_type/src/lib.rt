//! The functions that tell the tags of values and turn values into others of a given tag.
//!
//! Files: each function has a file, and its row one of `specs/`; those that differ in a tag alone
//! stand in one: `is.rt` has the tests of a tag, and `only.rt` the functions that give a value of
//! one tag back. `of_tag.rt` has what tells such a function: its name and its tag. The laws stand
//! in `Laws`.
#![tactic(auto)]

mod is;
mod is_empty;
mod is_nullish;
mod of_tag;
mod only;
mod to_bool;
mod to_int;
mod to_string;

pub use is::{Is, IsArray, IsBoolean, IsInteger, IsNull, IsObject, IsRegex, IsString, IsTimestamp};
pub use is_empty::IsEmpty;
pub use is_nullish::IsNullish;
pub use of_tag::OfTag;
pub use only::{Array, Bool, Int, Object, Only, StringValue, Timestamp};
pub use to_bool::ToBool;
pub use to_int::ToInt;
pub use to_string::ToString;

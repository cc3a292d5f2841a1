//! The values of events: texts, whole numbers, booleans, null, moments, patterns, arrays and
//! objects.
//!
//! A contract sees a [`Value`] as its tree, by the one function `tree_of`.
//!
//! Files: `value.rt` has the values, their parts and tags, `lists.rt` texts and names, `moment.rt`
//! the range of moments, `reading.rt` the timestamps that are read, `moment_text.rt` and
//! `padding.rt` the text that is written, `memory.rt` want of memory, and `laws.rt` the laws of
//! trees.
#![tactic(auto)]

mod laws;
mod lists;
mod memory;
mod moment;
mod moment_text;
mod padding;
mod reading;
mod value;

pub use laws::{
    items_are_lists, members_are_maps, members_stay_json, moments_read_back, regexes_stay_below,
    trees_are_told, trees_stay_in_order,
};
pub use lists::{Bytes, Chars, Names};
pub use memory::Memory;
pub use moment::Moment;
pub use value::{Fields, Items, Tag, Value};

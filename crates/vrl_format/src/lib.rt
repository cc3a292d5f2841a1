//! The layout of scripts of the Vector Remap Language: one item a line, two spaces for each open
//! block, and one way to set apart what stands on a line.
//!
//! Files: `formatting.rt` has `format`, which reads a text by `vrl_token` and `vrl_parse` and
//! answers its layout. `walk.rt` goes over the tokens and the bytes between them, `comments.rt`
//! over the comments and newlines there, and `tokens.rt` tells the sorts of tokens (`sort.rt`).
//! `layout.rt` writes one piece behind another, and `gap.rt` says what stands between two.
//! `laws.rt` has that a text has one answer, and that a layout means the same and is its own layout.
#![tactic(auto)]

mod comments;
mod formatting;
mod gap;
mod laws;
mod layout;
mod sort;
mod tokens;
mod walk;

pub use formatting::{Formatted, format};
pub use laws::{answers_are_determined, layouts_mean_the_same, layouts_stay};

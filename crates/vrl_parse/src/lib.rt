//! The script of a list of tokens, by the grammar of the Vector Remap Language (vector.dev/docs/reference/vrl).
//!
//! Files: `reading.rt` has `parse`. The parser never goes back: `parser.rt` has what is left and what is
//! looked at, `stop.rt` why it stops, `single.rt` takes single tokens, and `items.rt`, `operators.rt`,
//! `operands.rt`, `parts.rt`, `calls.rt`, `closures.rt` and `conditionals.rt` take the parts of the grammar.
//! Each function promises what a program over words does (`Descent`), and lemmas about these programs alone
//! tie them to the grammar. `laws.rt` has that tokens have one script, and one place where they go wrong.
#![tactic(auto)]

mod calls;
mod closures;
mod conditionals;
mod items;
mod laws;
mod operands;
mod operators;
mod parser;
mod parts;
mod reading;
mod single;
mod stop;

pub use laws::{error_places_are_determined, scripts_are_determined};
pub use reading::parse;

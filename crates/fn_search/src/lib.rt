//! The functions that look for texts and regexes in a text.
//!
//! Files: each function has a file, and its row one of `specs/`; `parse_regex` and
//! `parse_regex_all` stand in one. `cut.rt` has where a text stands in another, and what lies
//! between, `sources.rt` whether a value is a regex that matches, and `fields.rt` the object of a
//! match. The laws stand in `Laws`, `MatchAnyLaw`, `FieldsLaw` and `ParseRegexLaw`.
#![tactic(auto)]

mod cut;
mod fields;
mod find;
mod match_any;
mod matches;
mod parse_regex;
mod replace;
mod sources;
mod split;

pub use find::Find;
pub use match_any::MatchAny;
pub use matches::Match;
pub use parse_regex::{ParseRegex, ParseRegexAll};
pub use replace::Replace;
pub use split::Split;

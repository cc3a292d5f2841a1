//! The tokens of the Vector Remap Language: a script's text, cut at the spellings of the language
//! (vector.dev/docs/reference/vrl).
//!
//! Files: `reading.rt` (`script_text`, `tokens`) calls `lexer.rt`, which cuts a text into pieces
//! (`piece.rt`): `cut.rt`, with `literals.rt`, `names.rt` and `signs.rt` over `scan.rt`,
//! `number.rt`, `quoted.rt`, `template.rt`, `segment.rt` and `path.rt`, and what stands before in
//! `context.rt`.
//! Then `telling.rt` says what braces, bars and newlines are, by what stands behind (`ahead.rt`)
//! and before (`before.rt`, with the open brackets of `bracket.rt`), and `nesting.rt` how deep
//! tokens are nested. `token.rt` has the tokens, `fault.rt` why there are none, and `laws.rt` that
//! a text has one list of them, and which pieces stay where a text is written again with other
//! blanks and newlines.
#![tactic(auto)]

mod ahead;
mod before;
mod bracket;
mod context;
mod cut;
mod fault;
mod laws;
mod lexer;
mod literals;
mod names;
mod nesting;
mod number;
mod path;
mod piece;
mod quoted;
mod reading;
mod scan;
mod segment;
mod signs;
mod telling;
mod template;
mod token;

pub use bracket::Bracket;
pub use fault::SyntaxFault;
pub use laws::{pieces_are_respelled, tokens_are_determined};
pub use piece::{Lexeme, Piece};
pub use reading::{SCRIPT_LIMIT, script_text, tokens};
pub use token::{Hole, Holes, Spanned, Token, Tokens};

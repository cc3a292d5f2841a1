//! The functions of whole numbers.
//!
//! Files: each function has a file, and its row one of `specs/`. `numeral.rt` has the digits that
//! two of them read and write. The laws stand in `Laws`.
#![tactic(auto)]

mod abs;
mod format_int;
mod mod_;
mod numeral;
mod parse_int;

pub use abs::Abs;
pub use format_int::FormatInt;
pub use mod_::Mod;
pub use parse_int::ParseInt;

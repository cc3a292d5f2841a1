//! The functions of time.
//!
//! Files: each function has a file, and its row one of `specs/`. `format.rt` tells the formats that
//! are allowed, `read.rt` has the moments that texts name and `shown.rt` the texts of moments under
//! a format, and `unit.rt` the units in which moments are counted. Of the definitions `Format`,
//! `Read`, `Shown` and `Unit` have the same, and `Clock` the moment at which a clock shows a date
//! and a time. The laws stand in `Laws`.
#![tactic(auto)]

mod format;
mod format_timestamp;
mod from_unix_timestamp;
mod now;
mod parse_timestamp;
mod read;
mod shown;
mod to_unix_timestamp;
mod unit;

pub use format_timestamp::FormatTimestamp;
pub use from_unix_timestamp::FromUnixTimestamp;
pub use now::Now;
pub use parse_timestamp::ParseTimestamp;
pub use read::timestamps_are_read;
pub use to_unix_timestamp::ToUnixTimestamp;

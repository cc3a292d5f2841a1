//! The functions that read a text in a format, and write one.
//!
//! Files: each function has a file, and its row one of `specs/`: `Json` has those of `parse_json`
//! and `encode_json`, `Csv` that of `parse_csv`, `Url` that of `parse_url`, and `QueryString` that
//! of `parse_query_string`; each has its law in the file with its name and `Law`. `pairs.rt` has
//! the names and values of a query. Of `parse_key_value` and `encode_key_value` the rows stand in
//! `ParseKeyValue` and `EncodeKeyValue`, the laws in `KeyValueLaw`, and in `KeyValueText` what a
//! text with fields is made of; `key_value.rt` cuts the fields of a text, and `quotes.rt` texts
//! between quotes.
#![tactic(auto)]

mod encode_json;
mod encode_key_value;
mod key_value;
mod pairs;
mod parse_csv;
mod parse_json;
mod parse_key_value;
mod parse_query_string;
mod parse_url;
mod quotes;
mod url_kind;

pub use encode_json::EncodeJson;
pub use encode_key_value::EncodeKeyValue;
pub use parse_csv::ParseCsv;
pub use parse_json::ParseJson;
pub use parse_key_value::{ParseKeyValue, key_values_are_read};
pub use parse_query_string::ParseQueryString;
pub use parse_url::ParseUrl;

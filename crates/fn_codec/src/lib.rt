//! The functions of codes and digests.
//!
//! Files: a function and its inverse stand in one file, `base64_code.rt`, `base16_code.rt` and
//! `percent_code.rt`, and their words in one of `specs/`. `digests.rt` has `md5` and `sha1`, and
//! `sha2_digests.rt` the function with variants. `decode.rt` has what the functions share that may
//! find no bytes in a text, or bytes that are no text. The laws stand in `Laws`.
#![tactic(auto)]

mod base16_code;
mod base64_code;
mod decode;
mod digests;
mod percent_code;
mod sha2_digests;

pub use base16_code::{DecodeBase16, EncodeBase16};
pub use base64_code::{DecodeBase64, EncodeBase64};
pub use decode::{Decode, Decoded};
pub use digests::{Md5, Sha1};
pub use percent_code::{DecodePercent, EncodePercent};
pub use sha2_digests::Sha2;

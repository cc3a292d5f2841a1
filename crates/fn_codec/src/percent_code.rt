ghost use Rattle.std.specs.Prelude.{codes};
ghost use Rattle.fn_codec.specs.Percent.{percent_of, text_of_percent};

use percent_encoding::{NON_ALPHANUMERIC, percent_decode, utf8_percent_encode};
use std::alloc::Global;
use vrl_builtin::FromText;
use vrl_value::{Chars, Memory};

/// `encode_percent(value: string)`: string. The text with each byte but the letters and digits of
/// ASCII written as `%` and two hexadecimal digits in upper case (RFC 3986, section 2.1). It never
/// fails. `encode_percent("a b")` is `"a%20b"`.
#[derive(Clone, Copy)]
pub struct EncodePercent;

impl FromText for EncodePercent {
    ghost from_text = { (codes "encode_percent", percent_of) };

    fn name(&self) -> &'static str {
        "encode_percent"
    }

    fn make(&self, alloc: Global, text: &str) -> Result<Chars, Memory> {
        let mut escaped = String::new(alloc);
        utf8_percent_encode(text, NON_ALPHANUMERIC).append_to(&mut escaped)?;
        Ok(Chars::new(escaped))
    }
}

/// `decode_percent(value: string)`: string. The text with the byte of each escape, a `%` and two
/// hexadecimal digits, in its place; a `%` without two digits stays, and bytes that are no UTF-8
/// become U+FFFD. It never fails. `decode_percent("a%20b")` is `"a b"`.
#[derive(Clone, Copy)]
pub struct DecodePercent;

impl FromText for DecodePercent {
    ghost from_text = { (codes "decode_percent", text_of_percent) };

    fn name(&self) -> &'static str {
        "decode_percent"
    }

    fn make(&self, alloc: Global, text: &str) -> Result<Chars, Memory> {
        let mut bytes = Vec::new(alloc);
        percent_decode(text.as_bytes()).append_to(&mut bytes)?;
        Ok(Chars::new(String::from_utf8_lossy(alloc, &bytes)?))
    }
}

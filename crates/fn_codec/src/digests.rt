ghost use Rattle.std.specs.Prelude.{codes};
ghost use Rattle.fn_codec.specs.Digests.{md5_of, sha1_of};

use md5::Digest;
use std::alloc::Global;
use vrl_builtin::FromText;
use vrl_value::{Chars, Memory};

/// `md5(value: string)`: string. The digest of the text's bytes by RFC 1321, as hexadecimal digits
/// in lower case. It never fails. `md5("")` is `"d41d8cd98f00b204e9800998ecf8427e"`.
#[derive(Clone, Copy)]
pub struct Md5;

impl FromText for Md5 {
    ghost from_text = { (codes "md5", md5_of) };

    fn name(&self) -> &'static str {
        "md5"
    }

    fn make(&self, alloc: Global, text: &str) -> Result<Chars, Memory> {
        Ok(Chars::new(hex::encode(alloc, md5::Md5::digest(text))?))
    }
}

/// `sha1(value: string)`: string. The digest of the text's bytes by RFC 3174, as hexadecimal digits
/// in lower case. It never fails. `sha1("abc")` is `"a9993e364706816aba3e25717850c26c9cd0d89d"`.
#[derive(Clone, Copy)]
pub struct Sha1;

impl FromText for Sha1 {
    ghost from_text = { (codes "sha1", sha1_of) };

    fn name(&self) -> &'static str {
        "sha1"
    }

    fn make(&self, alloc: Global, text: &str) -> Result<Chars, Memory> {
        Ok(Chars::new(hex::encode(alloc, sha1::Sha1::digest(text.as_bytes()))?))
    }
}

ghost use Rattle.std.specs.Prelude.{◌≡◌, ◌⊎◌, ℕ, List, Ok, Err, codes, option_map, IfErr, IfOk, IsErr};
ghost use Rattle.hex.specs.Hex.{decode_of};
ghost use Rattle.hex.specs.declared.error.FromHexError.TheVariants.{OutOfMemory};
ghost use Rattle.fn_codec.specs.Base16.{base16_of, bytes_of_base16};

use crate::decode::Decode;
use hex::FromHexError;
use std::alloc::Global;
use vrl_builtin::FromText;
use vrl_value::{Chars, Memory};

/// `encode_base16(value: string)`: string. The bytes of the text as two hexadecimal digits each, in
/// lower case (RFC 4648, section 8). It never fails. `encode_base16("hi")` is `"6869"`.
#[derive(Clone, Copy)]
pub struct EncodeBase16;

impl FromText for EncodeBase16 {
    ghost from_text = { (codes "encode_base16", base16_of) };

    fn name(&self) -> &'static str {
        "encode_base16"
    }

    fn make(&self, alloc: Global, text: &str) -> Result<Chars, Memory> {
        Ok(Chars::new(hex::encode(alloc, text)?))
    }
}

/// `decode_base16(value: string)`: string. The text whose bytes are written so by two hexadecimal
/// digits each, in either case. It always may fail: `not base16`; `not UTF-8`.
/// `decode_base16("6869")` is `"hi"`.
#[derive(Clone, Copy)]
pub struct DecodeBase16;

// The bytes that were read; none where the text is no base16. `Memory`: there was no memory for
// them.
fn read(decoded: Result<Vec<u8>, FromHexError>) -> Result<Option<Vec<u8>>, Memory>
    ensures memory { IsErr result → decoded ≡ Err OutOfMemory }
    ensures read { (text : List ℕ) → IfOk decoded (λ bytes. decode_of text ≡ Ok bytes.items)
        → IfErr decoded (λ fault. (fault ≡ OutOfMemory) ⊎ (decode_of text ≡ Err fault))
        → IfOk result (λ found. option_map (λ bytes. bytes.items) found ≡ bytes_of_base16 text) }
{
    match decoded {
        Ok(bytes) => Ok(Some(bytes)),
        Err(FromHexError::OutOfMemory) => Err(Memory),
        Err(_fault) => Ok(None),
    }
}

impl Decode for DecodeBase16 {
    ghost decode = { (codes "decode_base16", codes "not base16", bytes_of_base16) };

    fn name(&self) -> &'static str {
        "decode_base16"
    }

    fn words(&self) -> &'static str {
        "not base16"
    }

    fn bytes(&self, alloc: Global, text: &str) -> Result<Option<Vec<u8>>, Memory> {
        read(hex::decode(alloc, text))
    }
}

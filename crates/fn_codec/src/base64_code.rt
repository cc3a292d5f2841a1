ghost use Rattle.std.specs.Prelude.{◌≡◌, ℕ, List, Ok, Err, codes, option_map, IfErr, IfOk, IsErr};
ghost use Rattle.base64.specs.Engines.{standard};
ghost use Rattle.base64.specs.GeneralPurpose.{decode_of, IsDecodeFailure};
ghost use Rattle.base64.specs.declared.decode.DecodeAllocError.TheVariants.{OutOfMemory};
ghost use Rattle.fn_codec.specs.Base64.{base64_of, bytes_of_base64};

use crate::decode::Decode;
use base64::DecodeAllocError;
use base64::engine::general_purpose::STANDARD;
use std::alloc::Global;
use vrl_builtin::FromText;
use vrl_value::{Chars, Memory};

/// `encode_base64(value: string)`: string. The bytes of the text in the standard alphabet of RFC
/// 4648, padded. It never fails. `encode_base64("hi")` is `"aGk="`.
#[derive(Clone, Copy)]
pub struct EncodeBase64;

impl FromText for EncodeBase64 {
    ghost from_text = { (codes "encode_base64", base64_of) };

    fn name(&self) -> &'static str {
        "encode_base64"
    }

    fn make(&self, alloc: Global, text: &str) -> Result<Chars, Memory> {
        Ok(Chars::new(STANDARD.encode(alloc, text.as_bytes())?))
    }
}

/// `decode_base64(value: string)`: string. The text whose bytes the standard alphabet of RFC 4648
/// writes so, with all of the padding. It always may fail: `not base64`; `not UTF-8`.
/// `decode_base64("aGk=")` is `"hi"`.
#[derive(Clone, Copy)]
pub struct DecodeBase64;

// The bytes that were read; none where the text is no base64. `Memory`: there was no memory for
// them.
fn read(decoded: Result<Vec<u8>, DecodeAllocError>) -> Result<Option<Vec<u8>>, Memory>
    ensures memory { IsErr result → decoded ≡ Err OutOfMemory }
    ensures read { (text : List ℕ) → IfOk decoded (λ bytes. decode_of standard text ≡ Ok bytes.items)
        → IfErr decoded (IsDecodeFailure standard text)
        → IfOk result (λ found. option_map (λ bytes. bytes.items) found ≡ bytes_of_base64 text) }
{
    match decoded {
        Ok(bytes) => Ok(Some(bytes)),
        Err(DecodeAllocError::OutOfMemory) => Err(Memory),
        Err(DecodeAllocError::DecodeError(_fault)) => Ok(None),
    }
}

impl Decode for DecodeBase64 {
    ghost decode = { (codes "decode_base64", codes "not base64", bytes_of_base64) };

    fn name(&self) -> &'static str {
        "decode_base64"
    }

    fn words(&self) -> &'static str {
        "not base64"
    }

    fn bytes(&self, alloc: Global, text: &str) -> Result<Option<Vec<u8>>, Memory> {
        read(STANDARD.decode(alloc, text.as_bytes()))
    }
}

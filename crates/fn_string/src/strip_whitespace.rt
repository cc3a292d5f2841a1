ghost use Rattle.std.specs.Prelude.{codes};
ghost use Rattle.fn_string.specs.StripWhitespace.{stripped};

use std::alloc::Global;
use vrl_builtin::FromText;
use vrl_value::{Chars, Memory};

/// `strip_whitespace(value: string)`: string. The text without the white space of Unicode at both
/// ends. It never fails. `strip_whitespace(" a ")` is `"a"`.
#[derive(Clone, Copy)]
pub struct StripWhitespace;

impl FromText for StripWhitespace {
    ghost from_text = { (codes "strip_whitespace", stripped) };

    fn name(&self) -> &'static str {
        "strip_whitespace"
    }

    fn make(&self, alloc: Global, text: &str) -> Result<Chars, Memory> {
        Chars::copy_of(alloc, text.trim())
    }
}

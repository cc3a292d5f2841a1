ghost use Rattle.std.specs.Prelude.{◌≡◌, ℕ, List, IfOk, string_bytes};
ghost use Rattle.form_urlencoded.specs.Form.{DecodesTo};
ghost use Rattle.fn_parse.specs.Pairs.{text_of};

use std::alloc::AllocError;
use vrl_value::{Chars, Memory};

/// A pair of a form, as the reader of the crate `form_urlencoded` gives it.
pub(crate) type Item = Result<(String, String), AllocError>;

/// The name and the value of a pair that was read. `Memory`: want of memory.
pub(crate) fn texts_of(item: Item) -> Result<(Chars, Chars), Memory>
    ensures { (name value : List ℕ)
        → IfOk item (λ pair. DecodesTo name (string_bytes pair.0) × DecodesTo value (string_bytes pair.1))
        → IfOk result (λ texts. (texts.0 ≡ text_of name) × (texts.1 ≡ text_of value)) }
{
    let (name, value) = item?;
    Ok((Chars::new(name), Chars::new(value)))
}

ghost use Rattle.std.specs.Prelude.{codes};
ghost use Rattle.fn_string.specs.Case.{in_lower_case, in_upper_case};

use std::alloc::Global;
use vrl_builtin::FromText;
use vrl_value::{Chars, Memory};

/// `upcase(value: string)`: string. The text with the letters of ASCII in upper case; all else
/// stays as it is. It never fails. `upcase("aé")` is `"Aé"`.
#[derive(Clone, Copy)]
pub struct Upcase;

impl FromText for Upcase {
    ghost from_text = { (codes "upcase", in_upper_case) };

    fn name(&self) -> &'static str {
        "upcase"
    }

    fn make(&self, alloc: Global, text: &str) -> Result<Chars, Memory> {
        Ok(Chars::new(text.to_ascii_uppercase(alloc)?))
    }
}

/// `downcase(value: string)`: string. The text with the letters of ASCII in lower case; all else
/// stays as it is. It never fails. `downcase("AB")` is `"ab"`.
#[derive(Clone, Copy)]
pub struct Downcase;

impl FromText for Downcase {
    ghost from_text = { (codes "downcase", in_lower_case) };

    fn name(&self) -> &'static str {
        "downcase"
    }

    fn make(&self, alloc: Global, text: &str) -> Result<Chars, Memory> {
        Ok(Chars::new(text.to_ascii_lowercase(alloc)?))
    }
}

ghost use Rattle.std.specs.Prelude.{◌≡◌, ◌≤◌};
ghost use Rattle.vrl_builtin.specs.Numeral.{read_in};

/// The whole number that an optional sign and digits of the base, in either case, write. `None`:
/// the text is something else, or the number has more than 64 bits.
pub fn read_integer(text: &str, base: u32) -> Option<i64>
    requires low { 2 ≤ base }
    requires high { base ≤ 36 }
    ensures { result ≡ read_in base text.now }
{
    i64::from_str_radix(text, base).ok()
}

ghost use Rattle.std.specs.Prelude.{◌≡◌, ◌<◌, ◌==◌, IsTrue, false, length, option_map, slice_index, true};
ghost use Rattle.serde_json.specs.Read.{float_of, number_from, number_of};
ghost use Rattle.vrl_json.specs.Line.{whole_number};

use fast_float::Numeral;

/// The number that a number's text in JSON (RFC 8259) writes, where it is a whole number of 64 bits
/// with a sign in the plain form of digits. `Some(None)`: it is another number. `None`: it is too
/// large for a float of 64 bits, so it is no number.
pub(crate) fn number_in(text: &str) -> Option<Option<i64>>
    ensures { option_map whole_number (number_of text.now) ≡ result }
{
    let bytes = text.as_bytes();
    if has_minus(bytes) {
        below_zero(&Numeral::scan(&bytes[1..]))
    } else {
        from_zero(&Numeral::scan(bytes))
    }
}

fn has_minus(bytes: &[u8]) -> bool
    ensures value { result ≡ (slice_index bytes.now 0 == 45) }
    ensures len { IsTrue result → 0 < length bytes.now }
{
    !bytes.is_empty() && bytes[0] == b'-'
}

// The number without a sign.
fn from_zero(numeral: &Numeral<'_>) -> Option<Option<i64>>
    ensures { option_map whole_number (number_from false numeral.now) ≡ result }
{
    match numeral.to_u64() {
        Some(number) => Some(i64::try_from(number).ok()),
        None => other(false, numeral),
    }
}

// The number behind a minus. `-0` is none of the plain form.
fn below_zero(numeral: &Numeral<'_>) -> Option<Option<i64>>
    ensures { option_map whole_number (number_from true numeral.now) ≡ result }
{
    if let Some(number) = numeral.to_i64(true) {
        if number < 0 {
            return Some(Some(number));
        }
    }
    other(true, numeral)
}

// A number that is held as a float.
fn other(negative: bool, numeral: &Numeral<'_>) -> Option<Option<i64>>
    ensures { option_map whole_number (float_of negative numeral.now) ≡ result }
{
    if numeral.to_float::<f64>(negative).is_finite() {
        Some(None)
    } else {
        None
    }
}

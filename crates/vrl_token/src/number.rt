ghost use Rattle.std.specs.Prelude.{◌≡◌, ◌<◌, ◌^◌, ◌++◌, ◌∷◌, ℕ, List, FitsSigned, MatchOption};
ghost use Rattle.std.specs.Int.{w64};
ghost use Rattle.std.specs.Option.{SomeIff};
ghost use Rattle.vrl_token.specs.Lexical.{BeginsInside, BeginsOutside, IsDigit};
ghost use Rattle.vrl_token.specs.Numbers.{DigitsGoOn, IsDigits, IsExponent, IsFloat, IsFraction, IsDigitRun, decimal_value, signed};
ghost use Rattle.vrl_token.specs.Numerals.{IsDigitsCut, NoPowerLetter, PowerLetter, PowerSign, value_with};

use crate::scan::{Class, begins_in, split_run, strip_mark};

// The value of digits with one more of them; `_` counts for nothing. `None`: it has more than 64
// bits.
fn with_digit(value: u64, byte: u8) -> Option<u64>
    ensures { SomeIff result (value_with value byte < 2 ^ 64) (value_with value byte) }
{
    if byte == b'_' {
        return Some(value);
    }
    value
        .checked_mul(10)?
        .checked_add(u64::from(byte.saturating_sub(b'0')))
}

// The value of digits, where `_` counts for nothing. `None`: it has more than 64 bits.
fn magnitude(digits: &str) -> Option<u64>
    ensures { SomeIff result (decimal_value 0 digits.now < 2 ^ 64) (decimal_value 0 digits.now) }
{
    let mut value = 0;
    for byte in digits.as_bytes() {
        value = with_digit(value, *byte)?;
    }
    Some(value)
}

/// The number that digits stand for behind a minus, where the flag says so. `None`: it has more
/// than 64 bits with its sign.
pub(crate) fn number_of(negative: bool, digits: &str) -> Option<i64>
    ensures { let number = signed negative (decimal_value 0 digits.now) in SomeIff result
        (FitsSigned w64 number) number }
{
    let magnitude = magnitude(digits)?;
    if negative {
        0i64.checked_sub_unsigned(magnitude)
    } else {
        0i64.checked_add_unsigned(magnitude)
    }
}

// Whether a text that follows digits goes on with them: with a digit, or with `_` and a digit.
// Then, what stands behind the `_`.
fn behind_underscore(text: &str) -> Option<&str>
    ensures { MatchOption result
        ((behind : List ℕ) → text.now ≡ 95 ∷ behind → BeginsOutside IsDigit behind)
        (λ behind. (text.now ≡ 95 ∷ behind.now) × BeginsInside IsDigit behind.now) }
{
    let behind = strip_mark(text, '_')?;
    begins_in(behind, Class::Digit).then_some(behind)
}

// What stands behind the digits that a text begins with, and single `_` between them.
fn behind_digits(text: &str) -> &str
    requires { BeginsInside IsDigit text.now }
    ensures { IsDigitsCut text.now result.now }
{
    let (_, mut rest) = split_run(text, Class::Digit);
    while let Some(more) = behind_underscore(rest) {
        (_, rest) = split_run(more, Class::Digit);
    }
    rest
}

/// Cuts a text behind the digits that it begins with, with single `_` between them, as many as can
/// be.
pub(crate) fn split_digits(text: &str) -> (&str, &str)
    requires { BeginsInside IsDigit text.now }
    ensures parts { text.now ≡ result.0.now ++ result.1.now }
    ensures is_digits { IsDigits result.0.now }
    ensures ends { ¬ DigitsGoOn result.1.now }
{
    let rest = behind_digits(text);
    let (digits, _) = text.split_at(text.len() - rest.len());
    (digits, rest)
}

/// Cuts a text behind the digits without `_` that it begins with. `None` where it begins with none.
pub(crate) fn split_digit_run(text: &str) -> Option<(&str, &str)>
    ensures { MatchOption result
        ((digits rest : List ℕ) → ¬ IsDigitRun text.now digits rest)
        (λ cut. IsDigitRun text.now cut.0.now cut.1.now) }
{
    let (digits, rest) = split_run(text, Class::Digit);
    if digits.is_empty() {
        return None;
    }
    Some((digits, rest))
}

// What stands behind the sign that the digits of an exponent may have.
fn behind_power_sign(text: &str) -> &str
    ensures { PowerSign text.now result.now }
{
    if let Some(behind) = strip_mark(text, '+') {
        return behind;
    }
    strip_mark(text, '-').unwrap_or(text)
}

// What stands behind the `e` or `E` that a text begins with. `None` where it begins with neither.
fn behind_power_letter(text: &str) -> Option<&str>
    ensures { MatchOption result (NoPowerLetter text.now) (λ behind. PowerLetter text.now behind.now) }
{
    match strip_mark(text, 'e') {
        Some(behind) => Some(behind),
        None => strip_mark(text, 'E'),
    }
}

// What stands behind the exponent that a text begins with. `None` where it begins with none.
fn behind_exponent(text: &str) -> Option<&str>
    ensures { MatchOption result ((rest : List ℕ) → ¬ IsExponent text.now rest) (λ rest. IsExponent text.now rest.now) }
{
    let behind = behind_power_letter(text)?;
    let (_, rest) = split_digit_run(behind_power_sign(behind))?;
    Some(rest)
}

// What stands behind the `.` and digits that a text begins with. `None` where it begins with none.
fn behind_fraction(text: &str) -> Option<&str>
    ensures { MatchOption result ((rest : List ℕ) → ¬ IsFraction text.now rest) (λ rest. IsFraction text.now rest.now) }
{
    let (_, rest) = split_digit_run(strip_mark(text, '.')?)?;
    Some(rest)
}

/// What stands behind the rest of a float that the text behind its first digits begins with. `None`
/// where it begins with none.
pub(crate) fn behind_float(text: &str) -> Option<&str>
    ensures { MatchOption result ((rest : List ℕ) → ¬ IsFloat text.now rest) (λ rest. IsFloat text.now rest.now) }
{
    match behind_fraction(text) {
        Some(middle) => Some(behind_exponent(middle).unwrap_or(middle)),
        None => behind_exponent(text),
    }
}

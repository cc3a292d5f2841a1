ghost use Rattle.std.specs.Prelude.{◌≡◌, ◌≢◌, ◌≤◌, ◌<◌, ℕ, List, [], ◌∷◌, ◌++◌, IfOk, MatchOption, OnOk, string_bytes};
ghost use Rattle.std.specs.Char.{digit_char};
ghost use Rattle.vrl_builtin.specs.Numeral.{number_of, with_sign as signed, in_64_bits};
ghost use Rattle.fn_number.specs.Numeral.{base_of, begins_with_digit, behind_prefix, behind_sign, is_negative, numeral, read_by_prefix as prefixed_number, written_in};

use std::alloc::{AllocError, Global};

// What stands behind a character of ASCII with which the text begins. `None`: it begins otherwise.
fn behind(text: &str, first: char) -> Option<&str>
    requires { first < 128 }
    ensures { MatchOption result ((rest : List ℕ) → text.now ≢ first ∷ rest) (λ rest. text.now ≡ first ∷ rest.now) }
{
    text.strip_prefix(first)
}

// Whether a decimal digit stands first.
fn begins_with_digit(text: &str) -> bool
    ensures { result ≡ begins_with_digit text.now }
{
    match text.as_bytes().first() {
        Some(first) => first.is_ascii_digit(),
        None => false,
    }
}

// Whether the number is negative, and the text without its sign.
fn split_sign(text: &str) -> (bool, &str)
    ensures negative { result.0 ≡ is_negative text.now }
    ensures digits { result.1.now ≡ behind_sign text.now }
{
    if let Some(digits) = behind(text, '-') {
        return (true, digits);
    }
    match behind(text, '+') {
        Some(digits) => (false, digits),
        None => (false, text),
    }
}

// The base that the digits tell by their prefix, and those of that base: what stands behind `0b`,
// `0o` and `0x`, and all of them where a `0` stands before another digit.
fn split_base(digits: &str) -> (u32, &str)
    ensures base { result.0 ≡ base_of digits.now }
    ensures digits { result.1.now ≡ behind_prefix digits.now }
{
    let Some(rest) = behind(digits, '0') else {
        return (10, digits);
    };
    if let Some(digits) = behind(rest, 'b') {
        return (2, digits);
    }
    if let Some(digits) = behind(rest, 'o') {
        return (8, digits);
    }
    if let Some(digits) = behind(rest, 'x') {
        return (16, digits);
    }
    if begins_with_digit(rest) {
        (8, digits)
    } else {
        (10, digits)
    }
}

// The number with this sign. `None`: it has more than 64 bits.
fn with_sign(negative: bool, magnitude: u64) -> Option<i64>
    ensures { result ≡ in_64_bits (signed negative magnitude) }
{
    let magnitude = magnitude as i128;
    let number = if negative { -magnitude } else { magnitude };
    i64::try_from(number).ok()
}

// The number that digits without a sign write in a base, with this sign. `None`: there is no digit,
// or some other character, or the number has more than 64 bits.
fn read_digits(negative: bool, base: u32, digits: &str) -> Option<i64>
    requires low { 2 ≤ base }
    requires high { base ≤ 36 }
    ensures { result ≡ number_of negative base digits.now }
{
    // from_str_radix would take a sign.
    let None = behind(digits, '+') else {
        return None;
    };
    match u64::from_str_radix(digits, base) {
        Ok(magnitude) => with_sign(negative, magnitude),
        Err(_) => None,
    }
}

// The whole number that an optional sign, an optional prefix and digits of the base that it tells
// write. `None`: the text is something else, or the number has more than 64 bits.
pub(crate) fn read_by_prefix(text: &str) -> Option<i64>
    ensures { result ≡ prefixed_number text.now }
{
    let (negative, unsigned) = split_sign(text);
    let (base, digits) = split_base(unsigned);
    read_digits(negative, base, digits)
}

// Writes a digit behind a text, a letter in lower case.
fn push_digit(text: &mut String, digit: u32) -> Result<(), AllocError>
    requires { digit < 36 }
    ensures { OnOk result (string_bytes text.new ≡ string_bytes text.old ++ (digit_char digit ∷ [])) }
{
    match char::from_digit(digit, 36) {
        Some(character) => text.push(character),
        None => unreachable!(),
    }
}

// Writes the digits of a number in a base behind a text.
fn push_digits(text: &mut String, number: u64, base: u32) -> Result<(), AllocError>
    requires low { 2 ≤ base }
    requires high { base ≤ 36 }
    ensures { OnOk result (string_bytes text.new ≡ string_bytes text.old ++ numeral base number) }
{
    if number < base as u64 {
        return push_digit(text, number as u32);
    }
    push_digits(text, number / base as u64, base)?;
    push_digit(text, (number % base as u64) as u32)
}

// The number in a base, in lower case, with `-` first where it is negative.
pub(crate) fn write(alloc: Global, number: i64, base: u32) -> Result<String, AllocError>
    requires low { 2 ≤ base }
    requires high { base ≤ 36 }
    ensures { IfOk result (λ text. string_bytes text ≡ written_in base number) }
{
    let mut text = String::new(alloc);
    if number < 0 {
        text.push('-')?;
    }
    push_digits(&mut text, number.unsigned_abs(), base)?;
    Ok(text)
}

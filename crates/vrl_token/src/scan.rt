ghost use Rattle.std.specs.Prelude.{◌≡◌, ◌≢◌, ◌≤◌, ◌<◌, ◌↔◌, ℕ, List, ◌∷◌, IsTrue, MatchOption, length, slice_index};
ghost use Rattle.std.specs.List.{AllByRecursion};
ghost use Rattle.vrl_token.specs.Lexical.{BeginsInside, IsLongestRun};
ghost use Rattle.vrl_token.specs.Scan.{HasNoByte, IsIn};
ghost use Rattle.vrl_token.specs.Words.{BeginsWith};

/// A class of ASCII characters.
#[derive(Clone, Copy)]
pub(crate) enum Class {
    /// Space, tab and carriage return.
    Blank,
    /// `0` to `9`.
    Digit,
    /// What a name begins with: a letter and `_`.
    NameStart,
    /// What a name goes on with: a letter, a digit and `_`.
    NamePart,
    /// What a field without quotes is made of: a letter, a digit, `_` and `@`.
    FieldPart,
}

impl Class {
    /// Whether the byte is one of the class.
    pub(crate) fn contains(self, byte: u8) -> bool
        ensures { IsTrue result ↔ IsIn self byte }
    {
        match self {
            Class::Blank => matches!(byte, b' ' | b'\t' | b'\r'),
            Class::Digit => byte.is_ascii_digit(),
            Class::NameStart => byte.is_ascii_alphabetic() || byte == b'_',
            Class::NamePart => byte.is_ascii_alphanumeric() || byte == b'_',
            Class::FieldPart => byte.is_ascii_alphanumeric() || byte == b'_' || byte == b'@',
        }
    }
}

// How many bytes of the class the text begins with.
fn run_length(text: &str, class: Class) -> usize
    ensures within { result ≤ length text.now }
    ensures before { (k : ℕ) → k < result → IsIn class (slice_index text.now k) }
    ensures after { result < length text.now → ¬ IsIn class (slice_index text.now result) }
{
    text.bytes()
        .position(|byte| !class.contains(byte))
        .unwrap_or(text.len())
}

/// Cuts a text behind the longest run of characters of the class that it begins with.
pub(crate) fn split_run(text: &str, class: Class) -> (&str, &str)
    ensures { IsLongestRun (IsIn class) text.now result.0.now result.1.now }
{
    text.split_at(run_length(text, class))
}

// How many bytes stand before the first newline.
fn line_length(text: &str) -> usize
    ensures within { result ≤ length text.now }
    ensures before { (k : ℕ) → k < result → slice_index text.now k ≢ 10 }
    ensures after { result < length text.now → slice_index text.now result ≡ 10 }
{
    text.bytes()
        .position(|byte| byte == b'\n')
        .unwrap_or(text.len())
}

/// Cuts a text before its first newline.
pub(crate) fn split_line(text: &str) -> (&str, &str)
    ensures { IsLongestRun (λ b. b ≢ 10) text.now result.0.now result.1.now }
{
    text.split_at(line_length(text))
}

/// Cuts off the first byte of a text, where it is an ASCII character. `None` where it is none, or
/// the text is empty.
pub(crate) fn split_byte(text: &str) -> Option<(u8, &str)>
    ensures { MatchOption result (HasNoByte text.now) (λ cut. (text.now ≡ cut.0 ∷ cut.1.now) × (cut.0 < 128)) }
{
    if text.is_empty() {
        return None;
    }
    let first = text.as_bytes()[0];
    if first >= 128 {
        return None;
    }
    let (_, rest) = text.split_at(1);
    Some((first, rest))
}

/// What stands behind the ASCII character that a text begins with. `None` where it doesn't begin
/// with it.
pub(crate) fn strip_mark(text: &str, mark: char) -> Option<&str>
    requires { mark < 128 }
    ensures { MatchOption result
        ((rest : List ℕ) → text.now ≢ mark ∷ rest)
        (λ rest. text.now ≡ mark ∷ rest.now) }
{
    text.strip_prefix(mark)
}

/// Whether a text begins with the byte.
pub(crate) fn begins_with(text: &str, mark: u8) -> bool
    ensures { IsTrue result ↔ BeginsWith mark text.now }
{
    match text.as_bytes().first() {
        Some(first) => *first == mark,
        None => false,
    }
}

/// Whether a text begins with a character of the class.
pub(crate) fn begins_in(text: &str, class: Class) -> bool
    ensures { IsTrue result ↔ BeginsInside (IsIn class) text.now }
{
    match text.as_bytes().first() {
        Some(first) => class.contains(*first),
        None => false,
    }
}

/// What stands before and behind the first such ASCII character. `None` where the text has none.
pub(crate) fn split_at_mark(text: &str, mark: char) -> Option<(&str, &str)>
    requires { mark < 128 }
    ensures { MatchOption result
        (AllByRecursion (λ b. b ≢ mark) text.now)
        (λ cut. IsLongestRun (λ b. b ≢ mark) text.now cut.0.now (mark ∷ cut.1.now)) }
{
    text.split_once(mark)
}

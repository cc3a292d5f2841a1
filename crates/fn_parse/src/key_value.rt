ghost use Rattle.std.specs.Prelude.{◌≡◌, ◌<◌, false, length, drop, option_map, true, MatchOption};
ghost use Rattle.fn_parse.specs.KeyValue.{begins, field_at, is_field_end, plain_value, quoted_up_to, value_at, with_key};
ghost use Rattle.fn_parse.specs.Found.{field_found, value_found, words_of, IsAhead, IsNext};
ghost use Rattle.fn_parse.specs.Quotes.{closing_place};

use crate::quotes::split_quoted;

/// A value as it is written in a text.
#[derive(Clone, Copy)]
pub(crate) enum Written<'a> {
    /// It stands so in the text.
    Plain(&'a str),
    /// It stands in quotes, with these escapes.
    Quoted(&'a str),
}

/// A value, and what stands behind it in the text.
#[derive(Clone, Copy)]
struct WrittenAt<'a> {
    written: Written<'a>,
    behind: &'a str,
}

/// A field, and what stands behind it in the text.
#[derive(Clone, Copy)]
pub(crate) struct Field<'a> {
    /// Its key, which isn't empty.
    pub key: &'a str,
    /// Its value. `None`: there is only a key.
    pub written: Option<Written<'a>>,
    /// What stands behind it.
    pub behind: &'a str,
}

/// Why no field begins at a place.
#[derive(Clone, Copy)]
pub(crate) enum Fault {
    /// A key delimiter stands there.
    EmptyKey,
    /// A value in quotes isn't closed, or something else than a field's end stands behind it.
    BadQuotes,
}

impl Fault {
    /// The words of the error.
    pub(crate) fn words(self) -> &'static str
        ensures { result.now ≡ words_of self }
    {
        match self {
            Fault::EmptyKey => "empty key",
            Fault::BadQuotes => "bad quotes",
        }
    }
}

// ---- delimiters

// What stands before the first place where the delimiter stands, and what is left from there on:
// the text and nothing where it stands nowhere.
fn split_before<'a>(text: &'a str, delimiter: &str) -> (&'a str, &'a str)
    requires { 0 < length delimiter.now }
    ensures { (result.0.now, result.1.now) ≡ plain_value delimiter.now text.now }
{
    let length = text.find(delimiter).unwrap_or(text.len());
    text.split_at(length)
}

/// How many bytes are left from the first place on where the delimiter stands; none where it stands
/// nowhere.
pub(crate) fn left_from(text: &str, delimiter: &str) -> usize
    requires { 0 < length delimiter.now }
    ensures { IsNext delimiter.now text.now result }
{
    let (_before, rest) = split_before(text, delimiter);
    rest.len()
}

/// The same of a text with which another one ends, of which it is known. The delimiter is looked
/// for only where its first place there is passed.
pub(crate) fn left_later(text: &str, delimiter: &str, known: usize) -> usize
    requires delimiter { 0 < length delimiter.now }
    requires known { IsAhead delimiter.now text.now known }
    ensures { IsNext delimiter.now text.now result }
{
    if known <= text.len() {
        known
    } else {
        left_from(text, delimiter)
    }
}

// What stands behind the delimiter with which the text begins. `None`: it doesn't begin with it.
// What is known to be left from the delimiter's next place on tells where the two needn't be
// compared.
fn behind_delimiter<'a>(text: &'a str, delimiter: &str, left: usize) -> Option<&'a str>
    requires { IsAhead delimiter.now text.now left }
    ensures { MatchOption result
        (begins delimiter.now text.now ≡ false)
        (λ behind. (begins delimiter.now text.now ≡ true) × (behind.now ≡ drop (length delimiter.now) text.now)) }
{
    if left < text.len() {
        return None;
    }
    text.strip_prefix(delimiter)
}

// ---- values

// A value without quotes, which goes up to the next field delimiter, or the end.
fn plain_value<'a>(text: &'a str, field_delimiter: &str) -> WrittenAt<'a>
    requires { 0 < length field_delimiter.now }
    ensures { value_found result ≡ plain_value field_delimiter.now text.now }
{
    let (plain, behind) = split_before(text, field_delimiter);
    WrittenAt {
        written: Written::Plain(plain),
        behind,
    }
}

// Whether a field ends before this text.
fn is_field_end(text: &str, field_delimiter: &str) -> bool
    ensures { result ≡ is_field_end field_delimiter.now text.now }
{
    text.is_empty() || text.starts_with(field_delimiter)
}

// A value in quotes, behind the opening one. `None`: it isn't closed, or no field ends behind it.
fn quoted_value<'a>(text: &'a str, field_delimiter: &str) -> Option<WrittenAt<'a>>
    ensures { option_map value_found result ≡ quoted_up_to field_delimiter.now text.now (closing_place text.now) }
{
    let (inner, behind) = split_quoted(text)?;
    if !is_field_end(behind, field_delimiter) {
        return None;
    }
    Some(WrittenAt {
        written: Written::Quoted(inner),
        behind,
    })
}

// The value that stands behind a key's delimiter. `None`: its quotes are bad.
fn value_at<'a>(text: &'a str, field_delimiter: &str) -> Option<WrittenAt<'a>>
    requires { 0 < length field_delimiter.now }
    ensures { option_map value_found result ≡ value_at field_delimiter.now text.now }
{
    match text.strip_prefix('"') {
        Some(quoted) => quoted_value(quoted, field_delimiter),
        None => Some(plain_value(text, field_delimiter)),
    }
}

// ---- fields

// The field with this key, before what stands behind it, of which it may be known how many bytes
// are left from the next key delimiter on.
fn with_key<'a>(
    key: &'a str,
    behind: &'a str,
    key_delimiter: &str,
    key_left: usize,
    field_delimiter: &str,
) -> Result<Field<'a>, Fault>
    requires key { 0 < length key.now }
    requires key_left { IsAhead key_delimiter.now behind.now key_left }
    requires field_delimiter { 0 < length field_delimiter.now }
    ensures { field_found result ≡ with_key key_delimiter.now field_delimiter.now key.now behind.now }
{
    let Some(text) = behind_delimiter(behind, key_delimiter, key_left) else {
        return Ok(Field {
            key,
            written: None,
            behind,
        });
    };
    match value_at(text, field_delimiter) {
        Some(found) => Ok(Field {
            key,
            written: Some(found.written),
            behind: found.behind,
        }),
        None => Err(Fault::BadQuotes),
    }
}

/// The field that a text begins with, which is neither empty nor begins with a field delimiter, and
/// of which so many bytes are left from the first key delimiter on. Its key goes up to the first
/// delimiter, or the end. `Err`: it begins with no field.
pub(crate) fn field_at<'a>(
    text: &'a str,
    key_delimiter: &str,
    key_left: usize,
    field_delimiter: &str,
) -> Result<Field<'a>, Fault>
    requires key_delimiter { 0 < length key_delimiter.now }
    requires key_left { IsNext key_delimiter.now text.now key_left }
    requires field_delimiter { 0 < length field_delimiter.now }
    ensures { field_found result ≡ field_at key_delimiter.now field_delimiter.now text.now }
{
    let field_left = left_from(text, field_delimiter);
    let left = key_left.max(field_left);
    let key_length = text.len() - left;
    let (key, behind) = text.split_at(key_length);
    if key.is_empty() {
        return Err(Fault::EmptyKey);
    }
    with_key(key, behind, key_delimiter, key_left, field_delimiter)
}

ghost use Rattle.std.specs.Prelude.{◌≡◌, codes, false, map, None, IfOk, IsOk};
ghost use Rattle.std.specs.Str.Lossy.{utf8_lossy};
ghost use Rattle.csv.specs.Reading.{error_kind};
ghost use Rattle.csv.specs.Records.{fields_of};
ghost use Rattle.vrl_value.specs.Tree.{string};
ghost use Rattle.vrl_value.specs.View.{tree_of};
ghost use Rattle.vrl_builtin.specs.Rows.{named};
ghost use Rattle.vrl_builtin.specs.View.{Applies};
ghost use Rattle.fn_parse.specs.Csv.{delimiter_of, first_row, is_delimiter, parsed_by, parse_csv_row, row_of};
ghost use Rattle.fn_parse.specs.CsvLaw.{parse_csv-law};
ghost use Rattle.fn_parse.specs.Gathering.{fields_found, IsReadFault};

use csv::{ByteRecord, ReaderBuilder};
use std::alloc::Global;
use vrl_builtin::{
    Applied, Arguments, Builtin, Givens, Parameter, Setting, Tags, array_of_tag, fail, optional,
    required,
};
use vrl_kind::Kind;
use vrl_pattern::Patterns;
use vrl_value::{Chars, Items, Memory, Tag, Value};

/// `parse_csv(value: string, delimiter: string = ",")`: array of string. The fields of the first
/// row of comma-separated values (RFC 4180), as the default reader of the crate `csv` takes them,
/// without headers; an empty array where there is no row. Bytes of a field that are no UTF-8 become
/// U+FFFD. It may fail unless the delimiter isn't given or is a literal that is one:
/// `bad delimiter`, where the delimiter isn't one character of ASCII other than `"`, the carriage
/// return and the newline. `parse_csv("a,\"b,c\"")` is `["a","b,c"]`.
#[derive(Clone, Copy)]
pub struct ParseCsv;

static PARAMETERS: [Parameter; 2] = [
    required!("value", Tags::STRING),
    optional!("delimiter", Tags::STRING),
];

// Whether the byte is a character of ASCII other than `"` and the ends of lines.
fn is_delimiter(byte: u8) -> bool
    ensures { result ≡ is_delimiter byte }
{
    byte.is_ascii() && !(byte == b'"' || byte == b'\r' || byte == b'\n')
}

// The delimiter that is a text's one byte. `None`: the text is none.
fn delimiter_of(text: &str) -> Option<u8>
    ensures { result ≡ delimiter_of text.now }
{
    let (byte, others) = text.as_bytes().split_first()?;
    if others.is_empty() && is_delimiter(*byte) {
        Some(*byte)
    } else {
        None
    }
}

// Out of memory, or a fault of reading, of which a text in memory has none: nothing else keeps a
// row of bytes from being read.
fn memory_of(_fault: csv::Error) -> Memory
    requires { IsReadFault (error_kind _fault) }
{
    Memory
}

// The first row of a text. `None`: there is none. `Memory`: out of memory.
fn first_row(alloc: Global, text: &[u8], delimiter: u8) -> Result<Option<ByteRecord>, Memory>
    ensures { IfOk result (λ row. fields_found row ≡ first_row delimiter text.now) }
{
    let mut reader = ReaderBuilder::new()
        .has_headers(false)
        .delimiter(delimiter)
        .from_reader(alloc, text);
    let mut row = ByteRecord::new(alloc);
    match reader.read_byte_record(&mut row) {
        Ok(true) => Ok(Some(row)),
        Ok(false) => Ok(None),
        Err(fault) => Err(memory_of(fault)),
    }
}

// The fields of a row as texts.
fn texts_of(alloc: Global, row: &ByteRecord) -> Result<Vec<Value>, Memory>
    ensures { IfOk result (λ texts. map tree_of texts.items ≡ map (λ f. string (utf8_lossy f)) (fields_of row.now)) }
{
    let mut texts = Vec::with_capacity(alloc, row.len())?;
    for field in row.iter() {
        let text = String::from_utf8_lossy(alloc, field)?;
        texts.push(Value::Text(Chars::new(text)))?;
    }
    Ok(texts)
}

// The fields of a row that was found as texts; none where there is no row, which takes no memory.
// `Memory`: out of memory.
fn texts_found(alloc: Global, row: Option<ByteRecord>) -> Result<Vec<Value>, Memory>
    ensures texts { IfOk result (λ texts. map tree_of texts.items
        ≡ map (λ f. string (utf8_lossy f)) (fields_found row)) }
    ensures none { row ≡ None → IsOk result }
{
    match row {
        Some(row) => texts_of(alloc, &row),
        None => Ok(Vec::new(alloc)),
    }
}

// The array of the fields of the first row.
fn row_of(alloc: Global, text: &str, delimiter: u8) -> Result<Value, Memory>
    ensures { IfOk result (λ value. tree_of value ≡ row_of delimiter text.now) }
{
    let row = first_row(alloc, text.as_bytes(), delimiter)?;
    let texts = texts_found(alloc, row)?;
    Ok(Value::List(Items::new(texts)))
}

// What is answered to a text and the text of a delimiter.
fn parsed(alloc: Global, text: &str, delimiter: &str) -> Applied
    ensures { Applies false (named (codes "parse_csv") (parsed_by (delimiter_of delimiter.now) text.now)) result }
{
    match delimiter_of(delimiter) {
        Some(byte) => Applied::value(row_of(alloc, text, byte)),
        None => fail("parse_csv", "bad delimiter"),
    }
}

impl Builtin for ParseCsv {
    ghost row = { λ _. parse_csv_row };

    fn name(&self) -> &'static str {
        "parse_csv"
    }

    fn parameters(&self) -> &'static [Parameter] {
        &PARAMETERS
    }

    fn accepts(&self, _place: usize, _literal: &Value) -> bool {
        true
    }

    fn result_kind(
        &self,
        alloc: Global,
        _given: &Givens,
        _patterns: &Patterns,
    ) -> Result<Kind, Memory> {
        array_of_tag(alloc, Tag::Text)
    }

    fn may_fail(&self, given: &Givens) -> bool {
        match given.literal(1) {
            Some(Value::Text(delimiter)) => delimiter_of(delimiter.as_str()).is_none(),
            Some(_) => true,
            None => given.kind(1).is_some(),
        }
    }

    fn apply(
        &self,
        alloc: Global,
        arguments: &Arguments<'_>,
        _setting: &Setting<'_, '_>,
    ) -> Applied {
        parsed(alloc, arguments.text(0, ""), arguments.text(1, ","))
    }

    ghost law = { λ _. parse_csv-law };
}

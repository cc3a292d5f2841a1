ghost use Rattle.std.specs.Prelude.{◌≡◌};
ghost use Rattle.fn_time.specs.Laws.{parse_timestamp-law};
ghost use Rattle.fn_time.specs.ParseTimestamp.{parse_timestamp_row, reads_moments};

use crate::format::is_read_format;
use crate::read::{is_rfc_3339, moment_read};
use std::alloc::Global;
use vrl_builtin::{
    Applied, Arguments, Builtin, Givens, Parameter, Setting, Tags, fail, required, required_literal,
};
use vrl_kind::Kind;
use vrl_pattern::Patterns;
use vrl_value::{Memory, Tag, Value};

/// `parse_timestamp(value: string, format: string literal)`: timestamp. The moment that the text
/// names under the format: `%+` is a timestamp of RFC 3339, and any other has each of
/// `%Y %m %d %H %M %S %z` once and no other conversion but `%%`, and is read as jiff's strptime
/// reads it. It always may fail: `no match`, for a text that the format doesn't read, or a moment
/// out of the range. `parse_timestamp("2024-01-02 03:04:05 +0100", "%Y-%m-%d %H:%M:%S
/// %z")` is `t'2024-01-02T02:04:05Z'`.
#[derive(Clone, Copy)]
pub struct ParseTimestamp;

static PARAMETERS: [Parameter; 2] = [
    required!("value", Tags::STRING),
    required_literal!("format", Tags::STRING),
];

// Whether moments are read under the format.
fn reads_moments(format: &str) -> bool
    ensures { result ≡ reads_moments format.now }
{
    is_rfc_3339(format) || is_read_format(format)
}

impl Builtin for ParseTimestamp {
    ghost row = { λ _. parse_timestamp_row };

    fn name(&self) -> &'static str {
        "parse_timestamp"
    }

    fn parameters(&self) -> &'static [Parameter] {
        &PARAMETERS
    }

    fn accepts(&self, _place: usize, literal: &Value) -> bool {
        match literal {
            Value::Text(format) => reads_moments(format.as_str()),
            _ => false,
        }
    }

    fn result_kind(
        &self,
        alloc: Global,
        _given: &Givens,
        _patterns: &Patterns,
    ) -> Result<Kind, Memory> {
        Ok(Kind::of(alloc, Tag::Time))
    }

    fn may_fail(&self, _given: &Givens) -> bool {
        true
    }

    fn apply(
        &self,
        _alloc: Global,
        arguments: &Arguments<'_>,
        _setting: &Setting<'_, '_>,
    ) -> Applied {
        match moment_read(arguments.text(1, ""), arguments.text(0, "")) {
            Some(moment) => Applied::Value(Value::Time(moment)),
            None => fail("parse_timestamp", "no match"),
        }
    }

    ghost law = { λ _. parse_timestamp-law };
}

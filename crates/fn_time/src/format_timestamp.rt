ghost use Rattle.std.specs.Prelude.{◌≡◌};
ghost use Rattle.vrl_builtin.specs.View.{arguments_of};
ghost use Rattle.fn_time.specs.FormatTimestamp.{format_timestamp_row, moment_at, shows_moments};
ghost use Rattle.fn_time.specs.Laws.{format_timestamp-law};

use crate::format::is_shown_format;
use crate::read::is_rfc_3339;
use crate::shown::text_shown;
use std::alloc::Global;
use vrl_builtin::{
    Applied, Arguments, Builtin, Givens, Parameter, Setting, Tags, required, required_literal,
};
use vrl_kind::Kind;
use vrl_pattern::Patterns;
use vrl_value::{Memory, Moment, Tag, Value};

/// `format_timestamp(value: timestamp, format: string literal)`: string. The text of the moment
/// under the format: `%+` is its timestamp of RFC 3339, and any other has no conversions but
/// `%Y %m %d %H %M %S %z %%`, and shows what a clock in UTC shows as jiff's strftime does. It never
/// fails. `format_timestamp(t'2024-01-02T03:04:05Z', "%Y/%m/%d")` is `"2024/01/02"`.
#[derive(Clone, Copy)]
pub struct FormatTimestamp;

static PARAMETERS: [Parameter; 2] = [
    required!("value", Tags::TIMESTAMP),
    required_literal!("format", Tags::STRING),
];

// Whether moments are shown under the format.
fn shows_moments(format: &str) -> bool
    ensures { result ≡ shows_moments format.now }
{
    is_rfc_3339(format) || is_shown_format(format)
}

/// The moment that is given at a place, and 1970-01-01T00:00:00Z where none is.
pub(crate) fn moment_at(arguments: &Arguments<'_>, place: usize) -> Moment
    ensures { result ≡ moment_at place (arguments_of arguments.now) }
{
    match arguments.optional_moment(place) {
        Some(moment) => moment,
        None => Moment::epoch(),
    }
}

impl Builtin for FormatTimestamp {
    ghost row = { λ _. format_timestamp_row };

    fn name(&self) -> &'static str {
        "format_timestamp"
    }

    fn parameters(&self) -> &'static [Parameter] {
        &PARAMETERS
    }

    fn accepts(&self, _place: usize, literal: &Value) -> bool {
        match literal {
            Value::Text(format) => shows_moments(format.as_str()),
            _ => false,
        }
    }

    fn result_kind(
        &self,
        alloc: Global,
        _given: &Givens,
        _patterns: &Patterns,
    ) -> Result<Kind, Memory> {
        Ok(Kind::of(alloc, Tag::Text))
    }

    fn may_fail(&self, _given: &Givens) -> bool {
        false
    }

    fn apply(
        &self,
        alloc: Global,
        arguments: &Arguments<'_>,
        _setting: &Setting<'_, '_>,
    ) -> Applied {
        Applied::text(text_shown(alloc, arguments.text(1, ""), moment_at(arguments, 0)))
    }

    ghost law = { λ _. format_timestamp-law };
}

ghost use Rattle.std.specs.Prelude.{◌≡◌};
ghost use Rattle.fn_time.specs.FromUnixTimestamp.{from_unix_timestamp_row, moment_after};
ghost use Rattle.fn_time.specs.Laws.{from_unix_timestamp-law};

use crate::unit::{is_unit, nanos_in};
use std::alloc::Global;
use vrl_builtin::{
    Applied, Arguments, Builtin, Givens, Parameter, Setting, Tags, fail, optional_literal, required,
};
use vrl_kind::Kind;
use vrl_pattern::Patterns;
use vrl_value::{Memory, Moment, Tag, Value};

/// `from_unix_timestamp(value: integer, unit: string literal = "seconds")`: timestamp. The moment
/// so many units after 1970-01-01T00:00:00Z, or before it, where the number is negative. The units
/// are seconds, milliseconds, microseconds and nanoseconds. It always may fail: `out of range`, for
/// a moment out of the range. `from_unix_timestamp(1)` is `t'1970-01-01T00:00:01Z'`.
#[derive(Clone, Copy)]
pub struct FromUnixTimestamp;

static PARAMETERS: [Parameter; 2] = [
    required!("value", Tags::INTEGER),
    optional_literal!("unit", Tags::STRING),
];

// The moment so many units after 1970-01-01T00:00:00Z. `None`: it is out of the range.
fn moment_after(unit: &str, count: i64) -> Option<Moment>
    ensures { result ≡ moment_after unit.now count }
{
    Moment::new(count as i128 * nanos_in(unit) as i128)
}

impl Builtin for FromUnixTimestamp {
    ghost row = { λ _. from_unix_timestamp_row };

    fn name(&self) -> &'static str {
        "from_unix_timestamp"
    }

    fn parameters(&self) -> &'static [Parameter] {
        &PARAMETERS
    }

    fn accepts(&self, _place: usize, literal: &Value) -> bool {
        match literal {
            Value::Text(unit) => is_unit(unit.as_str()),
            _ => false,
        }
    }

    fn result_kind(
        &self,
        alloc: Global,
        _given: &Givens,
        _patterns: &Patterns,
    ) -> Result<Kind, Memory> {
        Ok(Kind::of(alloc, Tag::Time))
    }

    fn may_fail(&self, _given: &Givens) -> bool {
        true
    }

    fn apply(
        &self,
        _alloc: Global,
        arguments: &Arguments<'_>,
        _setting: &Setting<'_, '_>,
    ) -> Applied {
        match moment_after(arguments.text(1, "seconds"), arguments.integer(0, 0)) {
            Some(moment) => Applied::Value(Value::Time(moment)),
            None => fail("from_unix_timestamp", "out of range"),
        }
    }

    ghost law = { λ _. from_unix_timestamp-law };
}

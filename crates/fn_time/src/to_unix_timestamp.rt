ghost use Rattle.std.specs.Prelude.{◌≡◌, pos, false};
ghost use Rattle.std.specs.Int.{int_div_euclid};
ghost use Rattle.fn_time.specs.Laws.{to_unix_timestamp-law};
ghost use Rattle.fn_time.specs.ToUnixTimestamp.{is_out, to_unix_timestamp_row};
ghost use Rattle.fn_time.specs.Unit.{nanos_in};

use crate::format_timestamp::moment_at;
use crate::unit::{is_nanoseconds, is_unit, nanos_in};
use std::alloc::Global;
use vrl_builtin::{
    Applied, Arguments, Builtin, Givens, Parameter, Setting, Tags, fail, optional_literal, required,
};
use vrl_kind::Kind;
use vrl_pattern::Patterns;
use vrl_value::{Memory, Moment, Tag, Value};

/// `to_unix_timestamp(value: timestamp, unit: string literal = "seconds")`: integer. How many units
/// lie between 1970-01-01T00:00:00Z and the moment, rounded down. The units are seconds,
/// milliseconds, microseconds and nanoseconds. It may fail where the unit is nanoseconds:
/// `out of range`, where they are more than 64 bits hold.
/// `to_unix_timestamp(t'1970-01-01T00:00:01.5Z', unit: "milliseconds")` is 1500.
#[derive(Clone, Copy)]
pub struct ToUnixTimestamp;

static PARAMETERS: [Parameter; 2] = [
    required!("value", Tags::TIMESTAMP),
    optional_literal!("unit", Tags::STRING),
];

// Whether there are more units than 64 bits hold.
fn is_out(unit: &str, moment: Moment) -> bool
    ensures { result ≡ is_out unit.now moment }
{
    is_nanoseconds(unit) && i64::try_from(moment.nanos()).is_err()
}

// How many units lie between 1970-01-01T00:00:00Z and the moment, rounded down.
fn units_of(unit: &str, moment: Moment) -> i64
    requires { is_out unit.now moment ≡ false }
    ensures { result ≡ int_div_euclid moment (pos (nanos_in unit.now)) }
{
    moment.nanos().div_euclid(nanos_in(unit) as i128) as i64
}

impl Builtin for ToUnixTimestamp {
    ghost row = { λ _. to_unix_timestamp_row };

    fn name(&self) -> &'static str {
        "to_unix_timestamp"
    }

    fn parameters(&self) -> &'static [Parameter] {
        &PARAMETERS
    }

    fn accepts(&self, _place: usize, literal: &Value) -> bool {
        match literal {
            Value::Text(unit) => is_unit(unit.as_str()),
            _ => false,
        }
    }

    fn result_kind(
        &self,
        alloc: Global,
        _given: &Givens,
        _patterns: &Patterns,
    ) -> Result<Kind, Memory> {
        Ok(Kind::of(alloc, Tag::Int))
    }

    fn may_fail(&self, given: &Givens) -> bool {
        match given.literal(1) {
            Some(Value::Text(unit)) => is_nanoseconds(unit.as_str()),
            _ => false,
        }
    }

    fn apply(
        &self,
        _alloc: Global,
        arguments: &Arguments<'_>,
        _setting: &Setting<'_, '_>,
    ) -> Applied {
        let unit = arguments.text(1, "seconds");
        let moment = moment_at(arguments, 0);
        if is_out(unit, moment) {
            return fail("to_unix_timestamp", "out of range");
        }
        Applied::Value(Value::Int(units_of(unit, moment)))
    }

    ghost law = { λ _. to_unix_timestamp-law };
}

ghost use Rattle.std.specs.Prelude.{◌≡◌, pos};
ghost use Rattle.std.specs.Int.{int_div_euclid};
ghost use Rattle.vrl_value.specs.View.{tree_of};
ghost use Rattle.fn_type.specs.ToInt.{whole_number, to_int_row};
ghost use Rattle.fn_type.specs.Laws.{to_int-law};

use std::alloc::Global;
use vrl_builtin::{
    Applied, Arguments, Givens, OneTag, Parameter, Setting, Tags, fail, read_integer, required,
};
use vrl_value::{Moment, Tag, Value};

/// `to_int(value: string, integer, boolean, null or timestamp)`: integer. The number itself; 0 for
/// false and 1 for true; 0 for null; the whole seconds of the timestamp since 1970, rounded down;
/// the number that an optional `+` or `-` and decimal digits of the string write. It may fail where
/// the kind allows a string: `not a whole number`, for another string and for a number of more than
/// 64 bits. `to_int("-7")` is -7.
#[derive(Clone, Copy)]
pub struct ToInt;

static PARAMETERS: [Parameter; 1] = [required!(
    "value",
    Tags {
        array: false,
        object: false,
        regex: false,
        ..Tags::ALL
    }
)];

// The whole seconds since 1970-01-01T00:00:00Z, rounded down.
fn seconds_of(moment: Moment) -> i64
    ensures { result ≡ int_div_euclid moment (pos 1_000_000_000) }
{
    moment.nanos().div_euclid(1_000_000_000) as i64
}

// The whole number that a value stands for. `None`: it is a string that writes none.
fn whole_number(value: &Value) -> Option<i64>
    ensures { result ≡ whole_number (tree_of value.now) }
{
    match value {
        Value::Text(text) => read_integer(text.as_str(), 10),
        Value::Int(number) => Some(*number),
        Value::Bool(truth) => Some(*truth as i64),
        Value::Time(moment) => Some(seconds_of(*moment)),
        _ => Some(0),
    }
}

impl OneTag for ToInt {
    ghost one_tag_row = { λ _. to_int_row };

    fn name(&self) -> &'static str {
        "to_int"
    }

    fn parameters(&self) -> &'static [Parameter] {
        &PARAMETERS
    }

    fn tag(&self) -> Tag {
        Tag::Int
    }

    fn may_fail(&self, given: &Givens) -> bool {
        given.allows(0, Tag::Text)
    }

    fn apply(
        &self,
        _alloc: Global,
        arguments: &Arguments<'_>,
        _setting: &Setting<'_, '_>,
    ) -> Applied {
        match whole_number(arguments.value(0)) {
            Some(number) => Applied::Value(Value::Int(number)),
            None => fail(self.name(), "not a whole number"),
        }
    }

    ghost one_tag = { λ _. to_int-law };
}

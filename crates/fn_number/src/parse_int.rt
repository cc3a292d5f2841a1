ghost use Rattle.fn_number.specs.ParseInt.{parse_int_row};
ghost use Rattle.fn_number.specs.Laws.{parse_int-law};

use crate::numeral::read_by_prefix;
use std::alloc::Global;
use vrl_builtin::{
    Applied, Arguments, Givens, OneTag, Parameter, Setting, Tags, fail, optional, read_integer,
    required,
};
use vrl_value::{Tag, Value};

/// `parse_int(value: string, base: integer)`: integer. The whole number that an optional sign and
/// digits of the base in either case write. It always may fail. A base outside 2 to 36: `bad base`.
/// Another text, or more than 64 bits: `not a whole number`. Without a base, what stands behind the
/// sign tells it: `0b` is 2, `0o` is 8, `0x` is 16, `0` before another digit is 8, else it is 10.
/// With a base no prefix is taken. `parse_int("0x1f")` is 31.
#[derive(Clone, Copy)]
pub struct ParseInt;

static PARAMETERS: [Parameter; 2] = [
    required!("value", Tags::STRING),
    optional!("base", Tags::INTEGER),
];

impl OneTag for ParseInt {
    ghost one_tag_row = { λ _. parse_int_row };

    fn name(&self) -> &'static str {
        "parse_int"
    }

    fn parameters(&self) -> &'static [Parameter] {
        &PARAMETERS
    }

    fn tag(&self) -> Tag {
        Tag::Int
    }

    fn may_fail(&self, _given: &Givens) -> bool {
        true
    }

    fn apply(
        &self,
        _alloc: Global,
        arguments: &Arguments<'_>,
        _setting: &Setting<'_, '_>,
    ) -> Applied {
        let text = arguments.text(0, "");
        let number = match arguments.optional_integer(1) {
            None => read_by_prefix(text),
            Some(base) if (2..=36).contains(&base) => read_integer(text, base as u32),
            Some(_) => return fail(self.name(), "bad base"),
        };
        match number {
            Some(number) => Applied::Value(Value::Int(number)),
            None => fail(self.name(), "not a whole number"),
        }
    }

    ghost one_tag = { λ _. parse_int-law };
}

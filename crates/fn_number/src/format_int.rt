ghost use Rattle.fn_number.specs.FormatInt.{format_int_row};
ghost use Rattle.fn_number.specs.Laws.{format_int-law};

use crate::numeral;
use std::alloc::Global;
use vrl_builtin::{
    Applied, Arguments, Givens, OneTag, Parameter, Setting, Tags, fail, optional, required,
};
use vrl_value::{Chars, Tag, Value};

/// `format_int(value: integer, base: integer = 10)`: string. The digits of the number in the base,
/// in lower case, with `-` first where it is negative. It may fail unless the base isn't given or
/// is a literal of 2 to 36. A base outside 2 to 36: `bad base`. `format_int(255, 16)` is `"ff"`.
#[derive(Clone, Copy)]
pub struct FormatInt;

static PARAMETERS: [Parameter; 2] = [
    required!("value", Tags::INTEGER),
    optional!("base", Tags::INTEGER),
];

impl OneTag for FormatInt {
    ghost one_tag_row = { λ _. format_int_row };

    fn name(&self) -> &'static str {
        "format_int"
    }

    fn parameters(&self) -> &'static [Parameter] {
        &PARAMETERS
    }

    fn tag(&self) -> Tag {
        Tag::Text
    }

    fn may_fail(&self, given: &Givens) -> bool {
        match given.literal(1) {
            Some(Value::Int(base)) => !(2..=36).contains(base),
            Some(_) => true,
            None => given.kind(1).is_some(),
        }
    }

    fn apply(
        &self,
        alloc: Global,
        arguments: &Arguments<'_>,
        _setting: &Setting<'_, '_>,
    ) -> Applied {
        let base = arguments.integer(1, 10);
        if !(2..=36).contains(&base) {
            return fail(self.name(), "bad base");
        }
        match numeral::write(alloc, arguments.integer(0, 0), base as u32) {
            Ok(text) => Applied::Value(Value::Text(Chars::new(text))),
            Err(_) => Applied::Memory,
        }
    }

    ghost one_tag = { λ _. format_int-law };
}

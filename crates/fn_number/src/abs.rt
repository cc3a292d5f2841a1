ghost use Rattle.fn_number.specs.Abs.{abs_row};
ghost use Rattle.fn_number.specs.Laws.{abs-law};

use std::alloc::Global;
use vrl_builtin::{Applied, Arguments, Givens, OneTag, Parameter, Setting, Tags, required};
use vrl_value::{Tag, Value};

/// `abs(value: integer)`: integer. The number without its sign; the least number stays as it is,
/// since 64 bits hold no counterpart of it. It never fails. `abs(-3)` is 3.
#[derive(Clone, Copy)]
pub struct Abs;

static PARAMETERS: [Parameter; 1] = [required!("value", Tags::INTEGER)];

impl OneTag for Abs {
    ghost one_tag_row = { λ _. abs_row };

    fn name(&self) -> &'static str {
        "abs"
    }

    fn parameters(&self) -> &'static [Parameter] {
        &PARAMETERS
    }

    fn tag(&self) -> Tag {
        Tag::Int
    }

    fn may_fail(&self, _given: &Givens) -> bool {
        false
    }

    fn apply(
        &self,
        _alloc: Global,
        arguments: &Arguments<'_>,
        _setting: &Setting<'_, '_>,
    ) -> Applied {
        Applied::Value(Value::Int(arguments.integer(0, 0).wrapping_abs()))
    }

    ghost one_tag = { λ _. abs-law };
}

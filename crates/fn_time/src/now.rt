ghost use Rattle.fn_time.specs.Laws.{now-law};
ghost use Rattle.fn_time.specs.Now.{now_row};

use std::alloc::Global;
use vrl_builtin::{Applied, Arguments, Givens, OneTag, Parameter, Setting};
use vrl_value::{Tag, Value};

/// `now()`: timestamp. The moment of the line over which the script runs. It never fails.
#[derive(Clone, Copy)]
pub struct Now;

impl OneTag for Now {
    ghost one_tag_row = { λ _. now_row };

    fn name(&self) -> &'static str {
        "now"
    }

    fn parameters(&self) -> &'static [Parameter] {
        &[]
    }

    fn tag(&self) -> Tag {
        Tag::Time
    }

    fn may_fail(&self, _given: &Givens) -> bool {
        false
    }

    fn apply(
        &self,
        _alloc: Global,
        _arguments: &Arguments<'_>,
        setting: &Setting<'_, '_>,
    ) -> Applied {
        Applied::Value(Value::Time(setting.moment))
    }

    ghost one_tag = { λ _. now-law };
}

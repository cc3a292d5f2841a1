ghost use Rattle.fn_number.specs.Mod.{mod_row};
ghost use Rattle.fn_number.specs.Laws.{mod-law};

use std::alloc::Global;
use vrl_builtin::{Applied, Arguments, Givens, OneTag, Parameter, Setting, Tags, fail, required};
use vrl_value::{Tag, Value};

/// `mod(value: integer, modulus: integer)`: integer. The remainder, with the sign of the value; 0
/// for the least number by -1. It may fail unless the modulus is a literal other than 0:
/// `modulus is 0`. `mod(-7, 3)` is -1.
#[derive(Clone, Copy)]
pub struct Mod;

static PARAMETERS: [Parameter; 2] = [
    required!("value", Tags::INTEGER),
    required!("modulus", Tags::INTEGER),
];

impl OneTag for Mod {
    ghost one_tag_row = { λ _. mod_row };

    fn name(&self) -> &'static str {
        "mod"
    }

    fn parameters(&self) -> &'static [Parameter] {
        &PARAMETERS
    }

    fn tag(&self) -> Tag {
        Tag::Int
    }

    fn may_fail(&self, given: &Givens) -> bool {
        match given.literal(1) {
            Some(Value::Int(modulus)) => *modulus == 0,
            _ => true,
        }
    }

    fn apply(
        &self,
        _alloc: Global,
        arguments: &Arguments<'_>,
        _setting: &Setting<'_, '_>,
    ) -> Applied {
        let modulus = arguments.integer(1, 0);
        if modulus == 0 {
            fail(self.name(), "modulus is 0")
        } else {
            Applied::Value(Value::Int(arguments.integer(0, 0).wrapping_rem(modulus)))
        }
    }

    ghost one_tag = { λ _. mod-law };
}

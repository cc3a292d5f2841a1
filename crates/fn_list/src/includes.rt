ghost use Rattle.std.specs.Prelude.{◌≡◌};
ghost use Rattle.vrl_value.specs.View.{tree_of};
ghost use Rattle.fn_list.specs.Includes.{includes, includes_row, includes-law};

use crate::same::is_among;
use std::alloc::Global;
use vrl_builtin::{
    Applied, Arguments, Givens, OneTag, Parameter, Setting, Tags, items_of, required,
};
use vrl_value::{Tag, Value};

/// `includes(value: array, item: any)`: boolean. Whether an item of the array equals the value. It
/// never fails. It looks at each item once. `includes([1], 1)` is true.
#[derive(Clone, Copy)]
pub struct Includes;

static PARAMETERS: [Parameter; 2] = [
    required!("value", Tags::ARRAY),
    required!("item", Tags::ALL),
];

// Whether a value is among the items of an array.
fn is_included(array: &Value, value: &Value) -> bool
    ensures { result ≡ includes (tree_of array.now) (tree_of value.now) }
{
    is_among(items_of(array), value)
}

impl OneTag for Includes {
    ghost one_tag_row = { λ _. includes_row };

    fn name(&self) -> &'static str {
        "includes"
    }

    fn parameters(&self) -> &'static [Parameter] {
        &PARAMETERS
    }

    fn tag(&self) -> Tag {
        Tag::Bool
    }

    fn may_fail(&self, _given: &Givens) -> bool {
        false
    }

    fn apply(
        &self,
        _alloc: Global,
        arguments: &Arguments<'_>,
        _setting: &Setting<'_, '_>,
    ) -> Applied {
        Applied::Value(Value::Bool(is_included(arguments.value(0), arguments.value(1))))
    }

    ghost one_tag = { λ _. includes-law };
}

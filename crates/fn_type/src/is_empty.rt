ghost use Rattle.std.specs.Prelude.{◌≡◌};
ghost use Rattle.vrl_value.specs.View.{tree_of};
ghost use Rattle.fn_type.specs.IsEmpty.{is_empty, is_empty_row};
ghost use Rattle.fn_type.specs.Laws.{is_empty-law};

use std::alloc::Global;
use vrl_builtin::{Applied, Arguments, Givens, OneTag, Parameter, Setting, Tags, required};
use vrl_value::{Tag, Value};

/// `is_empty(value: string, array or object)`: boolean. Whether the value has no byte or part. It
/// never fails. `is_empty("")` is true.
#[derive(Clone, Copy)]
pub struct IsEmpty;

static PARAMETERS: [Parameter; 1] = [required!(
    "value",
    Tags {
        string: true,
        array: true,
        object: true,
        ..Tags::NONE
    }
)];

fn is_empty(value: &Value) -> bool
    ensures { result ≡ is_empty (tree_of value.now) }
{
    match value {
        Value::Text(text) => text.as_str().is_empty(),
        Value::List(items) => items.is_empty(),
        Value::Object(fields) => fields.is_empty(),
        _ => false,
    }
}

impl OneTag for IsEmpty {
    ghost one_tag_row = { λ _. is_empty_row };

    fn name(&self) -> &'static str {
        "is_empty"
    }

    fn parameters(&self) -> &'static [Parameter] {
        &PARAMETERS
    }

    fn tag(&self) -> Tag {
        Tag::Bool
    }

    fn may_fail(&self, _given: &Givens) -> bool {
        false
    }

    fn apply(
        &self,
        _alloc: Global,
        arguments: &Arguments<'_>,
        _setting: &Setting<'_, '_>,
    ) -> Applied {
        Applied::Value(Value::Bool(is_empty(arguments.value(0))))
    }

    ghost one_tag = { λ _. is_empty-law };
}

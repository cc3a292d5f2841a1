ghost use Rattle.std.specs.Prelude.{◌≡◌, ◌<◌, ◌^◌};
ghost use Rattle.vrl_value.specs.View.{tree_of};
ghost use Rattle.fn_string.specs.Length.{length_of, length_row};
ghost use Rattle.fn_string.specs.Laws.{length-law};

use std::alloc::Global;
use vrl_builtin::{Applied, Arguments, Givens, OneTag, Parameter, Setting, Tags, required};
use vrl_value::{Tag, Value};

/// `length(value: string, array or object)`: integer. How many bytes the text has in UTF-8 (RFC
/// 3629), or parts the array or the object. It never fails. `length("é")` is 2.
#[derive(Clone, Copy)]
pub struct Length;

static PARAMETERS: [Parameter; 1] = [required!(
    "value",
    Tags {
        string: true,
        array: true,
        object: true,
        ..Tags::NONE
    }
)];

fn length_of(value: &Value) -> usize
    ensures length { result ≡ length_of (tree_of value.now) }
    ensures small { result < 2 ^ 63 }
{
    match value {
        Value::Text(text) => text.as_str().len(),
        Value::List(items) => items.as_slice().len(),
        Value::Object(fields) => fields.as_map().len(),
        _ => 0,
    }
}

impl OneTag for Length {
    ghost one_tag_row = { λ _. length_row };

    fn name(&self) -> &'static str {
        "length"
    }

    fn parameters(&self) -> &'static [Parameter] {
        &PARAMETERS
    }

    fn tag(&self) -> Tag {
        Tag::Int
    }

    fn may_fail(&self, _given: &Givens) -> bool {
        false
    }

    fn apply(
        &self,
        _alloc: Global,
        arguments: &Arguments<'_>,
        _setting: &Setting<'_, '_>,
    ) -> Applied {
        Applied::Value(Value::Int(length_of(arguments.value(0)) as i64))
    }

    ghost one_tag = { λ _. length-law };
}

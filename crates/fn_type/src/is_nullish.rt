ghost use Rattle.std.specs.Prelude.{◌≡◌, chars};
ghost use Rattle.std.specs.Char.{is_whitespace};
ghost use Rattle.std.specs.List.{list_all};
ghost use Rattle.vrl_value.specs.View.{tree_of};
ghost use Rattle.fn_type.specs.IsNullish.{is_nullish, is_nullish_row};
ghost use Rattle.fn_type.specs.Laws.{is_nullish-law};

use std::alloc::Global;
use vrl_builtin::{Applied, Arguments, Givens, OneTag, Parameter, Setting, Tags, required};
use vrl_value::{Tag, Value};

/// `is_nullish(value: any)`: boolean. Whether the value is null, or a string that is empty, white
/// space of Unicode alone, or `-`. It never fails. `is_nullish("-")` is true.
#[derive(Clone, Copy)]
pub struct IsNullish;

static PARAMETERS: [Parameter; 1] = [required!("value", Tags::ALL)];

// Whether each character is white space.
fn is_blank(text: &str) -> bool
    ensures { result ≡ list_all is_whitespace (chars text.now) }
{
    text.chars().all(|character| character.is_whitespace())
}

fn is_nullish(value: &Value) -> bool
    ensures { result ≡ is_nullish (tree_of value.now) }
{
    match value {
        Value::Null => true,
        Value::Text(text) => text.as_str() == "-" || is_blank(text.as_str()),
        _ => false,
    }
}

impl OneTag for IsNullish {
    ghost one_tag_row = { λ _. is_nullish_row };

    fn name(&self) -> &'static str {
        "is_nullish"
    }

    fn parameters(&self) -> &'static [Parameter] {
        &PARAMETERS
    }

    fn tag(&self) -> Tag {
        Tag::Bool
    }

    fn may_fail(&self, _given: &Givens) -> bool {
        false
    }

    fn apply(
        &self,
        _alloc: Global,
        arguments: &Arguments<'_>,
        _setting: &Setting<'_, '_>,
    ) -> Applied {
        Applied::Value(Value::Bool(is_nullish(arguments.value(0))))
    }

    ghost one_tag = { λ _. is_nullish-law };
}

ghost use Rattle.std.specs.Prelude.{◌≡◌, ◌<◌, ◌^◌};
ghost use Rattle.fn_string.specs.StrLen.{count_of_characters, strlen_row};
ghost use Rattle.fn_string.specs.Laws.{strlen-law};

use std::alloc::Global;
use vrl_builtin::{Applied, Arguments, Givens, OneTag, Parameter, Setting, Tags, required};
use vrl_value::{Tag, Value};

/// `strlen(value: string)`: integer. How many characters of Unicode, as code points, the text has.
/// It never fails. `strlen("é")` is 1.
#[derive(Clone, Copy)]
pub struct StrLen;

static PARAMETERS: [Parameter; 1] = [required!("value", Tags::STRING)];

// How many characters the text has.
pub(crate) fn count_of_characters(text: &str) -> usize
    ensures count { result ≡ count_of_characters text.now }
    ensures small { result < 2 ^ 63 }
{
    text.chars().count()
}

impl OneTag for StrLen {
    ghost one_tag_row = { λ _. strlen_row };

    fn name(&self) -> &'static str {
        "strlen"
    }

    fn parameters(&self) -> &'static [Parameter] {
        &PARAMETERS
    }

    fn tag(&self) -> Tag {
        Tag::Int
    }

    fn may_fail(&self, _given: &Givens) -> bool {
        false
    }

    fn apply(
        &self,
        _alloc: Global,
        arguments: &Arguments<'_>,
        _setting: &Setting<'_, '_>,
    ) -> Applied {
        Applied::Value(Value::Int(count_of_characters(arguments.text(0, "")) as i64))
    }

    ghost one_tag = { λ _. strlen-law };
}

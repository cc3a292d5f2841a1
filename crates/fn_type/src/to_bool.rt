ghost use Rattle.std.specs.Prelude.{◌≡◌};
ghost use Rattle.std.specs.List.{list_any};
ghost use Rattle.vrl_value.specs.View.{tree_of};
ghost use Rattle.fn_type.specs.ToBool.{is_word, truth_of, truth_of_word, to_bool_row};
ghost use Rattle.fn_type.specs.Laws.{to_bool-law};

use std::alloc::Global;
use vrl_builtin::{Applied, Arguments, Givens, OneTag, Parameter, Setting, Tags, fail, required};
use vrl_value::{Tag, Value};

/// `to_bool(value: string, integer, boolean or null)`: boolean. The boolean itself; false for 0 and
/// null, true for each other number; true for the strings `true`, `t`, `yes`, `y` and `1`, and
/// false for `false`, `f`, `no`, `n` and `0`, in any case of their letters. It may fail where the
/// kind allows a string: `not a boolean word`, for another string. `to_bool("Yes")` is true.
#[derive(Clone, Copy)]
pub struct ToBool;

static PARAMETERS: [Parameter; 1] = [required!(
    "value",
    Tags {
        string: true,
        integer: true,
        boolean: true,
        null: true,
        ..Tags::NONE
    }
)];

// Whether the text is the word, in any case of their letters.
fn is_word(text: &str, word: &str) -> bool
    ensures { result ≡ is_word text.now word.now }
{
    text.eq_ignore_ascii_case(word)
}

// Whether the text is one of the words.
fn is_one_of(text: &str, words: &[&str]) -> bool
    ensures { result ≡ list_any (λ word. is_word text.now word.now) words.now }
{
    words.iter().any(|word| is_word(text, word))
}

// The boolean that a word stands for. `None`: it stands for none.
fn truth_of_word(text: &str) -> Option<bool>
    ensures { result ≡ truth_of_word text.now }
{
    if is_one_of(text, &["true", "t", "yes", "y", "1"]) {
        Some(true)
    } else if is_one_of(text, &["false", "f", "no", "n", "0"]) {
        Some(false)
    } else {
        None
    }
}

// The boolean that a value stands for. `None`: it is a string that stands for none.
fn truth_of(value: &Value) -> Option<bool>
    ensures { result ≡ truth_of (tree_of value.now) }
{
    match value {
        Value::Text(text) => truth_of_word(text.as_str()),
        Value::Int(number) => Some(*number != 0),
        Value::Bool(truth) => Some(*truth),
        _ => Some(false),
    }
}

impl OneTag for ToBool {
    ghost one_tag_row = { λ _. to_bool_row };

    fn name(&self) -> &'static str {
        "to_bool"
    }

    fn parameters(&self) -> &'static [Parameter] {
        &PARAMETERS
    }

    fn tag(&self) -> Tag {
        Tag::Bool
    }

    fn may_fail(&self, given: &Givens) -> bool {
        given.allows(0, Tag::Text)
    }

    fn apply(
        &self,
        _alloc: Global,
        arguments: &Arguments<'_>,
        _setting: &Setting<'_, '_>,
    ) -> Applied {
        match truth_of(arguments.value(0)) {
            Some(truth) => Applied::Value(Value::Bool(truth)),
            None => fail(self.name(), "not a boolean word"),
        }
    }

    ghost one_tag = { λ _. to_bool-law };
}

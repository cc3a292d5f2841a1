ghost use Rattle.std.specs.Prelude.{◌≡◌, [], IfOk, IsOk};
ghost use Rattle.std.specs.Fmt.{signed_decimal};
ghost use Rattle.vrl_value.specs.Tree.{null};
ghost use Rattle.vrl_value.specs.View.{tree_of};
ghost use Rattle.fn_type.specs.ToString.{text_of, to_string_row, word_of};
ghost use Rattle.fn_type.specs.Laws.{to_string-law};

use std::alloc::Global;
use vrl_builtin::{Applied, Arguments, Givens, OneTag, Parameter, Setting, Tags, required};
use vrl_value::{Chars, Memory, Tag, Value};

/// `to_string(value: string, integer, boolean, null or timestamp)`: string. The string itself; the
/// decimal digits of the number, with `-` first where it is negative; `true` or `false`; the empty
/// string for null; the text of the timestamp by RFC 3339. It never fails. `to_string(7)` is `"7"`.
#[derive(Clone, Copy)]
pub struct ToString;

static PARAMETERS: [Parameter; 1] = [required!(
    "value",
    Tags {
        array: false,
        object: false,
        regex: false,
        ..Tags::ALL
    }
)];

// The text that a value stands for as it is; empty for null, and for a whole number and a
// timestamp, whose texts are written.
fn word_of(value: &Value) -> &str
    ensures { result.now ≡ word_of (tree_of value.now) }
{
    match value {
        Value::Text(text) => text.as_str(),
        Value::Bool(true) => "true",
        Value::Bool(false) => "false",
        _ => "",
    }
}

// A copy of a text. `Memory`: out of memory; an empty text takes none.
fn copy_of(alloc: Global, text: &str) -> Result<Chars, Memory>
    ensures copy { IfOk result (λ copy. copy ≡ text.now) }
    ensures empty { text.now ≡ [] → IsOk result }
{
    if text.is_empty() {
        return Ok(Chars::new(String::new(alloc)));
    }
    Chars::copy_of(alloc, text)
}

// The text of a value without parts. `Memory`: out of memory; the empty text of null takes none.
fn text_of(alloc: Global, value: &Value) -> Result<Chars, Memory>
    ensures text { IfOk result (λ text. text ≡ text_of (tree_of value.now)) }
    ensures null { tree_of value.now ≡ null → IsOk result }
{
    match value {
        Value::Int(number) => decimal(alloc, *number),
        Value::Time(moment) => moment.text(alloc),
        _ => copy_of(alloc, word_of(value)),
    }
}

fn decimal(alloc: Global, number: i64) -> Result<Chars, Memory>
    ensures { IfOk result (λ text. text ≡ signed_decimal number) }
{
    Ok(Chars::new(format!(in alloc; "{number}")?))
}

impl OneTag for ToString {
    ghost one_tag_row = { λ _. to_string_row };

    fn name(&self) -> &'static str {
        "to_string"
    }

    fn parameters(&self) -> &'static [Parameter] {
        &PARAMETERS
    }

    fn tag(&self) -> Tag {
        Tag::Text
    }

    fn may_fail(&self, _given: &Givens) -> bool {
        false
    }

    fn apply(
        &self,
        alloc: Global,
        arguments: &Arguments<'_>,
        _setting: &Setting<'_, '_>,
    ) -> Applied {
        Applied::text(text_of(alloc, arguments.value(0)))
    }

    ghost one_tag = { λ _. to_string-law };
}

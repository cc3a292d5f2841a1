ghost use Rattle.std.specs.Prelude.{◌≡◌, ◌++◌, length, string_bytes, IfOk, IsOk, IsTrue, OnOk};
ghost use Rattle.std.specs.Fmt.{signed_decimal};
ghost use Rattle.std.specs.List.{list_any};
ghost use Rattle.vrl_value.specs.Regexes.{members_regexes_below, regexes_below};
ghost use Rattle.vrl_value.specs.MomentText.{moment_text};
ghost use Rattle.vrl_value.specs.Tree.{null};
ghost use Rattle.vrl_value.specs.View.{members_of, tree_of};
ghost use Rattle.vrl_builtin.specs.Conditions.{arguments_below};
ghost use Rattle.vrl_builtin.specs.Rows.{optional_members};
ghost use Rattle.vrl_builtin.specs.View.{arguments_of};
ghost use Rattle.vrl_json.specs.Line.{line_text};
ghost use Rattle.fn_parse.specs.EncodeKeyValue.{encode_key_value_row, field_text, fields_text, given_text, is_special, quoted_if_special, value_text, wants_quotes};
ghost use Rattle.fn_parse.specs.KeyValueLaw.{encode_key_value-law};

use crate::encode_json::json_text;
use crate::quotes::push_in_quotes;
use std::alloc::Global;
use vrl_builtin::{Applied, Arguments, Givens, OneTag, Parameter, Setting, Tags, required};
use vrl_value::{Chars, Fields, Memory, Moment, Tag, Value};

/// `encode_key_value(value: object)`: string. The fields by key as `key=text`, with a space between
/// each two. The text of a value is that of `to_string`, a regex's source, or JSON (RFC 8259) for
/// arrays and objects. A text that is empty or holds a space, `"`, `=`, `\` or a newline stands in
/// quotes, with `\` before each `"` and `\`; null gives an empty text without quotes. It never
/// fails. `encode_key_value({"a":1,"b":"x y"})` is `a=1 b="x y"`.
#[derive(Clone, Copy)]
pub struct EncodeKeyValue;

static PARAMETERS: [Parameter; 1] = [required!("value", Tags::OBJECT)];

// Whether a text with this byte stands in quotes.
fn is_special(byte: u8) -> bool
    ensures { result ≡ is_special byte }
{
    byte == b' ' || byte == b'"' || byte == b'=' || byte == b'\\' || byte == b'\n'
}

// Whether a byte stands there with which a text stands in quotes.
fn has_special(text: &[u8]) -> bool
    ensures { result ≡ list_any is_special text.now }
{
    text.iter().any(|byte| is_special(*byte))
}

// Whether the text stands in quotes.
fn wants_quotes(text: &str) -> bool
    ensures { result ≡ wants_quotes text.now }
{
    text.is_empty() || has_special(text.as_bytes())
}

// Writes a text, in quotes where it wants them. `Memory`: want of memory.
fn push_text(out: &mut String, text: &str) -> Result<(), Memory>
    ensures { OnOk result (string_bytes out.new ≡ string_bytes out.old ++ quoted_if_special text.now) }
{
    if wants_quotes(text) {
        push_in_quotes(out, text)
    } else {
        Ok(out.push_str(text)?)
    }
}

// Writes a whole number. `Memory`: want of memory.
fn push_number(alloc: Global, out: &mut String, number: i64) -> Result<(), Memory>
    ensures { OnOk result (string_bytes out.new ≡ string_bytes out.old ++ quoted_if_special (signed_decimal number)) }
{
    let text = format!(in alloc; "{number}")?;
    push_text(out, text.as_str())
}

// Writes a timestamp. `Memory`: want of memory.
fn push_moment(alloc: Global, out: &mut String, moment: &Moment) -> Result<(), Memory>
    ensures { OnOk result (string_bytes out.new ≡ string_bytes out.old ++ quoted_if_special (moment_text moment.now)) }
{
    let text = moment.text(alloc)?;
    push_text(out, text.as_str())
}

// Writes the JSON text of a value. `Memory`: want of memory.
fn push_json(
    alloc: Global,
    out: &mut String,
    value: &Value,
    sources: &[Chars],
) -> Result<(), Memory>
    requires { IsTrue (regexes_below (length sources.now) (tree_of value.now)) }
    ensures { OnOk result
        (string_bytes out.new ≡ string_bytes out.old ++ quoted_if_special (line_text sources.now (tree_of value.now))) }
{
    let text = json_text(alloc, value, sources)?;
    push_text(out, text.as_str())
}

// Writes the text of a value; null has none, and takes no memory. `Memory`: out of memory.
fn push_value(
    alloc: Global,
    out: &mut String,
    value: &Value,
    sources: &[Chars],
) -> Result<(), Memory>
    requires { IsTrue (regexes_below (length sources.now) (tree_of value.now)) }
    ensures text { OnOk result (string_bytes out.new
        ≡ string_bytes out.old ++ value_text sources.now (tree_of value.now)) }
    ensures null { tree_of value.now ≡ null → IsOk result }
{
    match value {
        Value::Text(text) => push_text(out, text.as_str()),
        Value::Int(number) => push_number(alloc, out, *number),
        Value::Bool(true) => push_text(out, "true"),
        Value::Bool(false) => push_text(out, "false"),
        Value::Null => Ok(()),
        Value::Time(moment) => push_moment(alloc, out, moment),
        Value::Pattern(literal) => push_text(out, sources[*literal as usize].as_str()),
        Value::List(_) | Value::Object(_) => push_json(alloc, out, value, sources),
    }
}

// Writes a field behind what separates it from the one before. `Memory`: want of memory.
fn push_field(
    alloc: Global,
    out: &mut String,
    separator: &str,
    name: &str,
    value: &Value,
    sources: &[Chars],
) -> Result<(), Memory>
    requires { IsTrue (regexes_below (length sources.now) (tree_of value.now)) }
    ensures { OnOk result
        (string_bytes out.new ≡ string_bytes out.old ++
        (separator.now ++ field_text sources.now name.now (tree_of value.now))) }
{
    out.push_str(separator)?;
    out.push_str(name)?;
    out.push_str("=")?;
    push_value(alloc, out, value, sources)
}

// The fields by name, with a space between each two. `Memory`: want of memory.
fn fields_text(alloc: Global, fields: &Fields, sources: &[Chars]) -> Result<Chars, Memory>
    requires { IsTrue (members_regexes_below (length sources.now) (members_of fields.now)) }
    ensures { IfOk result (λ text. text ≡ fields_text sources.now (members_of fields.now)) }
{
    let mut out = String::new(alloc);
    let mut separator = "";
    for (name, value) in fields.as_map().iter() {
        push_field(alloc, &mut out, separator, name.as_str(), value, sources)?;
        separator = " ";
    }
    Ok(Chars::new(out))
}

// The text of the object that is given. `Memory`: want of memory.
fn given_text(alloc: Global, arguments: &Arguments<'_>, sources: &[Chars]) -> Result<Chars, Memory>
    requires { IsTrue (arguments_below (length sources.now) (arguments_of arguments.now)) }
    ensures { IfOk result (λ text. text ≡ given_text sources.now (optional_members 0 (arguments_of arguments.now))) }
{
    match arguments.optional_fields(0) {
        Some(fields) => fields_text(alloc, fields, sources),
        None => Chars::copy_of(alloc, ""),
    }
}

impl OneTag for EncodeKeyValue {
    ghost one_tag_row = { λ _. encode_key_value_row };

    fn name(&self) -> &'static str {
        "encode_key_value"
    }

    fn parameters(&self) -> &'static [Parameter] {
        &PARAMETERS
    }

    fn tag(&self) -> Tag {
        Tag::Text
    }

    fn may_fail(&self, _given: &Givens) -> bool {
        false
    }

    fn apply(
        &self,
        alloc: Global,
        arguments: &Arguments<'_>,
        setting: &Setting<'_, '_>,
    ) -> Applied {
        Applied::text(given_text(alloc, arguments, setting.searches.sources()))
    }

    ghost one_tag = { λ _. encode_key_value-law };
}

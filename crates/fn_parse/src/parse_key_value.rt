ghost use Rattle.std.specs.Prelude.{◌≡◌, ◌<◌, ◌≤◌, ℕ, List, None, codes, false, length, option_map, true, IfOk, IsErr, IsOk, OnOk};
ghost use Rattle.vrl_value.specs.Tree.{Members, no_members, put};
ghost use Rattle.vrl_value.specs.View.{members_of, tree_of};
ghost use Rattle.vrl_builtin.specs.Rows.{named, text_at, Answer};
ghost use Rattle.vrl_builtin.specs.View.{Applies};
ghost use Rattle.vrl_builtin.specs.declared.failing.Applied.TheVariants as applied;
ghost use Rattle.fn_parse.specs.KeyValue.{begins};
ghost use Rattle.fn_parse.specs.Found.{ended, written_text, IsAhead};
ghost use Rattle.fn_parse.specs.KeyValueText.{FieldsAreRead, OnlyFieldsAreRead};
ghost use Rattle.fn_parse.specs.ParseKeyValue.{field_tree, fields_from, has_delimiters, parse_key_value_row, parsed};
ghost use Rattle.fn_parse.specs.KeyValueLaw.{parse_key_value-law};

use crate::key_value::{Fault, Field, Written, field_at, left_from, left_later};
use crate::quotes::unescaped;
use std::alloc::Global;
use std::collections::BTreeMap;
use vrl_builtin::{
    Applied, Arguments, Builtin, Givens, Parameter, Setting, Tags, either_tag, fail, object_of,
    optional, required,
};
use vrl_kind::Kind;
use vrl_pattern::Patterns;
use vrl_value::{Chars, Fields, Memory, Tag, Value};

/// `parse_key_value(value: string, key_value_delimiter: string = "=", field_delimiter: string = "
/// ")`: object of string or boolean. The fields of a text, from the left, between which field
/// delimiters stand, one or more. A key goes up to the next delimiter of either kind, or the end;
/// where both begin at one place, it is that of keys. Behind a key's delimiter stands the value, up
/// to the next field delimiter, or the end; one that begins with `"` goes up to the next `"`, and
/// in it `\"` stands for `"`, `\\` for `\`, and any other backslash for itself. Without a key's
/// delimiter the value is true. Of equal keys the later counts. It always may fail:
/// `empty delimiter`; `empty key`, where a field begins with its delimiter; `bad quotes`, where a
/// quote isn't closed, or neither a field delimiter nor the end stands behind the closing one.
/// `parse_key_value("a=1 b=\"x y\" c")` is `{"a":"1","b":"x y","c":true}`.
#[derive(Clone, Copy)]
pub struct ParseKeyValue;

static PARAMETERS: [Parameter; 3] = [
    required!("value", Tags::STRING),
    optional!("key_value_delimiter", Tags::STRING),
    optional!("field_delimiter", Tags::STRING),
];

/// A text is read as a value exactly where it is made of fields, as `HasFields` tells it by the
/// parts that stand one behind the other, and the value is then the object of their values, of
/// equal keys the later one's. So no text is made of fields in two ways with different objects, and
/// an error comes exactly where a text is not made of fields. This takes no time: it is a law about
/// the definitions.
pub fn key_values_are_read()
    ensures fields { FieldsAreRead }
    ensures only { OnlyFieldsAreRead }
{}

// The text that is written so. `Memory`: want of memory.
fn text_of(alloc: Global, written: &Written<'_>) -> Result<Chars, Memory>
    ensures { IfOk result (λ text. text ≡ written_text written.now) }
{
    match written {
        Written::Plain(text) => Chars::copy_of(alloc, text),
        Written::Quoted(text) => unescaped(alloc, text),
    }
}

// The value of a field; a key alone takes no memory. `Memory`: out of memory.
fn value_of(alloc: Global, field: &Field<'_>) -> Result<Value, Memory>
    ensures value { IfOk result (λ value. tree_of value ≡ field_tree (option_map written_text field.now.written)) }
    ensures alone { field.now.written ≡ None → IsOk result }
{
    match &field.written {
        Some(written) => Ok(Value::Text(text_of(alloc, written)?)),
        None => Ok(Value::Bool(true)),
    }
}

// Puts the value of a field at its key. `Memory`: want of memory.
fn put_field(alloc: Global, fields: &mut Fields, field: &Field<'_>) -> Result<(), Memory>
    ensures { OnOk result
        (members_of fields.new ≡ put field.now.key.now (field_tree (option_map written_text field.now.written))
        (members_of fields.old)) }
{
    let key = Chars::copy_of(alloc, field.key)?;
    fields.insert(key, value_of(alloc, field)?)
}

// The text without the field delimiters that it begins with.
fn next_start<'a>(text: &'a str, field_delimiter: &str) -> &'a str
    requires { 0 < length field_delimiter.now }
    ensures same { (k : List ℕ) (ms : Members)
        → fields_from k field_delimiter.now 0 text.now ms ≡ fields_from k field_delimiter.now 0 result.now ms }
    ensures starts { begins field_delimiter.now result.now ≡ false }
    ensures ahead { (d : List ℕ) (n : ℕ) → IsAhead d text.now n → IsAhead d result.now n }
    ensures within { length result.now ≤ length text.now }
{
    let mut left = text;
    while let Some(behind) = left.strip_prefix(field_delimiter) {
        left = behind;
    }
    left
}

// Puts the values of a text's fields at their keys, up to where no field begins. `Some`: why none
// does there. `Memory`: want of memory.
fn put_fields(
    alloc: Global,
    fields: &mut Fields,
    text: &str,
    key_delimiter: &str,
    field_delimiter: &str,
) -> Result<Option<Fault>, Memory>
    requires key_delimiter { 0 < length key_delimiter.now }
    requires field_delimiter { 0 < length field_delimiter.now }
    ensures { IfOk result
        (λ why. fields_from key_delimiter.now field_delimiter.now 0 text.now (members_of fields.old) ≡ ended why
        (members_of fields.new)) }
{
    let mut left = next_start(text, field_delimiter);
    let mut key_left = left_from(left, key_delimiter);
    while !left.is_empty() {
        match field_at(left, key_delimiter, key_left, field_delimiter) {
            Ok(field) => {
                put_field(alloc, fields, &field)?;
                left = next_start(field.behind, field_delimiter);
                key_left = left_later(left, key_delimiter, key_left);
            }
            Err(fault) => return Ok(Some(fault)),
        }
    }
    Ok(None)
}

// What the function answers where its text was read up to there with these fields. `Memory`:
// reading it ran out of memory.
fn ended(fields: Fields, why: Result<Option<Fault>, Memory>) -> Applied
    ensures answer { (told : Answer)
        → IfOk why (λ why. told ≡ ended why (members_of fields))
        → Applies true (named (codes "parse_key_value") told) result }
    ensures memory { result ≡ applied.Memory → IsErr why }
{
    match why {
        Ok(None) => Applied::Value(Value::Object(fields)),
        Ok(Some(fault)) => fail("parse_key_value", fault.words()),
        Err(_memory) => Applied::Memory,
    }
}

// What the function answers to a text with these delimiters, which aren't empty.
fn answer(alloc: Global, text: &str, key_delimiter: &str, field_delimiter: &str) -> Applied
    requires key_delimiter { 0 < length key_delimiter.now }
    requires field_delimiter { 0 < length field_delimiter.now }
    ensures { Applies true (named (codes "parse_key_value")
        (fields_from key_delimiter.now field_delimiter.now 0 text.now no_members)) result }
{
    let mut fields = Fields::new(BTreeMap::new(alloc));
    let why = put_fields(alloc, &mut fields, text, key_delimiter, field_delimiter);
    ended(fields, why)
}

// What the function answers.
fn parsed(alloc: Global, text: &str, key_delimiter: &str, field_delimiter: &str) -> Applied
    ensures { Applies (has_delimiters key_delimiter.now field_delimiter.now)
        (named (codes "parse_key_value") (parsed key_delimiter.now field_delimiter.now text.now)) result }
{
    if key_delimiter.is_empty() || field_delimiter.is_empty() {
        return fail("parse_key_value", "empty delimiter");
    }
    answer(alloc, text, key_delimiter, field_delimiter)
}

impl Builtin for ParseKeyValue {
    ghost row = { λ _. parse_key_value_row };

    ghost uses_memory = { λ _ arguments.
        has_delimiters (text_at 1 (codes "=") arguments) (text_at 2 (codes " ") arguments) };

    fn name(&self) -> &'static str {
        "parse_key_value"
    }

    fn parameters(&self) -> &'static [Parameter] {
        &PARAMETERS
    }

    fn accepts(&self, _place: usize, _literal: &Value) -> bool {
        true
    }

    fn result_kind(
        &self,
        alloc: Global,
        _given: &Givens,
        _patterns: &Patterns,
    ) -> Result<Kind, Memory> {
        let field = either_tag(alloc, Tag::Text, Tag::Bool)?;
        object_of(alloc, field)
    }

    fn may_fail(&self, _given: &Givens) -> bool {
        true
    }

    fn apply(
        &self,
        alloc: Global,
        arguments: &Arguments<'_>,
        _setting: &Setting<'_, '_>,
    ) -> Applied {
        let (key_delimiter, field_delimiter) = (arguments.text(1, "="), arguments.text(2, " "));
        parsed(alloc, arguments.text(0, ""), key_delimiter, field_delimiter)
    }

    ghost law = { λ _. parse_key_value-law };
}

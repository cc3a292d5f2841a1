ghost use Rattle.std.specs.Prelude.{◌≡◌, None, IfOk, IsOk, OnOk, option_map};
ghost use Rattle.vrl_value.specs.Tree.{no_members, object};
ghost use Rattle.vrl_value.specs.View.{items_of, members_of, tree_of};
ghost use Rattle.vrl_kind.specs.Kinds.{tags_at};
ghost use Rattle.vrl_kind.specs.Sets.{SameSets};
ghost use Rattle.vrl_builtin.specs.Containers.{object_of};
ghost use Rattle.fn_parse.specs.Gathering.{add_pair, add_pairs, longer, one_more, two};
ghost use Rattle.fn_parse.specs.Pairs.{pairs_of};
ghost use Rattle.fn_parse.specs.QueryString.{form_in, parse_query_string_row, query_of, values_at};
ghost use Rattle.fn_parse.specs.QueryStringLaw.{parse_query_string-law};

use crate::pairs::texts_of;
use std::alloc::Global;
use std::collections::BTreeMap;
use vrl_builtin::{
    Applied, Arguments, Builtin, Givens, Parameter, Setting, Tags, array_of_tag, object_of,
    required,
};
use vrl_kind::{Kind, join};
use vrl_pattern::Patterns;
use vrl_value::{Chars, Fields, Items, Memory, Tag, Value, members_are_maps};

/// `parse_query_string(value: string)`: object of string or array of string. The names and values
/// of a query, as forms write them (URL Standard, section 5.1), behind a `?` or without one: the
/// value of a name that comes once, and the array of its values where it comes more than once. It
/// never fails. `parse_query_string("?a=1&a=2&b=3")` is `{"a":["1","2"],"b":"3"}`.
#[derive(Clone, Copy)]
pub struct ParseQueryString;

static PARAMETERS: [Parameter; 1] = [required!("value", Tags::STRING)];

// What stands behind a `?` at the start, or all.
fn form_in(text: &[u8]) -> &[u8]
    ensures { result.now ≡ form_in text.now }
{
    match text.split_first() {
        Some((first, form)) => { if *first == b'?' { form } else { text } }
        None => text,
    }
}

// An array of a value and a text.
fn two(alloc: Global, first: Value, text: Chars) -> Result<Value, Memory>
    ensures { IfOk result (λ value. tree_of value ≡ two (tree_of first) text) }
{
    let mut values = Vec::with_capacity(alloc, 2)?;
    values.push(first)?;
    values.push(Value::Text(text))?;
    Ok(Value::List(Items::new(values)))
}

// The array of these values with a text behind them.
fn longer(items: Items, text: Chars) -> Result<Value, Memory>
    ensures { IfOk result (λ value. tree_of value ≡ longer (items_of items) text) }
{
    let mut values = items.into_vec();
    values.push(Value::Text(text))?;
    Ok(Value::List(Items::new(values)))
}

// What stands at a name where a text is found more; the first one takes no memory. `Memory`: out of
// memory.
fn one_more(alloc: Global, found: Option<Value>, text: Chars) -> Result<Value, Memory>
    ensures value { IfOk result (λ value. tree_of value ≡ one_more (option_map tree_of found) text) }
    ensures first { found ≡ None → IsOk result }
{
    match found {
        None => Ok(Value::Text(text)),
        Some(Value::List(items)) => longer(items, text),
        Some(first) => two(alloc, first, text),
    }
}

// Adds a text to what stands at a name.
fn add_pair(alloc: Global, fields: &mut Fields, name: Chars, text: Chars) -> Result<(), Memory>
    ensures { OnOk result (members_of fields.new ≡ add_pair (name, text) (members_of fields.old)) }
{
    let found = fields.remove(name.as_str());
    let value = one_more(alloc, found, text)?;
    fields.insert(name, value)
}

// The values of each name in a form, one pair after the other.
fn gathered(alloc: Global, form: &[u8]) -> Result<Fields, Memory>
    ensures { IfOk result (λ fields. members_of fields ≡ add_pairs (pairs_of form.now) no_members) }
{
    let mut fields = Fields::new(BTreeMap::new(alloc));
    for item in form_urlencoded::parse(alloc, form).into_owned() {
        let (name, text) = texts_of(item)?;
        add_pair(alloc, &mut fields, name, text)?;
    }
    Ok(fields)
}

// The object of a query.
fn query(alloc: Global, text: &str) -> Result<Value, Memory>
    ensures { IfOk result (λ value. tree_of value ≡ query_of text.now) }
{
    members_are_maps();
    let fields = gathered(alloc, form_in(text.as_bytes()))?;
    Ok(Value::Object(fields))
}

// The kind of a string or an array of strings.
fn values_kind(alloc: Global) -> Result<Kind, Memory>
    ensures { IfOk result (λ kind. SameSets (tags_at kind) values_at) }
{
    let text = Kind::of(alloc, Tag::Text);
    let texts = array_of_tag(alloc, Tag::Text)?;
    join(alloc, &text, &texts)
}

impl Builtin for ParseQueryString {
    ghost row = { λ _. parse_query_string_row };

    fn name(&self) -> &'static str {
        "parse_query_string"
    }

    fn parameters(&self) -> &'static [Parameter] {
        &PARAMETERS
    }

    fn accepts(&self, _place: usize, _literal: &Value) -> bool {
        true
    }

    fn result_kind(
        &self,
        alloc: Global,
        _given: &Givens,
        _patterns: &Patterns,
    ) -> Result<Kind, Memory> {
        let values = values_kind(alloc)?;
        object_of(alloc, values)
    }

    fn may_fail(&self, _given: &Givens) -> bool {
        false
    }

    fn apply(
        &self,
        alloc: Global,
        arguments: &Arguments<'_>,
        _setting: &Setting<'_, '_>,
    ) -> Applied {
        Applied::value(query(alloc, arguments.text(0, "")))
    }

    ghost law = { λ _. parse_query_string-law };
}

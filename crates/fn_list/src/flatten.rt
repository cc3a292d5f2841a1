ghost use Rattle.std.specs.Prelude.{◌≡◌, ◌++◌, [], map, option_map, IfOk, OnOk, true};
ghost use Rattle.vrl_value.specs.Tree.{array, object, no_members};
ghost use Rattle.vrl_value.specs.View.{items_of, items_of_trees, items_view, members_of, tree_of};
ghost use Rattle.fn_list.specs.Flatten.{flatten_row, flattened, inner_of, leaves, leaves_at, opened, opened_part, put_leaves};
ghost use Rattle.fn_list.specs.FlattenLaw.{flatten-law};

use std::alloc::Global;
use std::collections::BTreeMap;
use vrl_builtin::{
    Applied, Arguments, Builtin, Givens, Parameter, Setting, Tags, optional, required,
};
use vrl_kind::Kind;
use vrl_pattern::Patterns;
use vrl_value::{Chars, Fields, Items, Memory, Value};

/// `flatten(value: array or object, separator: string = ".")`: array of any or object of any, where
/// the value's kind allows either. In an array the arrays are opened, at every depth. In an object
/// the objects are opened, at every depth, and what stands in them has the names that lead to it,
/// joined by the separator; an empty object stays, and of equal names the later in the walk counts.
/// It never fails. `flatten([1,[2,[3]]])` is `[1,2,3]`.
#[derive(Clone, Copy)]
pub struct Flatten;

static PARAMETERS: [Parameter; 2] = [
    required!("value", Tags::CONTAINERS),
    optional!("separator", Tags::STRING),
];

// Puts copies of the items behind others, those of arrays among them in their place.
#[cycle(open)]
fn push_opened(alloc: Global, items: &[Value], out: &mut Vec<Value>) -> Result<(), Memory>
    ensures { OnOk result (map tree_of out.new.items ≡ map tree_of out.old.items ++ opened (items_view items.now)) }
{
    for item in items {
        push_part(alloc, item, out)?;
    }
    Ok(())
}

// The same of one item.
#[cycle(open)]
fn push_part(alloc: Global, item: &Value, out: &mut Vec<Value>) -> Result<(), Memory>
    ensures { OnOk result (map tree_of out.new.items ≡ map tree_of out.old.items ++ opened_part (tree_of item.now)) }
{
    match item {
        Value::List(items) => push_opened(alloc, items.as_slice(), out),
        _ => {
            out.push(item.copy(alloc)?)?;
            Ok(())
        }
    }
}

// The array of the items, with arrays among them opened.
fn flat_array(alloc: Global, items: &Items) -> Result<Value, Memory>
    ensures { IfOk result (λ value. tree_of value ≡ array (items_of_trees (opened (items_of items.now)))) }
{
    let mut out = Vec::new(alloc);
    push_opened(alloc, items.as_slice(), &mut out)?;
    Ok(Value::List(Items::new(out)))
}

// The fields of an object that has some. `None`: it has none, or is no object.
fn inner(value: &Value) -> Option<&Fields>
    ensures { option_map (λ fields. members_of fields.now) result ≡ inner_of (tree_of value.now) }
{
    match value {
        Value::Object(fields) => some_fields(fields),
        _ => None,
    }
}

fn some_fields(fields: &Fields) -> Option<&Fields>
    ensures { option_map (λ some. members_of some.now) result ≡ inner_of (object (members_of fields.now)) }
{
    if fields.is_empty() {
        None
    } else {
        Some(fields)
    }
}

// Three texts, joined.
fn joined(alloc: Global, first: &str, second: &str, third: &str) -> Result<Chars, Memory>
    ensures { IfOk result (λ text. text ≡ first.now ++ (second.now ++ third.now)) }
{
    let text = format!(in alloc; "{first}{second}{third}")?;
    Ok(Chars::new(text))
}

// Puts copies of what stands in fields at the names that lead to it, behind a text.
#[cycle(leaves)]
fn put_fields(
    alloc: Global,
    start: &str,
    separator: &str,
    fields: &Fields,
    out: &mut Fields,
) -> Result<(), Memory>
    ensures { OnOk result
        (members_of out.new ≡ put_leaves start.now separator.now (leaves (members_of fields.now))
        (members_of out.old)) }
{
    for (name, value) in fields.as_map().iter() {
        put_value(alloc, start, separator, name.as_str(), value, out)?;
    }
    Ok(())
}

// The same of the field of a name.
#[cycle(leaves)]
fn put_value(
    alloc: Global,
    start: &str,
    separator: &str,
    name: &str,
    value: &Value,
    out: &mut Fields,
) -> Result<(), Memory>
    ensures { OnOk result
        (members_of out.new ≡ put_leaves start.now separator.now (leaves_at name.now (tree_of value.now))
        (members_of out.old)) }
{
    match inner(value) {
        Some(fields) => {
            let start = joined(alloc, start, name, separator)?;
            put_fields(alloc, start.as_str(), separator, fields, out)
        }
        None => {
            let key = joined(alloc, start, name, "")?;
            out.insert(key, value.copy(alloc)?)
        }
    }
}

// The object of what stands in fields, at the names that lead to it.
fn flat_object(alloc: Global, separator: &str, fields: &Fields) -> Result<Value, Memory>
    ensures { IfOk result
        (λ value. tree_of value ≡ object (put_leaves [] separator.now (leaves (members_of fields.now)) no_members)) }
{
    let mut out = Fields::new(BTreeMap::new(alloc));
    put_fields(alloc, "", separator, fields, &mut out)?;
    Ok(Value::Object(out))
}

// The value with the arrays in it opened, where it is one, or the objects in it, where it is one.
fn flattened(alloc: Global, separator: &str, value: &Value) -> Result<Value, Memory>
    ensures { IfOk result (λ flat. tree_of flat ≡ flattened separator.now (tree_of value.now)) }
{
    match value {
        Value::List(items) => flat_array(alloc, items),
        Value::Object(fields) => flat_object(alloc, separator, fields),
        _ => value.copy(alloc),
    }
}

impl Builtin for Flatten {
    ghost row = { λ _. flatten_row };

    ghost uses_memory = { λ _ arguments. true };

    fn name(&self) -> &'static str {
        "flatten"
    }

    fn parameters(&self) -> &'static [Parameter] {
        &PARAMETERS
    }

    fn accepts(&self, _place: usize, _literal: &Value) -> bool {
        true
    }

    fn result_kind(
        &self,
        alloc: Global,
        given: &Givens,
        _patterns: &Patterns,
    ) -> Result<Kind, Memory> {
        given.any_containers(alloc, 0)
    }

    fn may_fail(&self, _given: &Givens) -> bool {
        false
    }

    fn apply(
        &self,
        alloc: Global,
        arguments: &Arguments<'_>,
        _setting: &Setting<'_, '_>,
    ) -> Applied {
        let separator = arguments.text(1, ".");
        Applied::value(flattened(alloc, separator, arguments.value(0)))
    }

    ghost law = { λ _. flatten-law };
}

ghost use Rattle.std.specs.Prelude.{◌≡◌, IfOk};
ghost use Rattle.vrl_value.specs.View.{members_of, tree_of};
ghost use Rattle.fn_object.specs.Keys.{keys_of, keys_row};
ghost use Rattle.fn_object.specs.KeysLaw.{keys-law};
ghost use Rattle.vrl_builtin.specs.Listed.{members_in};

use std::alloc::Global;
use vrl_builtin::{
    Applied, Arguments, Builtin, Givens, Parameter, Setting, Tags, array_of_tag, required,
};
use vrl_kind::Kind;
use vrl_pattern::Patterns;
use vrl_value::{Chars, Fields, Items, Memory, Tag, Value};

/// `keys(value: object)`: array of string. The names of the object's fields, in the order of their
/// bytes. It never fails. `keys({"b":1,"a":2})` is `["a","b"]`.
#[derive(Clone, Copy)]
pub struct Keys;

static PARAMETERS: [Parameter; 1] = [required!("value", Tags::OBJECT)];

// The names of fields.
fn names(alloc: Global, fields: &Fields) -> Result<Value, Memory>
    ensures { IfOk result (λ names. tree_of names ≡ keys_of (members_of fields.now)) }
{
    let mut names = Vec::with_capacity(alloc, fields.len())?;
    for (name, _value) in fields.as_map().iter() {
        names.push(Value::Text(Chars::copy_of(alloc, name.as_str())?))?;
    }
    Ok(Value::List(Items::new(names)))
}

// The names of the fields of an object; another value has none.
fn keys_of(alloc: Global, value: &Value) -> Result<Value, Memory>
    ensures { IfOk result (λ keys. tree_of keys ≡ keys_of (members_in (tree_of value.now))) }
{
    match value {
        Value::Object(fields) => names(alloc, fields),
        _ => Ok(Value::List(Items::new(Vec::new(alloc)))),
    }
}

impl Builtin for Keys {
    ghost row = { λ _. keys_row };

    fn name(&self) -> &'static str {
        "keys"
    }

    fn parameters(&self) -> &'static [Parameter] {
        &PARAMETERS
    }

    fn accepts(&self, _place: usize, _literal: &Value) -> bool {
        true
    }

    fn result_kind(
        &self,
        alloc: Global,
        _given: &Givens,
        _patterns: &Patterns,
    ) -> Result<Kind, Memory> {
        array_of_tag(alloc, Tag::Text)
    }

    fn may_fail(&self, _given: &Givens) -> bool {
        false
    }

    fn apply(
        &self,
        alloc: Global,
        arguments: &Arguments<'_>,
        _setting: &Setting<'_, '_>,
    ) -> Applied {
        Applied::value(keys_of(alloc, arguments.value(0)))
    }

    ghost law = { λ _. keys-law };
}

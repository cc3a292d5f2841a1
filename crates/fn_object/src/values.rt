ghost use Rattle.std.specs.Prelude.{◌≡◌, IfOk};
ghost use Rattle.vrl_value.specs.View.{members_of, tree_of};
ghost use Rattle.vrl_builtin.specs.Listed.{members_in};
ghost use Rattle.fn_object.specs.Values.{values_of, values_row};
ghost use Rattle.fn_object.specs.ValuesLaw.{values-law};

use std::alloc::Global;
use vrl_builtin::{
    Applied, Arguments, Builtin, Givens, Parameter, Setting, Tags, array_of, required,
};
use vrl_kind::Kind;
use vrl_pattern::Patterns;
use vrl_value::{Fields, Items, Memory, Value};

/// `values(value: object)`: array of the parts of the object's kind. The values of the object's
/// fields, in the order of the names' bytes. It never fails. `values({"b":1,"a":2})` is `[2,1]`.
#[derive(Clone, Copy)]
pub struct Values;

static PARAMETERS: [Parameter; 1] = [required!("value", Tags::OBJECT)];

// The values of fields.
fn parts(alloc: Global, fields: &Fields) -> Result<Value, Memory>
    ensures { IfOk result (λ parts. tree_of parts ≡ values_of (members_of fields.now)) }
{
    let mut parts = Vec::with_capacity(alloc, fields.len())?;
    for (_name, value) in fields.as_map().iter() {
        parts.push(value.copy(alloc)?)?;
    }
    Ok(Value::List(Items::new(parts)))
}

// The values of the fields of an object; another value has none.
fn values_of(alloc: Global, value: &Value) -> Result<Value, Memory>
    ensures { IfOk result (λ values. tree_of values ≡ values_of (members_in (tree_of value.now))) }
{
    match value {
        Value::Object(fields) => parts(alloc, fields),
        _ => Ok(Value::List(Items::new(Vec::new(alloc)))),
    }
}

impl Builtin for Values {
    ghost row = { λ _. values_row };

    fn name(&self) -> &'static str {
        "values"
    }

    fn parameters(&self) -> &'static [Parameter] {
        &PARAMETERS
    }

    fn accepts(&self, _place: usize, _literal: &Value) -> bool {
        true
    }

    fn result_kind(
        &self,
        alloc: Global,
        given: &Givens,
        _patterns: &Patterns,
    ) -> Result<Kind, Memory> {
        let parts = given.object_parts(alloc, 0)?;
        array_of(alloc, parts)
    }

    fn may_fail(&self, _given: &Givens) -> bool {
        false
    }

    fn apply(
        &self,
        alloc: Global,
        arguments: &Arguments<'_>,
        _setting: &Setting<'_, '_>,
    ) -> Applied {
        Applied::value(values_of(alloc, arguments.value(0)))
    }

    ghost law = { λ _. values-law };
}

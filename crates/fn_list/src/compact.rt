ghost use Rattle.std.specs.Prelude.{◌≡◌, ◌++◌, map, IfOk, IsOk, IsTrue, OnOk, if◌then◌else◌, true};
ghost use Rattle.vrl_value.specs.Tree.{array, object, put};
ghost use Rattle.vrl_value.specs.View.{items_view, members_of, tree_of};
ghost use Rattle.fn_list.specs.Compact.{compact_items, compact_members, compact_row, compacted, full, is_hollow};
ghost use Rattle.fn_list.specs.CompactLaw.{compact-law};

use std::alloc::Global;
use std::collections::BTreeMap;
use vrl_builtin::{Applied, Arguments, Builtin, Givens, Parameter, Setting, Tags, required};
use vrl_kind::Kind;
use vrl_pattern::Patterns;
use vrl_value::{Chars, Fields, Items, Memory, Value};

/// `compact(value: array or object)`: array of any or object of any, where the value's kind allows
/// either. From the inside out, the parts that are null, `""`, `[]` or `{}` are taken away. It
/// never fails. `compact([null,1,[""]])` is `[1]`.
#[derive(Clone, Copy)]
pub struct Compact;

static PARAMETERS: [Parameter; 1] = [required!("value", Tags::CONTAINERS)];

// Whether a value is null, `""`, `[]` or `{}`.
fn is_hollow(value: &Value) -> bool
    ensures { result ≡ is_hollow (tree_of value.now) }
{
    match value {
        Value::Null => true,
        Value::Text(text) => text.as_str().is_empty(),
        Value::List(items) => items.is_empty(),
        Value::Object(fields) => fields.is_empty(),
        _ => false,
    }
}

// Puts a part behind others, unless it is empty, which takes no memory. `Memory`: out of memory.
fn push_full(kept: &mut Vec<Value>, part: Value) -> Result<(), Memory>
    ensures parts { OnOk result (map tree_of kept.new.items ≡ map tree_of kept.old.items ++ full (tree_of part)) }
    ensures hollow { IsTrue (is_hollow (tree_of part)) → IsOk result }
{
    if !is_hollow(&part) {
        kept.push(part)?;
    }
    Ok(())
}

// Puts a part at a name, unless it is empty, which takes no memory. `Memory`: out of memory.
fn put_full(alloc: Global, kept: &mut Fields, name: &str, part: Value) -> Result<(), Memory>
    ensures fields { OnOk result (members_of kept.new
        ≡ (if is_hollow (tree_of part) then members_of kept.old else put name.now (tree_of part) (members_of kept.old))) }
    ensures hollow { IsTrue (is_hollow (tree_of part)) → IsOk result }
{
    if is_hollow(&part) {
        return Ok(());
    }
    let name = Chars::copy_of(alloc, name)?;
    kept.insert(name, part)
}

// A copy of a value without its empty parts.
#[cycle(compact)]
fn compacted(alloc: Global, value: &Value) -> Result<Value, Memory>
    ensures { IfOk result (λ full. tree_of full ≡ compacted (tree_of value.now)) }
{
    match value {
        Value::List(items) => compact_items(alloc, items.as_slice()),
        Value::Object(fields) => compact_fields(alloc, fields),
        _ => value.copy(alloc),
    }
}

#[cycle(compact)]
fn compact_items(alloc: Global, items: &[Value]) -> Result<Value, Memory>
    ensures { IfOk result (λ full. tree_of full ≡ array (compact_items (items_view items.now))) }
{
    let mut kept = Vec::new(alloc);
    for item in items {
        let part = compacted(alloc, item)?;
        push_full(&mut kept, part)?;
    }
    Ok(Value::List(Items::new(kept)))
}

#[cycle(compact)]
fn compact_fields(alloc: Global, fields: &Fields) -> Result<Value, Memory>
    ensures { IfOk result (λ full. tree_of full ≡ object (compact_members (members_of fields.now))) }
{
    let mut kept = Fields::new(BTreeMap::new(alloc));
    for (name, value) in fields.as_map().iter() {
        let part = compacted(alloc, value)?;
        put_full(alloc, &mut kept, name.as_str(), part)?;
    }
    Ok(Value::Object(kept))
}

impl Builtin for Compact {
    ghost row = { λ _. compact_row };

    ghost uses_memory = { λ _ arguments. true };

    fn name(&self) -> &'static str {
        "compact"
    }

    fn parameters(&self) -> &'static [Parameter] {
        &PARAMETERS
    }

    fn accepts(&self, _place: usize, _literal: &Value) -> bool {
        true
    }

    fn result_kind(
        &self,
        alloc: Global,
        given: &Givens,
        _patterns: &Patterns,
    ) -> Result<Kind, Memory> {
        given.any_containers(alloc, 0)
    }

    fn may_fail(&self, _given: &Givens) -> bool {
        false
    }

    fn apply(
        &self,
        alloc: Global,
        arguments: &Arguments<'_>,
        _setting: &Setting<'_, '_>,
    ) -> Applied {
        Applied::value(compacted(alloc, arguments.value(0)))
    }

    ghost law = { λ _. compact-law };
}

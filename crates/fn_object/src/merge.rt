ghost use Rattle.std.specs.Prelude.{◌≡◌, false, IfOk, IsOk, OnOk, if◌then◌else◌, Some, true};
ghost use Rattle.vrl_value.specs.View.{members_of, tree_of};
ghost use Rattle.vrl_kind.specs.Kinds.{tags_at};
ghost use Rattle.vrl_kind.specs.Sets.{SameSets};
ghost use Rattle.vrl_builtin.specs.Rows.{kind_at, literal_at};
ghost use Rattle.vrl_builtin.specs.View.{givens_of};
ghost use Rattle.vrl_value.specs.Tree.{find, is_object, put_all};
ghost use Rattle.vrl_builtin.specs.Listed.{members_in};
ghost use Rattle.fn_object.specs.Merge.{changed, is_shallow, laid_over, lay_all, merge_kind, merged, merge_row, overlaid_kind};
ghost use Rattle.fn_object.specs.MergeLaw.{merge-law};

use std::alloc::Global;
use std::collections::BTreeMap;
use vrl_builtin::{
    Applied, Arguments, Builtin, Givens, Parameter, Setting, Tags, any_of, optional, required,
};
use vrl_kind::{Kind, has, overlaid};
use vrl_pattern::Patterns;
use vrl_value::{Chars, Fields, Memory, Tag, Value};

/// `merge(to: object, from: object, deep: boolean = false)`: the kind of `to | from` where `deep`
/// isn't given or is the literal `false`, else object of any. The fields of both; of a name that
/// both have, the value in `from`, but that, where `deep` is true, two objects under one name are
/// merged in the same way. It never fails. `merge({"a":{"x":1}}, {"a":{"y":2}}, deep: true)` is
/// `{"a":{"x":1,"y":2}}`.
#[derive(Clone, Copy)]
pub struct Merge;

static PARAMETERS: [Parameter; 3] = [
    required!("to", Tags::OBJECT),
    required!("from", Tags::OBJECT),
    optional!("deep", Tags::BOOLEAN),
];

// Puts copies of fields among others, each in place of one with its name, but that objects under
// one name are merged.
#[cycle(lay)]
fn lay_copies(alloc: Global, fields: &mut Fields, others: &Fields) -> Result<(), Memory>
    ensures { OnOk result (members_of fields.new ≡ lay_all (members_of others.now) (members_of fields.old)) }
{
    for (name, value) in others.as_map().iter() {
        lay_field(alloc, fields, name.as_str(), value)?;
    }
    Ok(())
}

// Lays a copy of a value over the field of a name, or puts it there.
#[cycle(lay)]
fn lay_field(alloc: Global, fields: &mut Fields, name: &str, value: &Value) -> Result<(), Memory>
    ensures { OnOk result
        (members_of fields.new ≡ changed name.now (find name.now (members_of fields.old))
        (laid_over (tree_of value.now)) (tree_of value.now) (members_of fields.old)) }
{
    match fields.get_mut(name) {
        Some(part) => lay_over(alloc, part, value),
        None => {
            let name = Chars::copy_of(alloc, name)?;
            fields.insert(name, value.copy(alloc)?)
        }
    }
}

// Lays a copy of a value over another: where both are objects, they are merged.
#[cycle(lay)]
fn lay_over(alloc: Global, old: &mut Value, new: &Value) -> Result<(), Memory>
    ensures { OnOk result (tree_of old.new ≡ laid_over (tree_of new.now) (tree_of old.old)) }
{
    if let Value::Object(fields) = old {
        if let Value::Object(others) = new {
            return lay_copies(alloc, fields, others);
        }
    }
    *old = new.copy(alloc)?;
    Ok(())
}

// Copies of the fields of an object; another value has none, which takes no memory.
fn fields_of(alloc: Global, value: &Value) -> Result<Fields, Memory>
    ensures fields { IfOk result (λ fields. members_of fields ≡ members_in (tree_of value.now)) }
    ensures other { is_object (tree_of value.now) ≡ false → IsOk result }
{
    match value {
        Value::Object(fields) => fields.copy(alloc),
        _ => Ok(Fields::new(BTreeMap::new(alloc))),
    }
}

// Puts copies of the fields of an object among others, or lays them over these; another value has
// none.
fn add_fields(alloc: Global, fields: &mut Fields, deep: bool, from: &Value) -> Result<(), Memory>
    ensures { OnOk result
        (members_of fields.new ≡
        (if deep then lay_all (members_in (tree_of from.now)) (members_of fields.old)
        else put_all (members_in (tree_of from.now)) (members_of fields.old))) }
{
    let Value::Object(others) = from else {
        return Ok(());
    };
    if deep {
        lay_copies(alloc, fields, others)
    } else {
        fields.put_copies(alloc, others)
    }
}

// The fields of two objects.
fn merged(alloc: Global, deep: bool, to: &Value, from: &Value) -> Result<Value, Memory>
    ensures { IfOk result (λ value. tree_of value ≡ merged deep (tree_of to.now) (tree_of from.now)) }
{
    let mut fields = fields_of(alloc, to)?;
    add_fields(alloc, &mut fields, deep, from)?;
    Ok(Value::Object(fields))
}

// Whether objects under one name are surely not merged.
fn is_shallow(given: &Givens) -> bool
    ensures { result ≡ is_shallow (kind_at 2 (givens_of given.now)) (literal_at 2 (givens_of given.now)) }
{
    match given.literal(2) {
        Some(Value::Bool(deep)) => !*deep,
        Some(_) => false,
        None => given.kind(2).is_none(),
    }
}

// The kind of `|`.
fn put_over(alloc: Global, to: &Kind, from: &Kind) -> Result<Kind, Memory>
    ensures { IfOk result (λ kind. SameSets (tags_at kind) (overlaid_kind (Some to.now) (Some from.now))) }
{
    if !has(to, Tag::Object) {
        return Ok(Kind::never());
    }
    if !has(from, Tag::Object) {
        return Ok(Kind::never());
    }
    overlaid(alloc, to, from)
}

// That of what is given.
fn shallow_kind(alloc: Global, given: &Givens) -> Result<Kind, Memory>
    ensures { IfOk result
        (λ kind. SameSets (tags_at kind)
        (overlaid_kind (kind_at 0 (givens_of given.now)) (kind_at 1 (givens_of given.now)))) }
{
    let Some(to) = given.kind(0) else {
        return Ok(Kind::never());
    };
    let Some(from) = given.kind(1) else {
        return Ok(Kind::never());
    };
    put_over(alloc, to, from)
}

fn kind_of(alloc: Global, given: &Givens, shallow: bool) -> Result<Kind, Memory>
    ensures { IfOk result
        (λ kind. SameSets (tags_at kind)
        (merge_kind shallow (kind_at 0 (givens_of given.now)) (kind_at 1 (givens_of given.now)))) }
{
    if shallow {
        shallow_kind(alloc, given)
    } else {
        any_of(alloc, &Tags::OBJECT)
    }
}

impl Builtin for Merge {
    ghost row = { λ _. merge_row };

    ghost uses_memory = { λ _ arguments. true };

    fn name(&self) -> &'static str {
        "merge"
    }

    fn parameters(&self) -> &'static [Parameter] {
        &PARAMETERS
    }

    fn accepts(&self, _place: usize, _literal: &Value) -> bool {
        true
    }

    fn result_kind(
        &self,
        alloc: Global,
        given: &Givens,
        _patterns: &Patterns,
    ) -> Result<Kind, Memory> {
        kind_of(alloc, given, is_shallow(given))
    }

    fn may_fail(&self, _given: &Givens) -> bool {
        false
    }

    fn apply(
        &self,
        alloc: Global,
        arguments: &Arguments<'_>,
        _setting: &Setting<'_, '_>,
    ) -> Applied {
        let deep = arguments.boolean(2, false);
        Applied::value(merged(alloc, deep, arguments.value(0), arguments.value(1)))
    }

    ghost law = { λ _. merge-law };
}

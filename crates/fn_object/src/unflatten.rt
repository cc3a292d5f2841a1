ghost use Rattle.std.specs.Prelude.{◌≡◌, [], ◌∷◌, false, length, map, nat_lt, true, IfOk};
ghost use Rattle.std.specs.List.{list_all};
ghost use Rattle.vrl_value.specs.Tree.{no_members, object};
ghost use Rattle.vrl_value.specs.View.{members_of, tree_of};
ghost use Rattle.vrl_path.specs.Trees.{set_tree};
ghost use Rattle.vrl_path.specs.declared.path.Step.TheVariants.{Field};
ghost use Rattle.fn_object.specs.Paths.{is_writable};
ghost use Rattle.fn_object.specs.Unflatten.{cut_key, is_nothing, path_of, put_paths, unflatten_row, unflattened};
ghost use Rattle.fn_object.specs.UnflattenLaw.{unflatten-law};

use std::alloc::Global;
use std::collections::BTreeMap;
use vrl_builtin::{
    Applied, Arguments, Builtin, Givens, Parameter, Setting, Tags, any_of, optional, required,
};
use vrl_kind::Kind;
use vrl_path::{Path, Step, put};
use vrl_pattern::Patterns;
use vrl_value::{Chars, Fields, Memory, Value};

/// `unflatten(value: object, separator: string = ".")`: object of any. The empty object with each
/// field, by name, written at the path of its name's pieces between the separators; a name of over
/// 64 pieces, or an empty separator, leaves the name whole. It never fails. `unflatten({"a.b":1})`
/// is `{"a":{"b":1}}`.
#[derive(Clone, Copy)]
pub struct Unflatten;

static PARAMETERS: [Parameter; 2] = [
    required!("value", Tags::OBJECT),
    optional!("separator", Tags::STRING),
];

/// The most pieces of a name that are taken apart.
const PIECE_LIMIT: usize = 64;

// The step to the field of a name.
fn step_to(alloc: Global, name: &str) -> Result<Step, Memory>
    ensures { IfOk result (λ step. step ≡ Field name.now) }
{
    Ok(Step::Field(Chars::copy_of(alloc, name)?))
}

// The steps of a name's pieces between the separators.
fn cut_key(alloc: Global, separator: &str, name: &str) -> Result<Vec<Step>, Memory>
    requires { is_nothing separator.now ≡ false }
    ensures { IfOk result (λ steps. steps.items ≡ map Field (cut_key (length name.now) separator.now name.now)) }
{
    let mut steps = Vec::new(alloc);
    let mut rest = name;
    while let Some((piece, behind)) = rest.split_once(separator) {
        steps.push(step_to(alloc, piece)?)?;
        rest = behind;
    }
    steps.push(step_to(alloc, rest)?)?;
    Ok(steps)
}

// The step of a name that is left whole.
fn whole(alloc: Global, name: &str) -> Result<Vec<Step>, Memory>
    ensures { IfOk result (λ steps. steps.items ≡ map Field (name.now ∷ [])) }
{
    let mut steps = Vec::new(alloc);
    steps.push(step_to(alloc, name)?)?;
    Ok(steps)
}

// Whether these are more steps than pieces are taken apart.
fn are_many(steps: &[Step]) -> bool
    ensures { result ≡ nat_lt 64 (length steps.now) }
{
    steps.len() > PIECE_LIMIT
}

// The steps of a name's pieces, or the whole name where there are too many.
fn cut_or_whole(alloc: Global, separator: &str, name: &str) -> Result<Vec<Step>, Memory>
    requires { is_nothing separator.now ≡ false }
    ensures { IfOk result (λ steps. steps.items ≡ path_of separator.now name.now) }
{
    let steps = cut_key(alloc, separator, name)?;
    if are_many(&steps) {
        whole(alloc, name)
    } else {
        Ok(steps)
    }
}

// The steps of a name.
fn steps_of(alloc: Global, separator: &str, name: &str) -> Result<Vec<Step>, Memory>
    ensures { IfOk result (λ steps. steps.items ≡ path_of separator.now name.now) }
{
    if separator.is_empty() {
        return whole(alloc, name);
    }
    cut_or_whole(alloc, separator, name)
}

// The value with another one at a path of fields.
fn put_at(alloc: Global, value: Value, path: &Path, new: Value) -> Result<Value, Memory>
    requires { list_all is_writable path.now ≡ true }
    ensures { IfOk result (λ changed. tree_of changed ≡ set_tree (tree_of value) path.now (tree_of new)) }
{
    let mut changed = value;
    put(alloc, &mut changed, path, new)?;
    Ok(changed)
}

// The value with a copy of another one at the path of a name.
fn put_name(
    alloc: Global,
    value: Value,
    separator: &str,
    name: &str,
    new: &Value,
) -> Result<Value, Memory>
    ensures { IfOk result
        (λ changed. tree_of changed ≡ set_tree (tree_of value) (path_of separator.now name.now) (tree_of new.now)) }
{
    let path = Path::new(steps_of(alloc, separator, name)?);
    put_at(alloc, value, &path, new.copy(alloc)?)
}

// The empty object with copies of fields at the paths of their names.
fn put_all(alloc: Global, separator: &str, fields: &Fields) -> Result<Value, Memory>
    ensures { IfOk result
        (λ value. tree_of value ≡ put_paths separator.now (members_of fields.now) (object no_members)) }
{
    let mut value = Value::Object(Fields::new(BTreeMap::new(alloc)));
    for (name, part) in fields.as_map().iter() {
        value = put_name(alloc, value, separator, name.as_str(), part)?;
    }
    Ok(value)
}

// The same of an object; another value has no fields.
fn unflattened(alloc: Global, separator: &str, value: &Value) -> Result<Value, Memory>
    ensures { IfOk result (λ nested. tree_of nested ≡ unflattened separator.now (tree_of value.now)) }
{
    match value {
        Value::Object(fields) => put_all(alloc, separator, fields),
        _ => Ok(Value::Object(Fields::new(BTreeMap::new(alloc)))),
    }
}

impl Builtin for Unflatten {
    ghost row = { λ _. unflatten_row };

    ghost uses_memory = { λ _ arguments. true };

    fn name(&self) -> &'static str {
        "unflatten"
    }

    fn parameters(&self) -> &'static [Parameter] {
        &PARAMETERS
    }

    fn accepts(&self, _place: usize, _literal: &Value) -> bool {
        true
    }

    fn result_kind(
        &self,
        alloc: Global,
        _given: &Givens,
        _patterns: &Patterns,
    ) -> Result<Kind, Memory> {
        any_of(alloc, &Tags::OBJECT)
    }

    fn may_fail(&self, _given: &Givens) -> bool {
        false
    }

    fn apply(
        &self,
        alloc: Global,
        arguments: &Arguments<'_>,
        _setting: &Setting<'_, '_>,
    ) -> Applied {
        let separator = arguments.text(1, ".");
        Applied::value(unflattened(alloc, separator, arguments.value(0)))
    }

    ghost law = { λ _. unflatten-law };
}

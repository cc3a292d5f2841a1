ghost use Rattle.std.specs.Prelude.{◌≡◌, codes, map, IfOk};
ghost use Rattle.vrl_value.specs.View.{tree_of};
ghost use Rattle.vrl_path.specs.Trees.{remove_tree};
ghost use Rattle.vrl_builtin.specs.Rows.{named, value_at};
ghost use Rattle.vrl_builtin.specs.View.{Applies};
ghost use Rattle.fn_object.specs.Paths.{is_taken, removal_fault, steps_of};
ghost use Rattle.fn_object.specs.Remove.{remove_row, removed_at};
ghost use Rattle.fn_object.specs.RemoveLaw.{remove-law};

use crate::paths::{STEP_TAGS, path_of, removal_fault};
use std::alloc::Global;
use vrl_builtin::{
    Applied, Arguments, Builtin, Givens, Parameter, Setting, Tags, fail, fail_at_path_element,
    first_other, items_of, required,
};
use vrl_kind::Kind;
use vrl_path::{Path, remove};
use vrl_pattern::Patterns;
use vrl_value::{Memory, Value};

/// `remove(value: array or object, path: array)`: array of any or object of any, where the value's
/// kind allows either. The value without what stands at the path, whose strings are fields and
/// whose whole numbers are places; the places behind one that is removed move down. It always may
/// fail: `path element N is TAG`; `empty path`; `index out of range`, for a negative place.
/// `remove({"a":1,"b":2}, ["a"])` is `{"b":2}`.
#[derive(Clone, Copy)]
pub struct Remove;

static PARAMETERS: [Parameter; 2] = [
    required!("value", Tags::CONTAINERS),
    required!("path", Tags::ARRAY),
];

// The value without what stands at a path.
fn take_out(value: Value, path: &Path) -> Value
    ensures { tree_of result ≡ remove_tree (tree_of value) path.now }
{
    let mut changed = value;
    drop(remove(&mut changed, path));
    changed
}

// A copy of a value without what stands at the path of the elements.
fn without(alloc: Global, value: &Value, elements: &[Value]) -> Result<Value, Memory>
    ensures { IfOk result
        (λ changed. tree_of changed ≡ remove_tree (tree_of value.now) (steps_of (map tree_of elements.now))) }
{
    let path = path_of(alloc, elements)?;
    let copy = value.copy(alloc)?;
    Ok(take_out(copy, &path))
}

// What is answered to a value and a path.
fn removed_at(alloc: Global, value: &Value, path: &Value) -> Applied
    ensures { Applies (is_taken removal_fault (tree_of path.now))
        (named (codes "remove") (removed_at (tree_of value.now) (tree_of path.now))) result }
{
    let elements = items_of(path);
    match first_other(elements, &STEP_TAGS) {
        Some((place, tag)) => fail_at_path_element("remove", place, tag),
        None => match removal_fault(elements) {
            Some(words) => fail("remove", words),
            None => Applied::value(without(alloc, value, elements)),
        },
    }
}

impl Builtin for Remove {
    ghost row = { λ _. remove_row };

    ghost uses_memory = { λ _ arguments. is_taken removal_fault (value_at 1 arguments) };

    fn name(&self) -> &'static str {
        "remove"
    }

    fn parameters(&self) -> &'static [Parameter] {
        &PARAMETERS
    }

    fn accepts(&self, _place: usize, _literal: &Value) -> bool {
        true
    }

    fn result_kind(
        &self,
        alloc: Global,
        given: &Givens,
        _patterns: &Patterns,
    ) -> Result<Kind, Memory> {
        given.any_containers(alloc, 0)
    }

    fn may_fail(&self, _given: &Givens) -> bool {
        true
    }

    fn apply(
        &self,
        alloc: Global,
        arguments: &Arguments<'_>,
        _setting: &Setting<'_, '_>,
    ) -> Applied {
        removed_at(alloc, arguments.value(0), arguments.value(1))
    }

    ghost law = { λ _. remove-law };
}

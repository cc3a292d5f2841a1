ghost use Rattle.std.specs.Prelude.{◌≡◌, codes, map, IfOk, None};
ghost use Rattle.vrl_value.specs.View.{tree_of};
ghost use Rattle.vrl_path.specs.Trees.{set_tree};
ghost use Rattle.vrl_builtin.specs.Rows.{named, value_at};
ghost use Rattle.vrl_builtin.specs.View.{Applies};
ghost use Rattle.fn_object.specs.Paths.{is_taken, steps_of, write_fault};
ghost use Rattle.fn_object.specs.Set.{set_at, set_row};
ghost use Rattle.fn_object.specs.SetLaw.{set-law};

use crate::paths::{STEP_TAGS, path_of, write_fault};
use std::alloc::Global;
use vrl_builtin::{
    Applied, Arguments, Builtin, Givens, Parameter, Setting, Tags, any_of, fail,
    fail_at_path_element, first_other, items_of, required,
};
use vrl_kind::Kind;
use vrl_path::{Path, put};
use vrl_pattern::Patterns;
use vrl_value::{Memory, Value};

/// `set(value: array or object, path: array, data: any)`: array of any or object of any. The value
/// with the data at the path, whose strings are fields and whose whole numbers are places; a step
/// into what is no fitting container replaces it by one, and an array is filled up with nulls. It
/// always may fail: `path element N is TAG`; `empty path`; `path too long`, over 64 steps;
/// `index out of range`, for a place outside of 0 to 65,535. `set({}, ["a",1], 2)` is
/// `{"a":[null,2]}`.
#[derive(Clone, Copy)]
pub struct Set;

static PARAMETERS: [Parameter; 3] = [
    required!("value", Tags::CONTAINERS),
    required!("path", Tags::ARRAY),
    required!("data", Tags::ALL),
];

// The value with another one at a path.
fn put_at(alloc: Global, value: Value, path: &Path, new: Value) -> Result<Value, Memory>
    requires { write_fault path.now ≡ None }
    ensures { IfOk result (λ changed. tree_of changed ≡ set_tree (tree_of value) path.now (tree_of new)) }
{
    let mut changed = value;
    put(alloc, &mut changed, path, new)?;
    Ok(changed)
}

// A copy of a value with a copy of another one at the path of the elements.
fn written(alloc: Global, value: &Value, elements: &[Value], new: &Value) -> Result<Value, Memory>
    requires { write_fault (steps_of (map tree_of elements.now)) ≡ None }
    ensures { IfOk result
        (λ changed. tree_of changed ≡ set_tree (tree_of value.now) (steps_of (map tree_of elements.now))
        (tree_of new.now)) }
{
    let path = path_of(alloc, elements)?;
    let copy = value.copy(alloc)?;
    put_at(alloc, copy, &path, new.copy(alloc)?)
}

// What is answered to a value, a path and another value.
fn set_at(alloc: Global, value: &Value, path: &Value, new: &Value) -> Applied
    ensures { Applies (is_taken write_fault (tree_of path.now))
        (named (codes "set") (set_at (tree_of value.now) (tree_of path.now) (tree_of new.now))) result }
{
    let elements = items_of(path);
    match first_other(elements, &STEP_TAGS) {
        Some((place, tag)) => fail_at_path_element("set", place, tag),
        None => match write_fault(elements) {
            Some(words) => fail("set", words),
            None => Applied::value(written(alloc, value, elements, new)),
        },
    }
}

impl Builtin for Set {
    ghost row = { λ _. set_row };

    ghost uses_memory = { λ _ arguments. is_taken write_fault (value_at 1 arguments) };

    fn name(&self) -> &'static str {
        "set"
    }

    fn parameters(&self) -> &'static [Parameter] {
        &PARAMETERS
    }

    fn accepts(&self, _place: usize, _literal: &Value) -> bool {
        true
    }

    fn result_kind(
        &self,
        alloc: Global,
        _given: &Givens,
        _patterns: &Patterns,
    ) -> Result<Kind, Memory> {
        any_of(alloc, &Tags::CONTAINERS)
    }

    fn may_fail(&self, _given: &Givens) -> bool {
        true
    }

    fn apply(
        &self,
        alloc: Global,
        arguments: &Arguments<'_>,
        _setting: &Setting<'_, '_>,
    ) -> Applied {
        set_at(
            alloc,
            arguments.value(0),
            arguments.value(1),
            arguments.value(2),
        )
    }

    ghost law = { λ _. set-law };
}

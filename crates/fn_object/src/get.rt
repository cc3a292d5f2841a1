ghost use Rattle.std.specs.Prelude.{◌≡◌, ◌≢◌, codes, map, option_map, true, unwrap_or, None};
ghost use Rattle.vrl_value.specs.Tree.{null};
ghost use Rattle.vrl_value.specs.View.{tree_of};
ghost use Rattle.vrl_path.specs.Read.{read_at};
ghost use Rattle.vrl_builtin.specs.Rows.{named, value as answer, value_at};
ghost use Rattle.vrl_builtin.specs.View.{Applies};
ghost use Rattle.vrl_builtin.specs.declared.failing.Applied.TheVariants as applied;
ghost use Rattle.fn_object.specs.Get.{get_row, got, no_fault};
ghost use Rattle.fn_object.specs.GetLaw.{get-law};
ghost use Rattle.fn_object.specs.Paths.{is_taken, steps_of};

use crate::paths::{STEP_TAGS, path_of};
use std::alloc::Global;
use vrl_builtin::{
    Applied, Arguments, Builtin, Givens, Parameter, Setting, Tags, fail_at_path_element,
    first_other, items_of, required,
};
use vrl_kind::Kind;
use vrl_path::get;
use vrl_pattern::Patterns;
use vrl_value::{Memory, Value};

/// `get(value: array or object, path: array)`: any. What stands at the path of the value, whose
/// strings are fields and whose whole numbers are places, a negative one counted from the end; null
/// where nothing stands there. It may fail where the parts of the path's kind aren't within string
/// and integer: `path element N is TAG`. `get({"a":[5]}, ["a",0])` is 5.
#[derive(Clone, Copy)]
pub struct Get;

static PARAMETERS: [Parameter; 2] = [
    required!("value", Tags::CONTAINERS),
    required!("path", Tags::ARRAY),
];

// A copy of what was found, and null where nothing was, which takes no memory.
fn copy_found(alloc: Global, found: Option<&Value>) -> Applied
    ensures answer { Applies true
        (answer (unwrap_or (option_map (λ value. tree_of value.now) found.entry) null)) result }
    ensures null { found.entry ≡ None → result ≢ applied.Memory }
{
    match found {
        Some(value) => Applied::value(value.copy(alloc)),
        None => Applied::Value(Value::Null),
    }
}

// What stands at the path of the elements.
fn read(alloc: Global, value: &Value, elements: &[Value]) -> Applied
    ensures { Applies true
        (answer (unwrap_or (read_at (tree_of value.now) (steps_of (map tree_of elements.now))) null)) result }
{
    match path_of(alloc, elements) {
        Ok(path) => copy_found(alloc, get(value, &path)),
        Err(_memory) => Applied::Memory,
    }
}

// What is answered to a value and a path.
fn got(alloc: Global, value: &Value, path: &Value) -> Applied
    ensures { Applies (is_taken no_fault (tree_of path.now))
        (named (codes "get") (got (tree_of value.now) (tree_of path.now))) result }
{
    let elements = items_of(path);
    match first_other(elements, &STEP_TAGS) {
        Some((place, tag)) => fail_at_path_element("get", place, tag),
        None => read(alloc, value, elements),
    }
}

impl Builtin for Get {
    ghost row = { λ _. get_row };

    ghost uses_memory = { λ _ arguments. is_taken no_fault (value_at 1 arguments) };

    fn name(&self) -> &'static str {
        "get"
    }

    fn parameters(&self) -> &'static [Parameter] {
        &PARAMETERS
    }

    fn accepts(&self, _place: usize, _literal: &Value) -> bool {
        true
    }

    fn result_kind(
        &self,
        alloc: Global,
        _given: &Givens,
        _patterns: &Patterns,
    ) -> Result<Kind, Memory> {
        Ok(Kind::any(alloc))
    }

    fn may_fail(&self, given: &Givens) -> bool {
        given.part_allows_other(1, &STEP_TAGS)
    }

    fn apply(
        &self,
        alloc: Global,
        arguments: &Arguments<'_>,
        _setting: &Setting<'_, '_>,
    ) -> Applied {
        got(alloc, arguments.value(0), arguments.value(1))
    }

    ghost law = { λ _. get-law };
}

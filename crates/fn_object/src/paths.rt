ghost use Rattle.std.specs.Prelude.{◌≡◌, map, option_map, IfOk, Some};
ghost use Rattle.std.specs.List.{list_all};
ghost use Rattle.vrl_value.specs.View.{tree_of};
ghost use Rattle.fn_object.specs.Paths.{is_plain, is_writable, removal_fault, step_of, steps_of, write_fault};

use std::alloc::Global;
use vrl_builtin::Tags;
use vrl_path::{PLACE_LIMIT, Path, Step};
use vrl_value::{Memory, Value};

/// The most steps that a path may have at which a value is written.
const STEP_LIMIT: usize = 64;

// The tags that an element of a path may have.
pub(crate) static STEP_TAGS: Tags = Tags {
    string: true,
    integer: true,
    ..Tags::NONE
};

// The step of an element; one of another tag gives place 0.
fn step_of(alloc: Global, element: &Value) -> Result<Step, Memory>
    ensures { IfOk result (λ step. step ≡ step_of (tree_of element.now)) }
{
    match element {
        Value::Text(name) => Ok(Step::Field(name.copy(alloc)?)),
        Value::Int(place) => Ok(Step::Place(*place)),
        _ => Ok(Step::Place(0)),
    }
}

// The path of the elements of an array. `Memory`: want of memory.
pub(crate) fn path_of(alloc: Global, elements: &[Value]) -> Result<Path, Memory>
    ensures { IfOk result (λ path. path ≡ steps_of (map tree_of elements.now)) }
{
    let mut steps = Vec::with_capacity(alloc, elements.len())?;
    for element in elements {
        steps.push(step_of(alloc, element)?)?;
    }
    Ok(Path::new(steps))
}

// Whether the step of an element can be written.
fn is_writable(element: &Value) -> bool
    ensures { result ≡ is_writable (step_of (tree_of element.now)) }
{
    match element {
        Value::Int(place) => (0..=PLACE_LIMIT).contains(place),
        _ => true,
    }
}

// Whether the step of an element can be removed.
fn is_plain(element: &Value) -> bool
    ensures { result ≡ is_plain (step_of (tree_of element.now)) }
{
    match element {
        Value::Int(place) => *place >= 0,
        _ => true,
    }
}

fn are_writable(elements: &[Value]) -> bool
    ensures { result ≡ list_all (λ element. is_writable (step_of (tree_of element))) elements.now }
{
    elements.iter().all(|element| is_writable(element))
}

fn are_plain(elements: &[Value]) -> bool
    ensures { result ≡ list_all (λ element. is_plain (step_of (tree_of element))) elements.now }
{
    elements.iter().all(|element| is_plain(element))
}

// The words on a path at which nothing can be written. `None`: a value can be.
pub(crate) fn write_fault(elements: &[Value]) -> Option<&'static str>
    ensures { option_map (λ words. words.now) result ≡ write_fault (steps_of (map tree_of elements.now)) }
{
    if elements.is_empty() {
        return Some("empty path");
    }
    if elements.len() > STEP_LIMIT {
        return Some("path too long");
    }
    if are_writable(elements) {
        None
    } else {
        Some("index out of range")
    }
}

// The words on a path at which nothing can be removed. `None`: what stands there can be.
pub(crate) fn removal_fault(elements: &[Value]) -> Option<&'static str>
    ensures { option_map (λ words. words.now) result ≡ removal_fault (steps_of (map tree_of elements.now)) }
{
    if elements.is_empty() {
        return Some("empty path");
    }
    if are_plain(elements) {
        None
    } else {
        Some("index out of range")
    }
}

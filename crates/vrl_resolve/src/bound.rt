ghost use Rattle.std.specs.Prelude.{◌≡◌, false, map, option_map, if◌then◌else◌, IfOk, IsErr, Some};
ghost use Rattle.std.specs.Option.{option_map_or};
ghost use Rattle.vrl_builtin.specs.View.{parameter_row};
ghost use Rattle.vrl_syntax.specs.Calls.{form_named, literal_of};
ghost use Rattle.vrl_syntax.specs.View.{args_of, args_view, expr_of};
ghost use Rattle.vrl_binding.specs.Binding.{binding, collection_parameters, keywords_of, IsBound};
ghost use Rattle.vrl_table.specs.Table.{function_named, row_of};
ghost use Rattle.vrl_resolve.specs.Calls.{are_written_right as are_right, bound_iteration, is_written_right as is_right, iteration, nothing_called, values_of, written_at};
ghost use Rattle.vrl_resolve.specs.Linking.{is_value_keyword, path_argument, IsFunctionCallee, IsRunBy, IsWrittenCallee};

use crate::node::Callee;
use std::alloc::Global;
use vrl_binding::{BindFault, Bound, bind_to, collection_parameters};
use vrl_builtin::{Builtin, Parameter};
use vrl_path::Path;
use vrl_syntax::{Arg, Args, CallForm, Expr, Root, has_shape};
use vrl_table::{Fun, bind, functions_are_found, lookup, parameters};
use vrl_value::{Chars, Memory, Names};

/// The one argument of `del` or `exists`, where it is written as a path or a name.
pub(crate) fn path_of(args: &Args) -> Option<(&Root, &Path)>
    ensures { option_map (λ place. (place.0.now, place.1.now)) result ≡ path_argument (args_of args.now) }
{
    let (arg, others) = args.as_slice().split_first()?;
    if !others.is_empty() {
        return None;
    }
    if is_value(&arg.name) {
        arg.value.as_path()
    } else {
        None
    }
}

// Whether an argument has no keyword, or that of the one parameter of `del` and `exists`.
fn is_value(name: &Option<Chars>) -> bool
    ensures { result ≡ is_value_keyword name.now }
{
    match name {
        Some(keyword) => keyword.as_str() == "value",
        None => true,
    }
}

/// The form that runs a closure with such names, of a call of a name with such arguments. `None`:
/// nothing runs it. `Memory`: want of memory.
pub(crate) fn iteration_form(
    alloc: Global,
    name: &str,
    names: &Names,
    args: &Args,
) -> Result<Option<CallForm>, Memory>
    ensures { IfOk result (IsRunBy (form_named name.now) names.now (args_of args.now)) }
{
    match CallForm::named(name) {
        Some(form) => shaped_form(alloc, form, names, args),
        None => Ok(None),
    }
}

// The form, where it runs a closure with such names, and takes such arguments. `Memory`: want of
// memory.
fn shaped_form(
    alloc: Global,
    form: CallForm,
    names: &Names,
    args: &Args,
) -> Result<Option<CallForm>, Memory>
    ensures { IfOk result (IsRunBy (Some form) names.now (args_of args.now)) }
{
    if !form.takes_closure() {
        return Ok(None);
    }
    if !has_shape(form, names) {
        return Ok(None);
    }
    let bound = bind_to(alloc, collection_parameters(form), args);
    if takes(form, args, bound)? {
        return Ok(Some(form));
    }
    Ok(None)
}

// Whether a form takes arguments that were bound so. `Memory`: to bind them wanted memory.
fn takes(form: CallForm, args: &Args, bound: Result<Bound, BindFault>) -> Result<bool, Memory>
    requires bound { IsBound (binding (collection_parameters form) (keywords_of (args_of args.now))) bound }
    ensures takes { IfOk result
        (λ takes. bound_iteration form (binding (collection_parameters form) (keywords_of (args_of args.now))) ≡
        (if takes then iteration form else nothing_called)) }
    ensures want { IsErr result → bound ≡ Err BindFault.Memory }
{
    match bound {
        Ok(_bound) => Ok(true),
        Err(BindFault::Memory) => Err(Memory),
        Err(BindFault::Number) | Err(BindFault::Unknown(_)) | Err(BindFault::Missing(_)) => {
            Ok(false)
        }
    }
}

/// What a name that is neither `del` nor `exists` calls, with such arguments. `Memory`: want of
/// memory.
pub(crate) fn function_callee(alloc: Global, name: &str, args: &Args) -> Result<Callee, Memory>
    ensures { IfOk result (IsFunctionCallee (function_named name.now) (args_of args.now)) }
{
    functions_are_found();
    match lookup(name) {
        Some(function) => bound_function(function, args, bind(alloc, function, args)),
        None => Ok(Callee::Nothing),
    }
}

// A function whose arguments were bound so; nothing where they aren't, or where it doesn't take
// them as they are written. `Memory`: to bind them wanted memory.
fn bound_function(
    function: Fun,
    args: &Args,
    bound: Result<Bound, BindFault>,
) -> Result<Callee, Memory>
    requires bound { IsBound (binding (row_of function).parameters (keywords_of (args_of args.now))) bound }
    ensures callee { IfOk result (IsFunctionCallee (Some function) (args_of args.now)) }
    ensures want { IsErr result → bound ≡ Err BindFault.Memory }
{
    match bound {
        Ok(bound) => Ok(written_function(function, args, bound.into_vec())),
        Err(BindFault::Memory) => Err(Memory),
        Err(BindFault::Number) | Err(BindFault::Unknown(_)) | Err(BindFault::Missing(_)) => {
            Ok(Callee::Nothing)
        }
    }
}

// The function with arguments at these places, where they are written as it wants them; else
// nothing.
fn written_function(function: Fun, args: &Args, places: Vec<Option<usize>>) -> Callee
    ensures { IsWrittenCallee function (args_of args.now) places.items result }
{
    if are_written_right(function, args.as_slice(), &places) {
        Callee::Function(function, places)
    } else {
        Callee::Nothing
    }
}

// Whether each parameter that wants a literal, and has an argument, has one that the function
// allows.
fn are_written_right(function: Fun, args: &[Arg], places: &[Option<usize>]) -> bool
    ensures { result ≡ are_right (row_of function).accepts 0 (row_of function).parameters
        (map (written_at (values_of (args_view args.now))) places.now) }
{
    let mut place = 0;
    let mut left = parameters(function);
    let mut bound = places;
    while let Some((parameter, others)) = left.split_first() {
        let Some((argument, rest)) = bound.split_first() else {
            return true;
        };
        if !is_written_right(function, parameter, place, args, *argument) {
            return false;
        }
        place += 1;
        left = others;
        bound = rest;
    }
    true
}

// Whether the argument of the parameter at a place is a literal that the function allows, where the
// parameter wants one and has an argument.
fn is_written_right(
    function: Fun,
    parameter: &Parameter,
    place: usize,
    args: &[Arg],
    argument: Option<usize>,
) -> bool
    ensures { result ≡ is_right (parameter_row parameter.now) ((row_of function).accepts place)
        (written_at (values_of (args_view args.now)) argument) }
{
    if !parameter.literal {
        return true;
    }
    match argument_at(args, argument) {
        Some(value) => is_allowed_literal(function, place, value),
        None => true,
    }
}

// Whether an expression is a literal that a function allows for the parameter at a place.
fn is_allowed_literal(function: Fun, place: usize, value: &Expr) -> bool
    ensures { result ≡ option_map_or ((row_of function).accepts place) (literal_of (expr_of value.now)) false }
{
    match value.as_literal() {
        Some(literal) => function.accepts(place, literal),
        None => false,
    }
}

// The argument that is written at a place.
fn argument_at(args: &[Arg], place: Option<usize>) -> Option<&Expr>
    ensures { option_map (λ value. expr_of value.now) result ≡ written_at (values_of (args_view args.now)) place }
{
    let place = place?;
    let arg = args.get(place)?;
    Some(&arg.value)
}

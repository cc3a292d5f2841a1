// Whether a call may be made: a function's contract asks it of its callers, and the rows here are
// only known when they run.
ghost use Rattle.std.specs.Prelude.{map, option_map, IsTrue, ℕ, Bool};
ghost use Rattle.vrl_builtin.specs.Conditions.{AreArgumentsFrom, AreGivenFrom, IsArgument, IsGiven};
ghost use Rattle.vrl_builtin.specs.View.{arguments_of, givens_of, parameter_row};
ghost use Rattle.vrl_value.specs.Tree.{Tree};
ghost use Rattle.vrl_value.specs.View.{tree_of};

use vrl_builtin::{Arguments, Givens, Parameter};
use vrl_kind::Kind;
use vrl_value::Value;

// Whether the parameter, one that wants no literal, takes this argument, or none.
fn is_argument(parameter: &Parameter, argument: Option<&Value>) -> bool
    ensures { IsTrue result → (accepts : Tree → Bool)
        → IsArgument (parameter_row parameter.now) accepts (option_map (λ value. tree_of value.now) argument.entry) }
{
    if parameter.literal {
        return false;
    }
    match argument {
        Some(value) => parameter.allowed.contains(value.tag()),
        None => !parameter.required,
    }
}

// Whether each parameter takes its argument, and wants no literal.
pub(crate) fn are_arguments(parameters: &[Parameter], arguments: &Arguments<'_>) -> bool
    ensures { IsTrue result → (accepts : ℕ → Tree → Bool)
        → AreArgumentsFrom 0 (map parameter_row parameters.now) accepts (arguments_of arguments.now) }
{
    let mut place = 0;
    let mut left = parameters;
    while let Some((parameter, others)) = left.split_first() {
        if !is_argument(parameter, arguments.get(place)) {
            return false;
        }
        place += 1;
        left = others;
    }
    true
}

// Whether the parameter, one that wants no literal, may be given an argument of this kind, or none.
fn is_given(parameter: &Parameter, kind: Option<&Kind>) -> bool
    ensures { IsTrue result → (accepts : Tree → Bool) (literal : _)
        → IsGiven (parameter_row parameter.now) accepts (option_map (λ kind. kind.now) kind.entry) literal }
{
    if parameter.literal {
        return false;
    }
    match kind {
        Some(_) => true,
        None => !parameter.required,
    }
}

// Whether each required parameter is given an argument, and none wants a literal.
pub(crate) fn are_given(parameters: &[Parameter], given: &Givens) -> bool
    ensures { IsTrue result → (accepts : ℕ → Tree → Bool)
        → AreGivenFrom 0 (map parameter_row parameters.now) accepts (givens_of given.now) }
{
    let mut place = 0;
    let mut left = parameters;
    while let Some((parameter, others)) = left.split_first() {
        if !is_given(parameter, given.kind(place)) {
            return false;
        }
        place += 1;
        left = others;
    }
    true
}

ghost use Rattle.std.specs.Prelude.{◌≡◌, map, length, IfOk, IsTrue};
ghost use Rattle.vrl_kind.specs.Kinds.{tags_at};
ghost use Rattle.vrl_kind.specs.Sets.{SameSets};
ghost use Rattle.vrl_builtin.specs.Conditions.{arguments_below, first_wrong, literals_below, AreArguments, AreGiven};
ghost use Rattle.vrl_builtin.specs.View.{arguments_of, givens_of, parameter_row, setting_of, Applies};
ghost use Rattle.vrl_binding.specs.Binding.{binding, keywords_of, IsBound};
ghost use Rattle.vrl_syntax.specs.View.{args_of};
ghost use Rattle.vrl_table.specs.Table.{row_of, uses_memory, FunctionsKeepLaw};

use crate::function::Fun;
use std::alloc::Global;
use vrl_binding::{BindFault, Bound, bind_to};
use vrl_builtin::{Applied, Arguments, Builtin, Givens, Parameter, Setting};
use vrl_kind::Kind;
use vrl_pattern::Patterns;
use vrl_syntax::Args;
use vrl_value::Memory;

/// The parameters of a function, in order.
pub fn parameters(function: Fun) -> &'static [Parameter]
    ensures { map parameter_row result.now ≡ (row_of function).parameters }
{
    function.parameters()
}

/// Binds the arguments of a call to the parameters of its function, as [`bind_to`] does.
pub fn bind(alloc: Global, function: Fun, arguments: &Args) -> Result<Bound, BindFault>
    ensures { IsBound (binding (row_of function).parameters (keywords_of (args_of arguments.now))) result }
{
    bind_to(alloc, function.parameters(), arguments)
}

/// The place of the first parameter that wants a literal and was given one that the function
/// doesn't allow. `None`: there is no such parameter.
pub fn wrong_literal(function: Fun, given: &Givens) -> Option<usize>
    ensures { result ≡ first_wrong (row_of function) (givens_of given.now) }
{
    function.wrong_literal(given)
}

/// The kind of the result of a call with such arguments. The conditions are those of
/// [`Builtin::result_kind`]. `Memory`: want of memory.
pub fn result_kind(
    alloc: Global,
    function: Fun,
    given: &Givens,
    patterns: &Patterns,
) -> Result<Kind, Memory>
    requires given { AreGiven (row_of function) (givens_of given.now) }
    requires regexes { IsTrue (literals_below (length patterns.now) (givens_of given.now)) }
    ensures { IfOk result
        (λ kind. SameSets (tags_at kind) ((row_of function).kind (givens_of given.now) patterns.now)) }
{
    function.result_kind(alloc, given, patterns)
}

/// Whether a call with such arguments may fail though they are allowed. The condition is that of
/// [`Builtin::may_fail`].
pub fn may_fail(function: Fun, given: &Givens) -> bool
    requires { AreGiven (row_of function) (givens_of given.now) }
    ensures { result ≡ (row_of function).may_fail (givens_of given.now) }
{
    function.may_fail(given)
}

/// Calls a function. The conditions are those of [`Builtin::apply`], and so is what `Memory` says.
pub fn apply(
    alloc: Global,
    function: Fun,
    arguments: &Arguments<'_>,
    setting: &Setting<'_, '_>,
) -> Applied
    requires arguments { AreArguments (row_of function) (arguments_of arguments.now) }
    requires regexes { IsTrue (arguments_below (length setting.now.searches.now) (arguments_of arguments.now)) }
    ensures { Applies (uses_memory function (arguments_of arguments.now))
        ((row_of function).means (arguments_of arguments.now) (setting_of setting.now)) result }
{
    function.apply(alloc, arguments, setting)
}

/// What a call answers is what was known of it before, for each function. This takes no time: it is
/// a law about the definitions.
pub fn functions_keep_law()
    ensures { FunctionsKeepLaw }
{}

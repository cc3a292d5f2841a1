ghost use Rattle.std.specs.Prelude.{[], false, length, map, option_map, true, ◌≡◌, IfOk, IfSome, IsTrue, List, OnOk, Option, Some, ℕ};
ghost use Rattle.vrl_builtin.specs.Conditions.{below_if, literals_below, AreGiven};
ghost use Rattle.vrl_builtin.specs.View.{given_tree, givens_of as trees_of_givens, parameter_row};
ghost use Rattle.vrl_check.specs.Calling.{call_args, call_bang, call_closure, call_name, written, AreTold, HasCodes, IsAnsweredAs, IsBoundCallAs, IsDeletedAs, IsFound, IsNamed, MayBeAsked};
ghost use Rattle.vrl_check.specs.Judgement.{bound as bound_at, deleted_kind, deleted_path, some_has_others as some_have_others, AreAskedAbout, IsAnswered, IsDeletedAt, IsAskedAbout};
ghost use Rattle.vrl_check.specs.Walking.{FormCanBeJudged};
ghost use Rattle.vrl_diag.specs.declared.diagnostic.Span.{Span as SpecSpan};
ghost use Rattle.vrl_judge.specs.Calling.{part_of};
ghost use Rattle.vrl_judge.specs.Judging.{AreEnds, IsMoved};
ghost use Rattle.vrl_judge.specs.Rules.{Argument as JudgedArgument, IsScalar};
ghost use Rattle.vrl_state.specs.States.{IsCutOf, IsRootKind};
ghost use Rattle.vrl_syntax.specs.Calls.{literal_of};
ghost use Rattle.vrl_syntax.specs.Limits.{args_faults};
ghost use Rattle.vrl_syntax.specs.Regexes.{args_regexes_below, expr_regexes_below};
ghost use Rattle.vrl_syntax.specs.View.{args_of, args_view, call_of, expr_of};
ghost use Rattle.vrl_table.specs.Table.{row_of};
ghost use Rattle.vrl_value.specs.View.{tree_of};
ghost use Rattle.vrl_value.specs.declared.value.Tag.TheVariants as tags;

use crate::calls::{Arguments, Callee, argument_at};
use std::alloc::Global;
use vrl_binding::Bound;
use vrl_builtin::{Given, Givens, Parameter, cut_down};
use vrl_judge::{Argument, Checker, Finding, SharedKind, cut, either_of, part_has_others, scalar};
use vrl_kind::kind_is_canonical;
use vrl_pattern::Patterns;
use vrl_syntax::{Arg, Args, Call, Expr};
use vrl_table::{Fun, functions_keep_law, may_fail, parameters, result_kind};
use vrl_value::{Memory, Tag, Value};

// What a function says of its result before it is called.
#[derive(Drop)]
struct Answer {
    kind: SharedKind,
    // The call may end with an error.
    fails: bool,
}

// What is called gives, behind the call's own codes, but for its `!`. `Memory`: want of memory.
pub(crate) fn answer_call(
    checker: &mut Checker<'_>,
    callee: Callee,
    call: &Call,
    bound: &Bound,
    arguments: Arguments,
) -> Result<Finding, Memory>
    requires name { IsNamed (call_name call.now) callee }
    requires form { FormCanBeJudged checker.old.patterns.now (call_of call.now) }
    requires codes { HasCodes callee (call_args call.now) (call_closure call.now) arguments bound.now }
    requires ends { AreEnds checker.old.state.scopes arguments.ends }
    ensures { IfOk result
        (λ finding. (span : SpecSpan)
        → IsBoundCallAs callee span (call_of call.now) (call_bang call.now) (call_args call.now)
        (call_closure call.now) arguments checker.old checker.new finding) }
{
    match callee {
        Callee::Function(function) => answered(checker, function, &call.args, bound, arguments),
        Callee::Deletion => deleted(checker, &call.args, arguments),
        Callee::Existence => existing(checker, arguments),
        Callee::Iteration(_) => unreachable!(),
    }
}

// What a function answers to arguments without code, whose places these are: it may fail, or the
// kind of one may not be within its parameter's. `Memory`: want of memory.
fn answered(
    checker: &mut Checker<'_>,
    function: Fun,
    args: &Args,
    bound: &Bound,
    arguments: Arguments,
) -> Result<Finding, Memory>
    requires asked { arguments.ends.poisoned ≡ false
        → MayBeAsked (row_of function) (args_of args.now) arguments.parts.items bound.now }
    requires regexes { args_regexes_below (length checker.old.patterns.now) (args_of args.now) ≡ true }
    requires ends { AreEnds checker.old.state.scopes arguments.ends }
    ensures answered { IfOk result
        (λ finding. (js : List JudgedArgument) → AreTold (args_of args.now) arguments.parts.items js
        → IsAnsweredAs function (bound_at bound.now js) arguments.ends checker.old finding) }
    ensures checker { checker.new ≡ checker.old }
{
    let Arguments { parts, mut ends } = arguments;
    if ends.poisoned {
        let kind = SharedKind::any(checker.alloc)?;
        return Ok(Finding { kind, ends });
    }
    let Answer { kind, fails } = ask(
        checker.alloc,
        function,
        bound.as_slice(),
        args.as_slice(),
        &parts,
        checker.patterns,
    )?;
    checker.fail_if(&mut ends, fails)?;
    Ok(Finding { kind, ends })
}

// `del`, behind its argument: what stands at the path is taken out.
fn deleted(checker: &mut Checker<'_>, args: &Args, arguments: Arguments) -> Result<Finding, Memory>
    requires { args_faults true (args_of args.now) ≡ [] }
    ensures { IfOk result (λ finding. (js : List JudgedArgument) → AreTold (args_of args.now) arguments.parts.items js
        → IsDeletedAs js arguments.ends checker.old checker.new finding) }
{
    let Arguments { parts, ends } = arguments;
    if ends.poisoned {
        let kind = SharedKind::any(checker.alloc)?;
        return Ok(Finding { kind, ends });
    }
    take_out_at(checker, args.as_slice())?;
    let kind = only_kind(checker.alloc, parts)?;
    Ok(Finding { kind, ends })
}

// Takes out what stands at the one argument, if it is a path. `Memory`: want of memory.
fn take_out_at(checker: &mut Checker<'_>, args: &[Arg]) -> Result<(), Memory>
    requires { args_faults true (args_view args.now) ≡ [] }
    ensures known { OnOk result
        ((js : List JudgedArgument) → written (args_view args.now) ≡ map (λ g. (g.span, g.value)) js
        → IsDeletedAt (deleted_path false js) checker.old.state.known checker.new.state.known) }
    ensures others { IsMoved checker.old checker.new }
{
    let Some((arg, others)) = args.split_first() else {
        return Ok(());
    };
    if !others.is_empty() {
        return Ok(());
    }
    match arg.value.as_path() {
        Some((root, path)) => checker.take_out(root, path),
        None => Ok(()),
    }
}

// `exists`, behind its argument.
fn existing(checker: &Checker<'_>, arguments: Arguments) -> Result<Finding, Memory>
    ensures kind { IfOk result (λ finding. IsScalar tags.Bool finding.kind) }
    ensures ends { IfOk result (λ finding. finding.ends ≡ arguments.ends) }
{
    let ends = arguments.ends;
    let kind = scalar(checker.alloc, Tag::Bool)?;
    Ok(Finding { kind, ends })
}

// The kind of the one argument; any where there is another number. `Memory`: want of memory.
pub(crate) fn only_kind(alloc: Global, parts: Vec<Argument>) -> Result<SharedKind, Memory>
    ensures { IfOk result
        (λ kind. (js : List JudgedArgument) → parts.items ≡ map part_of js → kind ≡ deleted_kind false js) }
{
    let mut parts = parts;
    let Some(part) = parts.pop() else {
        return SharedKind::any(alloc);
    };
    if !parts.is_empty() {
        return SharedKind::any(alloc);
    }
    Ok(part.kind)
}

// Whether the kind of some argument isn't within its parameter's.
fn some_has_others(parameters: &[Parameter], places: &[Option<usize>], parts: &[Argument]) -> bool
    ensures { (js : List JudgedArgument) → parts.now ≡ map part_of js
        → result ≡ some_have_others (map parameter_row parameters.now) (bound_at places.now js) }
{
    let mut left = parameters;
    let mut bound = places;
    while let Some((parameter, others)) = left.split_first() {
        let Some((place, rest)) = bound.split_first() else {
            return false;
        };
        if part_has_others(parameter, *place, parts) {
            return true;
        }
        left = others;
        bound = rest;
    }
    false
}

// What a function is asked about: of each argument its kind, cut down to the tags that its
// parameter allows, and its value where it is written as a literal. `Memory`: want of memory.
fn givens_of(
    alloc: Global,
    parameters: &[Parameter],
    places: &[Option<usize>],
    args: &[Arg],
    parts: &[Argument],
) -> Result<Givens, Memory>
    ensures given { IfOk result (λ givens. (js : List JudgedArgument) → AreTold (args_view args.now) parts.now js
        → AreAskedAbout (map parameter_row parameters.now) (bound_at places.now js) (trees_of_givens givens)) }
    ensures regexes { IfOk result
        (λ givens. (count : ℕ) → args_regexes_below count (args_view args.now) ≡ true
        → literals_below count (trees_of_givens givens) ≡ true) }
{
    let mut givens = Vec::with_capacity(alloc, parameters.len())?;
    let mut left = parameters;
    let mut bound = places;
    while let Some((parameter, others)) = left.split_first() {
        let Some((place, rest)) = bound.split_first() else {
            return Ok(Givens::new(givens));
        };
        let given = given_of(alloc, parameter, argument_at(args, parts, *place))?;
        givens.push(given)?;
        left = others;
        bound = rest;
    }
    Ok(Givens::new(givens))
}

// The same of one argument.
fn given_of(
    alloc: Global,
    parameter: &Parameter,
    argument: Option<(&Arg, &Argument)>,
) -> Result<Given, Memory>
    ensures given { IfOk result
        (λ given. (g : Option JudgedArgument) → IsFound g (option_map (λ f. (f.0.now, f.1.now)) argument.entry)
        → IsAskedAbout (parameter_row parameter.now) g (given_tree given)) }
    ensures regexes { IfOk result
        (λ given. (count : ℕ) → IfSome argument.entry (λ f. expr_regexes_below count (expr_of f.0.now.value) ≡ true)
        → below_if count (given_tree given).literal ≡ true) }
{
    let Some((arg, part)) = argument else {
        return Ok(Given {
            kind: None,
            literal: None,
        });
    };
    let kind = cut_down(alloc, part.kind.as_kind(), &parameter.allowed)?;
    kind_is_canonical(&kind);
    let literal = copy_literal(alloc, &arg.value)?;
    Ok(Given {
        kind: Some(kind),
        literal,
    })
}

// A copy of the value of a literal that isn't in parentheses. `Memory`: want of memory.
fn copy_literal(alloc: Global, value: &Expr) -> Result<Option<Value>, Memory>
    ensures { IfOk result (λ copy. option_map tree_of copy ≡ literal_of (expr_of value.now)) }
{
    match value.as_literal() {
        Some(value) => Ok(Some(value.copy(alloc)?)),
        None => Ok(None),
    }
}

// Asks a function about arguments without code, whose places these are. `Memory`: want of memory.
fn ask(
    alloc: Global,
    function: Fun,
    places: &[Option<usize>],
    args: &[Arg],
    parts: &[Argument],
    patterns: &Patterns,
) -> Result<Answer, Memory>
    requires asked { MayBeAsked (row_of function) (args_view args.now) parts.now places.now }
    requires regexes { args_regexes_below (length patterns.now) (args_view args.now) ≡ true }
    ensures answered { IfOk result (λ answer. (js : List JudgedArgument) → AreTold (args_view args.now) parts.now js
        → IsAnswered patterns.now (row_of function) (bound_at places.now js) answer.kind answer.fails) }
    ensures root { IfOk result (λ answer. IsRootKind answer.kind) }
{
    let parameters = parameters(function);
    let others = some_has_others(parameters, places, parts);
    let givens = givens_of(alloc, parameters, places, args, parts)?;
    let fails = either_of(others, may_fail(function, &givens));
    let kind = answer_kind(alloc, function, &givens, patterns)?;
    Ok(Answer { kind, fails })
}

// The kind of what a function answers, cut. `Memory`: want of memory.
fn answer_kind(
    alloc: Global,
    function: Fun,
    givens: &Givens,
    patterns: &Patterns,
) -> Result<SharedKind, Memory>
    requires given { AreGiven (row_of function) (trees_of_givens givens.now) }
    requires regexes { IsTrue (literals_below (length patterns.now) (trees_of_givens givens.now)) }
    ensures kind { IfOk result (IsCutOf ((row_of function).kind (trees_of_givens givens.now) patterns.now)) }
    ensures root { IfOk result IsRootKind }
{
    functions_keep_law();
    let whole = result_kind(alloc, function, givens, patterns)?;
    kind_is_canonical(&whole);
    cut(alloc, whole)
}

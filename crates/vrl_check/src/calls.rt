ghost use Rattle.std.specs.Option.{option_map_or};
ghost use Rattle.std.specs.Prelude.{[], false, is_some, map, nat_lt, not, option_map, slice_get, true, ◌++◌, ◌≡◌, ◌≢◌, IfOk, IfSome, IsSomeAnd, List, MatchOption, OnOk, Option, Some, ℕ};
ghost use Rattle.vrl_builtin.specs.Rows.{literal_at};
ghost use Rattle.vrl_builtin.specs.View.{givens_of as trees_of_givens, parameter_row};
ghost use Rattle.std.specs.List.{list_any};
ghost use Rattle.vrl_check.specs.Calling.{alone_at, call_args, call_bang, call_closure, call_name, callee_closure, callee_codes, callee_parameters, callee_wants, of_code, written, AreTold, IsCalledAs, IsFound, IsNamed, IsPassedCallAs, IsTold, IsUnknown};
ghost use Rattle.vrl_check.specs.Judgement.{bound as bound_at, of_argument, of_arguments, of_closure_call, of_fault, of_found, passing_closure, places_in};
ghost use Rattle.vrl_check.specs.Walking.{nulls, FormCanBeJudged};
ghost use Rattle.vrl_diag.specs.declared.diagnostic.Span.{Span as SpecSpan};
ghost use Rattle.vrl_judge.specs.declared.checker.Checker.{Checker as SpecChecker};
ghost use Rattle.vrl_judge.specs.Calling.{part_of};
ghost use Rattle.vrl_judge.specs.Closures.{of_wanted_closure};
ghost use Rattle.vrl_judge.specs.Judging.{AreEnds, HasEnds, HasGathered, HasJudged, IsReported};
ghost use Rattle.vrl_judge.specs.Rules.{argument_at as argument_of, at, banged as banged_as, when, Argument as JudgedArgument, Judgement};
ghost use Rattle.vrl_kind.specs.Canonical.{any_kind};
ghost use Rattle.vrl_syntax.specs.Calls.{literal_of, path_of, takes_closure};
ghost use Rattle.vrl_syntax.specs.ErrorAssignments.{in_closure};
ghost use Rattle.vrl_syntax.specs.Regexes.{args_regexes_below, expr_regexes_below};
ghost use Rattle.vrl_syntax.specs.View.{args_of, args_view, call_of, closure_in, closure_of, expr_of};
ghost use Rattle.vrl_binding.specs.Binding.{binding, keywords_of};
ghost use Rattle.vrl_table.specs.Table.{row_of};
ghost use Rattle.vrl_value.specs.View.{tree_of};
ghost use Rattle.vrl_binding.specs.declared.binding.BindFault.TheVariants as faults;

use crate::answers::answer_call;
use crate::passing::pass_closure;
use std::alloc::Global;
use vrl_binding::{BindFault, Bound, bind_to, collection_parameters};
use vrl_builtin::{Given, Givens, Parameter, Tags};
use vrl_diag::{Span, code};
use vrl_judge::{Argument, Checker, Ends, Finding, SharedKind, is_disjoint};
use vrl_syntax::{Arg, Args, Call, CallForm, Closure, Expr, has_shape};
use vrl_table::{Fun, lookup, parameters, wrong_literal};
use vrl_value::{Memory, Value};

// What a call names.
#[derive(Clone, Copy)]
pub(crate) enum Callee {
    // A function of the table.
    Function(Fun),
    // `del`
    Deletion,
    // `exists`
    Existence,
    // A function that takes a closure.
    Iteration(CallForm),
}

// The arguments of a call that were judged in order.
#[derive(Drop)]
pub(crate) struct Arguments {
    pub(crate) parts: Vec<Argument>,
    pub(crate) ends: Ends,
}

// The parameter of `del` and of `exists`.
const PATH_PARAMETERS: [Parameter; 1] = [Parameter {
    name: "value",
    allowed: Tags::ALL,
    required: true,
    literal: false,
}];

impl Callee {
    // What a name calls, but for the functions that take a closure. None: nothing has it.
    fn of(name: &str) -> Option<Callee>
        ensures { MatchOption result (IsUnknown name.now) (IsNamed name.now) }
    {
        match CallForm::named(name) {
            Some(CallForm::Del) => Some(Callee::Deletion),
            Some(CallForm::Exists) => Some(Callee::Existence),
            _ => match lookup(name) {
                Some(function) => Some(Callee::Function(function)),
                None => None,
            },
        }
    }

    fn parameters(self) -> &'static [Parameter]
        ensures { map parameter_row result.now ≡ callee_parameters self }
    {
        match self {
            Callee::Function(function) => parameters(function),
            Callee::Deletion | Callee::Existence => &PATH_PARAMETERS,
            Callee::Iteration(form) => collection_parameters(form),
        }
    }

    // Whether a call has a closure that isn't wanted, or none that is: 1010.
    fn is_wrong_closure(self, closure: &Option<Closure>) -> bool
        ensures { (span : SpecSpan)
            → when result (at 1010 span) ≡ callee_closure self span (closure_in (option_map closure_of closure.now)) }
    {
        match self {
            Callee::Function(_) | Callee::Deletion | Callee::Existence => closure.is_some(),
            Callee::Iteration(form) => is_other_closure(form, closure),
        }
    }

    // Whether an argument isn't written as its parameter wants it. `Memory`: want of memory.
    fn is_unwritten(
        self,
        alloc: Global,
        place: usize,
        parameter: &Parameter,
        value: &Expr,
    ) -> Result<bool, Memory>
        requires { slice_get (callee_parameters self) place ≡ Some (parameter_row parameter.now) }
        ensures { IfOk result
            (λ unwritten. unwritten ≡ callee_wants self place (parameter_row parameter.now) (expr_of value.now)) }
    {
        match self {
            Callee::Function(function) => {
                if !parameter.literal {
                    return Ok(false);
                }
                is_no_literal(alloc, function, place, value)
            }
            Callee::Deletion | Callee::Existence => Ok(!is_path(value)),
            Callee::Iteration(_) => Ok(false),
        }
    }

    // The code of an argument. None: it has none. `Memory`: want of memory.
    fn argument_code(
        self,
        alloc: Global,
        place: usize,
        parameter: &Parameter,
        value: &Expr,
        part: &Argument,
    ) -> Result<Option<u16>, Memory>
        requires { slice_get (callee_parameters self) place ≡ Some (parameter_row parameter.now) }
        ensures { IfOk result (λ code. (g : JudgedArgument) → g.value ≡ expr_of value.now → part_of g ≡ part.now
            → of_code code value.now.span ≡ of_argument parameter.now.allowed
            (callee_wants self place (parameter_row parameter.now) g.value) g) }
    {
        if part.fallible {
            return Ok(Some(code::FALLIBLE_ARGUMENT));
        }
        if part.known && is_disjoint(&parameter.allowed, &part.kind) {
            return Ok(Some(code::INVALID_ARGUMENT_TYPE));
        }
        if self.is_unwritten(alloc, place, parameter, value)? {
            return Ok(Some(code::LITERAL_OR_PATH_WANTED));
        }
        Ok(None)
    }
}

// A call of what takes no closure, behind its arguments. Its closure isn't judged. `Memory`: want
// of memory.
pub(crate) fn called(
    checker: &mut Checker<'_>,
    span: Span,
    call: &Call,
    arguments: Arguments,
) -> Result<Finding, Memory>
    requires form { FormCanBeJudged checker.old.patterns.now (call_of call.now) }
    requires name { takes_closure (call_name call.now) ≡ false }
    requires told { IsTold (call_args call.now) arguments.parts.items }
    requires ends { AreEnds checker.old.state.scopes arguments.ends }
    ensures { IfOk result
        (λ finding. IsCalledAs span (call_of call.now) (call_args call.now) arguments checker.old checker.new finding) }
{
    pass_closure(checker, &call.closure)?;
    match Callee::of(call.name.as_str()) {
        Some(callee) => call_of(checker, span, callee, call, arguments),
        None => call_of_nothing(checker, call.name_span, arguments),
    }
}

// The own codes of a call of a function that takes a closure, behind its arguments, and whether it
// has one. `Memory`: want of memory.
pub(crate) fn is_wrong_call(
    checker: &mut Checker<'_>,
    span: Span,
    form: CallForm,
    call: &Call,
    arguments: &mut Arguments,
) -> Result<bool, Memory>
    ensures reported { OnOk result
        ((js : List JudgedArgument) → AreTold (call_args call.now) arguments.old.parts.items js
        → IsReported (of_closure_call form span (call_args call.now)
        (call_closure call.now) js) checker.old checker.new arguments.old.ends arguments.new.ends) }
    ensures wrong { IfOk result
        (λ wrong. (js : List JudgedArgument) → AreTold (call_args call.now) arguments.old.parts.items js
        → wrong ≡ list_any (λ d. true) (of_closure_call form span (call_args call.now) (call_closure call.now) js)) }
    ensures parts { arguments.new.parts ≡ arguments.old.parts }
{
    let count = checker.diagnostics.len();
    let _bound = bound(checker, span, Callee::Iteration(form), call, arguments)?;
    Ok(is_more(count, checker.diagnostics.len()))
}

// Whether the second number is above the first.
fn is_more(before: usize, after: usize) -> bool
    ensures { result ≡ nat_lt before after }
{
    before < after
}

// The same call where it has a code of its own, so its closure isn't judged. `Memory`: want of
// memory.
pub(crate) fn passed_call(
    checker: &mut Checker<'_>,
    span: Span,
    call: &Call,
    arguments: Arguments,
) -> Result<Finding, Memory>
    ensures { IfOk result
        (λ finding. (before : SpecChecker) (j : Judgement) → HasEnds before.state.scopes arguments.ends j
        → HasGathered before checker.old j
        → HasJudged before checker.new finding (banged_as span (call_bang call.now)
        (passing_closure (call_closure call.now) (nulls (in_closure (call_closure call.now)))
        (record j { kind = any_kind })))) }
{
    pass_closure(checker, &call.closure)?;
    let kind = SharedKind::any(checker.alloc)?;
    let ends = arguments.ends;
    checker.banged(span, call.bang, Finding { kind, ends })
}

// Whether a closure isn't one for the function, or there is none.
fn is_other_closure(form: CallForm, closure: &Option<Closure>) -> bool
    ensures { (span : SpecSpan)
        → when result (at 1010 span) ≡ of_wanted_closure form span (closure_in (option_map closure_of closure.now)) }
{
    match closure {
        Some(closure) => !has_shape(form, &closure.names),
        None => true,
    }
}

// A function that there isn't is 105.
fn call_of_nothing(
    checker: &mut Checker<'_>,
    name: Span,
    arguments: Arguments,
) -> Result<Finding, Memory>
    ensures kind { IfOk result (λ finding. finding.kind ≡ any_kind) }
    ensures reported { IfOk result
        (λ finding. IsReported (at 105 name) checker.old checker.new arguments.ends finding.ends) }
{
    let mut ends = arguments.ends;
    checker.report(&mut ends, true, code::UNDEFINED_FUNCTION, name)?;
    let kind = SharedKind::any(checker.alloc)?;
    Ok(Finding { kind, ends })
}

// The same of what there is.
fn call_of(
    checker: &mut Checker<'_>,
    span: Span,
    callee: Callee,
    call: &Call,
    arguments: Arguments,
) -> Result<Finding, Memory>
    requires name { IsNamed (call_name call.now) callee }
    requires form { FormCanBeJudged checker.old.patterns.now (call_of call.now) }
    requires told { IsTold (call_args call.now) arguments.parts.items }
    requires ends { AreEnds checker.old.state.scopes arguments.ends }
    ensures { IfOk result
        (λ finding. IsPassedCallAs span (call_of call.now) (call_args call.now)
        (call_closure call.now) arguments checker.old checker.new finding) }
{
    let mut arguments = arguments;
    let bound = bound(checker, span, callee, call, &mut arguments)?;
    let finding = answer_call(checker, callee, call, &bound, arguments)?;
    checker.banged(span, call.bang, finding)
}

// The places of a call's arguments, none where they aren't bound, with the call's own codes: one
// alone where they aren't, and else those of arguments and closure. `Memory`: want of memory.
fn bound(
    checker: &mut Checker<'_>,
    span: Span,
    callee: Callee,
    call: &Call,
    arguments: &mut Arguments,
) -> Result<Bound, Memory>
    ensures places { IfOk result
        (λ bound. bound ≡ places_in (binding (callee_parameters callee) (keywords_of (call_args call.now)))) }
    ensures reported { OnOk result
        ((js : List JudgedArgument) → AreTold (call_args call.now) arguments.old.parts.items js
        → IsReported (callee_codes callee span (call_args call.now) (call_closure call.now) js)
        checker.old checker.new arguments.old.ends arguments.new.ends) }
    ensures parts { arguments.new.parts ≡ arguments.old.parts }
{
    match bind_to(checker.alloc, callee.parameters(), &call.args) {
        Ok(bound) => {
            bound_codes(checker, span, callee, call, bound.as_slice(), arguments)?;
            Ok(bound)
        }
        Err(fault) => {
            unbound(checker, span, &call.args, fault, &mut arguments.ends)?;
            Ok(Bound::new(Vec::new(checker.alloc)))
        }
    }
}

// The codes of a call whose arguments are bound to these places. `Memory`: want of memory.
fn bound_codes(
    checker: &mut Checker<'_>,
    span: Span,
    callee: Callee,
    call: &Call,
    places: &[Option<usize>],
    arguments: &mut Arguments,
) -> Result<(), Memory>
    ensures reported { OnOk result
        ((js : List JudgedArgument) → AreTold (call_args call.now) arguments.old.parts.items js
        → IsReported (of_arguments (callee_wants callee) 0 (callee_parameters callee)
        (bound_at places.now js) ++ callee_closure callee span (call_closure call.now))
        checker.old checker.new arguments.old.ends arguments.new.ends) }
    ensures parts { arguments.new.parts ≡ arguments.old.parts }
{
    argument_codes(
        checker,
        callee,
        call.args.as_slice(),
        places,
        &arguments.parts,
        &mut arguments.ends,
    )?;
    checker.report(
        &mut arguments.ends,
        callee.is_wrong_closure(&call.closure),
        code::WRONG_CLOSURE,
        span,
    )
}

// The code of a call whose arguments aren't bound. `Memory`: want of memory.
fn unbound(
    checker: &mut Checker<'_>,
    span: Span,
    args: &Args,
    fault: BindFault,
    ends: &mut Ends,
) -> Result<(), Memory>
    ensures fault { OnOk result (fault ≢ faults.Memory) }
    ensures reported { OnOk result
        ((js : List JudgedArgument) → written (args_of args.now) ≡ map (λ g. (g.span, g.value)) js
        → IsReported (of_fault span js fault) checker.old checker.new ends.old ends.new) }
{
    match fault {
        BindFault::Number => checker.report(ends, true, code::WRONG_NUMBER_OF_ARGUMENTS, span),
        BindFault::Unknown(place) => report_unknown(checker, ends, args.as_slice(), place),
        BindFault::Missing(_) => checker.report(ends, true, code::MISSING_ARGUMENT, span),
        BindFault::Memory => Err(Memory),
    }
}

// A keyword that is no parameter's name is 108.
fn report_unknown(
    checker: &mut Checker<'_>,
    ends: &mut Ends,
    args: &[Arg],
    place: usize,
) -> Result<(), Memory>
    ensures { OnOk result
        (IsReported (option_map_or (λ arg. at 108 arg.span) (slice_get args.now place)
        []) checker.old checker.new ends.old ends.new) }
{
    match args.get(place) {
        Some(arg) => checker.report(ends, true, code::UNKNOWN_ARGUMENT_NAME, arg.span),
        None => Ok(()),
    }
}

// The codes of bound arguments, by their parameters. `Memory`: want of memory.
fn argument_codes(
    checker: &mut Checker<'_>,
    callee: Callee,
    args: &[Arg],
    places: &[Option<usize>],
    parts: &[Argument],
    ends: &mut Ends,
) -> Result<(), Memory>
    ensures { OnOk result ((js : List JudgedArgument) → AreTold (args_view args.now) parts.now js
        → IsReported (of_arguments (callee_wants callee) 0 (callee_parameters callee)
        (bound_at places.now js)) checker.old checker.new ends.old ends.new) }
{
    let parameters = callee.parameters();
    let mut place = 0;
    let mut left = parameters;
    let mut bound = places;
    while let Some((parameter, others)) = left.split_first() {
        let Some((argument, rest)) = bound.split_first() else {
            return Ok(());
        };
        let found = argument_at(args, parts, *argument);
        found_code(checker, callee, place, parameter, found, ends)?;
        place += 1;
        left = others;
        bound = rest;
    }
    Ok(())
}

// The code of the argument of a parameter, where there is one. `Memory`: want of memory.
fn found_code(
    checker: &mut Checker<'_>,
    callee: Callee,
    place: usize,
    parameter: &Parameter,
    found: Option<(&Arg, &Argument)>,
    ends: &mut Ends,
) -> Result<(), Memory>
    requires { slice_get (callee_parameters callee) place ≡ Some (parameter_row parameter.now) }
    ensures { OnOk result ((g : Option JudgedArgument) → IsFound g (option_map (λ f. (f.0.now, f.1.now)) found.entry)
        → IsReported (of_found (callee_wants callee) place
        (parameter_row parameter.now) g) checker.old checker.new ends.old ends.new) }
{
    let Some((arg, part)) = found else {
        return Ok(());
    };
    let code = callee.argument_code(checker.alloc, place, parameter, &arg.value, part)?;
    report_code(checker, ends, code, arg.value.span)
}

// A code, if there is one. `Memory`: want of memory.
fn report_code(
    checker: &mut Checker<'_>,
    ends: &mut Ends,
    code: Option<u16>,
    span: Span,
) -> Result<(), Memory>
    ensures { OnOk result (IsReported (of_code code span) checker.old checker.new ends.old ends.new) }
{
    match code {
        Some(code) => checker.report(ends, true, code, span),
        None => Ok(()),
    }
}

// The argument at a place, with what it was judged to be. None: there is none.
pub(crate) fn argument_at<'a>(
    args: &'a [Arg],
    parts: &'a [Argument],
    place: Option<usize>,
) -> Option<(&'a Arg, &'a Argument)>
    ensures found { (js : List JudgedArgument) → AreTold (args_view args.now) parts.now js
        → IsFound (argument_of js place) (option_map (λ f. (f.0.now, f.1.now)) result) }
    ensures regexes { (count : ℕ) → args_regexes_below count (args_view args.now) ≡ true
        → IfSome result (λ f. expr_regexes_below count (expr_of f.0.now.value) ≡ true) }
{
    let place = place?;
    let arg = args.get(place)?;
    let part = parts.get(place)?;
    Some((arg, part))
}

// Whether an expression is a path or a name.
fn is_path(value: &Expr) -> bool
    ensures { result ≡ is_some (path_of (expr_of value.now)) }
{
    value.as_path().is_some()
}

// Whether an argument is no literal, or one that the function doesn't allow at this place, where
// its parameter wants one. `Memory`: want of memory.
fn is_no_literal(alloc: Global, function: Fun, place: usize, value: &Expr) -> Result<bool, Memory>
    ensures { IfOk result (λ wanting. IsSomeAnd (slice_get (row_of function).parameters place) (λ p. p.literal ≡ true)
        → wanting ≡ option_map_or (λ v. not ((row_of function).accepts place v))
        (literal_of (expr_of value.now)) true) }
{
    let Some(value) = value.as_literal() else {
        return Ok(true);
    };
    let alone = given_alone(alloc, place, value)?;
    Ok(wrong_literal(function, &alone).is_some())
}

// A literal at a place, and nothing at those before it. `Memory`: want of memory.
fn given_alone(alloc: Global, place: usize, value: &Value) -> Result<Givens, Memory>
    ensures { IfOk result
        (λ alone. (i : ℕ) → literal_at i (trees_of_givens alone) ≡ alone_at place (tree_of value.now) i) }
{
    let mut givens = Vec::new(alloc);
    for _step in 0..place {
        givens.push(Given {
            kind: None,
            literal: None,
        })?;
    }
    givens.push(Given {
        kind: None,
        literal: Some(value.copy(alloc)?),
    })?;
    Ok(Givens::new(givens))
}

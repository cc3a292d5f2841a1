//! Calls of functions that take a closure, behind their arguments: the runs of its body, and the
//! tries at it.
ghost use Rattle.std.specs.Prelude.{true, ◌≡◌, Bool, IfOk, Some};
ghost use Rattle.vrl_check.specs.Calling.{call_args, call_name, IsCalledAs, IsTold};
ghost use Rattle.vrl_check.specs.Iterating.{body_in, closure_items, closure_names, AreRuns, AreTries, AreTriesBehind, BodyCanBeJudged, IsBodyAs, IsIteratedAs, IsLastTry, IsTriedAs};
ghost use Rattle.vrl_check.specs.Walking.{FormCanBeJudged, ItemsCanBeJudged};
ghost use Rattle.vrl_judge.specs.Closures.{first_try as first};
ghost use Rattle.vrl_judge.specs.Judging.{AreEnds};
ghost use Rattle.vrl_syntax.specs.Calls.{form_named, has_shape, is_closure_form};
ghost use Rattle.vrl_syntax.specs.Written.{exprs_write};
ghost use Rattle.vrl_syntax.specs.View.{call_of};

use crate::calls::{Arguments, is_wrong_call, passed_call};
use crate::iteration::{
    Run, Tried, collection_of, end_try, here, keep_loop, made_of, name_kinds, right_closure,
};
use crate::laws::third_tries_are_stable;
use crate::passing::pass_items;
use crate::walk::block;
use vrl_diag::Span;
use vrl_judge::{Checker, Finding, SharedKind};
use vrl_state::Branch;
use vrl_syntax::{Call, CallForm, Closure, Roots, written_roots};
use vrl_value::Memory;

// A call of a function that takes a closure, behind its arguments. Where it has a code of its own
// the closure isn't judged. `Memory`: want of memory.
#[cycle(judge)]
pub(super) fn closure_call(
    checker: &mut Checker<'_>,
    span: Span,
    form: CallForm,
    call: &Call,
    arguments: Arguments,
) -> Result<Finding, Memory>
    requires form { form_named (call_name call.now) ≡ Some form }
    requires four { is_closure_form (Some form) ≡ true }
    requires can { FormCanBeJudged checker.old.patterns.now (call_of call.now) }
    requires told { IsTold (call_args call.now) arguments.parts.items }
    requires ends { AreEnds checker.old.state.scopes arguments.ends }
    ensures { IfOk result
        (λ finding. IsCalledAs span (call_of call.now) (call_args call.now) arguments checker.old checker.new finding) }
{
    let mut arguments = arguments;
    let wrong = is_wrong_call(checker, span, form, call, &mut arguments)?;
    match right_closure(call, wrong) {
        Some(closure) => {
            let finding = iterated(checker, form, closure, arguments)?;
            checker.banged(span, call.bang, finding)
        }
        None => passed_call(checker, span, call, arguments),
    }
}

// A closure that has the shape which the function asks for, behind the one argument of its call.
// `Memory`: want of memory.
#[cycle(judge)]
fn iterated(
    checker: &mut Checker<'_>,
    form: CallForm,
    closure: &Closure,
    arguments: Arguments,
) -> Result<Finding, Memory>
    requires shape { has_shape form (closure_names closure.now) ≡ true }
    requires items { ItemsCanBeJudged checker.old.patterns.now (closure_items closure.now) }
    requires ends { AreEnds checker.old.state.scopes arguments.ends }
    ensures { IfOk result (λ finding. IsIteratedAs form closure.now arguments checker.old checker.new finding) }
{
    let collection = collection_of(checker, form, arguments)?;
    let names = name_kinds(checker.alloc, form, &collection.kind)?;
    let run = all_runs(checker, form, closure, &names.kinds, names.runs)?;
    made_of(checker, form, closure.span, collection, run)
}

// All runs of the body of a closure, whose names have these kinds, from what is known here. The
// closure stands at this place among those that are judged. `Memory`: want of memory.
#[cycle(judge)]
fn all_runs(
    checker: &mut Checker<'_>,
    form: CallForm,
    closure: &Closure,
    kinds: &[SharedKind],
    runs: bool,
) -> Result<Run, Memory>
    requires { BodyCanBeJudged checker.old.patterns.now closure.now kinds.now }
    ensures { IfOk result (λ run. AreRuns form (body_in closure.now kinds.now runs) checker.old checker.new run) }
{
    let place = checker.loops.len();
    checker.loops.push(None)?;
    let run = first_try(checker, form, closure, kinds, runs)?;
    keep_loop(checker, place)?;
    Ok(run)
}

// The tries at a body, from the first one on; what is known at the last one is known again.
// `Memory`: want of memory.
#[cycle(judge)]
fn first_try(
    checker: &mut Checker<'_>,
    form: CallForm,
    closure: &Closure,
    kinds: &[SharedKind],
    runs: bool,
) -> Result<Run, Memory>
    requires { BodyCanBeJudged checker.old.patterns.now closure.now kinds.now }
    ensures { IfOk result
        (λ run. AreTries form
        (body_in closure.now kinds.now runs) first checker.old.state.known checker.old checker.new run) }
{
    let attempt = one_try(checker, form, closure, kinds, runs)?;
    match attempt {
        Tried::Stable(run) => Ok(run),
        Tried::Unstable(behind) => second_try(checker, form, closure, kinds, runs, behind),
    }
}

// The second one, from what was known at the first or behind it, where each root that the body
// writes keeps its outer tags alone.
#[cycle(judge)]
fn second_try(
    checker: &mut Checker<'_>,
    form: CallForm,
    closure: &Closure,
    kinds: &[SharedKind],
    runs: bool,
    behind: Branch,
) -> Result<Run, Memory>
    requires body { BodyCanBeJudged checker.old.patterns.now closure.now kinds.now }
    requires behind { behind.scopes ≡ checker.old.state.scopes }
    ensures { IfOk result
        (λ run. AreTriesBehind form (body_in closure.now kinds.now runs) behind.known checker.old checker.new run) }
{
    let roots = written_roots(checker.alloc, &closure.body)?;
    checker.widened(behind, &roots)?;
    let attempt = one_try(checker, form, closure, kinds, runs)?;
    match attempt {
        Tried::Stable(run) => Ok(run),
        Tried::Unstable(_behind) => third_try(checker, form, closure, kinds, runs, &roots),
    }
}

// The third one, where of each of these roots nothing is known but that it is there. It always is
// stable.
#[cycle(judge)]
fn third_try(
    checker: &mut Checker<'_>,
    form: CallForm,
    closure: &Closure,
    kinds: &[SharedKind],
    runs: bool,
    roots: &Roots,
) -> Result<Run, Memory>
    requires body { BodyCanBeJudged checker.old.patterns.now closure.now kinds.now }
    requires roots { roots.now ≡ exprs_write (closure_items closure.now) }
    ensures { IfOk result (λ run. IsLastTry form (body_in closure.now kinds.now runs) checker.old checker.new run) }
{
    checker.forgotten(roots)?;
    checker.state.have_root_kinds();
    third_tries_are_stable();
    let attempt = one_try(checker, form, closure, kinds, runs)?;
    match attempt {
        Tried::Stable(run) => Ok(run),
        Tried::Unstable(_behind) => unreachable!(),
    }
}

// One try at a body, from what is known here. Where it isn't stable, what was gathered in it is let
// go. `Memory`: want of memory.
#[cycle(judge)]
fn one_try(
    checker: &mut Checker<'_>,
    form: CallForm,
    closure: &Closure,
    kinds: &[SharedKind],
    runs: bool,
) -> Result<Tried, Memory>
    requires { BodyCanBeJudged checker.old.patterns.now closure.now kinds.now }
    ensures { IfOk result (λ tried. IsTriedAs form (body_in closure.now kinds.now runs) checker.old checker.new tried) }
{
    let held = checker.held();
    let start = here(checker)?;
    checker.go_on_if(runs);
    let part = body(checker, closure, kinds)?;
    Ok(end_try(checker, form, held, start, part))
}

// The body of a closure once, from what is known here. `Memory`: want of memory.
#[cycle(judge)]
fn body(
    checker: &mut Checker<'_>,
    closure: &Closure,
    kinds: &[SharedKind],
) -> Result<Finding, Memory>
    requires { BodyCanBeJudged checker.old.patterns.now closure.now kinds.now }
    ensures { IfOk result
        (λ finding. (runs : Bool) → IsBodyAs (body_in closure.now kinds.now runs) checker.old checker.new finding) }
{
    if checker.state.is_dead() {
        return pass_items(checker, &closure.body);
    }
    let inside = checker.inside;
    checker.inside = true;
    checker.enter_body(&closure.names, kinds)?;
    let part = block(checker, &closure.body)?;
    let finding = checker.end_body(part)?;
    checker.inside = inside;
    Ok(finding)
}

ghost use Rattle.std.specs.Prelude.{false, length, map, true, unwrap_or, ◌≡◌, All, IfOk, None};
ghost use Rattle.vrl_check.specs.Answer.{outside, IsEnding, IsJudged};
ghost use Rattle.vrl_check.specs.Judgement.{IsScriptStart, JudgesScript};
ghost use Rattle.vrl_check.specs.Walking.{ExprCanBeJudged, IsItemAs, IsScriptAs, ItemsCanBeJudged};
ghost use Rattle.vrl_judge.specs.Rules.{Judgement};
ghost use Rattle.vrl_kind.specs.Canonical.{allows_absent};
ghost use Rattle.vrl_state.specs.Known.{known_as, HaveRootKinds};
ghost use Rattle.vrl_state.specs.States.{IsPresent};
ghost use Rattle.vrl_syntax.specs.Limits.{KeepsLimits};
ghost use Rattle.vrl_syntax.specs.Regexes.{exprs_regexes_below};
ghost use Rattle.vrl_syntax.specs.View.{expr_of, exprs_of};
ghost use Rattle.vrl_check.specs.OpenRules.{language_rules};

use crate::judged::{Ending, Judged};
use crate::walk::expr;
use std::alloc::Global;
use vrl_diag::{Diagnostics, code};
use vrl_judge::{Checker, Finding, SharedKind, either, ordered, scalar};
use vrl_kind::{Kind, equal_tags_are_one_kind};
use vrl_path::Path;
use vrl_pattern::Patterns;
use vrl_state::{Branch, Knowns, State, json_object};
use vrl_syntax::{Empties, Expr, Exprs, Root, Script};
use vrl_value::{Memory, Tag};

/// Judges a script over events of a kind. `patterns` are its regex literals, one for each of its
/// sources, and each regex in it is one of them. It walks the script once, but for the bodies of
/// closures: each is walked up to three times for each time that the body around it is. `Memory`:
/// want of memory.
pub fn check(
    alloc: Global,
    script: &Script,
    start: &Kind,
    patterns: &Patterns,
) -> Result<Judged, Memory>
    requires limits { KeepsLimits (exprs_of script.now.items) }
    requires patterns { patterns.now ≡ script.now.patterns }
    requires regexes { exprs_regexes_below (length patterns.now) (exprs_of script.now.items) ≡ true }
    requires present { allows_absent start.now ≡ false }
    ensures { IfOk result
        (λ judged. (j : Judgement) × JudgesScript (language_rules patterns.now) start.now (exprs_of script.now.items) j
        × IsJudged j judged) }
{
    let state = script_start(alloc, start)?;
    let mut checker = Checker {
        alloc,
        patterns,
        state,
        diagnostics: Vec::new(alloc),
        empties: Vec::new(alloc),
        loops: Vec::new(alloc),
        inside: false,
    };
    let finding = script_items(&mut checker, &script.items)?;
    let diagnostics = ordered(checker.diagnostics)?;
    let ok = branch_of(alloc, checker.state)?;
    let (kind, ends) = finding.into_parts();
    let (fail, ret, _) = ends.into_parts();
    let fail = or_dead(alloc, fail)?;
    let kind = kind.into_kind(alloc)?;
    Ok(Judged {
        kind,
        ok,
        fail,
        ret,
        empties: Empties::new(checker.empties),
        loops: Knowns::new(checker.loops),
        diagnostics: Diagnostics::new(diagnostics),
    })
}

// The state that a script is judged from: the event has this kind, and the metadata is an object of
// JSON. `Memory`: want of memory.
fn script_start(alloc: Global, start: &Kind) -> Result<State, Memory>
    requires { IsPresent start.now }
    ensures { IfOk result (λ state. IsScriptStart start.now state) }
{
    equal_tags_are_one_kind();
    let mut state = State::start(alloc, start)?;
    let object = json_object(alloc)?;
    let shared = SharedKind::new(alloc, object)?;
    let root = Root::metadata(alloc)?;
    let whole = Path::new(Vec::new(alloc));
    state.assign(&root, &whole, shared.as_shared())?;
    Ok(state)
}

// Judges the items of a script. `Memory`: want of memory.
fn script_items(checker: &mut Checker<'_>, items: &Exprs) -> Result<Finding, Memory>
    requires items { ItemsCanBeJudged checker.old.patterns.now (exprs_of items.now) }
    requires outside { checker.old.inside ≡ false }
    ensures { IfOk result (λ finding. IsScriptAs (exprs_of items.now) checker.old checker.new finding) }
{
    let mut last = Finding::value(scalar(checker.alloc, Tag::Null)?);
    for item in items.as_slice() {
        let part = script_item(checker, item)?;
        last.go_on(checker.alloc, part)?;
    }
    checker.settled(last)
}

// An item of the script itself that may fail is 100.
fn script_item(checker: &mut Checker<'_>, item: &Expr) -> Result<Finding, Memory>
    requires { ExprCanBeJudged checker.old.patterns.now (expr_of item.now) }
    ensures { IfOk result (λ finding. IsItemAs (expr_of item.now) checker.old checker.new finding) }
{
    let part = expr(checker, item)?;
    let fallible = part.is_fallible();
    checker.reported(part, fallible, code::UNHANDLED_ERROR, item.span)
}

// A dead state, outside all blocks. `Memory`: want of memory.
fn dead(alloc: Global) -> Result<State, Memory>
    ensures { IfOk result (λ state. state ≡ outside None) }
{
    let mut state = State::start(alloc, &Kind::never())?;
    state.kill();
    Ok(state)
}

// The state as a branch. `Memory`: want of memory.
fn branch_of(alloc: Global, state: State) -> Result<Branch, Memory>
    ensures { IfOk result (λ branch. branch ≡ state) }
{
    let mut nothing = dead(alloc)?;
    let mark = nothing.mark()?;
    let mut state = state;
    Ok(state.back(mark))
}

// The branch, or a dead one where there is none. `Memory`: want of memory.
fn or_dead(alloc: Global, branch: Option<Branch>) -> Result<Branch, Memory>
    ensures { IfOk result (λ found. found ≡ unwrap_or branch (outside None)) }
{
    match branch {
        Some(branch) => Ok(branch),
        None => branch_of(alloc, dead(alloc)?),
    }
}

/// The kind of a script's value, from its end or from a return, and what is known there. `Memory`:
/// want of memory.
pub fn ending(alloc: Global, judged: &Judged) -> Result<Ending, Memory>
    requires { (j : Judgement) × IsJudged j judged.now }
    ensures { IfOk result (λ ending. IsEnding judged.now ending) }
{
    let mut state = dead(alloc)?;
    state.join(&judged.ok)?;
    match &judged.ret {
        None => {
            let kind = either(alloc, &judged.kind, &Kind::never())?;
            end(alloc, state, kind)
        }
        Some(ret) => {
            state.join(&ret.state)?;
            let kind = either(alloc, &judged.kind, &ret.kind)?;
            end(alloc, state, kind)
        }
    }
}

fn end(alloc: Global, state: State, kind: SharedKind) -> Result<Ending, Memory>
    ensures same { IfOk result (λ ending. ending ≡ record { kind = kind; state = known_as state.known }) }
    ensures roots { IfOk result (λ ending. HaveRootKinds ending.state) }
{
    let branch = branch_of(alloc, state)?;
    let state = branch.known()?;
    let kind = kind.into_kind(alloc)?;
    Ok(Ending { kind, state })
}

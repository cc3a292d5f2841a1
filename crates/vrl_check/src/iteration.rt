ghost use Rattle.std.specs.Prelude.{[], false, length, option_map, slice_set, true, ◌∷◌, ◌≡◌, ◌⊎◌, ◌<◌, IfOk, MatchOption, None, OnOk, Some};
ghost use Rattle.vrl_check.specs.Iterating.{closure_at, AreNameKinds, IsCollection, IsMadeOf, IsTriedFrom};
ghost use Rattle.vrl_check.specs.Judgement.{IsCutDown};
ghost use Rattle.vrl_judge.specs.Calling.{part_of};
ghost use Rattle.vrl_judge.specs.Judging.{AreEnds, IsWay};
ghost use Rattle.vrl_judge.specs.Rules.{Argument as JudgedArgument};
ghost use Rattle.vrl_kind.specs.KindTree.{KindTree};
ghost use Rattle.vrl_syntax.specs.Calls.{for_names, form_named, is_closure_form, takes_closure};

use crate::answers::only_kind;
use crate::calls::Arguments;
use std::alloc::Global;
use vrl_binding::collections;
use vrl_builtin::{Tags, cut_down};
use vrl_diag::{Span, code};
use vrl_judge::{
    Checker, Ends, Finding, Held, SharedKind, call_kind, has_others, is_possible, key_kind,
    value_kind,
};
use vrl_kind::{Kind, kind_is_canonical};
use vrl_state::Branch;
use vrl_syntax::{Call, CallForm, Closure};
use vrl_value::Memory;

// The collection that a closure is run for.
#[derive(Drop)]
pub(crate) struct Collection {
    // Its kind: the argument's, cut down to the tags that the parameter allows.
    pub(crate) kind: Kind,
    // What is known where the argument has another tag, which is an error. None: it has none.
    pub(crate) fail: Option<Branch>,
    // The ends of the argument.
    pub(crate) ends: Ends,
}

// The kinds that a closure's names are bound to, and whether its body is run at all.
#[derive(Drop)]
pub(crate) struct NameKinds {
    pub(crate) kinds: Vec<SharedKind>,
    pub(crate) runs: bool,
}

// What the body of a closure was judged to be.
#[derive(Drop)]
pub(crate) struct Run {
    pub(crate) finding: Finding,
    // Its kind isn't the one that the function asks for: 1015.
    pub(crate) wrong: bool,
}

// A try at the body of a closure.
#[derive(Drop)]
pub(crate) enum Tried {
    // What is known behind the body is within what is known before it.
    Stable(Run),
    // What is known behind it.
    Unstable(Branch),
}

// The function of this name that takes a closure. None: it is no such name.
pub(crate) fn closure_form(name: &str) -> Option<CallForm>
    ensures { MatchOption result (takes_closure name.now ≡ false)
        (λ form. (form_named name.now ≡ Some form) × (is_closure_form (Some form) ≡ true)) }
{
    match CallForm::named(name) {
        Some(CallForm::ForEach) => Some(CallForm::ForEach),
        Some(CallForm::Filter) => Some(CallForm::Filter),
        Some(CallForm::MapValues) => Some(CallForm::MapValues),
        Some(CallForm::MapKeys) => Some(CallForm::MapKeys),
        Some(CallForm::Del | CallForm::Exists) | None => None,
    }
}

// The closure of a call that has no code of its own. None: the call has one, or no closure.
pub(crate) fn right_closure(call: &Call, wrong: bool) -> Option<&Closure>
    ensures { MatchOption (option_map (λ closure. closure.now) result) ((wrong ≡ true) ⊎ (closure_at call.now ≡ None))
        (λ closure. (wrong ≡ false) × (closure_at call.now ≡ Some closure)) }
{
    if wrong {
        return None;
    }
    match &call.closure {
        Some(closure) => Some(closure),
        None => None,
    }
}

// The collection of a call, behind its one argument. `Memory`: want of memory.
pub(crate) fn collection_of(
    checker: &mut Checker<'_>,
    form: CallForm,
    arguments: Arguments,
) -> Result<Collection, Memory>
    ensures taken { IfOk result
        (λ taken. (g : JudgedArgument) → arguments.parts.items ≡ part_of g ∷ []
        → IsCollection form g.judged.kind checker.old arguments taken) }
    ensures fail { IfOk result (λ taken. IsWay checker.old.state.scopes taken.fail) }
    ensures ends { IfOk result (λ taken. taken.ends ≡ arguments.ends) }
    ensures checker { checker.new ≡ checker.old }
{
    let Arguments { parts, ends } = arguments;
    let whole = only_kind(checker.alloc, parts)?;
    let tags = collections(form);
    let others = has_others(&tags, whole.as_kind());
    let fail = checker.branch_if(others)?;
    let kind = cut_to_tags(checker.alloc, whole.as_kind(), &tags)?;
    Ok(Collection { kind, fail, ends })
}

// The kind without the tags at its root that aren't among these. `Memory`: want of memory.
fn cut_to_tags(alloc: Global, kind: &Kind, tags: &Tags) -> Result<Kind, Memory>
    ensures { IfOk result (λ lower. IsCutDown tags.now kind.now lower) }
{
    let lower = cut_down(alloc, kind, tags)?;
    kind_is_canonical(&lower);
    Ok(lower)
}

// The kinds of the names of a closure that is run for a collection of this kind, and whether it is
// run at all. `Memory`: want of memory.
pub(crate) fn name_kinds(
    alloc: Global,
    form: CallForm,
    collection: &Kind,
) -> Result<NameKinds, Memory>
    ensures { IfOk result (λ names. AreNameKinds form collection.now names.kinds.items names.runs) }
{
    let key = key_kind(alloc, collection)?;
    let value = value_kind(alloc, collection)?;
    let runs = is_possible(value.as_kind());
    let kinds = for_each_name(alloc, form, key, value)?;
    Ok(NameKinds { kinds, runs })
}

// The kinds of a closure's names, by those of a key and of a value. `Memory`: want of memory.
fn for_each_name(
    alloc: Global,
    form: CallForm,
    key: SharedKind,
    value: SharedKind,
) -> Result<Vec<SharedKind>, Memory>
    ensures { IfOk result (λ kinds. kinds.items ≡ for_names {A = KindTree} form key value) }
{
    match form {
        CallForm::ForEach => two_kinds(alloc, key, value),
        CallForm::Filter => two_kinds(alloc, key, value),
        CallForm::MapValues => one_kind(alloc, value),
        CallForm::MapKeys => one_kind(alloc, key),
        CallForm::Del => Ok(Vec::new(alloc)),
        CallForm::Exists => Ok(Vec::new(alloc)),
    }
}

fn one_kind(alloc: Global, kind: SharedKind) -> Result<Vec<SharedKind>, Memory>
    ensures { IfOk result (λ kinds. kinds.items ≡ kind ∷ []) }
{
    let mut kinds = Vec::new(alloc);
    kinds.push(kind)?;
    Ok(kinds)
}

fn two_kinds(
    alloc: Global,
    first: SharedKind,
    second: SharedKind,
) -> Result<Vec<SharedKind>, Memory>
    ensures { IfOk result (λ kinds. kinds.items ≡ first ∷ second ∷ []) }
{
    let mut kinds = one_kind(alloc, first)?;
    kinds.push(second)?;
    Ok(kinds)
}

// What is known here, as a branch; the state stays. `Memory`: want of memory.
pub(crate) fn here(checker: &mut Checker<'_>) -> Result<Branch, Memory>
    ensures branch { IfOk result (λ branch. branch ≡ checker.old.state) }
    ensures checker { checker.new ≡ checker.old }
{
    let copy = checker.state.mark()?;
    Ok(checker.state.back(copy))
}

// A try at a body that was judged last, from a state that was kept. It takes no memory.
pub(crate) fn end_try(
    checker: &mut Checker<'_>,
    form: CallForm,
    held: Held,
    start: Branch,
    part: Finding,
) -> Tried
    requires { start.scopes ≡ checker.old.state.scopes }
    ensures { IsTriedFrom form held start part checker.old checker.new result }
{
    let wrong = checker.is_wrong_body(form, &part);
    let stable = checker.state.within(&start);
    let behind = checker.state.back(start.into_mark());
    if stable {
        return Tried::Stable(Run {
            finding: part,
            wrong,
        });
    }
    checker.take_back(held);
    Tried::Unstable(behind)
}

// What is known here stands at this place among the closures. `Memory`: want of memory.
pub(crate) fn keep_loop(checker: &mut Checker<'_>, place: usize) -> Result<(), Memory>
    requires { place < length checker.old.loops.items }
    ensures loops { OnOk result
        (checker.new.loops.items ≡ slice_set checker.old.loops.items place (Some checker.old.state)) }
    ensures others { OnOk result (checker.new ≡ record checker.old { loops = checker.new.loops }) }
{
    let known = here(checker)?;
    checker.loops[place] = Some(known);
    Ok(())
}

// What a call gives behind the runs of its closure, but for its `!`: an error where the argument
// has another tag, and 1015 of a body of a wrong kind. `Memory`: want of memory.
pub(crate) fn made_of(
    checker: &mut Checker<'_>,
    form: CallForm,
    block: Span,
    collection: Collection,
    run: Run,
) -> Result<Finding, Memory>
    requires ends { AreEnds checker.old.state.scopes collection.ends }
    requires fail { IsWay checker.old.state.scopes collection.fail }
    requires run { AreEnds checker.old.state.scopes run.finding.ends }
    ensures { IfOk result (λ finding. IsMadeOf form block collection run checker.old checker.new finding) }
{
    let Collection {
        kind,
        fail,
        mut ends,
    } = collection;
    let Run { finding, wrong } = run;
    let kind = call_kind(checker.alloc, form, &kind, finding.kind.as_kind())?;
    let _body = ends.absorb(checker.alloc, finding)?;
    ends.add_fail(fail)?;
    checker.report(&mut ends, wrong, code::WRONG_CLOSURE_RESULT, block)?;
    Ok(Finding { kind, ends })
}

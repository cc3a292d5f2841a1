ghost use Rattle.std.specs.Prelude.{[], not, ◌≡◌, IfOk, IfSome, None, OnOk, Some};
ghost use Rattle.vrl_judge.specs.Branching.{no_ways, AreBothSides, AreWays, IsAborted, IsBlockBeside, IsConjoined, IsLastBeside, IsLeftSide, IsOrFail, IsPredicateBeside, IsReturned, StandsIn};
ghost use Rattle.vrl_judge.specs.Judging.{known_on, AreEnds, IsMoved, IsReported};
ghost use Rattle.vrl_judge.specs.Rules.{if_state, is_message_wrong, may_be_no_truth as may_be_another, may_be_truth as may_be_true, of_message, of_predicate, or_else_at};
ghost use Rattle.vrl_judge.specs.Seen.{seen};
ghost use Rattle.vrl_kind.specs.Kinds.{root_tags};
ghost use Rattle.vrl_place.specs.Sets.{is_alone};
ghost use Rattle.vrl_state.specs.States.{IsCutOf, IsEither, IsJoined, IsRootKind};
ghost use Rattle.vrl_value.specs.declared.value.Tag.TheVariants as tags;

use crate::checker::Checker;
use crate::ends::{Ends, add_way};
use crate::finding::Finding;
use crate::kinds::{either, is_exactly, may_be_no_truth, may_be_truth, scalar, widen};
use crate::shared_kind::SharedKind;
use std::alloc::Global;
use vrl_diag::{Span, code};
use vrl_kind::{has, without};
use vrl_state::{Branch, Mark};
use vrl_value::{Memory, Tag};

/// The left side of a `&&`, a `||` or a `??`, behind which the right one is judged.
pub struct LeftSide {
    /// What it was judged to be.
    pub part: Finding,
    /// What is known where the right side is left out. `None`: the whole doesn't end with a value
    /// there.
    pub beside: Option<Mark>,
}

// Written out, so that a left side is let go by one call.
impl Drop for LeftSide {
    fn drop(self) {
        let LeftSide { part: _, beside: _ } = self;
    }
}

/// The ways of an `if` that were judged so far.
pub struct Ways {
    /// The kind of what they give.
    pub kind: SharedKind,
    /// What is known where they end with a value. `None`: none of them does.
    pub ok: Option<Branch>,
    /// Their other ends.
    pub ends: Ends,
}

// Written out, so that the ways are let go by one call.
impl Drop for Ways {
    fn drop(self) {
        let Ways {
            kind: _,
            ok: _,
            ends: _,
        } = self;
    }
}

impl Checker<'_> {
    // The state here, to come back to, if it is wanted. `Memory`: want of memory.
    fn mark_if(&mut self, wanted: bool) -> Result<Option<Mark>, Memory>
        ensures mark { IfOk result (λ mark. mark ≡ if_state wanted (Some self.old.state)) }
        ensures checker { self.new ≡ self.old }
    {
        if wanted {
            Ok(Some(self.state.mark()?))
        } else {
            Ok(None)
        }
    }

    // What is known where the state was marked, or here; without a mark, here.
    fn join_behind_if(&mut self, mark: Option<Mark>) -> Result<(), Memory>
        requires { IfSome mark (λ m. m.scopes ≡ self.old.state.scopes) }
        ensures known { OnOk result (IsJoined (known_on mark) self.old.state.known self.new.state.known) }
        ensures others { IsMoved self.old self.new }
    {
        match mark {
            None => Ok(()),
            Some(mark) => self.join_behind(mark),
        }
    }

    /// The left side of a `&&`. It ends with an error where it is neither a boolean nor null; the
    /// right side is judged where it may be a boolean, and left out where it may be a boolean or
    /// null. `Memory`: want of memory.
    pub fn left_of_and(&mut self, part: Finding) -> Result<LeftSide, Memory>
        requires { AreEnds self.old.state.scopes part.ends }
        ensures side { IfOk result (IsLeftSide (if_state (root_tags part.kind tags.Bool) self.old.state.known)
            (if_state (may_be_true part.kind) self.old.state.known) self.old self.new) }
        ensures kind { IfOk result (λ side. side.part.kind ≡ part.kind) }
        ensures ends { IfOk result
            (λ side. IsOrFail part.ends (if_state (may_be_another part.kind) self.old.state.known) side.part.ends) }
    {
        let mut part = part;
        let refuses = may_be_no_truth(&part.kind);
        self.fail_if(&mut part.ends, refuses)?;
        let beside = self.mark_if(may_be_truth(&part.kind))?;
        self.go_on_if(has(part.kind.as_kind(), Tag::Bool));
        Ok(LeftSide { part, beside })
    }

    /// A `&&`, behind both sides: the right one ends with an error where it is neither a boolean
    /// nor null. `Memory`: want of memory.
    pub fn conjoined(&mut self, left: LeftSide, right: Finding) -> Result<Finding, Memory>
        requires left { StandsIn self.old.state.scopes left }
        requires right { AreEnds self.old.state.scopes right.ends }
        ensures { IfOk result (IsConjoined left right self.old self.new) }
    {
        let refused = self.branch_if(may_be_no_truth(&right.kind))?;
        self.go_on_if(may_be_truth(&right.kind));
        let (_kind, ends) = right.into_parts();
        let mut both = self.both_sides(left, ends)?;
        both.ends.add_fail(refused)?;
        both.kind = scalar(self.alloc, Tag::Bool)?;
        Ok(both)
    }

    /// The left side of a `||`: the right one is judged where it may be null or a boolean, and left
    /// out where it isn't exactly null. `Memory`: want of memory.
    pub fn left_of_or(&mut self, part: Finding) -> Result<LeftSide, Memory>
        requires { AreEnds self.old.state.scopes part.ends }
        ensures side { IfOk result (IsLeftSide (if_state (may_be_true part.kind) self.old.state.known)
            (if_state (not (is_alone (root_tags part.kind) tags.Null)) self.old.state.known) self.old self.new) }
        ensures part { IfOk result (λ side. side.part ≡ part) }
    {
        let beside = self.mark_if(!is_exactly(&part.kind, Tag::Null))?;
        self.go_on_if(may_be_truth(&part.kind));
        Ok(LeftSide { part, beside })
    }

    /// A `||`, behind both sides: either value, but for a null on the left. `Memory`: want of
    /// memory.
    pub fn disjoined(&mut self, left: LeftSide, right: Finding) -> Result<Finding, Memory>
        requires left { StandsIn self.old.state.scopes left }
        requires right { AreEnds self.old.state.scopes right.ends }
        ensures kind { IfOk result (λ finding. IsCutOf (or_else_at left.part.kind right.kind) finding.kind) }
        ensures sides { IfOk result (λ finding. AreBothSides left right.ends self.old self.new finding.ends) }
    {
        let (kind, ends) = right.into_parts();
        let mut both = self.both_sides(left, ends)?;
        both.kind = or_else(self.alloc, &both.kind, &kind)?;
        Ok(both)
    }

    /// The left side of a `??`: the right one is judged where it ended with an error, of which none
    /// is left. Where it ends with a value, the whole does. `Memory`: want of memory.
    pub fn left_of_coalescing(&mut self, part: Finding) -> Result<LeftSide, Memory>
        requires { AreEnds self.old.state.scopes part.ends }
        ensures side { IfOk result (IsLeftSide (known_on part.ends.fail) self.old.state.known self.old self.new) }
        ensures part { IfOk result (λ side. side.part ≡ record part { ends = record part.ends { fail = None } }) }
    {
        let mut part = part;
        let beside = self.mark_if(true)?;
        let fail = part.ends.fail.take();
        self.go_to(fail);
        Ok(LeftSide { part, beside })
    }

    /// A `??`, behind both sides: either value. `Memory`: want of memory.
    pub fn coalesced(&mut self, left: LeftSide, right: Finding) -> Result<Finding, Memory>
        requires left { StandsIn self.old.state.scopes left }
        requires right { AreEnds self.old.state.scopes right.ends }
        ensures kind { IfOk result (λ finding. IsEither left.part.kind right.kind finding.kind) }
        ensures sides { IfOk result (λ finding. AreBothSides left right.ends self.old self.new finding.ends) }
    {
        let (kind, ends) = right.into_parts();
        let mut both = self.both_sides(left, ends)?;
        widen(&mut both.kind, self.alloc, &kind)?;
        Ok(both)
    }

    // The left side with the ends of both; what is known is that behind the right side or where it
    // is left out.
    fn both_sides(&mut self, left: LeftSide, right: Ends) -> Result<Finding, Memory>
        requires left { StandsIn self.old.state.scopes left }
        requires right { AreEnds self.old.state.scopes right }
        ensures kind { IfOk result (λ both. both.kind ≡ left.part.kind) }
        ensures sides { IfOk result (λ both. AreBothSides left right self.old self.new both.ends) }
    {
        let (mut part, beside) = left.into_parts();
        self.join_behind_if(beside)?;
        part.ends.add(self.alloc, right)?;
        Ok(part)
    }

    /// Adds a predicate to the ways before it: one that may fail is 1005, and one that isn't
    /// exactly a boolean 102. `Memory`: want of memory.
    pub fn add_predicate(
        &mut self,
        ways: &mut Ways,
        part: Finding,
        span: Span,
    ) -> Result<(), Memory>
        requires ways { AreWays self.old.state.scopes ways.old }
        requires part { AreEnds self.old.state.scopes part.ends }
        ensures { OnOk result (IsPredicateBeside span part ways.old self.old self.new ways.new) }
    {
        let predicate = self.predicate(part, span)?;
        ways.ends.add(self.alloc, predicate)?;
        Ok(())
    }

    // A predicate that may fail is 1005, and one that isn't exactly a boolean 102.
    fn predicate(&mut self, part: Finding, span: Span) -> Result<Ends, Memory>
        requires { AreEnds self.old.state.scopes part.ends }
        ensures { IfOk result
            (IsReported (of_predicate span (seen part self.old [] [] [])) self.old self.new part.ends) }
    {
        let mut part = part;
        if part.is_fallible() {
            self.report(&mut part.ends, true, code::FALLIBLE_PREDICATE, span)?;
            return Ok(part.into_parts().1);
        }
        let other = self.is_other(Tag::Bool, &part);
        self.report(&mut part.ends, other, code::NON_BOOLEAN_PREDICATE, span)?;
        Ok(part.into_parts().1)
    }

    /// Adds the block behind a predicate to the ways before it, and goes back to the state behind
    /// the predicate. `Memory`: want of memory.
    pub fn add_block(&mut self, ways: &mut Ways, mark: Mark, block: Finding) -> Result<(), Memory>
        requires ways { AreWays self.old.state.scopes ways.old }
        requires block { AreEnds self.old.state.scopes block.ends }
        ensures { OnOk result (IsBlockBeside mark block ways.old self.old self.new ways.new) }
    {
        let left = self.back(mark);
        add_way(&mut ways.ok, left)?;
        let kind = ways.ends.absorb(self.alloc, block)?;
        widen(&mut ways.kind, self.alloc, &kind)?;
        Ok(())
    }

    /// The last way beside the others, and what is known behind any of them. `Memory`: want of
    /// memory.
    pub fn add_last(&mut self, ways: Ways, last: Finding) -> Result<Finding, Memory>
        requires ways { AreWays self.old.state.scopes ways }
        requires last { AreEnds self.old.state.scopes last.ends }
        ensures { IfOk result (IsLastBeside ways last self.old self.new) }
    {
        let (kind, ok, ends) = ways.into_parts();
        self.join(ok)?;
        let mut all = Finding { kind, ends };
        let kind = all.ends.absorb(self.alloc, last)?;
        widen(&mut all.kind, self.alloc, &kind)?;
        Ok(all)
    }

    /// A return, behind its expression: no way leads on. In the body of a closure it is 1004, and
    /// goes on behind the expression. `Memory`: want of memory.
    pub fn returned(&mut self, part: Finding, span: Span) -> Result<Finding, Memory>
        requires ends { AreEnds self.old.state.scopes part.ends }
        requires kind { IsRootKind part.kind }
        ensures { IfOk result (IsReturned span part self.old self.new) }
    {
        let inside = self.inside;
        let (kind, mut ends) = part.into_parts();
        let here = self.return_of(kind)?;
        ends.add_return(self.alloc, here)?;
        self.report(&mut ends, inside, code::RETURN_IN_CLOSURE, span)?;
        self.go_on_if(inside);
        let kind = SharedKind::never(self.alloc)?;
        Ok(Finding { kind, ends })
    }

    /// An abort, behind its message: one that may fail, or isn't exactly a text, is 1011. `Memory`:
    /// want of memory.
    pub fn aborted(&mut self, part: Finding, span: Span) -> Result<Finding, Memory>
        requires { AreEnds self.old.state.scopes part.ends }
        ensures { IfOk result (IsAborted (of_message span (seen part self.old [] [] [])) part self.old self.new) }
    {
        let mut part = part;
        let wrong = self.is_no_message(&part);
        self.report(&mut part.ends, wrong, code::WRONG_ABORT_MESSAGE, span)?;
        self.state.kill();
        part.kind = SharedKind::never(self.alloc)?;
        Ok(part)
    }

    // Whether it may fail, or isn't exactly a text.
    fn is_no_message(&self, part: &Finding) -> bool
        requires { AreEnds self.now.state.scopes part.now.ends }
        ensures { result ≡ is_message_wrong (seen part.now self.now [] [] []) }
    {
        part.is_fallible() || self.is_other(Tag::Text, part)
    }
}

impl LeftSide {
    // What it was judged to be, and what is known where the right side is left out.
    fn into_parts(self) -> (Finding, Option<Mark>)
        ensures part { result.0 ≡ self.part }
        ensures beside { result.1 ≡ self.beside }
    {
        let LeftSide { part, beside } = self;
        (part, beside)
    }
}

impl Ways {
    // The kind of what they give, what is known where they end with a value, and their other ends.
    fn into_parts(self) -> (SharedKind, Option<Branch>, Ends)
        ensures kind { result.0 ≡ self.kind }
        ensures ok { result.1 ≡ self.ok }
        ensures ends { result.2 ≡ self.ends }
    {
        let Ways { kind, ok, ends } = self;
        (kind, ok, ends)
    }

    /// No way so far. `Memory`: want of memory.
    pub fn none(alloc: Global) -> Result<Ways, Memory>
        ensures { IfOk result (λ ways. ways ≡ no_ways) }
    {
        Ok(Ways {
            kind: SharedKind::never(alloc)?,
            ok: None,
            ends: Ends::none(),
        })
    }
}

// The kind of a value of the first, but for null, or of the second, cut. `Memory`: want of memory.
fn or_else(alloc: Global, first: &SharedKind, second: &SharedKind) -> Result<SharedKind, Memory>
    ensures { IfOk result (λ kind. IsCutOf (or_else_at first.now second.now) kind) }
{
    let rest = without(alloc, first.as_kind(), Tag::Null)?;
    either(alloc, &rest, second.as_kind())
}

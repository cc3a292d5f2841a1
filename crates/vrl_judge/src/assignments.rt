ghost use Rattle.std.specs.Prelude.{[], false, is_some, length, not, slice_set, ◌&&◌, ◌++◌, ◌<◌, ◌||◌, ◌≡◌, IfOk, OnOk};
ghost use Rattle.vrl_judge.specs.Assigning.{AreAssigned};
ghost use Rattle.vrl_judge.specs.Judging.{known_on, AreBothWritten, AreEnds, AreWritten, AreWrittenBeside, HasEnds, IsAssignedAs, IsMoved, IsReported, IsWay};
ghost use Rattle.vrl_judge.specs.Rules.{at, is_misfit, is_nowhere as takes_nothing, is_whole, of_error_assignment, when, IsTargetWritten, Judgement};
ghost use Rattle.vrl_kind.specs.Canonical.{allows_absent};
ghost use Rattle.vrl_kind.specs.Kinds.{found_at};
ghost use Rattle.vrl_state.specs.States.{IsCutOf, IsRootKind};
ghost use Rattle.vrl_syntax.specs.ErrorAssignments.{empty_value as empty_value_of};
ghost use Rattle.vrl_syntax.specs.Limits.{target_faults};

use crate::checker::Checker;
use crate::ends::Ends;
use crate::finding::Finding;
use crate::kinds::{cut_kind_of, either, empty_tag, scalar};
use crate::prefix::Prefix;
use crate::shared_kind::SharedKind;
use std::alloc::Global;
use vrl_diag::{Span, code};
use vrl_state::Branch;
use vrl_syntax::{Target, empty_value};
use vrl_value::{Memory, Tag};

impl Checker<'_> {
    // Writes a kind where a target says; one that takes nothing changes nothing. `Memory`: want of
    // memory.
    fn write(&mut self, target: &Target, kind: &SharedKind) -> Result<(), Memory>
        requires target { target_faults target.now ≡ [] }
        requires present { allows_absent kind.now ≡ false }
        ensures written { OnOk result (IsTargetWritten target.now kind.now self.old.state.known self.new.state.known) }
        ensures others { IsMoved self.old self.new }
    {
        match target {
            Target::Nowhere => Ok(()),
            Target::Place(_, root, path) => self.state.assign(root, path, kind.as_shared()),
        }
    }

    /// An assignment, behind its expression: one that may fail is 103, a target that takes nothing
    /// 640, an event that is neither an object nor an array 1006, and metadata that is no object
    /// 1017. `Memory`: want of memory.
    pub fn assigned(
        &mut self,
        span: Span,
        target: &Target,
        part: Finding,
    ) -> Result<Finding, Memory>
        requires target { target_faults target.now ≡ [] }
        requires present { allows_absent part.kind ≡ false }
        ensures { IfOk result (λ finding. IsAssignedAs span target.now part self.old self.new finding) }
    {
        let mut part = part;
        let fallible = part.is_fallible();
        let no_event = self.puts_misfit(Prefix::Event, target, &part);
        let no_metadata = self.puts_misfit(Prefix::Metadata, target, &part);
        self.report(
            &mut part.ends,
            fallible,
            code::UNHANDLED_FALLIBLE_ASSIGNMENT,
            span,
        )?;
        self.report(
            &mut part.ends,
            is_nowhere(target),
            code::NO_OP_ASSIGNMENT,
            span,
        )?;
        self.report_misfits(&mut part.ends, no_event, no_metadata, span)?;
        self.write(target, &part.kind)?;
        Ok(part)
    }

    // Whether the event, or the metadata, gets a value that it doesn't take.
    fn puts_misfit(&self, prefix: Prefix, target: &Target, part: &Finding) -> bool
        ensures { result ≡
            (is_some self.now.state.known && not part.now.ends.poisoned && is_misfit prefix target.now part.now.kind) }
    {
        self.is_known(part) && prefix.is_misfit(target, &part.kind)
    }

    // An event that is neither an object nor an array is 1006, and metadata that is no object 1017.
    // `Memory`: want of memory.
    fn report_misfits(
        &mut self,
        ends: &mut Ends,
        no_event: bool,
        no_metadata: bool,
        span: Span,
    ) -> Result<(), Memory>
        ensures { OnOk result
            (IsReported (when no_event (at 1006 span) ++ when no_metadata (at 1017 span))
            self.old self.new ends.old ends.new) }
    {
        self.report(ends, no_event, code::EVENT_ASSIGNED_NO_CONTAINER, span)?;
        self.report(ends, no_metadata, code::METADATA_ASSIGNED_NO_OBJECT, span)
    }

    /// An error assignment, behind its expression, with the place of its empty value: behind a
    /// value the value and null are written, and behind an error the empty value and a text.
    /// `Memory`: want of memory.
    pub fn both_assigned(
        &mut self,
        span: Span,
        ok: &Target,
        err: &Target,
        place: usize,
        part: Finding,
    ) -> Result<Finding, Memory>
        requires ok { target_faults ok.now ≡ [] }
        requires err { target_faults err.now ≡ [] }
        requires kind { IsRootKind part.kind }
        requires ends { AreEnds self.old.state.scopes part.ends }
        requires place { place < length self.old.empties.items }
        ensures { IfOk result (AreAssigned span ok.now err.now place part self.old self.new) }
    {
        let mut part = part;
        let tag = empty_tag(&part.kind);
        self.put_empty(place, tag);
        let empty = empty_kind(self.alloc, tag)?;
        let whole = either(self.alloc, part.kind.as_kind(), empty.as_kind())?;
        self.error_codes(span, ok, err, &mut part.ends, &whole)?;
        let fail = part.ends.fail.take();
        self.write_both(ok, err, &part.kind, &empty, fail)?;
        part.kind = whole;
        Ok(part)
    }

    // The empty value of an error assignment whose place was kept.
    fn put_empty(&mut self, place: usize, tag: Tag)
        requires { place < length self.old.empties.items }
        ensures empties { self.new.empties.items ≡ slice_set self.old.empties.items place tag }
        ensures state { self.new.state ≡ self.old.state }
        ensures diagnostics { self.new.diagnostics ≡ self.old.diagnostics }
        ensures loops { self.new.loops ≡ self.old.loops }
        ensures patterns { self.new.patterns ≡ self.old.patterns }
        ensures inside { self.new.inside ≡ self.old.inside }
    {
        self.empties[place] = tag;
    }

    // An expression that can't fail is 104, and two targets that take nothing are 640. An event
    // that is neither an object nor an array is 1006, once, and metadata that is no object 1017.
    fn error_codes(
        &mut self,
        span: Span,
        ok: &Target,
        err: &Target,
        ends: &mut Ends,
        kind: &SharedKind,
    ) -> Result<(), Memory>
        ensures { OnOk result ((j : Judgement) → self.old.state.known ≡ j.ok → HasEnds self.old.state.scopes ends.old j
            → IsReported (of_error_assignment span ok.now err.now j kind.now) self.old self.new ends.old ends.new) }
    {
        let needless = ends.is_needless();
        let no_event = self.writes_misfit(Prefix::Event, ok, err, ends, kind);
        let no_metadata = self.writes_misfit(Prefix::Metadata, ok, err, ends, kind);
        self.report(ends, needless, code::UNNECESSARY_ERROR_ASSIGNMENT, span)?;
        self.report(ends, are_nowhere(ok, err), code::NO_OP_ASSIGNMENT, span)?;
        self.report_misfits(ends, no_event, no_metadata, span)
    }

    // Whether the event, or the metadata, may get a value that it doesn't take, where the
    // assignment is reached.
    fn writes_misfit(
        &self,
        prefix: Prefix,
        ok: &Target,
        err: &Target,
        ends: &Ends,
        kind: &SharedKind,
    ) -> bool
        ensures { result ≡ ((is_some self.now.state.known || is_some ends.now.fail)
            && ((not ends.now.poisoned && is_misfit prefix ok.now kind.now) || is_whole prefix err.now)) }
    {
        let reached = self.is_alive() || ends.fail.is_some();
        let misfit = (!ends.poisoned && prefix.is_misfit(ok, kind)) || prefix.is_whole(err);
        reached && misfit
    }

    // Writes both targets behind a value, and behind an error, and joins what is known then.
    fn write_both(
        &mut self,
        ok: &Target,
        err: &Target,
        kind: &SharedKind,
        empty: &SharedKind,
        fail: Option<Branch>,
    ) -> Result<(), Memory>
        requires ok { target_faults ok.now ≡ [] }
        requires err { target_faults err.now ≡ [] }
        requires present { allows_absent kind.now ≡ false }
        requires empty { allows_absent empty.now ≡ false }
        requires way { IsWay self.old.state.scopes fail }
        ensures written { OnOk result
            (AreBothWritten ok.now err.now kind.now empty.now self.old.state.known
            (known_on fail) self.new.state.known) }
        ensures others { IsMoved self.old self.new }
    {
        let null = scalar(self.alloc, Tag::Null)?;
        let text = scalar(self.alloc, Tag::Text)?;
        self.write_two(ok, err, kind, &null)?;
        self.write_behind_error(ok, err, empty, &text, fail)
    }

    // Writes both behind an error alone, and joins what is known then. `Memory`: want of memory.
    fn write_behind_error(
        &mut self,
        ok: &Target,
        err: &Target,
        empty: &SharedKind,
        text: &SharedKind,
        fail: Option<Branch>,
    ) -> Result<(), Memory>
        requires ok { target_faults ok.now ≡ [] }
        requires err { target_faults err.now ≡ [] }
        requires empty { allows_absent empty.now ≡ false }
        requires text { allows_absent text.now ≡ false }
        requires way { IsWay self.old.state.scopes fail }
        ensures written { OnOk result
            (AreWrittenBeside ok.now err.now empty.now text.now self.old.state.known
            (known_on fail) self.new.state.known) }
        ensures others { IsMoved self.old self.new }
    {
        if fail.is_none() {
            return Ok(());
        }
        let mark = self.state.mark()?;
        self.go_to(fail);
        self.write_two(ok, err, empty, text)?;
        self.join_behind(mark)
    }

    // Writes one target, and then the other. `Memory`: want of memory.
    fn write_two(
        &mut self,
        ok: &Target,
        err: &Target,
        first: &SharedKind,
        second: &SharedKind,
    ) -> Result<(), Memory>
        requires ok { target_faults ok.now ≡ [] }
        requires err { target_faults err.now ≡ [] }
        requires first { allows_absent first.now ≡ false }
        requires second { allows_absent second.now ≡ false }
        ensures written { OnOk result
            (AreWritten ok.now err.now first.now second.now self.old.state.known self.new.state.known) }
        ensures others { IsMoved self.old self.new }
    {
        self.write(ok, first)?;
        self.write(err, second)
    }
}

// The kind of the empty value of a tag, cut. `Memory`: want of memory.
fn empty_kind(alloc: Global, tag: Tag) -> Result<SharedKind, Memory>
    ensures { IfOk result (IsCutOf (found_at (empty_value_of tag))) }
{
    let value = empty_value(alloc, tag);
    cut_kind_of(alloc, &value)
}

fn are_nowhere(ok: &Target, err: &Target) -> bool
    ensures { result ≡ (takes_nothing ok.now && takes_nothing err.now) }
{
    is_nowhere(ok) && is_nowhere(err)
}

fn is_nowhere(target: &Target) -> bool
    ensures { result ≡ takes_nothing target.now }
{
    matches!(target, Target::Nowhere)
}

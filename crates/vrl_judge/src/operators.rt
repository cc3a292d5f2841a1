ghost use Rattle.std.specs.Prelude.{◌≡◌, IfOk};
ghost use Rattle.vrl_judge.specs.Judging.{AreEnds, ArePairedAs, HaveCommonScopes, IsCombinedAs, IsEquatedAs, IsMergedAs, IsNegatedAs};
ghost use Rattle.vrl_judge.specs.Rules.{IsMerged};

use crate::checker::Checker;
use crate::ends::{Ends, either_of};
use crate::finding::Finding;
use crate::kinds::{cut, is_exactly, scalar};
use crate::shared_kind::SharedKind;
use crate::tables::Table;
use vrl_diag::{Span, code};
use vrl_kind::{kind_is_canonical, overlaid};
use vrl_value::{Memory, Tag};

/// Two operands that were judged in order.
pub struct Operands {
    /// The kind of the left one.
    pub left: SharedKind,
    /// The kind of the right one.
    pub right: SharedKind,
    /// The left one is known not to be exactly an object.
    pub left_no_object: bool,
    /// The right one is known not to be exactly an object.
    pub right_no_object: bool,
    /// The ends of both.
    pub ends: Ends,
}

// Written out, so that the operands are let go by one call.
impl Drop for Operands {
    fn drop(self) {
        let Operands {
            left: _,
            right: _,
            left_no_object: _,
            right_no_object: _,
            ends: _,
        } = self;
    }
}

impl Operands {
    // The ends of both.
    fn into_ends(self) -> Ends
        ensures { result ≡ self.ends }
    {
        let Operands {
            left: _,
            right: _,
            left_no_object: _,
            right_no_object: _,
            ends,
        } = self;
        ends
    }
}

impl Checker<'_> {
    /// A negation, behind its operand: one that isn't exactly a boolean is 660. `Memory`: want of
    /// memory.
    pub fn negated(&mut self, span: Span, part: Finding) -> Result<Finding, Memory>
        ensures { IfOk result (λ finding. IsNegatedAs span part self.old self.new finding) }
    {
        let mut part = part;
        let other = self.is_other(Tag::Bool, &part);
        self.report(&mut part.ends, other, code::NEGATION_OF_NON_BOOLEAN, span)?;
        part.kind = scalar(self.alloc, Tag::Bool)?;
        Ok(part)
    }

    /// Both operands, where the right one was judged last. `Memory`: want of memory.
    pub fn paired(
        &self,
        left: Finding,
        left_no_object: bool,
        right: Finding,
    ) -> Result<Operands, Memory>
        requires { HaveCommonScopes left.ends right.ends }
        ensures { IfOk result (λ parts. ArePairedAs left left_no_object right self.now parts) }
    {
        let right_no_object = self.is_other(Tag::Object, &right);
        let mut left = left;
        let right = left.ends.absorb(self.alloc, right)?;
        let (left, ends) = left.into_parts();
        Ok(Operands {
            left,
            right,
            left_no_object,
            right_no_object,
            ends,
        })
    }

    /// An equality, behind its operands: a comparison of a comparison is 650. `Memory`: want of
    /// memory.
    pub fn equated(&mut self, span: Span, chained: bool, parts: Operands) -> Result<Finding, Memory>
        ensures { IfOk result (λ finding. IsEquatedAs span chained parts self.old self.new finding) }
    {
        let mut parts = parts;
        self.report(&mut parts.ends, chained, code::CHAINED_COMPARISON, span)?;
        let kind = scalar(self.alloc, Tag::Bool)?;
        let ends = parts.into_ends();
        Ok(Finding { kind, ends })
    }

    /// An operator of a table, behind its operands: a comparison of a comparison is 650. It may end
    /// with an error where a pair that isn't in the table is possible, and not with a value where
    /// none of the table is; but behind an error code it goes on behind both operands. `Memory`:
    /// want of memory.
    pub fn combined(
        &mut self,
        span: Span,
        table: Table,
        chained: bool,
        parts: Operands,
    ) -> Result<Finding, Memory>
        requires { AreEnds self.old.state.scopes parts.ends }
        ensures { IfOk result (λ finding. IsCombinedAs span table chained parts self.old self.new finding) }
    {
        let mut parts = parts;
        self.report(&mut parts.ends, chained, code::CHAINED_COMPARISON, span)?;
        let (left, right) = (parts.left.as_kind(), parts.right.as_kind());
        let refuses = table.may_refuse(left, right);
        self.fail_if(&mut parts.ends, refuses)?;
        let takes = table.may_take(left, right);
        self.go_on_if(either_of(parts.ends.poisoned, takes));
        let kind = table.kind(self.alloc, left, right)?;
        let ends = parts.into_ends();
        Ok(Finding { kind, ends })
    }

    /// A merge, behind its operands: a side that isn't exactly an object is 652. `Memory`: want of
    /// memory.
    pub fn merged(
        &mut self,
        parts: Operands,
        left_span: Span,
        right_span: Span,
    ) -> Result<Finding, Memory>
        ensures { IfOk result (λ finding. IsMergedAs left_span right_span parts self.old self.new finding) }
    {
        let mut parts = parts;
        self.report(
            &mut parts.ends,
            parts.left_no_object,
            code::MERGE_OF_NON_OBJECT,
            left_span,
        )?;
        self.report(
            &mut parts.ends,
            parts.right_no_object,
            code::MERGE_OF_NON_OBJECT,
            right_span,
        )?;
        let kind = self.merged_kind(&parts.left, &parts.right)?;
        let ends = parts.into_ends();
        Ok(Finding { kind, ends })
    }

    // The kind of a merge; any where a side isn't exactly an object, which is poisoned or gives no
    // value.
    fn merged_kind(&self, left: &SharedKind, right: &SharedKind) -> Result<SharedKind, Memory>
        ensures { IfOk result (λ kind. IsMerged left.now right.now kind) }
    {
        if !is_exactly(left, Tag::Object) {
            return SharedKind::any(self.alloc);
        }
        if !is_exactly(right, Tag::Object) {
            return SharedKind::any(self.alloc);
        }
        let whole = overlaid(self.alloc, left.as_kind(), right.as_kind())?;
        kind_is_canonical(&whole);
        cut(self.alloc, whole)
    }
}

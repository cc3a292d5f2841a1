//! Assignments, behind their expressions.
ghost use Rattle.std.specs.Prelude.{[], ◌≡◌, IfOk};
ghost use Rattle.vrl_check.specs.Walking.{ExprCanBeJudged, IsGivenAs};
ghost use Rattle.vrl_syntax.specs.Limits.{target_faults};
ghost use Rattle.vrl_syntax.specs.Tree.{assign as assign_form, both as both_form, merge as merge_form};
ghost use Rattle.vrl_syntax.specs.View.{expr_of};

use crate::walk::expr;
use crate::walk::operators::merge_into;
use vrl_diag::{Span, code};
use vrl_judge::{Checker, Finding};
use vrl_syntax::{Expr, Target};
use vrl_value::{Memory, Tag};

// `t = e`
#[cycle(judge)]
pub(super) fn assignment(
    checker: &mut Checker<'_>,
    span: Span,
    target: &Target,
    value: &Expr,
) -> Result<Finding, Memory>
    requires target { target_faults target.now ≡ [] }
    requires value { ExprCanBeJudged checker.old.patterns.now (expr_of value.now) }
    ensures { IfOk result
        (λ finding. IsGivenAs span (assign_form target.now (expr_of value.now)) checker.old checker.new finding) }
{
    let part = expr(checker, value)?;
    checker.assigned(span, target, part)
}

// `t |= e` is `t = t | e`, but that a target that takes nothing is 640 and no more.
#[cycle(judge)]
pub(super) fn merge_assignment(
    checker: &mut Checker<'_>,
    span: Span,
    target: &Target,
    value: &Expr,
) -> Result<Finding, Memory>
    requires target { target_faults target.now ≡ [] }
    requires value { ExprCanBeJudged checker.old.patterns.now (expr_of value.now) }
    ensures { IfOk result
        (λ finding. IsGivenAs span (merge_form target.now (expr_of value.now)) checker.old checker.new finding) }
{
    match target {
        Target::Nowhere => {
            let part = expr(checker, value)?;
            checker.reported(part, true, code::NO_OP_ASSIGNMENT, span)
        }
        Target::Place(place, root, path) => {
            let whole = merge_into(checker, *place, root, path, value)?;
            let merged = checker.settled(whole)?;
            checker.assigned(span, target, merged)
        }
    }
}

// `t, u = e`: behind a value the value and null are written; behind an error the empty value and a
// text.
#[cycle(judge)]
pub(super) fn error_assignment(
    checker: &mut Checker<'_>,
    span: Span,
    ok: &Target,
    err: &Target,
    value: &Expr,
) -> Result<Finding, Memory>
    requires ok { target_faults ok.now ≡ [] }
    requires err { target_faults err.now ≡ [] }
    requires value { ExprCanBeJudged checker.old.patterns.now (expr_of value.now) }
    ensures { IfOk result
        (λ finding. IsGivenAs span (both_form ok.now err.now (expr_of value.now)) checker.old checker.new finding) }
{
    let place = checker.empties.len();
    checker.empties.push(Tag::Null)?;
    let part = expr(checker, value)?;
    checker.both_assigned(span, ok, err, place, part)
}

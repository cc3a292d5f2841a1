//! Forms with parts that a run may pass over: `&&`, `||`, `??` and `if`.
ghost use Rattle.std.specs.Prelude.{option_map, IfOk, OnOk};
ghost use Rattle.vrl_check.specs.Walking.{ArmsCanBeJudged, ExprCanBeJudged, ElseCanBeJudged, IsAnywhereAs, IsArmBehind, IsElseAs, IsGivenAs, ItemsCanBeJudged};
ghost use Rattle.vrl_judge.specs.Branching.{AreWays};
ghost use Rattle.vrl_syntax.specs.Tree.{binary as binary_form, conditional as conditional_form, no_else};
ghost use Rattle.vrl_syntax.specs.View.{arm_of, arms_of, else_of, expr_of, exprs_of};
ghost use Rattle.vrl_syntax.specs.declared.root.Op.TheVariants as ops;

use crate::walk::{block, expr};
use vrl_diag::{Span, code};
use vrl_judge::{Checker, Finding, Ways, scalar};
use vrl_syntax::{Arm, Arms, Expr, Exprs};
use vrl_value::{Memory, Tag};

// The right side is judged where the left one may be a boolean.
#[cycle(judge)]
pub(super) fn conjunction(
    checker: &mut Checker<'_>,
    left: &Expr,
    right: &Expr,
) -> Result<Finding, Memory>
    requires left { ExprCanBeJudged checker.old.patterns.now (expr_of left.now) }
    requires right { ExprCanBeJudged checker.old.patterns.now (expr_of right.now) }
    ensures { IfOk result
        (λ finding. IsAnywhereAs
        (binary_form ops.And (expr_of left.now) (expr_of right.now)) checker.old checker.new finding) }
{
    let part = expr(checker, left)?;
    let side = checker.left_of_and(part)?;
    let other = expr(checker, right)?;
    checker.conjoined(side, other)
}

// The right side is judged where the left one may be null or a boolean; the value is the right
// one's alone where the left one is exactly null.
#[cycle(judge)]
pub(super) fn disjunction(
    checker: &mut Checker<'_>,
    left: &Expr,
    right: &Expr,
) -> Result<Finding, Memory>
    requires left { ExprCanBeJudged checker.old.patterns.now (expr_of left.now) }
    requires right { ExprCanBeJudged checker.old.patterns.now (expr_of right.now) }
    ensures { IfOk result
        (λ finding. IsAnywhereAs
        (binary_form ops.Or (expr_of left.now) (expr_of right.now)) checker.old checker.new finding) }
{
    let part = expr(checker, left)?;
    let side = checker.left_of_or(part)?;
    let other = expr(checker, right)?;
    checker.disjoined(side, other)
}

// The right side is judged where the left one ended with an error. A left side that can't fail is
// 651.
#[cycle(judge)]
pub(super) fn coalescing(
    checker: &mut Checker<'_>,
    span: Span,
    left: &Expr,
    right: &Expr,
) -> Result<Finding, Memory>
    requires left { ExprCanBeJudged checker.old.patterns.now (expr_of left.now) }
    requires right { ExprCanBeJudged checker.old.patterns.now (expr_of right.now) }
    ensures { IfOk result
        (λ finding. IsGivenAs span
        (binary_form ops.Coalesce (expr_of left.now) (expr_of right.now)) checker.old checker.new finding) }
{
    let part = expr(checker, left)?;
    let needless = part.ends.is_needless();
    let side = checker.left_of_coalescing(part)?;
    let other = expr(checker, right)?;
    let both = checker.coalesced(side, other)?;
    checker.reported(both, needless, code::UNNECESSARY_ERROR_COALESCING, span)
}

// Each branch is judged behind all predicates before it.
#[cycle(judge)]
pub(super) fn conditional(
    checker: &mut Checker<'_>,
    arms: &Arms,
    otherwise: &Option<Exprs>,
) -> Result<Finding, Memory>
    requires arms { ArmsCanBeJudged checker.old.patterns.now (arms_of arms.now) }
    requires otherwise { ElseCanBeJudged checker.old.patterns.now (else_of (option_map exprs_of otherwise.now)) }
    ensures { IfOk result
        (λ finding. IsAnywhereAs
        (conditional_form (arms_of arms.now)
        (else_of (option_map exprs_of otherwise.now))) checker.old checker.new finding) }
{
    let mut ways = Ways::none(checker.alloc)?;
    for arm in arms.as_slice() {
        add_arm(checker, &mut ways, arm)?;
    }
    let last = last_way(checker, otherwise)?;
    checker.add_last(ways, last)
}

// A predicate and its block, beside the ways before them.
#[cycle(judge)]
fn add_arm(checker: &mut Checker<'_>, ways: &mut Ways, arm: &Arm) -> Result<(), Memory>
    requires predicate { ExprCanBeJudged checker.old.patterns.now (arm_of arm.now).0 }
    requires block { ItemsCanBeJudged checker.old.patterns.now (arm_of arm.now).1 }
    requires ways { AreWays checker.old.state.scopes ways.old }
    ensures { OnOk result (IsArmBehind (arm_of arm.now) ways.old checker.old checker.new ways.new) }
{
    let part = expr(checker, &arm.predicate)?;
    checker.add_predicate(ways, part, arm.predicate.span)?;
    let mark = checker.state.mark()?;
    let block = block(checker, &arm.body)?;
    checker.add_block(ways, mark, block)
}

// A missing `else` gives null.
#[cycle(judge)]
fn last_way(checker: &mut Checker<'_>, otherwise: &Option<Exprs>) -> Result<Finding, Memory>
    requires { ElseCanBeJudged checker.old.patterns.now (else_of (option_map exprs_of otherwise.now)) }
    ensures { IfOk result
        (λ finding. IsElseAs (else_of (option_map exprs_of otherwise.now)) checker.old checker.new finding) }
{
    match otherwise {
        Some(items) => block(checker, items),
        None => missing_else(checker),
    }
}

fn missing_else(checker: &mut Checker<'_>) -> Result<Finding, Memory>
    ensures { IfOk result (λ finding. IsElseAs no_else checker.old checker.new finding) }
{
    let kind = scalar(checker.alloc, Tag::Null)?;
    checker.settled(Finding::value(kind))
}

//! Operators; of those with two sides `branches.rt` has the ones whose right side may be passed
//! over.
ghost use Rattle.std.specs.Prelude.{true, ◌≡◌, IfOk, Some};
ghost use Rattle.vrl_check.specs.Walking.{AreBoth, ExprCanBeJudged, IsAnywhereAs, IsBesideAs, IsGivenAs};
ghost use Rattle.vrl_judge.specs.Judging.{table_rule, AreEnds, HasJudged};
ghost use Rattle.vrl_judge.specs.Rules.{is_equality, Judgement};
ghost use Rattle.vrl_check.specs.Judgement.{table_of};
ghost use Rattle.vrl_syntax.specs.Tree.{binary as binary_form, expr as expr_form, negation as negation_form, read as read_form};
ghost use Rattle.vrl_syntax.specs.View.{expr_of};
ghost use Rattle.vrl_syntax.specs.declared.root.Op.TheVariants as ops;

use crate::walk::branches::{coalescing, conjunction, disjunction};
use crate::walk::{expr, read};
use vrl_diag::Span;
use vrl_judge::{Checker, Finding, Operands, Table, is_chained};
use vrl_path::Path;
use vrl_syntax::{Expr, Op, Root};
use vrl_value::{Memory, Tag};

// Judges an operator with two sides. `Memory`: want of memory.
#[cycle(judge)]
pub(super) fn binary(
    checker: &mut Checker<'_>,
    span: Span,
    op: Op,
    left: &Expr,
    right: &Expr,
) -> Result<Finding, Memory>
    requires left { ExprCanBeJudged checker.old.patterns.now (expr_of left.now) }
    requires right { ExprCanBeJudged checker.old.patterns.now (expr_of right.now) }
    ensures { IfOk result
        (λ finding. IsGivenAs span
        (binary_form op (expr_of left.now) (expr_of right.now)) checker.old checker.new finding) }
{
    match op {
        Op::Coalesce => coalescing(checker, span, left, right),
        Op::Or => disjunction(checker, left, right),
        Op::And => conjunction(checker, left, right),
        Op::Equal | Op::Unequal => equality(checker, span, op, left, right),
        Op::Less | Op::AtMost | Op::More | Op::AtLeast => {
            of_table(checker, span, op, Table::Order, left, right)
        }
        Op::Merge => merge(checker, left, right),
        Op::Plus => of_table(checker, span, op, Table::Sum, left, right),
        Op::Minus | Op::Times => of_table(checker, span, op, Table::Number, left, right),
    }
}

// `!e`
#[cycle(judge)]
pub(super) fn negation(
    checker: &mut Checker<'_>,
    span: Span,
    inner: &Expr,
) -> Result<Finding, Memory>
    requires { ExprCanBeJudged checker.old.patterns.now (expr_of inner.now) }
    ensures { IfOk result
        (λ finding. IsGivenAs span (negation_form (expr_of inner.now)) checker.old checker.new finding) }
{
    let part = expr(checker, inner)?;
    checker.negated(span, part)
}

// Judges both operands, the right one where the left one ends with a value.
#[cycle(judge)]
fn operands(checker: &mut Checker<'_>, left: &Expr, right: &Expr) -> Result<Operands, Memory>
    requires left { ExprCanBeJudged checker.old.patterns.now (expr_of left.now) }
    requires right { ExprCanBeJudged checker.old.patterns.now (expr_of right.now) }
    ensures { IfOk result (λ parts. AreBoth (expr_of left.now) (expr_of right.now) checker.old checker.new parts) }
{
    let left = expr(checker, left)?;
    beside(checker, left, right)
}

// The same where the left one was judged last.
#[cycle(judge)]
fn beside(checker: &mut Checker<'_>, left: Finding, right: &Expr) -> Result<Operands, Memory>
    requires right { ExprCanBeJudged checker.old.patterns.now (expr_of right.now) }
    requires ends { AreEnds checker.old.state.scopes left.ends }
    ensures { IfOk result (λ parts. IsBesideAs (expr_of right.now) left checker.old checker.new parts) }
{
    let left_no_object = checker.is_other(Tag::Object, &left);
    let right = expr(checker, right)?;
    checker.paired(left, left_no_object, right)
}

#[cycle(judge)]
fn equality(
    checker: &mut Checker<'_>,
    span: Span,
    op: Op,
    left: &Expr,
    right: &Expr,
) -> Result<Finding, Memory>
    requires op { is_equality op ≡ true }
    requires left { ExprCanBeJudged checker.old.patterns.now (expr_of left.now) }
    requires right { ExprCanBeJudged checker.old.patterns.now (expr_of right.now) }
    ensures { IfOk result
        (λ finding. IsGivenAs span
        (binary_form op (expr_of left.now) (expr_of right.now)) checker.old checker.new finding) }
{
    let parts = operands(checker, left, right)?;
    checker.equated(span, is_chained(op, left, right), parts)
}

#[cycle(judge)]
fn of_table(
    checker: &mut Checker<'_>,
    span: Span,
    op: Op,
    table: Table,
    left: &Expr,
    right: &Expr,
) -> Result<Finding, Memory>
    requires op { table_of op ≡ Some (table_rule table) }
    requires left { ExprCanBeJudged checker.old.patterns.now (expr_of left.now) }
    requires right { ExprCanBeJudged checker.old.patterns.now (expr_of right.now) }
    ensures { IfOk result
        (λ finding. IsGivenAs span
        (binary_form op (expr_of left.now) (expr_of right.now)) checker.old checker.new finding) }
{
    let parts = operands(checker, left, right)?;
    checker.combined(span, table, is_chained(op, left, right), parts)
}

#[cycle(judge)]
fn merge(checker: &mut Checker<'_>, left: &Expr, right: &Expr) -> Result<Finding, Memory>
    requires left { ExprCanBeJudged checker.old.patterns.now (expr_of left.now) }
    requires right { ExprCanBeJudged checker.old.patterns.now (expr_of right.now) }
    ensures { IfOk result
        (λ finding. IsAnywhereAs
        (binary_form ops.Merge (expr_of left.now) (expr_of right.now)) checker.old checker.new finding) }
{
    let parts = operands(checker, left, right)?;
    checker.merged(parts, left.span, right.span)
}

// The same where the left side is a place that is read.
#[cycle(judge)]
pub(super) fn merge_into(
    checker: &mut Checker<'_>,
    place: Span,
    root: &Root,
    path: &Path,
    value: &Expr,
) -> Result<Finding, Memory>
    requires { ExprCanBeJudged checker.old.patterns.now (expr_of value.now) }
    ensures given { IfOk result
        (λ finding. IsAnywhereAs
        (binary_form ops.Merge (expr_form place (read_form root.now path.now))
        (expr_of value.now)) checker.old checker.new finding) }
    ensures judged { IfOk result (λ finding. (j : Judgement) × HasJudged checker.old checker.new finding j) }
{
    let read = read(checker, place, root, path)?;
    let left = checker.settled(read)?;
    let parts = beside(checker, left, value)?;
    checker.merged(parts, place, value.span)
}

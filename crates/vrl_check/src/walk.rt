ghost use Rattle.std.specs.Prelude.{IfOk};
ghost use Rattle.vrl_check.specs.Calling.{AreArgumentsAs};
ghost use Rattle.vrl_check.specs.Walking.{ArgumentsCanBeJudged, ExprCanBeJudged, FormCanBeJudged, IsAnywhereAs, IsBlockAs, IsGivenAs, IsJudgedAs, IsSequenceAs, ItemsCanBeJudged, PairsCanBeJudged};
ghost use Rattle.vrl_judge.specs.Judging.{HasJudged};
ghost use Rattle.vrl_judge.specs.Rules.{Judgement};
ghost use Rattle.vrl_syntax.specs.Tree.{abort_with as abort_form, array as array_form, literal as literal_form, message as message_form, no_message, object as object_form, query as query_form, read as read_form, return_of as return_form};
ghost use Rattle.vrl_syntax.specs.View.{args_of, call_of, expr_of, exprs_of, form_of, pairs_of};
ghost use Rattle.vrl_value.specs.View.{tree_of};

mod assignments;
mod branches;
mod closures;
mod operators;

use crate::calls::{Arguments, called};
use crate::iteration::closure_form;
use crate::passing::{pass, pass_items};
use assignments::{assignment, error_assignment, merge_assignment};
use branches::conditional;
use closures::closure_call;
use operators::{binary, negation};
use vrl_diag::Span;
use vrl_judge::{
    Checker, Ends, Finding, add_field, array_kind, cut_kind_of, object_kind, read_root, scalar,
};
use vrl_path::Path;
use vrl_syntax::{Args, Call, Expr, Exprs, Form, Pairs, Root};
use vrl_value::{Memory, Tag, Value};

// Judges an expression. `Memory`: want of memory.
#[cycle(judge)]
pub(crate) fn expr(checker: &mut Checker<'_>, expr: &Expr) -> Result<Finding, Memory>
    requires { ExprCanBeJudged checker.old.patterns.now (expr_of expr.now) }
    ensures { IfOk result (λ finding. IsJudgedAs (expr_of expr.now) checker.old checker.new finding) }
{
    if checker.state.is_dead() {
        return pass(checker, expr);
    }
    let finding = form(checker, expr.span, &expr.form)?;
    checker.settled(finding)
}

// Judges a form where a way leads to it. `Memory`: want of memory.
#[cycle(judge)]
fn form(checker: &mut Checker<'_>, span: Span, form: &Form) -> Result<Finding, Memory>
    requires { FormCanBeJudged checker.old.patterns.now (form_of form.now) }
    ensures { IfOk result (λ finding. IsGivenAs span (form_of form.now) checker.old checker.new finding) }
{
    match form {
        Form::Literal(value) => literal(checker, value),
        Form::Array(exprs) => array(checker, exprs),
        Form::Map(pairs) => object(checker, pairs),
        Form::Read(root, path) => read(checker, span, root, path),
        Form::Query(inner, path) => query(checker, inner, path),
        Form::Group(inner) => expr(checker, inner),
        Form::Block(items) => block(checker, items),
        Form::If(arms, otherwise) => conditional(checker, arms, otherwise),
        Form::Not(inner) => negation(checker, span, inner),
        Form::Binary(op, left, right) => binary(checker, span, *op, left, right),
        Form::Assign(target, value) => assignment(checker, span, target, value),
        Form::Merge(target, value) => merge_assignment(checker, span, target, value),
        Form::Both(ok, err, value) => error_assignment(checker, span, ok, err, value),
        Form::Call(inner) => call(checker, span, inner),
        Form::Return(value) => return_with(checker, span, value),
        Form::Abort(None) => abort(checker),
        Form::Abort(Some(message)) => abort_with(checker, message),
    }
}

fn literal(checker: &mut Checker<'_>, value: &Value) -> Result<Finding, Memory>
    ensures { IfOk result (λ finding. IsAnywhereAs (literal_form (tree_of value.now)) checker.old checker.new finding) }
{
    Ok(Finding::value(cut_kind_of(checker.alloc, value)?))
}

#[cycle(judge)]
fn array(checker: &mut Checker<'_>, exprs: &Exprs) -> Result<Finding, Memory>
    requires { ItemsCanBeJudged checker.old.patterns.now (exprs_of exprs.now) }
    ensures { IfOk result (λ finding. IsAnywhereAs (array_form (exprs_of exprs.now)) checker.old checker.new finding) }
{
    let mut kinds = Vec::new(checker.alloc);
    let mut ends = Ends::none();
    for item in exprs.as_slice() {
        let part = expr(checker, item)?;
        let inner = ends.absorb_inner(checker.alloc, part)?;
        kinds.push(inner)?;
    }
    let kind = array_kind(checker.alloc, kinds)?;
    Ok(Finding { kind, ends })
}

#[cycle(judge)]
fn object(checker: &mut Checker<'_>, pairs: &Pairs) -> Result<Finding, Memory>
    requires { PairsCanBeJudged checker.old.patterns.now (pairs_of pairs.now) }
    ensures { IfOk result (λ finding. IsAnywhereAs (object_form (pairs_of pairs.now)) checker.old checker.new finding) }
{
    let mut fields = Vec::new(checker.alloc);
    let mut ends = Ends::none();
    for (name, value) in pairs.as_slice() {
        let part = expr(checker, value)?;
        let inner = ends.absorb_inner(checker.alloc, part)?;
        add_field(&mut fields, checker.alloc, name, inner)?;
    }
    let kind = object_kind(checker.alloc, fields)?;
    Ok(Finding { kind, ends })
}

// A variable that isn't known is 701.
fn read(checker: &mut Checker<'_>, span: Span, root: &Root, path: &Path) -> Result<Finding, Memory>
    ensures given { IfOk result
        (λ finding. IsGivenAs span (read_form root.now path.now) checker.old checker.new finding) }
    ensures judged { IfOk result (λ finding. (j : Judgement) × HasJudged checker.old checker.new finding j) }
{
    let found = checker.state.shared(root)?;
    match found {
        Some(kind) => Ok(Finding::value(read_root(checker.alloc, kind, path)?)),
        None => checker.unknown(span),
    }
}

#[cycle(judge)]
fn query(checker: &mut Checker<'_>, inner: &Expr, path: &Path) -> Result<Finding, Memory>
    requires { ExprCanBeJudged checker.old.patterns.now (expr_of inner.now) }
    ensures { IfOk result
        (λ finding. IsAnywhereAs (query_form (expr_of inner.now) path.now) checker.old checker.new finding) }
{
    let part = expr(checker, inner)?;
    checker.read_off(part, path)
}

// Judges the items of a block or a branch, whose names end with it. `Memory`: want of memory.
#[cycle(judge)]
fn block(checker: &mut Checker<'_>, items: &Exprs) -> Result<Finding, Memory>
    requires { ItemsCanBeJudged checker.old.patterns.now (exprs_of items.now) }
    ensures { IfOk result (λ finding. IsBlockAs (exprs_of items.now) checker.old checker.new finding) }
{
    if checker.state.is_dead() {
        return pass_items(checker, items);
    }
    checker.state.enter()?;
    let part = sequence(checker, items)?;
    checker.end_block(part)
}

// Judges items in order; no item gives null. `Memory`: want of memory.
#[cycle(judge)]
fn sequence(checker: &mut Checker<'_>, items: &Exprs) -> Result<Finding, Memory>
    requires { ItemsCanBeJudged checker.old.patterns.now (exprs_of items.now) }
    ensures { IfOk result (λ finding. IsSequenceAs (exprs_of items.now) checker.old checker.new finding) }
{
    let mut last = Finding::value(scalar(checker.alloc, Tag::Null)?);
    for item in items.as_slice() {
        let part = expr(checker, item)?;
        last.go_on(checker.alloc, part)?;
    }
    Ok(last)
}

// Judges a call. `Memory`: want of memory.
#[cycle(judge)]
fn call(checker: &mut Checker<'_>, span: Span, call: &Call) -> Result<Finding, Memory>
    requires { FormCanBeJudged checker.old.patterns.now (call_of call.now) }
    ensures { IfOk result (λ finding. IsGivenAs span (call_of call.now) checker.old checker.new finding) }
{
    let arguments = arguments(checker, &call.args)?;
    match closure_form(call.name.as_str()) {
        Some(form) => closure_call(checker, span, form, call, arguments),
        None => called(checker, span, call, arguments),
    }
}

// Judges the arguments of a call in order. `Memory`: want of memory.
#[cycle(judge)]
fn arguments(checker: &mut Checker<'_>, args: &Args) -> Result<Arguments, Memory>
    requires { ArgumentsCanBeJudged checker.old.patterns.now (args_of args.now) }
    ensures { IfOk result (λ arguments. AreArgumentsAs (args_of args.now) checker.old checker.new arguments) }
{
    let mut parts = Vec::new(checker.alloc);
    let mut ends = Ends::none();
    for arg in args.as_slice() {
        let part = expr(checker, &arg.value)?;
        let argument = checker.argument(&mut ends, part)?;
        parts.push(argument)?;
    }
    Ok(Arguments { parts, ends })
}

// A return in a closure is 1004.
#[cycle(judge)]
fn return_with(checker: &mut Checker<'_>, span: Span, value: &Expr) -> Result<Finding, Memory>
    requires { ExprCanBeJudged checker.old.patterns.now (expr_of value.now) }
    ensures { IfOk result
        (λ finding. IsGivenAs span (return_form (expr_of value.now)) checker.old checker.new finding) }
{
    let part = expr(checker, value)?;
    checker.returned(part, span)
}

fn abort(checker: &mut Checker<'_>) -> Result<Finding, Memory>
    ensures { IfOk result (λ finding. IsAnywhereAs (abort_form no_message) checker.old checker.new finding) }
{
    checker.state.kill();
    Finding::nothing(checker.alloc)
}

// A message that may fail, or isn't exactly a text, is 1011.
#[cycle(judge)]
fn abort_with(checker: &mut Checker<'_>, message: &Expr) -> Result<Finding, Memory>
    requires { ExprCanBeJudged checker.old.patterns.now (expr_of message.now) }
    ensures { IfOk result
        (λ finding. IsAnywhereAs (abort_form (message_form (expr_of message.now))) checker.old checker.new finding) }
{
    let part = expr(checker, message)?;
    checker.aborted(part, message.span)
}

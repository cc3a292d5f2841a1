// Expressions from their parts.
ghost use Rattle.std.specs.Prelude.{◌≡◌, IfOk, None, Some, option_map};
ghost use Rattle.vrl_syntax.specs.Tree.{abort_with, array as array_form, assign, binary, block as block_form, both as both_form, call as call_form, closure as closure_form, conditional as conditional_form, expr, group as group_form, literal as literal_form, merge as merge_form, message, negation as negation_form, no_closure, object as object_form, query, read as read_form, return_of, span_of};
ghost use Rattle.vrl_syntax.specs.View.{arg_of, args_of, arm_of, arms_of, else_of, expr_of, exprs_of, message_of, pairs_of};
ghost use Rattle.vrl_value.specs.View.{tree_of};
ghost use Rattle.vrl_word.specs.Words.{name_span as name_place, over as place_over, sum_at as sum_place};

use crate::word::{name_span, over};
use std::alloc::Global;
use vrl_diag::Span;
use vrl_path::Path;
use vrl_syntax::{Arg, Args, Arm, Arms, Call, Closure, Expr, Exprs, Form, Op, Pairs, Root, Target};
use vrl_value::{Chars, Memory, Names, Value};

/// A literal.
pub fn literal(span: Span, value: Value) -> Expr
    ensures { expr_of result ≡ expr span (literal_form (tree_of value)) }
{
    let form = Form::Literal(value);
    Expr { span, form }
}

/// A path or a name that is read.
pub fn read(span: Span, root: Root, path: Path) -> Expr
    ensures { expr_of result ≡ expr span (read_form root path) }
{
    let form = Form::Read(root, path);
    Expr { span, form }
}

/// An array.
pub fn array(start: Span, parts: Exprs, end: Span) -> Expr
    ensures { expr_of result ≡ expr (place_over start end) (array_form (exprs_of parts)) }
{
    let span = over(start, end);
    let form = Form::Array(parts);
    Expr { span, form }
}

/// An object.
pub fn object(start: Span, pairs: Pairs, end: Span) -> Expr
    ensures { expr_of result ≡ expr (place_over start end) (object_form (pairs_of pairs)) }
{
    let span = over(start, end);
    let form = Form::Map(pairs);
    Expr { span, form }
}

/// A block.
pub fn block(body: Exprs, span: Span) -> Expr
    ensures { expr_of result ≡ expr span (block_form (exprs_of body)) }
{
    let form = Form::Block(body);
    Expr { span, form }
}

/// A query of what stands at a path of a value.
pub fn queried(alloc: Global, inner: Expr, path: Path, end: Span) -> Result<Expr, Memory>
    ensures { IfOk result
        (λ e. expr_of e ≡ expr (place_over (span_of (expr_of inner)) end) (query (expr_of inner) path)) }
{
    let span = over(inner.span, end);
    let form = Form::Query(Box::new(alloc, inner)?, path);
    Ok(Expr { span, form })
}

/// A group.
pub fn group(alloc: Global, start: Span, inner: Expr, end: Span) -> Result<Expr, Memory>
    ensures { IfOk result (λ e. expr_of e ≡ expr (place_over start end) (group_form (expr_of inner))) }
{
    let span = over(start, end);
    let form = Form::Group(Box::new(alloc, inner)?);
    Ok(Expr { span, form })
}

/// A negation.
pub fn negation(alloc: Global, start: Span, inner: Expr) -> Result<Expr, Memory>
    ensures { IfOk result
        (λ e. expr_of e ≡ expr (place_over start (span_of (expr_of inner))) (negation_form (expr_of inner))) }
{
    let span = over(start, inner.span);
    let form = Form::Not(Box::new(alloc, inner)?);
    Ok(Expr { span, form })
}

/// An operator between its sides.
pub fn joined(alloc: Global, op: Op, left: Expr, right: Expr) -> Result<Expr, Memory>
    ensures { IfOk result
        (λ e. expr_of e ≡ expr (place_over (span_of (expr_of left)) (span_of (expr_of right)))
        (binary op (expr_of left) (expr_of right))) }
{
    let span = over(left.span, right.span);
    let left = Box::new(alloc, left)?;
    let right = Box::new(alloc, right)?;
    let form = Form::Binary(op, left, right);
    Ok(Expr { span, form })
}

/// A sum, given its place, which is that of a text whose parts are added.
pub fn sum(alloc: Global, span: Span, left: Expr, right: Expr) -> Result<Expr, Memory>
    ensures { IfOk result (λ e. expr_of e ≡ sum_place span (expr_of left) (expr_of right)) }
{
    let left = Box::new(alloc, left)?;
    let right = Box::new(alloc, right)?;
    let form = Form::Binary(Op::Plus, left, right);
    Ok(Expr { span, form })
}

/// An `if`, given the place of its last block.
pub fn conditional(start: Span, arms: Arms, otherwise: Option<Exprs>, end: Span) -> Expr
    ensures { expr_of result ≡ expr (place_over start end)
        (conditional_form (arms_of arms) (else_of (option_map exprs_of otherwise))) }
{
    let span = over(start, end);
    let form = Form::If(arms, otherwise);
    Expr { span, form }
}

/// An assignment.
pub fn assignment(alloc: Global, start: Span, target: Target, value: Expr) -> Result<Expr, Memory>
    ensures { IfOk result
        (λ e. expr_of e ≡ expr (place_over start (span_of (expr_of value))) (assign target (expr_of value))) }
{
    let span = over(start, value.span);
    let form = Form::Assign(target, Box::new(alloc, value)?);
    Ok(Expr { span, form })
}

/// An assignment that merges.
pub fn merge(alloc: Global, start: Span, target: Target, value: Expr) -> Result<Expr, Memory>
    ensures { IfOk result
        (λ e. expr_of e ≡ expr (place_over start (span_of (expr_of value))) (merge_form target (expr_of value))) }
{
    let span = over(start, value.span);
    let form = Form::Merge(target, Box::new(alloc, value)?);
    Ok(Expr { span, form })
}

/// An assignment of the value and of the error.
pub fn both(
    alloc: Global,
    start: Span,
    target: Target,
    error: Target,
    value: Expr,
) -> Result<Expr, Memory>
    ensures { IfOk result
        (λ e. expr_of e ≡ expr (place_over start (span_of (expr_of value))) (both_form target error (expr_of value))) }
{
    let span = over(start, value.span);
    let form = Form::Both(target, error, Box::new(alloc, value)?);
    Ok(Expr { span, form })
}

/// A `return`.
pub fn return_of_value(alloc: Global, start: Span, value: Expr) -> Result<Expr, Memory>
    ensures { IfOk result
        (λ e. expr_of e ≡ expr (place_over start (span_of (expr_of value))) (return_of (expr_of value))) }
{
    let span = over(start, value.span);
    let form = Form::Return(Box::new(alloc, value)?);
    Ok(Expr { span, form })
}

/// An `abort`, with its message where there is one.
pub fn abort(span: Span, text: Option<Box<Expr>>) -> Expr
    ensures { expr_of result ≡ expr span (abort_with (message_of (option_map (λ b. expr_of b.value) text))) }
{
    let form = Form::Abort(text);
    Expr { span, form }
}

/// An `abort` with its message.
pub fn abort_with_message(alloc: Global, start: Span, text: Expr) -> Result<Expr, Memory>
    ensures { IfOk result
        (λ e. expr_of e ≡ expr (place_over start (span_of (expr_of text))) (abort_with (message (expr_of text)))) }
{
    let span = over(start, text.span);
    let text = Box::new(alloc, text)?;
    Ok(abort(span, Some(text)))
}

/// A call without a closure, given its function's name and bang and the places of its first and its last token.
pub fn call(
    alloc: Global,
    function: (Chars, bool),
    start: Span,
    args: Args,
    end: Span,
) -> Result<Expr, Memory>
    ensures { IfOk result
        (λ e. expr_of e ≡ expr (place_over start end)
        (call_form function.0 (name_place start function.1) function.1 (args_of args) no_closure)) }
{
    let span = over(start, end);
    let (name, bang) = function;
    let name_span = name_span(start, bang);
    let call = Call {
        name,
        name_span,
        bang,
        args,
        closure: None,
    };
    let form = Form::Call(Box::new(alloc, call)?);
    Ok(Expr { span, form })
}

/// A call with a closure, given its function's name and bang and the place of its first token, and the
/// closure's names, body and block.
pub fn call_with_closure(
    alloc: Global,
    function: (Chars, bool),
    start: Span,
    args: Args,
    closure: (Names, Exprs, Span),
) -> Result<Expr, Memory>
    ensures { IfOk result
        (λ e. expr_of e ≡ expr (place_over start closure.2)
        (call_form function.0 (name_place start function.1) function.1 (args_of args)
        (closure_form closure.0 (exprs_of closure.1) closure.2))) }
{
    let (name, bang) = function;
    let name_span = name_span(start, bang);
    let (names, body, end) = closure;
    let span = over(start, end);
    let closure = Closure {
        names,
        body,
        span: end,
    };
    let call = Call {
        name,
        name_span,
        bang,
        args,
        closure: Some(closure),
    };
    let form = Form::Call(Box::new(alloc, call)?);
    Ok(Expr { span, form })
}

/// An argument that is named, given the place of its name.
pub fn named(name: Chars, start: Span, value: Expr) -> Arg
    ensures { arg_of result ≡ (Some name, place_over start (span_of (expr_of value)), expr_of value) }
{
    let span = over(start, value.span);
    Arg {
        name: Some(name),
        span,
        value,
    }
}

/// An argument without a name.
pub fn unnamed(value: Expr) -> Arg
    ensures { arg_of result ≡ (None, span_of (expr_of value), expr_of value) }
{
    let span = value.span;
    Arg {
        name: None,
        span,
        value,
    }
}

/// A predicate and its block.
pub fn arm(predicate: Expr, body: Exprs) -> Arm
    ensures { arm_of result ≡ (expr_of predicate, exprs_of body) }
{
    Arm { predicate, body }
}

ghost use Rattle.std.specs.Prelude.{◌≡◌, ◌++◌, IfOk, OnOk};
ghost use Rattle.vrl_syntax.specs.View.{args_of, arms_of, call_of, expr_of, exprs_of, pairs_of};
ghost use Rattle.vrl_syntax.specs.Written.{args_write, argument_roots, arms_write, expr_writes, exprs_write, form_writes, pairs_write, path_roots, target_roots};

use crate::call_form::is_del;
use crate::lists::Roots;
use crate::root::{Root, Target};
use crate::tree::{Args, Arms, Call, Expr, Exprs, Form, Pairs};
use std::alloc::Global;
use vrl_value::Memory;

/// The roots that a body writes: those of the targets of its assignments, error assignments too,
/// and those of each argument of a `del` that is a path or a name. What stands in blocks, arguments
/// and closures inside counts too. They stand in the order of the script, but that what a `del`
/// deletes comes before what is written in its arguments; each comes as often as it is written.
///
/// # Errors
///
/// [`Memory`] where memory is wanted.
pub fn written_roots(alloc: Global, body: &Exprs) -> Result<Roots, Memory>
    ensures { IfOk result (λ roots. roots ≡ exprs_write (exprs_of body.now)) }
{
    let mut roots = Vec::new(alloc);
    add_exprs(alloc, body, &mut roots)?;
    Ok(Roots::new(roots))
}

// Adds the roots that an expression writes.
#[cycle(written)]
fn add_expr(alloc: Global, expr: &Expr, roots: &mut Vec<Root>) -> Result<(), Memory>
    ensures { OnOk result (roots.new.items ≡ roots.old.items ++ expr_writes (expr_of expr.now)) }
{
    match &expr.form {
        Form::Literal(_) | Form::Read(..) | Form::Abort(None) => Ok(()),
        Form::Array(exprs) | Form::Block(exprs) => add_exprs(alloc, exprs, roots),
        Form::Map(pairs) => add_pairs(alloc, pairs, roots),
        Form::Query(inner, _)
        | Form::Group(inner)
        | Form::Not(inner)
        | Form::Return(inner)
        | Form::Abort(Some(inner)) => add_expr(alloc, inner, roots),
        Form::If(arms, otherwise) => {
            add_arms(alloc, arms, roots)?;
            match otherwise {
                Some(exprs) => add_exprs(alloc, exprs, roots),
                None => Ok(()),
            }
        }
        Form::Binary(_, left, right) => {
            add_expr(alloc, left, roots)?;
            add_expr(alloc, right, roots)
        }
        Form::Assign(target, value) | Form::Merge(target, value) => {
            add_target(alloc, target, roots)?;
            add_expr(alloc, value, roots)
        }
        Form::Both(target, error, value) => {
            add_target(alloc, target, roots)?;
            add_target(alloc, error, roots)?;
            add_expr(alloc, value, roots)
        }
        Form::Call(call) => add_call(alloc, call, roots),
    }
}

// Adds those of a call, which deletes its arguments where it is `del`.
#[cycle(written)]
fn add_call(alloc: Global, call: &Call, roots: &mut Vec<Root>) -> Result<(), Memory>
    ensures { OnOk result (roots.new.items ≡ roots.old.items ++ form_writes (call_of call.now)) }
{
    if is_del(call.name.as_str()) {
        add_deleted(alloc, &call.args, roots)?;
    }
    add_args(alloc, &call.args, roots)?;
    match &call.closure {
        Some(closure) => add_exprs(alloc, &closure.body, roots),
        None => Ok(()),
    }
}

// Adds those of expressions.
#[cycle(written)]
fn add_exprs(alloc: Global, exprs: &Exprs, roots: &mut Vec<Root>) -> Result<(), Memory>
    ensures { OnOk result (roots.new.items ≡ roots.old.items ++ exprs_write (exprs_of exprs.now)) }
{
    for expr in &exprs.exprs {
        add_expr(alloc, expr, roots)?;
    }
    Ok(())
}

// Adds those of the values of an object.
#[cycle(written)]
fn add_pairs(alloc: Global, pairs: &Pairs, roots: &mut Vec<Root>) -> Result<(), Memory>
    ensures { OnOk result (roots.new.items ≡ roots.old.items ++ pairs_write (pairs_of pairs.now)) }
{
    for (_, value) in &pairs.pairs {
        add_expr(alloc, value, roots)?;
    }
    Ok(())
}

// Adds those of predicates and their blocks.
#[cycle(written)]
fn add_arms(alloc: Global, arms: &Arms, roots: &mut Vec<Root>) -> Result<(), Memory>
    ensures { OnOk result (roots.new.items ≡ roots.old.items ++ arms_write (arms_of arms.now)) }
{
    for arm in &arms.arms {
        add_expr(alloc, &arm.predicate, roots)?;
        add_exprs(alloc, &arm.body, roots)?;
    }
    Ok(())
}

// Adds those of arguments.
#[cycle(written)]
fn add_args(alloc: Global, args: &Args, roots: &mut Vec<Root>) -> Result<(), Memory>
    ensures { OnOk result (roots.new.items ≡ roots.old.items ++ args_write (args_of args.now)) }
{
    for arg in &args.args {
        add_expr(alloc, &arg.value, roots)?;
    }
    Ok(())
}

// Adds the roots of the arguments that are paths or names.
fn add_deleted(alloc: Global, args: &Args, roots: &mut Vec<Root>) -> Result<(), Memory>
    ensures { OnOk result (roots.new.items ≡ roots.old.items ++ argument_roots (args_of args.now)) }
{
    for arg in &args.args {
        add_path(alloc, &arg.value, roots)?;
    }
    Ok(())
}

// Adds the root of an expression that is a path or a name.
fn add_path(alloc: Global, expr: &Expr, roots: &mut Vec<Root>) -> Result<(), Memory>
    ensures { OnOk result (roots.new.items ≡ roots.old.items ++ path_roots (expr_of expr.now)) }
{
    if let Form::Read(root, _) = &expr.form {
        roots.push(root.copy(alloc)?)?;
    }
    Ok(())
}

// Adds the root of a target.
fn add_target(alloc: Global, target: &Target, roots: &mut Vec<Root>) -> Result<(), Memory>
    ensures { OnOk result (roots.new.items ≡ roots.old.items ++ target_roots target.now) }
{
    if let Target::Place(_, root, _) = target {
        roots.push(root.copy(alloc)?)?;
    }
    Ok(())
}

ghost use Rattle.std.specs.Prelude.{option_map, ◌++◌, ◌≡◌, OnOk};
ghost use Rattle.vrl_check.specs.Walking.{nulls};
ghost use Rattle.vrl_syntax.specs.ErrorAssignments.{in_args, in_arms, in_closure, in_expr, in_exprs, in_form, in_pairs};
ghost use Rattle.vrl_syntax.specs.View.{args_of, arms_of, call_of, closure_in, closure_of, expr_of, exprs_of, pairs_of};

use vrl_syntax::{Args, Arms, Call, Closure, Expr, Exprs, Form, Pairs};
use vrl_value::{Memory, Tag};

// Adds null for each error assignment of an expression.
#[cycle(empties)]
pub(crate) fn add_expr(expr: &Expr, empties: &mut Vec<Tag>) -> Result<(), Memory>
    ensures { OnOk result (empties.new.items ≡ empties.old.items ++ nulls (in_expr (expr_of expr.now))) }
{
    match &expr.form {
        Form::Literal(_) | Form::Read(..) | Form::Abort(None) => Ok(()),
        Form::Array(exprs) | Form::Block(exprs) => add_exprs(exprs, empties),
        Form::Map(pairs) => add_pairs(pairs, empties),
        Form::Query(inner, _)
        | Form::Group(inner)
        | Form::Not(inner)
        | Form::Assign(_, inner)
        | Form::Merge(_, inner)
        | Form::Return(inner)
        | Form::Abort(Some(inner)) => add_expr(inner, empties),
        Form::If(arms, otherwise) => {
            add_arms(arms, empties)?;
            match otherwise {
                Some(exprs) => add_exprs(exprs, empties),
                None => Ok(()),
            }
        }
        Form::Binary(_, left, right) => {
            add_expr(left, empties)?;
            add_expr(right, empties)
        }
        Form::Both(_, _, part) => {
            empties.push(Tag::Null)?;
            add_expr(part, empties)
        }
        Form::Call(call) => add_call(call, empties),
    }
}

// Adds those of a call.
#[cycle(empties)]
fn add_call(call: &Call, empties: &mut Vec<Tag>) -> Result<(), Memory>
    ensures { OnOk result (empties.new.items ≡ empties.old.items ++ nulls (in_form (call_of call.now))) }
{
    add_args(&call.args, empties)?;
    add_closure(&call.closure, empties)
}

// Adds those of a closure.
#[cycle(empties)]
pub(crate) fn add_closure(closure: &Option<Closure>, empties: &mut Vec<Tag>) -> Result<(), Memory>
    ensures { OnOk result
        (empties.new.items ≡ empties.old.items ++ nulls (in_closure (closure_in (option_map closure_of closure.now)))) }
{
    match closure {
        Some(closure) => add_exprs(&closure.body, empties),
        None => Ok(()),
    }
}

// Adds those of expressions.
#[cycle(empties)]
pub(crate) fn add_exprs(exprs: &Exprs, empties: &mut Vec<Tag>) -> Result<(), Memory>
    ensures { OnOk result (empties.new.items ≡ empties.old.items ++ nulls (in_exprs (exprs_of exprs.now))) }
{
    for expr in exprs.as_slice() {
        add_expr(expr, empties)?;
    }
    Ok(())
}

// Adds those of the values of an object.
#[cycle(empties)]
fn add_pairs(pairs: &Pairs, empties: &mut Vec<Tag>) -> Result<(), Memory>
    ensures { OnOk result (empties.new.items ≡ empties.old.items ++ nulls (in_pairs (pairs_of pairs.now))) }
{
    for (_, value) in pairs.as_slice() {
        add_expr(value, empties)?;
    }
    Ok(())
}

// Adds those of predicates and their blocks.
#[cycle(empties)]
fn add_arms(arms: &Arms, empties: &mut Vec<Tag>) -> Result<(), Memory>
    ensures { OnOk result (empties.new.items ≡ empties.old.items ++ nulls (in_arms (arms_of arms.now))) }
{
    for arm in arms.as_slice() {
        add_expr(&arm.predicate, empties)?;
        add_exprs(&arm.body, empties)?;
    }
    Ok(())
}

// Adds those of the arguments of a call.
#[cycle(empties)]
fn add_args(args: &Args, empties: &mut Vec<Tag>) -> Result<(), Memory>
    ensures { OnOk result (empties.new.items ≡ empties.old.items ++ nulls (in_args (args_of args.now))) }
{
    for arg in args.as_slice() {
        add_expr(&arg.value, empties)?;
    }
    Ok(())
}

ghost use Rattle.std.specs.Prelude.{option_map, ◌++◌, ◌≡◌, OnOk};
ghost use Rattle.vrl_check.specs.Loops.{closures_in_args, closures_in_arms, closures_in_closure, closures_in_expr, closures_in_exprs, closures_in_form, closures_in_pairs};
ghost use Rattle.vrl_check.specs.Walking.{passed_states};
ghost use Rattle.vrl_syntax.specs.View.{args_of, arms_of, call_of, closure_in, closure_of, expr_of, exprs_of, pairs_of};

use vrl_state::Branch;
use vrl_syntax::{Args, Arms, Call, Closure, Expr, Exprs, Form, Pairs};
use vrl_value::Memory;

// Adds none for each closure of an expression, since it isn't judged.
#[cycle(loops)]
pub(crate) fn add_expr(expr: &Expr, loops: &mut Vec<Option<Branch>>) -> Result<(), Memory>
    ensures { OnOk result (loops.new.items ≡ loops.old.items ++ passed_states (closures_in_expr (expr_of expr.now))) }
{
    match &expr.form {
        Form::Literal(_) | Form::Read(..) | Form::Abort(None) => Ok(()),
        Form::Array(exprs) | Form::Block(exprs) => add_exprs(exprs, loops),
        Form::Map(pairs) => add_pairs(pairs, loops),
        Form::Query(inner, _)
        | Form::Group(inner)
        | Form::Not(inner)
        | Form::Assign(_, inner)
        | Form::Merge(_, inner)
        | Form::Both(_, _, inner)
        | Form::Return(inner)
        | Form::Abort(Some(inner)) => add_expr(inner, loops),
        Form::If(arms, otherwise) => {
            add_arms(arms, loops)?;
            match otherwise {
                Some(exprs) => add_exprs(exprs, loops),
                None => Ok(()),
            }
        }
        Form::Binary(_, left, right) => {
            add_expr(left, loops)?;
            add_expr(right, loops)
        }
        Form::Call(call) => add_call(call, loops),
    }
}

// Adds those of a call.
#[cycle(loops)]
fn add_call(call: &Call, loops: &mut Vec<Option<Branch>>) -> Result<(), Memory>
    ensures { OnOk result (loops.new.items ≡ loops.old.items ++ passed_states (closures_in_form (call_of call.now))) }
{
    add_args(&call.args, loops)?;
    add_closure(&call.closure, loops)
}

// Adds none for a closure, and for each in it.
#[cycle(loops)]
pub(crate) fn add_closure(
    closure: &Option<Closure>,
    loops: &mut Vec<Option<Branch>>,
) -> Result<(), Memory>
    ensures { OnOk result
        (loops.new.items ≡ loops.old.items ++ passed_states
        (closures_in_closure (closure_in (option_map closure_of closure.now)))) }
{
    match closure {
        Some(closure) => {
            loops.push(None)?;
            add_exprs(&closure.body, loops)
        }
        None => Ok(()),
    }
}

// Adds those of expressions.
#[cycle(loops)]
pub(crate) fn add_exprs(exprs: &Exprs, loops: &mut Vec<Option<Branch>>) -> Result<(), Memory>
    ensures { OnOk result
        (loops.new.items ≡ loops.old.items ++ passed_states (closures_in_exprs (exprs_of exprs.now))) }
{
    for expr in exprs.as_slice() {
        add_expr(expr, loops)?;
    }
    Ok(())
}

// Adds those of the values of an object.
#[cycle(loops)]
fn add_pairs(pairs: &Pairs, loops: &mut Vec<Option<Branch>>) -> Result<(), Memory>
    ensures { OnOk result
        (loops.new.items ≡ loops.old.items ++ passed_states (closures_in_pairs (pairs_of pairs.now))) }
{
    for (_, value) in pairs.as_slice() {
        add_expr(value, loops)?;
    }
    Ok(())
}

// Adds those of predicates and their blocks.
#[cycle(loops)]
fn add_arms(arms: &Arms, loops: &mut Vec<Option<Branch>>) -> Result<(), Memory>
    ensures { OnOk result (loops.new.items ≡ loops.old.items ++ passed_states (closures_in_arms (arms_of arms.now))) }
{
    for arm in arms.as_slice() {
        add_expr(&arm.predicate, loops)?;
        add_exprs(&arm.body, loops)?;
    }
    Ok(())
}

// Adds those of the arguments of a call.
#[cycle(loops)]
fn add_args(args: &Args, loops: &mut Vec<Option<Branch>>) -> Result<(), Memory>
    ensures { OnOk result (loops.new.items ≡ loops.old.items ++ passed_states (closures_in_args (args_of args.now))) }
{
    for arg in args.as_slice() {
        add_expr(&arg.value, loops)?;
    }
    Ok(())
}

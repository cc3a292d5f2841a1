ghost use Rattle.std.specs.Prelude.{◌≡◌, ◌++◌, [], IfOk, OnOk, if◌then◌else◌};
ghost use Rattle.std.specs.List.{list_any};
ghost use Rattle.vrl_syntax.specs.View.{args_of, arms_of, call_of, expr_of, exprs_of, pairs_of};
ghost use Rattle.vrl_syntax.specs.Limits.{args_faults, arms_faults, expr_faults, exprs_faults, fault_at as fault_at_place, faults_at, form_faults, is_out_of_range as out_of_range, pairs_faults, path_faults, target_faults};

use crate::call_form::is_del;
use crate::root::Target;
use crate::tree::{Args, Arms, Call, Expr, Exprs, Form, Pairs};
use std::alloc::Global;
use vrl_diag::{Diagnostic, Diagnostics, Span, code};
use vrl_path::{DEPTH_LIMIT, LEAST_PLACE, PLACE_LIMIT, Path, Step};
use vrl_value::Memory;

/// What is wrong with the paths that these items write or delete, in the order of the script: 1012
/// for one with an index above 65,535 or below -65,536, or more than 128 steps. An assignment
/// writes its targets' paths, and `del` deletes those of its arguments that are paths or names.
///
/// # Errors
///
/// [`Memory`] where memory is wanted.
pub fn limit_faults(alloc: Global, items: &Exprs) -> Result<Diagnostics, Memory>
    ensures { IfOk result (λ faults. faults ≡ exprs_faults (exprs_of items.now)) }
{
    let mut faults = Vec::new(alloc);
    add_exprs(items, &mut faults)?;
    Ok(Diagnostics::new(faults))
}

// Adds the faults of the paths that an expression writes or deletes.
#[cycle(limits)]
fn add_expr(expr: &Expr, faults: &mut Vec<Diagnostic>) -> Result<(), Memory>
    ensures { OnOk result (faults.new.items ≡ faults.old.items ++ expr_faults (expr_of expr.now)) }
{
    match &expr.form {
        Form::Literal(_) | Form::Read(..) | Form::Abort(None) => Ok(()),
        Form::Array(exprs) | Form::Block(exprs) => add_exprs(exprs, faults),
        Form::Map(pairs) => add_pairs(pairs, faults),
        Form::Query(inner, _)
        | Form::Group(inner)
        | Form::Not(inner)
        | Form::Return(inner)
        | Form::Abort(Some(inner)) => add_expr(inner, faults),
        Form::If(arms, otherwise) => {
            add_arms(arms, faults)?;
            match otherwise {
                Some(exprs) => add_exprs(exprs, faults),
                None => Ok(()),
            }
        }
        Form::Binary(_, left, right) => {
            add_expr(left, faults)?;
            add_expr(right, faults)
        }
        Form::Assign(target, value) | Form::Merge(target, value) => {
            add_target(target, faults)?;
            add_expr(value, faults)
        }
        Form::Both(target, error, value) => {
            add_target(target, faults)?;
            add_target(error, faults)?;
            add_expr(value, faults)
        }
        Form::Call(call) => add_call(call, faults),
    }
}

// Adds those of a call.
#[cycle(limits)]
fn add_call(call: &Call, faults: &mut Vec<Diagnostic>) -> Result<(), Memory>
    ensures { OnOk result (faults.new.items ≡ faults.old.items ++ form_faults (call_of call.now)) }
{
    let deleted = is_del(call.name.as_str());
    add_args(&call.args, deleted, faults)?;
    match &call.closure {
        Some(closure) => add_exprs(&closure.body, faults),
        None => Ok(()),
    }
}

// Adds those of expressions.
#[cycle(limits)]
fn add_exprs(exprs: &Exprs, faults: &mut Vec<Diagnostic>) -> Result<(), Memory>
    ensures { OnOk result (faults.new.items ≡ faults.old.items ++ exprs_faults (exprs_of exprs.now)) }
{
    for expr in &exprs.exprs {
        add_expr(expr, faults)?;
    }
    Ok(())
}

// Adds those of the values of an object.
#[cycle(limits)]
fn add_pairs(pairs: &Pairs, faults: &mut Vec<Diagnostic>) -> Result<(), Memory>
    ensures { OnOk result (faults.new.items ≡ faults.old.items ++ pairs_faults (pairs_of pairs.now)) }
{
    for (_, value) in &pairs.pairs {
        add_expr(value, faults)?;
    }
    Ok(())
}

// Adds those of predicates and their blocks.
#[cycle(limits)]
fn add_arms(arms: &Arms, faults: &mut Vec<Diagnostic>) -> Result<(), Memory>
    ensures { OnOk result (faults.new.items ≡ faults.old.items ++ arms_faults (arms_of arms.now)) }
{
    for arm in &arms.arms {
        add_expr(&arm.predicate, faults)?;
        add_exprs(&arm.body, faults)?;
    }
    Ok(())
}

// Adds those of arguments, which are deleted where they are paths or names and the call deletes.
#[cycle(limits)]
fn add_args(args: &Args, deleted: bool, faults: &mut Vec<Diagnostic>) -> Result<(), Memory>
    ensures { OnOk result (faults.new.items ≡ faults.old.items ++ args_faults deleted (args_of args.now)) }
{
    for arg in &args.args {
        add_deleted(&arg.value, deleted, faults)?;
        add_expr(&arg.value, faults)?;
    }
    Ok(())
}

// Adds that of an expression that is a path or a name, where it is deleted.
fn add_deleted(expr: &Expr, deleted: bool, faults: &mut Vec<Diagnostic>) -> Result<(), Memory>
    ensures { OnOk result (faults.new.items ≡ faults.old.items ++ (if deleted then path_faults (expr_of expr.now)
        else [])) }
{
    if !deleted {
        return Ok(());
    }
    match &expr.form {
        Form::Read(_, path) => add_path(expr.span, path, faults),
        _ => Ok(()),
    }
}

// Adds that of a target.
fn add_target(target: &Target, faults: &mut Vec<Diagnostic>) -> Result<(), Memory>
    ensures { OnOk result (faults.new.items ≡ faults.old.items ++ target_faults target.now) }
{
    match target {
        Target::Nowhere => Ok(()),
        Target::Place(span, _, path) => add_path(*span, path, faults),
    }
}

// Adds that of a path that stands there.
fn add_path(span: Span, path: &Path, faults: &mut Vec<Diagnostic>) -> Result<(), Memory>
    ensures { OnOk result (faults.new.items ≡ faults.old.items ++ faults_at span path.now) }
{
    if let Some(fault) = fault_at(span, path) {
        faults.push(fault)?;
    }
    Ok(())
}

// What is wrong with a path that is written or deleted.
fn fault_at(span: Span, path: &Path) -> Option<Diagnostic>
    ensures { result ≡ fault_at_place span path.now }
{
    let steps = path.as_slice();
    if steps.len() as u64 > DEPTH_LIMIT || has_out_of_range(steps) {
        return Some(Diagnostic {
            code: code::WRITTEN_PATH_TOO_LARGE,
            span,
        });
    }
    None
}

fn has_out_of_range(steps: &[Step]) -> bool
    ensures { result ≡ list_any out_of_range steps.now }
{
    steps.iter().any(is_out_of_range)
}

fn is_out_of_range(step: &Step) -> bool
    ensures { result ≡ out_of_range step.now }
{
    match step {
        Step::Field(_) => false,
        Step::Place(place) => *place > PLACE_LIMIT || *place < LEAST_PLACE,
    }
}

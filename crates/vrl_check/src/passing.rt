ghost use Rattle.std.specs.Prelude.{option_map, ◌++◌, ◌≡◌, IfOk, OnOk};
ghost use Rattle.vrl_check.specs.Judgement.{unreached_parts};
ghost use Rattle.vrl_check.specs.Loops.{closures_in_closure, closures_in_expr, closures_in_exprs};
ghost use Rattle.vrl_check.specs.Walking.{nulls, passed_states};
ghost use Rattle.vrl_judge.specs.Judging.{HasJudged};
ghost use Rattle.vrl_syntax.specs.ErrorAssignments.{in_closure, in_expr, in_exprs};
ghost use Rattle.vrl_syntax.specs.View.{closure_in, closure_of, expr_of, exprs_of};

use crate::{empties, loops};
use vrl_judge::{Checker, Finding};
use vrl_syntax::{Closure, Expr, Exprs};
use vrl_value::Memory;

// What isn't judged gives nothing but its empty values and its closures, and the state stays.
// `Memory`: want of memory.
pub(crate) fn pass(checker: &mut Checker<'_>, expr: &Expr) -> Result<Finding, Memory>
    ensures { IfOk result (λ finding. HasJudged checker.old checker.new finding
        (record (unreached_parts (nulls (in_expr (expr_of expr.now))) (closures_in_expr (expr_of expr.now)))
        { ok = checker.old.state.known })) }
{
    empties::add_expr(expr, &mut checker.empties)?;
    loops::add_expr(expr, &mut checker.loops)?;
    Finding::nothing(checker.alloc)
}

// The same of items. `Memory`: want of memory.
pub(crate) fn pass_items(checker: &mut Checker<'_>, items: &Exprs) -> Result<Finding, Memory>
    ensures { IfOk result (λ finding. HasJudged checker.old checker.new finding
        (record (unreached_parts (nulls (in_exprs (exprs_of items.now))) (closures_in_exprs (exprs_of items.now)))
        { ok = checker.old.state.known })) }
{
    empties::add_exprs(items, &mut checker.empties)?;
    loops::add_exprs(items, &mut checker.loops)?;
    Finding::nothing(checker.alloc)
}

// The same of a closure that isn't judged. `Memory`: want of memory.
pub(crate) fn pass_closure(
    checker: &mut Checker<'_>,
    closure: &Option<Closure>,
) -> Result<(), Memory>
    ensures empties { OnOk result
        (checker.new.empties.items ≡ checker.old.empties.items ++ nulls
        (in_closure (closure_in (option_map closure_of closure.now)))) }
    ensures loops { OnOk result
        (checker.new.loops.items ≡ checker.old.loops.items ++ passed_states
        (closures_in_closure (closure_in (option_map closure_of closure.now)))) }
    ensures others { OnOk result
        (checker.new ≡ record checker.old { empties = checker.new.empties; loops = checker.new.loops }) }
{
    empties::add_closure(closure, &mut checker.empties)?;
    loops::add_closure(closure, &mut checker.loops)
}

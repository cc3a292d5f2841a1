ghost use Rattle.vrl_builtin.specs.Law.{KeepsLaw};

use crate::builtin::Builtin;

/// Each function keeps the law: the kind of a result doesn't allow absent; and arguments that are
/// there exactly where a kind is given, are of these kinds and equal the literals given are
/// answered by a value of the result's kind, or by an error only where the function may fail; and
/// each regex in the value stands in an argument. This takes no time: it is a law about the
/// definitions.
pub fn keeps_law<F: Builtin>(function: &F)
    ensures { KeepsLaw (F.Builtin.row function.now) }
{}

ghost use Rattle.vrl_resolve.specs.Laws.{EmptyScriptsGiveNull, EvaluationsStayWellFormed, MeaningsStayWellFormed};

use vrl_kind::any_holds_all;
use vrl_table::functions_keep_law;
use vrl_value::{regexes_stay_below, trees_stay_in_order};

/// A script without items gives null, and leaves the event and the metadata as they are. This
/// takes no time: it is a law about the definitions.
pub fn empty_scripts_give_null()
    ensures { EmptyScriptsGiveNull }
{}

/// Whatever an expression or the body of a closure does, values stay well-formed: in order, and
/// each regex in them one of the script's. Its literals are so, and what stands in the store. This
/// takes no time: it is a law about the definitions.
pub fn evaluations_stay_well_formed()
    ensures { EvaluationsStayWellFormed }
{
    trees_stay_in_order();
    regexes_stay_below();
    any_holds_all();
    functions_keep_law();
}

/// The same of linked expressions. This takes no time: it is a law about the definitions.
pub(crate) fn meanings_stay_well_formed()
    ensures { MeaningsStayWellFormed }
{
    trees_stay_in_order();
    regexes_stay_below();
    any_holds_all();
    functions_keep_law();
}

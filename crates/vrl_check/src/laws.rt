ghost use Rattle.vrl_check.specs.Apart.{NoCodeStandsTwice};
ghost use Rattle.vrl_check.specs.Determined.{EmptiesAreCounted, JudgementsAreDetermined, LoopsAreCounted, PoisonsHaveCauses, StatesThatHoldCanBeGiven, ThirdTriesAreStable};
ghost use Rattle.vrl_check.specs.Starts.{ScriptStartsFit};

use vrl_kind::equal_tags_are_one_kind;
use vrl_state::{forgetting_widens, root_kinds_join_themselves, starts_fit};
use vrl_table::{
    forms_are_no_functions, functions_are_found, parameters_are_told_apart, results_are_present,
};

/// A script has at most one judgement over events of a kind, where the rules leave nothing open, as
/// those of the language do. Where they allow no tries, it has at most one with the same empty
/// values and the same states of closures. This takes no time: it is a law about the definitions.
pub fn judgements_are_determined()
    ensures { JudgementsAreDetermined }
{
    equal_tags_are_one_kind();
    functions_are_found();
    forms_are_no_functions();
}

/// A judgement has one empty value for each error assignment of what is judged, whatever the open
/// rules are. This takes no time: it is a law about the definitions.
pub fn empties_are_counted()
    ensures { EmptiesAreCounted }
{}

/// A judgement tells of each closure of what is judged, whatever the open rules are. This takes no
/// time: it is a law about the definitions.
pub fn loops_are_counted()
    ensures { LoopsAreCounted }
{}

/// A judgement is poisoned exactly where one of its codes is an error, whatever the open rules are.
/// This takes no time: it is a law about the definitions.
pub fn poisons_have_causes()
    ensures { PoisonsHaveCauses }
{}

/// The third try at a closure is stable, where no closure has a state that no try gave. This takes
/// no time: it is a law about the definitions.
pub fn third_tries_are_stable()
    ensures { ThirdTriesAreStable }
{
    root_kinds_join_themselves();
    forgetting_widens();
    results_are_present();
}

/// A judgement without tries, in which the state of each closure holds, is one by rules that give
/// such states alone, so what is shown of these is shown of it. This takes no time: it is a law
/// about the definitions.
pub fn states_that_hold_can_be_given()
    ensures { StatesThatHoldCanBeGiven }
{}

/// In a judgement of a script whose expressions, names of calls, arguments and blocks of closures
/// stand at places of their own, no code stands twice at one place, whatever the open rules are.
/// This takes no time: it is a law about the definitions.
pub fn no_code_stands_twice()
    ensures { NoCodeStandsTwice }
{
    parameters_are_told_apart();
}

/// A store whose event is of the declared kind, and whose metadata is an object of JSON, fits the
/// state that a script is judged from. This takes no time: it is a law about the definitions.
pub fn script_starts_fit()
    ensures { ScriptStartsFit }
{
    starts_fit();
}

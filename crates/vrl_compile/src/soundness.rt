ghost use Rattle.vrl_compile.specs.Answer.{AcceptedScriptsAreSound};
ghost use Rattle.vrl_compile.specs.Sound.{ClosuresAreSound, ExpressionsAreSound, ScriptsAreSound};
ghost use Rattle.vrl_compile.specs.SoundLaws.{Laws};

use vrl_check::{empties_are_counted, poisons_have_causes, script_starts_fit};
use vrl_kind::parts_are_allowed;
use vrl_path::{removed_trees_are_removals, set_trees_are_sets};
use vrl_place::reads_are_of_their_cut;
use vrl_resolve::evaluations_stay_well_formed;
use vrl_state::{
    bodies_keep_fits, cuts_hold_the_allowed, either_holds_both, flattening_keeps_fits,
    forgetting_keeps_fits, joins_keep_fits, names_keep_fits, removals_keep_fits, within_keeps_fits,
    writes_keep_fits,
};
use vrl_table::{functions_are_found, functions_keep_law};
use vrl_value::members_are_maps;

// the laws of the crates below on which soundness rests
fn lower_laws()
    ensures { Laws }
{
    members_are_maps();
    set_trees_are_sets();
    removed_trees_are_removals();
    reads_are_of_their_cut();
    cuts_hold_the_allowed();
    either_holds_both();
    writes_keep_fits();
    removals_keep_fits();
    joins_keep_fits();
    parts_are_allowed();
    within_keeps_fits();
    flattening_keeps_fits();
    forgetting_keeps_fits();
    names_keep_fits();
    bodies_keep_fits();
    functions_are_found();
    functions_keep_law();
    script_starts_fit();
    empties_are_counted();
    poisons_have_causes();
    evaluations_stay_well_formed();
}

/// What the judgement says of expressions holds of their meaning. This takes no time: it is a law
/// about the definitions.
pub fn expressions_are_sound()
    ensures { ExpressionsAreSound }
{
    lower_laws();
}

/// What is known before each run of a closure's body holds there, however many runs there were: for
/// any parts that the collection may have, and so for those of each value that the argument of its
/// call may have. This takes no time: it is a law about the definitions.
pub fn closures_are_sound()
    ensures { ClosuresAreSound }
{
    lower_laws();
}

/// A script that is judged without an error code ends over every event of the declared kind and
/// every metadata that is an object of JSON as it was judged, and never with an error that it
/// doesn't handle. This takes no time: it is a law about the definitions.
pub fn scripts_are_sound()
    ensures { ScriptsAreSound }
{
    lower_laws();
    expressions_are_sound();
}

/// A script that is accepted handles each of its errors, over every event of the declared kind and
/// every metadata that is an object of JSON, and what it leaves is of the kinds that it was judged
/// to have. This takes no time: it is a law about the definitions.
pub fn accepted_scripts_are_sound()
    ensures { AcceptedScriptsAreSound }
{
    scripts_are_sound();
    either_holds_both();
    joins_keep_fits();
}

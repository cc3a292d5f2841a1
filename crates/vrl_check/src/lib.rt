//! The judgement of scripts: what each form gives before any event is there, and what is wrong with
//! it.
//!
//! The contract of [`check`] says it by `JudgesScript`, the relation of a script to its judgements,
//! and by `IsJudged`, which says that the answer tells this one: the kind of the script's value,
//! what is known where it ends with a value, with an error and with a return, and its codes in
//! their order. Within a script the judgement of an expression is `Judges`.
//!
//! Files: `script.rt` has `check` and `ending`. `walk.rt` judges the forms: each part by the walk
//! itself, and what is made of the parts by a function of `vrl_judge`; operators, branches,
//! assignments and calls with a closure stand in files of `walk/`. `calls.rt` has what comes behind
//! the arguments of a call, and `answers.rt` what the called gives; both ask `vrl_table` and no
//! function by name; `iteration.rt` has what comes before the runs of a closure, between its tries
//! and behind them. `passing.rt` has what isn't judged, of which `empties.rt` gathers the empty
//! values and `loops.rt` the closures. `judged.rt` has the answer, and `laws.rt` the laws.
#![tactic(auto)]

mod answers;
mod calls;
mod empties;
mod iteration;
mod judged;
mod laws;
mod loops;
mod passing;
mod script;
mod walk;

pub use judged::{Ending, Judged};
pub use laws::{
    empties_are_counted, judgements_are_determined, loops_are_counted, no_code_stands_twice,
    poisons_have_causes, script_starts_fit, states_that_hold_can_be_given, third_tries_are_stable,
};
pub use script::{check, ending};

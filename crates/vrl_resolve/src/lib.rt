//! Runs scripts: what a script does to an event and its variables.
//!
//! A [`Program`] is a script that is ready to be run. What a run gives is told by the meaning of
//! the script, form by form, in `Meaning`.
//!
//! Files: `program.rt` has what a program is, `linking.rt` `Program::link`, `runner.rt` `run`, and
//! `ran.rt` what a run leaves and gives. `link.rt` makes nodes (`node.rt`) of expressions:
//! variables are numbers, and calls are looked up (`callees.rt`) and bound (`bound.rt`). `walk.rt`
//! runs a node over a store, whether or not its value is asked for, with what writes at targets in
//! `walk/assignments.rt` and calls that run a closure in `walk/closures.rt`, by `steps.rt`;
//! `calls.rt` has what a call comes to, `iteration.rt` what the runs of a closure bind and what is
//! made of them, and `laws.rt` the laws. The meaning is told twice: of expressions (`Meaning`),
//! which is what callers see, and of nodes (`LinkedMeaning`), which the walk is held to. What a
//! walk asks of nodes is `Fits`, and each program holds that its own are so (`Ready`).
#![tactic(auto)]

mod bound;
mod callees;
mod calls;
mod iteration;
mod laws;
mod link;
mod linking;
mod node;
mod program;
mod ran;
mod runner;
mod steps;
mod walk;

pub use laws::{empty_scripts_give_null, evaluations_stay_well_formed};
pub use program::Program;
pub use ran::{Ended, Produced, Ran};
pub use runner::{run, run_measured};

//! Scripts: what a text says, whether it is accepted, and that what is accepted handles each of its
//! errors.
//!
//! Files: `script.rt` has `compile`, step by step, and `literals.rt` the places of malformed
//! regexes. `reading.rt` and `soundness.rt` state the laws. That of soundness is shown by a lemma
//! for each form, which takes that its parts are sound (`proofs/Sound*.antt`), over ways in which
//! one thing follows another (`SoundEnds`); one block of functions (`SoundAll`) hands the parts'
//! results on. Of a closure that is an induction on its runs (`SoundRuns`), each of which begins
//! with what the tries have found (`SoundBodies`).
#![tactic(auto)]

mod literals;
mod reading;
mod script;
mod soundness;

pub use reading::{diagnostics_are_determined, diagnostics_stand_once, scripts_have_one_reading};
pub use script::{Accepted, Compiled, compile};
pub use soundness::{
    accepted_scripts_are_sound, closures_are_sound, expressions_are_sound, scripts_are_sound,
};
pub use vrl_diag::{Diagnostic, Diagnostics, Span};
pub use vrl_resolve::Program;
pub use vrl_token::SCRIPT_LIMIT;

//! Diagnostics of a script: what is wrong, where, and how it is told.
//!
//! Files: `code.rt` has the codes by name, `titles.rt` their titles and severities, `diagnostic.rt`
//! what a diagnostic is, `rendering.rt` how one is told, and `position.rt` how lines and columns
//! are counted.
#![tactic(auto)]

pub mod code;
mod diagnostic;
mod position;
mod rendering;
mod titles;

pub use diagnostic::{Diagnostic, Diagnostics, Severity, Span};
pub use rendering::{render, render_all};
pub use titles::{severity, title};

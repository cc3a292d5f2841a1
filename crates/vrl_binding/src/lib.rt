//! How the arguments of a call are bound to parameters, those of a function or of a form that runs a closure.
//!
//! Files: `binding.rt` has `bind_to`, `collection.rt` what the functions that run a closure take, which
//! aren't of the table of functions.
#![tactic(auto)]

mod binding;
mod collection;

pub use binding::{BindFault, Bound, bind_to};
pub use collection::{collection_parameters, collections};

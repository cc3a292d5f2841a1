//! The table of the language's functions: which there are, and the calls of
//! [`Builtin`](vrl_builtin::Builtin) for the function of a name.
//!
//! Files: `function.rt` has [`Fun`] and `lookup`, `calls.rt` the calls that go to the function, and
//! `bind`, which binds a call's arguments to its parameters.
#![tactic(auto)]

mod calls;
mod function;

pub use calls::{
    apply, bind, functions_keep_law, may_fail, parameters, result_kind, wrong_literal,
};
pub use function::{
    Fun, forms_are_no_functions, functions_are_counted, functions_are_found, lookup,
    parameters_are_told_apart, results_are_present,
};

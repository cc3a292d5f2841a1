//! The tree of a script: expressions with the places where they stand, and the roots that a part of
//! a script writes.
//!
//! A contract sees an [`Expr`] as plain data, by the one function `expr_of`.
//!
//! Files: `tree.rt` has the tree, `root.rt` roots, targets and operators, `lists.rt` lists of roots
//! and of tags. `call_form.rt` tells the functions that are forms of the language from others, and
//! whether a closure has the names that one asks for, and `empty.rt` has the empty value of a tag.
//! The walks have a file each: `limits.rt` over the paths that are written or deleted, and
//! `written.rt` over the roots that a body writes.
#![tactic(auto)]

mod call_form;
mod empty;
mod limits;
mod lists;
mod root;
mod tree;
mod written;

pub use call_form::{CallForm, has_shape};
pub use empty::empty_value;
pub use limits::limit_faults;
pub use lists::{Empties, Roots};
pub use root::{METADATA, Op, Root, Target};
pub use tree::{Arg, Args, Arm, Arms, Call, Closure, Expr, Exprs, Form, Pairs, Script};
pub use written::written_roots;

//! What the judgement of a script makes of parts that were judged: operators, branches,
//! assignments, blocks, the bodies of closures, returns and the arguments of calls, each behind its
//! parts.
//!
//! The walk over a script, in the crate above, judges the parts and hands them on. Where a form is
//! one call here, its contract is told for all judgements of the parts. Where the walk takes
//! several steps, as for a branch or an error assignment, each step's contract says what it does to
//! the checker's state and to the ends of the parts, with codes that are told of what was seen of a
//! part.
//!
//! Files: `checker.rt` has the state that the walk changes, `finding.rt` and `ends.rt` what a part
//! gave, and `shared_kind.rt` its kind. `values.rt`, `operators.rt`, `branches.rt`,
//! `assignments.rt`, `items.rt` and `calls.rt` make of parts that were judged what their form
//! gives, and `closures.rt` has the steps at a closure and the kinds of its call; `tables.rt` has
//! the pairs of tags that operators take, `kinds.rt` kinds that are cut, `prefix.rt` what may stand
//! in the event and in the metadata, and `ordering.rt` the order of the codes.
#![tactic(auto)]

mod assignments;
mod branches;
mod calls;
mod checker;
mod closures;
mod ends;
mod finding;
mod items;
mod kinds;
mod operators;
mod ordering;
mod prefix;
mod shared_kind;
mod tables;
mod values;

pub use branches::{LeftSide, Ways};
pub use calls::{Argument, has_others, is_disjoint, part_has_others};
pub use checker::Checker;
pub use closures::{Held, call_kind, is_possible, key_kind, value_kind};
pub use ends::{Ends, Returned, either_of};
pub use finding::Finding;
pub use kinds::{cut, cut_kind_of, either, read_root, scalar};
pub use operators::Operands;
pub use ordering::ordered;
pub use prefix::Prefix;
pub use shared_kind::SharedKind;
pub use tables::{Table, is_chained};
pub use values::{add_field, array_kind, object_kind};

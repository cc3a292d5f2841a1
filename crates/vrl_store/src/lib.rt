//! What a run of a script works on: the event with its variables, and what plain rules make of
//! values.
//!
//! A [`Store`] has the event and the variables of a run, the metadata among them. Operators work on
//! values alone; [`Stop`] says why an expression ends without a value, and [`EmptyTags`] hands out
//! the tags of the empty values that error assignments write. Nothing here knows of expressions that
//! are run, or of functions.
//!
//! Files: `store.rt` has the event and the variables of a run, by their numbers (`target_path.rt`),
//! `metadata.rt` the first of them, `hidden_value.rt` the value that a closure's name hides,
//! `naming.rt` gives the variables their names, `operators.rt` has the operators, over `operand.rt`,
//! and `stop.rt` why an expression ends without a value. `ends.rt` has what becomes of how a part
//! ended, `empties.rt` the order of the tags of empty values, and `laws.rt` that `==` tells equality.
//! Of the definitions `Outcomes`, `Operators` and `Places` are words of the meaning; `StoreView` says
//! which store of the meaning one with numbered variables stands for, and `Kept` what each store in
//! memory keeps, which its ghost fields hold.
#![tactic(auto)]

mod empties;
mod ends;
mod hidden_value;
mod laws;
mod metadata;
mod naming;
mod operand;
mod operators;
mod stop;
mod store;
mod target_path;

pub use empties::EmptyTags;
pub use ends::{banged, unless_error};
pub use hidden_value::HiddenValue;
pub use laws::equality_is_told;
pub use operand::Operand;
pub use operators::{apply, apply_to_borrowed, is_falsy, is_true, negated, truth};
pub use stop::Stop;
pub use store::Store;
pub use target_path::{Base, TargetPath};

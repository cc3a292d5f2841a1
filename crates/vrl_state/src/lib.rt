//! What a script's judgement knows at a place: the kinds of the event and of the variables, and the
//! blocks that are open.
//!
//! A contract sees a [`State`] as dead, or as a map from roots to kinds, with the list of its
//! scopes.
//!
//! Files: `state.rt` has the calls, `blocks.rt` what those do that begin and end scopes, and
//! `branch.rt` what marks and branches are. What they know is in `roots.rt` (of each root),
//! `variables.rt` (of the variables) and `scopes.rt` (the scopes that are open), as versions that
//! share what they have in common: `tree.rt` has the ordered tree that a version is, and `walks.rt`
//! what goes over its entries. `kinds.rt` makes kinds that are cut. `known.rt` tells what is known
//! as a list, `knowns.rt` what is known at several places, and `laws.rt` that stores go on fitting
//! what is known.
#![tactic(auto)]

mod blocks;
mod branch;
mod kinds;
mod known;
mod knowns;
mod laws;
mod roots;
mod scopes;
mod state;
mod tree;
mod variables;
mod walks;

pub use branch::{Branch, Mark};
pub use kinds::{cut, json_object};
pub use known::{Known, RootKind, RootKinds};
pub use knowns::Knowns;
pub use laws::{
    blocks_give_nothing_back, blocks_keep_fits, blocks_keep_held_names, bodies_keep_fits,
    cuts_are_root_kinds, cuts_hold_the_allowed, either_holds_both, flattening_keeps_fits,
    forgetting_keeps_fits, forgetting_widens, hiding_hides, hiding_keeps_fits,
    hiding_keeps_held_names, joins_keep_fits, joins_keep_held_names, joins_keep_scopes,
    known_replaces_itself, names_keep_fits, removals_keep_fits, replacing_keeps_fits,
    root_kinds_join_themselves, starts_fit, within_keeps_fits, writes_keep_fits,
};
pub use state::State;

//! Kinds: which sorts of value may stand at each path of an event, a variable or an expression's
//! value.
//!
//! A contract sees a [`Kind`] as its tree, and says what it means by the one function `tags_at`,
//! from the tree and a path to a set of tags. Each kind is kept in one form, so that two kinds that
//! allow the same at every path are one tree.
//!
//! Files: `kind.rt` has the types, `scalars.rt` the flags of a node, `seen.rt` what the walks see
//! of a kind or of a rest, `merge.rt` the fields of two kinds side by side, and each call has a
//! file: `make.rt`, `order.rt`, `joining.rt`, `overlay.rt`, `limits.rt` (cuts), `membership.rt`,
//! `inference.rt`, `printing.rt`, `count.rt`, `same.rt`, `change.rt` and `fields.rt` (one field
//! changed in its place). `laws.rt` has the laws.
#![tactic(auto)]

mod change;
mod count;
mod fields;
mod inference;
mod joining;
mod kind;
mod laws;
mod limits;
mod make;
mod membership;
mod merge;
mod order;
mod overlay;
mod printing;
mod same;
mod scalars;
mod seen;
mod stretch;

pub use count::{levels, nodes};
pub use fields::field_index;
pub use inference::kind_of;
pub use joining::{join, parts};
pub use kind::{
    Kind, KindField, KindFields, Kinds, Rest, has, kind_is_canonical, list_part, object_part,
};
pub use laws::{
    any_holds_all, cuts_are_wider, equal_tags_are_one_kind, inhabits_is_computed,
    parts_are_allowed, parts_are_computed, parts_are_told, wider_kinds_hold_more,
};
pub use limits::{LEVEL_LIMIT, NODE_LIMIT, cut, flatten};
pub use make::without;
pub use membership::inhabits;
pub use order::{TAGS, disjoint, within};
pub use overlay::overlaid;
pub use printing::print;
pub use scalars::Scalars;
pub use stretch::{Stretch, longest_list, stretched_cut, stretched_nodes};

ghost use Rattle.std.specs.Prelude.{length};
ghost use Rattle.vrl_resolve.specs.Linked.{parts_view};
ghost use Rattle.vrl_resolve.specs.Ready.{ready-prop, IsReady};

use crate::node::Node;
use vrl_pattern::Patterns;
use vrl_value::Names;

/// A script that is ready to be run. A contract sees what it does, by `program_of`.
#[derive(Drop)]
pub struct Program {
    pub(crate) items: Vec<Node>,
    // The variables, in the order of their numbers, with the metadata first.
    pub(crate) names: Names,
    pub(crate) patterns: Patterns,
    ghost ready: { IsReady names (parts_view items.items) (length patterns) } by { ready-prop names
        (parts_view items.items) (length patterns) },
}

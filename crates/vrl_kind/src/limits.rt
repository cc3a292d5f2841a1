ghost use Rattle.std.specs.Prelude.{◌≡◌, ◌≤◌, IfOk, List};
ghost use Rattle.vrl_value.specs.Look.{Step};
ghost use Rattle.vrl_value.specs.Tree.{Tree};
ghost use Rattle.vrl_kind.specs.Count as count;
ghost use Rattle.vrl_kind.specs.Cut.{flat, IsCut, level_limit, node_limit};
ghost use Rattle.vrl_kind.specs.Kinds.{flat_at, tags_at, Inhabits, IsWithin};

use crate::count::{levels, nodes};
use crate::kind::{Kind, any_list, any_object};
use std::alloc::Global;
use vrl_value::Memory;

/// The most nodes of a kind that `cut` leaves as it is.
pub const NODE_LIMIT: u64 = 1000;

/// The most levels of a kind that `cut` leaves as it is.
pub const LEVEL_LIMIT: u64 = 32;

/// The kind with its outer tags, and with every value inside its arrays and objects. It takes no
/// memory.
pub fn flatten(alloc: Global, kind: &Kind) -> Kind
    ensures tags { (p : List Step) → tags_at result p ≡ flat_at kind.now p }
    ensures tree { result ≡ flat kind.now }
    ensures within { IsWithin kind.now result }
{
    Kind {
        scalars: kind.scalars,
        list: any_list(alloc, kind.list.is_some()),
        object: any_object(alloc, kind.object.is_some()),
    }
}

/// An equal kind, where it has at most `NODE_LIMIT` nodes and `LEVEL_LIMIT` levels; else the kind
/// with its outer tags alone, and with every value inside. It walks the kind a fixed number of
/// times. `Memory`: want of memory.
pub fn cut(alloc: Global, kind: &Kind) -> Result<Kind, Memory>
    ensures cases { IfOk result (λ small. IsCut kind.now small) }
    ensures nodes { IfOk result (λ small. count.nodes small ≤ node_limit) }
    ensures levels { IfOk result (λ small. count.levels small ≤ level_limit) }
    ensures within { IfOk result (λ small. IsWithin kind.now small) }
    ensures inhabited { IfOk result (λ small. (value : Tree) → Inhabits value kind.now → Inhabits value small) }
{
    if nodes(kind) > NODE_LIMIT || levels(kind) > LEVEL_LIMIT {
        Ok(flatten(alloc, kind))
    } else {
        kind.copy(alloc)
    }
}

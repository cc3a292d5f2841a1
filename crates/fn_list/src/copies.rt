ghost use Rattle.std.specs.Prelude.{◌≡◌, ◌++◌, map, IfOk, OnOk};
ghost use Rattle.vrl_value.specs.View.{tree_of};
ghost use Rattle.vrl_builtin.specs.Listed.{list_in};

use std::alloc::Global;
use vrl_builtin::items_of;
use vrl_value::{Memory, Value};

fn push_copies(alloc: Global, items: &mut Vec<Value>, more: &[Value]) -> Result<(), Memory>
    ensures { OnOk result (map tree_of items.new.items ≡ map tree_of items.old.items ++ map tree_of more.now) }
{
    for item in more {
        items.push(item.copy(alloc)?)?;
    }
    Ok(())
}

// Puts copies of the items of an array behind others; another value has none. `Memory`: want of
// memory; some may be put.
pub(crate) fn push_items(alloc: Global, items: &mut Vec<Value>, value: &Value) -> Result<(), Memory>
    ensures { OnOk result (map tree_of items.new.items ≡ map tree_of items.old.items ++ list_in (tree_of value.now)) }
{
    push_copies(alloc, items, items_of(value))
}

// Copies of the items of an array; another value has none. `Memory`: want of memory.
pub(crate) fn copies_of(alloc: Global, value: &Value) -> Result<Vec<Value>, Memory>
    ensures { IfOk result (λ items. map tree_of items.items ≡ list_in (tree_of value.now)) }
{
    let mut items = Vec::with_capacity(alloc, items_of(value).len())?;
    push_items(alloc, &mut items, value)?;
    Ok(items)
}

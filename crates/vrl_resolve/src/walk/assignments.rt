//! What writes at targets: an assignment, a merge, and an error assignment, which writes at two.
ghost use Rattle.std.specs.Prelude.{length};
ghost use Rattle.vrl_resolve.specs.Linked as linked;
ghost use Rattle.vrl_resolve.specs.Linked.{linked_of};
ghost use Rattle.vrl_resolve.specs.Fits.{IsTarget};
ghost use Rattle.vrl_resolve.specs.Walking.{meant, names_in, store_at, EndsAsked, FitsIn, GivesBoth, IsReadyStore, Stays};

use crate::node::Node;
use crate::steps::{asked_copy, at_target, both_values, write_to};
use crate::walk::{Context, beside, eval};
use vrl_store::{Stop, Store, TargetPath};
use vrl_syntax::Op;
use vrl_value::{Tag, Value};

#[cycle(walk)]
pub(super) fn assign(
    store: &mut Store,
    context: &Context<'_, '_>,
    is_asked: bool,
    target: &Option<TargetPath>,
    part: &Node,
) -> Result<Value, Stop>
    requires ready { IsReadyStore context.now store.old }
    requires target { IsTarget (length (names_in context.now)) target.now }
    requires fits { FitsIn context.now (linked_of part.now) }
    ensures ended { EndsAsked is_asked (meant context.now (linked.assign target.now (linked_of part.now)) store.old)
        (store_at context.now store.new) result }
    ensures stays { Stays store.old store.new }
{
    let value = eval(store, context, true, part)?;
    let copy = asked_copy(context.alloc, is_asked, &value)?;
    write_to(store, context, target, value)?;
    Ok(copy)
}

// Writes the value at a target, null where it takes nothing, with the fields of another one over
// it.
#[cycle(walk)]
pub(super) fn merge(
    store: &mut Store,
    context: &Context<'_, '_>,
    is_asked: bool,
    target: &Option<TargetPath>,
    part: &Node,
) -> Result<Value, Stop>
    requires ready { IsReadyStore context.now store.old }
    requires target { IsTarget (length (names_in context.now)) target.now }
    requires fits { FitsIn context.now (linked_of part.now) }
    ensures ended { EndsAsked is_asked (meant context.now (linked.merge target.now (linked_of part.now)) store.old)
        (store_at context.now store.new) result }
    ensures stays { Stays store.old store.new }
{
    let current = at_target(store, context, target)?;
    let value = beside(store, context, Op::Merge, current, part)?;
    let copy = asked_copy(context.alloc, is_asked, &value)?;
    write_to(store, context, target, value)?;
    Ok(copy)
}

// The values that an error assignment writes: the value and null, or at an error the empty value
// and the text.
#[cycle(walk)]
fn outcome(
    store: &mut Store,
    context: &Context<'_, '_>,
    tag: Tag,
    part: &Node,
) -> Result<(Value, Value), Stop>
    requires ready { IsReadyStore context.now store.old }
    requires fits { FitsIn context.now (linked_of part.now) }
    ensures ended { GivesBoth tag (meant context.now (linked_of part.now) store.old)
        (store_at context.now store.new) result }
    ensures stays { Stays store.old store.new }
{
    let given = eval(store, context, true, part);
    both_values(context.alloc, tag, given)
}

#[cycle(walk)]
pub(super) fn both(
    store: &mut Store,
    context: &Context<'_, '_>,
    is_asked: bool,
    ok: &Option<TargetPath>,
    err: &Option<TargetPath>,
    tag: Tag,
    part: &Node,
) -> Result<Value, Stop>
    requires ready { IsReadyStore context.now store.old }
    requires ok { IsTarget (length (names_in context.now)) ok.now }
    requires err { IsTarget (length (names_in context.now)) err.now }
    requires fits { FitsIn context.now (linked_of part.now) }
    ensures ended { EndsAsked is_asked
        (meant context.now (linked.both ok.now err.now tag (linked_of part.now)) store.old)
        (store_at context.now store.new) result }
    ensures stays { Stays store.old store.new }
{
    let (value, error) = outcome(store, context, tag, part)?;
    let copy = asked_copy(context.alloc, is_asked, &value)?;
    write_to(store, context, ok, value)?;
    write_to(store, context, err, error)?;
    Ok(copy)
}

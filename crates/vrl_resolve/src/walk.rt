ghost use Rattle.std.specs.Prelude.{◌≡◌, [], length, map, IfOk, IfSome};
ghost use Rattle.vrl_value.specs.Tree.{null};
ghost use Rattle.vrl_value.specs.View.{tree_of};
ghost use Rattle.vrl_syntax.specs.declared.root.Op.TheVariants as ops;
ghost use Rattle.vrl_store.specs.Operators.{applied};
ghost use Rattle.vrl_store.specs.Outcomes.{ends, on_value};
ghost use Rattle.vrl_resolve.specs.Calls.{acts, items_in};
ghost use Rattle.vrl_resolve.specs.Linked as linked;
ghost use Rattle.vrl_resolve.specs.Linked.{arms_view, call_of, else_view, linked_of, message_view, pairs_view, parts_view};
ghost use Rattle.vrl_resolve.specs.LinkedMeaning.{all_mean, callee_in, items_mean, means, no_body};
ghost use Rattle.vrl_resolve.specs.Meaning.{both_sides};
ghost use Rattle.vrl_resolve.specs.Fits.{IsCallee};
ghost use Rattle.vrl_resolve.specs.Walking.{meant, names_in, setting_in, store_at, AllEnd, AllFitIn, ArmsFitIn, ElseFitsIn, EndsAsked, EndsIn, EndsTrue, FitsIn, IsReadyStore, MessageFitsIn, PairsFitIn, Stays};

mod assignments;
mod closures;

use crate::calls::{act, peek, run_before};
use crate::laws::meanings_stay_well_formed;
use crate::node::{Arm, Call, Callee, Form, Node};
use crate::steps::{aborted, asked_copy, part_of};
use crate::walk::assignments::{assign, both, merge};
use crate::walk::closures::iteration;
use std::alloc::Global;
use std::collections::BTreeMap;
use vrl_builtin::Setting;
use vrl_path::Path;
use vrl_store::{
    Operand, Stop, Store, apply, apply_to_borrowed, banged, is_falsy, is_true, negated, truth,
    unless_error,
};
use vrl_syntax::Op;
use vrl_value::{Chars, Fields, Items, Names, Value};

/// What stays the same while a script runs over an event.
#[derive(Clone, Copy)]
pub(crate) struct Context<'a, 'r> {
    /// Where memory comes from.
    pub(crate) alloc: Global,
    /// The moment of the line, and the regexes of the script.
    pub(crate) setting: Setting<'a, 'r>,
    /// The names of the variables, by their numbers.
    pub(crate) names: &'a Names,
}

/// Runs an expression: its value, or why it ends without one. A value that isn't asked for may be
/// another one, and isn't copied. What was written before stays.
#[cycle(walk)]
pub(crate) fn eval(
    store: &mut Store,
    context: &Context<'_, '_>,
    is_asked: bool,
    node: &Node,
) -> Result<Value, Stop>
    requires ready { IsReadyStore context.now store.old }
    requires fits { FitsIn context.now (linked_of node.now) }
    ensures ended { EndsAsked is_asked (meant context.now (linked_of node.now) store.old)
        (store_at context.now store.new) result }
    ensures stays { Stays store.old store.new }
{
    match &node.form {
        Form::Literal(value) => Ok(asked_copy(context.alloc, is_asked, value)?),
        Form::Read(place) => Ok(asked_copy(context.alloc, is_asked, store.read(place))?),
        Form::Array(parts) => array(store, context, parts),
        Form::Object(pairs) => object(store, context, pairs),
        Form::Query(part, path) => query(store, context, part, path),
        Form::Block(items) => block(store, context, is_asked, items),
        Form::If(arms, otherwise) => conditional(store, context, is_asked, arms, otherwise),
        Form::Not(part) => negation(store, context, part),
        Form::Binary(op, left, right) => binary(store, context, *op, left, right),
        Form::Assign(target, part) => assign(store, context, is_asked, target, part),
        Form::Merge(target, part) => merge(store, context, is_asked, target, part),
        Form::Both { ok, err, tag, part } => both(store, context, is_asked, ok, err, *tag, part),
        Form::Call(called) => call(store, context, called),
        Form::Iteration(called) => iteration(store, context, called),
        Form::Return(part) => give_back(store, context, part),
        Form::Abort(message) => abort(store, context, message),
    }
}

// The values of expressions in order.
#[cycle(walk)]
fn values(store: &mut Store, context: &Context<'_, '_>, nodes: &[Node]) -> Result<Vec<Value>, Stop>
    requires ready { IsReadyStore context.now store.old }
    requires fits { AllFitIn context.now (parts_view nodes.now) }
    ensures ended { AllEnd context.now (map linked_of nodes.now) store.old store.new result }
    ensures counted { IfOk result (λ values. length values.items ≡ length nodes.now) }
    ensures stays { Stays store.old store.new }
{
    meanings_stay_well_formed();
    let mut values = Vec::with_capacity(context.alloc, nodes.len())?;
    for node in nodes {
        let value = eval(store, context, true, node)?;
        values.push(value)?;
    }
    Ok(values)
}

#[cycle(walk)]
fn array(store: &mut Store, context: &Context<'_, '_>, parts: &[Node]) -> Result<Value, Stop>
    requires ready { IsReadyStore context.now store.old }
    requires fits { AllFitIn context.now (parts_view parts.now) }
    ensures ended { EndsIn context.now
        (meant context.now (linked.array (parts_view parts.now)) store.old) store.new result }
    ensures stays { Stays store.old store.new }
{
    let values = values(store, context, parts)?;
    Ok(Value::List(Items::new(values)))
}

#[cycle(walk)]
fn object(
    store: &mut Store,
    context: &Context<'_, '_>,
    pairs: &[(Chars, Node)],
) -> Result<Value, Stop>
    requires ready { IsReadyStore context.now store.old }
    requires fits { PairsFitIn context.now (pairs_view pairs.now) }
    ensures ended { EndsIn context.now
        (meant context.now (linked.object (pairs_view pairs.now)) store.old) store.new result }
    ensures stays { Stays store.old store.new }
{
    meanings_stay_well_formed();
    let mut fields = Fields::new(BTreeMap::new(context.alloc));
    for (name, node) in pairs {
        let value = eval(store, context, true, node)?;
        fields.insert(name.copy(context.alloc)?, value)?;
    }
    Ok(Value::Object(fields))
}

#[cycle(walk)]
fn query(
    store: &mut Store,
    context: &Context<'_, '_>,
    part: &Node,
    path: &Path,
) -> Result<Value, Stop>
    requires ready { IsReadyStore context.now store.old }
    requires fits { FitsIn context.now (linked_of part.now) }
    ensures ended { EndsIn context.now
        (meant context.now (linked.query (linked_of part.now) path.now) store.old) store.new result }
    ensures stays { Stays store.old store.new }
{
    if let Some(value) = peek(store, part) {
        return Ok(part_of(context.alloc, value, path)?);
    }
    let value = eval(store, context, true, part)?;
    Ok(part_of(context.alloc, &value, path)?)
}

/// Runs items in order: the value of the last, null where there is none. No other one's value is
/// asked for.
#[cycle(walk)]
pub(crate) fn items(
    store: &mut Store,
    context: &Context<'_, '_>,
    is_asked: bool,
    items: &[Node],
) -> Result<Value, Stop>
    requires ready { IsReadyStore context.now store.old }
    requires fits { AllFitIn context.now (parts_view items.now) }
    ensures ended { EndsAsked is_asked
        (items_mean (names_in context.now) (setting_in context.now) null (parts_view items.now)
        (store_at context.now store.old))
        (store_at context.now store.new) result }
    ensures stays { Stays store.old store.new }
{
    meanings_stay_well_formed();
    let Some((last, others)) = items.split_last() else {
        return Ok(Value::Null);
    };
    for item in others {
        eval(store, context, false, item)?;
    }
    eval(store, context, is_asked, last)
}

// Items whose variables end with them, by whatever end.
#[cycle(walk)]
fn block(
    store: &mut Store,
    context: &Context<'_, '_>,
    is_asked: bool,
    body: &[Node],
) -> Result<Value, Stop>
    requires ready { IsReadyStore context.now store.old }
    requires fits { AllFitIn context.now (parts_view body.now) }
    ensures ended { EndsAsked is_asked (meant context.now (linked.block (parts_view body.now)) store.old)
        (store_at context.now store.new) result }
    ensures stays { Stays store.old store.new }
{
    let count = store.count();
    let value = items(store, context, is_asked, body);
    store.leave(count);
    value
}

#[cycle(walk)]
fn conditional(
    store: &mut Store,
    context: &Context<'_, '_>,
    is_asked: bool,
    arms: &[Arm],
    otherwise: &Option<Vec<Node>>,
) -> Result<Value, Stop>
    requires ready { IsReadyStore context.now store.old }
    requires arms { ArmsFitIn context.now (arms_view arms.now) }
    requires otherwise { ElseFitsIn context.now (else_view otherwise.now) }
    ensures ended { EndsAsked is_asked
        (meant context.now (linked.conditional (arms_view arms.now) (else_view otherwise.now)) store.old)
        (store_at context.now store.new) result }
    ensures stays { Stays store.old store.new }
{
    meanings_stay_well_formed();
    for arm in arms {
        if holds(store, context, &arm.predicate)? {
            return block(store, context, is_asked, &arm.body);
        }
    }
    match otherwise {
        Some(items) => block(store, context, is_asked, items),
        None => Ok(Value::Null),
    }
}

// Whether an expression's value is true.
#[cycle(walk)]
fn holds(store: &mut Store, context: &Context<'_, '_>, node: &Node) -> Result<bool, Stop>
    requires ready { IsReadyStore context.now store.old }
    requires fits { FitsIn context.now (linked_of node.now) }
    ensures ended { EndsTrue (meant context.now (linked_of node.now) store.old)
        (store_at context.now store.new) result }
    ensures stays { Stays store.old store.new }
{
    if let Some(value) = peek(store, node) {
        return Ok(is_true(value));
    }
    let value = eval(store, context, true, node)?;
    Ok(is_true(&value))
}

#[cycle(walk)]
fn negation(store: &mut Store, context: &Context<'_, '_>, part: &Node) -> Result<Value, Stop>
    requires ready { IsReadyStore context.now store.old }
    requires fits { FitsIn context.now (linked_of part.now) }
    ensures ended { EndsIn context.now
        (meant context.now (linked.negation (linked_of part.now)) store.old) store.new result }
    ensures stays { Stays store.old store.new }
{
    if let Some(value) = peek(store, part) {
        return negated(context.alloc, value);
    }
    let value = eval(store, context, true, part)?;
    negated(context.alloc, &value)
}

#[cycle(walk)]
fn binary(
    store: &mut Store,
    context: &Context<'_, '_>,
    op: Op,
    left: &Node,
    right: &Node,
) -> Result<Value, Stop>
    requires ready { IsReadyStore context.now store.old }
    requires left { FitsIn context.now (linked_of left.now) }
    requires right { FitsIn context.now (linked_of right.now) }
    ensures ended { EndsIn context.now
        (meant context.now (linked.binary op (linked_of left.now) (linked_of right.now)) store.old) store.new result }
    ensures stays { Stays store.old store.new }
{
    meanings_stay_well_formed();
    match op {
        Op::Coalesce => coalescing(store, context, left, right),
        Op::Or => disjunction(store, context, left, right),
        Op::And => conjunction(store, context, left, right),
        _ => {
            if let Some(value) = look(store, context, op, left, right) {
                return value;
            }
            let left = eval(store, context, true, left)?;
            beside(store, context, op, left, right)
        }
    }
}

// An operator between two sides that stand somewhere already. `None`: one of them doesn't.
fn look(
    store: &Store,
    context: &Context<'_, '_>,
    op: Op,
    left: &Node,
    right: &Node,
) -> Option<Result<Value, Stop>>
    requires ready { IsReadyStore context.now store.now }
    requires left { FitsIn context.now (linked_of left.now) }
    requires right { FitsIn context.now (linked_of right.now) }
    ensures { IfSome result (EndsIn context.now
        (both_sides op (meant context.now (linked_of left.now) store.now)
        (λ after. means (names_in context.now) (setting_in context.now) (linked_of right.now) after)) store.now) }
{
    match (peek(store, left), peek(store, right)) {
        (Some(left), Some(right)) => Some(apply_to_borrowed(context.alloc, op, left, right)),
        _ => None,
    }
}

// An operator between a value and its right side.
#[cycle(walk)]
fn beside(
    store: &mut Store,
    context: &Context<'_, '_>,
    op: Op,
    left: Value,
    right: &Node,
) -> Result<Value, Stop>
    requires ready { IsReadyStore context.now store.old }
    requires fits { FitsIn context.now (linked_of right.now) }
    ensures ended { EndsIn context.now
        (on_value (meant context.now (linked_of right.now) store.old)
        (λ v after. ends (applied op (tree_of left) v) after)) store.new result }
    ensures stays { Stays store.old store.new }
{
    if let Some(value) = peek(store, right) {
        return apply(
            context.alloc,
            op,
            Operand::Owned(left),
            Operand::Borrowed(value),
        );
    }
    let right = eval(store, context, true, right)?;
    apply(
        context.alloc,
        op,
        Operand::Owned(left),
        Operand::Owned(right),
    )
}

// `??`.
#[cycle(walk)]
fn coalescing(
    store: &mut Store,
    context: &Context<'_, '_>,
    left: &Node,
    right: &Node,
) -> Result<Value, Stop>
    requires ready { IsReadyStore context.now store.old }
    requires left { FitsIn context.now (linked_of left.now) }
    requires right { FitsIn context.now (linked_of right.now) }
    ensures ended { EndsIn context.now
        (meant context.now
        (linked.binary ops.Coalesce (linked_of left.now) (linked_of right.now)) store.old) store.new result }
    ensures stays { Stays store.old store.new }
{
    meanings_stay_well_formed();
    let value = eval(store, context, true, left);
    match unless_error(value)? {
        Some(value) => Ok(value),
        None => eval(store, context, true, right),
    }
}

// `||`.
#[cycle(walk)]
fn disjunction(
    store: &mut Store,
    context: &Context<'_, '_>,
    left: &Node,
    right: &Node,
) -> Result<Value, Stop>
    requires ready { IsReadyStore context.now store.old }
    requires left { FitsIn context.now (linked_of left.now) }
    requires right { FitsIn context.now (linked_of right.now) }
    ensures ended { EndsIn context.now
        (meant context.now
        (linked.binary ops.Or (linked_of left.now) (linked_of right.now)) store.old) store.new result }
    ensures stays { Stays store.old store.new }
{
    meanings_stay_well_formed();
    let value = eval(store, context, true, left)?;
    if is_falsy(&value) {
        return eval(store, context, true, right);
    }
    Ok(value)
}

// `&&`.
#[cycle(walk)]
fn conjunction(
    store: &mut Store,
    context: &Context<'_, '_>,
    left: &Node,
    right: &Node,
) -> Result<Value, Stop>
    requires ready { IsReadyStore context.now store.old }
    requires left { FitsIn context.now (linked_of left.now) }
    requires right { FitsIn context.now (linked_of right.now) }
    ensures ended { EndsIn context.now
        (meant context.now
        (linked.binary ops.And (linked_of left.now) (linked_of right.now)) store.old) store.new result }
    ensures stays { Stays store.old store.new }
{
    meanings_stay_well_formed();
    let value = eval(store, context, true, left)?;
    if !truth(context.alloc, &value)? {
        return Ok(Value::Bool(false));
    }
    let value = eval(store, context, true, right)?;
    Ok(Value::Bool(truth(context.alloc, &value)?))
}

#[cycle(walk)]
fn call(store: &mut Store, context: &Context<'_, '_>, call: &Call) -> Result<Value, Stop>
    requires ready { IsReadyStore context.now store.old }
    requires fits { FitsIn context.now (call_of call.now) }
    ensures ended { EndsIn context.now (meant context.now (call_of call.now) store.old) store.new result }
    ensures stays { Stays store.old store.new }
{
    let value = answer(store, context, &call.callee, &call.args);
    if call.bang {
        return banged(value);
    }
    value
}

#[cycle(walk)]
fn answer(
    store: &mut Store,
    context: &Context<'_, '_>,
    callee: &Callee,
    args: &[Node],
) -> Result<Value, Stop>
    requires ready { IsReadyStore context.now store.old }
    requires callee { IsCallee (length (names_in context.now)) (parts_view args.now) callee.now }
    requires fits { AllFitIn context.now (parts_view args.now) }
    ensures ended { EndsIn context.now
        (on_value (all_mean (names_in context.now) (setting_in context.now) (parts_view args.now) []
        (store_at context.now store.old))
        (λ vs after. acts (setting_in context.now) (callee_in (names_in context.now) callee.now) no_body
        (items_in vs) after)) store.new result }
    ensures stays { Stays store.old store.new }
{
    meanings_stay_well_formed();
    let count = run_before(args);
    let run = values(store, context, &args[..count])?;
    act(store, context, callee, run, args)
}

#[cycle(walk)]
fn give_back(store: &mut Store, context: &Context<'_, '_>, part: &Node) -> Result<Value, Stop>
    requires ready { IsReadyStore context.now store.old }
    requires fits { FitsIn context.now (linked_of part.now) }
    ensures ended { EndsIn context.now
        (meant context.now (linked.return_of (linked_of part.now)) store.old) store.new result }
    ensures stays { Stays store.old store.new }
{
    let value = eval(store, context, true, part)?;
    Err(Stop::Returned(value))
}

#[cycle(walk)]
fn abort(
    store: &mut Store,
    context: &Context<'_, '_>,
    message: &Option<Box<Node>>,
) -> Result<Value, Stop>
    requires ready { IsReadyStore context.now store.old }
    requires fits { MessageFitsIn context.now (message_view message.now) }
    ensures ended { EndsIn context.now
        (meant context.now (linked.abort_with (message_view message.now)) store.old) store.new result }
    ensures stays { Stays store.old store.new }
{
    match message {
        Some(part) => {
            let value = eval(store, context, true, part)?;
            Err(aborted(context.alloc, value))
        }
        None => Err(Stop::Aborted(None)),
    }
}

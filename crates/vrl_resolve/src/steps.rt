ghost use Rattle.std.specs.Prelude.{◌≡◌, ◌≢◌, true, Err, IfOk, IsErr, IsOk, None};
ghost use Rattle.vrl_value.specs.View.{tree_of};
ghost use Rattle.vrl_path.specs.Read.{read_at};
ghost use Rattle.vrl_syntax.specs.Stores.{Store as StoreTree};
ghost use Rattle.vrl_store.specs.Outcomes.{Ended};
ghost use Rattle.vrl_store.specs.Places as spec;
ghost use Rattle.vrl_store.specs.StoreView.{count_of, store_in, AreNames, Names};
ghost use Rattle.vrl_store.specs.Results.{Ends, IsStop};
ghost use Rattle.vrl_resolve.specs.LinkedMeaning.{target_of};
ghost use Rattle.vrl_resolve.specs.Meaning.{aborted_with};
ghost use Rattle.vrl_resolve.specs.Fits.{IsTarget};
ghost use Rattle.vrl_resolve.specs.Walking.{GivesBoth, Stays, WritesTo};

use crate::walk::Context;
use std::alloc::Global;
use vrl_path::{Path, get};
use vrl_store::{Stop, Store, TargetPath};
use vrl_syntax::empty_value;
use vrl_value::{Chars, Memory, Tag, Value};

/// Writes a value where the target takes one.
pub(crate) fn write_to(
    store: &mut Store,
    context: &Context<'_, '_>,
    target: &Option<TargetPath>,
    value: Value,
) -> Result<(), Stop>
    requires target { IsTarget (count_of store.old) target.now }
    ensures written { (names : Names) → AreNames names store.old
        → WritesTo (target_of names target.now) (tree_of value) (store_in names store.old)
        (store_in names store.new) result }
    ensures stays { Stays store.old store.new }
{
    if let Some(place) = target {
        store.write(context.alloc, place, value)?;
    }
    Ok(())
}

/// The value again, where it is asked for; else null. `Memory`: want of memory, where it is asked
/// for.
pub(crate) fn asked_copy(alloc: Global, is_asked: bool, value: &Value) -> Result<Value, Memory>
    ensures copy { IfOk result (λ copy. is_asked ≡ true → tree_of copy ≡ tree_of value.now) }
    ensures want { IsErr result → is_asked ≡ true }
{
    if is_asked {
        return value.copy(alloc);
    }
    Ok(Value::Null)
}

/// The value at a target; null where it takes nothing. `Memory`: want of memory.
pub(crate) fn at_target(
    store: &Store,
    context: &Context<'_, '_>,
    target: &Option<TargetPath>,
) -> Result<Value, Memory>
    requires target { IsTarget (count_of store.now) target.now }
    ensures value { IfOk result
        (λ value. (names : Names) → AreNames names store.now
        → tree_of value ≡ spec.target_value (target_of names target.now) (store_in names store.now)) }
    ensures none { target.now ≡ None → IsOk result }
{
    match target {
        Some(place) => store.read(place).copy(context.alloc),
        None => Ok(Value::Null),
    }
}

/// What stands at a path of a value; null where nothing does. `Memory`: want of memory.
pub(crate) fn part_of(alloc: Global, value: &Value, path: &Path) -> Result<Value, Memory>
    ensures part { IfOk result (λ part. tree_of part ≡ spec.part_of (tree_of value.now) path.now) }
    ensures none { read_at (tree_of value.now) path.now ≡ None → IsOk result }
{
    match get(value, path) {
        Some(part) => part.copy(alloc),
        None => Ok(Value::Null),
    }
}

/// The value that a part ended with and null; at an error the empty value and the text. `Memory`:
/// the part ended with that.
pub(crate) fn both_values(
    alloc: Global,
    tag: Tag,
    given: Result<Value, Stop>,
) -> Result<(Value, Value), Stop>
    ensures gives { (ended : Ended) (store : StoreTree) → Ends ended store given → GivesBoth tag ended store result }
    ensures want { result ≡ Err Stop.Memory → given ≡ Err Stop.Memory }
{
    match given {
        Ok(value) => Ok((value, Value::Null)),
        Err(Stop::Error(text)) => Ok((empty_value(alloc, tag), Value::Text(text))),
        Err(other) => Err(other),
    }
}

/// An `abort` with a message. `Error`: the message is no text.
pub(crate) fn aborted(alloc: Global, message: Value) -> Stop
    ensures stop { IsStop (aborted_with (tree_of message)) result }
    ensures no_want { result ≢ Stop.Memory }
{
    match message {
        Value::Text(text) => Stop::Aborted(Some(text)),
        _ => Stop::Error(Chars::new(String::new(alloc))),
    }
}

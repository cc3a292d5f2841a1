ghost use Rattle.std.specs.Prelude.{◌≡◌, ◌++◌, ◌-◌, ◌≤◌, OnErr, OnOk, replicate, take, vec_len, [], ◌∷◌};

use crate::memory::Memory;
use crate::value::Value;

/// Puts a value at a place behind the last one, with nulls in between. `Memory`: want of memory;
/// the values stay as they were.
pub fn push_at(values: &mut Vec<Value>, place: usize, value: Value) -> Result<(), Memory>
    requires { vec_len values.old ≤ place }
    ensures ok { OnOk result (values.new.items
        ≡ values.old.items ++ (replicate (place - vec_len values.old) Value.Null ++ value ∷ [])) }
    ensures err { OnErr result (values.new.items ≡ values.old.items) }
{
    let count = values.len();
    let outcome = push_padded(values, place, value);
    if outcome.is_err() {
        values.truncate(count);
    }
    outcome
}

// Puts a value at a place behind the last one. `Memory`: want of memory; some nulls may stand
// behind.
fn push_padded(values: &mut Vec<Value>, place: usize, value: Value) -> Result<(), Memory>
    requires { vec_len values.old ≤ place }
    ensures ok { OnOk result (values.new.items
        ≡ values.old.items ++ (replicate (place - vec_len values.old) Value.Null ++ value ∷ [])) }
    ensures kept { take (vec_len values.old) values.new.items ≡ values.old.items }
{
    pad(values, place)?;
    values.push(value)?;
    Ok(())
}

// Adds nulls up to a length. `Memory`: want of memory; some nulls may stand behind.
fn pad(values: &mut Vec<Value>, length: usize) -> Result<(), Memory>
    requires { vec_len values.old ≤ length }
    ensures ok { OnOk result
        (values.new.items ≡ values.old.items ++ replicate (length - vec_len values.old) Value.Null) }
    ensures kept { take (vec_len values.old) values.new.items ≡ values.old.items }
{
    for _place in values.len()..length {
        values.push(Value::Null)?;
    }
    Ok(())
}

ghost use Rattle.std.specs.Prelude.{◌≡◌};
ghost use Rattle.std.specs.Cmp.Lexicographic.{slice_cmp};
ghost use Rattle.std.specs.Ordering.{nat_cmp, ordering_then};
ghost use Rattle.vrl_value.specs.View.{items_view, members_of, tree_of};
ghost use Rattle.fn_list.specs.Order.{order, order_items, order_members, rank};

use std::cmp::Ordering;
use vrl_value::{Fields, Value};

// Where a value of its tag stands among those of others.
fn rank(value: &Value) -> u8
    ensures { result ≡ rank (tree_of value.now) }
{
    match value {
        Value::Null => 1,
        Value::Bool(_) => 2,
        Value::Int(_) => 3,
        Value::Time(_) => 4,
        Value::Pattern(_) => 5,
        Value::Text(_) => 6,
        Value::List(_) => 7,
        Value::Object(_) => 8,
    }
}

// The order of two values. It looks at each part at most once.
#[cycle(order)]
pub(crate) fn order(value: &Value, other: &Value) -> Ordering
    ensures { result ≡ order (tree_of value.now) (tree_of other.now) }
{
    match (value, other) {
        (Value::Bool(a), Value::Bool(b)) => a.cmp(b),
        (Value::Int(a), Value::Int(b)) => a.cmp(b),
        (Value::Time(a), Value::Time(b)) => a.nanos().cmp(&b.nanos()),
        (Value::Pattern(a), Value::Pattern(b)) => a.cmp(b),
        (Value::Text(a), Value::Text(b)) => a.as_str().cmp(b.as_str()),
        (Value::List(a), Value::List(b)) => order_items(a.as_slice(), b.as_slice()),
        (Value::Object(a), Value::Object(b)) => order_fields(a, b),
        _ => rank(value).cmp(&rank(other)),
    }
}

// The order of two arrays: the first two parts that differ decide, or else that one is shorter.
#[cycle(order)]
fn order_items(items: &[Value], others: &[Value]) -> Ordering
    ensures { result ≡ order_items (items_view items.now) (items_view others.now) }
{
    let mut right = others;
    for item in items {
        let Some((other, rest)) = right.split_first() else {
            return Ordering::Greater;
        };
        match order(item, other) {
            Ordering::Less => return Ordering::Less,
            Ordering::Greater => return Ordering::Greater,
            Ordering::Equal => right = rest,
        }
    }
    match right.first() {
        Some(_) => Ordering::Less,
        None => Ordering::Equal,
    }
}

// The order of two objects: the first two fields that differ decide, by their names and then by
// their values.
#[cycle(order)]
fn order_fields(fields: &Fields, others: &Fields) -> Ordering
    ensures { result ≡ order_members (members_of fields.now) (members_of others.now) }
{
    let mut right = others.as_map().iter();
    for (name, value) in fields.as_map().iter() {
        let Some((key, other)) = right.next() else {
            return Ordering::Greater;
        };
        match order_field(name.as_str(), value, key.as_str(), other) {
            Ordering::Less => return Ordering::Less,
            Ordering::Greater => return Ordering::Greater,
            Ordering::Equal => {}
        }
    }
    if right.next().is_none() {
        Ordering::Equal
    } else {
        Ordering::Less
    }
}

// The order of two fields: their names decide, or else their values.
#[cycle(order)]
fn order_field(name: &str, value: &Value, key: &str, other: &Value) -> Ordering
    ensures { result ≡ ordering_then (slice_cmp nat_cmp name.now key.now)
        (order (tree_of value.now) (tree_of other.now)) }
{
    match name.cmp(key) {
        Ordering::Less => Ordering::Less,
        Ordering::Greater => Ordering::Greater,
        Ordering::Equal => order(value, other),
    }
}

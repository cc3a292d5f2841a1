ghost use Rattle.std.specs.Prelude.{◌≡◌, ◌≢◌, ◌++◌, ℕ, List, IfOk, IsOk, IsTrue};
ghost use Rattle.vrl_value.specs.Tree.{object, string, Members};
ghost use Rattle.vrl_value.specs.View.{members_of, tree_of};
ghost use Rattle.vrl_store.specs.Operators as spec;
ghost use Rattle.vrl_store.specs.Results.{is_small, operand_tree, Gives, GivesTruth, IsStop, IsAdding};

use crate::operand::Operand;
use crate::stop::Stop;
use std::alloc::Global;
use std::cmp::Ordering;
use std::collections::BTreeMap;
use vrl_syntax::Op;
use vrl_value::{Chars, Fields, Memory, Tag, Value};

/// What an operator that asks both its sides gives for two values; `??`, `||` and `&&` have rules
/// of their own. A value that may be kept is built on, and no other is changed. `Error`: the
/// operator doesn't take these two.
pub fn apply(alloc: Global, op: Op, left: Operand<'_>, right: Operand<'_>) -> Result<Value, Stop>
    ensures gives { Gives (spec.applied op (operand_tree left.entry) (operand_tree right.entry)) result }
    ensures small { IsTrue (is_small (spec.applied op (operand_tree left.entry) (operand_tree right.entry)))
        → IsOk result }
{
    match op {
        Op::Merge => merge(alloc, left, right),
        Op::Plus => sum(alloc, left, right),
        _ => apply_to_borrowed(alloc, op, left.value(), right.value()),
    }
}

/// The same of two values that stand elsewhere.
pub fn apply_to_borrowed(alloc: Global, op: Op, left: &Value, right: &Value) -> Result<Value, Stop>
    ensures gives { Gives (spec.applied op (tree_of left.now) (tree_of right.now)) result }
    ensures small { IsTrue (is_small (spec.applied op (tree_of left.now) (tree_of right.now))) → IsOk result }
{
    match op {
        Op::Equal => Ok(Value::Bool(is_same(left, right))),
        Op::Unequal => Ok(Value::Bool(!is_same(left, right))),
        Op::Less => compare(alloc, op, left, right),
        Op::AtMost => compare(alloc, op, left, right),
        Op::More => compare(alloc, op, left, right),
        Op::AtLeast => compare(alloc, op, left, right),
        Op::Merge => merge(alloc, Operand::Borrowed(left), Operand::Borrowed(right)),
        Op::Plus => sum(alloc, Operand::Borrowed(left), Operand::Borrowed(right)),
        Op::Minus => difference(alloc, left, right),
        Op::Times => product(alloc, left, right),
        Op::Coalesce => Err(cannot_apply(alloc, op, left, right)),
        Op::Or => Err(cannot_apply(alloc, op, left, right)),
        Op::And => Err(cannot_apply(alloc, op, left, right)),
    }
}

// Whether two values are equal.
fn is_same(left: &Value, right: &Value) -> bool
    ensures { result ≡ spec.same (tree_of left.now) (tree_of right.now) }
{
    left.same(right)
}

/// An operator as it is written.
fn symbol(op: Op) -> &'static str
    ensures { result.now ≡ spec.symbol_of op }
{
    match op {
        Op::Coalesce => "??",
        Op::Or => "||",
        Op::And => "&&",
        Op::Equal => "==",
        Op::Unequal => "!=",
        Op::Less => "<",
        Op::AtMost => "<=",
        Op::More => ">",
        Op::AtLeast => ">=",
        Op::Merge => "|",
        Op::Plus => "+",
        Op::Minus => "-",
        Op::Times => "*",
    }
}

// The text of the error that an operator doesn't take values of two tags. `Memory`: want of memory.
fn pair_text(alloc: Global, op: Op, left: Tag, right: Tag) -> Result<Chars, Memory>
    ensures { IfOk result (λ text. text ≡ spec.pair_text op left right) }
{
    let op = symbol(op);
    let left = left.word();
    let right = right.word();
    let text = format!(in alloc; "cannot apply {op} to {left} and {right}")?;
    Ok(Chars::new(text))
}

// The error that an operator doesn't take two values, or want of memory.
fn cannot_apply(alloc: Global, op: Op, left: &Value, right: &Value) -> Stop
    ensures { IsStop (spec.cannot_apply op (tree_of left.now) (tree_of right.now)) result }
{
    match pair_text(alloc, op, left.tag(), right.tag()) {
        Ok(text) => Stop::Error(text),
        Err(_refused) => Stop::Memory,
    }
}

// How two values are added.
#[derive(Clone, Copy)]
pub(crate) enum Addition {
    // As whole numbers: their sum.
    Number(i64),
    // As texts, which are joined.
    Joined,
    // The first one is the sum, or the second one, since the other is null.
    First,
    Second,
    // They aren't.
    None,
}

// How two values are added: whole numbers with a sum that wraps at 64 bits, texts, and a text
// beside a null, which counts as empty.
fn adding(left: &Value, right: &Value) -> Addition
    ensures { IsAdding (tree_of left.now) (tree_of right.now) result }
{
    match (left, right) {
        (Value::Int(first), Value::Int(second)) => Addition::Number(first.wrapping_add(*second)),
        (Value::Text(_), Value::Text(_)) => Addition::Joined,
        (Value::Text(_), Value::Null) => Addition::First,
        (Value::Null, Value::Text(_)) => Addition::Second,
        _ => Addition::None,
    }
}

// The sum of two values.
fn sum(alloc: Global, left: Operand<'_>, right: Operand<'_>) -> Result<Value, Stop>
    ensures gives { Gives (spec.sum_of (operand_tree left.entry) (operand_tree right.entry)) result }
    ensures small { IsTrue (is_small (spec.sum_of (operand_tree left.entry) (operand_tree right.entry))) → IsOk result }
{
    match adding(left.value(), right.value()) {
        Addition::Number(number) => Ok(Value::Int(number)),
        Addition::Joined => Ok(joined(alloc, left, right.value())?),
        Addition::First => Ok(left.into_value(alloc)?),
        Addition::Second => Ok(right.into_value(alloc)?),
        Addition::None => Err(cannot_apply(alloc, Op::Plus, left.value(), right.value())),
    }
}

// The text of a value; what is no text counts as an empty one.
fn text_of(value: &Value) -> &str
    ensures { (s : List ℕ) → tree_of value.now ≡ string s → result.now ≡ s }
{
    match value {
        Value::Text(text) => text.as_str(),
        _ => "",
    }
}

// A text with another one behind it; what is no text counts as an empty one. `Memory`: want of
// memory.
fn joined(alloc: Global, left: Operand<'_>, right: &Value) -> Result<Value, Memory>
    ensures { IfOk result (λ value. (s t : List ℕ) → operand_tree left.entry ≡ string s → tree_of right.now ≡ string t
        → tree_of value ≡ string (s ++ t)) }
{
    let mut text = match left.into_value(alloc)? {
        Value::Text(text) => text.into_string(),
        _ => String::new(alloc),
    };
    text.push_str(text_of(right))?;
    Ok(Value::Text(Chars::new(text)))
}

// The difference of two whole numbers, which wraps at 64 bits.
fn difference(alloc: Global, left: &Value, right: &Value) -> Result<Value, Stop>
    ensures gives { Gives (spec.difference_of (tree_of left.now) (tree_of right.now)) result }
    ensures small { IsTrue (is_small (spec.difference_of (tree_of left.now) (tree_of right.now))) → IsOk result }
{
    match (left, right) {
        (Value::Int(first), Value::Int(second)) => Ok(Value::Int(first.wrapping_sub(*second))),
        _ => Err(cannot_apply(alloc, Op::Minus, left, right)),
    }
}

// The product of two whole numbers, which wraps at 64 bits.
fn product(alloc: Global, left: &Value, right: &Value) -> Result<Value, Stop>
    ensures gives { Gives (spec.product_of (tree_of left.now) (tree_of right.now)) result }
    ensures small { IsTrue (is_small (spec.product_of (tree_of left.now) (tree_of right.now))) → IsOk result }
{
    match (left, right) {
        (Value::Int(first), Value::Int(second)) => Ok(Value::Int(first.wrapping_mul(*second))),
        _ => Err(cannot_apply(alloc, Op::Times, left, right)),
    }
}

// What `<` and its like say of two whole numbers, two texts or two timestamps.
fn compare(alloc: Global, op: Op, left: &Value, right: &Value) -> Result<Value, Stop>
    ensures gives { Gives (spec.comparison_of op (tree_of left.now) (tree_of right.now)) result }
    ensures small { IsTrue (is_small (spec.comparison_of op (tree_of left.now) (tree_of right.now))) → IsOk result }
{
    match left.compare(right) {
        Some(ordering) => Ok(Value::Bool(holds(op, ordering))),
        None => Err(cannot_apply(alloc, op, left, right)),
    }
}

// What `<` or one of its like says of an order.
fn holds(op: Op, ordering: Ordering) -> bool
    ensures { result ≡ spec.holds op ordering }
{
    match op {
        Op::Less => ordering == Ordering::Less,
        Op::AtMost => ordering != Ordering::Greater,
        Op::More => ordering == Ordering::Greater,
        Op::AtLeast => ordering != Ordering::Less,
        _ => false,
    }
}

// The fields of two objects; of a name that both have, the right one's value.
fn merge(alloc: Global, left: Operand<'_>, right: Operand<'_>) -> Result<Value, Stop>
    ensures gives { Gives (spec.merged (operand_tree left.entry) (operand_tree right.entry)) result }
    ensures small { IsTrue (is_small (spec.merged (operand_tree left.entry) (operand_tree right.entry))) → IsOk result }
{
    match (left.value(), right.value()) {
        (Value::Object(_), Value::Object(_)) => {
            let mut fields = fields_of(alloc, left)?;
            right.put_into(alloc, &mut fields)?;
            Ok(Value::Object(fields))
        }
        (first, second) => Err(cannot_apply(alloc, Op::Merge, first, second)),
    }
}

// The fields of an object, or copies of them where it stands elsewhere; what is no object has none.
// `Memory`: want of memory.
fn fields_of(alloc: Global, operand: Operand<'_>) -> Result<Fields, Memory>
    ensures { IfOk result (λ fields. (ms : Members) → operand_tree operand.entry ≡ object ms → members_of fields ≡ ms) }
{
    match operand.into_value(alloc)? {
        Value::Object(fields) => Ok(fields),
        _ => Ok(Fields::new(BTreeMap::new(alloc))),
    }
}

/// Whether a value is null or false.
pub fn is_falsy(value: &Value) -> bool
    ensures { result ≡ spec.is_falsy (tree_of value.now) }
{
    match value {
        Value::Null => true,
        Value::Bool(truth) => !*truth,
        _ => false,
    }
}

/// Whether a value is true.
pub fn is_true(value: &Value) -> bool
    ensures { result ≡ spec.is_true (tree_of value.now) }
{
    match value {
        Value::Bool(truth) => *truth,
        _ => false,
    }
}

// The text of the error that `&&` doesn't take a value of a tag. `Memory`: want of memory.
fn truth_text(alloc: Global, tag: Tag) -> Result<Chars, Memory>
    ensures { IfOk result (λ text. text ≡ spec.truth_text tag) }
{
    let word = tag.word();
    let text = format!(in alloc; "cannot apply && to {word}")?;
    Ok(Chars::new(text))
}

/// Whether a side of `&&` is true. `Error`: it is neither a boolean nor null.
pub fn truth(alloc: Global, value: &Value) -> Result<bool, Stop>
    ensures gives { GivesTruth (spec.truth_of (tree_of value.now)) result }
    ensures small { IsTrue (is_small (spec.truth_of (tree_of value.now))) → IsOk result }
{
    match value {
        Value::Null => Ok(false),
        Value::Bool(truth) => Ok(*truth),
        _ => Err(Stop::Error(truth_text(alloc, value.tag())?)),
    }
}

/// The other boolean. `Error`: the value is no boolean.
pub fn negated(alloc: Global, value: &Value) -> Result<Value, Stop>
    ensures gives { Gives (spec.negated (tree_of value.now)) result }
    ensures no_want { result ≢ Err Stop.Memory }
{
    match value {
        Value::Bool(truth) => Ok(Value::Bool(!*truth)),
        _ => Err(Stop::Error(Chars::new(String::new(alloc)))),
    }
}

ghost use Rattle.std.specs.Prelude.{◌≡◌, ◌≢◌, ◌≤◌, ◌<◌, ◌^◌, ◌++◌, ◌∷◌, [], codes, false, length, map, option_map, pos, take, true, if◌then◌else◌, IfOk, IsOk, OnOk};
ghost use Rattle.vrl_value.specs.Look.{item_at};
ghost use Rattle.vrl_value.specs.Tree.{array, integer, no_items, no_members, put, string, Tree};
ghost use Rattle.vrl_value.specs.View.{items_of, items_of_trees, items_view, members_of, tree_of};
ghost use Rattle.vrl_syntax.specs.Calls.{form_name};
ghost use Rattle.vrl_store.specs.Outcomes.{error};
ghost use Rattle.vrl_store.specs.Results.{Gives};
ghost use Rattle.vrl_store.specs.StoreView.{count_of, hidden_tree, left_with, present_of, store_in, AreNames, IsFront, Names};
ghost use Rattle.vrl_resolve.specs.Calls.{argument_text};
ghost use Rattle.vrl_resolve.specs.Fits.{IsKnownSlot};
ghost use Rattle.vrl_resolve.specs.Iterating.{adds_field, adds_item, bound_slot, given_back, is_body_asked, is_name, made_in, made_items, Binds, IsFieldHeld, IsHiddenBy, IsItemHeld, MayBeGivenBack, TakesField, TakesItem, TakesName, takes_arrays};
ghost use Rattle.vrl_resolve.specs.LinkedMeaning.{form_in};

use crate::calls::{argument_text, within_limit};
use crate::node::Loop;
use std::alloc::Global;
use std::collections::BTreeMap;
use vrl_store::{HiddenValue, Stop, Store, is_true};
use vrl_syntax::CallForm;
use vrl_value::{Chars, Fields, Items, Memory, Tag, Value};

/// What the run of a closure binds: variables, none for `_`, with their values.
#[derive(Drop)]
pub(crate) enum Bindings {
    /// That of one name.
    One(Option<usize>, Value),
    /// Those of two names, in order.
    Two(Option<usize>, Value, Option<usize>, Value),
}

/// What is kept of a field until its run has given a value.
#[derive(Drop)]
pub(crate) enum Held {
    /// Nothing.
    Nothing,
    /// The field, which may be left out.
    Field(Chars, Value),
    /// Its name, which gets another value.
    Name(Chars),
    /// Its value, which gets another name.
    Part(Value),
}

/// What was made of fields so far.
#[derive(Drop)]
pub(crate) struct MadeFields {
    pub(crate) fields: Fields,
    // Each new name was a text.
    pub(crate) are_named: bool,
}

impl Loop {
    /// The form of the function.
    pub(crate) fn form(self) -> CallForm
        ensures { result ≡ form_in self }
    {
        match self {
            Loop::ForEach(_, _) => CallForm::ForEach,
            Loop::Filter(_, _) => CallForm::Filter,
            Loop::MapValues(_) => CallForm::MapValues,
            Loop::MapKeys(_) => CallForm::MapKeys,
        }
    }
}

// ---- the collection

/// The first of the values of a call's arguments.
pub(crate) fn first_of(values: Vec<Value>) -> Option<Value>
    ensures { option_map tree_of result ≡ item_at 0 (items_view values.items) }
{
    let mut left = values.into_iter();
    left.next()
}

/// Whether a function takes arrays; each takes objects.
pub(crate) fn takes_arrays(function: Loop) -> bool
    ensures { result ≡ takes_arrays function }
{
    match function {
        Loop::ForEach(_, _) => true,
        Loop::Filter(_, _) => true,
        Loop::MapValues(_) => true,
        Loop::MapKeys(_) => false,
    }
}

/// Whether what the runs of a function's closure give is asked for.
pub(crate) fn is_body_asked(function: Loop) -> bool
    ensures { result ≡ is_body_asked function }
{
    match function {
        Loop::ForEach(_, _) => false,
        Loop::Filter(_, _) => true,
        Loop::MapValues(_) => true,
        Loop::MapKeys(_) => true,
    }
}

/// The error that a function doesn't take a collection of such a tag. `Memory`: want of memory.
pub(crate) fn refuse(alloc: Global, function: Loop, tag: Tag) -> Result<Value, Stop>
    ensures { Gives (error (argument_text (form_name (form_in function)) (codes "value") tag)) result }
{
    let text = argument_text(alloc, function.form().name(), "value", tag)?;
    Err(Stop::Error(text))
}

/// The values in an array.
pub(crate) fn values_in(items: Items) -> Vec<Value>
    ensures values { items_view result.items ≡ items_of items }
    ensures small { length result.items < 2 ^ 63 }
{
    items.into_vec()
}

// ---- variables that are bound

/// Binds a variable, where there is one, to a value: what it had is given. `Memory`: want of
/// memory.
pub(crate) fn bind(
    store: &mut Store,
    slot: Option<usize>,
    value: Value,
) -> Result<Option<HiddenValue>, Memory>
    requires { IsKnownSlot (count_of store.old) slot }
    ensures bound { OnOk result
        ((names : Names) → AreNames names store.old
        → store_in names store.new ≡ bound_slot names slot (tree_of value) (store_in names store.old)) }
    ensures hidden { IfOk result (λ hidden. IsHiddenBy slot hidden store.old) }
    ensures front { IsFront (present_of store.old) (present_of store.new) }
    ensures as_many { count_of store.new ≡ count_of store.old }
{
    match slot {
        Some(number) => store.bind(number, value),
        None => Ok(None),
    }
}

/// Ends a body before which so many variables were there: those that came in it go, and the
/// variable that it bound has its value back.
pub(crate) fn unbind(
    store: &mut Store,
    count: usize,
    slot: Option<usize>,
    hidden: Option<HiddenValue>,
)
    requires within { count ≤ length (present_of store.old) }
    requires there { MayBeGivenBack slot hidden (take count (present_of store.old)) }
    ensures left { (names : Names) → AreNames names store.old
        → store_in names store.new ≡ given_back names slot (option_map hidden_tree hidden)
        (left_with names (take count (present_of store.old)) (store_in names store.old)) }
    ensures present { present_of store.new ≡ take count (present_of store.old) }
    ensures as_many { count_of store.new ≡ count_of store.old }
{
    store.leave(count);
    match slot {
        Some(number) => match hidden {
            Some(hidden) => store.give_back(number, hidden),
            None => {}
        },
        None => {}
    }
}

// ---- arrays

// A place as a number.
fn place_value(place: usize) -> Value
    requires { place < 2 ^ 63 }
    ensures { tree_of result ≡ integer (pos place) }
{
    Value::Int(place as i64)
}

/// What the run for the item at a place binds, and the item, where it may be left out. `Memory`:
/// want of memory.
pub(crate) fn item_bindings(
    alloc: Global,
    function: Loop,
    place: usize,
    item: Value,
) -> Result<(Bindings, Option<Value>), Memory>
    requires { place < 2 ^ 63 }
    ensures binds { IfOk result (λ given. Binds function (integer (pos place)) (tree_of item) given.0) }
    ensures held { IfOk result (λ given. IsItemHeld function (tree_of item) given.1) }
{
    match function {
        Loop::ForEach(key, value) => {
            Ok((Bindings::Two(key, place_value(place), value, item), None))
        }
        Loop::Filter(key, value) => {
            let copy = item.copy(alloc)?;
            Ok((
                Bindings::Two(key, place_value(place), value, copy),
                Some(item),
            ))
        }
        Loop::MapValues(value) => Ok((Bindings::One(value, item), None)),
        Loop::MapKeys(key) => Ok((Bindings::One(key, place_value(place)), None)),
    }
}

/// Takes the value that the run for an item gave. `Memory`: want of memory.
pub(crate) fn push_item(
    function: Loop,
    made: &mut Vec<Value>,
    held: Option<Value>,
    given: Value,
) -> Result<(), Memory>
    ensures taken { OnOk result
        (TakesItem function (map tree_of made.old.items) (map tree_of made.new.items) held (tree_of given)) }
    ensures none { adds_item function (tree_of given) ≡ false → IsOk result }
{
    match function {
        Loop::ForEach(_, _) => Ok(()),
        Loop::Filter(_, _) => push_kept(made, held, is_true(&given)),
        Loop::MapValues(_) => {
            made.push(given)?;
            Ok(())
        }
        Loop::MapKeys(_) => Ok(()),
    }
}

// Puts an item behind others, where it is kept. `Memory`: want of memory.
fn push_kept(made: &mut Vec<Value>, held: Option<Value>, is_kept: bool) -> Result<(), Memory>
    ensures kept { OnOk result
        ((t : Tree) → option_map tree_of held ≡ Some t
        → map tree_of made.new.items ≡
        (if is_kept then map tree_of made.old.items ++ t ∷ [] else map tree_of made.old.items)) }
    ensures none { is_kept ≡ false → IsOk result }
{
    if let Some(item) = held {
        if is_kept {
            made.push(item)?;
        }
    }
    Ok(())
}

/// What is made of the items of an array in the end. `Deep`: it is nested too deeply.
pub(crate) fn finish_items(function: Loop, made: Vec<Value>) -> Result<Value, Stop>
    ensures gives { Gives (made_items function (map tree_of made.items) no_items []) result }
    ensures no_want { result ≢ Err Stop.Memory }
{
    match function {
        Loop::ForEach(_, _) => Ok(Value::Null),
        Loop::Filter(_, _) => within_limit(array_of(made)),
        Loop::MapValues(_) => within_limit(array_of(made)),
        Loop::MapKeys(_) => Ok(Value::Null),
    }
}

fn array_of(values: Vec<Value>) -> Value
    ensures { tree_of result ≡ array (items_of_trees (map tree_of values.items)) }
{
    Value::List(Items::new(values))
}

// ---- objects

/// What the run for a field binds, and what is kept of the field. `Memory`: want of memory.
pub(crate) fn field_bindings(
    alloc: Global,
    function: Loop,
    name: Chars,
    part: Value,
) -> Result<(Bindings, Held), Memory>
    ensures binds { IfOk result (λ given. Binds function (string name) (tree_of part) given.0) }
    ensures held { IfOk result (λ given. IsFieldHeld function name (tree_of part) given.1) }
{
    match function {
        Loop::ForEach(key, value) => Ok((
            Bindings::Two(key, Value::Text(name), value, part),
            Held::Nothing,
        )),
        Loop::Filter(key, value) => {
            let text = name.copy(alloc)?;
            let copy = part.copy(alloc)?;
            Ok((
                Bindings::Two(key, Value::Text(text), value, copy),
                Held::Field(name, part),
            ))
        }
        Loop::MapValues(value) => Ok((Bindings::One(value, part), Held::Name(name))),
        Loop::MapKeys(key) => Ok((Bindings::One(key, Value::Text(name)), Held::Part(part))),
    }
}

/// No fields.
pub(crate) fn no_fields(alloc: Global) -> MadeFields
    ensures fields { members_of result.fields ≡ no_members }
    ensures named { result.are_named ≡ true }
{
    MadeFields {
        fields: Fields::new(BTreeMap::new(alloc)),
        are_named: true,
    }
}

/// Takes the value that the run for a field gave. `Memory`: want of memory.
pub(crate) fn put_field(made: &mut MadeFields, held: Held, given: Value) -> Result<(), Memory>
    ensures taken { OnOk result (TakesField made.old made.new held (tree_of given)) }
    ensures none { adds_field held (tree_of given) ≡ false → IsOk result }
{
    match held {
        Held::Nothing => Ok(()),
        Held::Field(name, part) => put_kept(&mut made.fields, name, part, is_true(&given)),
        Held::Name(name) => made.fields.insert(name, given),
        Held::Part(part) => put_renamed(made, given, part),
    }
}

// Puts a field among others, where it is kept. `Memory`: want of memory.
fn put_kept(fields: &mut Fields, name: Chars, part: Value, is_kept: bool) -> Result<(), Memory>
    ensures kept { OnOk result
        (members_of fields.new ≡
        (if is_kept then put name (tree_of part) (members_of fields.old) else members_of fields.old)) }
    ensures none { is_kept ≡ false → IsOk result }
{
    if is_kept {
        fields.insert(name, part)?;
    }
    Ok(())
}

// Puts a value at a new name, where that is a text. `Memory`: want of memory.
fn put_renamed(made: &mut MadeFields, name: Value, part: Value) -> Result<(), Memory>
    ensures taken { OnOk result (TakesName made.old made.new (tree_of name) (tree_of part)) }
    ensures none { is_name (tree_of name) ≡ false → IsOk result }
{
    match name {
        Value::Text(name) => made.fields.insert(name, part),
        _ => {
            made.are_named = false;
            Ok(())
        }
    }
}

/// What is made of the fields of an object in the end. `Deep`: it is nested too deeply; `Error`: a
/// new name is no text.
pub(crate) fn finish_fields(alloc: Global, function: Loop, made: MadeFields) -> Result<Value, Stop>
    ensures gives { Gives (made_in function made no_members []) result }
    ensures no_want { result ≢ Err Stop.Memory }
{
    let MadeFields { fields, are_named } = made;
    match function {
        Loop::ForEach(_, _) => Ok(Value::Null),
        Loop::Filter(_, _) => within_limit(Value::Object(fields)),
        Loop::MapValues(_) => within_limit(Value::Object(fields)),
        Loop::MapKeys(_) => {
            if are_named {
                return within_limit(Value::Object(fields));
            }
            Err(Stop::Error(Chars::new(String::new(alloc))))
        }
    }
}

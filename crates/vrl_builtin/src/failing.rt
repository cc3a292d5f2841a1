ghost use Rattle.std.specs.Prelude.{◌≡◌, ℕ, Bool, List, IfOk, IsErr, IsTrue, false, true};
ghost use Rattle.vrl_value.specs.Tree.{Tree, boolean, string, takes_memory};
ghost use Rattle.vrl_value.specs.View.{items_view, tree_of};
ghost use Rattle.vrl_builtin.specs.Rows.{value as answer};
ghost use Rattle.vrl_builtin.specs.View.{Applies};
ghost use Rattle.vrl_builtin.specs.declared.failing.Applied.TheVariants as applied;
ghost use Rattle.vrl_builtin.specs.declared.failure.Reason.TheVariants as reason;
ghost use Rattle.vrl_builtin.specs.Words.{first_other};

use crate::failure::{Failure, Reason};
use crate::tags::Tags;
use std::alloc::Global;
use vrl_value::{Chars, Memory, Tag, Value};

/// What a call of a function comes to.
#[derive(Drop)]
pub enum Applied {
    /// Its value.
    Value(Value),
    /// Its error.
    Failed(Failure),
    /// Out of memory.
    Memory,
}

impl Applied {
    /// A value that was made, or else out of memory.
    pub fn value(made: Result<Value, Memory>) -> Applied
        ensures value { (value : Tree)
            → IfOk made (λ made. tree_of made ≡ value)
            → Applies true (answer value) result }
        ensures large { (value : Tree)
            → IfOk made (λ made. tree_of made ≡ value)
            → IsTrue (takes_memory value)
            → Applies false (answer value) result }
        ensures memory { result ≡ applied.Memory → IsErr made }
    {
        match made {
            Ok(value) => Applied::Value(value),
            Err(_memory) => Applied::Memory,
        }
    }

    /// A text that was made, or else out of memory.
    pub fn text(made: Result<Chars, Memory>) -> Applied
        ensures value { (text : List ℕ)
            → IfOk made (λ made. made ≡ text)
            → Applies false (answer (string text)) result }
        ensures memory { result ≡ applied.Memory → IsErr made }
    {
        match made {
            Ok(text) => Applied::Value(Value::Text(text)),
            Err(_memory) => Applied::Memory,
        }
    }

    /// A boolean that was found by a call that uses memory, or else out of memory.
    pub fn boolean(found: Result<bool, Memory>) -> Applied
        ensures value { (truth : Bool)
            → IfOk found (λ found. found ≡ truth)
            → Applies true (answer (boolean truth)) result }
        ensures memory { result ≡ applied.Memory → IsErr found }
    {
        match found {
            Ok(truth) => Applied::Value(Value::Bool(truth)),
            Err(_memory) => Applied::Memory,
        }
    }

    /// A copy of a value. `Memory`: out of memory, which only a text, an array or an object may run
    /// into.
    pub fn copy_of(alloc: Global, value: &Value) -> Applied
        ensures { Applies false (answer (tree_of value.now)) result }
    {
        match value.copy(alloc) {
            Ok(copy) => Applied::Value(copy),
            Err(_memory) => Applied::Memory,
        }
    }
}

/// The error of a function: its name, a colon and the words.
pub fn fail(name: &'static str, words: &'static str) -> Applied
    ensures { result ≡ applied.Failed (record { name = name.entry; reason = reason.Words words.entry }) }
{
    Applied::Failed(Failure {
        name,
        reason: Reason::Words(words),
    })
}

/// The error of a function at a value of a tag that it can't take: `NAME: value is TAG`.
pub fn fail_at_value(name: &'static str, tag: Tag) -> Applied
    ensures { result ≡ applied.Failed (record { name = name.entry; reason = reason.Value tag }) }
{
    Applied::Failed(Failure {
        name,
        reason: Reason::Value(tag),
    })
}

/// The error of a function at a part of an array, by its place, which is of a tag that it can't
/// take: `NAME: element N is TAG`.
pub fn fail_at_element(name: &'static str, place: usize, tag: Tag) -> Applied
    ensures { result ≡ applied.Failed (record { name = name.entry; reason = reason.Element place tag }) }
{
    Applied::Failed(Failure {
        name,
        reason: Reason::Element(place, tag),
    })
}

/// The error of a function at a part of a path, by its place, which is neither a name nor a place:
/// `NAME: path element N is TAG`.
pub fn fail_at_path_element(name: &'static str, place: usize, tag: Tag) -> Applied
    ensures { result ≡ applied.Failed (record { name = name.entry; reason = reason.PathElement place tag }) }
{
    Applied::Failed(Failure {
        name,
        reason: Reason::PathElement(place, tag),
    })
}

/// The error of a function at a part of an array, by its place, which isn't what it asks for:
/// `NAME: element N`.
pub fn fail_at_bad_element(name: &'static str, place: usize) -> Applied
    ensures { result ≡ applied.Failed (record { name = name.entry; reason = reason.BadElement place }) }
{
    Applied::Failed(Failure {
        name,
        reason: Reason::BadElement(place),
    })
}

/// The first of the values whose tag isn't in the set: its place, and its tag. `None`: there is
/// none.
pub fn first_other(items: &[Value], tags: &Tags) -> Option<(usize, Tag)>
    ensures { result ≡ first_other tags.now (items_view items.now) }
{
    let mut place = 0;
    let mut left = items;
    while let Some((first, others)) = left.split_first() {
        let tag = first.tag();
        if !tags.contains(tag) {
            return Some((place, tag));
        }
        place += 1;
        left = others;
    }
    None
}

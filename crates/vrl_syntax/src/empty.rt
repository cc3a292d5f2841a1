ghost use Rattle.std.specs.Prelude.{◌≡◌};
ghost use Rattle.vrl_value.specs.View.{tree_of};
ghost use Rattle.vrl_syntax.specs.ErrorAssignments.{empty_value as value_of};

use std::alloc::Global;
use std::collections::BTreeMap;
use vrl_value::{Chars, Fields, Items, Moment, Tag, Value};

/// The empty value of a tag, which an error assignment writes at an error; a regex and absent stand
/// for null.
pub fn empty_value(alloc: Global, tag: Tag) -> Value
    ensures { tree_of result ≡ value_of tag }
{
    match tag {
        Tag::Text => Value::Text(Chars::new(String::new(alloc))),
        Tag::Int => Value::Int(0),
        Tag::Bool => Value::Bool(false),
        Tag::Time => Value::Time(Moment::epoch()),
        Tag::List => Value::List(Items::new(Vec::new(alloc))),
        Tag::Object => Value::Object(Fields::new(BTreeMap::new(alloc))),
        Tag::Null | Tag::Pattern | Tag::Absent => Value::Null,
    }
}

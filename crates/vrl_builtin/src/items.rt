ghost use Rattle.std.specs.Prelude.{◌≡◌, map};
ghost use Rattle.vrl_value.specs.View.{items_view, tree_of};
ghost use Rattle.vrl_builtin.specs.Listed.{items_in, list_in};

use vrl_value::Value;

/// The items of an array, borrowed; another value has none.
pub fn items_of(value: &Value) -> &[Value]
    ensures items { items_view result.now ≡ items_in (tree_of value.now) }
    ensures list { map tree_of result.now ≡ list_in (tree_of value.now) }
{
    match value {
        Value::List(items) => items.as_slice(),
        _ => &[],
    }
}

ghost use Rattle.std.specs.Prelude.{◌≡◌, option_map};
ghost use Rattle.vrl_value.specs.View.{members_of, tree_of};
ghost use Rattle.vrl_kindfile.specs.Shapes.{optional_in, shape_named, shape_of};
ghost use Rattle.vrl_kindfile.specs.Walk.{given, shape_in};

use vrl_value::{Fields, Value};

// What an object says of containers: the value that tells their parts, and their rest where it stands there.
pub(crate) enum Container<'a> {
    Arrays(&'a Value, Option<&'a Value>),
    Objects(&'a Value, Option<&'a Value>),
}

/// What the members tell, where they are `array` or `object`, and perhaps `rest`. `None`: they are not.
pub(crate) fn container_in(fields: &Fields) -> Option<Container<'_>>
    ensures { option_map shape_in result ≡ shape_of (members_of fields.now) }
{
    let mut entries = fields.as_map().iter();
    let (name, parts) = entries.next()?;
    match entries.next() {
        None => container_named(name.as_str(), parts, None),
        Some((other, rest)) => {
            if entries.next().is_some() || other.as_str() != "rest" {
                return None;
            }
            container_named(name.as_str(), parts, Some(rest))
        }
    }
}

fn container_named<'a>(
    name: &str,
    parts: &'a Value,
    rest: Option<&'a Value>,
) -> Option<Container<'a>>
    ensures { option_map shape_in result ≡ shape_named name.now (tree_of parts.now) (given rest.entry) }
{
    match name {
        "array" => Some(Container::Arrays(parts, rest)),
        "object" => Some(Container::Objects(parts, rest)),
        _ => None,
    }
}

/// What the member `optional` holds, where it is the value's only one. `None`: the value is not such an object.
pub(crate) fn optional_part(value: &Value) -> Option<&Value>
    ensures { option_map (λ part. tree_of part.now) result ≡ optional_in (tree_of value.now) }
{
    let Value::Object(fields) = value else {
        return None;
    };
    let mut entries = fields.as_map().iter();
    let (name, part) = entries.next()?;
    if entries.next().is_some() || name.as_str() != "optional" {
        return None;
    }
    Some(part)
}

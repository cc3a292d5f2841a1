ghost use Rattle.std.specs.Prelude.{◌≡◌, ◌↔◌, option_map, IsSome, IsTrue};
ghost use Rattle.vrl_path.specs.Read.{read_at};
ghost use Rattle.vrl_value.specs.View.{tree_of};

use crate::parts::part;
use crate::path::Path;
use vrl_value::Value;

/// The part of a value at a path; a negative place counts from the end of its array. `None`:
/// nothing stands there. It is one walk down the path and takes no memory.
pub fn get<'a>(value: &'a Value, path: &Path) -> Option<&'a Value>
    ensures { option_map (λ part. tree_of part.now) result ≡ read_at (tree_of value.now) path.now }
{
    let mut found = value;
    for step in path.as_slice() {
        found = part(found, step)?;
    }
    Some(found)
}

/// Whether something stands at a path of a value; null is something, and an empty path always leads
/// to the value itself. It is one walk down the path and takes no memory.
pub fn exists(value: &Value, path: &Path) -> bool
    ensures { IsTrue result ↔ IsSome (read_at (tree_of value.now) path.now) }
{
    get(value, path).is_some()
}

ghost use Rattle.std.specs.Prelude.{◌≡◌, true, slice_get, unwrap_or, None, Some};
ghost use Rattle.vrl_value.specs.Tree.{object, no_members};
ghost use Rattle.vrl_value.specs.View.{tree_of};
ghost use Rattle.vrl_syntax.specs.Stores.{left_in};
ghost use Rattle.vrl_syntax.specs.declared.root.Root.TheVariants.{Name};
ghost use Rattle.vrl_store.specs.Kept.{is_numbered, trees_of, IsShallow};
ghost use Rattle.vrl_store.specs.StoreView.{name_at, AreDistinct, BeginWithMetadata, Names};

use std::alloc::Global;
use std::collections::BTreeMap;
use vrl_value::{Fields, Value};

/// The number of the metadata among the variables.
pub(crate) const METADATA: usize = 0;

/// The metadata, out of the variables.
pub(crate) fn metadata_of(mut variables: Vec<Option<Value>>) -> Value
    requires { is_numbered (trees_of variables.items) 0 ≡ true }
    ensures { unwrap_or (slice_get (trees_of variables.items) 0) None ≡ Some (tree_of result) }
{
    match std::mem::replace(&mut variables[METADATA], None) {
        Some(metadata) => metadata,
        None => unreachable!(),
    }
}

/// What is left in a variable that is taken out: an empty object in the metadata, and null in any
/// other.
pub(crate) fn left_of(alloc: Global, number: usize) -> Value
    ensures left { (names : Names) → AreDistinct names → BeginWithMetadata names
        → tree_of result ≡ left_in (Name (name_at names number)) }
    ensures shallow { IsShallow (tree_of result) }
{
    if number == METADATA {
        return empty_object(alloc);
    }
    Value::Null
}

/// An object without members.
pub(crate) fn empty_object(alloc: Global) -> Value
    ensures empty { tree_of result ≡ object no_members }
    ensures shallow { IsShallow (tree_of result) }
{
    Value::Object(Fields::new(BTreeMap::new(alloc)))
}

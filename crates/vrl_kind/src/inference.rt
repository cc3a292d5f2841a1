ghost use Rattle.std.specs.Prelude.{◌≡◌, IfOk, Some, List};
ghost use Rattle.vrl_value.specs.Look.{Step};
ghost use Rattle.vrl_value.specs.View.{tree_of, items_view, members_of};
ghost use Rattle.vrl_value.specs.Tree.{array, object as vrl_object};
ghost use Rattle.vrl_kind.specs.Inference.{IsKindOf, IsListOfValue, IsObjectOfValue};
ghost use Rattle.vrl_kind.specs.Kinds.{found_at, tags_at, Inhabits};
ghost use Rattle.vrl_kind.specs.View.{list_of, object_of};

use crate::kind::{Kind, KindField, KindFields, Kinds, ListPart, ObjectPart, Rest};
use crate::scalars::Scalars;
use std::alloc::Global;
use vrl_value::{Chars, Fields, Memory, Value};

/// The least kind of the value: at each path the tag that stands there, alone. `Memory`: want of
/// memory.
pub fn kind_of(alloc: Global, value: &Value) -> Result<Kind, Memory>
    ensures tags { IfOk result (λ kind. (p : List Step) → tags_at kind p ≡ found_at (tree_of value.now) p) }
    ensures inhabited { IfOk result (λ kind. Inhabits (tree_of value.now) kind) }
{
    kind_of_value(alloc, value)
}

#[cycle(kind_of)]
fn kind_of_value(alloc: Global, value: &Value) -> Result<Kind, Memory>
    ensures { IfOk result (λ kind. IsKindOf kind (tree_of value.now)) }
{
    let list = list_of_value(alloc, value)?;
    let object = object_of_value(alloc, value)?;
    Ok(Kind {
        scalars: Scalars::only(value.tag()),
        list,
        object,
    })
}

#[cycle(kind_of)]
fn list_of_value(alloc: Global, value: &Value) -> Result<Option<ListPart>, Memory>
    ensures { IfOk result (λ list. IsListOfValue (list_of list) (tree_of value.now)) }
{
    match value {
        Value::List(items) => Ok(Some(kinds_of_items(alloc, items.as_slice())?)),
        _ => Ok(None),
    }
}

#[cycle(kind_of)]
fn object_of_value(alloc: Global, value: &Value) -> Result<Option<ObjectPart>, Memory>
    ensures { IfOk result (λ object. IsObjectOfValue (object_of object) (tree_of value.now)) }
{
    match value {
        Value::Object(fields) => Ok(Some(kinds_of_fields(alloc, fields)?)),
        _ => Ok(None),
    }
}

#[cycle(kind_of)]
fn kinds_of_items(alloc: Global, items: &[Value]) -> Result<ListPart, Memory>
    ensures { IfOk result (λ list. IsListOfValue (list_of (Some list)) (array (items_view items.now))) }
{
    let mut kinds = Vec::with_capacity(alloc, items.len())?;
    for item in items {
        kinds.push(kind_of_value(alloc, item)?)?;
    }
    Ok(ListPart {
        places: Kinds { kinds },
        rest: Rest::Nothing,
    })
}

#[cycle(kind_of)]
fn kinds_of_fields(alloc: Global, fields: &Fields) -> Result<ObjectPart, Memory>
    ensures { IfOk result (λ object. IsObjectOfValue (object_of (Some object)) (vrl_object (members_of fields.now))) }
{
    let mut kinds = Vec::new(alloc);
    for (name, value) in fields.as_map().iter() {
        let name = Chars::copy_of(alloc, name.as_str())?;
        kinds.push(KindField {
            name,
            kind: kind_of_value(alloc, value)?,
        })?;
    }
    Ok(ObjectPart {
        fields: KindFields { fields: kinds },
        rest: Rest::Nothing,
    })
}

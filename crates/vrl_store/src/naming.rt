ghost use Rattle.std.specs.Prelude.{◌≡◌, IfOk};
ghost use Rattle.vrl_value.specs.View.{members_of};
ghost use Rattle.vrl_store.specs.Kept.{trees_of};
ghost use Rattle.vrl_store.specs.StoreView.{map_of, variables_of, AreDistinct};
ghost use Rattle.vrl_store.specs.Told.{AreToldByMap};

use std::alloc::Global;
use std::collections::BTreeMap;
use vrl_value::{Fields, Memory, Names, Value, regexes_stay_below, trees_stay_in_order};

/// The variables that are there, with their names. `Memory`: want of memory.
pub(crate) fn named(
    alloc: Global,
    variables: Vec<Option<Value>>,
    names: &Names,
) -> Result<Fields, Memory>
    requires { AreDistinct names.now }
    ensures variables { IfOk result
        (λ fields. map_of (members_of fields) ≡ variables_of names.now (trees_of variables.items)) }
    ensures told { IfOk result (λ fields. AreToldByMap (members_of fields)) }
{
    trees_stay_in_order();
    regexes_stay_below();
    let mut fields = Fields::new(BTreeMap::new(alloc));
    let mut left = names.as_slice();
    for variable in variables {
        let Some((name, others)) = left.split_first() else {
            return Ok(fields);
        };
        left = others;
        if let Some(value) = variable {
            fields.insert(name.copy(alloc)?, value)?;
        }
    }
    Ok(fields)
}

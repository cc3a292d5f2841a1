ghost use Rattle.std.specs.Prelude.{◌≡◌, ◌++◌, [], ◌∷◌, map, IfOk, OnOk, if◌then◌else◌};
ghost use Rattle.vrl_value.specs.View.{tree_of};
ghost use Rattle.fn_list.specs.Seen.{is_in, Finds};
ghost use Rattle.fn_list.specs.Unique.{firsts, unique_row, uniques};
ghost use Rattle.fn_list.specs.UniqueLaw.{unique-law};

use crate::key::Key;
use std::alloc::Global;
use std::collections::BTreeSet;
use vrl_builtin::{
    Applied, Arguments, Builtin, Givens, Parameter, Setting, Tags, array_of, items_of, required,
};
use vrl_kind::Kind;
use vrl_pattern::Patterns;
use vrl_value::{Items, Memory, Value};

/// `unique(value: array)`: array of the parts of the array's kind. The items of the array, of equal
/// ones the first alone. It never fails. It makes some n log n comparisons of n items.
/// `unique([1,1,2])` is `[1,2]`.
#[derive(Clone, Copy)]
pub struct Unique;

static PARAMETERS: [Parameter; 1] = [required!("value", Tags::ARRAY)];

// Puts a copy of an item behind those that stay, unless it equals one of them, which the set finds.
fn push_new<'a>(
    alloc: Global,
    seen: &mut BTreeSet<Key<'a>>,
    kept: &mut Vec<Value>,
    item: &'a Value,
) -> Result<(), Memory>
    requires { Finds seen.old (map tree_of kept.old.items) }
    ensures kept { OnOk result
        (map tree_of kept.new.items ≡
        (if is_in (map tree_of kept.old.items) (tree_of item.now) then map tree_of kept.old.items
        else map tree_of kept.old.items ++ (tree_of item.now ∷ []))) }
    ensures seen { OnOk result (Finds seen.new (map tree_of kept.new.items)) }
{
    if seen.insert(Key { value: item })? {
        kept.push(item.copy(alloc)?)?;
    }
    Ok(())
}

// Copies of the items, of equal ones the first alone.
fn firsts(alloc: Global, items: &[Value]) -> Result<Vec<Value>, Memory>
    ensures { IfOk result (λ kept. map tree_of kept.items ≡ firsts (map tree_of items.now)) }
{
    let mut seen = BTreeSet::new(alloc);
    let mut kept = Vec::new(alloc);
    for item in items {
        push_new(alloc, &mut seen, &mut kept, item)?;
    }
    Ok(kept)
}

// The array of the items of an array, of equal ones the first alone.
fn uniques(alloc: Global, value: &Value) -> Result<Value, Memory>
    ensures { IfOk result (λ kept. tree_of kept ≡ uniques (tree_of value.now)) }
{
    let kept = firsts(alloc, items_of(value))?;
    Ok(Value::List(Items::new(kept)))
}

impl Builtin for Unique {
    ghost row = { λ _. unique_row };

    fn name(&self) -> &'static str {
        "unique"
    }

    fn parameters(&self) -> &'static [Parameter] {
        &PARAMETERS
    }

    fn accepts(&self, _place: usize, _literal: &Value) -> bool {
        true
    }

    fn result_kind(
        &self,
        alloc: Global,
        given: &Givens,
        _patterns: &Patterns,
    ) -> Result<Kind, Memory> {
        let parts = given.array_parts(alloc, 0)?;
        array_of(alloc, parts)
    }

    fn may_fail(&self, _given: &Givens) -> bool {
        false
    }

    fn apply(
        &self,
        alloc: Global,
        arguments: &Arguments<'_>,
        _setting: &Setting<'_, '_>,
    ) -> Applied {
        Applied::value(uniques(alloc, arguments.value(0)))
    }

    ghost law = { λ _. unique-law };
}

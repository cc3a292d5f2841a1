ghost use Rattle.std.specs.Prelude.{◌≡◌, IfOk, IsTrue, length};
ghost use Rattle.vrl_value.specs.Regexes.{regexes_below};
ghost use Rattle.vrl_value.specs.View.{tree_of};
ghost use Rattle.fn_search.specs.Sources.{is_match};

use std::alloc::Global;
use vrl_pattern::Searches;
use vrl_value::{Memory, Value};

/// Whether the value is a regex that matches somewhere in the text. `Memory`: want of memory.
pub(crate) fn is_match(
    alloc: Global,
    searches: &Searches<'_>,
    text: &str,
    value: &Value,
) -> Result<bool, Memory>
    requires { IsTrue (regexes_below (length searches.now) (tree_of value.now)) }
    ensures { IfOk result (λ found. found ≡ is_match searches.now text.now (tree_of value.now)) }
{
    match value {
        Value::Pattern(number) => Ok(searches.find(alloc, *number, text)?.is_some()),
        _ => Ok(false),
    }
}

ghost use Rattle.std.specs.Prelude.{◌≡◌, option_map, IfSome, IsTrue};
ghost use Rattle.vrl_value.specs.View.{tree_of};
ghost use Rattle.vrl_store.specs.Kept.{IsShallow};

use vrl_value::Value;

/// The value of a variable that a name of a closure hides.
#[derive(Drop)]
pub struct HiddenValue {
    pub(crate) value: Value,
    // The value is known to be within the limit of depth.
    pub(crate) is_shallow: bool,
    // Where the flag says so, it is.
    ghost within: { IsTrue is_shallow → IsShallow (tree_of value) },
}

impl HiddenValue {
    // What stood in a variable, which is known to be within the limit of depth or isn't.
    pub(crate) fn of(value: Option<Value>, is_shallow: bool) -> Option<HiddenValue>
        requires { IsTrue is_shallow → IfSome (option_map tree_of value) IsShallow }
        ensures { option_map (λ hidden. tree_of hidden.value) result ≡ option_map tree_of value }
    {
        match value {
            Some(value) => Some(HiddenValue::new(value, is_shallow)),
            None => None,
        }
    }

    fn new(value: Value, is_shallow: bool) -> HiddenValue
        requires { IsTrue is_shallow → IsShallow (tree_of value) }
        ensures { tree_of result.value ≡ tree_of value }
    {
        HiddenValue { value, is_shallow }
    }
}

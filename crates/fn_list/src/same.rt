ghost use Rattle.std.specs.Prelude.{◌≡◌};
ghost use Rattle.std.specs.List.{list_any};
ghost use Rattle.vrl_value.specs.View.{tree_of};
ghost use Rattle.fn_list.specs.Same.{same};

use vrl_value::Value;

// Whether two values are equal.
pub(crate) fn is_same(value: &Value, other: &Value) -> bool
    ensures { result ≡ same (tree_of value.now) (tree_of other.now) }
{
    value.same(other)
}

// Whether a value is among others.
pub(crate) fn is_among(values: &[Value], value: &Value) -> bool
    ensures { result ≡ list_any (λ other. same (tree_of other) (tree_of value.now)) values.now }
{
    values.iter().any(|other| is_same(other, value))
}

ghost use Rattle.std.specs.Prelude.{◌≡◌, ◌&&◌, Some, bytes_eq, codes, length, not};
ghost use Rattle.std.specs.List.{list_any};
ghost use Rattle.vrl_syntax.specs.Calls.{for_names, form_name, form_named, has_equal, has_shape, is_closure_form, is_del, is_del_form, is_exists, is_exists_form, takes_closure};
ghost use Rattle.vrl_syntax.specs.Stores.{hidden_by};

use vrl_value::{Chars, Names};

/// A function that is a form of the language: what it does isn't told by the values of its
/// arguments alone.
#[derive(Clone, Copy, Debug, PartialEq, Eq)]
pub enum CallForm {
    /// `del`, which removes what stands at a path.
    Del,
    /// `exists`, which tells a present null from what is missing.
    Exists,
    /// `for_each`, which runs a closure for each part.
    ForEach,
    /// `filter`, which keeps the parts for which a closure gives true.
    Filter,
    /// `map_values`, which puts what a closure gives in the place of each value.
    MapValues,
    /// `map_keys`, which puts what a closure gives in the place of each name.
    MapKeys,
}

impl CallForm {
    /// The form of a name. `None`: the name is no form's. It takes no memory.
    pub fn named(name: &str) -> Option<CallForm>
        ensures form { result ≡ form_named name.now }
        ensures deletion { is_del_form result ≡ is_del name.now }
        ensures existence { is_exists_form result ≡ is_exists name.now }
        ensures closure { is_closure_form result ≡ takes_closure name.now }
    {
        match name {
            "del" => Some(CallForm::Del),
            "exists" => Some(CallForm::Exists),
            "for_each" => Some(CallForm::ForEach),
            "filter" => Some(CallForm::Filter),
            "map_values" => Some(CallForm::MapValues),
            "map_keys" => Some(CallForm::MapKeys),
            _ => None,
        }
    }

    /// The name of the function.
    pub fn name(self) -> &'static str
        ensures { result.now ≡ form_name self }
    {
        match self {
            CallForm::Del => "del",
            CallForm::Exists => "exists",
            CallForm::ForEach => "for_each",
            CallForm::Filter => "filter",
            CallForm::MapValues => "map_values",
            CallForm::MapKeys => "map_keys",
        }
    }

    /// Whether the function runs a closure.
    pub fn takes_closure(self) -> bool
        ensures { result ≡ is_closure_form (Some self) }
    {
        match self {
            CallForm::Del | CallForm::Exists => false,
            CallForm::ForEach | CallForm::Filter | CallForm::MapValues | CallForm::MapKeys => true,
        }
    }
}

// Whether it is `del`.
pub(crate) fn is_del(name: &str) -> bool
    ensures { result ≡ is_del name.now }
{
    match CallForm::named(name) {
        Some(CallForm::Del) => true,
        _ => false,
    }
}

/// Whether a closure with these names is one for the function: there are as many as it asks for,
/// and none but `_` stands twice. It takes no memory.
pub fn has_shape(form: CallForm, names: &Names) -> bool
    ensures { result ≡ has_shape form names.now }
{
    let names = names.as_slice();
    names.len() == names_wanted(form) && !has_equal(names)
}

// How many names the closure of a function has.
fn names_wanted(form: CallForm) -> usize
    ensures { result ≡ length (for_names {A = Unit {0}} form tt tt) }
{
    match form {
        CallForm::Del | CallForm::Exists => 0,
        CallForm::MapValues | CallForm::MapKeys => 1,
        CallForm::ForEach | CallForm::Filter => 2,
    }
}

// Whether some name but `_` stands twice.
fn has_equal(names: &[Chars]) -> bool
    ensures { result ≡ has_equal (hidden_by names.now) }
{
    let mut left = names;
    while let Some((first, rest)) = left.split_first() {
        if stands_again(first, rest) {
            return true;
        }
        left = rest;
    }
    false
}

// Whether the name isn't `_`, and is one of these too.
fn stands_again(name: &Chars, others: &[Chars]) -> bool
    ensures { result ≡ (not (bytes_eq name.now (codes "_")) && list_any (bytes_eq name.now) others.now) }
{
    name.as_str() != "_" && is_among(name, others)
}

// Whether the name is one of these.
fn is_among(name: &Chars, others: &[Chars]) -> bool
    ensures { result ≡ list_any (bytes_eq name.now) others.now }
{
    others.iter().any(|other| is_same(name, other))
}

// Whether they are one name.
fn is_same(name: &Chars, other: &Chars) -> bool
    ensures { result ≡ bytes_eq name.now other.now }
{
    name.as_str() == other.as_str()
}

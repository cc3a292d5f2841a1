//! What the functions that run a closure take.
ghost use Rattle.std.specs.Prelude.{◌≡◌, map};
ghost use Rattle.vrl_builtin.specs.View.{parameter_row};
ghost use Rattle.vrl_binding.specs.Binding.{collection_parameters, collections};

use vrl_builtin::{Parameter, Tags, required};
use vrl_syntax::CallForm;

const COLLECTION: [Parameter; 1] = [required!("value", Tags::CONTAINERS)];

const OBJECT: [Parameter; 1] = [required!("value", Tags::OBJECT)];

/// The parameters of a function that runs a closure for each part of a collection: the collection alone.
pub fn collection_parameters(form: CallForm) -> &'static [Parameter]
    ensures { map parameter_row result.now ≡ collection_parameters form }
{
    match form {
        CallForm::MapKeys => &OBJECT,
        CallForm::Del
        | CallForm::Exists
        | CallForm::ForEach
        | CallForm::Filter
        | CallForm::MapValues => &COLLECTION,
    }
}

/// The tags that the collection may have: it is an array or an object, and for `map_keys` an object.
pub fn collections(form: CallForm) -> Tags
    ensures { result ≡ collections form }
{
    match form {
        CallForm::MapKeys => Tags::OBJECT,
        CallForm::Del
        | CallForm::Exists
        | CallForm::ForEach
        | CallForm::Filter
        | CallForm::MapValues => Tags::CONTAINERS,
    }
}

ghost use Rattle.std.specs.Prelude.{◌≡◌, map, option_map};
ghost use Rattle.vrl_value.specs.View.{tree_of};
ghost use Rattle.vrl_builtin.specs.Rows.{allowed_at, kind_at, literal_at};
ghost use Rattle.vrl_builtin.specs.View.{given_tree, givens_of};

use vrl_kind::{Kind, has};
use vrl_value::{Tag, Value};

/// What is known of the argument of a parameter before the call is made.
pub struct Given {
    /// Its kind. `None`: no argument is given.
    pub kind: Option<Kind>,
    /// Its value, where it is written as a literal.
    pub literal: Option<Value>,
}

// Written out, so that what is known of an argument is let go by one call.
impl Drop for Given {
    fn drop(self) {
        let Given {
            kind: _,
            literal: _,
        } = self;
    }
}

/// What is known of each argument of a call, by the place of its parameter. A contract sees
/// `givens_of` it.
#[derive(Drop)]
pub struct Givens {
    givens: Vec<Given>,
}

impl Givens {
    /// These, which it keeps.
    pub fn new(givens: Vec<Given>) -> Givens
        ensures { givens_of result ≡ map given_tree givens.items }
    {
        Givens { givens }
    }

    /// What is known of each argument, borrowed.
    pub fn as_slice(&self) -> &[Given]
        ensures { map given_tree result.now ≡ givens_of self.now }
    {
        &self.givens
    }

    /// The kind of an argument, by the place of its parameter. `None`: none is given.
    pub fn kind(&self, place: usize) -> Option<&Kind>
        ensures { option_map (λ kind. kind.now) result ≡ kind_at place (givens_of self.now) }
    {
        match self.givens.get(place) {
            Some(given) => given.kind.as_ref(),
            None => None,
        }
    }

    /// The value of an argument that is written as a literal, by the place of its parameter.
    /// `None`: it isn't, or none is given.
    pub fn literal(&self, place: usize) -> Option<&Value>
        ensures { option_map (λ value. tree_of value.now) result ≡ literal_at place (givens_of self.now) }
    {
        match self.givens.get(place) {
            Some(given) => given.literal.as_ref(),
            None => None,
        }
    }

    /// Whether an argument is given at a place whose kind allows the tag.
    pub fn allows(&self, place: usize, tag: Tag) -> bool
        ensures { result ≡ allowed_at place tag (givens_of self.now) }
    {
        match self.kind(place) {
            Some(kind) => has(kind, tag),
            None => false,
        }
    }
}

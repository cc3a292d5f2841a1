ghost use Rattle.std.specs.Prelude.{◌≡◌, ◌-◌, [], ◌∷◌, ◌++◌, length, take, OnOk, OnErr, IfErr};

use crate::fault::LoadFault;
use std::alloc::Global;
use std::marker::Model;
use vrl_value::Chars;

// The names whose load failed, in order. A contract sees the list of the names.
#[derive(Drop)]
pub(crate) struct Failures {
    alloc: Global,
    names: Vec<Chars>,
}

impl Model for Failures {
    ghost use Rattle.std.specs.Prelude.{List, ℕ};

    ghost Value = { List (List ℕ) };

    ghost view = { λ f. f.names.items };
}

impl Failures {
    // No failure.
    pub(crate) fn new(alloc: Global) -> Failures
        ensures { result ≡ [] }
    {
        Failures {
            alloc,
            names: Vec::new(alloc),
        }
    }

    // The names, borrowed.
    pub(crate) fn as_slice(&self) -> &[Chars]
        ensures { result.now ≡ self.now }
    {
        &self.names
    }

    // Adds a name. `Memory`: nothing is added.
    pub(crate) fn push(&mut self, name: &str) -> Result<(), LoadFault>
        ensures added { OnOk result (self.new ≡ self.old ++ name.now ∷ []) }
        ensures fault { IfErr result (λ fault. fault ≡ LoadFault.Memory) }
        ensures unchanged { OnErr result (self.new ≡ self.old) }
    {
        let name = Chars::copy_of(self.alloc, name)?;
        self.names.push(name)?;
        Ok(())
    }

    // Takes the last name back.
    pub(crate) fn pop(&mut self)
        ensures { self.new ≡ take (length self.old - 1) self.old }
    {
        self.names.pop();
    }
}

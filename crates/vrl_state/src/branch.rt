ghost use Rattle.std.specs.Prelude.{◌≡◌, ◌≢◌, [], ◌∷◌, ℕ, IfOk, List, OnErr, OnOk};
ghost use Rattle.vrl_state.specs.Known.{known_as, HaveRootKinds};
ghost use Rattle.vrl_state.specs.States.{AreScopesJoined, HaveSameScopes, IsJoined, IsLeft, Scope};
ghost use Rattle.vrl_state.specs.Stores.{store_back, Fits, HidesOf, HoldsNames, Store};

use crate::known::Known;
use crate::state::State;
use std::marker::Model;
use vrl_value::Memory;

/// A state that was marked, to come back to. A contract sees that state.
#[derive(Drop)]
pub struct Mark {
    pub(crate) state: State,
}

impl Model for Mark {
    ghost use Rattle.vrl_state.specs.States as states;
    ghost use Rattle.vrl_state.specs.Codes.{state_code};

    ghost Value = { states.State };

    ghost coded = { state_code };

    ghost view = { λ m. m.state };
}

/// The state at the end of a branch. A contract sees that state.
#[derive(Drop)]
pub struct Branch {
    pub(crate) state: State,
}

impl Model for Branch {
    ghost use Rattle.vrl_state.specs.States as states;
    ghost use Rattle.vrl_state.specs.Codes.{state_code};

    ghost Value = { states.State };

    ghost coded = { state_code };

    ghost view = { λ b. b.state };
}

impl Branch {
    /// The branch as a mark, to go on from its end. It takes no memory.
    pub fn into_mark(self) -> Mark
        ensures { result ≡ self }
    {
        Mark { state: self.state }
    }

    /// Joins another branch to this one: what is known on either way. Kinds are joined and cut,
    /// those of hidden names too, a variable that only one of them knows is dropped, and a dead
    /// branch gives the other. `Memory`: want of memory; the branch stays as it was.
    pub fn join(&mut self, other: &Branch) -> Result<(), Memory>
        requires { HaveSameScopes self.old other.now }
        ensures known { OnOk result (IsJoined self.old.known other.now.known self.new.known) }
        ensures hidden { OnOk result
            (AreScopesJoined self.old.known other.now.known self.old.scopes other.now.scopes self.new.scopes) }
        ensures scopes { self.old.scopes ≡ other.now.scopes → self.new.scopes ≡ self.old.scopes }
        ensures first { OnOk result ((store : Store) → Fits store self.old → Fits store self.new) }
        ensures second { OnOk result ((store : Store) → Fits store other.now → Fits store self.new) }
        ensures err { OnErr result (self.new ≡ self.old) }
    {
        self.state.join(other)?;
        Ok(())
    }

    /// Ends the innermost scope: the variables that were not known where it began are dropped, and
    /// hidden names have their kinds back. `Memory`: want of memory; the branch stays as it was.
    pub fn leave(&mut self) -> Result<(), Memory>
        requires { self.old.scopes ≢ [] }
        ensures left { OnOk result (IsLeft self.old self.new) }
        ensures fits { OnOk result
            ((scope : Scope) (names : List (List ℕ)) (before after : Store) → self.old.scopes ≡ scope ∷ self.new.scopes
            → HidesOf scope names → HoldsNames before scope → Fits after self.old
            → Fits (store_back names before after) self.new) }
        ensures err { OnErr result (self.new ≡ self.old) }
    {
        self.state.leave()?;
        Ok(())
    }

    /// What is known at the end of the branch: each kind is cut, and never allows absent. `Memory`:
    /// want of memory.
    pub fn known(&self) -> Result<Known, Memory>
        ensures known { IfOk result (λ known. known ≡ known_as self.now.known) }
        ensures kinds { IfOk result HaveRootKinds }
    {
        self.state.list()
    }
}

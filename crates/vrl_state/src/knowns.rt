ghost use Rattle.std.specs.Prelude.{◌≡◌, ◌↔◌, ◌<◌, [], IfOk, IsTrue, length, slice_index_or};
ghost use Rattle.vrl_state.specs.Known.{knowns_of, HaveRootKinds};
ghost use Rattle.vrl_state.specs.declared.known.Known.TheVariants.{Dead};

use crate::branch::Branch;
use crate::known::Known;
use std::marker::Model;
use vrl_value::Memory;

/// What is known at each of several places, in order. It is held as versions that share what they
/// have in common, and listed where that is asked for. A contract sees the lists.
#[derive(Drop)]
pub struct Knowns {
    states: Vec<Option<Branch>>,
}

impl Model for Knowns {
    ghost use Rattle.std.specs.Prelude.{List};
    ghost use Rattle.vrl_state.specs.declared.known.Known.{Known};

    ghost Value = { List Known };

    ghost use Rattle.std.specs.Coded.{coded_list};
    ghost use Rattle.vrl_state.specs.contracts.known.Known as known;

    ghost coded = { coded_list known.the_row.coded };

    ghost use Rattle.vrl_state.specs.Known.{knowns_of};

    ghost view = { λ k. knowns_of k.states.items };
}

impl Knowns {
    /// What is known where these branches end, each of which it keeps; nothing where there is none.
    pub fn new(states: Vec<Option<Branch>>) -> Knowns
        ensures { result ≡ knowns_of states.items }
    {
        Knowns { states }
    }

    /// How many places these are. It takes no memory.
    pub fn len(&self) -> usize
        ensures { result ≡ length self.now }
    {
        self.states.len()
    }

    /// Whether there is no place. It takes no memory.
    pub fn is_empty(&self) -> bool
        ensures { IsTrue result ↔ (self.now ≡ []) }
    {
        self.states.is_empty()
    }

    /// What is known at a place, listed: each kind is cut, and never allows absent. `Memory`: want
    /// of memory.
    pub fn known(&self, place: usize) -> Result<Known, Memory>
        requires { place < length self.now }
        ensures known { IfOk result (λ known. known ≡ slice_index_or self.now place Dead) }
        ensures kinds { IfOk result HaveRootKinds }
    {
        match &self.states[place] {
            None => Ok(Known::Dead),
            Some(branch) => branch.known(),
        }
    }
}

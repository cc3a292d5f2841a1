ghost use Rattle.std.specs.Prelude.{◌≡◌};

use crate::work::LineOut;
use std::marker::Model;

/// What is made of the lines of a batch, in their order. A contract sees the list.
#[derive(Drop)]
pub struct Outs {
    outs: Vec<LineOut>,
}

impl Model for Outs {
    ghost use Rattle.std.specs.Prelude.{List};
    ghost use Rattle.vrl_batch.specs.declared.work.LineOut.{LineOut};

    ghost Value = { List LineOut };

    ghost view = { λ o. o.outs.items };
}

impl Outs {
    /// These results, which it keeps.
    pub fn new(outs: Vec<LineOut>) -> Outs
        ensures { result ≡ outs.items }
    {
        Outs { outs }
    }

    /// The results, borrowed.
    pub fn as_slice(&self) -> &[LineOut]
        ensures { result.now ≡ self.now }
    {
        &self.outs
    }

    /// The vector that holds the results.
    pub fn into_vec(self) -> Vec<LineOut>
        ensures { result.items ≡ self }
    {
        self.outs
    }
}

ghost use Rattle.std.specs.Prelude.{◌≡◌};

use crate::line::Line;
use std::marker::Model;

/// Lines of an input that are run together, in their order. A contract sees their list.
#[derive(Drop)]
pub struct Batch {
    lines: Vec<Line>,
}

impl Model for Batch {
    ghost use Rattle.std.specs.Prelude.{List};
    ghost use Rattle.vrl_batch.specs.declared.line.Line.{Line};

    ghost Value = { List Line };

    ghost view = { λ b. b.lines.items };
}

impl Batch {
    /// These lines, which it keeps.
    pub fn new(lines: Vec<Line>) -> Batch
        ensures { result ≡ lines.items }
    {
        Batch { lines }
    }

    /// The lines, borrowed.
    pub fn as_slice(&self) -> &[Line]
        ensures { result.now ≡ self.now }
    {
        &self.lines
    }

    /// The vector that holds the lines.
    pub fn into_vec(self) -> Vec<Line>
        ensures { result.items ≡ self }
    {
        self.lines
    }
}

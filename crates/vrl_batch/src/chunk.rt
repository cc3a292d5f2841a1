ghost use Rattle.std.specs.Prelude.{◌≡◌, ◌+◌, ◌^◌, ◌<◌, [], ◌∷◌, length, MatchOption};

use crate::gate::Gate;
use crate::line::Line;
use std::marker::Model;

/// The lines of a chunk that its worker has yet to take. A contract sees their list.
#[derive(Drop)]
pub struct Chunk<'a, G: Gate> {
    lines: &'a [Line],
    // That of the first one in the batch.
    place: usize,
    gate: &'a G,
}

impl<'a, G: Gate> Model for Chunk<'a, G> {
    ghost use Rattle.std.specs.Prelude.{◌+◌, ◌^◌, ◌<◌, List, length};
    ghost use Rattle.vrl_batch.specs.declared.line.Line.{Line};

    ghost Value = { List Line };

    ghost view = { λ c. c.lines.now };

    ghost invariant = { λ c. c.place + length c.lines.now < 2 ^ 64 };
}

impl<'a, G: Gate> Chunk<'a, G> {
    // These lines, of which the first stands at that place of the batch.
    pub(crate) fn new(place: usize, lines: &'a [Line], gate: &'a G) -> Chunk<'a, G>
        requires { place + length lines.now < 2 ^ 64 }
        ensures { result ≡ lines.now }
    {
        Chunk { lines, place, gate }
    }

    /// How many there are.
    pub fn len(&self) -> usize
        ensures { result ≡ length self.now }
    {
        self.lines.len()
    }

    /// The next line, before which it passes the gate with the line's place in the batch. `None`:
    /// there is no other.
    pub fn next(&mut self) -> Option<&'a Line>
        ensures { MatchOption result (self.old ≡ []) (λ line. self.old ≡ line.now ∷ self.new) }
    {
        let (line, rest) = self.lines.split_first()?;
        self.gate.pass(self.place);
        self.place += 1;
        self.lines = rest;
        Some(line)
    }
}

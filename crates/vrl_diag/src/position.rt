ghost use Rattle.std.specs.Prelude.{◌≡◌, ◌+◌, ◌<◌, ◌≤◌, ◌^◌, ℕ, List, [], ◌∷◌, ◌++◌, length, take};
ghost use Rattle.vrl_diag.specs.Position.{IsEnd, IsIn};

use std::cmp::min;

/// A place in a text: the bytes before it, and its line and column in characters, both from 1.
#[derive(Clone, Copy)]
pub struct Position {
    pub offset: usize,
    pub line: usize,
    pub column: usize,
}

impl Position {
    /// The start of every text.
    pub fn start() -> Position
        ensures place { (text : List ℕ) → IsIn text result }
        ensures first { result.offset ≡ 0 }
    {
        Position {
            offset: 0,
            line: 1,
            column: 1,
        }
    }

    /// The position that has `offset` bytes of the text before it, or all of them where they are
    /// fewer. It is counted on from this one, unless it stands before it.
    pub fn moved_to(self, text: &[u8], offset: usize) -> Position
        requires { IsIn text.now self }
        ensures place { IsEnd (take offset text.now) result }
        ensures within { IsIn text.now result }
    {
        let end = min(offset, text.len());
        if end < self.offset {
            Position::start().advanced_to(text, end)
        } else {
            self.advanced_to(text, end)
        }
    }

    // The position that has `end` bytes of the text before it.
    fn advanced_to(self, text: &[u8], end: usize) -> Position
        requires from { IsIn text.now self }
        requires order { self.offset ≤ end }
        requires within { end ≤ length text.now }
        ensures { IsEnd (take end text.now) result }
    {
        let mut position = self;
        while position.offset < end {
            position = position.after(text[position.offset]);
        }
        position
    }

    // The position behind one byte more.
    fn after(self, byte: u8) -> Position
        requires { (self.offset < 2 ^ 63) × (self.line ≤ self.offset + 1) × (self.column ≤ self.offset + 1) }
        ensures { (text : List ℕ) → IsEnd text self → IsEnd (text ++ byte ∷ []) result }
    {
        let offset = self.offset + 1;
        match byte {
            b'\n' => Position {
                offset,
                line: self.line + 1,
                column: 1,
            },
            128..192 => Position { offset, ..self },
            _ => Position {
                offset,
                column: self.column + 1,
                ..self
            },
        }
    }
}

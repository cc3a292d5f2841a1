/// A bracket that is open.
#[derive(Clone, Copy)]
pub enum Bracket {
    /// `(`
    Parenthesis,
    /// `[`
    Square,
    /// `{` of an object.
    Object,
    /// `{` of a block that is no closure's body.
    Block,
    /// `{` of a closure's body.
    Body,
    /// `|` of a closure's names.
    Bars,
}

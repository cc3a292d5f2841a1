use crate::token::Token;
use vrl_diag::Span;

/// What stands next in a text, before brackets, bars and newlines are told apart.
#[derive(Drop)]
pub enum Piece {
    /// Spaces, tabs and carriage returns.
    Blank,
    /// `#` and what follows it on the line.
    Comment,
    /// A newline.
    Newline,
    /// `{`
    Brace,
    /// `|`
    Bar,
    /// A token that its spelling alone tells.
    Word(Token),
}

/// A piece and where it stands.
#[derive(Drop)]
pub struct Lexeme {
    /// The piece.
    pub piece: Piece,
    /// The bytes of its spelling.
    pub span: Span,
}

ghost use Rattle.std.specs.Prelude.{◌≡◌, [], ◌∷◌, List};
ghost use Rattle.vrl_token.specs.Context.{ends_operand};
ghost use Rattle.vrl_token.specs.Cuts.{IsContext};
ghost use Rattle.vrl_token.specs.declared.piece.Piece.{Piece as SpecPiece};
ghost use Rattle.vrl_token.specs.declared.piece.Piece.TheVariants.{Word as SpecWord};

use crate::piece::Piece;
use crate::token::Token;

// How many regex literals a text may have.
const REGEXES: usize = 256;

/// What the pieces before a place say about it.
#[derive(Clone, Copy)]
pub(crate) struct Context {
    /// The last token before it ends an operand, where a newline counts as a token.
    pub(crate) operand: bool,
    /// `)` or `]` stands directly before it.
    pub(crate) closes: bool,
    /// How many regex literals may still follow.
    pub(crate) regexes_left: usize,
}

/// Whether an operand can end with the token.
pub(crate) fn ends_with_operand(token: &Token) -> bool
    ensures { result ≡ ends_operand token.now }
{
    matches!(
        token,
        Token::Number(_)
            | Token::Text(_)
            | Token::Template(_, _)
            | Token::RawText(_)
            | Token::Regex(_)
            | Token::Timestamp(_)
            | Token::Name(_)
            | Token::True
            | Token::False
            | Token::Null
            | Token::EventPath(_)
            | Token::MetadataPath(_)
            | Token::NamePath(_, _)
            | Token::Suffix(_)
            | Token::CloseParenthesis
            | Token::CloseBracket
            | Token::CloseBrace
    )
}

impl Context {
    /// At the start of a text.
    pub(crate) fn start() -> Context
        ensures { IsContext [] result }
    {
        Context {
            operand: false,
            closes: false,
            regexes_left: REGEXES,
        }
    }

    // Behind a token.
    fn behind_token(self, token: &Token) -> Context
        ensures { (before : List SpecPiece) → IsContext before self → IsContext (SpecWord token.now ∷ before) result }
    {
        Context {
            operand: ends_with_operand(token),
            closes: matches!(token, Token::CloseParenthesis | Token::CloseBracket),
            regexes_left: match token {
                Token::Regex(_) => self.regexes_left.saturating_sub(1),
                _ => self.regexes_left,
            },
        }
    }

    /// Behind one more piece.
    pub(crate) fn behind(self, piece: &Piece) -> Context
        ensures { (before : List SpecPiece) → IsContext before self → IsContext (piece.now ∷ before) result }
    {
        match piece {
            Piece::Word(token) => self.behind_token(token),
            Piece::Blank | Piece::Comment => Context {
                closes: false,
                ..self
            },
            Piece::Newline | Piece::Brace | Piece::Bar => Context {
                operand: false,
                closes: false,
                ..self
            },
        }
    }
}

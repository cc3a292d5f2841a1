ghost use Rattle.std.specs.Prelude.{◌≡◌, [], ◌∷◌, ◌&&◌, ◌||◌, List, IfOk, reverse};
ghost use Rattle.vrl_token.specs.Brackets.{is_close_brace, is_colon, is_text, joins_piece};
ghost use Rattle.vrl_token.specs.Telling.{AreReady, IsAhead};
ghost use Rattle.vrl_token.specs.declared.piece.Lexeme.{Lexeme as SpecLexeme};

use crate::piece::{Lexeme, Piece};
use crate::token::Token;
use std::alloc::Global;
use vrl_value::Memory;

/// What stands behind a place, where newlines are passed over.
#[derive(Clone, Copy)]
pub(crate) struct Ahead {
    /// The next piece joins its line to the one before.
    pub(crate) joins: bool,
    /// What stands there begins an object.
    pub(crate) object: bool,
    /// The next piece is `:`.
    pub(crate) colon: bool,
}

/// A piece and what stands behind it.
#[derive(Drop)]
pub(crate) struct Ready {
    /// The piece.
    pub(crate) lexeme: Lexeme,
    /// What stands behind it.
    pub(crate) ahead: Ahead,
}

impl Ahead {
    // At the end of a text.
    fn at_end() -> Ahead
        ensures { IsAhead [] result }
    {
        Ahead {
            joins: false,
            object: false,
            colon: false,
        }
    }

    // Before one more piece.
    fn before(self, lexeme: &Lexeme) -> Ahead
        ensures { (behind : List SpecLexeme) → IsAhead behind self → IsAhead (lexeme.now ∷ behind) result }
    {
        match &lexeme.piece {
            Piece::Newline => self,
            Piece::Bar => Ahead {
                joins: true,
                object: false,
                colon: false,
            },
            Piece::Word(token) => self.before_token(token),
            _ => Ahead::at_end(),
        }
    }

    // Before a token.
    fn before_token(self, token: &Token) -> Ahead
        ensures joins { result.joins ≡ joins_piece (Piece.Word token.now) }
        ensures object { result.object ≡
            (is_close_brace (Piece.Word token.now) || (is_text (Piece.Word token.now) && self.colon)) }
        ensures colon { result.colon ≡ is_colon (Piece.Word token.now) }
    {
        Ahead {
            joins: matches!(
                token,
                Token::Coalesce | Token::Or | Token::And | Token::Else
            ),
            object: match token {
                Token::CloseBrace => true,
                Token::Text(_) | Token::Template(_, _) => self.colon,
                _ => false,
            },
            colon: matches!(token, Token::Colon),
        }
    }
}

/// The pieces with what stands behind each, from the last one on.
pub(crate) fn with_ahead(alloc: Global, mut lexemes: Vec<Lexeme>) -> Result<Vec<Ready>, Memory>
    ensures { IfOk result (λ ready. AreReady (reverse ready.items) lexemes.items) }
{
    let mut ready = Vec::new(alloc);
    let mut ahead = Ahead::at_end();
    while let Some(lexeme) = lexemes.pop() {
        let next = ahead.before(&lexeme);
        ready.push(Ready { lexeme, ahead })?;
        ahead = next;
    }
    Ok(ready)
}

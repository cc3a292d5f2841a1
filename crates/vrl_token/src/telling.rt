ghost use Rattle.std.specs.Prelude.{◌≡◌, [], IfOk};
ghost use Rattle.vrl_token.specs.Brackets.{tokens_from};

use crate::ahead::{Ready, with_ahead};
use crate::before::Before;
use crate::piece::Lexeme;
use crate::token::Spanned;
use std::alloc::Global;
use vrl_value::Memory;

/// The tokens of a text's pieces: what each `{`, `|` and newline is among them.
pub(crate) fn tell(alloc: Global, lexemes: Vec<Lexeme>) -> Result<Vec<Spanned>, Memory>
    ensures { IfOk result (λ tokens. tokens.items ≡ tokens_from [] lexemes.items) }
{
    let mut left = with_ahead(alloc, lexemes)?;
    let mut tokens = Vec::new(alloc);
    let mut before = Before::start(alloc);
    while let Some(Ready { lexeme, ahead }) = left.pop() {
        let Lexeme { piece, span } = lexeme;
        if let Some(token) = before.token_of(piece, ahead) {
            before.add(&token)?;
            tokens.push(Spanned { token, span })?;
        }
    }
    Ok(tokens)
}

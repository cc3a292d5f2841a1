ghost use Rattle.std.specs.Prelude.{◌≡◌, ◌↔◌, ℕ, IsTrue};
ghost use Rattle.vrl_parse.specs.Descent.{at_end, before, Begins, expression_end, name_word, next, operand_at, path_word};
ghost use Rattle.vrl_parse.specs.FirstWords.{place_at, Tells, told_operand, words_left};
ghost use Rattle.vrl_word.specs.Signs.{token_of};
ghost use Rattle.vrl_word.specs.Words.{words_from};

use std::alloc::Global;
use vrl_diag::Span;
use vrl_token::{Spanned, Token};
use vrl_word::{Sign, is_path, is_sign};

// The tokens that are left, and how many regex literals were taken.
#[derive(Drop)]
pub(crate) struct Parser<'a> {
    pub(crate) alloc: Global,
    pub(crate) rest: &'a [Spanned],
    pub(crate) patterns: u32,
}

impl<'a> Parser<'a> {
    // Before the first token.
    pub(crate) fn new(alloc: Global, rest: &'a [Spanned]) -> Parser<'a>
        ensures { words_left result ≡ words_from 0 rest.now }
    {
        Parser {
            alloc,
            rest,
            patterns: 0,
        }
    }

    // Whether all tokens are taken.
    pub(crate) fn is_done(&self) -> bool
        ensures { Tells result at_end (words_left self.now) }
    {
        match self.rest.split_first() {
            Some(_) => false,
            None => true,
        }
    }

    // The place of the next token, or the end of the text, given where that is.
    pub(crate) fn place(&self, end: u32) -> Span
        ensures { result ≡ place_at (words_left self.now) end }
    {
        match self.rest.first() {
            Some(word) => word.span,
            None => Span { start: end, end },
        }
    }

    // Whether the next token is this sign.
    pub(crate) fn is_next(&self, sign: Sign) -> bool
        ensures { Tells result (next (token_of sign)) (words_left self.now) }
    {
        begins_with(self.rest, sign)
    }

    // Whether the next token is a path or a name, and the one behind it is this sign.
    pub(crate) fn is_path_before(&self, sign: Sign) -> bool
        ensures { Tells result (before path_word (token_of sign)) (words_left self.now) }
    {
        let Some((first, behind)) = self.rest.split_first() else {
            return false;
        };
        is_path(&first.token) && begins_with(behind, sign)
    }

    // Whether the next token is a name, and the one behind it is this sign.
    pub(crate) fn is_name_before(&self, sign: Sign) -> bool
        ensures { Tells result (before name_word (token_of sign)) (words_left self.now) }
    {
        let Some((first, behind)) = self.rest.split_first() else {
            return false;
        };
        matches!(first.token, Token::Name(_)) && begins_with(behind, sign)
    }

    // Which operand begins with the next token. Where none does, a literal is wanted.
    pub(crate) fn next_operand(&self) -> Operand
        ensures { operand_at (words_left self.now) ≡ told_operand result }
    {
        let Some((first, _)) = self.rest.split_first() else {
            return Operand::Literal;
        };
        match first.token {
            Token::Not => Operand::Negation,
            Token::Function(_) => Operand::Call,
            Token::BangFunction(_) => Operand::Call,
            Token::OpenBracket => Operand::Array,
            Token::OpenParenthesis => Operand::Group,
            Token::OpenObject => Operand::Object,
            Token::OpenBlock => Operand::Block,
            Token::If => Operand::Conditional,
            Token::Name(_) => Operand::Path,
            Token::NamePath(..) => Operand::Path,
            Token::EventPath(_) => Operand::Path,
            Token::MetadataPath(_) => Operand::Path,
            Token::Template(..) => Operand::Template,
            _ => Operand::Literal,
        }
    }

    // Whether no expression goes on with the next token.
    pub(crate) fn ends_expression(&self) -> bool
        ensures { Tells result expression_end (words_left self.now) }
    {
        let Some((first, _)) = self.rest.split_first() else {
            return true;
        };
        matches!(
            first.token,
            Token::Separator
                | Token::CloseParenthesis
                | Token::CloseBracket
                | Token::CloseBrace
                | Token::Comma
        )
    }
}

// Which operand begins with the next token.
pub(crate) enum Operand {
    Negation,
    Call,
    Array,
    Group,
    Object,
    Block,
    Conditional,
    Path,
    Template,
    Literal,
}

// Whether the first of these is this sign.
fn begins_with(words: &[Spanned], sign: Sign) -> bool
    ensures { (n : ℕ) → IsTrue result ↔ Begins (token_of sign) (words_from n words.now) }
{
    match words.split_first() {
        Some((first, _)) => is_sign(&first.token, sign),
        None => false,
    }
}

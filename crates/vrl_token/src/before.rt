ghost use Rattle.std.specs.Prelude.{◌≡◌, ◌<◌, ◌+◌, ◌-◌, ◌^◌, if◌then◌else◌, [], ◌∷◌, List, OnOk, Some};
ghost use Rattle.vrl_token.specs.Brackets.{bar_token, closed, closes, encloses, goes_on, is_bars, open_behind, opened as opens_bracket, token_of, with_bracket};
ghost use Rattle.vrl_token.specs.Nesting.{opens};
ghost use Rattle.vrl_token.specs.Telling.{IsAhead, IsBefore, IsOpen, block_of, is_arrow, is_body, last_before, last_goes_on, last_of, wants_block};
ghost use Rattle.vrl_token.specs.declared.bracket.Bracket.{Bracket as SpecBracket};
ghost use Rattle.vrl_token.specs.declared.piece.Lexeme.{Lexeme as SpecLexeme};
ghost use Rattle.vrl_token.specs.declared.token.Token.{Token as SpecToken};

use crate::ahead::Ahead;
use crate::bracket::Bracket;
use crate::context::ends_with_operand;
use crate::piece::Piece;
use crate::token::Token;
use std::alloc::Global;
use vrl_value::Memory;

/// What the last token before a place says about it.
#[derive(Clone, Copy)]
pub(crate) enum Last {
    /// It ends an operand.
    Operand,
    /// `else`
    Else,
    /// Bars that close.
    CloseBars,
    /// `->`
    Arrow,
    /// Another token behind which the item goes on.
    Operator,
    /// Another token, or none.
    Other,
}

/// What the tokens before a place say about it.
#[derive(Drop)]
pub(crate) struct Before {
    // The open brackets, the innermost last.
    open: Vec<Bracket>,
    // How many of them are closure bars, and how many bodies of closures.
    bars: usize,
    bodies: usize,
    last: Last,
}

// Whether the item goes on behind the token.
fn item_goes_on(token: &Token) -> bool
    ensures { result ≡ goes_on token.now }
{
    matches!(
        token,
        Token::Coalesce
            | Token::Or
            | Token::And
            | Token::Equal
            | Token::Unequal
            | Token::Less
            | Token::AtMost
            | Token::More
            | Token::AtLeast
            | Token::Merge
            | Token::Plus
            | Token::Minus
            | Token::Times
            | Token::Assign
            | Token::MergeAssign
            | Token::Comma
            | Token::Arrow
    )
}

// The bracket that a token opens, given what the token before it says.
fn opened(token: &Token, last: Last) -> Option<Bracket>
    ensures { (before : List SpecToken) → last ≡ last_before before → result ≡ opens_bracket token.now before }
{
    match token {
        Token::OpenParenthesis => Some(Bracket::Parenthesis),
        Token::OpenBracket => Some(Bracket::Square),
        Token::OpenObject => Some(Bracket::Object),
        Token::OpenBars => Some(Bracket::Bars),
        Token::OpenBlock => Some(last.block()),
        _ => None,
    }
}

/// Whether a token opens a bracket.
pub(crate) fn is_opening(token: &Token) -> bool
    ensures { result ≡ opens token.now }
{
    opened(token, Last::Other).is_some()
}

/// Whether a token closes a bracket.
pub(crate) fn is_closing(token: &Token) -> bool
    ensures { result ≡ closes token.now }
{
    matches!(
        token,
        Token::CloseParenthesis | Token::CloseBracket | Token::CloseBrace | Token::CloseBars
    )
}

// Whether a bracket is that of a closure's names.
fn is_closure_bars(bracket: Bracket) -> bool
    ensures { result ≡ is_bars bracket }
{
    matches!(bracket, Bracket::Bars)
}

// Whether a bracket is that of a closure's body.
fn is_closure_body(bracket: Bracket) -> bool
    ensures { result ≡ is_body bracket }
{
    matches!(bracket, Bracket::Body)
}

// A count with one more, where that counts.
fn one_more(count: usize, counts: bool) -> usize
    ensures { count < 2 ^ 63 → result ≡ count + (if counts then 1 else 0) }
{
    if counts {
        count.saturating_add(1)
    } else {
        count
    }
}

// A count with one less, where that counts.
fn one_less(count: usize, counts: bool) -> usize
    ensures { result ≡ count - (if counts then 1 else 0) }
{
    if counts {
        count.saturating_sub(1)
    } else {
        count
    }
}

impl Last {
    // Whether it is `->`.
    fn is_arrow(self) -> bool
        ensures { result ≡ is_arrow self }
    {
        matches!(self, Last::Arrow)
    }

    // What a token says as the last one.
    fn of(token: &Token) -> Last
        ensures { result ≡ last_of token.now }
    {
        match token {
            Token::Else => Last::Else,
            Token::CloseBars => Last::CloseBars,
            Token::Arrow => Last::Arrow,
            _ if ends_with_operand(token) => Last::Operand,
            _ if item_goes_on(token) => Last::Operator,
            _ => Last::Other,
        }
    }

    // The bracket of a block that begins behind it.
    fn block(self) -> Bracket
        ensures { result ≡ block_of self }
    {
        match self {
            Last::CloseBars => Bracket::Body,
            _ => Bracket::Block,
        }
    }

    // Whether a `{` behind it opens a block whatever follows.
    fn wants_block(self) -> bool
        ensures { result ≡ wants_block self }
    {
        matches!(self, Last::Operand | Last::Else | Last::CloseBars)
    }

    // Whether the item goes on behind it.
    fn goes_on(self) -> bool
        ensures { result ≡ last_goes_on self }
    {
        matches!(self, Last::Arrow | Last::Operator)
    }
}

impl Before {
    /// Before all tokens.
    pub(crate) fn start(alloc: Global) -> Before
        ensures { IsBefore [] result }
    {
        Before {
            open: Vec::new(alloc),
            bars: 0,
            bodies: 0,
            last: Last::Other,
        }
    }

    /// How many bodies of closures are open.
    pub(crate) fn bodies(&self) -> usize
        ensures { result ≡ self.now.bodies }
    {
        self.bodies
    }

    // Whether the innermost open bracket keeps newlines from parting items.
    fn encloses(&self) -> bool
        ensures { (before : List SpecToken) → IsBefore before self.now → result ≡ encloses (open_behind before) }
    {
        matches!(
            self.open.last(),
            Some(Bracket::Parenthesis | Bracket::Square | Bracket::Object | Bracket::Bars)
        )
    }

    /// The token that a piece is here. `None`: a newline that parts no items, or a blank or a
    /// comment.
    pub(crate) fn token_of(&self, piece: Piece, ahead: Ahead) -> Option<Token>
        ensures { (before : List SpecToken) (behind : List SpecLexeme) → IsBefore before self.now
            → IsAhead behind ahead → result ≡ token_of before piece behind }
    {
        match piece {
            Piece::Blank | Piece::Comment => None,
            Piece::Word(token) => Some(token),
            Piece::Brace if !self.last.wants_block() && ahead.object => Some(Token::OpenObject),
            Piece::Brace => Some(Token::OpenBlock),
            Piece::Bar => Some(self.bar()),
            Piece::Newline if self.encloses() || self.last.goes_on() || ahead.joins => None,
            Piece::Newline => Some(Token::Separator),
        }
    }

    // The token that `|` is here.
    fn bar(&self) -> Token
        ensures { (before : List SpecToken) → IsBefore before self.now → result ≡ bar_token before }
    {
        if self.last.is_arrow() {
            Token::OpenBars
        } else if self.bars > 0 {
            Token::CloseBars
        } else {
            Token::Merge
        }
    }

    // Opens a bracket.
    fn open(&mut self, bracket: Bracket) -> Result<(), Memory>
        ensures last { self.new.last ≡ self.old.last }
        ensures opens { OnOk result ((brackets : List SpecBracket) → IsOpen brackets self.old
            → IsOpen (bracket ∷ brackets) self.new) }
    {
        self.open.push(bracket)?;
        self.bars = one_more(self.bars, is_closure_bars(bracket));
        self.bodies = one_more(self.bodies, is_closure_body(bracket));
        Ok(())
    }

    // Closes the innermost open bracket, where there is one.
    fn close(&mut self)
        ensures last { self.new.last ≡ self.old.last }
        ensures closes { (brackets : List SpecBracket) → IsOpen brackets self.old → IsOpen (closed brackets) self.new }
    {
        if let Some(bracket) = self.open.pop() {
            self.bars = one_less(self.bars, is_closure_bars(bracket));
            self.bodies = one_less(self.bodies, is_closure_body(bracket));
        }
    }

    // Opens this bracket, or else closes one where a token does.
    fn add_bracket(&mut self, opened: Option<Bracket>, closes: bool) -> Result<(), Memory>
        ensures last { self.new.last ≡ self.old.last }
        ensures brackets { OnOk result ((brackets : List SpecBracket) → IsOpen brackets self.old
            → IsOpen (with_bracket opened closes brackets) self.new) }
    {
        match opened {
            Some(bracket) => self.open(bracket),
            None if closes => {
                self.close();
                Ok(())
            }
            None => Ok(()),
        }
    }

    /// Behind one more token.
    pub(crate) fn add(&mut self, token: &Token) -> Result<(), Memory>
        ensures { OnOk result ((before : List SpecToken) → IsBefore before self.old
            → IsBefore (token.now ∷ before) self.new) }
    {
        self.add_bracket(opened(token, self.last), is_closing(token))?;
        self.last = Last::of(token);
        Ok(())
    }
}

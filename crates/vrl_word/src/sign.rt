ghost use Rattle.std.specs.Prelude.{◌≡◌, ◌↔◌, IsTrue};
ghost use Rattle.vrl_word.specs.Signs.{sign_of as sign_of_token, token_of};

use vrl_token::Token;

/// A token that says nothing but which one it is, and that is no operator between two sides.
#[derive(Clone, Copy, Debug, PartialEq, Eq)]
pub enum Sign {
    /// `if`
    If,
    /// `else`
    Else,
    /// `abort`
    Abort,
    /// `return`
    Return,
    /// `=`
    Assign,
    /// `|=`
    MergeAssign,
    /// `!`
    Not,
    /// `(`
    OpenParenthesis,
    /// `)`
    CloseParenthesis,
    /// `[`
    OpenBracket,
    /// `]`
    CloseBracket,
    /// `{` that opens a block.
    OpenBlock,
    /// `{` that opens an object.
    OpenObject,
    /// `}`
    CloseBrace,
    /// `|` that opens the names of a closure.
    OpenBars,
    /// `|` that closes them.
    CloseBars,
    /// `,`
    Comma,
    /// `:`
    Colon,
    /// `->`
    Arrow,
    /// What parts items.
    Separator,
}

// The sign that a token is. `None` where it is another token.
fn sign_of(token: &Token) -> Option<Sign>
    ensures { result ≡ sign_of_token token.now }
{
    match token {
        Token::If => Some(Sign::If),
        Token::Else => Some(Sign::Else),
        Token::Abort => Some(Sign::Abort),
        Token::Return => Some(Sign::Return),
        Token::Assign => Some(Sign::Assign),
        Token::MergeAssign => Some(Sign::MergeAssign),
        Token::Not => Some(Sign::Not),
        Token::OpenParenthesis => Some(Sign::OpenParenthesis),
        Token::CloseParenthesis => Some(Sign::CloseParenthesis),
        Token::OpenBracket => Some(Sign::OpenBracket),
        Token::CloseBracket => Some(Sign::CloseBracket),
        Token::OpenBlock => Some(Sign::OpenBlock),
        Token::OpenObject => Some(Sign::OpenObject),
        Token::CloseBrace => Some(Sign::CloseBrace),
        Token::OpenBars => Some(Sign::OpenBars),
        Token::CloseBars => Some(Sign::CloseBars),
        Token::Comma => Some(Sign::Comma),
        Token::Colon => Some(Sign::Colon),
        Token::Arrow => Some(Sign::Arrow),
        Token::Separator => Some(Sign::Separator),
        _ => None,
    }
}

/// Whether a token is this sign.
pub fn is_sign(token: &Token, sign: Sign) -> bool
    ensures { IsTrue result ↔ (token.now ≡ token_of sign) }
{
    match sign_of(token) {
        Some(found) => found == sign,
        None => false,
    }
}

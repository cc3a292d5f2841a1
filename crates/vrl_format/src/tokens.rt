ghost use Rattle.std.specs.Prelude.{◌≡◌, OnOk, reverse};
ghost use Rattle.vrl_format.specs.Pieces.{braces_behind, brace_sort, closes_next, opens_bare, sort_of};
ghost use Rattle.vrl_format.specs.Writing.{sort_in};

use crate::sort::Sort;
use vrl_token::{Spanned, Token};
use vrl_value::Memory;

// The sort of a brace that closes the last of these that are open, each with whether it is a
// block's.
fn brace_sort(braces: &[bool]) -> Sort
    ensures { sort_in result ≡ brace_sort (reverse braces.now) }
{
    match braces.last() {
        Some(true) => Sort::BlockEnd,
        _ => Sort::Closer,
    }
}

/// The sort of a token, where these braces are open before it.
pub(crate) fn sort_of(braces: &[bool], token: &Token) -> Sort
    ensures { sort_in result ≡ sort_of (reverse braces.now) token.now }
{
    match token {
        Token::OpenBlock => Sort::BlockStart,
        Token::CloseBrace => brace_sort(braces),
        Token::Function(_) | Token::BangFunction(_) => Sort::Opener,
        Token::OpenParenthesis | Token::OpenBracket | Token::Not => Sort::Opener,
        Token::OpenObject | Token::OpenBars => Sort::Opener,
        Token::CloseParenthesis | Token::CloseBracket => Sort::Closer,
        Token::Comma | Token::Colon | Token::Suffix(_) => Sort::Closer,
        Token::CloseBars => Sort::Closer,
        _ => Sort::Plain,
    }
}

/// Goes behind a token, by the braces that are open.
pub(crate) fn follow_brace(braces: &mut Vec<bool>, token: &Token) -> Result<(), Memory>
    ensures { OnOk result
        (reverse braces.new.items ≡ braces_behind token.now (reverse braces.old.items)) }
{
    match token {
        Token::OpenBlock => {
            braces.push(true)?;
            Ok(())
        }
        Token::OpenObject => {
            braces.push(false)?;
            Ok(())
        }
        Token::CloseBrace => {
            braces.pop();
            Ok(())
        }
        _ => Ok(()),
    }
}

// Whether the next token that is no separator closes a brace.
fn closes_next(tokens: &[Spanned]) -> bool
    ensures { result ≡ closes_next tokens.now }
{
    let mut rest = tokens;
    while let Some((first, behind)) = rest.split_first() {
        match first.token {
            Token::Separator => {}
            Token::CloseBrace => return true,
            _ => return false,
        }
        rest = behind;
    }
    false
}

/// Whether a token opens a block that has no token but newlines and semicolons.
pub(crate) fn opens_bare(token: &Token, behind: &[Spanned]) -> bool
    ensures { result ≡ opens_bare token.now behind.now }
{
    match token {
        Token::OpenBlock => closes_next(behind),
        _ => false,
    }
}

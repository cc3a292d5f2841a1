ghost use Rattle.std.specs.Prelude.{◌≡◌, ◌↔◌, IfOk, IsErr, IsSome, IsTrue, option_map};
ghost use Rattle.vrl_value.specs.View.{tree_of};
ghost use Rattle.vrl_word.specs.Words.{is_copied, literal_at, function_of as function_in, name_span as name_place, operator_of as operator_in, over as place_over, path_of as path_in, target_at};

use std::alloc::Global;
use vrl_diag::Span;
use vrl_path::Path;
use vrl_syntax::{Op, Root, Target};
use vrl_token::{Spanned, Token};
use vrl_value::{Chars, Memory, Value};

/// From the start of the first place to the end of the last one.
pub fn over(first: Span, last: Span) -> Span
    ensures { result ≡ place_over first last }
{
    Span {
        start: first.start,
        end: last.end,
    }
}

/// Whether a token is a path or a name.
pub fn is_path(token: &Token) -> bool
    ensures { IsTrue result ↔ IsSome (path_in token.now) }
{
    matches!(
        token,
        Token::Name(_) | Token::NamePath(..) | Token::EventPath(_) | Token::MetadataPath(_)
    )
}

/// What a path or a name leads from, and its steps. `None` where the token is neither, which takes no memory.
pub fn path_of(alloc: Global, token: &Token) -> Result<Option<(Root, Path)>, Memory>
    ensures found { IfOk result (λ found. found ≡ path_in token.now) }
    ensures memory { IsErr result → IsSome (path_in token.now) }
{
    match token {
        Token::Name(name) => {
            let name = name.copy(alloc)?;
            Ok(Some((Root::Name(name), Path::new(Vec::new(alloc)))))
        }
        Token::NamePath(name, path) => {
            let name = name.copy(alloc)?;
            Ok(Some((Root::Name(name), path.copy(alloc)?)))
        }
        Token::EventPath(path) => Ok(Some((Root::Event, path.copy(alloc)?))),
        Token::MetadataPath(path) => Ok(Some((Root::metadata(alloc)?, path.copy(alloc)?))),
        _ => Ok(None),
    }
}

/// Where an assignment to what stands there writes. `None` where it is neither a path nor a name, which takes
/// no memory.
pub fn target_of(alloc: Global, word: &Spanned) -> Result<Option<Target>, Memory>
    ensures found { IfOk result (λ found. found ≡ target_at word.now.token word.now.span) }
    ensures memory { IsErr result → IsSome (target_at word.now.token word.now.span) }
{
    if let Token::Name(name) = &word.token {
        if name.as_str() == "_" {
            return Ok(Some(Target::Nowhere));
        }
    }
    match path_of(alloc, &word.token)? {
        Some((root, path)) => Ok(Some(Target::Place(word.span, root, path))),
        None => Ok(None),
    }
}

/// The name of a function, and whether it has a bang. `None` where the token is none, which takes no memory.
pub fn function_of(alloc: Global, token: &Token) -> Result<Option<(Chars, bool)>, Memory>
    ensures found { IfOk result (λ found. found ≡ function_in token.now) }
    ensures memory { IsErr result → IsSome (function_in token.now) }
{
    match token {
        Token::Function(name) => Ok(Some((name.copy(alloc)?, false))),
        Token::BangFunction(name) => Ok(Some((name.copy(alloc)?, true))),
        _ => Ok(None),
    }
}

/// The place of a function's name, given that of its token and whether it has a bang.
pub fn name_span(span: Span, bang: bool) -> Span
    ensures { result ≡ name_place span bang }
{
    if bang {
        Span {
            start: span.start,
            end: span.end.saturating_sub(1),
        }
    } else {
        span
    }
}

/// The value of a literal, given how many regex literals stand before it. `None` where the token is no
/// literal. Only a text takes memory.
pub fn literal_of(alloc: Global, token: &Token, number: u32) -> Result<Option<Value>, Memory>
    ensures found { IfOk result (λ found. option_map tree_of found ≡ literal_at token.now number) }
    ensures memory { IsErr result → IsTrue (is_copied token.now) }
{
    match token {
        Token::Text(text) => Ok(Some(Value::Text(text.copy(alloc)?))),
        Token::RawText(text) => Ok(Some(Value::Text(text.copy(alloc)?))),
        Token::Regex(_) => Ok(Some(Value::Pattern(number))),
        Token::Timestamp(moment) => Ok(Some(Value::Time(*moment))),
        Token::Number(number) => Ok(Some(Value::Int(*number))),
        Token::True => Ok(Some(Value::Bool(true))),
        Token::False => Ok(Some(Value::Bool(false))),
        Token::Null => Ok(Some(Value::Null)),
        _ => Ok(None),
    }
}

/// The level of an operator, 0 for the loosest, and what it is. `None` where the token is none.
pub fn operator_of(token: &Token) -> Option<(usize, Op)>
    ensures { result ≡ operator_in token.now }
{
    match token {
        Token::Coalesce => Some((0, Op::Coalesce)),
        Token::Or => Some((1, Op::Or)),
        Token::And => Some((2, Op::And)),
        Token::Equal => Some((3, Op::Equal)),
        Token::Unequal => Some((3, Op::Unequal)),
        Token::Less => Some((4, Op::Less)),
        Token::AtMost => Some((4, Op::AtMost)),
        Token::More => Some((4, Op::More)),
        Token::AtLeast => Some((4, Op::AtLeast)),
        Token::Merge => Some((5, Op::Merge)),
        Token::Plus => Some((6, Op::Plus)),
        Token::Minus => Some((6, Op::Minus)),
        Token::Times => Some((7, Op::Times)),
        _ => None,
    }
}

// Texts with variables.
ghost use Rattle.std.specs.Prelude.{◌≡◌, IfOk, IsErr, IsSome, option_map};
ghost use Rattle.vrl_syntax.specs.View.{expr_of};
ghost use Rattle.vrl_word.specs.Words.{hole_span as hole_place, template_at, with_hole as with_one, with_holes as with_all};

use crate::forms::{group, literal, read, sum};
use std::alloc::Global;
use vrl_diag::Span;
use vrl_path::Path;
use vrl_syntax::{Expr, Root};
use vrl_token::{Hole, Spanned, Token};
use vrl_value::{Memory, Value};

/// A text with variables: the group of a sum of the text before the first one, and of each variable and the
/// text behind it. `None` where the token is none, which takes no memory.
pub fn template_of(alloc: Global, word: &Spanned) -> Result<Option<Expr>, Memory>
    ensures found { IfOk result (λ found. option_map expr_of found ≡ template_at word.now.token word.now.span) }
    ensures memory { IsErr result → IsSome (template_at word.now.token word.now.span) }
{
    match &word.token {
        Token::Template(before, holes) => {
            let span = word.span;
            let text = literal(span, Value::Text(before.copy(alloc)?));
            let sum = with_holes(alloc, span, text, holes.as_slice())?;
            Ok(Some(group(alloc, span, sum, span)?))
        }
        _ => Ok(None),
    }
}

// A sum with each variable and the text behind it.
fn with_holes(alloc: Global, span: Span, first: Expr, holes: &[Hole]) -> Result<Expr, Memory>
    ensures { IfOk result (λ sum. expr_of sum ≡ with_all span (expr_of first) holes.now) }
{
    let mut sum = first;
    let mut rest = holes;
    while let Some((hole, behind)) = rest.split_first() {
        sum = with_hole(alloc, span, sum, hole)?;
        rest = behind;
    }
    Ok(sum)
}

// A sum with a variable and the text behind it.
fn with_hole(alloc: Global, span: Span, before: Expr, hole: &Hole) -> Result<Expr, Memory>
    ensures { IfOk result (λ whole. expr_of whole ≡ with_one span (expr_of before) hole.now) }
{
    let root = Root::Name(hole.name.copy(alloc)?);
    let variable = read(hole_span(span, hole), root, Path::new(Vec::new(alloc)));
    let left = sum(alloc, span, before, variable)?;
    let text = literal(span, Value::Text(hole.behind.copy(alloc)?));
    sum(alloc, span, left, text)
}

// The place of a variable's name, given that of the text.
fn hole_span(span: Span, hole: &Hole) -> Span
    ensures { result ≡ hole_place span hole.now }
{
    let end = span.end as usize;
    let behind = hole.distance.saturating_sub(hole.name.as_str().len());
    Span {
        start: end.saturating_sub(hole.distance) as u32,
        end: end.saturating_sub(behind) as u32,
    }
}

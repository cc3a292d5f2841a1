ghost use Rattle.std.specs.Prelude.{◌≡◌, ◌↔◌, ◌≤◌, ℕ, List, IfOk, IsTrue, IfSome, MatchOption, length};
ghost use Rattle.std.specs.List.{AllByRecursion};
ghost use Rattle.vrl_token.specs.Characters.{Character, IsKnown};
ghost use Rattle.vrl_token.specs.Openings.{AreHoles, CutsOpening, IsClosing, IsHoleText, IsOpenedAt, IsTextToken, Opens, pending_behind};
ghost use Rattle.vrl_token.specs.Quoted.{IsInner};
ghost use Rattle.vrl_token.specs.Templates.{HasOpening, IsWellFormed};
ghost use Rattle.vrl_token.specs.Words.{IsFreeName};
ghost use Rattle.vrl_token.specs.declared.token.Hole.{Hole as SpecHole};

use crate::names::is_keyword;
use crate::quoted::unescaped;
use crate::scan::{Class, begins_in, split_run, strip_mark};
use crate::token::{Hole, Holes, Token};
use std::alloc::Global;
use vrl_value::{Chars, Memory};

// What the bytes before a place leave open.
#[derive(Clone, Copy)]
enum Pending {
    // The last one is a backslash that escapes the next.
    Escape,
    // The last one is a `{` that isn't escaped.
    Brace,
    // Nothing.
    Nothing,
}

impl Pending {
    // Whether a template opens with the next byte.
    fn opens(self, byte: u8) -> bool
        ensures { IsTrue result ↔ Opens self byte }
    {
        matches!(self, Pending::Brace) && byte == b'{'
    }

    // Behind one more byte.
    fn behind(self, byte: u8) -> Pending
        ensures { result ≡ pending_behind self byte }
    {
        if matches!(self, Pending::Escape) {
            return Pending::Nothing;
        }
        match byte {
            b'\\' => Pending::Escape,
            b'{' => Pending::Brace,
            _ => Pending::Nothing,
        }
    }
}

// How many bytes stand before the first template that opens. `None` where none does.
fn opening_length(text: &str) -> Option<usize>
    ensures { MatchOption result
        ((characters : List Character) → IsInner 34 text.now characters → ¬ HasOpening characters)
        (IsOpenedAt text.now) }
{
    let bytes = text.as_bytes();
    let mut pending = Pending::Nothing;
    for index in 0..bytes.len() {
        let byte = bytes[index];
        if pending.opens(byte) {
            return Some(index - 1);
        }
        pending = pending.behind(byte);
    }
    None
}

// What stands before the first template that opens, and what stands behind its `{{`. Where none
// opens it is the whole text, and `None`.
fn split_opening(text: &str) -> (&str, Option<&str>)
    ensures parts { (characters : List Character) → IsInner 34 text.now characters
        → CutsOpening characters result.0.now result.1 }
    ensures size { IfSome result.1 (λ behind. length behind.now ≤ length text.now) }
{
    let Some(length) = opening_length(text) else {
        return (text, None);
    };
    let (before, opening) = text.split_at(length);
    let (_, behind) = opening.split_at(2);
    (before, Some(behind))
}

// The name that a text begins with, as long as it can be, and what stands behind it. `None` where
// it begins with none, or with a keyword.
fn split_free_name(text: &str) -> Option<(&str, &str)>
    ensures { MatchOption result
        ((name rest : List ℕ) → ¬ IsFreeName text.now name rest)
        (λ cut. IsFreeName text.now cut.0.now cut.1.now) }
{
    if !begins_in(text, Class::NameStart) {
        return None;
    }
    let (name, rest) = split_run(text, Class::NamePart);
    if is_keyword(name) {
        return None;
    }
    Some((name, rest))
}

// What stands behind blanks and `}}`. `None` where a text doesn't begin with them.
fn behind_closing(text: &str) -> Option<&str>
    ensures { MatchOption result ((rest : List ℕ) → ¬ IsClosing text.now rest) (λ rest. IsClosing text.now rest.now) }
{
    let (_, closing) = split_run(text, Class::Blank);
    let second = strip_mark(closing, '}')?;
    strip_mark(second, '}')
}

// The name of the variable whose `{{` stands before a text, how many bytes stand from it to the end
// of the text's spelling, and what stands behind its `}}`. `None` where it is malformed.
fn split_hole(text: &str) -> Option<(&str, usize, &str)>
    ensures { MatchOption result
        ((name : List ℕ) (distance : ℕ) (rest : List ℕ) → ¬ IsHoleText text.now name distance rest)
        (λ hole. IsHoleText text.now hole.0.now hole.1 hole.2.now) }
{
    let (_, named) = split_run(text, Class::Blank);
    let (name, behind) = split_free_name(named)?;
    let rest = behind_closing(behind)?;
    Some((name, named.len() + 1, rest))
}

// The variables of a text behind the first `{{`. `None` where an escape is none that the language
// has, or a template is malformed.
fn holes_of(alloc: Global, text: &str) -> Result<Option<Vec<Hole>>, Memory>
    ensures { IfOk result (λ found. (characters : List Character) → IsInner 34 text.now characters
        → MatchOption found (AllByRecursion IsKnown characters → (holes : List SpecHole) → ¬ AreHoles characters holes)
        (λ holes. AllByRecursion IsKnown characters × AreHoles characters holes.items)) }
{
    let mut holes = Vec::new(alloc);
    let mut left = text;
    while let Some((name, distance, next)) = split_hole(left) {
        let (behind, opening) = split_opening(next);
        let Some(behind) = unescaped(alloc, behind)? else {
            return Ok(None);
        };
        let name = Chars::copy_of(alloc, name)?;
        holes.push(Hole {
            name,
            distance,
            behind,
        })?;
        match opening {
            Some(inside) => left = inside,
            None => return Ok(Some(holes)),
        }
    }
    Ok(None)
}

/// The token of what stands between the quotes of a text. `None` where an escape is none that the
/// language has, or a template is malformed.
pub(crate) fn text_token(alloc: Global, inner: &str) -> Result<Option<Token>, Memory>
    ensures { IfOk result (λ found. (characters : List Character) → IsInner 34 inner.now characters
        → MatchOption found (AllByRecursion IsKnown characters → ¬ IsWellFormed characters)
        (λ token. AllByRecursion IsKnown characters × IsTextToken characters token)) }
{
    let (before, opening) = split_opening(inner);
    let Some(first) = unescaped(alloc, before)? else {
        return Ok(None);
    };
    let Some(behind) = opening else {
        return Ok(Some(Token::Text(first)));
    };
    match holes_of(alloc, behind)? {
        Some(holes) => Ok(Some(Token::Template(first, Holes::new(holes)))),
        None => Ok(None),
    }
}

ghost use Rattle.std.specs.Prelude.{◌≡◌, ◌<◌, ◌≤◌, All, IfOk, OnOk, length};
ghost use Rattle.std.specs.Str.{IsCharBoundary};
ghost use Rattle.vrl_token.specs.Placing.{InOrderFrom, IsOnCharacters, script_limit, spans_of};
ghost use Rattle.vrl_format.specs.Pieces.{is_semicolon};
ghost use Rattle.vrl_format.specs.Writing.{at_first, put_token, stepped, taken, walked, walking_in, writing_in};

use crate::layout::Layout;
use crate::tokens::{follow_brace, opens_bare, sort_of};
use std::alloc::Global;
use vrl_token::{Spanned, Token};
use vrl_value::Memory;

/// A walk over the tokens of a text, with the layout of what it went over.
#[derive(Drop)]
pub(crate) struct Walk {
    /// The layout.
    pub(crate) layout: Layout,
    /// The braces that are open, each with whether it is a block's.
    pub(crate) braces: Vec<bool>,
    /// Whether the next semicolon is a piece, as the first one of a block that has no token but
    /// newlines and semicolons.
    pub(crate) bare: bool,
}

// Whether a separator is spelled `;`.
fn is_semicolon(text: &str, separator: &Spanned) -> bool
    ensures { result ≡ is_semicolon text.now separator.now }
{
    text.as_bytes().get(separator.span.start as usize) == Some(&b';')
}

impl Walk {
    // Before the first token.
    fn new(alloc: Global) -> Walk
        ensures { walking_in result ≡ at_first }
    {
        Walk {
            layout: Layout::new(alloc),
            braces: Vec::new(alloc),
            bare: false,
        }
    }

    // Writes a token.
    fn put(&mut self, text: &str, first: &Spanned, behind: &[Spanned]) -> Result<(), Memory>
        requires room { self.old.layout.blocks ≤ 65536 }
        requires within { first.now.span.start ≤ first.now.span.«end» }
        requires characters { IsOnCharacters text.now first.now.span }
        ensures { OnOk result (walking_in self.new
            ≡ put_token text.now (walking_in self.old) first.now behind.now) }
    {
        let span = first.span;
        let sort = sort_of(&self.braces, &first.token);
        self.layout
            .put(sort, &text[span.start as usize..span.end as usize])?;
        follow_brace(&mut self.braces, &first.token)?;
        self.bare = opens_bare(&first.token, behind);
        Ok(())
    }

    // Goes over a token: writes it, or sees the separator that it is.
    fn take(&mut self, text: &str, first: &Spanned, behind: &[Spanned]) -> Result<(), Memory>
        requires room { self.old.layout.blocks ≤ 65536 }
        requires within { first.now.span.start ≤ first.now.span.«end» }
        requires characters { IsOnCharacters text.now first.now.span }
        ensures { OnOk result (walking_in self.new
            ≡ taken text.now (walking_in self.old) first.now behind.now first.now.token) }
    {
        match first.token {
            Token::Separator => {
                if !is_semicolon(text, first) {
                    self.layout.see_newline(true);
                    return Ok(());
                }
                if self.bare {
                    return self.put(text, first, behind);
                }
                self.layout.see_semicolon();
                Ok(())
            }
            _ => self.put(text, first, behind),
        }
    }

    // Goes over a token and the bytes before it, which begin at a place.
    fn step(
        &mut self,
        text: &str,
        place: usize,
        first: &Spanned,
        behind: &[Spanned],
    ) -> Result<(), Memory>
        requires room { self.old.layout.blocks ≤ 65536 }
        requires before { place ≤ first.now.span.start }
        requires within { first.now.span.start ≤ first.now.span.«end» }
        requires place { IsCharBoundary text.now place }
        requires characters { IsOnCharacters text.now first.now.span }
        ensures { OnOk result (walking_in self.new
            ≡ stepped text.now place (walking_in self.old) first.now behind.now) }
    {
        self.layout.note(&text[place..first.span.start as usize])?;
        self.take(text, first, behind)
    }
}

/// The layout of a text with these tokens, but for its end.
pub(crate) fn walked(alloc: Global, text: &str, tokens: &[Spanned]) -> Result<Layout, Memory>
    requires short { length text.now ≤ script_limit }
    requires spans { InOrderFrom 0 (length text.now) (spans_of tokens.now) }
    requires characters { All (λ t. IsOnCharacters text.now t.span) tokens.now }
    ensures { IfOk result (λ layout. writing_in layout ≡ walked text.now 0 at_first tokens.now) }
{
    let mut walk = Walk::new(alloc);
    let mut place = 0;
    let mut rest = tokens;
    while let Some((first, behind)) = rest.split_first() {
        walk.step(text, place, first, behind)?;
        place = first.span.end as usize;
        rest = behind;
    }
    let Walk {
        mut layout,
        braces: _,
        bare: _,
    } = walk;
    layout.note(&text[place..])?;
    Ok(layout)
}

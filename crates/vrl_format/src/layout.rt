ghost use Rattle.std.specs.Prelude.{◌≡◌, ◌≤◌, ◌++◌, IfOk, OnOk, option_map, string_bytes};
ghost use Rattle.vrl_format.specs.Layout.{blocks_at, blocks_behind, gap_text, indent};
ghost use Rattle.vrl_format.specs.Pieces.{newline, semicolon};
ghost use Rattle.vrl_format.specs.Writing.{ended, gap_in, lead, put, sort_in, unwritten, with_seen, writing_in};

use crate::gap::{Gap, Seen, gap_between};
use crate::sort::Sort;
use std::alloc::Global;
use vrl_value::Memory;

/// A layout as it is written, piece by piece.
#[derive(Drop)]
pub(crate) struct Layout {
    /// What is written.
    pub(crate) text: String,
    /// The sort of the last piece.
    pub(crate) last: Option<Sort>,
    /// How many blocks are open behind it.
    pub(crate) blocks: usize,
    /// What the text has behind it.
    pub(crate) seen: Seen,
}

// How many blocks are open on the line of a piece of this sort.
fn blocks_at(next: Sort, blocks: usize) -> usize
    ensures { result ≡ blocks_at (sort_in next) blocks }
{
    match next {
        Sort::BlockEnd => blocks.saturating_sub(1),
        _ => blocks,
    }
}

// How many blocks are open behind it.
fn blocks_behind(next: Sort, blocks: usize) -> usize
    requires { blocks ≤ 65536 }
    ensures { result ≡ blocks_behind (sort_in next) blocks }
{
    match next {
        Sort::BlockStart => blocks + 1,
        Sort::BlockEnd => blocks.saturating_sub(1),
        _ => blocks,
    }
}

// Begins a line behind these newlines.
fn begin_line(text: &mut String, newlines: &str, blocks: usize) -> Result<(), Memory>
    ensures { OnOk result
        (string_bytes text.new ≡ string_bytes text.old ++ (newlines.now ++ indent blocks)) }
{
    text.push_str(newlines)?;
    for _ in 0..blocks {
        text.push_str("  ")?;
    }
    Ok(())
}

// Writes a gap before a piece, where so many blocks are open on its line.
fn push_gap(text: &mut String, gap: Gap, blocks: usize) -> Result<(), Memory>
    ensures { OnOk result
        (string_bytes text.new ≡ string_bytes text.old ++ gap_text (gap_in gap) blocks) }
{
    match gap {
        Gap::Nothing => Ok(()),
        Gap::Space => {
            text.push_str(" ")?;
            Ok(())
        }
        Gap::Line => begin_line(text, "\n", blocks),
        Gap::EmptyLine => begin_line(text, "\n\n", blocks),
    }
}

impl Layout {
    // Nothing is written.
    pub(crate) fn new(alloc: Global) -> Layout
        ensures { writing_in result ≡ unwritten }
    {
        Layout {
            text: String::new(alloc),
            last: None,
            blocks: 0,
            seen: Seen::nothing(),
        }
    }

    // The text has a newline behind the last piece, which parts items or doesn't.
    pub(crate) fn see_newline(&mut self, parting: bool)
        ensures { writing_in self.new ≡ with_seen (writing_in self.old) (newline parting) }
    {
        self.seen = self.seen.with_newline(parting);
    }

    // The text has a semicolon behind the last piece.
    pub(crate) fn see_semicolon(&mut self)
        ensures { writing_in self.new ≡ with_seen (writing_in self.old) semicolon }
    {
        self.seen = self.seen.with_semicolon();
    }

    // Writes what stands between the last piece and one of this sort.
    fn push_lead(&mut self, next: Sort) -> Result<(), Memory>
        ensures text { OnOk result (string_bytes self.new.text ≡ string_bytes self.old.text
            ++ lead (option_map sort_in self.old.last) self.old.seen self.old.blocks (sort_in next)) }
        ensures blocks { self.new.blocks ≡ self.old.blocks }
    {
        let Some(last) = self.last else {
            return Ok(());
        };
        let blocks = blocks_at(next, self.blocks);
        push_gap(&mut self.text, gap_between(last, self.seen, next), blocks)
    }

    /// Writes a piece of this sort, behind what stands before it.
    pub(crate) fn put(&mut self, next: Sort, spelling: &str) -> Result<(), Memory>
        requires { self.old.blocks ≤ 65536 }
        ensures { OnOk result
            (writing_in self.new ≡ put (writing_in self.old) (sort_in next) spelling.now) }
    {
        self.push_lead(next)?;
        self.text.push_str(spelling)?;
        self.last = Some(next);
        self.blocks = blocks_behind(next, self.blocks);
        self.seen = Seen::nothing();
        Ok(())
    }

    /// The layout, with a newline behind its last piece.
    pub(crate) fn finish(self) -> Result<String, Memory>
        ensures { IfOk result (λ text. string_bytes text ≡ ended (writing_in self)) }
    {
        let Layout {
            mut text,
            last,
            blocks: _,
            seen: _,
        } = self;
        if last.is_some() {
            text.push_str("\n")?;
        }
        Ok(text)
    }
}

ghost use Rattle.std.specs.Prelude.{◌≡◌, IfOk};
ghost use Rattle.vrl_builtin.specs.Rows.{error_text};
ghost use Rattle.vrl_builtin.specs.View.{failure_text};
ghost use Rattle.vrl_builtin.specs.Words.{element, part_is, value_is};

use std::alloc::Global;
use vrl_value::{Chars, Memory, Tag};

/// The error of a function. It holds no text, so a function that fails needs no memory for it. A
/// contract sees `failure_text` of it.
#[derive(Clone, Copy)]
pub struct Failure {
    /// The function's name.
    pub name: &'static str,
    /// Why it fails.
    pub reason: Reason,
}

/// Why a function fails.
#[derive(Clone, Copy)]
pub enum Reason {
    /// In these words.
    Words(&'static str),
    /// The value has a tag that the function can't take: `value is TAG`.
    Value(Tag),
    /// A part of an array, by its place, has a tag that the function can't take:
    /// `element N is TAG`.
    Element(usize, Tag),
    /// A part of a path, by its place, is neither a name nor a place: `path element N is TAG`.
    PathElement(usize, Tag),
    /// A part of an array, by its place, isn't what the function asks for: `element N`.
    BadElement(usize),
}

// `NAME: WORDS`.
fn words_text(alloc: Global, name: &str, words: &str) -> Result<Chars, Memory>
    ensures { IfOk result (λ text. text ≡ error_text name.now words.now) }
{
    Ok(Chars::new(format!(in alloc; "{name}: {words}")?))
}

// `NAME: value is TAG`.
fn value_text(alloc: Global, name: &str, tag: Tag) -> Result<Chars, Memory>
    ensures { IfOk result (λ text. text ≡ error_text name.now (value_is tag)) }
{
    let word = tag.word();
    Ok(Chars::new(format!(in alloc; "{name}: value is {word}")?))
}

// `NAME: PART N is TAG`.
fn part_text(alloc: Global, name: &str, part: &str, place: usize, tag: Tag) -> Result<Chars, Memory>
    ensures { IfOk result (λ text. text ≡ error_text name.now (part_is part.now place tag)) }
{
    let word = tag.word();
    Ok(Chars::new(format!(in alloc; "{name}: {part} {place} is {word}")?))
}

// `NAME: element N`.
fn element_text(alloc: Global, name: &str, place: usize) -> Result<Chars, Memory>
    ensures { IfOk result (λ text. text ≡ error_text name.now (element place)) }
{
    Ok(Chars::new(format!(in alloc; "{name}: element {place}")?))
}

impl Failure {
    /// The text of the error: the function's name, a colon and the words. `Memory`: out of memory.
    pub fn text(&self, alloc: Global) -> Result<Chars, Memory>
        ensures { IfOk result (λ text. text ≡ failure_text self.now) }
    {
        match self.reason {
            Reason::Words(words) => words_text(alloc, self.name, words),
            Reason::Value(tag) => value_text(alloc, self.name, tag),
            Reason::Element(place, tag) => part_text(alloc, self.name, "element", place, tag),
            Reason::PathElement(place, tag) => {
                part_text(alloc, self.name, "path element", place, tag)
            }
            Reason::BadElement(place) => element_text(alloc, self.name, place),
        }
    }
}

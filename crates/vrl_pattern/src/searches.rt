ghost use Rattle.std.specs.Prelude.{◌≡◌, ◌<◌, [], All, IfOk, IfSome, length, map, option_map, slice_index_or, take};
ghost use Rattle.regex.specs.Patterns.{span};
ghost use Rattle.vrl_value.specs.Tree.{string};
ghost use Rattle.vrl_value.specs.View.{items_of, items_of_trees};
ghost use Rattle.vrl_pattern.specs.Groups.{groups_of};
ghost use Rattle.vrl_pattern.specs.Matches.{all_matches, first_match, group_places, pieces, replaced};
ghost use Rattle.vrl_pattern.specs.Places.{place_span, AreParts, IsPart};

use crate::patterns::Patterns;
use crate::place::{Matches, Place};
use crate::search::Search;
use std::alloc::Global;
use std::cell::Cell;
use std::marker::Model;
use vrl_value::{Chars, Items, Memory, Names};

/// The regex literals of a script, with what the search for one of them writes to, which is kept
/// until another regex is searched for. One thread has it. A contract sees the list of the sources.
pub struct Searches<'r> {
    patterns: &'r Patterns,
    // The search that was used last. It is dropped before another one is made, so there is at most
    // one at a time. It is a large struct, so it lies in a box, which is cheap to move.
    kept: Cell<Option<Box<Search<'r>>>>,
}

impl<'r> Model for Searches<'r> {
    ghost use Rattle.std.specs.Prelude.{List, ℕ};

    ghost Value = { List (List ℕ) };

    ghost view = { λ s. s.patterns.now };
}

// Written out, so that a proof sees one call where it is let go.
impl<'r> Drop for Searches<'r> {
    fn drop(self) {
        let Searches {
            patterns: _patterns,
            kept,
        } = self;
        drop(kept.into_inner());
    }
}

impl<'r> Searches<'r> {
    /// With nothing kept. This takes no memory: each search takes its own.
    pub fn new(patterns: &'r Patterns) -> Searches<'r>
        ensures { result ≡ patterns.now }
    {
        Searches {
            patterns,
            kept: Cell::new(None),
        }
    }

    /// All sources in order, borrowed.
    pub fn sources(&self) -> &[Chars]
        ensures { result.now ≡ self.now }
    {
        self.patterns.sources()
    }

    /// As [`Patterns::names`].
    pub fn names(&self, alloc: Global, number: u32) -> Result<Names, Memory>
        requires { number < length self.now }
        ensures { IfOk result (λ names. names ≡ groups_of (slice_index_or self.now number [])) }
    {
        self.patterns.names(alloc, number)
    }

    // A search of the regex with this number: the one that was kept, where it is of the same
    // source, or else a new one, before which the kept one is dropped. `Memory`: want of memory.
    fn lend(&self, alloc: Global, number: u32) -> Result<Box<Search<'r>>, Memory>
        requires { number < length self.now }
        ensures { IfOk result (λ search. search.value ≡ slice_index_or self.now number []) }
    {
        let regex = self.patterns.regex(number);
        if let Some(search) = self.kept.take() {
            if search.source() == regex.as_str() {
                return Ok(search);
            }
        }
        Ok(Box::new(alloc, Search::new(alloc, regex)?)?)
    }

    fn keep(&self, search: Box<Search<'r>>) {
        self.kept.set(Some(search));
    }

    /// Where the leftmost match of the regex with this number lies in the text, between characters.
    /// `None`: it has no match. `Memory`: want of memory.
    pub fn find(&self, alloc: Global, number: u32, text: &str) -> Result<Option<Place>, Memory>
        requires { number < length self.now }
        ensures found { IfOk result
            (λ place. option_map place_span place ≡ option_map span
            (first_match (slice_index_or self.now number []) text.now)) }
        ensures within { IfOk result (λ place. IfSome place (λ place. IsPart text.now (place_span place))) }
    {
        let mut search = self.lend(alloc, number)?;
        let found = search.find(text);
        self.keep(search);
        Ok(found)
    }

    /// Where the groups of the regex with this number lie in the first `most` of its matches in the
    /// text, which are taken from the left, none over another; each part lies between characters.
    /// `Memory`: want of memory.
    pub fn groups(
        &self,
        alloc: Global,
        number: u32,
        text: &str,
        most: u64,
    ) -> Result<Matches, Memory>
        requires { number < length self.now }
        ensures found { IfOk result
            (λ found. found ≡ map (group_places (slice_index_or self.now number []))
            (take most (all_matches (slice_index_or self.now number []) text.now))) }
        ensures within { IfOk result (λ found. All (AreParts text.now) found) }
    {
        let mut search = self.lend(alloc, number)?;
        let found = search.groups(alloc, text, most);
        self.keep(search);
        found
    }

    /// The parts of the text between the matches of the regex with this number, as strings: at most
    /// `limit`, the last of which holds the rest. `Memory`: want of memory.
    pub fn split(&self, alloc: Global, number: u32, text: &str, limit: u64) -> Result<Items, Memory>
        requires { number < length self.now }
        ensures { IfOk result
            (λ parts. items_of parts ≡ items_of_trees
            (map string (pieces (slice_index_or self.now number []) text.now limit))) }
    {
        let mut search = self.lend(alloc, number)?;
        let parts = search.split(alloc, text, limit);
        self.keep(search);
        parts
    }

    /// The text with the first `count` matches of the regex with this number replaced, or each
    /// where there is no count: what the template `with` of the crate `regex` writes stands in the
    /// place of each. `Memory`: want of memory.
    pub fn replace(
        &self,
        alloc: Global,
        number: u32,
        text: &str,
        with: &str,
        count: Option<u64>,
    ) -> Result<Chars, Memory>
        requires { number < length self.now }
        ensures { IfOk result
            (λ changed. changed ≡ replaced (slice_index_or self.now number []) text.now with.now count) }
    {
        let mut search = self.lend(alloc, number)?;
        let changed = search.replace(alloc, text, with, count);
        self.keep(search);
        changed
    }
}

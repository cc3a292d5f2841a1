ghost use Rattle.std.specs.Prelude.{◌≡◌, All, IfOk, IfSome, Some, map, option_map, take};
ghost use Rattle.regex.specs.Patterns.{span};
ghost use Rattle.regex.specs.Search.{as_limit};
ghost use Rattle.regex.specs.Strings.{regex_source};
ghost use Rattle.vrl_value.specs.Tree.{string};
ghost use Rattle.vrl_value.specs.View.{items_of, items_of_trees};
ghost use Rattle.vrl_pattern.specs.Built.{IsBuiltOf};
ghost use Rattle.vrl_pattern.specs.Matches.{all_matches, first_match, group_places, pieces, replaced};
ghost use Rattle.vrl_pattern.specs.Places.{place_span, AreParts, IsPart};

use crate::matching::{place_from, places, replaced_by, split};
use crate::place::{Matches, Place};
use regex::{Matcher, Regex, Template};
use std::alloc::Global;
use std::marker::Model;
use vrl_value::{Chars, Items, Memory};

/// A regex, and what its searches write to. A contract sees its source.
pub(crate) struct Search<'r> {
    regex: &'r Regex,
    matcher: Matcher<'r>,
}

impl<'r> Model for Search<'r> {
    ghost use Rattle.std.specs.Prelude.{◌≡◌, List, ℕ};
    ghost use Rattle.regex.specs.Strings.{matcher_pattern, regex_pattern, regex_source};
    ghost use Rattle.vrl_pattern.specs.Built.{IsBuiltOf};

    ghost Value = { List ℕ };

    ghost view = { λ s. regex_source s.regex.now };

    ghost invariant = { λ s. IsBuiltOf (regex_source s.regex.now) s.regex.now
        × (matcher_pattern s.matcher ≡ regex_pattern s.regex.now) };
}

// Written out, so that a proof sees one call where it is let go.
impl<'r> Drop for Search<'r> {
    fn drop(self) {
        let Search {
            regex: _regex,
            matcher: _matcher,
        } = self;
    }
}

impl<'r> Search<'r> {
    /// With nothing written yet. `Memory`: want of memory.
    pub(crate) fn new(alloc: Global, regex: &'r Regex) -> Result<Search<'r>, Memory>
        requires { IsBuiltOf (regex_source regex.now) regex.now }
        ensures { IfOk result (λ search. search ≡ regex_source regex.now) }
    {
        let matcher = regex.matcher(alloc)?;
        Ok(Search { regex, matcher })
    }

    /// The source of its regex.
    pub(crate) fn source(&self) -> &str
        ensures { result.now ≡ self.now }
    {
        self.regex.as_str()
    }

    /// Where the leftmost match lies. `None`: there is none.
    pub(crate) fn find(&mut self, text: &str) -> Option<Place>
        ensures found { option_map place_span result ≡ option_map span (first_match self.old text.now) }
        ensures within { IfSome result (λ place. IsPart text.now (place_span place)) }
        ensures same { self.new ≡ self.old }
    {
        place_from(&mut self.matcher, text, 0)
    }

    /// Where the groups of the first so many matches lie. `Memory`: want of memory.
    pub(crate) fn groups(&mut self, alloc: Global, text: &str, most: u64) -> Result<Matches, Memory>
        ensures found { IfOk result (λ found. found
            ≡ map (group_places self.old) (take most (all_matches self.old text.now))) }
        ensures within { IfOk result (λ found. All (AreParts text.now) found) }
        ensures same { self.new ≡ self.old }
    {
        let mut locations = self.regex.capture_locations(alloc)?;
        places(alloc, &mut self.matcher, &mut locations, text, most)
    }

    /// The parts of the text between the matches, as strings: at most `limit`, the last of which
    /// holds the rest. `Memory`: want of memory.
    pub(crate) fn split(&mut self, alloc: Global, text: &str, limit: u64) -> Result<Items, Memory>
        ensures parts { IfOk result (λ parts. items_of parts
            ≡ items_of_trees (map string (pieces self.old text.now limit))) }
        ensures same { self.new ≡ self.old }
    {
        split(alloc, &mut self.matcher, text, limit)
    }

    // The text with the first so many matches replaced; with each, where the number is 0. `Memory`:
    // want of memory.
    fn replace_some(
        &mut self,
        alloc: Global,
        text: &str,
        with: &str,
        limit: usize,
    ) -> Result<Chars, Memory>
        ensures changed { IfOk result (λ changed. changed ≡ replaced self.old text.now with.now (as_limit limit)) }
        ensures same { self.new ≡ self.old }
    {
        let template = Template::new(alloc, self.regex.capture_names(), with)?;
        replaced_by(alloc, &mut self.matcher, text, &template, limit)
    }

    // The text with the first so many matches replaced. `Memory`: want of memory.
    fn replace_first(
        &mut self,
        alloc: Global,
        text: &str,
        with: &str,
        count: usize,
    ) -> Result<Chars, Memory>
        ensures changed { IfOk result (λ changed. changed ≡ replaced self.old text.now with.now (Some count)) }
        ensures same { self.new ≡ self.old }
    {
        if count == 0 {
            return Chars::copy_of(alloc, text);
        }
        self.replace_some(alloc, text, with, count)
    }

    /// The text with the first so many matches replaced by what the template writes; with each,
    /// where no number is given. `Memory`: want of memory.
    pub(crate) fn replace(
        &mut self,
        alloc: Global,
        text: &str,
        with: &str,
        count: Option<u64>,
    ) -> Result<Chars, Memory>
        ensures changed { IfOk result (λ changed. changed ≡ replaced self.old text.now with.now count) }
        ensures same { self.new ≡ self.old }
    {
        match count {
            Some(count) => self.replace_first(alloc, text, with, count as usize),
            None => self.replace_some(alloc, text, with, 0),
        }
    }
}

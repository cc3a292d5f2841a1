ghost use Rattle.std.specs.Prelude.{◌≡◌};

use std::marker::Model;

/// A part of a text, by the offsets of its first byte and of the byte behind its last.
#[derive(Clone, Copy, Debug, PartialEq, Eq)]
pub struct Place {
    /// The offset of its first byte.
    pub start: usize,
    /// The offset behind its last byte.
    pub end: usize,
}

/// Where the groups of a match lie, from group 0 on, which is the whole match; `None` for a group
/// that took no part. A contract sees the list of their spans.
#[derive(Debug, Drop)]
pub struct Groups {
    places: Vec<Option<Place>>,
}

impl Model for Groups {
    ghost use Rattle.std.specs.Prelude.{List, Option, ℕ};
    ghost use Rattle.vrl_pattern.specs.Places.{place_spans};

    ghost Value = { List (Option (ℕ × ℕ)) };

    ghost view = { λ g. place_spans g.places.items };
}

impl Groups {
    ghost use Rattle.vrl_pattern.specs.Places.{place_spans};

    /// Groups that lie there, which it keeps.
    pub fn new(places: Vec<Option<Place>>) -> Groups
        ensures { result ≡ place_spans places.items }
    {
        Groups { places }
    }

    /// Where they lie, borrowed.
    pub fn as_slice(&self) -> &[Option<Place>]
        ensures { place_spans result.now ≡ self.now }
    {
        &self.places
    }
}

/// The groups of matches, in order. A contract sees the list of the lists of their spans.
#[derive(Debug, Drop)]
pub struct Matches {
    matches: Vec<Groups>,
}

impl Model for Matches {
    ghost use Rattle.std.specs.Prelude.{List, Option, ℕ};

    ghost Value = { List (List (Option (ℕ × ℕ))) };

    ghost view = { λ m. m.matches.items };
}

impl Matches {
    /// The groups of matches, which it keeps.
    pub fn new(matches: Vec<Groups>) -> Matches
        ensures { result ≡ matches.items }
    {
        Matches { matches }
    }

    /// The groups of each match, borrowed.
    pub fn as_slice(&self) -> &[Groups]
        ensures { result.now ≡ self.now }
    {
        &self.matches
    }
}

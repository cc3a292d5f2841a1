ghost use Rattle.std.specs.Prelude.{◌≡◌, ◌+◌, ◌≤◌, option_map, unwrap_or};
ghost use Rattle.vrl_kind.specs.Canonical.{ListIsCanonical, ObjectIsCanonical, scalars_of, list_tree, object_tree, rest_kind, place_or};
ghost use Rattle.vrl_kind.specs.Count.{nodes, rest_nodes};
ghost use Rattle.vrl_kind.specs.View.{rest_of, places_view};
ghost use Rattle.vrl_kind.specs.Seen.{seen_tree, part_rest, seen_list, seen_object, covers, some_exact, weight, list_weight, option_nodes};

use crate::kind::{Kind, KindField, Rest};
use crate::scalars::Scalars;

/// A rest, or a known kind in its place, borrowed.
#[derive(Clone, Copy)]
pub(crate) enum Part<'a> {
    Nothing,
    Json,
    Any,
    Exact(&'a Kind),
}

/// A kind as the walks read it: one that stands in memory, or one that a rest stands for.
#[derive(Clone, Copy)]
pub(crate) struct Seen<'a> {
    pub(crate) part: Part<'a>,
    pub(crate) absent: bool,
}

/// What a kind that is read so knows of arrays.
#[derive(Clone, Copy)]
pub(crate) struct SeenList<'a> {
    pub(crate) places: &'a [Kind],
    pub(crate) rest: Part<'a>,
}

/// What a kind that is read so knows of objects.
#[derive(Clone, Copy)]
pub(crate) struct SeenObject<'a> {
    pub(crate) fields: &'a [KindField],
    pub(crate) rest: Part<'a>,
}

impl Rest {
    // The rest, borrowed.
    pub(crate) fn as_part(&self) -> Part<'_>
        ensures { part_rest result ≡ rest_of self.now }
    {
        match self {
            Rest::Nothing => Part::Nothing,
            Rest::Json => Part::Json,
            Rest::Any => Part::Any,
            Rest::Exact(kind) => Part::Exact(kind),
        }
    }
}

impl<'a> Part<'a> {
    // Whether it allows all that the other does, as far as that shows without a walk.
    pub(crate) fn covers(self, other: Part<'_>) -> bool
        ensures { result ≡ covers (part_rest self.entry) (part_rest other.entry) }
    {
        match (self, other) {
            (Part::Any, _) => true,
            (_, Part::Nothing) => true,
            (Part::Json, Part::Json) => true,
            _ => false,
        }
    }
}

// Whether either part is a kind in memory.
pub(crate) fn some_exact(a: Part<'_>, b: Part<'_>) -> bool
    ensures { result ≡ some_exact (part_rest a.entry) (part_rest b.entry) }
{
    match (a, b) {
        (Part::Exact(_), _) => true,
        (_, Part::Exact(_)) => true,
        _ => false,
    }
}

impl<'a> Seen<'a> {
    // A kind in memory.
    pub(crate) fn of(kind: &'a Kind) -> Seen<'a>
        ensures tree { seen_tree result ≡ kind.now }
        ensures nodes { weight result ≡ nodes kind.now }
    {
        Seen {
            part: Part::Exact(kind),
            absent: kind.scalars.absent,
        }
    }

    // The kind of what stands where nothing is known by itself.
    pub(crate) fn of_rest(rest: Part<'a>) -> Seen<'a>
        ensures tree { seen_tree result ≡ rest_kind (part_rest rest.entry) }
        ensures nodes { weight result ≡ rest_nodes (part_rest rest.entry) }
    {
        Seen {
            part: rest,
            absent: true,
        }
    }

    pub(crate) fn scalars(self) -> Scalars
        ensures { result ≡ scalars_of (seen_tree self.entry) }
    {
        let scalars = match self.part {
            Part::Nothing => Scalars::NONE,
            Part::Json => Scalars::JSON,
            Part::Any => Scalars::ALL,
            Part::Exact(kind) => kind.scalars,
        };
        Scalars {
            absent: self.absent,
            ..scalars
        }
    }

    pub(crate) fn list(self) -> Option<SeenList<'a>>
        ensures tree { seen_list result ≡ list_tree (seen_tree self.entry) }
        ensures canonical { ListIsCanonical (seen_list result) }
    {
        match self.part {
            Part::Nothing => None,
            Part::Json | Part::Any => Some(SeenList {
                places: &[],
                rest: self.part,
            }),
            Part::Exact(kind) => match &kind.list {
                None => None,
                Some(part) => Some(SeenList {
                    places: &part.places.kinds,
                    rest: part.rest.as_part(),
                }),
            },
        }
    }

    pub(crate) fn object(self) -> Option<SeenObject<'a>>
        ensures tree { seen_object result ≡ object_tree (seen_tree self.entry) }
        ensures canonical { ObjectIsCanonical (seen_object result) }
    {
        match self.part {
            Part::Nothing => None,
            Part::Json | Part::Any => Some(SeenObject {
                fields: &[],
                rest: self.part,
            }),
            Part::Exact(kind) => match &kind.object {
                None => None,
                Some(part) => Some(SeenObject {
                    fields: &part.fields.fields,
                    rest: part.rest.as_part(),
                }),
            },
        }
    }
}

impl<'a> SeenList<'a> {
    // The kind of a place.
    pub(crate) fn place(self, at: usize) -> Seen<'a>
        ensures kind { seen_tree result
            ≡ place_or (places_view self.entry.places.now) (rest_kind (part_rest self.entry.rest)) at }
        ensures lighter { weight result ≤ list_weight self.entry }
    {
        match self.places.get(at) {
            Some(kind) => Seen::of(kind),
            None => Seen::of_rest(self.rest),
        }
    }
}

impl<'a> SeenObject<'a> {
    // The kind of a field: the known one, or what stands where nothing is known by itself.
    pub(crate) fn known_or_rest(self, known: Option<&'a Kind>) -> Seen<'a>
        ensures kind { seen_tree result
            ≡ unwrap_or (option_map (λ kind. kind.now) known.entry) (rest_kind (part_rest self.entry.rest)) }
        ensures lighter { weight result
            ≤ option_nodes (option_map (λ kind. kind.now) known.entry) + rest_nodes (part_rest self.entry.rest) }
    {
        match known {
            Some(kind) => Seen::of(kind),
            None => Seen::of_rest(self.rest),
        }
    }
}

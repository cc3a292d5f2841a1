ghost use Rattle.std.specs.Prelude.{◌≡◌, ◌↔◌, ◌||◌, ◌&&◌, not, IsTrue};
ghost use Rattle.vrl_kind.specs.Change.{scalars_filled};
ghost use Rattle.vrl_kind.specs.Scalars.{scalar_union, scalars_only, scalars_without, ScalarsAreWithin};
ghost use Rattle.vrl_kind.specs.Tags.{same_tag};

use vrl_value::Tag;

/// Which scalars a kind allows, and whether it allows that nothing is there.
#[derive(Clone, Copy, Debug, PartialEq, Eq)]
pub struct Scalars {
    /// A string.
    pub string: bool,
    /// A whole number.
    pub integer: bool,
    /// A boolean.
    pub boolean: bool,
    /// Null.
    pub null: bool,
    /// A timestamp.
    pub timestamp: bool,
    /// A regex.
    pub regex: bool,
    /// Nothing is there, as at a field that an object lacks.
    pub absent: bool,
}

impl Scalars {
    /// No scalar.
    pub(crate) const NONE: Scalars = Scalars {
        string: false,
        integer: false,
        boolean: false,
        null: false,
        timestamp: false,
        regex: false,
        absent: false,
    };

    /// The scalars of JSON (RFC 8259).
    pub(crate) const JSON: Scalars = Scalars {
        string: true,
        integer: true,
        boolean: true,
        null: true,
        timestamp: false,
        regex: false,
        absent: false,
    };

    /// Every scalar.
    pub(crate) const ALL: Scalars = Scalars {
        string: true,
        integer: true,
        boolean: true,
        null: true,
        timestamp: true,
        regex: true,
        absent: false,
    };

    // This tag alone; none at `List` and `Object`.
    pub(crate) fn only(tag: Tag) -> Scalars
        ensures { result ≡ scalars_only tag }
    {
        Scalars {
            string: tag == Tag::Text,
            integer: tag == Tag::Int,
            boolean: tag == Tag::Bool,
            null: tag == Tag::Null,
            timestamp: tag == Tag::Time,
            regex: tag == Tag::Pattern,
            absent: tag == Tag::Absent,
        }
    }

    // All but this tag.
    pub(crate) fn without(self, tag: Tag) -> Scalars
        ensures { result ≡ scalars_without self tag }
    {
        Scalars {
            string: stays(self.string, Tag::Text, tag),
            integer: stays(self.integer, Tag::Int, tag),
            boolean: stays(self.boolean, Tag::Bool, tag),
            null: stays(self.null, Tag::Null, tag),
            timestamp: stays(self.timestamp, Tag::Time, tag),
            regex: stays(self.regex, Tag::Pattern, tag),
            absent: stays(self.absent, Tag::Absent, tag),
        }
    }

    // Null where absent was among them, and absent no more.
    pub(crate) fn null_for_absent(self) -> Scalars
        ensures { result ≡ scalars_filled self }
    {
        Scalars {
            null: either(self.null, self.absent),
            absent: false,
            ..self
        }
    }

    // What either has.
    pub(crate) fn union(self, other: Scalars) -> Scalars
        ensures { result ≡ scalar_union self other }
    {
        Scalars {
            string: either(self.string, other.string),
            integer: either(self.integer, other.integer),
            boolean: either(self.boolean, other.boolean),
            null: either(self.null, other.null),
            timestamp: either(self.timestamp, other.timestamp),
            regex: either(self.regex, other.regex),
            absent: either(self.absent, other.absent),
        }
    }

    // Whether the other has all of these.
    pub(crate) fn within(self, other: Scalars) -> bool
        ensures { IsTrue result ↔ ScalarsAreWithin self other }
    {
        self.union(other).same(other)
    }

    // Whether both are one set.
    pub(crate) fn same(self, other: Scalars) -> bool
        ensures { IsTrue result ↔ (self ≡ other) }
    {
        self == other
    }
}

fn either(a: bool, b: bool) -> bool
    ensures { result ≡ (a || b) }
{
    a || b
}

// Whether a tag that is allowed or not is allowed once another is removed.
fn stays(allowed: bool, tag: Tag, removed: Tag) -> bool
    ensures { result ≡ (allowed && not (same_tag tag removed)) }
{
    allowed && tag != removed
}

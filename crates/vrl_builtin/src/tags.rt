ghost use Rattle.std.specs.Prelude.{◌≡◌};
ghost use Rattle.vrl_builtin.specs.TagSets.{allows, only_tag};

use vrl_value::Tag;

/// A set of the tags that values have.
#[derive(Clone, Copy)]
pub struct Tags {
    /// A string.
    pub string: bool,
    /// A whole number.
    pub integer: bool,
    /// A boolean.
    pub boolean: bool,
    /// Null.
    pub null: bool,
    /// A timestamp.
    pub timestamp: bool,
    /// A regex.
    pub regex: bool,
    /// An array.
    pub array: bool,
    /// An object.
    pub object: bool,
}

impl Tags {
    /// No tag.
    pub const NONE: Tags = Tags {
        string: false,
        integer: false,
        boolean: false,
        null: false,
        timestamp: false,
        regex: false,
        array: false,
        object: false,
    };

    /// Each tag of a value.
    pub const ALL: Tags = Tags {
        string: true,
        integer: true,
        boolean: true,
        null: true,
        timestamp: true,
        regex: true,
        array: true,
        object: true,
    };

    /// Strings alone.
    pub const STRING: Tags = Tags {
        string: true,
        ..Tags::NONE
    };

    /// Whole numbers alone.
    pub const INTEGER: Tags = Tags {
        integer: true,
        ..Tags::NONE
    };

    /// Booleans alone.
    pub const BOOLEAN: Tags = Tags {
        boolean: true,
        ..Tags::NONE
    };

    /// Timestamps alone.
    pub const TIMESTAMP: Tags = Tags {
        timestamp: true,
        ..Tags::NONE
    };

    /// Regexes alone.
    pub const REGEX: Tags = Tags {
        regex: true,
        ..Tags::NONE
    };

    /// Arrays alone.
    pub const ARRAY: Tags = Tags {
        array: true,
        ..Tags::NONE
    };

    /// Objects alone.
    pub const OBJECT: Tags = Tags {
        object: true,
        ..Tags::NONE
    };

    /// Arrays and objects.
    pub const CONTAINERS: Tags = Tags {
        array: true,
        object: true,
        ..Tags::NONE
    };

    /// The tag alone; none at [`Tag::Absent`].
    pub fn only(tag: Tag) -> Tags
        ensures { result ≡ only_tag tag }
    {
        Tags {
            string: tag == Tag::Text,
            integer: tag == Tag::Int,
            boolean: tag == Tag::Bool,
            null: tag == Tag::Null,
            timestamp: tag == Tag::Time,
            regex: tag == Tag::Pattern,
            array: tag == Tag::List,
            object: tag == Tag::Object,
        }
    }

    /// Whether the tag is in the set. [`Tag::Absent`] is in none.
    pub fn contains(&self, tag: Tag) -> bool
        ensures { result ≡ allows self.now tag }
    {
        match tag {
            Tag::Text => self.string,
            Tag::Int => self.integer,
            Tag::Bool => self.boolean,
            Tag::Null => self.null,
            Tag::Time => self.timestamp,
            Tag::Pattern => self.regex,
            Tag::List => self.array,
            Tag::Object => self.object,
            Tag::Absent => false,
        }
    }
}

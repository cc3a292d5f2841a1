ghost use Rattle.std.specs.Prelude.{◌≡◌};
ghost use Rattle.vrl_judge.specs.Rules.{is_misfit, is_prefix_of, is_whole, takes};

use crate::shared_kind::SharedKind;
use vrl_kind::has;
use vrl_syntax::{Root, Target};
use vrl_value::Tag;

/// What a path begins with that isn't the name of a variable. It doesn't take every value.
#[derive(Clone, Copy)]
pub enum Prefix {
    /// The event, written `.`, which takes an object or an array.
    Event,
    /// The metadata, written `%`, which takes an object.
    Metadata,
}

impl Prefix {
    // Whether it is this root.
    fn is(self, root: &Root) -> bool
        ensures { result ≡ is_prefix_of self root.now }
    {
        match self {
            Prefix::Event => matches!(root, Root::Event),
            Prefix::Metadata => root.is_metadata(),
        }
    }

    // Whether a target is all of it.
    pub(crate) fn is_whole(self, target: &Target) -> bool
        ensures { result ≡ is_whole self target.now }
    {
        match target {
            Target::Nowhere => false,
            Target::Place(_, root, path) => path.as_slice().is_empty() && self.is(root),
        }
    }

    // Whether it takes some value of the kind.
    fn takes(self, kind: &SharedKind) -> bool
        ensures { result ≡ takes self kind.now }
    {
        let kind = kind.as_kind();
        match self {
            Prefix::Event => has(kind, Tag::List) || has(kind, Tag::Object),
            Prefix::Metadata => has(kind, Tag::Object),
        }
    }

    // Whether a target is all of it, and it takes no value of the kind.
    pub(crate) fn is_misfit(self, target: &Target, kind: &SharedKind) -> bool
        ensures { result ≡ is_misfit self target.now kind.now }
    {
        self.is_whole(target) && !self.takes(kind)
    }
}

ghost use Rattle.std.specs.Prelude.{◌≡◌};

use crate::root::Root;
use std::marker::Model;
use vrl_value::Tag;

/// Roots in order. A contract sees their list.
#[derive(Drop)]
pub struct Roots {
    roots: Vec<Root>,
}

impl Model for Roots {
    ghost use Rattle.std.specs.Prelude.{List};
    ghost use Rattle.vrl_syntax.specs.declared.root.Root.{Root};

    ghost Value = { List Root };

    ghost view = { λ r. r.roots.items };
}

impl Roots {
    /// These roots, which it keeps.
    pub fn new(roots: Vec<Root>) -> Roots
        ensures { result ≡ roots.items }
    {
        Roots { roots }
    }

    /// The roots, borrowed.
    pub fn as_slice(&self) -> &[Root]
        ensures { result.now ≡ self.now }
    {
        &self.roots
    }

    /// The vector that holds the roots.
    pub fn into_vec(self) -> Vec<Root>
        ensures { result.items ≡ self }
    {
        self.roots
    }
}

/// The tags of empty values, one for each error assignment of a script, in the order in which a
/// walk of the tree meets them: an outer one before those in it. [`Tag::Pattern`] and
/// [`Tag::Absent`] stand for null. A contract sees their list.
#[derive(Drop)]
pub struct Empties {
    tags: Vec<Tag>,
}

impl Model for Empties {
    ghost use Rattle.std.specs.Prelude.{List};
    ghost use Rattle.vrl_value.specs.declared.value.Tag.{Tag};

    ghost Value = { List Tag };

    ghost view = { λ e. e.tags.items };
}

impl Empties {
    /// These tags, which it keeps.
    pub fn new(tags: Vec<Tag>) -> Empties
        ensures { result ≡ tags.items }
    {
        Empties { tags }
    }

    /// The tags, borrowed.
    pub fn as_slice(&self) -> &[Tag]
        ensures { result.now ≡ self.now }
    {
        &self.tags
    }

    /// The vector that holds the tags.
    pub fn into_vec(self) -> Vec<Tag>
        ensures { result.items ≡ self }
    {
        self.tags
    }
}

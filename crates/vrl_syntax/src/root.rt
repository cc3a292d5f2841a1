ghost use Rattle.std.specs.Prelude.{◌≡◌, IfOk};
ghost use Rattle.vrl_syntax.specs.Stores.{is_metadata, metadata};
ghost use Rattle.vrl_syntax.specs.Written.{target_path};

use std::alloc::Global;
use vrl_diag::Span;
use vrl_path::Path;
use vrl_value::{Chars, Memory};

/// The name of the metadata among the variables. No name in a script is spelt so.
pub const METADATA: &str = "%";

/// Where a path begins.
pub enum Root {
    /// The event, written `.`.
    Event,
    /// The variable of this name; the metadata, written `%`, is that of [`METADATA`].
    Name(Chars),
}

// Written out, so that a root is let go by one call.
impl Drop for Root {
    fn drop(self) {
        match self {
            Root::Event => {}
            Root::Name(_name) => {}
        }
    }
}

impl Root {
    /// The root of the metadata. [`Memory`]: want of memory.
    pub fn metadata(alloc: Global) -> Result<Root, Memory>
        ensures { IfOk result (λ root. root ≡ metadata) }
    {
        Ok(Root::Name(Chars::copy_of(alloc, METADATA)?))
    }

    /// Whether it is the metadata.
    pub fn is_metadata(&self) -> bool
        ensures { result ≡ is_metadata self.now }
    {
        match self {
            Root::Event => false,
            Root::Name(name) => name.as_str() == METADATA,
        }
    }

    /// An equal root. [`Memory`]: want of memory.
    pub fn copy(&self, alloc: Global) -> Result<Root, Memory>
        ensures { IfOk result (λ copy. copy ≡ self.now) }
    {
        match self {
            Root::Event => Ok(Root::Event),
            Root::Name(name) => Ok(Root::Name(name.copy(alloc)?)),
        }
    }
}

/// Where an assignment writes.
pub enum Target {
    /// Nowhere, written `_`.
    Nowhere,
    /// At this path from this root. The span is that of the path.
    Place(Span, Root, Path),
}

impl Target {
    /// The root and the path that it writes at. `None`: it is nowhere.
    pub fn into_place(self) -> Option<(Root, Path)>
        ensures { result ≡ target_path self }
    {
        match self {
            Target::Nowhere => None,
            Target::Place(_span, root, path) => Some((root, path)),
        }
    }
}

// Written out, so that a target is let go by one call.
impl Drop for Target {
    fn drop(self) {
        match self {
            Target::Nowhere => {}
            Target::Place(_span, _root, _path) => {}
        }
    }
}

/// An operator with a left and a right side.
#[derive(Clone, Copy, Debug, PartialEq, Eq)]
pub enum Op {
    /// `??`: the right side where the left one fails.
    Coalesce,
    /// `||`.
    Or,
    /// `&&`.
    And,
    /// `==`.
    Equal,
    /// `!=`.
    Unequal,
    /// `<`.
    Less,
    /// `<=`.
    AtMost,
    /// `>`.
    More,
    /// `>=`.
    AtLeast,
    /// `|`: the fields of both objects.
    Merge,
    /// `+`.
    Plus,
    /// `-`.
    Minus,
    /// `*`.
    Times,
}

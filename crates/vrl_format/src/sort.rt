ghost use Rattle.std.specs.Prelude.{◌≡◌};
ghost use Rattle.vrl_format.specs.Layout.{is_closer, is_comment, is_end, is_opener, is_start};
ghost use Rattle.vrl_format.specs.Writing.{sort_in};

/// What a layout asks of a piece of a text.
#[derive(Clone, Copy)]
pub(crate) enum Sort {
    /// The `{` of a block.
    BlockStart,
    /// The `}` of a block.
    BlockEnd,
    /// A comment.
    Comment,
    /// Nothing stands behind it on its line.
    Opener,
    /// Nothing stands before it on its line.
    Closer,
    /// None of these.
    Plain,
}

impl Sort {
    // Whether it is the `{` of a block.
    pub(crate) fn is_start(self) -> bool
        ensures { result ≡ is_start (sort_in self) }
    {
        matches!(self, Sort::BlockStart)
    }

    // Whether it is the `}` of a block.
    pub(crate) fn is_end(self) -> bool
        ensures { result ≡ is_end (sort_in self) }
    {
        matches!(self, Sort::BlockEnd)
    }

    // Whether it is a comment.
    pub(crate) fn is_comment(self) -> bool
        ensures { result ≡ is_comment (sort_in self) }
    {
        matches!(self, Sort::Comment)
    }

    // Whether nothing stands behind it.
    pub(crate) fn is_opener(self) -> bool
        ensures { result ≡ is_opener (sort_in self) }
    {
        matches!(self, Sort::Opener)
    }

    // Whether nothing stands before it.
    pub(crate) fn is_closer(self) -> bool
        ensures { result ≡ is_closer (sort_in self) }
    {
        matches!(self, Sort::Closer)
    }
}

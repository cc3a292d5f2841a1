ghost use Rattle.std.specs.Prelude.{◌≡◌, ◌&&◌, not};
ghost use Rattle.vrl_format.specs.Layout.{break, is_at_edge};
ghost use Rattle.vrl_format.specs.Pieces.{newline, semicolon};
ghost use Rattle.vrl_format.specs.Writing.{breaks, gap_in, gap_seen, none_seen, see, sort_in};

use crate::sort::Sort;

/// What stands between two pieces of a text, blanks left out.
#[derive(Clone, Copy)]
pub(crate) struct Seen {
    /// A semicolon, or a newline that parts items.
    pub(crate) separator: bool,
    /// A newline.
    pub(crate) newline: bool,
    /// A line of blanks alone.
    pub(crate) empty_line: bool,
    /// The last thing there is a newline.
    pub(crate) at_newline: bool,
}

impl Seen {
    // Nothing.
    pub(crate) fn nothing() -> Seen
        ensures { result ≡ none_seen }
    {
        Seen {
            separator: false,
            newline: false,
            empty_line: false,
            at_newline: false,
        }
    }

    // The same, and a newline behind it, which parts items or doesn't.
    pub(crate) fn with_newline(self, parting: bool) -> Seen
        ensures { result ≡ see self (newline parting) }
    {
        Seen {
            separator: self.separator | parting,
            newline: true,
            empty_line: self.empty_line | self.at_newline,
            at_newline: true,
        }
    }

    // The same, and a semicolon behind it.
    pub(crate) fn with_semicolon(self) -> Seen
        ensures { result ≡ see self semicolon }
    {
        Seen {
            separator: true,
            newline: self.newline,
            empty_line: self.empty_line,
            at_newline: false,
        }
    }
}

/// What a layout has between two pieces.
#[derive(Clone, Copy)]
pub(crate) enum Gap {
    /// Nothing.
    Nothing,
    /// A space.
    Space,
    /// A newline.
    Line,
    /// A newline, and an empty line.
    EmptyLine,
}

// Whether the gap is directly behind the `{` of a block, or directly before its `}`.
fn is_at_edge(last: Sort, next: Sort) -> bool
    ensures { result ≡ is_at_edge (sort_in last) (sort_in next) }
{
    last.is_start() || next.is_end()
}

// Whether a newline stands between the two pieces.
fn breaks(last: Sort, seen: Seen, next: Sort) -> bool
    ensures { result ≡ breaks (sort_in last) seen (sort_in next) }
{
    if is_at_edge(last, next) {
        return true;
    }
    if last.is_comment() {
        return true;
    }
    if seen.separator {
        return true;
    }
    next.is_comment() && seen.newline
}

// A newline, with an empty line where the text has one and the gap is at no edge.
fn line(last: Sort, seen: Seen, next: Sort) -> Gap
    ensures { gap_in result
        ≡ break (not (is_at_edge (sort_in last) (sort_in next)) && seen.empty_line) }
{
    if seen.empty_line && !is_at_edge(last, next) {
        Gap::EmptyLine
    } else {
        Gap::Line
    }
}

/// What a layout has between two pieces, where the text has this there.
pub(crate) fn gap_between(last: Sort, seen: Seen, next: Sort) -> Gap
    ensures { gap_in result ≡ gap_seen (sort_in last) seen (sort_in next) }
{
    if last.is_start() && next.is_end() {
        return Gap::Nothing;
    }
    if breaks(last, seen, next) {
        return line(last, seen, next);
    }
    if next.is_comment() {
        return Gap::Space;
    }
    if last.is_opener() {
        return Gap::Nothing;
    }
    if next.is_closer() {
        return Gap::Nothing;
    }
    Gap::Space
}

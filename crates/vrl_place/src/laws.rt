ghost use Rattle.vrl_place.specs.Laws.{NothingRemovedIsOfTheKind, ReadsAreOfTheirCut};
ghost use Rattle.vrl_place.specs.Laws.{ReadsAreOfTheirKind, RemovalsAreOfTheirKind};
ghost use Rattle.vrl_place.specs.Laws.{RemovalsAreOneKind, WritesAreOfTheirKind, WritesAreOneKind};

use vrl_kind::{cuts_are_wider, wider_kinds_hold_more};
use vrl_path::sets_go_on;

/// What a read finds in a value of a kind, or null where it finds nothing, is of the kind that the
/// read has. This takes no time: it is a law about the definitions.
pub fn reads_are_of_their_kind()
    ensures { ReadsAreOfTheirKind }
{}

/// What a read finds in a value of a kind, or null where it finds nothing, is of what the kind that
/// the read has is cut to. This takes no time: it is a law about the definitions.
pub fn reads_are_of_their_cut()
    ensures { ReadsAreOfTheirCut }
{
    cuts_are_wider();
    wider_kinds_hold_more();
}

/// A value of a kind, once a value of another is set at a path, is of the kind that the write has.
/// This takes no time: it is a law about the definitions.
pub fn writes_are_of_their_kind()
    ensures { WritesAreOfTheirKind }
{
    sets_go_on();
}

/// A value of a kind without what stood at a path is of the kind that the removal has. This takes
/// no time: it is a law about the definitions.
pub fn removals_are_of_their_kind()
    ensures { RemovalsAreOfTheirKind }
{}

/// A value of a kind in which nothing stands at a path is of the kind that a removal there has.
/// This takes no time: it is a law about the definitions.
pub fn nothing_removed_is_of_the_kind()
    ensures { NothingRemovedIsOfTheKind }
{}

/// A write at a path has one result: two kinds that it may give allow the same at each path. This
/// takes no time: it is a law about the definitions.
pub fn writes_are_one_kind()
    ensures { WritesAreOneKind }
{}

/// And so has a removal. This takes no time: it is a law about the definitions.
pub fn removals_are_one_kind()
    ensures { RemovalsAreOneKind }
{}

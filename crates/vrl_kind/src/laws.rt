ghost use Rattle.vrl_kind.specs.Laws.{AnyHoldsAll, CutsAreWider, EqualTagsAreOneKind, WiderKindsHoldMore};
ghost use Rattle.vrl_kind.specs.PartSets.{PartsAreAllowed, PartsAreComputed, PartsAreTold};
ghost use Rattle.vrl_kind.specs.TreeTest.{InhabitsIsComputed};

/// Two kinds of the one form that allow the same at every path are one tree. This takes no time: it
/// is a law about the definitions.
pub fn equal_tags_are_one_kind()
    ensures { EqualTagsAreOneKind }
{}

/// A kind is within what it is cut to. This takes no time: it is a law about the definitions.
pub fn cuts_are_wider()
    ensures { CutsAreWider }
{}

/// A value of a kind is of each kind that this one is within. This takes no time: it is a law about
/// the definitions.
pub fn wider_kinds_hold_more()
    ensures { WiderKindsHoldMore }
{}

/// Every value is of the kind of all. This takes no time: it is a law about the definitions.
pub fn any_holds_all()
    ensures { AnyHoldsAll }
{}

/// What the parts of a kind allow, computed from its tree, is what stands behind some step of the
/// kind. This takes no time: it is a law about the definitions.
pub fn parts_are_told()
    ensures { PartsAreTold }
{}

/// A kind is that of another's parts where it has the tags that are computed from that one's tree.
/// This takes no time: it is a law about the definitions.
pub fn parts_are_computed()
    ensures { PartsAreComputed }
{}

/// A part of a value of a kind is allowed by what the kind's parts allow. This takes no time: it is
/// a law about the definitions.
pub fn parts_are_allowed()
    ensures { PartsAreAllowed }
{}

/// Whether a tree is of a kind is computed by cases on the tree. This takes no time: it is a law
/// about the definitions.
pub fn inhabits_is_computed()
    ensures { InhabitsIsComputed }
{}

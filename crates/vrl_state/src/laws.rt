ghost use Rattle.vrl_state.specs.Laws.{BlocksGiveNothingBack, BlocksKeepFits, BlocksKeepHeldNames, BodiesKeepFits, CutsAreRootKinds, CutsHoldTheAllowed, EitherHoldsBoth, FlatteningKeepsFits, ForgettingKeepsFits, ForgettingWidens, HidingHides, HidingKeepsFits, HidingKeepsHeldNames, JoinsKeepFits, JoinsKeepHeldNames, JoinsKeepScopes, KnownReplacesItself, NamesKeepFits, RemovalsKeepFits, ReplacingKeepsFits, RootKindsJoinThemselves, StartsFit, WithinKeepsFits, WritesKeepFits};

use vrl_kind::{any_holds_all, cuts_are_wider, equal_tags_are_one_kind, wider_kinds_hold_more};
use vrl_place::{
    nothing_removed_is_of_the_kind, removals_are_of_their_kind, writes_are_of_their_kind,
};

/// A value that sets of tags allow at every path is of the kind that has these sets, cut. This
/// takes no time: it is a law about the definitions.
pub fn cuts_hold_the_allowed()
    ensures { CutsHoldTheAllowed }
{
    cuts_are_wider();
    wider_kinds_hold_more();
}

/// The kind that has sets of tags, without absent at the root, is the kind of a root once it is
/// cut. This takes no time: it is a law about the definitions.
pub fn cuts_are_root_kinds()
    ensures { CutsAreRootKinds }
{}

/// A value of one kind or of another is of their join, cut. This takes no time: it is a law about
/// the definitions.
pub fn either_holds_both()
    ensures { EitherHoldsBoth }
{
    cuts_hold_the_allowed();
}

/// A store whose event is of a kind fits the state at the start of a script over that kind. This
/// takes no time: it is a law about the definitions.
pub fn starts_fit()
    ensures { StartsFit }
{
    cuts_are_wider();
    wider_kinds_hold_more();
}

/// A store that fits what is known, once a value of a kind is written in it, fits what is known
/// after a write of that kind. This takes no time: it is a law about the definitions.
pub fn writes_keep_fits()
    ensures { WritesKeepFits }
{
    any_holds_all();
    cuts_are_wider();
    wider_kinds_hold_more();
    writes_are_of_their_kind();
}

/// A store that holds values of the kinds that a list gives fits what is known once that list is
/// taken over. This takes no time: it is a law about the definitions.
pub fn replacing_keeps_fits()
    ensures { ReplacingKeepsFits }
{
    cuts_are_wider();
    wider_kinds_hold_more();
}

/// What is known stays where its own list is taken over. This takes no time: it is a law about the
/// definitions.
pub fn known_replaces_itself()
    ensures { KnownReplacesItself }
{}

/// A store that fits what is known, once something is taken out of it, fits what is known after
/// that removal. This takes no time: it is a law about the definitions.
pub fn removals_keep_fits()
    ensures { RemovalsKeepFits }
{
    cuts_are_wider();
    wider_kinds_hold_more();
    removals_are_of_their_kind();
    nothing_removed_is_of_the_kind();
}

/// A store that fits either side of a join fits the join. This takes no time: it is a law about the
/// definitions.
pub fn joins_keep_fits()
    ensures { JoinsKeepFits }
{
    either_holds_both();
}

/// A store that fits what is known fits each state's knowledge that this is within. This takes no
/// time: it is a law about the definitions.
pub fn within_keeps_fits()
    ensures { WithinKeepsFits }
{
    wider_kinds_hold_more();
}

/// A join of states with the same scopes, hidden kinds too, has these scopes. This takes no time:
/// it is a law about the definitions.
pub fn joins_keep_scopes()
    ensures { JoinsKeepScopes }
{
    equal_tags_are_one_kind();
}

/// A scope that hides no name gives none back. This takes no time: it is a law about the
/// definitions.
pub fn blocks_give_nothing_back()
    ensures { BlocksGiveNothingBack }
{}

/// A store that holds the names of either of two scopes holds those of their join. This takes no
/// time: it is a law about the definitions.
pub fn joins_keep_held_names()
    ensures { JoinsKeepHeldNames }
{
    either_holds_both();
}

/// A store that fits what is known where a scope begins holds the names of the scope, and in each
/// hidden name a value of its kind. This takes no time: it is a law about the definitions.
pub fn blocks_keep_held_names()
    ensures { BlocksKeepHeldNames }
{}

/// A store that fits what is known in a scope, cut back to the names that it held where the scope
/// began, and with the values of hidden names given back, fits what is known behind the scope. This
/// takes no time: it is a law about the definitions.
pub fn blocks_keep_fits()
    ensures { BlocksKeepFits }
{}

/// A store that fits what is known goes on fitting it once roots are flattened. This takes no time:
/// it is a law about the definitions.
pub fn flattening_keeps_fits()
    ensures { FlatteningKeepsFits }
{
    wider_kinds_hold_more();
}

/// A store that fits what is known goes on fitting it once roots are forgotten. This takes no time:
/// it is a law about the definitions.
pub fn forgetting_keeps_fits()
    ensures { ForgettingKeepsFits }
{
    any_holds_all();
}

/// A store in which a closure's name is bound to a value of its kind fits the state in which the
/// name has this kind. This takes no time: it is a law about the definitions.
pub fn hiding_keeps_fits()
    ensures { HidingKeepsFits }
{
    cuts_are_wider();
    wider_kinds_hold_more();
}

/// A store that holds the names of a scope holds those of the scope once it hides one of them. This
/// takes no time: it is a law about the definitions.
pub fn hiding_keeps_held_names()
    ensures { HidingKeepsHeldNames }
{}

/// A scope that hides some names hides one name more behind `State::hide`. This takes no time: it
/// is a law about the definitions.
pub fn hiding_hides()
    ensures { HidingHides }
{}

/// A store whose closure's names are bound to values of their kinds fits the state in which the
/// names have these. This takes no time: it is a law about the definitions.
pub fn names_keep_fits()
    ensures { NamesKeepFits }
{}

/// A store that fitted what was known before a closure's body fits what is known behind it, once
/// the names that the body hid have their values back. This takes no time: it is a law about the
/// definitions.
pub fn bodies_keep_fits()
    ensures { BodiesKeepFits }
{}

/// The kind of a root, joined with itself, is the same. This takes no time: it is a law about the
/// definitions.
pub fn root_kinds_join_themselves()
    ensures { RootKindsJoinThemselves }
{
    equal_tags_are_one_kind();
}

/// What is known is within what is left of it once roots are forgotten. This takes no time: it is a
/// law about the definitions.
pub fn forgetting_widens()
    ensures { ForgettingWidens }
{}

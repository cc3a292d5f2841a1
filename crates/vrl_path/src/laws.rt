ghost use Rattle.vrl_path.specs.Laws.{ReadsAreLookUps, RemovalsAreOne, RemovedTreesAreRemovals, SetTreesAreSets, SetsAreOne, SetsDeepen, SetsGoOn};

use vrl_value::{items_are_lists, members_are_maps, trees_are_told, trees_stay_in_order};

/// What a read finds at a path is what look-up finds at the steps that the path stands for. This
/// takes no time: it is a law about the definitions.
pub fn reads_are_look_ups()
    ensures { ReadsAreLookUps }
{}

/// A set at a path of one step at least is a set of one step, to the part behind that step with a
/// set at the rest of the path. This takes no time: it is a law about the definitions.
pub fn sets_go_on()
    ensures { SetsGoOn }
{
    members_are_maps();
    items_are_lists();
}

/// Among the trees in order, a tree set at a path of another has one result. This takes no time: it
/// is a law about the definitions.
pub fn sets_are_one()
    ensures { SetsAreOne }
{
    trees_are_told();
}

/// Among the trees in order, a tree from which a part was taken out at a path has one result. This
/// takes no time: it is a law about the definitions.
pub fn removals_are_one()
    ensures { RemovalsAreOne }
{
    trees_are_told();
}

/// A tree set at a path of another is as deep as the path is long and the new tree is deep, or, by
/// what stands beside the path, as the other was at most. So where that one is within a limit, the
/// result is over it exactly where the path and the new tree are together. This takes no time: it
/// is a law about the definitions.
pub fn sets_deepen()
    ensures { SetsDeepen }
{
    members_are_maps();
    items_are_lists();
    trees_stay_in_order();
    trees_are_told();
}

/// The function that sets a tree at a path step by step gives what a set means, at every path, and
/// keeps trees in order. This takes no time: it is a law about the definitions.
pub fn set_trees_are_sets()
    ensures { SetTreesAreSets }
{
    members_are_maps();
    items_are_lists();
    trees_stay_in_order();
}

/// The function that removes what stands at a path step by step gives what a removal means, at
/// every path, leaves a tree as it is where nothing stands there, and keeps trees in order. This
/// takes no time: it is a law about the definitions.
pub fn removed_trees_are_removals()
    ensures { RemovedTreesAreRemovals }
{
    members_are_maps();
    items_are_lists();
    trees_stay_in_order();
}

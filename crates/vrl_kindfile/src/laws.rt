ghost use Rattle.vrl_kindfile.specs.Laws.{FilesHaveOneAnswer};

use vrl_kind::equal_tags_are_one_kind;

/// A kind file declares one kind, or has one first fault, or is no JSON, and never two of these. This takes no
/// time: it is a law about the definitions.
pub fn files_have_one_answer()
    ensures { FilesHaveOneAnswer }
{
    equal_tags_are_one_kind();
}

ghost use Rattle.vrl_format.specs.Laws.{AnswersAreDetermined, LayoutsMeanTheSame, LayoutsStay};

use vrl_parse::{error_places_are_determined, scripts_are_determined};
use vrl_token::{pieces_are_respelled, tokens_are_determined};

/// A text has one answer. This takes no time: it is a law about the definitions.
pub fn answers_are_determined()
    ensures { AnswersAreDetermined }
{
    tokens_are_determined();
    scripts_are_determined();
    error_places_are_determined();
}

/// A layout reads to the script of its text but for places: it has the same tokens, with the same
/// separators but where the grammar sees none, and the same comments. This takes no time: it is a
/// law about the definitions.
pub fn layouts_mean_the_same()
    ensures { LayoutsMeanTheSame }
{
    tokens_are_determined();
    pieces_are_respelled();
}

/// A layout is its own layout. This takes no time: it is a law about the definitions.
pub fn layouts_stay()
    ensures { LayoutsStay }
{
    tokens_are_determined();
    pieces_are_respelled();
}

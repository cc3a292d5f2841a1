ghost use Rattle.vrl_compile.specs.Once.{CodesStandOnce, DiagnosticsStandOnce};
ghost use Rattle.vrl_compile.specs.Reading.{DiagnosticsAreDetermined, ScriptsHaveOneReading};

use vrl_check::{judgements_are_determined, no_code_stands_twice};
use vrl_parse::{error_places_are_determined, scripts_are_determined};
use vrl_token::tokens_are_determined;

/// A text has one reading as a script. This takes no time: it is a law about the definitions.
pub fn scripts_have_one_reading()
    ensures { ScriptsHaveOneReading }
{
    tokens_are_determined();
    scripts_are_determined();
}

/// The diagnostics of a text under a kind are one list. This takes no time: it is a law about the
/// definitions.
pub fn diagnostics_are_determined()
    ensures { DiagnosticsAreDetermined }
{
    tokens_are_determined();
    scripts_are_determined();
    error_places_are_determined();
    judgements_are_determined();
}

/// No code stands twice at one place in a judgement of the script that is read in a text, and no
/// diagnostic of a text stands twice. This takes no time: it is a law about the definitions.
pub fn diagnostics_stand_once()
    ensures codes { CodesStandOnce }
    ensures diagnostics { DiagnosticsStandOnce }
{
    no_code_stands_twice();
}

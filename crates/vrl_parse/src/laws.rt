ghost use Rattle.vrl_parse.specs.Reading.{ErrorPlacesAreDetermined, ScriptsAreDetermined};

/// Tokens have at most one script. This takes no time: it is a law about the definitions.
pub fn scripts_are_determined()
    ensures { ScriptsAreDetermined }
{}

/// Tokens that are no script go wrong at one place. This takes no time: it is a law about the definitions.
pub fn error_places_are_determined()
    ensures { ErrorPlacesAreDetermined }
{}

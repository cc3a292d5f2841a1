ghost use Rattle.vrl_token.specs.Laws.{TokensAreDetermined};
ghost use Rattle.vrl_token.specs.Respelling.{RespellingLaws};

use vrl_value::moments_read_back;

/// A text has one list of tokens, or one thing that is wrong with it, and never both. This takes no
/// time: it is a law about the definitions.
pub fn tokens_are_determined()
    ensures { TokensAreDetermined }
{
    moments_read_back();
}

/// A piece that a text begins with is a piece of a text with other blanks and newlines, behind
/// pieces that keep its context and before a rest with which it can't be longer. This takes no
/// time: it is a law about the definitions.
pub fn pieces_are_respelled()
    ensures { RespellingLaws }
{}

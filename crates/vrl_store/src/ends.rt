ghost use Rattle.std.specs.Prelude.{◌≡◌, true};
ghost use Rattle.vrl_syntax.specs.Stores.{Store};
ghost use Rattle.vrl_store.specs.Outcomes.{banged_if, Ended};
ghost use Rattle.vrl_store.specs.Results.{Ends, EndsUnlessError};

use crate::stop::Stop;
use vrl_value::Value;

/// The value that a part ended with; none where it ended with an error. However else it ended
/// stays, an error of a call with `!` too.
pub fn unless_error(value: Result<Value, Stop>) -> Result<Option<Value>, Stop>
    ensures ends { (ended : Ended) (store : Store) → Ends ended store value → EndsUnlessError ended store result }
    ensures want { result ≡ Err Stop.Memory → value ≡ Err Stop.Memory }
{
    match value {
        Ok(value) => Ok(Some(value)),
        Err(Stop::Error(_text)) => Ok(None),
        Err(other) => Err(other),
    }
}

/// An error as that of a call with `!`. However else the call ended stays.
pub fn banged(value: Result<Value, Stop>) -> Result<Value, Stop>
    ensures ends { (ended : Ended) (store : Store) → Ends ended store value → Ends (banged_if true ended) store result }
    ensures want { result ≡ Err Stop.Memory → value ≡ Err Stop.Memory }
{
    match value {
        Err(Stop::Error(text)) => Err(Stop::Banged(text)),
        other => other,
    }
}

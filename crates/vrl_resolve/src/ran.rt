use vrl_value::{Chars, Fields, Value};

/// How a script ended over an event.
#[derive(Drop)]
pub enum Ended {
    /// With a value. `None`: what it gave wasn't asked for.
    Value(Option<Produced>),
    /// By an `abort`, with its message where there is one.
    Aborted(Option<Chars>),
    /// By an error of a call that is written with `!`: its text.
    Banged(Chars),
    /// The event, a variable or the value of a call would be nested deeper than 128.
    Deep,
}

/// What a script produced that ended with a value.
#[derive(Drop)]
pub struct Produced {
    /// The value of its last item, or of a `return`.
    pub value: Value,
    /// The variables that were there at its end, the metadata among them.
    pub variables: Fields,
}

/// What a run of a script leaves.
#[derive(Drop)]
pub struct Ran {
    /// How it ended.
    pub ended: Ended,
    /// The event as it left it.
    pub event: Value,
    /// The metadata as it left it.
    pub metadata: Value,
}

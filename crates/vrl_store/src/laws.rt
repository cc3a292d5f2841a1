ghost use Rattle.vrl_store.specs.Laws.{EqualityIsTold};

/// What the meaning says of `==` is that two values are equal. This takes no time: it is a law
/// about the definitions.
pub fn equality_is_told()
    ensures { EqualityIsTold }
{}

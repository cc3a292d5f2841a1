use vrl_path::Path;

/// Where a path begins: the event, or the variable with this number.
#[derive(Clone, Copy)]
pub enum Base {
    /// The event.
    Event,
    /// A variable.
    Variable(usize),
}

/// A path from the event or from a variable.
#[derive(Drop)]
pub struct TargetPath {
    /// Where it begins.
    pub base: Base,
    /// The steps from there.
    pub path: Path,
}

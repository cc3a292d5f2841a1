/// What a worker passes before each line, as a test that sees in which order they come.
pub trait Gate {
    /// Passes before the work on the line at this place of its batch, from 0.
    fn pass(&self, place: usize);
}

/// A gate that does nothing.
#[derive(Clone, Copy, Debug)]
pub struct FreeGate;

impl Gate for FreeGate {
    fn pass(&self, _place: usize) {}
}

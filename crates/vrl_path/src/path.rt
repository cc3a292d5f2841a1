ghost use Rattle.std.specs.Prelude.{◌≡◌, IfOk};

use std::alloc::Global;
use std::marker::Model;
use vrl_value::{Chars, Memory};

/// The greatest place that can be written.
pub const PLACE_LIMIT: i64 = 65_535;

/// The least place that can be written: the farthest one from the end of an array.
pub const LEAST_PLACE: i64 = -65_536;

/// One step of a path, from an array or an object to a part of it.
#[derive(Drop)]
pub enum Step {
    /// To the field of an object that has this name.
    Field(Chars),
    /// To a place of an array: from 0 on counted from its start, and from -1 down from its end.
    Place(i64),
}

/// A path: steps in order, of which there may be none. A contract sees their list.
#[derive(Drop)]
pub struct Path {
    steps: Vec<Step>,
}

impl Step {
    /// An equal step. `Memory`: want of memory.
    pub fn copy(&self, alloc: Global) -> Result<Step, Memory>
        ensures { IfOk result (λ copy. copy ≡ self.now) }
    {
        match self {
            Step::Field(name) => Ok(Step::Field(name.copy(alloc)?)),
            Step::Place(place) => Ok(Step::Place(*place)),
        }
    }
}

impl Model for Path {
    ghost use Rattle.std.specs.Prelude.{List};
    ghost use Rattle.vrl_path.specs.declared.path.Step.{Step};

    ghost Value = { List Step };

    ghost view = { λ path. path.steps.items };
}

impl Path {
    /// These steps, which it keeps.
    pub fn new(steps: Vec<Step>) -> Path
        ensures { result ≡ steps.items }
    {
        Path { steps }
    }

    /// The steps, borrowed.
    pub fn as_slice(&self) -> &[Step]
        ensures { result.now ≡ self.now }
    {
        &self.steps
    }

    /// An equal path. `Memory`: want of memory.
    pub fn copy(&self, alloc: Global) -> Result<Path, Memory>
        ensures { IfOk result (λ copy. copy ≡ self.now) }
    {
        Ok(Path::new(copies(alloc, self.as_slice())?))
    }

    /// The vector that holds the steps.
    pub fn into_vec(self) -> Vec<Step>
        ensures { result.items ≡ self }
    {
        self.steps
    }
}

// Equal steps. `Memory`: want of memory.
fn copies(alloc: Global, steps: &[Step]) -> Result<Vec<Step>, Memory>
    ensures { IfOk result (λ copies. copies.items ≡ steps.now) }
{
    let mut copies = Vec::with_capacity(alloc, steps.len())?;
    for step in steps {
        copies.push(step.copy(alloc)?)?;
    }
    Ok(copies)
}

ghost use Rattle.std.specs.Prelude.{◌≡◌, [], IfOk, IsOk, OnOk};
ghost use Rattle.vrl_generate.specs.Summary.{is_refused};
ghost use Rattle.vrl_run.specs.Joining.{AddsResult, AreJoined};

use std::alloc::Global;
use vrl_batch::{LineOut, Outcome};
use vrl_value::Memory;

// The results of lines, joined in their order.
#[derive(Drop)]
pub(crate) struct Joined {
    // The events, a line each.
    pub(crate) output: Vec<u8>,
    // The reports on lines.
    pub(crate) report: Vec<u8>,
    // Whether a line was refused.
    pub(crate) marked: bool,
}

impl Joined {
    // Adds the result of one line more. `Memory`: want of memory.
    fn add(&mut self, made: &LineOut) -> Result<(), Memory>
        ensures { OnOk result (AddsResult self.old self.new made.now) }
    {
        self.output.extend_from_slice(made.output.as_slice())?;
        self.report.extend_from_slice(made.report.as_slice())?;
        self.marked = self.marked || is_refused(made.outcome);
        Ok(())
    }
}

// Whether a line is no event of the declared kind.
fn is_refused(outcome: Outcome) -> bool
    ensures { result ≡ is_refused outcome }
{
    matches!(outcome, Outcome::Refused)
}

// These results, joined. `Memory`: out of memory, where there is one.
pub(crate) fn join_results(alloc: Global, results: &[LineOut]) -> Result<Joined, Memory>
    ensures joined { IfOk result (AreJoined results.now) }
    ensures none { results.now ≡ [] → IsOk result }
{
    let mut all = Joined {
        output: Vec::new(alloc),
        report: Vec::new(alloc),
        marked: false,
    };
    for made in results {
        all.add(made)?;
    }
    Ok(all)
}

ghost use Rattle.std.specs.Prelude.{◌≡◌, [], ◌∷◌, ◌++◌, List, IfOk, MatchOption, OnOk, option_map, ℕ};
ghost use Rattle.vrl_token.specs.Gathering.{code_of as flaw_code, IsGathered, Keeps};
ghost use Rattle.vrl_token.specs.Paths.{HasFlaw, HasSteps, RootSegments, Segment as Spelled, Segments};
ghost use Rattle.vrl_token.specs.Segments.{IsSaid};

use crate::segment::{Flaw, Segment, split_dotted, split_undotted};
use std::alloc::Global;
use vrl_diag::code;
use vrl_path::{Path, Step};
use vrl_value::Memory;

/// The steps of the segments read so far, and what is wrong with them.
#[derive(Drop)]
pub(crate) struct Gathering {
    steps: Vec<Step>,
    flaw: Option<Flaw>,
}

impl Gathering {
    /// No segments.
    pub(crate) fn new(alloc: Global) -> Gathering
        ensures { IsGathered [] result }
    {
        Gathering {
            steps: Vec::new(alloc),
            flaw: None,
        }
    }

    // Notes what is wrong with one more segment; an unknown escape goes before an index out of
    // range.
    fn note(&mut self, flaw: Flaw)
        ensures steps { self.new.steps ≡ self.old.steps }
        ensures flaw { Keeps self.old.flaw flaw self.new.flaw }
    {
        self.flaw = match (self.flaw, flaw) {
            (Some(Flaw::Escape), _) | (_, Flaw::Escape) => Some(Flaw::Escape),
            _ => Some(Flaw::Range),
        };
    }

    /// Takes one more segment.
    pub(crate) fn add(&mut self, alloc: Global, segment: Segment<'_>) -> Result<(), Memory>
        ensures { OnOk result ((before : List Spelled) (spelled : Spelled) → IsGathered before self.old
            → IsSaid segment.entry spelled
            → IsGathered (before ++ spelled ∷ []) self.new) }
    {
        match segment.to_step(alloc)? {
            Ok(step) => self.steps.push(step)?,
            Err(flaw) => self.note(flaw),
        }
        Ok(())
    }

    /// Takes all segments that a text begins with, and gives what stands behind them.
    pub(crate) fn gather<'a>(&mut self, alloc: Global, text: &'a str) -> Result<&'a str, Memory>
        ensures { IfOk result (λ rest. (before : List Spelled) → IsGathered before self.old
            → (segments : List Spelled) × Segments text.now segments rest.now
            × IsGathered (before ++ segments) self.new) }
    {
        let mut rest = text;
        while let Some((segment, behind)) = split_dotted(rest) {
            self.add(alloc, segment)?;
            rest = behind;
        }
        Ok(rest)
    }

    /// Takes the segments of the path whose `.` or `%` stands before a text, and gives what stands
    /// behind them.
    pub(crate) fn gather_root<'a>(
        &mut self,
        alloc: Global,
        text: &'a str,
    ) -> Result<&'a str, Memory>
        ensures { IfOk result (λ rest. (sign : ℕ) → IsGathered [] self.old → (segments : List Spelled)
            × RootSegments sign (sign ∷ text.now) segments rest.now × IsGathered segments self.new) }
    {
        match split_undotted(text) {
            Some((first, next)) => {
                self.add(alloc, first)?;
                self.gather(alloc, next)
            }
            None => Ok(text),
        }
    }

    /// The path of the steps, and the code of what is wrong with the segments.
    pub(crate) fn into_path(self) -> (Path, Option<u16>)
        ensures { (segments : List Spelled) → IsGathered segments self
            → MatchOption result.1 (HasSteps segments result.0) (HasFlaw segments) }
    {
        (Path::new(self.steps), code_of(self.flaw))
    }
}

// The code that tells a flaw, where there is one.
fn code_of(flaw: Option<Flaw>) -> Option<u16>
    ensures { result ≡ option_map flaw_code flaw }
{
    match flaw {
        None => None,
        Some(Flaw::Escape) => Some(code::UNRECOGNIZED_TOKEN),
        Some(Flaw::Range) => Some(code::NUMBER_OUT_OF_RANGE),
    }
}

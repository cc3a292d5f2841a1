use crate::telling::{add_count, add_told};
use sha2::{Digest, Sha256};
use std::alloc::Global;
use vrl_batch::{LineOut, Outcome};
use vrl_value::Memory;

/// What is counted of the results of lines, and the digest of what would be written of them. None of their
/// bytes are kept.
#[derive(Drop)]
pub struct Summary {
    lines: u64,
    written: u128,
    errors: u64,
    aborted: u64,
    refused: u64,
    bytes: u128,
    hasher: Sha256,
}

impl Summary {
    ghost use Rattle.std.specs.Prelude.{◌≡◌, ◌++◌, ◌<◌, ◌^◌, ◌∷◌, [], List, IfOk, length};
    ghost use Rattle.vrl_batch.specs.declared.work.LineOut.{LineOut};
    ghost use Rattle.vrl_generate.specs.Summary.{CountsOutcome, IsSummaryOf, summary_of, is_marked as some_refused};

    /// The summary of no results.
    pub fn new() -> Summary
        ensures { IsSummaryOf [] result }
    {
        Summary {
            lines: 0,
            written: 0,
            errors: 0,
            aborted: 0,
            refused: 0,
            bytes: 0,
            hasher: Sha256::new(),
        }
    }

    /// Adds the result of one line more.
    pub fn add(&mut self, made: &LineOut)
        ensures { (outs : List LineOut) → IsSummaryOf outs self.old → IsSummaryOf (outs ++ made.now ∷ []) self.new }
    {
        let output = made.output.as_slice();
        self.count(made.outcome);
        self.lines = self.lines.saturating_add(1);
        self.written = self.written.saturating_add(made.kept as u128);
        self.bytes = self.bytes.saturating_add(output.len() as u128);
        self.hasher.update(output);
    }

    // Counts one line more that went so.
    fn count(&mut self, outcome: Outcome)
        ensures { CountsOutcome outcome self.old self.new }
    {
        match outcome {
            Outcome::Fine => {}
            Outcome::Errored => self.errors = self.errors.saturating_add(1),
            Outcome::Aborted => self.aborted = self.aborted.saturating_add(1),
            Outcome::Refused => self.refused = self.refused.saturating_add(1),
        }
    }

    /// Whether some line was refused.
    pub fn is_marked(&self) -> bool
        ensures { (outs : List LineOut) → length outs < 2 ^ 64 → IsSummaryOf outs self.now
            → result ≡ some_refused outs }
    {
        self.refused > 0
    }

    /// The seven lines, each with its newline: `lines`, `written` (the events that are kept), `errors`,
    /// `aborted`, `refused` and `bytes` (of what would be written), each with its number, and `sha256` with
    /// the digest (FIPS 180-4) of these bytes in lower-case hexadecimal digits.
    ///
    /// # Errors
    ///
    /// [`Memory`] where memory is wanted.
    pub fn into_text(self, alloc: Global) -> Result<Vec<u8>, Memory>
        ensures { (outs : List LineOut) → length outs < 2 ^ 64 → IsSummaryOf outs self
            → IfOk result (λ text. text.items ≡ summary_of outs) }
    {
        let mut text = Vec::new(alloc);
        add_count(alloc, &mut text, "lines", self.lines as u128)?;
        add_count(alloc, &mut text, "written", self.written)?;
        add_count(alloc, &mut text, "errors", self.errors as u128)?;
        add_count(alloc, &mut text, "aborted", self.aborted as u128)?;
        add_count(alloc, &mut text, "refused", self.refused as u128)?;
        add_count(alloc, &mut text, "bytes", self.bytes)?;
        let digest = hex::encode(alloc, self.hasher.finalize())?;
        add_told(alloc, &mut text, "sha256", &digest)?;
        Ok(text)
    }
}

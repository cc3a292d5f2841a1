ghost use Rattle.std.specs.Prelude.{◌≡◌, IfOk};
ghost use Rattle.vrl_run.specs.Answer.{result_of, warnings_of};
ghost use Rattle.vrl_run.specs.Request.{IsReadyScript, run_of};
ghost use Rattle.vrl_run.specs.Working.{result_by};

use crate::options::Options;
use crate::work::LineWork;
use std::alloc::Global;
use vrl_diag::{Diagnostics, render_all};
use vrl_kind::Kind;
use vrl_resolve::Program;
use vrl_value::{Bytes, Memory, Names};

/// An accepted script, ready to run.
#[derive(Drop)]
pub struct ReadyScript {
    /// The bytes of its text.
    pub text: Bytes,
    /// The program that it is run as.
    pub program: Program,
    /// The sources of its regex literals.
    pub sources: Names,
    /// The kind of the events that it takes.
    pub declared: Kind,
    /// What a line stands for, and what becomes of an event over which it ends early.
    pub options: Options,
    /// The warnings about it.
    pub warnings: Diagnostics,
}

impl ReadyScript {
    // What is done with each line.
    pub(crate) fn work(&self) -> LineWork<'_>
        requires { IsReadyScript self.now }
        ensures { result_by result ≡ result_of (run_of self.now) }
    {
        LineWork {
            program: &self.program,
            sources: &self.sources,
            declared: &self.declared,
            options: self.options,
        }
    }

    // The lines that tell the warnings about it. `Memory`: out of memory.
    pub(crate) fn warning_lines(&self, alloc: Global) -> Result<Vec<u8>, Memory>
        ensures { IfOk result (λ lines. lines.items ≡ warnings_of (run_of self.now)) }
    {
        render_all(alloc, self.warnings.as_slice(), self.text.as_slice())
    }
}

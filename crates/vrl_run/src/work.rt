ghost use Rattle.std.specs.Prelude.{◌≡◌};
ghost use Rattle.vrl_resolve.specs.Program.{program_of};
ghost use Rattle.vrl_run.specs.LineResult.{HandlesErrors};

use crate::options::Options;
use crate::result::run_line;
use std::alloc::Global;
use vrl_batch::{Chunk, Gate, Line, LineOut, Outs, Work};
use vrl_json::Scratch;
use vrl_kind::Kind;
use vrl_pattern::Searches;
use vrl_resolve::Program;
use vrl_value::{Memory, Names};

// What is done with each line: a script is run over it. Of all that is known of the script, just
// this is lent to the workers.
#[derive(Drop)]
pub(crate) struct LineWork<'a> {
    pub(crate) program: &'a Program,
    pub(crate) sources: &'a Names,
    pub(crate) declared: &'a Kind,
    pub(crate) options: Options,
    // The sources are those of the program's regex literals, and it handles each of its errors.
    ghost sourced: { sources.now ≡ (program_of program.now).sources },
    ghost handles: { HandlesErrors declared.now (program_of program.now) },
}

impl Work for LineWork<'_> {
    ghost use Rattle.vrl_run.specs.Working.{result_by};

    ghost makes = { result_by };

    fn each<G: Gate>(&self, alloc: Global, mut chunk: Chunk<'_, G>) -> Result<Outs, Memory> {
        let searches = self.program.searches();
        let mut scratch = Scratch::new(alloc);
        let mut outs = Vec::with_capacity(alloc, chunk.len())?;
        while let Some(line) = chunk.next() {
            outs.push(self.one(alloc, &searches, line, &mut scratch)?)?;
        }
        Ok(Outs::new(outs))
    }
}

impl LineWork<'_> {
    ghost use Rattle.std.specs.Prelude.{◌≡◌, IfOk};
    ghost use Rattle.vrl_resolve.specs.Program.{program_of};
    ghost use Rattle.vrl_run.specs.Working.{result_by};

    // What is made of a line. `Memory`: want of memory.
    fn one(
        &self,
        alloc: Global,
        searches: &Searches<'_>,
        line: &Line,
        scratch: &mut Scratch,
    ) -> Result<LineOut, Memory>
        requires { searches.now ≡ (program_of self.now.program.now).sources }
        ensures { IfOk result (λ out. out ≡ result_by self.now line.now) }
    {
        run_line(
            alloc,
            self.program,
            searches,
            self.sources,
            self.declared,
            &self.options,
            line,
            scratch,
        )
    }
}

ghost use Rattle.std.specs.Prelude.{◌≡◌, IfOk};
ghost use Rattle.vrl_syntax.specs.Limits.{KeepsLimits};
ghost use Rattle.vrl_syntax.specs.Regexes.{IsNumbered};
ghost use Rattle.vrl_syntax.specs.View.{exprs_of, script_of};
ghost use Rattle.vrl_resolve.specs.Program.{program_of, script_program};

use crate::link::Linker;
use crate::program::Program;
use std::alloc::Global;
use vrl_pattern::Patterns;
use vrl_syntax::{Empties, Script};
use vrl_value::Memory;

impl Program {
    /// Makes a script ready to be run: its variables are numbered, its functions looked up and
    /// their arguments bound. What it writes and deletes keeps the limits, `patterns` are its
    /// regexes, and `empties` has the tag of the empty value of each error assignment. `Memory`:
    /// want of memory.
    pub fn link(
        alloc: Global,
        script: Script,
        empties: &Empties,
        patterns: Patterns,
    ) -> Result<Program, Memory>
        requires limits { KeepsLimits (exprs_of script.items) }
        requires regexes { IsNumbered (script_of script) }
        requires patterns { patterns ≡ script.patterns }
        ensures { IfOk result
            (λ program. program_of program ≡ script_program (exprs_of script.items) empties.now patterns) }
    {
        let mut linker = Linker::new(alloc, empties.as_slice())?;
        let Script { items, patterns: _ } = script;
        let items = linker.items(items)?;
        let names = linker.into_names()?;
        Ok(Program {
            items,
            names,
            patterns,
        })
    }
}

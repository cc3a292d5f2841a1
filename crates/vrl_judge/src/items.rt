ghost use Rattle.std.specs.Prelude.{◌≡◌, IfOk, List, OnOk};
ghost use Rattle.vrl_judge.specs.Judging.{AreEnds, AreJoinedEnds, HaveCommonScopes, IsBlockEndAs, IsInBlock};
ghost use Rattle.vrl_state.specs.States.{Scope};

use crate::checker::Checker;
use crate::finding::Finding;
use std::alloc::Global;
use vrl_value::Memory;

impl Checker<'_> {
    /// Ends the innermost block, behind its items. `Memory`: want of memory.
    pub fn end_block(&mut self, part: Finding) -> Result<Finding, Memory>
        requires { IsInBlock self.old part }
        ensures { IfOk result (λ finding. IsBlockEndAs part self.old self.new finding) }
    {
        let mut part = part;
        self.state.leave()?;
        part.ends.leave()?;
        self.settled(part)
    }
}

impl Finding {
    /// Goes on with a part behind what was judged: the whole ends with a value where the part does,
    /// and otherwise where either of them does. `Memory`: want of memory.
    pub fn go_on(&mut self, alloc: Global, part: Finding) -> Result<(), Memory>
        requires { HaveCommonScopes self.old.ends part.ends }
        ensures kind { OnOk result (self.new.kind ≡ part.kind) }
        ensures joined { OnOk result (AreJoinedEnds self.old.ends part.ends self.new.ends) }
        ensures scopes { OnOk result
            ((scopes : List Scope) → AreEnds scopes self.old.ends → AreEnds scopes part.ends
            → AreEnds scopes self.new.ends) }
    {
        self.kind = self.ends.absorb(alloc, part)?;
        Ok(())
    }
}

ghost use Rattle.std.specs.Prelude.{is_some, ◌≡◌, IfOk, OnOk};
ghost use Rattle.vrl_judge.specs.Judging.{no_ends, settled_ends};
ghost use Rattle.vrl_judge.specs.Rules.{settled_kind as kind_settled};
ghost use Rattle.vrl_kind.specs.Canonical.{never_kind};

use crate::ends::Ends;
use crate::shared_kind::SharedKind;
use std::alloc::Global;
use vrl_value::Memory;

/// What an expression was judged to be.
pub struct Finding {
    /// The kind of its value; never where it can't end with one, and any where it is poisoned.
    pub kind: SharedKind,
    /// Its other ends.
    pub ends: Ends,
}

// Written out, so that a finding is let go by one call.
impl Drop for Finding {
    fn drop(self) {
        let Finding { kind: _, ends: _ } = self;
    }
}

impl Finding {
    /// A value of this kind, and nothing else.
    pub fn value(kind: SharedKind) -> Finding
        ensures kind { result.kind ≡ kind }
        ensures ends { result.ends ≡ no_ends }
    {
        let ends = Ends::none();
        Finding { kind, ends }
    }

    /// The kind of its value, and its other ends.
    pub fn into_parts(self) -> (SharedKind, Ends)
        ensures kind { result.0 ≡ self.kind }
        ensures ends { result.1 ≡ self.ends }
    {
        let Finding { kind, ends } = self;
        (kind, ends)
    }

    /// Nothing can happen. `Memory`: want of memory.
    pub fn nothing(alloc: Global) -> Result<Finding, Memory>
        ensures kind { IfOk result (λ finding. finding.kind ≡ never_kind) }
        ensures ends { IfOk result (λ finding. finding.ends ≡ no_ends) }
    {
        Ok(Finding::value(SharedKind::never(alloc)?))
    }

    /// Whether it may end with an error.
    pub fn is_fallible(&self) -> bool
        ensures { result ≡ is_some self.now.ends.fail }
    {
        self.ends.fail.is_some()
    }

    // What is poisoned has kind any and no error is left of it; what can't end with a value has
    // kind never. `Memory`: want of memory.
    pub(crate) fn settle(&mut self, alloc: Global, alive: bool) -> Result<(), Memory>
        ensures kind { OnOk result (self.new.kind ≡ kind_settled self.old.ends.poisoned alive self.old.kind) }
        ensures ends { OnOk result (self.new.ends ≡ settled_ends self.old.ends) }
    {
        settle_kind(&mut self.kind, alloc, self.ends.poisoned, alive)?;
        self.ends.settle();
        Ok(())
    }
}

fn settle_kind(
    kind: &mut SharedKind,
    alloc: Global,
    poisoned: bool,
    alive: bool,
) -> Result<(), Memory>
    ensures { OnOk result (kind.new ≡ kind_settled poisoned alive kind.old) }
{
    if poisoned {
        *kind = SharedKind::any(alloc)?;
        return Ok(());
    }
    if !alive {
        *kind = SharedKind::never(alloc)?;
    }
    Ok(())
}

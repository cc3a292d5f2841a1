ghost use Rattle.std.specs.Prelude.{[], map, ◌++◌, ◌∷◌, ◌≡◌, IfOk, OnOk};
ghost use Rattle.vrl_judge.specs.Judging.{HasJudged, IsReadOffAs, IsSettledAs};
ghost use Rattle.vrl_judge.specs.Rules.{array_at, at, gives, object_at, with_codes};
ghost use Rattle.vrl_kind.specs.Canonical.{any_kind};
ghost use Rattle.vrl_state.specs.States.{IsCutOf};

use crate::checker::Checker;
use crate::finding::Finding;
use crate::kinds::{cut, read_cut};
use crate::shared_kind::SharedKind;
use std::alloc::Global;
use vrl_diag::{Span, code};
use vrl_kind::{Kind, Rest, kind_is_canonical};
use vrl_path::Path;
use vrl_value::{Chars, Memory};

impl Checker<'_> {
    /// What is judged of a part in the end: of what is poisoned the kind is any and no error is
    /// left, and of what can't end with a value it is never. `Memory`: want of memory.
    pub fn settled(&self, part: Finding) -> Result<Finding, Memory>
        ensures { IfOk result (λ finding. IsSettledAs part self.now finding) }
    {
        let mut part = part;
        part.settle(self.alloc, self.is_alive())?;
        Ok(part)
    }

    /// A read of a variable that isn't known, which is 701. `Memory`: want of memory.
    pub fn unknown(&mut self, span: Span) -> Result<Finding, Memory>
        ensures { IfOk result
            (λ finding. HasJudged self.old self.new finding
            (with_codes (at 701 span) (gives any_kind self.old.state.known))) }
    {
        let part = Finding::value(SharedKind::any(self.alloc)?);
        self.reported(part, true, code::UNDEFINED_VARIABLE, span)
    }

    /// What is read at a path of what was judged. `Memory`: want of memory.
    pub fn read_off(&self, part: Finding, path: &Path) -> Result<Finding, Memory>
        ensures { IfOk result (λ finding. IsReadOffAs path.now part self.now finding) }
    {
        let mut part = part;
        part.kind = read_cut(self.alloc, part.kind.as_kind(), path)?;
        Ok(part)
    }
}

/// The kind of arrays with these kinds at their places, cut. `Memory`: want of memory.
pub fn array_kind(alloc: Global, kinds: Vec<Kind>) -> Result<SharedKind, Memory>
    ensures { IfOk result (λ kind. IsCutOf (array_at kinds.items) kind) }
{
    let whole = Kind::list(alloc, kinds, Rest::Nothing)?;
    kind_is_canonical(&whole);
    cut(alloc, whole)
}

/// Adds a field of this name and kind. `Memory`: want of memory.
pub fn add_field(
    fields: &mut Vec<(Chars, Kind)>,
    alloc: Global,
    name: &Chars,
    kind: Kind,
) -> Result<(), Memory>
    ensures { OnOk result (fields.new.items ≡ fields.old.items ++ ((name.now, kind) ∷ [])) }
{
    let name = name.copy(alloc)?;
    fields.push((name, kind))?;
    Ok(())
}

/// The kind of objects with these kinds at their fields, cut. `Memory`: want of memory.
pub fn object_kind(alloc: Global, fields: Vec<(Chars, Kind)>) -> Result<SharedKind, Memory>
    ensures { IfOk result
        (λ kind. IsCutOf (object_at (map (λ e. e.0) fields.items) (map (λ e. e.1) fields.items)) kind) }
{
    let whole = Kind::object(alloc, fields, Rest::Nothing)?;
    kind_is_canonical(&whole);
    cut(alloc, whole)
}

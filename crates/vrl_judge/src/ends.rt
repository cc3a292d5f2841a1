ghost use Rattle.std.specs.Prelude.{is_some, not, ◌||◌, ◌∷◌, ◌≡◌, IfOk, List, OnOk};
ghost use Rattle.vrl_judge.specs.Judging.{known_on, no_ends, settled_ends, AreEnds, AreJoinedEnds, AreJoinedReturns, AreLeftEnds, HaveCommonScopes, IsLeftReturn, IsLeftWay, IsReturnIn, IsWay};
ghost use Rattle.vrl_state.specs.States.{IsEither, IsJoined, Scope};

use crate::finding::Finding;
use crate::kinds::either;
use crate::shared_kind::SharedKind;
use std::alloc::Global;
use vrl_kind::Kind;
use vrl_state::Branch;
use vrl_value::Memory;

/// How a script may return.
pub struct Returned {
    /// The kind of what is returned.
    pub kind: Kind,
    /// What is known where it returns.
    pub state: Branch,
}

// Written out, so that a return is let go by one call.
impl Drop for Returned {
    fn drop(self) {
        let Returned { kind: _, state: _ } = self;
    }
}

/// The ends of what was judged, but for that with a value, where the checker's state is what is
/// known.
pub struct Ends {
    /// What is known where it ends with an error. `None`: it can't.
    pub fail: Option<Branch>,
    /// How it may return. `None`: it can't.
    pub ret: Option<Returned>,
    /// An error code stands on it or in it.
    pub poisoned: bool,
}

// Written out, so that the ends are let go by one call.
impl Drop for Ends {
    fn drop(self) {
        let Ends {
            fail: _,
            ret: _,
            poisoned: _,
        } = self;
    }
}

impl Ends {
    /// No error, no return, no code.
    pub fn none() -> Ends
        ensures { result ≡ no_ends }
    {
        Ends {
            fail: None,
            ret: None,
            poisoned: false,
        }
    }

    /// Where it ends with an error, how it may return, and whether a code stands.
    pub fn into_parts(self) -> (Option<Branch>, Option<Returned>, bool)
        ensures fail { result.0 ≡ self.fail }
        ensures ret { result.1 ≡ self.ret }
        ensures poisoned { result.2 ≡ self.poisoned }
    {
        let Ends {
            fail,
            ret,
            poisoned,
        } = self;
        (fail, ret, poisoned)
    }

    /// Whether it can't end with an error, and no error code tells why.
    pub fn is_needless(&self) -> bool
        ensures { result ≡ not (self.now.poisoned || is_some self.now.fail) }
    {
        !(self.poisoned || self.fail.is_some())
    }

    // Adds those of a part beside or behind these. `Memory`: want of memory.
    pub(crate) fn add(&mut self, alloc: Global, part: Ends) -> Result<(), Memory>
        requires { HaveCommonScopes self.old part }
        ensures joined { OnOk result (AreJoinedEnds self.old part self.new) }
        ensures scopes { OnOk result
            ((scopes : List Scope) → AreEnds scopes self.old → AreEnds scopes part → AreEnds scopes self.new) }
    {
        let (fail, ret, poisoned) = part.into_parts();
        add_way(&mut self.fail, fail)?;
        add_return(&mut self.ret, alloc, ret)?;
        self.poisoned = either_of(self.poisoned, poisoned);
        Ok(())
    }

    /// Adds the ends of a part beside or behind these, and gives the kind of its value. `Memory`:
    /// want of memory.
    pub fn absorb(&mut self, alloc: Global, part: Finding) -> Result<SharedKind, Memory>
        requires { HaveCommonScopes self.old part.ends }
        ensures kind { IfOk result (λ kind. kind ≡ part.kind) }
        ensures joined { OnOk result (AreJoinedEnds self.old part.ends self.new) }
        ensures scopes { OnOk result
            ((scopes : List Scope) → AreEnds scopes self.old → AreEnds scopes part.ends → AreEnds scopes self.new) }
    {
        let (kind, ends) = part.into_parts();
        self.add(alloc, ends)?;
        Ok(kind)
    }

    /// The same of a part that a container is made of, whose kind becomes one of its parts.
    /// `Memory`: want of memory.
    pub fn absorb_inner(&mut self, alloc: Global, part: Finding) -> Result<Kind, Memory>
        requires { HaveCommonScopes self.old part.ends }
        ensures kind { IfOk result (λ kind. kind ≡ part.kind) }
        ensures joined { OnOk result (AreJoinedEnds self.old part.ends self.new) }
        ensures scopes { OnOk result
            ((scopes : List Scope) → AreEnds scopes self.old → AreEnds scopes part.ends → AreEnds scopes self.new) }
    {
        let (kind, ends) = part.into_parts();
        self.add(alloc, ends)?;
        kind.into_kind(alloc)
    }

    /// Adds one more way to end with an error. `Memory`: want of memory.
    pub fn add_fail(&mut self, point: Option<Branch>) -> Result<(), Memory>
        requires { HaveCommonScopes self.old (record no_ends { fail = point }) }
        ensures joined { OnOk result (IsJoined (known_on self.old.fail) (known_on point) (known_on self.new.fail)) }
        ensures others { OnOk result (self.new ≡ record self.old { fail = self.new.fail }) }
        ensures scopes { OnOk result
            ((scopes : List Scope) → AreEnds scopes self.old → IsWay scopes point → AreEnds scopes self.new) }
    {
        add_way(&mut self.fail, point)
    }

    // Adds one more way to return. `Memory`: want of memory.
    pub(crate) fn add_return(
        &mut self,
        alloc: Global,
        point: Option<Returned>,
    ) -> Result<(), Memory>
        requires { HaveCommonScopes self.old (record no_ends { ret = point }) }
        ensures joined { OnOk result (AreJoinedReturns self.old.ret point self.new.ret) }
        ensures others { OnOk result (self.new ≡ record self.old { ret = self.new.ret }) }
        ensures scopes { OnOk result
            ((scopes : List Scope) → AreEnds scopes self.old → IsReturnIn scopes point → AreEnds scopes self.new) }
    {
        add_return(&mut self.ret, alloc, point)
    }

    // An error code stands too, if it does.
    pub(crate) fn add_error(&mut self, stands: bool)
        ensures { self.new ≡ record self.old { poisoned = self.old.poisoned || stands } }
    {
        self.poisoned = either_of(self.poisoned, stands);
    }

    // The innermost block ends in each of them. `Memory`: want of memory.
    pub(crate) fn leave(&mut self) -> Result<(), Memory>
        requires { (scope : Scope) × (scopes : List Scope) × AreEnds (scope ∷ scopes) self.old }
        ensures { OnOk result
            ((scope : Scope) (scopes : List Scope) → AreEnds (scope ∷ scopes) self.old
            → AreLeftEnds scope scopes self.old self.new) }
    {
        leave_way(&mut self.fail)?;
        leave_return(&mut self.ret)
    }

    // No error is left of what is poisoned.
    pub(crate) fn settle(&mut self)
        ensures { self.new ≡ settled_ends self.old }
    {
        if self.poisoned {
            self.fail = None;
        }
    }
}

/// Either of two, on one path.
pub fn either_of(a: bool, b: bool) -> bool
    ensures { result ≡ (a || b) }
{
    a || b
}

// Adds what is known on another way. `Memory`: want of memory.
pub(crate) fn add_way(way: &mut Option<Branch>, other: Option<Branch>) -> Result<(), Memory>
    requires { (scopes : List Scope) × IsWay scopes way.old × IsWay scopes other }
    ensures joined { OnOk result (IsJoined (known_on way.old) (known_on other) (known_on way.new)) }
    ensures scopes { OnOk result
        ((scopes : List Scope) → IsWay scopes way.old → IsWay scopes other → IsWay scopes way.new) }
{
    match other {
        None => Ok(()),
        Some(other) => match way {
            None => {
                *way = Some(other);
                Ok(())
            }
            Some(way) => way.join(&other),
        },
    }
}

fn add_return(
    ret: &mut Option<Returned>,
    alloc: Global,
    other: Option<Returned>,
) -> Result<(), Memory>
    requires { (scopes : List Scope) × IsReturnIn scopes ret.old × IsReturnIn scopes other }
    ensures joined { OnOk result (AreJoinedReturns ret.old other ret.new) }
    ensures scopes { OnOk result
        ((scopes : List Scope) → IsReturnIn scopes ret.old → IsReturnIn scopes other → IsReturnIn scopes ret.new) }
{
    match other {
        None => Ok(()),
        Some(other) => match ret {
            None => {
                *ret = Some(other);
                Ok(())
            }
            Some(ret) => {
                ret.join(alloc, &other)?;
                Ok(())
            }
        },
    }
}

impl Returned {
    // Joins another return to this one. `Memory`: want of memory.
    fn join(&mut self, alloc: Global, other: &Returned) -> Result<(), Memory>
        requires { self.old.state.scopes ≡ other.now.state.scopes }
        ensures kind { OnOk result (IsEither self.old.kind other.now.kind self.new.kind) }
        ensures known { OnOk result (IsJoined self.old.state.known other.now.state.known self.new.state.known) }
        ensures scopes { self.new.state.scopes ≡ self.old.state.scopes }
    {
        self.kind = either(alloc, &self.kind, &other.kind)?.into_kind(alloc)?;
        self.state.join(&other.state)?;
        Ok(())
    }
}

// The innermost block ends at a way. `Memory`: want of memory.
fn leave_way(way: &mut Option<Branch>) -> Result<(), Memory>
    requires { (scope : Scope) × (scopes : List Scope) × IsWay (scope ∷ scopes) way.old }
    ensures { OnOk result
        ((scope : Scope) (scopes : List Scope) → IsWay (scope ∷ scopes) way.old
        → IsLeftWay scope scopes way.old way.new) }
{
    match way {
        None => Ok(()),
        Some(branch) => branch.leave(),
    }
}

fn leave_return(ret: &mut Option<Returned>) -> Result<(), Memory>
    requires { (scope : Scope) × (scopes : List Scope) × IsReturnIn (scope ∷ scopes) ret.old }
    ensures { OnOk result
        ((scope : Scope) (scopes : List Scope) → IsReturnIn (scope ∷ scopes) ret.old
        → IsLeftReturn scope scopes ret.old ret.new) }
{
    match ret {
        None => Ok(()),
        Some(ret) => ret.state.leave(),
    }
}

ghost use Rattle.std.specs.Prelude.{◌≡◌, ◌∷◌, [], ℕ, IfOk, List, Some, map, option_map};
ghost use Rattle.std.specs.FinMap as finite;
ghost use Rattle.vrl_state.specs.Laws.{HideRootKinds};
ghost use Rattle.vrl_state.specs.Merging.{IsFirstJoined};
ghost use Rattle.vrl_state.specs.States.{hiding, scope_names, IsEachScopeJoined, IsHiding, IsRootKindIf};
ghost use Rattle.vrl_state.specs.View.{scope_of};

use crate::variables::VariableKinds;
use std::alloc::Global;
use std::marker::Model;
use std::rc::Rc;
use vrl_kind::Kind;
use vrl_value::Memory;

/// The scopes that are open, the innermost first: a list that is shared with other states.
#[cycle(scopes)]
pub(crate) struct Scopes {
    pub(crate) innermost: Option<Rc<OpenScope>>,
}

// Written out, so that scopes are let go by one call.
impl Drop for Scopes {
    #[cycle(let_scopes_go)]
    fn drop(self) {
        let Scopes { innermost: _ } = self;
    }
}

/// A scope that is open: the version of the variables where it began, the names that it hides with
/// the kinds that they get back, and the scopes around it.
#[cycle(scopes)]
#[derive(Drop)]
pub(crate) struct OpenScope {
    pub(crate) known: VariableKinds,
    pub(crate) hidden: VariableKinds,
    pub(crate) outer: Scopes,
}

impl Model for Scopes {
    ghost use Rattle.std.specs.Prelude.{length, List};
    ghost use Rattle.vrl_state.specs.States.{Scope};
    ghost use Rattle.vrl_state.specs.Codes.{scopes_code};

    ghost Value = { List Scope };

    ghost coded = { scopes_code };

    ghost use Rattle.vrl_state.specs.ScopesView.{scopes_of, HidesRootKinds};

    ghost view = { λ s. scopes_of s.innermost };

    ghost invariant = { λ s. HidesRootKinds s.innermost };

    ghost size = { length };

    ghost use Rattle.vrl_state.specs.ScopesFall.{scopes_fall};

    ghost size_decreases = { λ a h. scopes_fall a.innermost };
}

impl Scopes {
    // No scope.
    pub(crate) fn new() -> Scopes
        ensures { result ≡ [] }
    {
        Scopes { innermost: None }
    }

    // The scopes again, shared. `Memory`: want of memory.
    pub(crate) fn copy(&self) -> Result<Scopes, Memory>
        ensures { IfOk result (λ copy. copy ≡ self.now) }
    {
        match &self.innermost {
            None => Ok(Scopes::new()),
            Some(scope) => Ok(Scopes {
                innermost: Some(scope.clone()?),
            }),
        }
    }

    // Hidden kinds are those of roots. This changes nothing: it is a law of the type.
    pub(crate) fn hide_root_kinds(&self)
        ensures { HideRootKinds self.now }
    {
        match &self.innermost {
            None => {}
            Some(scope) => scope.outer.hide_root_kinds(),
        }
    }

    // The scopes, of which the innermost hides a name of this kind, where it knows the name and
    // doesn't hide it yet. `Memory`: want of memory.
    pub(crate) fn hiding(
        &self,
        alloc: Global,
        name: &str,
        kind: Option<&Rc<Kind>>,
    ) -> Result<Scopes, Memory>
        requires { IsRootKindIf (option_map (λ kind. kind.now.value) kind) }
        ensures { IfOk result
            (λ scopes. IsHiding name.now (option_map (λ kind. kind.now.value) kind.entry) self.now scopes) }
    {
        match &self.innermost {
            None => Ok(Scopes::new()),
            Some(scope) => hide_in(alloc, scope, name, kind),
        }
    }

    // Joins the hidden kinds of scopes of the same names, one by one. `Memory`: want of memory.
    pub(crate) fn joined(&self, alloc: Global, others: &Scopes) -> Result<Scopes, Memory>
        requires { map scope_names self.now ≡ map scope_names others.now }
        ensures { IfOk result (λ joined. IsEachScopeJoined self.now others.now joined) }
    {
        match (&self.innermost, &others.innermost) {
            (Some(mine), Some(other)) => {
                let outer = mine.outer.joined(alloc, &other.outer)?;
                joined_scope(alloc, &mine.known, &mine.hidden, &other.hidden, &outer)
            }
            _ => self.copy(),
        }
    }
}

// A scope within others that knows these names, and hides those of two sides with the kind of
// either. `Memory`: want of memory.
fn joined_scope(
    alloc: Global,
    known: &VariableKinds,
    mine: &VariableKinds,
    others: &VariableKinds,
    outer: &Scopes,
) -> Result<Scopes, Memory>
    requires first { (x : List ℕ) → IsRootKindIf (finite.get mine.now x) }
    requires second { (x : List ℕ) → IsRootKindIf (finite.get others.now x) }
    ensures { IfOk result (λ scopes. IsFirstJoined known.now mine.now others.now outer.now scopes) }
{
    let hidden = mine.joined(alloc, others)?;
    let scopes = open(alloc, known, &hidden, outer)?;
    Ok(scopes)
}

// A scope within others that knows these names, and hides those. `Memory`: want of memory.
pub(crate) fn open(
    alloc: Global,
    known: &VariableKinds,
    hidden: &VariableKinds,
    outer: &Scopes,
) -> Result<Scopes, Memory>
    requires { (x : List ℕ) → IsRootKindIf (finite.get hidden.now x) }
    ensures { IfOk result (λ scopes. scopes ≡ scope_of known.now hidden.now ∷ outer.now) }
{
    let scope = OpenScope {
        known: known.copy()?,
        hidden: hidden.copy()?,
        outer: outer.copy()?,
    };
    Ok(Scopes {
        innermost: Some(Rc::new(alloc, scope)?),
    })
}

// A scope again, which hides a name of this kind, where it knows the name and doesn't hide it yet.
fn hide_in(
    alloc: Global,
    scope: &OpenScope,
    name: &str,
    kind: Option<&Rc<Kind>>,
) -> Result<Scopes, Memory>
    requires kind { IsRootKindIf (option_map (λ kind. kind.now.value) kind) }
    requires hidden { (x : List ℕ) → IsRootKindIf (finite.get scope.now.hidden x) }
    ensures { IfOk result
        (λ scopes. scopes ≡ hiding name.now (option_map (λ kind. kind.now.value) kind.entry)
        (scope_of scope.now.known scope.now.hidden) ∷ scope.now.outer) }
{
    let Some(kind) = kind else {
        return open(alloc, &scope.known, &scope.hidden, &scope.outer);
    };
    if !scope.known.has(name) {
        return open(alloc, &scope.known, &scope.hidden, &scope.outer);
    }
    if scope.hidden.has(name) {
        return open(alloc, &scope.known, &scope.hidden, &scope.outer);
    }
    let hidden = scope.hidden.with(alloc, name, kind)?;
    open(alloc, &scope.known, &hidden, &scope.outer)
}

// Blocks and the names of closures: what opens a scope, ends it, and hides a name in it.
ghost use Rattle.std.specs.Prelude.{◌≡◌, ◌≢◌, [], ℕ, IfOk, List, None, OnErr, OnOk, Some, option_map};
ghost use Rattle.std.specs.FinMap as map;
ghost use Rattle.std.specs.FinSet as set;
ghost use Rattle.vrl_syntax.specs.declared.root.Root.TheVariants.{Name};
ghost use Rattle.vrl_kind.specs.Cut.{IsCut};
ghost use Rattle.vrl_kind.specs.KindTree.{KindTree};
ghost use Rattle.vrl_state.specs.States.{kept, kind_in, knows, with_kind, IsEntered, IsHidden, IsHiding, IsLeft, IsPresent, IsRootKindIf};
ghost use Rattle.vrl_state.specs.View.{names_of, scope_of};

use crate::kinds::cut_copy;
use crate::roots::KnownRoots;
use crate::scopes::{Scopes, open};
use crate::variables::VariableKinds;
use std::alloc::Global;
use vrl_kind::{Kind, kind_is_canonical};
use vrl_value::Memory;

// The version of the variables that are known. `Memory`: want of memory.
fn known_names(known: &Option<KnownRoots>) -> Result<VariableKinds, Memory>
    ensures { IfOk result (λ names. (x : List ℕ) → set.contains (names_of names) x ≡ knows known.now x) }
{
    match known {
        None => Ok(VariableKinds::new()),
        Some(known) => known.names(),
    }
}

// Opens a block. `Memory`: want of memory; the scopes stay as they were.
pub(crate) fn enter(
    alloc: Global,
    known: &Option<KnownRoots>,
    scopes: &mut Scopes,
) -> Result<(), Memory>
    ensures entered { OnOk result (IsEntered (record { known = known.now; scopes = scopes.old })
        (record { known = known.now; scopes = scopes.new })) }
    ensures err { OnErr result (scopes.new ≡ scopes.old) }
{
    let names = known_names(known)?;
    let opened = open(alloc, &names, &VariableKinds::new(), scopes)?;
    *scopes = opened;
    Ok(())
}

// Ends the innermost scope. `Memory`: want of memory; nothing is changed.
pub(crate) fn leave(
    alloc: Global,
    known: &mut Option<KnownRoots>,
    scopes: &mut Scopes,
) -> Result<(), Memory>
    requires { scopes.old ≢ [] }
    ensures left { OnOk result (IsLeft (record { known = known.old; scopes = scopes.old })
        (record { known = known.new; scopes = scopes.new })) }
    ensures known_err { OnErr result (known.new ≡ known.old) }
    ensures scopes_err { OnErr result (scopes.new ≡ scopes.old) }
{
    let Some(scope) = &scopes.innermost else {
        return Ok(());
    };
    let outer = scope.outer.copy()?;
    leave_scope(alloc, known, &scope.known, &scope.hidden)?;
    *scopes = outer;
    Ok(())
}

// Drops the variables that were not known where a scope began, and gives hidden names their kinds
// back. `Memory`: want of memory; what is known stays as it was.
fn leave_scope(
    alloc: Global,
    known: &mut Option<KnownRoots>,
    names: &VariableKinds,
    hidden: &VariableKinds,
) -> Result<(), Memory>
    requires { (x : List ℕ) → IsRootKindIf (map.get hidden.now x) }
    ensures ok { OnOk result (known.new ≡ option_map (kept (scope_of names.now hidden.now)) known.old) }
    ensures err { OnErr result (known.new ≡ known.old) }
{
    match known {
        None => Ok(()),
        Some(known) => known.leave(alloc, names, hidden),
    }
}

// Gives a name the kind of what is bound to it, and hides what was known of it. `Memory`: want of
// memory; nothing is changed.
pub(crate) fn hide(
    alloc: Global,
    known: &mut Option<KnownRoots>,
    scopes: &mut Scopes,
    name: &str,
    new: &Kind,
) -> Result<(), Memory>
    requires entered { scopes.old ≢ [] }
    requires present { IsPresent new.now }
    ensures hidden { OnOk result (IsHidden name.now new.now (record { known = known.old; scopes = scopes.old })
        (record { known = known.new; scopes = scopes.new })) }
    ensures known_err { OnErr result (known.new ≡ known.old) }
    ensures scopes_err { OnErr result (scopes.new ≡ scopes.old) }
{
    let inner = hidden(alloc, known, scopes, name)?;
    bind(alloc, known, name, new)?;
    *scopes = inner;
    Ok(())
}

// The scopes, the innermost of which hides a name that is known. `Memory`: want of memory.
fn hidden(
    alloc: Global,
    known: &Option<KnownRoots>,
    scopes: &Scopes,
    name: &str,
) -> Result<Scopes, Memory>
    ensures { IfOk result (λ hidden. IsHiding name.now (kind_in (Name name.now) known.now) scopes.now hidden) }
{
    match known {
        None => scopes.hiding(alloc, name, None),
        Some(known) => scopes.hiding(alloc, name, known.variable(name)),
    }
}

// Gives a name the kind of what is bound to it, cut, unless the state is dead.
fn bind(alloc: Global, known: &mut Option<KnownRoots>, name: &str, new: &Kind) -> Result<(), Memory>
    requires { IsPresent new.now }
    ensures bound { OnOk result
        ((kind : KindTree) × IsCut new.now kind × (known.new ≡ option_map (with_kind (Name name.now) kind) known.old)) }
    ensures err { OnErr result (known.new ≡ known.old) }
{
    kind_is_canonical(new);
    let kind = cut_copy(alloc, new)?;
    let Some(known) = known else {
        return Ok(());
    };
    known.bind(alloc, name, kind)?;
    Ok(())
}

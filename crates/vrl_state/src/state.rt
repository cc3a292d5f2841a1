ghost use Rattle.std.specs.Prelude.{◌≡◌, ◌≢◌, ◌↔◌, ◌∷◌, [], ℕ, IfOk, IfSome, IsOk, IsTrue, List, None, OnErr, OnOk, Some, option_map};
ghost use Rattle.vrl_value.specs.Tree.{Tree};
ghost use Rattle.vrl_path.specs.Steps.{IsWritable};
ghost use Rattle.vrl_kind.specs.Kinds.{Inhabits};
ghost use Rattle.vrl_syntax.specs.declared.root.Root.TheVariants.{Name};
ghost use Rattle.vrl_state.specs.Known.{known_as, FitsListed, HaveRootKinds, IsReplaced};
ghost use Rattle.vrl_state.specs.States.{kind_in, knows, AreScopesJoined, HasRootKinds, HaveSameScopes, IsEntered, IsFlattened, IsForgotten, IsHidden, IsJoined, IsKnownWithin, IsLeft, IsPresent, IsRootKind, IsStart, IsTakenOut, IsWritten, Scope};
ghost use Rattle.vrl_state.specs.declared.known.Known.TheVariants.{Dead};
ghost use Rattle.vrl_state.specs.Stores.{store_back, with_value, Fits, HidesOf, HoldsNames, IsStoreTakenOut, IsStoreWritten, Store};

use crate::blocks::{enter, hide, leave};
use crate::branch::{Branch, Mark};
use crate::known::Known;
use crate::laws::{
    blocks_keep_fits, flattening_keeps_fits, forgetting_keeps_fits, hiding_keeps_fits,
    joins_keep_fits, joins_keep_scopes, removals_keep_fits, replacing_keeps_fits, starts_fit,
    writes_keep_fits,
};
use crate::roots::KnownRoots;
use crate::scopes::Scopes;
use std::alloc::Global;
use std::marker::Model;
use std::mem;
use std::rc::Rc;
use vrl_kind::Kind;
use vrl_path::Path;
use vrl_syntax::{Root, Roots};
use vrl_value::{Chars, Memory};

/// What is known at a place of a script: the kinds of the event and of the variables, and the
/// blocks that are open there; or that no way leads there, which is a dead state. Each kind is cut,
/// and none allows absent.
pub struct State {
    alloc: Global,
    known: Option<KnownRoots>,
    scopes: Scopes,
}

// Written out, so that a state is let go by one call.
impl Drop for State {
    fn drop(self) {
        let State {
            alloc: _,
            known: _,
            scopes: _,
        } = self;
    }
}

impl Model for State {
    ghost use Rattle.vrl_state.specs.States as states;
    ghost use Rattle.vrl_state.specs.Codes.{state_code};

    ghost Value = { states.State };

    ghost coded = { state_code };

    ghost view = { λ s. record { known = s.known; scopes = s.scopes } };
}

impl State {
    /// The state at the start of a script whose event is of this kind: the kind is cut, no variable
    /// is known, and no block is open. `Memory`: want of memory.
    pub fn start(alloc: Global, event: &Kind) -> Result<State, Memory>
        requires { IsPresent event.now }
        ensures state { IfOk result (λ state. IsStart event.now state) }
        ensures fits { IfOk result (λ state. (store : Store) → Inhabits store.event event.now → Fits store state) }
    {
        starts_fit();
        let known = KnownRoots::start(alloc, event)?;
        Ok(State {
            alloc,
            known: Some(known),
            scopes: Scopes::new(),
        })
    }

    /// The kind of a root. `None`: the state is dead, or does not know the variable. It takes no
    /// memory.
    pub fn kind(&self, root: &Root) -> Option<&Kind>
        ensures kind { option_map (λ kind. kind.now) result ≡ kind_in root.now self.now.known }
        ensures root { IfSome result (λ kind. IsRootKind kind.now) }
    {
        match &self.known {
            None => None,
            Some(known) => match known.kind(root) {
                None => None,
                Some(kind) => Some(kind),
            },
        }
    }

    /// The kind of a root, shared with the state. `None`: the state is dead, or does not know the
    /// variable. `Memory`: want of memory.
    pub fn shared(&self, root: &Root) -> Result<Option<Rc<Kind>>, Memory>
        ensures kind { IfOk result (λ kind. option_map (λ kind. kind.value) kind ≡ kind_in root.now self.now.known) }
        ensures root { IfOk result (λ kind. IfSome kind (λ kind. IsRootKind kind.value)) }
    {
        match &self.known {
            None => Ok(None),
            Some(known) => match known.kind(root) {
                None => Ok(None),
                Some(kind) => Ok(Some(kind.clone()?)),
            },
        }
    }

    /// Whether no way leads here. It takes no memory.
    pub fn is_dead(&self) -> bool
        ensures { IsTrue result ↔ (self.now.known ≡ None) }
    {
        self.known.is_none()
    }

    /// Makes the state dead; the blocks stay open. It takes no memory.
    pub fn kill(&mut self)
        ensures { self.new ≡ record self.old { known = None } }
    {
        self.known = None;
    }

    /// Writes a kind at a path of a root, which then has the kind of what stands there, cut. A
    /// variable that is not known may hold any value, from a way that a join dropped, so a write to
    /// it starts from `any`. A whole root shares the kind with whoever has it, and the event's kind
    /// is changed in its place where nobody else does. `Memory`: want of memory; the state stays as
    /// it was.
    pub fn assign(&mut self, root: &Root, path: &Path, new: &Rc<Kind>) -> Result<(), Memory>
        requires writable { IsWritable path.now }
        requires present { IsPresent new.now.value }
        ensures written { OnOk result (IsWritten root.now path.now new.now.value self.old.known self.new.known) }
        ensures scopes { self.new.scopes ≡ self.old.scopes }
        ensures fits { OnOk result
            ((value : Tree) (before after : Store) → Fits before self.old → Inhabits value new.now.value
            → IsStoreWritten root.now path.now value before after → Fits after self.new) }
        ensures err { OnErr result (self.new ≡ self.old) }
    {
        writes_keep_fits();
        assign(self.alloc, &mut self.known, root, path, new)?;
        Ok(())
    }

    /// Takes out what stands at a path of a root, whose kind is then cut; a root that is not known
    /// is passed over. `Memory`: want of memory; the state stays as it was.
    pub fn remove(&mut self, root: &Root, path: &Path) -> Result<(), Memory>
        ensures removed { OnOk result (IsTakenOut root.now path.now self.old.known self.new.known) }
        ensures scopes { self.new.scopes ≡ self.old.scopes }
        ensures fits { OnOk result ((before after : Store) → Fits before self.old
            → IsStoreTakenOut root.now path.now before after → Fits after self.new) }
        ensures err { OnErr result (self.new ≡ self.old) }
    {
        removals_keep_fits();
        remove(self.alloc, &mut self.known, root, path)?;
        Ok(())
    }

    /// Gives each of these roots that is known its outer tags alone, with every value inside its
    /// arrays and objects; roots that are not known are passed over. `Memory`: want of memory; the
    /// state stays as it was.
    pub fn flatten(&mut self, roots: &Roots) -> Result<(), Memory>
        ensures flat { OnOk result (IsFlattened roots.now self.old.known self.new.known) }
        ensures scopes { self.new.scopes ≡ self.old.scopes }
        ensures fits { OnOk result ((store : Store) → Fits store self.old → Fits store self.new) }
        ensures err { OnErr result (self.new ≡ self.old) }
    {
        flattening_keeps_fits();
        flatten(self.alloc, &mut self.known, roots.as_slice())?;
        Ok(())
    }

    /// Gives each of these roots that is known the kind of every value; roots that are not known
    /// are passed over. `Memory`: want of memory; the state stays as it was.
    pub fn forget(&mut self, roots: &Roots) -> Result<(), Memory>
        ensures forgotten { OnOk result (IsForgotten roots.now self.old.known self.new.known) }
        ensures scopes { self.new.scopes ≡ self.old.scopes }
        ensures fits { OnOk result ((store : Store) → Fits store self.old → Fits store self.new) }
        ensures err { OnErr result (self.new ≡ self.old) }
    {
        forgetting_keeps_fits();
        forget(self.alloc, &mut self.known, roots.as_slice())?;
        Ok(())
    }

    /// Gives a closure's name its kind, cut, in the innermost scope, which hides what was known of
    /// a variable of that name. `Memory`: want of memory; the state stays as it was.
    pub fn hide(&mut self, name: &Chars, new: &Kind) -> Result<(), Memory>
        requires entered { self.old.scopes ≢ [] }
        requires present { IsPresent new.now }
        ensures hidden { OnOk result (IsHidden name.now new.now self.old self.new) }
        ensures fits { OnOk result ((value : Tree) (store : Store) → Fits store self.old → Inhabits value new.now
            → Fits (with_value (Name name.now) value store) self.new) }
        ensures err { OnErr result (self.new ≡ self.old) }
    {
        hiding_keeps_fits();
        let name = name.as_str();
        hide(self.alloc, &mut self.known, &mut self.scopes, name, new)?;
        Ok(())
    }

    /// Joins a branch to the state: what is known on either way. Kinds are joined and cut, those of
    /// hidden names too, a variable that only one of them knows is dropped, and a dead side gives
    /// the other. `Memory`: want of memory; the state stays as it was.
    pub fn join(&mut self, other: &Branch) -> Result<(), Memory>
        requires { HaveSameScopes self.old other.now }
        ensures known { OnOk result (IsJoined self.old.known other.now.known self.new.known) }
        ensures hidden { OnOk result
            (AreScopesJoined self.old.known other.now.known self.old.scopes other.now.scopes self.new.scopes) }
        ensures scopes { self.old.scopes ≡ other.now.scopes → self.new.scopes ≡ self.old.scopes }
        ensures first { OnOk result ((store : Store) → Fits store self.old → Fits store self.new) }
        ensures second { OnOk result ((store : Store) → Fits store other.now → Fits store self.new) }
        ensures err { OnErr result (self.new ≡ self.old) }
    {
        joins_keep_fits();
        joins_keep_scopes();
        self.scopes.hide_root_kinds();
        let known = joined(self.alloc, &self.known, &other.state.known)?;
        let scopes = joined_scopes(self.alloc, self, &other.state)?;
        self.known = known;
        self.scopes = scopes;
        Ok(())
    }

    /// Takes over what a list tells: the state becomes dead, or knows the roots that are listed,
    /// each with its kind, cut, and no others. The blocks stay open. A dead one takes no memory.
    /// `Memory`: want of memory; the state stays as it was.
    pub fn replace(&mut self, known: &Known) -> Result<(), Memory>
        ensures replaced { OnOk result (IsReplaced known.now self.new.known) }
        ensures scopes { self.new.scopes ≡ self.old.scopes }
        ensures fits { OnOk result ((store : Store) → FitsListed store known.now → Fits store self.new) }
        ensures dead { known.now ≡ Dead → IsOk result }
        ensures err { OnErr result (self.new ≡ self.old) }
    {
        replacing_keeps_fits();
        let roots = listed(self.alloc, known)?;
        self.known = roots;
        Ok(())
    }

    /// Opens a block. `Memory`: want of memory; the state stays as it was.
    pub fn enter(&mut self) -> Result<(), Memory>
        ensures entered { OnOk result (IsEntered self.old self.new) }
        ensures fits { (store : Store) → Fits store self.old → Fits store self.new }
        ensures err { OnErr result (self.new ≡ self.old) }
    {
        enter(self.alloc, &self.known, &mut self.scopes)
    }

    /// Ends the innermost scope: the variables that were not known where it began are dropped, and
    /// hidden names have their kinds back. `Memory`: want of memory; the state stays as it was.
    pub fn leave(&mut self) -> Result<(), Memory>
        requires { self.old.scopes ≢ [] }
        ensures left { OnOk result (IsLeft self.old self.new) }
        ensures fits { OnOk result
            ((scope : Scope) (names : List (List ℕ)) (before after : Store) → self.old.scopes ≡ scope ∷ self.new.scopes
            → HidesOf scope names → HoldsNames before scope → Fits after self.old
            → Fits (store_back names before after) self.new) }
        ensures err { OnErr result (self.new ≡ self.old) }
    {
        blocks_keep_fits();
        leave(self.alloc, &mut self.known, &mut self.scopes)?;
        Ok(())
    }

    /// A copy of the state, to come back to. `Memory`: want of memory.
    pub fn mark(&mut self) -> Result<Mark, Memory>
        ensures mark { IfOk result (λ mark. mark ≡ self.old) }
        ensures state { self.new ≡ self.old }
    {
        Ok(Mark {
            state: self.copy()?,
        })
    }

    /// Goes back to a state that was marked, with its blocks, and gives the state that was left. It
    /// takes no memory.
    pub fn back(&mut self, mark: Mark) -> Branch
        ensures state { self.new ≡ mark }
        ensures branch { result ≡ self.old }
    {
        Branch {
            state: mem::replace(self, mark.state),
        }
    }

    /// Whether the state knows each root that a branch knows, with a kind within that one's; a dead
    /// state is within each. It takes no memory.
    pub fn within(&self, other: &Branch) -> bool
        requires { HaveSameScopes self.now other.now }
        ensures { IsTrue result ↔ IsKnownWithin self.now.known other.now.known }
    {
        known_within(&self.known, &other.state.known)
    }

    /// Each kind that is known is one of a root. It takes no memory and no time: it is a law of the
    /// type.
    pub fn have_root_kinds(&self)
        ensures { IfSome self.now.known HasRootKinds }
    {
        match &self.known {
            None => {}
            Some(known) => known.have_root_kinds(),
        }
    }

    // The state again, shared. `Memory`: want of memory.
    fn copy(&self) -> Result<State, Memory>
        ensures { IfOk result (λ copy. copy ≡ self.now) }
    {
        Ok(State {
            alloc: self.alloc,
            known: copy_known(&self.known)?,
            scopes: self.scopes.copy()?,
        })
    }

    // What is known, as a list. `Memory`: want of memory.
    pub(crate) fn list(&self) -> Result<Known, Memory>
        ensures known { IfOk result (λ known. known ≡ known_as self.now.known) }
        ensures kinds { IfOk result HaveRootKinds }
    {
        match &self.known {
            None => Ok(Known::Dead),
            Some(known) => {
                known.have_root_kinds();
                Ok(Known::Alive(known.list(self.alloc)?))
            }
        }
    }
}

// Writes a kind at a path, unless the state is dead.
fn assign(
    alloc: Global,
    known: &mut Option<KnownRoots>,
    root: &Root,
    path: &Path,
    new: &Rc<Kind>,
) -> Result<(), Memory>
    requires writable { IsWritable path.now }
    requires present { IsPresent new.now.value }
    ensures written { OnOk result (IsWritten root.now path.now new.now.value known.old known.new) }
    ensures err { OnErr result (known.new ≡ known.old) }
{
    let Some(known) = known else {
        return Ok(());
    };
    known.assign(alloc, root, path, new)?;
    Ok(())
}

// Takes out what stands at a path, unless the state is dead.
fn remove(
    alloc: Global,
    known: &mut Option<KnownRoots>,
    root: &Root,
    path: &Path,
) -> Result<(), Memory>
    ensures removed { OnOk result (IsTakenOut root.now path.now known.old known.new) }
    ensures err { OnErr result (known.new ≡ known.old) }
{
    let Some(known) = known else {
        return Ok(());
    };
    known.remove(alloc, root, path)?;
    Ok(())
}

// What is known on either way; a dead side gives the other. `Memory`: want of memory.
fn joined(
    alloc: Global,
    a: &Option<KnownRoots>,
    b: &Option<KnownRoots>,
) -> Result<Option<KnownRoots>, Memory>
    ensures { IfOk result (λ joined. IsJoined a.now b.now joined) }
{
    match (a, b) {
        (None, _) => copy_known(b),
        (Some(_), None) => copy_known(a),
        (Some(a), Some(b)) => Ok(Some(a.joined(alloc, b)?)),
    }
}

fn known_within(a: &Option<KnownRoots>, b: &Option<KnownRoots>) -> bool
    ensures { IsTrue result ↔ IsKnownWithin a.now b.now }
{
    match (a, b) {
        (None, _) => true,
        (Some(_), None) => false,
        (Some(a), Some(b)) => a.within(b),
    }
}

fn copy_known(known: &Option<KnownRoots>) -> Result<Option<KnownRoots>, Memory>
    ensures { IfOk result (λ copy. copy ≡ known.now) }
{
    match known {
        None => Ok(None),
        Some(known) => Ok(Some(known.copy()?)),
    }
}

// What a list tells, each kind cut. `Memory`: want of memory, and a dead one takes none.
fn listed(alloc: Global, known: &Known) -> Result<Option<KnownRoots>, Memory>
    ensures replaced { IfOk result (λ after. IsReplaced known.now after) }
    ensures dead { known.now ≡ Dead → IsOk result }
{
    match known {
        Known::Dead => Ok(None),
        Known::Alive(list) => Ok(Some(KnownRoots::listed(alloc, list)?)),
    }
}

// The scopes of what is known on either way; a dead side gives the other's. `Memory`: want of
// memory.
fn joined_scopes(alloc: Global, a: &State, b: &State) -> Result<Scopes, Memory>
    requires { HaveSameScopes a.now b.now }
    ensures { IfOk result (λ scopes. AreScopesJoined a.now.known b.now.known a.now.scopes b.now.scopes scopes) }
{
    match (&a.known, &b.known) {
        (None, _) => b.scopes.copy(),
        (Some(_), None) => a.scopes.copy(),
        (Some(_), Some(_)) => a.scopes.joined(alloc, &b.scopes),
    }
}

// Flattens roots, unless the state is dead.
fn flatten(alloc: Global, known: &mut Option<KnownRoots>, roots: &[Root]) -> Result<(), Memory>
    ensures flat { OnOk result (IsFlattened roots.now known.old known.new) }
    ensures err { OnErr result (known.new ≡ known.old) }
{
    let Some(known) = known else {
        return Ok(());
    };
    let flat = known.flattened_at(alloc, roots)?;
    *known = flat;
    Ok(())
}

// Forgets roots, unless the state is dead.
fn forget(alloc: Global, known: &mut Option<KnownRoots>, roots: &[Root]) -> Result<(), Memory>
    ensures forgotten { OnOk result (IsForgotten roots.now known.old known.new) }
    ensures err { OnErr result (known.new ≡ known.old) }
{
    let Some(known) = known else {
        return Ok(());
    };
    let left = known.forgotten_at(alloc, roots)?;
    *known = left;
    Ok(())
}

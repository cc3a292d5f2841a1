ghost use Rattle.std.specs.Prelude.{◌≡◌, ◌↔◌, [], IfOk, IfSome, IsTrue, OnErr, OnOk, Some, option_map, List, ℕ};
ghost use Rattle.std.specs.FinMap as map;
ghost use Rattle.vrl_path.specs.Steps.{IsWritable};
ghost use Rattle.vrl_syntax.specs.declared.root.Root.TheVariants.{Event, Name};
ghost use Rattle.vrl_kind.specs.Canonical.{any_kind};
ghost use Rattle.vrl_kind.specs.Cut.{flat, IsCut};
ghost use Rattle.vrl_kind.specs.KindTree.{KindTree};
ghost use Rattle.vrl_state.specs.Known.{root_kinds, AreTakenOver};
ghost use Rattle.vrl_state.specs.Merging.{IsTurnedAt};
ghost use Rattle.vrl_state.specs.States.{kept, kind_of, with_kind, written_from, HasRootKinds, IsEitherMap, IsFlattened, IsForgotten, IsMapWithin, IsPresent, IsRootKind, IsRootKindIf, IsTakenOut, IsWritten, IsWrittenKind};
ghost use Rattle.vrl_state.specs.View.{scope_of};

use crate::kinds::{
    any, cut_copy, flattened, shared_either, take_out_shared, taken_out, whole, within,
    write_shared, written,
};
use crate::known::{RootKind, RootKinds};
use crate::variables::VariableKinds;
use std::alloc::Global;
use std::marker::Model;
use std::rc::Rc;
use vrl_kind::{Kind, kind_is_canonical};
use vrl_path::Path;
use vrl_syntax::Root;
use vrl_value::Memory;

/// The kinds of the event and of the variables that are known.
pub(crate) struct KnownRoots {
    event: Rc<Kind>,
    variables: VariableKinds,
}

// Written out, so that the kinds are let go by one call.
impl Drop for KnownRoots {
    fn drop(self) {
        let KnownRoots {
            event: _,
            variables: _,
        } = self;
    }
}

impl Model for KnownRoots {
    ghost use Rattle.vrl_state.specs.States.{HasRootKinds, RootMap};
    ghost use Rattle.vrl_state.specs.Codes.{root_map_code};

    ghost Value = { RootMap };

    ghost coded = { root_map_code };

    ghost view = { λ r. record { event = r.event.value; variables = r.variables } };

    ghost invariant = { λ r. HasRootKinds (record { event = r.event.value; variables = r.variables }) };
}

impl KnownRoots {
    // An event of this kind, and no variable. `Memory`: want of memory.
    pub(crate) fn start(alloc: Global, event: &Kind) -> Result<KnownRoots, Memory>
        requires { IsPresent event.now }
        ensures event { IfOk result (λ roots. IsCut event.now roots.event) }
        ensures variables { IfOk result (λ roots. roots.variables ≡ map.empty) }
    {
        kind_is_canonical(event);
        let event = cut_copy(alloc, event)?;
        Ok(KnownRoots {
            event,
            variables: VariableKinds::new(),
        })
    }

    // The roots that are listed, each with its kind, cut. `Memory`: want of memory.
    pub(crate) fn listed(alloc: Global, list: &RootKinds) -> Result<KnownRoots, Memory>
        ensures { IfOk result (λ roots. AreTakenOver list.now roots) }
    {
        list.are_listed();
        let (event, variables) = list.parts();
        let mut known = KnownRoots::start(alloc, event)?;
        for variable in variables {
            known.set(alloc, variable)?;
        }
        Ok(known)
    }

    // Gives a root the kind that it is listed with, cut. `Memory`: want of memory.
    fn set(&mut self, alloc: Global, listed: &RootKind) -> Result<(), Memory>
        requires { IsPresent listed.now.kind }
        ensures { OnOk result ((kind : KindTree) × IsCut listed.now.kind kind
            × (self.new ≡ with_kind listed.now.root kind self.old)) }
    {
        kind_is_canonical(&listed.kind);
        let kind = cut_copy(alloc, &listed.kind)?;
        self.put(alloc, &listed.root, kind)?;
        Ok(())
    }

    // The kind of a root, shared. `None`: the variable is not known.
    pub(crate) fn kind(&self, root: &Root) -> Option<&Rc<Kind>>
        ensures kind { option_map (λ kind. kind.now.value) result ≡ kind_of root.now self.now }
        ensures root { IfSome result (λ kind. IsRootKind kind.now.value) }
    {
        match root {
            Root::Event => Some(&self.event),
            Root::Name(name) => self.variables.get(name.as_str()),
        }
    }

    // The kind of the variable of a name, shared. `None`: it is not known.
    pub(crate) fn variable(&self, name: &str) -> Option<&Rc<Kind>>
        ensures kind { option_map (λ kind. kind.now.value) result ≡ map.get self.now.variables name.now }
        ensures root { IfSome result (λ kind. IsRootKind kind.now.value) }
    {
        self.variables.get(name)
    }

    // Gives a root this kind. `Memory`: want of memory; the kinds stay as they were.
    fn put(&mut self, alloc: Global, root: &Root, kind: Rc<Kind>) -> Result<(), Memory>
        requires { IsRootKind kind.value }
        ensures ok { OnOk result (self.new ≡ with_kind root.now kind.value self.old) }
        ensures err { OnErr result (self.new ≡ self.old) }
    {
        match root {
            Root::Event => {
                self.event = kind;
                Ok(())
            }
            Root::Name(name) => {
                self.variables.insert(alloc, name.as_str(), kind)?;
                Ok(())
            }
        }
    }

    // The kind of a root with another written at a path. `Memory`: want of memory.
    fn written(
        &self,
        alloc: Global,
        root: &Root,
        path: &Path,
        new: &Kind,
    ) -> Result<Rc<Kind>, Memory>
        requires { IsWritable path.now }
        ensures { IfOk result
            (λ after. IsWrittenKind (written_from (kind_of root.now self.now)) path.now new.now after.value) }
    {
        match self.kind(root) {
            Some(kind) => written(alloc, kind, path, new),
            None => written(alloc, &any(alloc)?, path, new),
        }
    }

    // Writes a kind at a path. `Memory`: want of memory; the kinds stay as they were.
    pub(crate) fn assign(
        &mut self,
        alloc: Global,
        root: &Root,
        path: &Path,
        new: &Rc<Kind>,
    ) -> Result<(), Memory>
        requires writable { IsWritable path.now }
        requires present { IsPresent new.now.value }
        ensures ok { OnOk result (IsWritten root.now path.now new.now.value (Some self.old) (Some self.new)) }
        ensures err { OnErr result (self.new ≡ self.old) }
    {
        if path.as_slice().is_empty() {
            return self.assign_whole(alloc, root, new);
        }
        match root {
            Root::Event => self.assign_event(alloc, path, new),
            Root::Name(_name) => self.assign_variable(alloc, root, path, new),
        }
    }

    // The same of a whole root, whose kind is then shared with whoever has it.
    fn assign_whole(&mut self, alloc: Global, root: &Root, new: &Rc<Kind>) -> Result<(), Memory>
        requires { IsPresent new.now.value }
        ensures ok { OnOk result (IsWritten root.now [] new.now.value (Some self.old) (Some self.new)) }
        ensures err { OnErr result (self.new ≡ self.old) }
    {
        let kind = whole(alloc, new)?;
        self.put(alloc, root, kind)?;
        Ok(())
    }

    // The same of the event, whose kind is changed in its place where nobody else has it.
    fn assign_event(&mut self, alloc: Global, path: &Path, new: &Kind) -> Result<(), Memory>
        requires writable { IsWritable path.now }
        requires present { IsPresent new.now }
        ensures ok { OnOk result (IsWritten Event path.now new.now (Some self.old) (Some self.new)) }
        ensures err { OnErr result (self.new ≡ self.old) }
    {
        write_shared(alloc, &mut self.event, path, new)?;
        Ok(())
    }

    // The same of any root, whose kind is made anew.
    fn assign_variable(
        &mut self,
        alloc: Global,
        root: &Root,
        path: &Path,
        new: &Kind,
    ) -> Result<(), Memory>
        requires writable { IsWritable path.now }
        requires present { IsPresent new.now }
        ensures ok { OnOk result (IsWritten root.now path.now new.now (Some self.old) (Some self.new)) }
        ensures err { OnErr result (self.new ≡ self.old) }
    {
        let kind = self.written(alloc, root, path, new)?;
        self.put(alloc, root, kind)?;
        Ok(())
    }

    // Takes out what stands at a path; a root that is not known is passed over. `Memory`: want of
    // memory; the kinds stay as they were.
    pub(crate) fn remove(&mut self, alloc: Global, root: &Root, path: &Path) -> Result<(), Memory>
        ensures ok { OnOk result (IsTakenOut root.now path.now (Some self.old) (Some self.new)) }
        ensures err { OnErr result (self.new ≡ self.old) }
    {
        match root {
            Root::Event => self.remove_of_event(alloc, path),
            Root::Name(_name) => self.remove_of_variable(alloc, root, path),
        }
    }

    // The same of the event, whose kind is changed in its place where nobody else has it.
    fn remove_of_event(&mut self, alloc: Global, path: &Path) -> Result<(), Memory>
        ensures ok { OnOk result (IsTakenOut Event path.now (Some self.old) (Some self.new)) }
        ensures err { OnErr result (self.new ≡ self.old) }
    {
        take_out_shared(alloc, &mut self.event, path)?;
        Ok(())
    }

    // The same of any root, whose kind is made anew.
    fn remove_of_variable(&mut self, alloc: Global, root: &Root, path: &Path) -> Result<(), Memory>
        ensures ok { OnOk result (IsTakenOut root.now path.now (Some self.old) (Some self.new)) }
        ensures err { OnErr result (self.new ≡ self.old) }
    {
        match self.kind(root) {
            None => Ok(()),
            Some(kind) => {
                let left = taken_out(alloc, kind, path)?;
                self.put(alloc, root, left)?;
                Ok(())
            }
        }
    }

    // The same roots and kinds again, shared. `Memory`: want of memory.
    pub(crate) fn copy(&self) -> Result<KnownRoots, Memory>
        ensures { IfOk result (λ copy. copy ≡ self.now) }
    {
        Ok(KnownRoots {
            event: self.event.clone()?,
            variables: self.variables.copy()?,
        })
    }

    // What is known on either way. `Memory`: want of memory.
    pub(crate) fn joined(&self, alloc: Global, other: &KnownRoots) -> Result<KnownRoots, Memory>
        ensures { IfOk result (λ joined. IsEitherMap self.now other.now joined) }
    {
        let event = shared_either(alloc, &self.event, &other.event)?;
        let variables = self.variables.joined(alloc, &other.variables)?;
        Ok(KnownRoots { event, variables })
    }

    // Whether these know each root that the others do, with a kind within theirs.
    pub(crate) fn within(&self, other: &KnownRoots) -> bool
        ensures { IsTrue result ↔ IsMapWithin self.now other.now }
    {
        if !within(&self.event, &other.event) {
            return false;
        }
        self.variables.within(&other.variables)
    }

    // Drops the variables that were not known where a scope began, and gives the names that it
    // hides their kinds back. `Memory`: want of memory; the kinds stay as they were.
    pub(crate) fn leave(
        &mut self,
        alloc: Global,
        names: &VariableKinds,
        hidden: &VariableKinds,
    ) -> Result<(), Memory>
        requires { (x : List ℕ) → IsRootKindIf (map.get hidden.now x) }
        ensures ok { OnOk result (self.new ≡ kept (scope_of names.now hidden.now) self.old) }
        ensures err { OnErr result (self.new ≡ self.old) }
    {
        let kept = self.variables.kept(alloc, names)?;
        let variables = kept.with_all(alloc, hidden)?;
        self.variables = variables;
        Ok(())
    }

    // The version of the variables. `Memory`: want of memory.
    pub(crate) fn names(&self) -> Result<VariableKinds, Memory>
        ensures { IfOk result (λ names. names ≡ self.now.variables) }
    {
        self.variables.copy()
    }

    // These, where each of the roots that is known has its outer tags alone, with every value
    // inside. `Memory`: want of memory.
    pub(crate) fn flattened_at(&self, alloc: Global, roots: &[Root]) -> Result<KnownRoots, Memory>
        ensures { IfOk result (λ turned. IsFlattened roots.now (Some self.now) (Some turned)) }
    {
        let mut turned = self.copy()?;
        for root in roots {
            turned.flatten(alloc, root)?;
        }
        Ok(turned)
    }

    // The same of one root, in place.
    fn flatten(&mut self, alloc: Global, root: &Root) -> Result<(), Memory>
        ensures { OnOk result (IsTurnedAt flat root.now self.old self.new) }
    {
        match self.kind(root) {
            None => Ok(()),
            Some(kind) => {
                let outer = flattened(alloc, kind)?;
                self.put(alloc, root, outer)?;
                Ok(())
            }
        }
    }

    // These, where each of the roots that is known has the kind of every value. `Memory`: want of
    // memory.
    pub(crate) fn forgotten_at(&self, alloc: Global, roots: &[Root]) -> Result<KnownRoots, Memory>
        ensures { IfOk result (λ left. IsForgotten roots.now (Some self.now) (Some left)) }
    {
        let mut left = self.copy()?;
        for root in roots {
            left.forget(alloc, root)?;
        }
        Ok(left)
    }

    // The same of one root, in place.
    fn forget(&mut self, alloc: Global, root: &Root) -> Result<(), Memory>
        ensures { OnOk result (IsTurnedAt (λ K. any_kind) root.now self.old self.new) }
    {
        match self.kind(root) {
            None => Ok(()),
            Some(_kind) => {
                let every = any(alloc)?;
                self.put(alloc, root, every)?;
                Ok(())
            }
        }
    }

    // Gives a name the kind of what is bound to it. `Memory`: want of memory; the kinds stay as
    // they were.
    pub(crate) fn bind(&mut self, alloc: Global, name: &str, kind: Rc<Kind>) -> Result<(), Memory>
        requires { IsRootKind kind.value }
        ensures ok { OnOk result (self.new ≡ with_kind (Name name.now) kind.value self.old) }
        ensures err { OnErr result (self.new ≡ self.old) }
    {
        self.variables.insert(alloc, name, kind)?;
        Ok(())
    }

    // Each kind is one of a root. This changes nothing: it is a law of the type.
    pub(crate) fn have_root_kinds(&self)
        ensures { HasRootKinds self.now }
    {
        let _event = &self.event;
    }

    // The event and its kind, then each variable with its kind, by the bytes of the names.
    // `Memory`: want of memory.
    pub(crate) fn list(&self, alloc: Global) -> Result<RootKinds, Memory>
        ensures { IfOk result (λ list. list ≡ root_kinds self.now) }
    {
        self.have_root_kinds();
        let mut roots = Vec::new(alloc);
        roots.push(RootKind {
            root: Root::Event,
            kind: self.event.copy(alloc)?,
        })?;
        self.variables.add_to(alloc, &mut roots)?;
        Ok(RootKinds::new(roots))
    }
}

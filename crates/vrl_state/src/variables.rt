ghost use Rattle.std.specs.Prelude.{◌≡◌, ◌++◌, ◌↔◌, ℕ, IfOk, IsTrue, List, OnErr, OnOk, option_map};
ghost use Rattle.std.specs.FinMap as map;
ghost use Rattle.std.specs.FinSet as set;
ghost use Rattle.vrl_state.specs.Known.{variable_kinds};
ghost use Rattle.vrl_state.specs.States.{kinds_back, IsEitherVariable, IsRootKindIf, IsVariableWithin};
ghost use Rattle.vrl_state.specs.View.{names_of};

use crate::known::RootKind;
use crate::tree::{Entry, NameTree};
use std::alloc::Global;
use std::marker::Model;
use std::rc::Rc;
use vrl_kind::Kind;
use vrl_value::Memory;

/// The kinds of the variables that are known, by their names: a version of the tree.
pub(crate) struct VariableKinds {
    tree: NameTree,
}

// Written out, so that the kinds are let go by one call.
impl Drop for VariableKinds {
    fn drop(self) {
        let VariableKinds { tree: _ } = self;
    }
}

impl Model for VariableKinds {
    ghost use Rattle.vrl_state.specs.States.{Variables};
    ghost use Rattle.vrl_state.specs.Codes.{variables_code};

    ghost Value = { Variables };

    ghost coded = { variables_code };

    ghost use Rattle.vrl_state.specs.Ordered.{IsSorted};
    ghost use Rattle.vrl_state.specs.View.{variables_of};

    ghost view = { λ v. variables_of v.tree.entries };

    ghost invariant = { λ v. IsSorted v.tree.entries };
}

impl VariableKinds {
    // No variable.
    pub(crate) fn new() -> VariableKinds
        ensures { result ≡ map.empty }
    {
        let tree = NameTree::new();
        tree.names_rise();
        VariableKinds { tree }
    }

    // The kind of the variable of a name, shared. `None`: it is not known.
    pub(crate) fn get(&self, name: &str) -> Option<&Rc<Kind>>
        ensures { option_map (λ kind. kind.now.value) result ≡ map.get self.now name.now }
    {
        self.tree.get(name)
    }

    // Whether the variable of a name is known.
    pub(crate) fn has(&self, name: &str) -> bool
        ensures { result ≡ map.contains_key self.now name.now }
    {
        self.get(name).is_some()
    }

    // Gives the variable of a name this kind. `Memory`: want of memory; the kinds stay as they
    // were.
    pub(crate) fn insert(&mut self, alloc: Global, name: &str, kind: Rc<Kind>) -> Result<(), Memory>
        ensures ok { OnOk result (self.new ≡ map.insert self.old name.now kind.value) }
        ensures err { OnErr result (self.new ≡ self.old) }
    {
        let name = Rc::new(alloc, String::from_str(alloc, name)?)?;
        let tree = self.tree.put(alloc, &Entry { name, kind })?;
        tree.names_rise();
        self.tree = tree;
        Ok(())
    }

    // These, where the variable of a name has this kind. `Memory`: want of memory.
    pub(crate) fn with(
        &self,
        alloc: Global,
        name: &str,
        kind: &Rc<Kind>,
    ) -> Result<VariableKinds, Memory>
        ensures { IfOk result (λ kinds. kinds ≡ map.insert self.now name.now kind.now.value) }
    {
        let mut kinds = self.copy()?;
        kinds.insert(alloc, name, kind.clone()?)?;
        Ok(kinds)
    }

    // The version again, shared. `Memory`: want of memory.
    pub(crate) fn copy(&self) -> Result<VariableKinds, Memory>
        ensures { IfOk result (λ copy. copy ≡ self.now) }
    {
        let tree = self.tree.copy()?;
        tree.names_rise();
        Ok(VariableKinds { tree })
    }

    // The variables that both sides know, each with the kind of either side. `Memory`: want of
    // memory.
    pub(crate) fn joined(
        &self,
        alloc: Global,
        other: &VariableKinds,
    ) -> Result<VariableKinds, Memory>
        requires first { (x : List ℕ) → IsRootKindIf (map.get self.now x) }
        requires second { (x : List ℕ) → IsRootKindIf (map.get other.now x) }
        ensures { IfOk result
            (λ joined. (x : List ℕ) → IsEitherVariable (map.get self.now x) (map.get other.now x) (map.get joined x)) }
    {
        let mut tree = self.tree.copy()?;
        self.tree.join_into(alloc, &other.tree, &mut tree)?;
        tree.names_rise();
        Ok(VariableKinds { tree })
    }

    // Whether these know each variable that the others do, with a kind within theirs.
    pub(crate) fn within(&self, other: &VariableKinds) -> bool
        ensures { IsTrue result ↔ ((x : List ℕ) → IsVariableWithin (map.get self.now x) (map.get other.now x)) }
    {
        other.tree.is_over(&self.tree)
    }

    // The variables that are among others by name. `Memory`: want of memory.
    pub(crate) fn kept(&self, alloc: Global, names: &VariableKinds) -> Result<VariableKinds, Memory>
        ensures { IfOk result (λ kept. kept ≡ map.retain_keys self.now (λ x. set.contains (names_of names.now) x)) }
    {
        let mut tree = self.tree.copy()?;
        self.tree.keep_into(alloc, &names.tree, &mut tree)?;
        tree.names_rise();
        Ok(VariableKinds { tree })
    }

    // These, with each of others in place of what is known of its name. `Memory`: want of memory.
    pub(crate) fn with_all(
        &self,
        alloc: Global,
        others: &VariableKinds,
    ) -> Result<VariableKinds, Memory>
        ensures { IfOk result (λ all. all ≡ kinds_back (map.entries others.now) self.now) }
    {
        let mut tree = self.tree.copy()?;
        others.tree.put_into(alloc, &mut tree)?;
        tree.names_rise();
        Ok(VariableKinds { tree })
    }

    // Puts each variable with a copy of its kind behind others, by the bytes of the names.
    // `Memory`: want of memory.
    pub(crate) fn add_to(&self, alloc: Global, roots: &mut Vec<RootKind>) -> Result<(), Memory>
        ensures { OnOk result (roots.new.items ≡ roots.old.items ++ variable_kinds self.now) }
    {
        self.tree.add_to(alloc, roots)?;
        Ok(())
    }
}

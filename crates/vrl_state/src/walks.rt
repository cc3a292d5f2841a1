// Walks over the entries of a version.
ghost use Rattle.std.specs.Prelude.{◌≡◌, ◌++◌, ◌∷◌, ◌↔◌, [], ℕ, IsTrue, List, OnOk, Some, is_some, map, option_map};
ghost use Rattle.vrl_state.specs.EntryView.{entry_of};
ghost use Rattle.vrl_state.specs.Known.{variable_kind};
ghost use Rattle.std.specs.declared.cmp.Ordering.TheVariants.{Less, Greater};
ghost use Rattle.vrl_state.specs.Merging.{IsBeside, IsJoinedAt, IsJoinedPart, IsKeptAt, IsKeptPart, IsPartOf, puts};
ghost use Rattle.vrl_state.specs.Ordered.{found, put_entry, without_name};
ghost use Rattle.vrl_state.specs.States.{IsRootKind, IsRootKindIf, IsVariableWithin};

use crate::kinds::{other_either, within};
use crate::known::RootKind;
use crate::tree::{Entry, NameTree};
use std::alloc::Global;
use std::rc::Rc;
use vrl_kind::Kind;
use vrl_syntax::Root;
use vrl_value::{Chars, Memory};

// What a version has at a name, and where it has what stands on both sides of that name.
#[derive(Clone, Copy)]
struct Around<'a> {
    // Where the names before it are found.
    before: &'a NameTree,
    // Its kind. `None`: it isn't there.
    kind: Option<&'a Rc<Kind>>,
    // Where the names behind it are found.
    behind: &'a NameTree,
}

impl NameTree {
    // Puts each name with a copy of its kind behind others, by the bytes of the names. `Memory`:
    // want of memory.
    pub(crate) fn add_to(&self, alloc: Global, roots: &mut Vec<RootKind>) -> Result<(), Memory>
        ensures { OnOk result (roots.new.items ≡ roots.old.items ++ map variable_kind self.now.entries) }
    {
        let Some(node) = &self.node else {
            return Ok(());
        };
        node.left.add_to(alloc, roots)?;
        add_root(alloc, &node.entry, roots)?;
        node.right.add_to(alloc, roots)?;
        Ok(())
    }

    // Whether others know each name of these, with a kind within the one here.
    pub(crate) fn is_over(&self, others: &NameTree) -> bool
        ensures { IsTrue result ↔
            ((x : List ℕ) → IsVariableWithin (found x others.now.entries) (found x self.now.entries)) }
    {
        let Some(node) = &self.node else {
            return true;
        };
        let near = others.around(node.entry.name.as_str());
        if !is_known_within(near.kind, &node.entry.kind) {
            return false;
        }
        if !node.left.is_over(near.before) {
            return false;
        }
        node.right.is_over(near.behind)
    }

    // Joins a part of a version to others. `joined` begins as the whole version. `Memory`: want of
    // memory.
    pub(crate) fn join_into(
        &self,
        alloc: Global,
        others: &NameTree,
        joined: &mut NameTree,
    ) -> Result<(), Memory>
        requires kinds { (x : List ℕ) → IsRootKindIf (found x self.now.entries) }
        requires others { (x : List ℕ) → IsRootKindIf (found x others.now.entries) }
        requires part { IsPartOf self.now.entries joined.old.entries }
        ensures { OnOk result (IsJoinedPart self.now.entries others.now.entries joined.old.entries joined.new.entries) }
    {
        let Some(node) = &self.node else {
            return Ok(());
        };
        let near = others.around(node.entry.name.as_str());
        node.left.join_into(alloc, near.before, joined)?;
        join_entry(alloc, &node.entry, near.kind, joined)?;
        node.right.join_into(alloc, near.behind, joined)?;
        Ok(())
    }

    // Takes the names of a part of a version that aren't among these names out of it. `kept` begins
    // as the whole version. `Memory`: want of memory.
    pub(crate) fn keep_into(
        &self,
        alloc: Global,
        names: &NameTree,
        kept: &mut NameTree,
    ) -> Result<(), Memory>
        ensures { OnOk result (IsKeptPart self.now.entries names.now.entries kept.old.entries kept.new.entries) }
    {
        let Some(node) = &self.node else {
            return Ok(());
        };
        let name = node.entry.name.as_str();
        let near = names.around(name);
        node.left.keep_into(alloc, near.before, kept)?;
        keep_name(alloc, name, near.kind, kept)?;
        node.right.keep_into(alloc, near.behind, kept)?;
        Ok(())
    }

    // What stands at a name, and on both sides of it: those of the root that has the name, else the
    // whole. Versions that were made of one another mostly have the same name there, which one test
    // of equality tells.
    fn around(&self, name: &str) -> Around<'_>
        ensures before { IsBeside Less name.now result.before.now.entries self.now.entries }
        ensures kind { option_map (λ kind. kind.now.value) result.kind ≡ found name.now self.now.entries }
        ensures behind { IsBeside Greater name.now result.behind.now.entries self.now.entries }
    {
        let Some(node) = &self.node else {
            return Around {
                before: self,
                kind: None,
                behind: self,
            };
        };
        if name == node.entry.name.as_str() {
            return Around {
                before: &node.left,
                kind: Some(&node.entry.kind),
                behind: &node.right,
            };
        }
        Around {
            before: self,
            kind: self.get(name),
            behind: self,
        }
    }

    // Puts each entry among others, in place of that of the same name. `Memory`: want of memory.
    pub(crate) fn put_into(&self, alloc: Global, others: &mut NameTree) -> Result<(), Memory>
        ensures { OnOk result (others.new.entries ≡ puts self.now.entries others.old.entries) }
    {
        let Some(node) = &self.node else {
            return Ok(());
        };
        node.right.put_into(alloc, others)?;
        put(alloc, &node.entry, others)?;
        node.left.put_into(alloc, others)?;
        Ok(())
    }
}

// Puts a name with a copy of its kind behind others.
fn add_root(alloc: Global, entry: &Entry, roots: &mut Vec<RootKind>) -> Result<(), Memory>
    ensures { OnOk result (roots.new.items ≡ roots.old.items ++ map variable_kind (entry_of entry.now ∷ [])) }
{
    let root = Root::Name(Chars::copy_of(alloc, entry.name.as_str())?);
    let kind = entry.kind.copy(alloc)?;
    roots.push(RootKind { root, kind })?;
    Ok(())
}

// Whether a name is known, with a kind within this one.
fn is_known_within(found: Option<&Rc<Kind>>, kind: &Rc<Kind>) -> bool
    ensures { IsTrue result ↔ IsVariableWithin (option_map (λ kind. kind.now.value) found.entry) (Some kind.now.value) }
{
    match found {
        None => false,
        Some(found) => within(found, kind),
    }
}

// An entry in its place.
fn put(alloc: Global, entry: &Entry, others: &mut NameTree) -> Result<(), Memory>
    ensures { OnOk result (others.new.entries ≡ put_entry (entry_of entry.now) others.old.entries) }
{
    let more = others.put(alloc, entry)?;
    *others = more;
    Ok(())
}

// Joins one name of a version, which it has with this kind, to what others know of it.
#[tactic(auto, using(crate::proofs::Parts::joined_taken, crate::proofs::Parts::joined_put, crate::proofs::Parts::joined_stays))]
fn join_entry(
    alloc: Global,
    entry: &Entry,
    other: Option<&Rc<Kind>>,
    joined: &mut NameTree,
) -> Result<(), Memory>
    requires kind { IsRootKind entry.now.kind.value }
    requires other { IsRootKindIf (option_map (λ kind. kind.now.value) other) }
    requires part { found (entry_of entry.now).0 joined.old.entries ≡ Some entry.now.kind.value }
    ensures { OnOk result
        (IsJoinedAt (entry_of entry.now)
        (option_map (λ kind. kind.now.value) other.entry) joined.old.entries joined.new.entries) }
{
    match other {
        None => {
            take(alloc, entry.name.as_str(), joined)?;
            Ok(())
        }
        Some(other) => match other_either(alloc, &entry.kind, other)? {
            None => Ok(()),
            Some(kind) => {
                put_kind(alloc, entry, kind, joined)?;
                Ok(())
            }
        },
    }
}

// Takes a name out.
fn take(alloc: Global, name: &str, entries: &mut NameTree) -> Result<(), Memory>
    ensures { OnOk result (entries.new.entries ≡ without_name name.now entries.old.entries) }
{
    let left = entries.without(alloc, name)?;
    *entries = left;
    Ok(())
}

// Gives the name of an entry another kind.
fn put_kind(
    alloc: Global,
    entry: &Entry,
    kind: Rc<Kind>,
    entries: &mut NameTree,
) -> Result<(), Memory>
    ensures { OnOk result (entries.new.entries ≡ put_entry ((entry_of entry.now).0, kind.value) entries.old.entries) }
{
    let name = entry.name.clone()?;
    put(alloc, &Entry { name, kind }, entries)
}

// Takes a name out, unless it is found among others.
fn keep_name(
    alloc: Global,
    name: &str,
    found: Option<&Rc<Kind>>,
    kept: &mut NameTree,
) -> Result<(), Memory>
    ensures { OnOk result (IsKeptAt (is_some found.entry) name.now kept.old.entries kept.new.entries) }
{
    match found {
        None => take(alloc, name, kept),
        Some(_) => Ok(()),
    }
}

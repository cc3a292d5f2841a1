ghost use Rattle.std.specs.Prelude.{◌≡◌, ◌++◌, ◌∷◌, [], ◌+◌, IfNone, IfOk, max, option_map};
ghost use Rattle.vrl_state.specs.Ordered.{first_of, found, put_entry, rest_of, without_name, IsSorted, DifferByAtMost, IsHeightOf, IsHigher};
ghost use Rattle.vrl_state.specs.EntryView.{entry_of};

use std::alloc::Global;
use std::cmp::Ordering;
use std::marker::Model;
use std::rc::Rc;
use vrl_kind::Kind;
use vrl_value::Memory;

/// A name with its kind, both shared.
pub(crate) struct Entry {
    pub(crate) name: Rc<String>,
    pub(crate) kind: Rc<Kind>,
}

// Written out, so that an entry is let go by one call.
impl Drop for Entry {
    fn drop(self) {
        let Entry { name: _, kind: _ } = self;
    }
}

/// A version of an ordered tree of names, each with its kind. Nodes are shared with other versions,
/// and never written after they were made; the heights of a node's sides differ by at most one.
#[cycle(tree)]
pub(crate) struct NameTree {
    pub(crate) node: Option<Rc<Node>>,
}

// Written out, so that a version is let go by one call.
impl Drop for NameTree {
    #[cycle(let_tree_go)]
    fn drop(self) {
        let NameTree { node: _ } = self;
    }
}

/// An entry of a version, with the entries before and behind it.
#[cycle(tree)]
#[derive(Drop)]
pub(crate) struct Node {
    pub(crate) entry: Entry,
    pub(crate) height: u64,
    pub(crate) left: NameTree,
    pub(crate) right: NameTree,
}

impl Model for NameTree {
    ghost use Rattle.vrl_state.specs.Ordered.{ordered_code, Ordered, tree_size};

    ghost Value = { Ordered };

    ghost coded = { ordered_code };

    ghost use Rattle.vrl_state.specs.TreeView.{ordered_of, IsBalanced};

    ghost view = { λ t. ordered_of t.node };

    ghost invariant = { λ t. IsBalanced t.node };

    ghost size = { tree_size };

    ghost use Rattle.vrl_state.specs.TreeFalls.{tree_falls};

    ghost size_decreases = { λ a h. tree_falls a.node };
}

impl Entry {
    // The entry again, shared.
    fn copy(&self) -> Result<Entry, Memory>
        ensures { IfOk result (λ copy. entry_of copy ≡ entry_of self.now) }
    {
        Ok(Entry {
            name: self.name.clone()?,
            kind: self.kind.clone()?,
        })
    }
}

impl NameTree {
    // A version without entries.
    pub(crate) fn new() -> NameTree
        ensures entries { result.entries ≡ [] }
        ensures height { result.height ≡ 0 }
    {
        NameTree { node: None }
    }

    fn height(&self) -> u64
        ensures { result ≡ self.now.height }
    {
        match &self.node {
            None => 0,
            Some(node) => node.height,
        }
    }

    // The kind of a name. `None`: it isn't there.
    pub(crate) fn get(&self, name: &str) -> Option<&Rc<Kind>>
        ensures { option_map (λ kind. kind.now.value) result ≡ found name.now self.now.entries }
    {
        match &self.node {
            None => None,
            Some(node) => match name.cmp(node.entry.name.as_str()) {
                Ordering::Less => node.left.get(name),
                Ordering::Equal => Some(&node.entry.kind),
                Ordering::Greater => node.right.get(name),
            },
        }
    }

    // The names rise. This changes nothing: it is a law of the type.
    pub(crate) fn names_rise(&self)
        ensures { IsSorted self.now.entries }
    {
        let _node = &self.node;
    }

    // The version again, shared.
    pub(crate) fn copy(&self) -> Result<NameTree, Memory>
        ensures { IfOk result (λ copy. copy ≡ self.now) }
    {
        match &self.node {
            None => Ok(NameTree::new()),
            Some(node) => Ok(NameTree {
                node: Some(node.clone()?),
            }),
        }
    }

    // The tree with an entry in its place, in place of that of the same name.
    pub(crate) fn put(&self, alloc: Global, entry: &Entry) -> Result<NameTree, Memory>
        ensures entries { IfOk result (λ tree. tree.entries ≡ put_entry (entry_of entry.now) self.now.entries) }
        ensures height { IfOk result (λ tree. IsHigher self.now.height tree.height) }
    {
        match &self.node {
            None => fork(alloc, self, entry, self),
            Some(node) => match entry.name.as_str().cmp(node.entry.name.as_str()) {
                Ordering::Less => {
                    let left = node.left.put(alloc, entry)?;
                    balanced(alloc, &left, &node.entry, &node.right)
                }
                Ordering::Equal => fork(alloc, &node.left, entry, &node.right),
                Ordering::Greater => {
                    let right = node.right.put(alloc, entry)?;
                    balanced(alloc, &node.left, &node.entry, &right)
                }
            },
        }
    }

    // The tree without the entry of a name.
    pub(crate) fn without(&self, alloc: Global, name: &str) -> Result<NameTree, Memory>
        ensures entries { IfOk result (λ tree. tree.entries ≡ without_name name.now self.now.entries) }
        ensures height { IfOk result (λ tree. IsHigher tree.height self.now.height) }
    {
        match &self.node {
            None => self.copy(),
            Some(node) => match name.cmp(node.entry.name.as_str()) {
                Ordering::Less => {
                    let left = node.left.without(alloc, name)?;
                    balanced(alloc, &left, &node.entry, &node.right)
                }
                Ordering::Equal => glued(alloc, &node.left, &node.right),
                Ordering::Greater => {
                    let right = node.right.without(alloc, name)?;
                    balanced(alloc, &node.left, &node.entry, &right)
                }
            },
        }
    }

    // The first entry.
    fn first(&self) -> Option<&Entry>
        ensures first { option_map (λ entry. entry_of entry.now) result ≡ first_of self.now.entries }
        ensures none { IfNone result (self.now.height ≡ 0) }
    {
        match &self.node {
            None => None,
            Some(node) => match node.left.first() {
                None => Some(&node.entry),
                found => found,
            },
        }
    }

    // The tree without its first entry.
    fn rest(&self, alloc: Global) -> Result<NameTree, Memory>
        ensures entries { IfOk result (λ tree. tree.entries ≡ rest_of self.now.entries) }
        ensures height { IfOk result (λ tree. IsHigher tree.height self.now.height) }
    {
        match &self.node {
            None => self.copy(),
            Some(node) => match &node.left.node {
                None => node.right.copy(),
                Some(_) => {
                    let left = node.left.rest(alloc)?;
                    balanced(alloc, &left, &node.entry, &node.right)
                }
            },
        }
    }
}

// One more than the greater height.
fn height_over(left: &NameTree, right: &NameTree) -> Result<u64, Memory>
    ensures { IfOk result (λ height. height ≡ max left.now.height right.now.height + 1) }
{
    match left.height().max(right.height()).checked_add(1) {
        Some(height) => Ok(height),
        None => Err(Memory),
    }
}

// The entries of two sides with one between.
fn fork(alloc: Global, left: &NameTree, entry: &Entry, right: &NameTree) -> Result<NameTree, Memory>
    requires sorted { IsSorted (left.now.entries ++ entry_of entry.now ∷ right.now.entries) }
    requires near { DifferByAtMost 1 left.now.height right.now.height }
    ensures entries { IfOk result (λ tree. tree.entries ≡ left.now.entries ++ entry_of entry.now ∷ right.now.entries) }
    ensures height { IfOk result (λ tree. tree.height ≡ max left.now.height right.now.height + 1) }
{
    let node = Node {
        height: height_over(left, right)?,
        entry: entry.copy()?,
        left: left.copy()?,
        right: right.copy()?,
    };
    Ok(NameTree {
        node: Some(Rc::new(alloc, node)?),
    })
}

// The same where one side may be two higher.
fn balanced(
    alloc: Global,
    left: &NameTree,
    entry: &Entry,
    right: &NameTree,
) -> Result<NameTree, Memory>
    requires sorted { IsSorted (left.now.entries ++ entry_of entry.now ∷ right.now.entries) }
    requires near { DifferByAtMost 2 left.now.height right.now.height }
    ensures entries { IfOk result (λ tree. tree.entries ≡ left.now.entries ++ entry_of entry.now ∷ right.now.entries) }
    ensures height { IfOk result (λ tree. IsHeightOf left.now.height right.now.height tree.height) }
{
    if left.height().saturating_sub(right.height()) > 1 {
        lean_left(alloc, left, entry, right)
    } else if right.height().saturating_sub(left.height()) > 1 {
        lean_right(alloc, left, entry, right)
    } else {
        fork(alloc, left, entry, right)
    }
}

// The same where the left side is two higher.
fn lean_left(
    alloc: Global,
    left: &NameTree,
    entry: &Entry,
    right: &NameTree,
) -> Result<NameTree, Memory>
    requires sorted { IsSorted (left.now.entries ++ entry_of entry.now ∷ right.now.entries) }
    requires higher { left.now.height ≡ right.now.height + 2 }
    ensures entries { IfOk result (λ tree. tree.entries ≡ left.now.entries ++ entry_of entry.now ∷ right.now.entries) }
    ensures height { IfOk result (λ tree. IsHigher left.now.height tree.height) }
{
    let Some(upper) = &left.node else {
        unreachable!()
    };
    if upper.left.height() >= upper.right.height() {
        let lower = fork(alloc, &upper.right, entry, right)?;
        return fork(alloc, &upper.left, &upper.entry, &lower);
    }
    let Some(middle) = &upper.right.node else {
        unreachable!()
    };
    let before = fork(alloc, &upper.left, &upper.entry, &middle.left)?;
    let behind = fork(alloc, &middle.right, entry, right)?;
    fork(alloc, &before, &middle.entry, &behind)
}

// The same where the right side is two higher.
fn lean_right(
    alloc: Global,
    left: &NameTree,
    entry: &Entry,
    right: &NameTree,
) -> Result<NameTree, Memory>
    requires sorted { IsSorted (left.now.entries ++ entry_of entry.now ∷ right.now.entries) }
    requires higher { right.now.height ≡ left.now.height + 2 }
    ensures entries { IfOk result (λ tree. tree.entries ≡ left.now.entries ++ entry_of entry.now ∷ right.now.entries) }
    ensures height { IfOk result (λ tree. IsHigher right.now.height tree.height) }
{
    let Some(upper) = &right.node else {
        unreachable!()
    };
    if upper.right.height() >= upper.left.height() {
        let lower = fork(alloc, left, entry, &upper.left)?;
        return fork(alloc, &lower, &upper.entry, &upper.right);
    }
    let Some(middle) = &upper.left.node else {
        unreachable!()
    };
    let before = fork(alloc, left, entry, &middle.left)?;
    let behind = fork(alloc, &middle.right, &upper.entry, &upper.right)?;
    fork(alloc, &before, &middle.entry, &behind)
}

// The entries of two sides, where none stands between.
fn glued(alloc: Global, left: &NameTree, right: &NameTree) -> Result<NameTree, Memory>
    requires sorted { IsSorted (left.now.entries ++ right.now.entries) }
    requires near { DifferByAtMost 1 left.now.height right.now.height }
    ensures entries { IfOk result (λ tree. tree.entries ≡ left.now.entries ++ right.now.entries) }
    ensures height { IfOk result (λ tree. IsHigher tree.height (max left.now.height right.now.height + 1)) }
{
    match right.first() {
        None => left.copy(),
        Some(first) => {
            let rest = right.rest(alloc)?;
            balanced(alloc, left, first, &rest)
        }
    }
}

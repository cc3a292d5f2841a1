use vrl_diag::Diagnostics;
use vrl_judge::Returned;
use vrl_kind::Kind;
use vrl_state::{Branch, Known, Knowns};
use vrl_syntax::Empties;

/// What a script was judged to be.
#[derive(Drop)]
pub struct Judged {
    /// The kind of its value; never where it can't end with one, and any where it has an error.
    pub kind: Kind,
    /// What is known where it ends with a value.
    pub ok: Branch,
    /// What is known where it ends with an error.
    pub fail: Branch,
    /// How it may return; `None`: it can't.
    pub ret: Option<Returned>,
    /// The tag of the empty value of each error assignment.
    pub empties: Empties,
    /// What is known before each run of each closure, in the order in which a walk of the tree as
    /// written meets them, an outer one before those in it; dead for one that isn't judged.
    pub loops: Knowns,
    /// What is wrong with it, by start, end and code.
    pub diagnostics: Diagnostics,
}

/// How a script may end with a value, at its end or at a return.
#[derive(Drop)]
pub struct Ending {
    /// The kind of the value.
    pub kind: Kind,
    /// What is known there.
    pub state: Known,
}

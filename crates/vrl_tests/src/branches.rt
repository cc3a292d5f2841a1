// What is known where branches meet, and behind blocks and scopes.
ghost use Rattle.std.specs.Prelude.{◌≡◌, ◌≢◌, [], IfOk, OnOk};
ghost use Rattle.vrl_state.specs.States.{IsPresent};

use crate::kinds::kind_of_word;
use crate::states::{branch_of, start_of_json, state_after, told, write_all};
use std::alloc::Global;
use std::process::Abort;
use vrl_kind::{Kind, has};
use vrl_state::{Branch, Known, State};
use vrl_value::{Chars, Memory, Tag};

// The state after these words, with the branch joined to it, as a branch.
fn join_to_state(
    alloc: Global,
    state: &mut State,
    branch: &Branch,
    words: &str,
) -> Result<Branch, Memory>
    requires { branch.now.scopes ≡ state.old.scopes }
{
    write_all(alloc, state, words)?;
    state.join(branch)?;
    branch_of(alloc, state, "")
}

// The state with two ways on joined to it.
fn state_joined(
    alloc: Global,
    state: &mut State,
    first: &str,
    second: &str,
) -> Result<Branch, Memory> {
    let branch = branch_of(alloc, state, first)?;
    join_to_state(alloc, state, &branch, second)
}

// Joins a second branch to a first one.
fn join_to_branch(
    alloc: Global,
    state: &mut State,
    branch: &mut Branch,
    words: &str,
) -> Result<(), Memory>
    requires { branch.old.scopes ≡ state.old.scopes }
{
    branch.join(&branch_of(alloc, state, words)?)
}

// The branch of the first way with that of the second one joined to it.
fn branch_joined(
    alloc: Global,
    state: &mut State,
    first: &str,
    second: &str,
) -> Result<Branch, Memory> {
    let mut branch = branch_of(alloc, state, first)?;
    join_to_branch(alloc, state, &mut branch, second)?;
    Ok(branch)
}

// Opens a block and writes these words in it.
fn write_block(alloc: Global, state: &mut State, inside: &str) -> Result<(), Memory>
    ensures { OnOk result (state.new.scopes ≢ []) }
{
    state.enter()?;
    write_all(alloc, state, inside)
}

// What is known behind a block with these words in it, left in the state.
fn state_left(alloc: Global, state: &mut State, inside: &str) -> Result<Branch, Memory> {
    write_block(alloc, state, inside)?;
    state.leave()?;
    branch_of(alloc, state, "")
}

// A branch that ends in a block.
fn block(alloc: Global, state: &mut State, inside: &str) -> Result<Branch, Memory>
    ensures { IfOk result (λ branch. branch.scopes ≢ []) }
{
    let mark = state.mark()?;
    write_block(alloc, state, inside)?;
    Ok(state.back(mark))
}

// The same as `state_left`, left in the branch that ends in the block.
fn branch_left(alloc: Global, state: &mut State, inside: &str) -> Result<Branch, Memory> {
    let mut branch = block(alloc, state, inside)?;
    branch.leave()?;
    Ok(branch)
}

// What is known behind a block with these words in it, where a list was taken over at its end.
fn known_replaced(
    alloc: Global,
    state: &mut State,
    known: &Known,
    inside: &str,
) -> Result<Branch, Memory> {
    write_block(alloc, state, inside)?;
    state.replace(known)?;
    state.leave()?;
    branch_of(alloc, state, "")
}

// The same of the list of what is known at the end of a branch.
fn state_replaced(
    alloc: Global,
    state: &mut State,
    listed: &str,
    inside: &str,
) -> Result<Branch, Memory> {
    let branch = branch_of(alloc, state, listed)?;
    known_replaced(alloc, state, &branch.known()?, inside)
}

// Opens a scope in which the name `x` is bound to a value of a kind.
fn bind(alloc: Global, state: &mut State, kind: &Kind) -> Result<(), Memory>
    requires { IsPresent kind.now }
    ensures { OnOk result (state.new.scopes ≢ []) }
{
    state.enter()?;
    state.hide(&Chars::copy_of(alloc, "x")?, kind)
}

// What is known at the end of such a scope, with these words in it, and behind it.
fn binding_told(
    alloc: Global,
    state: &mut State,
    kind: &Kind,
    inside: &str,
) -> Result<(String, String), Memory>
    requires { IsPresent kind.now }
{
    bind(alloc, state, kind)?;
    write_all(alloc, state, inside)?;
    let mut branch = branch_of(alloc, state, "")?;
    let within = told(alloc, &branch)?;
    branch.leave()?;
    Ok((within, told(alloc, &branch)?))
}

// How two ways on, or a block, come to one branch.
#[derive(Clone, Copy)]
enum End {
    StateJoined,
    BranchJoined,
    StateLeft,
    BranchLeft,
    StateReplaced,
}

// The branch at this end; a block has the first words in it.
fn end_of(
    alloc: Global,
    end: End,
    state: &mut State,
    first: &str,
    second: &str,
) -> Result<Branch, Memory> {
    match end {
        End::StateJoined => state_joined(alloc, state, first, second),
        End::BranchJoined => branch_joined(alloc, state, first, second),
        End::StateLeft => state_left(alloc, state, first),
        End::BranchLeft => branch_left(alloc, state, first),
        End::StateReplaced => state_replaced(alloc, state, first, second),
    }
}

fn end_told(
    alloc: Global,
    end: End,
    state: &mut State,
    first: &str,
    second: &str,
) -> Result<String, Memory> {
    told(alloc, &end_of(alloc, end, state, first, second)?)
}

// What is known at this end, from a state after words.
fn ways_told(
    alloc: Global,
    end: End,
    before: &str,
    first: &str,
    second: &str,
) -> Result<String, Memory> {
    let mut state = state_after(alloc, before)?;
    end_told(alloc, end, &mut state, first, second)
}

// Whether the state of the second way is within the branch of the first one.
fn is_within(alloc: Global, state: &mut State, first: &str, second: &str) -> Result<bool, Memory> {
    let branch = branch_of(alloc, state, first)?;
    write_all(alloc, state, second)?;
    Ok(state.within(&branch))
}

// The same from the start of a script.
fn are_within(alloc: Global, first: &str, second: &str) -> Result<bool, Memory> {
    let mut state = start_of_json(alloc)?;
    is_within(alloc, &mut state, first, second)
}

// Words before two ways on, words of each, and what is known at this end of them.
fn expect_ends(
    rt: &impl Abort,
    alloc: Global,
    end: End,
    rows: &[(&str, &str, &str, &str)],
) -> Result<(), Memory> {
    for (before, first, second, wanted) in rows {
        let text = ways_told(alloc, end, before, first, second)?;
        assert!(rt;
            text.as_str() == *wanted,
            "{before:?}, {first:?} and {second:?}"
        );
    }
    Ok(())
}

// Words before a block, words in it, and what is known at this end of it.
fn expect_blocks(
    rt: &impl Abort,
    alloc: Global,
    end: End,
    rows: &[(&str, &str, &str)],
) -> Result<(), Memory> {
    for (before, inside, wanted) in rows {
        let text = ways_told(alloc, end, before, inside, "")?;
        assert!(rt; text.as_str() == *wanted, "{before:?} around {inside:?}");
    }
    Ok(())
}

// Words of a branch, words of a state, and whether the state is within the branch.
fn expect_within(
    rt: &impl Abort,
    alloc: Global,
    rows: &[(&str, &str, bool)],
) -> Result<(), Memory> {
    for (first, second, wanted) in rows {
        let is_known = are_within(alloc, first, second)?;
        assert!(rt; is_known == *wanted, "{second:?} within {first:?}");
    }
    Ok(())
}

const JOINS: [(&str, &str, &str, &str); 9] = [
    ("", "", "", ".={..json}"),
    (
        "",
        "x=integer;y=string",
        "x=string;z=null",
        ".={..json}; x=string|integer",
    ),
    ("x=integer", "", "x=string", ".={..json}; x=string|integer"),
    ("x=integer", "!", "x=string", ".={..json}; x=string"),
    ("x=integer", "x=string", "!", ".={..json}; x=string"),
    ("x=integer", "!", "!", "dead"),
    (
        "",
        ".a=integer",
        ".a=string",
        ".={\"a\": string|integer, ..json}",
    ),
    (".a=integer", "-.a", "", ".={\"a\"?: integer, ..json}"),
    ("b=null;a=null", "", "", ".={..json}; a=null; b=null"),
];

#[test]
fn joins_know_what_both_branches_know(rt: HostRuntime) -> Result<(), Memory> {
    expect_ends(&rt, rt.alloc(), End::StateJoined, &JOINS)?;
    expect_ends(&rt, rt.alloc(), End::BranchJoined, &JOINS)
}

const BLOCKS: [(&str, &str, &str); 5] = [
    ("", "x=integer", ".={..json}"),
    ("x=integer", "x=string;y=null", ".={..json}; x=string"),
    ("x=integer", ".a=null", ".={\"a\": null, ..json}; x=integer"),
    ("x=integer", "!", "dead"),
    ("!", "x=integer", "dead"),
];

#[test]
fn blocks_end_with_their_names(rt: HostRuntime) -> Result<(), Memory> {
    expect_blocks(&rt, rt.alloc(), End::StateLeft, &BLOCKS)?;
    expect_blocks(&rt, rt.alloc(), End::BranchLeft, &BLOCKS)
}

// Words before a branch and a block, words of the branch, words in the block, and what is known
// behind the block where it took over at its end what is known at the end of the branch.
const REPLACEMENTS: [(&str, &str, &str, &str); 5] = [
    (
        "x=integer",
        "x=string;.a=null",
        "x=null;z=null",
        ".={\"a\": null, ..json}; x=string",
    ),
    (
        "x=integer;y=null",
        "",
        "x=string",
        ".={..json}; x=integer; y=null",
    ),
    // `y` isn't known where the block begins, so it ends with it.
    ("x=integer", "y=null", "", ".={..json}; x=integer"),
    ("x=integer", "!", "", "dead"),
    ("x=integer", "", "!", ".={..json}; x=integer"),
];

#[test]
fn what_is_known_is_replaced(rt: HostRuntime) -> Result<(), Memory> {
    expect_ends(&rt, rt.alloc(), End::StateReplaced, &REPLACEMENTS)
}

// The same from the start of a script, after words, with the kind of a word.
fn bindings_told(
    alloc: Global,
    before: &str,
    word: &str,
    inside: &str,
) -> Result<(String, String), Memory> {
    let mut state = state_after(alloc, before)?;
    let kind = kind_of_word(alloc, word)?;
    if has(&kind, Tag::Absent) {
        return Err(Memory);
    }
    binding_told(alloc, &mut state, &kind, inside)
}

// Words before a scope that binds `x`, its kind, words in it, and what is known at its end and
// behind it.
const BINDINGS: [(&str, &str, &str, &str, &str); 4] = [
    ("", "integer", "", ".={..json}; x=integer", ".={..json}"),
    (
        "x=string",
        "integer",
        "",
        ".={..json}; x=integer",
        ".={..json}; x=string",
    ),
    (
        "x=string",
        "integer",
        "x=null;y=null",
        ".={..json}; x=null; y=null",
        ".={..json}; x=string",
    ),
    ("!", "integer", "", "dead", "dead"),
];

#[test]
fn names_that_are_bound_come_back(rt: HostRuntime) -> Result<(), Memory> {
    for (before, kind, inside, within, behind) in &BINDINGS {
        let (inner, outer) = bindings_told(rt.alloc(), before, kind, inside)?;
        assert!(&rt; inner.as_str() == *within, "{inside:?} behind {before:?}");
        assert!(&rt; outer.as_str() == *behind, "behind {inside:?}");
    }
    Ok(())
}

const WITHIN: [(&str, &str, bool); 9] = [
    ("", "", true),
    ("", "x=integer", true),
    ("x=integer", "", false),
    ("x=json", "x=integer", true),
    ("x=integer", "x=json", false),
    ("x=integer", "!", true),
    ("!", "x=integer", false),
    ("", ".a=integer", true),
    (".a=integer", "", false),
];

#[test]
fn states_are_ordered_by_what_they_know(rt: HostRuntime) -> Result<(), Memory> {
    expect_within(&rt, rt.alloc(), &WITHIN)
}

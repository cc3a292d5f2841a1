// What is known after writes that words tell, and what a state shares.
ghost use Rattle.std.specs.Prelude.{◌≡◌, [], IfOk, OnOk};
ghost use Rattle.vrl_state.specs.States.{IsPresent};
ghost use Rattle.vrl_path.specs.Steps.{IsWritable};

use crate::kinds::kind_of_word;
use crate::places::path_to;
use std::alloc::Global;
use std::process::Abort;
use std::rc::Rc;
use vrl_kind::{Kind, has, print};
use vrl_path::Path;
use vrl_state::{Branch, Known, RootKind, State};
use vrl_syntax::{Root, Roots};
use vrl_value::{Chars, Memory, Tag};

// What stands before the point of a path, and behind it.
fn halves(path: &str) -> (&str, &str) {
    match path.split_once('.') {
        Some(halves) => halves,
        None => (path, ""),
    }
}

// The root of a path: the event where the path begins with a point, else the variable before the
// point.
fn root_of(alloc: Global, path: &str) -> Result<Root, Memory> {
    if path.starts_with('.') {
        return Ok(Root::Event);
    }
    Ok(Root::Name(Chars::copy_of(alloc, halves(path).0)?))
}

// The field behind the point, if there is one.
fn steps_of(alloc: Global, path: &str) -> Result<Path, Memory>
    ensures { IfOk result (λ path. IsWritable path) }
{
    path_to(alloc, halves(path).1, None)
}

fn remove_at(alloc: Global, state: &mut State, root: &Root, path: &str) -> Result<(), Memory>
    ensures { state.new.scopes ≡ state.old.scopes }
{
    state.remove(root, &steps_of(alloc, path)?)
}

fn remove(alloc: Global, state: &mut State, path: &str) -> Result<(), Memory>
    ensures { state.new.scopes ≡ state.old.scopes }
{
    remove_at(alloc, state, &root_of(alloc, path)?, path)
}

fn assign_at(
    alloc: Global,
    state: &mut State,
    root: &Root,
    path: &str,
    kind: &Kind,
) -> Result<(), Memory>
    requires { IsPresent kind.now }
    ensures { state.new.scopes ≡ state.old.scopes }
{
    let shared = Rc::new(alloc, kind.copy(alloc)?)?;
    state.assign(root, &steps_of(alloc, path)?, &shared)
}

fn assign_kind(alloc: Global, state: &mut State, path: &str, kind: &Kind) -> Result<(), Memory>
    ensures { state.new.scopes ≡ state.old.scopes }
{
    if has(kind, Tag::Absent) {
        return Ok(());
    }
    assign_at(alloc, state, &root_of(alloc, path)?, path, kind)
}

fn assign(alloc: Global, state: &mut State, path: &str, word: &str) -> Result<(), Memory>
    ensures { state.new.scopes ≡ state.old.scopes }
{
    assign_kind(alloc, state, path, &kind_of_word(alloc, word)?)
}

// A list of one root.
fn one_root(alloc: Global, path: &str) -> Result<Roots, Memory> {
    let mut roots = Vec::new(alloc);
    roots.push(root_of(alloc, path)?)?;
    Ok(Roots::new(roots))
}

fn flatten(alloc: Global, state: &mut State, path: &str) -> Result<(), Memory>
    ensures { state.new.scopes ≡ state.old.scopes }
{
    state.flatten(&one_root(alloc, path)?)
}

fn forget(alloc: Global, state: &mut State, path: &str) -> Result<(), Memory>
    ensures { state.new.scopes ≡ state.old.scopes }
{
    state.forget(&one_root(alloc, path)?)
}

// One word: `!` makes the state dead, `-path` removes, `~root` flattens, `?root` forgets, and
// `path=kind` writes.
fn write(alloc: Global, state: &mut State, word: &str) -> Result<(), Memory>
    ensures { state.new.scopes ≡ state.old.scopes }
{
    if word == "!" {
        state.kill();
        return Ok(());
    }
    if let Some(path) = word.strip_prefix('-') {
        return remove(alloc, state, path);
    }
    if let Some(path) = word.strip_prefix('~') {
        return flatten(alloc, state, path);
    }
    if let Some(path) = word.strip_prefix('?') {
        return forget(alloc, state, path);
    }
    match word.split_once('=') {
        Some((path, kind)) => assign(alloc, state, path, kind),
        None => Ok(()),
    }
}

// Words, which stand between semicolons.
pub(crate) fn write_all(alloc: Global, state: &mut State, words: &str) -> Result<(), Memory>
    ensures { OnOk result (state.new.scopes ≡ state.old.scopes) }
{
    for word in words.split(';') {
        write(alloc, state, word)?;
    }
    Ok(())
}

fn name_of(root: &Root) -> &str {
    match root {
        Root::Event => ".",
        Root::Name(name) => name.as_str(),
    }
}

fn add_root(alloc: Global, text: &mut String, root: &RootKind) -> Result<(), Memory> {
    if !text.is_empty() {
        text.push_str("; ")?;
    }
    text.push_str(name_of(&root.root))?;
    text.push_str("=")?;
    text.push_str(print(alloc, &root.kind)?.as_str())?;
    Ok(())
}

fn add_roots(alloc: Global, text: &mut String, roots: &[RootKind]) -> Result<(), Memory> {
    for root in roots {
        add_root(alloc, text, root)?;
    }
    Ok(())
}

fn add_known(alloc: Global, text: &mut String, known: &Known) -> Result<(), Memory> {
    match known {
        Known::Dead => text.push_str("dead")?,
        Known::Alive(roots) => add_roots(alloc, text, roots.as_slice())?,
    }
    Ok(())
}

fn known_told(alloc: Global, known: &Known) -> Result<String, Memory> {
    let mut text = String::new(alloc);
    add_known(alloc, &mut text, known)?;
    Ok(text)
}

// What is known, in text.
pub(crate) fn told(alloc: Global, branch: &Branch) -> Result<String, Memory> {
    known_told(alloc, &branch.known()?)
}

// The state of a script with such an event.
fn start(alloc: Global, event: &Kind) -> Result<State, Memory>
    ensures { IfOk result (λ state. state.scopes ≡ []) }
{
    if has(event, Tag::Absent) {
        return Err(Memory);
    }
    State::start(alloc, event)
}

// The state of a script whose event is an object of JSON.
pub(crate) fn start_of_json(alloc: Global) -> Result<State, Memory>
    ensures { IfOk result (λ state. state.scopes ≡ []) }
{
    start(alloc, &kind_of_word(alloc, "{..json}")?)
}

// The same after these words.
pub(crate) fn state_after(alloc: Global, words: &str) -> Result<State, Memory>
    ensures { IfOk result (λ state. state.scopes ≡ []) }
{
    let mut state = start_of_json(alloc)?;
    write_all(alloc, &mut state, words)?;
    Ok(state)
}

// A branch with these words; the state is as before.
pub(crate) fn branch_of(alloc: Global, state: &mut State, words: &str) -> Result<Branch, Memory>
    ensures branch { IfOk result (λ branch. branch.scopes ≡ state.old.scopes) }
    ensures state { OnOk result (state.new ≡ state.old) }
{
    let mark = state.mark()?;
    write_all(alloc, state, words)?;
    Ok(state.back(mark))
}

// The kind of a root, or `dead`, or `unknown`.
fn root_told(alloc: Global, state: &State, root: &Root) -> Result<Chars, Memory> {
    if state.is_dead() {
        return Chars::copy_of(alloc, "dead");
    }
    match state.kind(root) {
        Some(kind) => print(alloc, kind),
        None => Chars::copy_of(alloc, "unknown"),
    }
}

fn path_told(alloc: Global, state: &State, path: &str) -> Result<Chars, Memory> {
    root_told(alloc, state, &root_of(alloc, path)?)
}

// The kind of a root after words.
fn kind_told(alloc: Global, words: &str, path: &str) -> Result<Chars, Memory> {
    path_told(alloc, &state_after(alloc, words)?, path)
}

// Words, a root, and its kind.
fn expect_kinds(rt: &impl Abort, alloc: Global, rows: &[(&str, &str, &str)]) -> Result<(), Memory> {
    for (words, path, wanted) in rows {
        let kind = kind_told(alloc, words, path)?;
        assert!(rt; kind.as_str() == *wanted, "{path:?} after {words:?}");
    }
    Ok(())
}

const KINDS: [(&str, &str, &str); 21] = [
    ("", ".", "{..json}"),
    ("", "x", "unknown"),
    ("!", ".", "dead"),
    ("!;x=string", "x", "dead"),
    ("x=string", "x", "string"),
    ("x=string;x=integer", "x", "integer"),
    ("x=string;y=integer", "x", "string"),
    (".a=integer", ".", "{\"a\": integer, ..json}"),
    (".a=integer;-.a", ".", "{\"a\"?: never, ..json}"),
    ("-x.a", "x", "unknown"),
    ("x={\"a\":1};-x.a", "x", "{}"),
    // It may hold any value, from a way that a join dropped.
    ("x.a=integer", "x", "{\"a\": integer, ..any}"),
    ("x=string;x.a=integer", "x", "{\"a\": integer}"),
    ("x={\"a\":1};~x", "x", "{..any}"),
    ("x=[1];~x;~y", "x", "[..any]"),
    ("~.", ".", "{..any}"),
    ("x=integer;?x", "x", "any"),
    ("?.", ".", "any"),
    ("?x", "x", "unknown"),
    ("!;?.", ".", "dead"),
    // Deeper than the limit.
    (
        "x=[[[[[[[[[[[[[[[[[[[[[[[[[[[[[[[[[[[[[[[[]]]]]]]]]]]]]]]]]]]]]]]]]]]]]]]]]]]]]]]]",
        "x",
        "[..any]",
    ),
];

#[test]
fn writes_and_removals_change_what_is_known(rt: HostRuntime) -> Result<(), Memory> {
    expect_kinds(&rt, rt.alloc(), &KINDS)
}

// The kind of a root as the state shares it.
fn shared_kind(alloc: Global, state: &State, root: &Root) -> Result<Chars, Memory> {
    match state.shared(root)? {
        Some(kind) => print(alloc, &kind),
        None => Chars::copy_of(alloc, "unknown"),
    }
}

fn shared_told(alloc: Global, state: &State, path: &str) -> Result<Chars, Memory> {
    shared_kind(alloc, state, &root_of(alloc, path)?)
}

// Opens a second mark, writes behind it and takes it back.
fn look_aside(alloc: Global, state: &mut State) -> Result<(), Memory>
    ensures { OnOk result (state.new ≡ state.old) }
{
    let _aside = branch_of(alloc, state, "x=boolean;z=null")?;
    Ok(())
}

// `x` as an integer; behind a mark `x` as a string and `y` as null; what is shared once that was
// taken back.
fn shared_behind(alloc: Global, path: &str) -> Result<Chars, Memory> {
    let mut state = state_after(alloc, "x=integer")?;
    let _branch = branch_of(alloc, &mut state, "x=string;y=null")?;
    look_aside(alloc, &mut state)?;
    shared_told(alloc, &state, path)
}

const SHARED: [(&str, &str); 3] = [("x", "integer"), ("y", "unknown"), (".", "{..json}")];

#[test]
fn what_is_taken_back_is_shared_as_before(rt: HostRuntime) -> Result<(), Memory> {
    for (path, wanted) in &SHARED {
        let kind = shared_behind(rt.alloc(), path)?;
        assert!(&rt; kind.as_str() == *wanted, "{path:?}");
    }
    Ok(())
}

// A name of two parts.
fn name_of_two(alloc: Global, first: &str, second: &str) -> Result<Root, Memory> {
    let mut name = String::from_str(alloc, first)?;
    name.push_str(second)?;
    Ok(Root::Name(Chars::copy_of(alloc, name.as_str())?))
}

fn assign_integer(alloc: Global, state: &mut State, root: &Root) -> Result<(), Memory>
    ensures { state.new.scopes ≡ state.old.scopes }
{
    let kind = kind_of_word(alloc, "integer")?;
    if has(&kind, Tag::Absent) {
        return Ok(());
    }
    assign_at(alloc, state, root, "", &kind)
}

fn assign_ten(alloc: Global, state: &mut State, first: &str) -> Result<(), Memory> {
    for second in "0 1 2 3 4 5 6 7 8 9".split(' ') {
        assign_integer(alloc, state, &name_of_two(alloc, first, second)?)?;
    }
    Ok(())
}

// Whether a state is marked, and gone back to, this often.
fn goes_back(state: &mut State, times: usize) -> bool {
    for _ in 0..times {
        match state.mark() {
            Err(Memory) => return false,
            Ok(mark) => {
                let _left = state.back(mark);
            }
        }
    }
    true
}

const TWENTY: &str = "a b c d e f g h i j k l m n o p q r s t";

// A mark copies pointers alone: with each allocation refused in turn (`trials/refusals.py`) none
// wants memory.
#[test]
fn marks_take_no_memory(rt: HostRuntime) -> Result<(), Memory> {
    let mut state = state_after(rt.alloc(), "")?;
    for first in TWENTY.split(' ') {
        assign_ten(rt.alloc(), &mut state, first)?;
    }
    assert!(&rt; goes_back(&mut state, 10));
    Ok(())
}

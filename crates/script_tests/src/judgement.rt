ghost use Rattle.std.specs.Prelude.{◌≡◌, IfOk, IfSome};
ghost use Rattle.vrl_syntax.specs.Limits.{KeepsLimits};
ghost use Rattle.vrl_syntax.specs.Regexes.{IsNumbered};
ghost use Rattle.vrl_syntax.specs.View.{exprs_of, script_of as script_view};
ghost use Rattle.vrl_check.specs.Answer.{IsJudged};
ghost use Rattle.vrl_judge.specs.Rules.{Judgement};

// Scripts without calls: what is wrong with them, the kind of what they give, and what is known
// then.
use std::alloc::Global;
use std::process::Abort;
use vrl_check::{Judged, check, ending};
use vrl_diag::{Diagnostic, render};
use vrl_kind::print;
use vrl_parse::parse;
use vrl_pattern::{BuildFault, Patterns};
use vrl_state::{Known, RootKind, json_object};
use vrl_syntax::{Root, Script};
use vrl_token::{SyntaxFault, Tokens, tokens};
use vrl_value::{Memory, Tag};

// The tokens of a text. `None`: it has none.
fn tokens_of(alloc: Global, text: &str) -> Result<Option<Tokens>, Memory> {
    if text.len() > 65_536 {
        return Ok(None);
    }
    match tokens(alloc, text) {
        Ok(found) => Ok(Some(found)),
        Err(SyntaxFault::Fault(_fault)) => Ok(None),
        Err(SyntaxFault::Memory) => Err(Memory),
    }
}

// The script of a text. `None`: it is none.
fn script_of(alloc: Global, text: &str) -> Result<Option<Script>, Memory>
    ensures limits { IfOk result (λ found. IfSome found (λ script. KeepsLimits (exprs_of script.items))) }
    ensures regexes { IfOk result (λ found. IfSome found (λ script. IsNumbered (script_view script))) }
{
    let Some(found) = tokens_of(alloc, text)? else {
        return Ok(None);
    };
    match parse(alloc, &found) {
        Ok(script) => Ok(Some(script)),
        Err(SyntaxFault::Fault(_fault)) => Ok(None),
        Err(SyntaxFault::Memory) => Err(Memory),
    }
}

// What a script is judged to be over objects of JSON. `None`: it isn't judged.
fn judged_script(alloc: Global, script: &Script) -> Result<Option<Judged>, Memory>
    requires limits { KeepsLimits (exprs_of script.now.items) }
    requires regexes { IsNumbered (script_view script.now) }
    ensures { IfOk result (λ found. IfSome found (λ judged. (j : Judgement) × IsJudged j judged)) }
{
    match Patterns::build(alloc, &script.patterns) {
        Ok(patterns) => {
            let event = json_object(alloc)?;
            let judged = check(alloc, script, &event, &patterns)?;
            Ok(Some(judged))
        }
        Err(BuildFault::Malformed(_numbers)) => Ok(None),
        Err(BuildFault::Memory) => Err(Memory),
    }
}

// The same of a text.
fn judged(alloc: Global, text: &str) -> Result<Option<Judged>, Memory>
    ensures { IfOk result (λ found. IfSome found (λ judged. (j : Judgement) × IsJudged j judged)) }
{
    match script_of(alloc, text)? {
        Some(script) => judged_script(alloc, &script),
        None => Ok(None),
    }
}

// A code with its place, as `103 1:1`, and `, ` before it, if it isn't the first.
fn push_code(
    alloc: Global,
    diagnostic: &Diagnostic,
    text: &str,
    told: &mut String,
) -> Result<(), Memory> {
    let line = render(alloc, diagnostic, text)?;
    let mut words = line.as_str().split(' ');
    let _code = words.next();
    let place = words.next().unwrap_or("");
    let comma = if told.is_empty() { "" } else { ", " };
    told.push_str(format!(in alloc; "{comma}{} {place}", diagnostic.code)?.as_str())?;
    Ok(())
}

// The codes with their places.
fn codes_of(alloc: Global, judged: &Judged, text: &str) -> Result<String, Memory> {
    let mut told = String::new(alloc);
    for diagnostic in judged.diagnostics.as_slice() {
        push_code(alloc, diagnostic, text, &mut told)?;
    }
    Ok(told)
}

// A root with its kind, as `; . KIND` or `; NAME KIND`.
fn push_root(alloc: Global, known: &RootKind, told: &mut String) -> Result<(), Memory> {
    let name = match &known.root {
        Root::Event => ".",
        Root::Name(name) => name.as_str(),
    };
    let kind = print(alloc, &known.kind)?;
    told.push_str(format!(in alloc; "; {name} {}", kind.as_str())?.as_str())?;
    Ok(())
}

// What is known, or `; dead`.
fn push_known(alloc: Global, known: &Known, told: &mut String) -> Result<(), Memory> {
    match known {
        Known::Dead => told.push_str("; dead")?,
        Known::Alive(roots) => {
            for root in roots.as_slice() {
                push_root(alloc, root, told)?;
            }
        }
    }
    Ok(())
}

// The kind of what a script gives, and what is known then.
fn end_of(alloc: Global, judged: &Judged) -> Result<String, Memory>
    requires { (j : Judgement) × IsJudged j judged.now }
{
    let end = ending(alloc, judged)?;
    let mut told = String::from_str(alloc, print(alloc, &end.kind)?.as_str())?;
    push_known(alloc, &end.state, &mut told)?;
    Ok(told)
}

fn word_of(tag: Tag) -> &'static str {
    match tag {
        Tag::Text => "string",
        Tag::Int => "integer",
        Tag::Bool => "boolean",
        Tag::Null => "null",
        Tag::Time => "timestamp",
        Tag::List => "array",
        Tag::Object => "object",
        Tag::Pattern | Tag::Absent => "none",
    }
}

// The tags of the empty values, each with `,` behind it.
fn empties_of(alloc: Global, judged: &Judged) -> Result<String, Memory> {
    let mut told = String::new(alloc);
    for tag in judged.empties.as_slice() {
        told.push_str(word_of(*tag))?;
        told.push(',')?;
    }
    Ok(told)
}

// What is known where each closure was judged last: `dead,` for one where nothing is.
fn loops_of(alloc: Global, judged: &Judged) -> Result<String, Memory> {
    let mut told = String::new(alloc);
    for place in 0..judged.loops.len() {
        let word = match judged.loops.known(place)? {
            Known::Dead => "dead,",
            Known::Alive(_roots) => "alive,",
        };
        told.push_str(word)?;
    }
    Ok(told)
}

// What is told of a script.
#[derive(Clone, Copy)]
pub(crate) enum Asked {
    Codes,
    End,
    Empties,
    Loops,
}

fn told_of(alloc: Global, asked: Asked, text: &str) -> Result<String, Memory> {
    match judged(alloc, text)? {
        None => Ok(String::from_str(alloc, "not judged")?),
        Some(judged) => match asked {
            Asked::Codes => codes_of(alloc, &judged, text),
            Asked::End => end_of(alloc, &judged),
            Asked::Empties => empties_of(alloc, &judged),
            Asked::Loops => loops_of(alloc, &judged),
        },
    }
}

// Texts, and what is told of them.
pub(crate) fn expect(
    rt: &impl Abort,
    alloc: Global,
    asked: Asked,
    rows: &[(&str, &str)],
) -> Result<(), Memory> {
    for (text, wanted) in rows {
        let told = told_of(alloc, asked, text)?;
        assert!(rt; told.as_str() == *wanted, "at {text:?}: {told}");
    }
    Ok(())
}

const OPERATORS: [(&str, &str); 28] = [
    ("", ""),
    ("1", ""),
    (".x = y", "701 1:6"),
    (".a + 1", "100 1:1"),
    ("\"a\" + 1", "100 1:1"),
    (".y = .a + 1", "103 1:1"),
    (".y = .a - 1", "103 1:1"),
    (".y = .a * 2", "103 1:1"),
    (".y = 1 * 2 - 3", ""),
    (".y = 9223372036854775807 + 1", ""),
    (".y = \"a\" + null + \"b\"", ""),
    (".y = null + 1", "103 1:1"),
    (".y = 1 < 2", ""),
    (".y = \"a\" <= \"b\"", ""),
    (".y = t'2024-01-02T03:04:05Z' > t'2024-01-02T03:04:06Z'", ""),
    (".y = true >= true", "103 1:1"),
    (".y = .a == .b", ""),
    ("1 < 2 < 3", "650 1:1"),
    ("(1 < 2) == true", ""),
    ("!1", "660 1:1"),
    ("!(1 < 2)", ""),
    (".y = 1 + !2", "660 1:10"),
    (". | 1", "652 1:5"),
    ("1 | .", "652 1:1"),
    ("1 | 2", "652 1:1, 652 1:5"),
    (
        "x = [1, \"s\"]\n.y = x[0] + 1\n.z = x[1] + \"t\"\n.w = x[2] + \"t\"",
        "",
    ),
    ("x = [1, \"s\"]\n.y = x[2] + 1", "103 2:1"),
    ("x = {\"a\": 1, \"a\": \"s\"}\n.y = x.a + \"t\"", ""),
];

#[test]
fn codes_of_operators(rt: HostRuntime) -> Result<(), Memory> {
    expect(&rt, rt.alloc(), Asked::Codes, &OPERATORS)
}

const ASSIGNMENTS: [(&str, &str); 57] = [
    ("_ = 1", "640 1:1"),
    ("_ = .a + 1", "103 1:1, 640 1:1"),
    (". = 3", "1006 1:1"),
    (". = []", ""),
    (". = {}", ""),
    (". = .a", ""),
    (". = .a + 1", "103 1:1, 1006 1:1"),
    (". = abort", ""),
    ("x = 1\nx = \"s\"\n.r = x + \"t\"", ""),
    (".y = \"a\" + 1\n.z = q", "103 1:1"),
    ("x |= {}", "701 1:1"),
    ("_ |= q", "640 1:1, 701 1:6"),
    ("_ |= .a + 1", "640 1:1"),
    (". |= 1", "652 1:6"),
    (".a |= {}", "652 1:1"),
    (". |= {\"a\": 1}\n.r = .a + 1", ""),
    ("a, b = 1", "104 1:1"),
    ("x, e = .a + 1\n.r = x + 1", ""),
    ("x, e = .a + 1\n.r = \"a\" + e", ""),
    ("x, _ = .a + 1", ""),
    ("_, e = .a + 1", ""),
    ("_, _ = .a + 1", "640 1:1"),
    ("_, _ = 1", "104 1:1, 640 1:1"),
    ("x, e = !1", "660 1:8"),
    ("x, e = abort", "104 1:1"),
    ("., e = abort", "104 1:1"),
    ("., e = \"a\" + 1", "1006 1:1"),
    ("., e = .a + 1", "1006 1:1"),
    ("e, . = .a + 1", "1006 1:1"),
    ("., . = 1", "104 1:1, 1006 1:1"),
    ("., e = !1", "660 1:8"),
    ("x, . = !1", "1006 1:1, 660 1:8"),
    ("% = 3", "1017 1:1"),
    ("% = []", "1017 1:1"),
    ("% = {}", ""),
    ("% = .", ""),
    ("% = .a", ""),
    ("% = .a + 1", "103 1:1, 1017 1:1"),
    ("% = !1", "660 1:5"),
    ("% = abort", ""),
    ("%n = 1", ""),
    ("%n = 1\n.k = %n + 1", ""),
    (".k = %n + 1", "103 1:1"),
    ("{ %n = 1 }\n.k = %n + 1", ""),
    ("% |= 1", "652 1:6"),
    ("%a |= {}", "652 1:1"),
    ("% |= {\"a\": 1}\n.r = %a + 1", ""),
    ("%, e = .a + 1", "1017 1:1"),
    ("%, e = \"a\" + 1", "1017 1:1"),
    ("e, % = .a + 1", "1017 1:1"),
    ("_, % = .a + 1", "1017 1:1"),
    ("%, % = 1", "104 1:1, 1017 1:1"),
    ("., % = .a + 1", "1006 1:1, 1017 1:1"),
    ("%, . = .a + 1", "1006 1:1, 1017 1:1"),
    ("%, e = abort", "104 1:1"),
    ("%, e = !1", "660 1:8"),
    ("x, % = !1", "1017 1:1, 660 1:8"),
];

#[test]
fn codes_of_assignments(rt: HostRuntime) -> Result<(), Memory> {
    expect(&rt, rt.alloc(), Asked::Codes, &ASSIGNMENTS)
}

const BRANCHES: [(&str, &str); 34] = [
    (
        "x = 1\n.r = ({ x = \"s\"; .a + 1 }) ?? 0\n.s = x + 1",
        "103 3:1",
    ),
    (
        "x = \"s\"\n.r = (.a + 1 + (x = 1)) ?? x\n.s = .r + 1",
        "103 3:1",
    ),
    (".y = .a + 1 ?? 0", ""),
    (".y = 1 ?? 2", "651 1:6"),
    (".y = 1 ?? q", "651 1:6"),
    ("x = \"s\"\n.r = (.a + 1 + (x = 1)) ?? (x + \"t\")", ""),
    ("(abort) ?? 1", "651 1:1"),
    ("x = !1 ?? 2", "660 1:5"),
    ("if true { y = 1 }\n.z = y", "701 2:6"),
    ("{ x = 1 }\n.r = x", "701 2:6"),
    ("if .a == 1 { x = 1 } else { x = 2 }\n.r = x", "701 2:6"),
    (".r = ({ y = 1; .a + 1 }) ?? y", "701 1:29"),
    ("x = 1\nif .a == 1 { x = \"s\" }\n.r = x + 1", "103 3:1"),
    (
        "if .a == 1 { .v = 1 } else { .v = \"s\" }\n.r = .v + 1",
        "103 2:1",
    ),
    ("x = if .a == 1 { 1 }\n.r = x + 1", "103 2:1"),
    (
        "x = \"s\"\nif .a == 1 { x = 1 } else { abort }\n.r = x + 1\n.s = q",
        "701 4:6",
    ),
    (
        "x = \"s\"\nif .a == 1 { abort } else { x = 1 }\n.r = x + 1\n.s = q",
        "701 4:6",
    ),
    ("x = \"s\"\nif (x = 1) == 2 { } else if x + 1 == 3 { }", ""),
    ("x = \"s\"\nif (x = 1) == 2 { } else { .r = x + 1 }", ""),
    ("if 1 { }", "102 1:4"),
    ("if !1 { }", "660 1:4"),
    ("if .a + 1 == 2 { }", "1005 1:4"),
    ("if .a < 1 { }", "1005 1:4"),
    ("\"a\" && 1", "100 1:1"),
    (".r = true && 1", "103 1:1"),
    ("true && q", "701 1:9"),
    ("null && q", ""),
    ("x = 1\n(true && (x = \"s\")) ?? (abort)\n.r = x + 1", ""),
    ("1 || q", ""),
    ("null || q", "701 1:9"),
    ("x = null || 1\nif x { }", "102 2:4"),
    ("x = 1\nnull || (x = \"s\")\n.r = x + \"t\"", ""),
    ("(.a == 1) || (y = 1)\n.r = y", "701 2:6"),
    ("x = 1\n(.a == 1) || (x = \"s\")\n.r = x + \"t\"", "103 3:1"),
];

#[test]
fn codes_of_branches(rt: HostRuntime) -> Result<(), Memory> {
    expect(&rt, rt.alloc(), Asked::Codes, &BRANCHES)
}

const STOPS: [(&str, &str); 10] = [
    ("abort\n.x = q", ""),
    ("return 1\n.x = q", ""),
    ("if .a == 1 { return 1 }\n.x = q", "701 2:6"),
    ("abort \"m\"", ""),
    ("abort 1", "1011 1:7"),
    ("abort .a + 1", "1011 1:7"),
    ("abort !1", "660 1:7"),
    ("return .a + 1", "100 1:1"),
    ("return q\n.x = q", "701 1:8"),
    ("!1 == 2 == 3", "660 1:1, 650 1:1"),
];

#[test]
fn codes_of_stops(rt: HostRuntime) -> Result<(), Memory> {
    expect(&rt, rt.alloc(), Asked::Codes, &STOPS)
}

const ENDS: [(&str, &str); 26] = [
    ("", "null; . {..json}; % {..json}"),
    (
        ".x = 1\n.x",
        "integer; . {\"x\": integer, ..json}; % {..json}",
    ),
    (
        "x.a = 1",
        "integer; . {..json}; % {..json}; x {\"a\": integer, ..any}",
    ),
    (
        "x = [1, \"s\"]",
        "[integer, string]; . {..json}; % {..json}; x [integer, string]",
    ),
    (
        "x = {\"a\": 1} | {\"b\": null}",
        "{\"a\": integer, \"b\": null}; . {..json}; % {..json}; x {\"a\": integer, \"b\": null}",
    ),
    (
        "x = {\"a\": 1}\nx |= {\"b\": \"s\"}",
        "{\"a\": integer, \"b\": string}; . {..json}; % {..json}; x {\"a\": integer, \"b\": string}",
    ),
    (".a == .b", "boolean; . {..json}; % {..json}"),
    ("null && q", "boolean; . {..json}; % {..json}"),
    ("1 || q", "integer; . {..json}; % {..json}"),
    (
        "x = .a || 1",
        "string|integer|boolean|[..json]|{..json}; . {..json}; % {..json}; x string|integer|boolean|[..json]|{..json}",
    ),
    (
        ".x = \"s\"\ny = .a + 1 ?? 0",
        "integer; . {\"x\": string, ..json}; % {..json}; y integer",
    ),
    (
        "x = if .a == 1 { 1 } else { \"s\" }",
        "string|integer; . {..json}; % {..json}; x string|integer",
    ),
    (
        "x = if .a == 1 { 1 }",
        "integer|null; . {..json}; % {..json}; x integer|null",
    ),
    (
        "x = 1\nif .a == 1 { x = \"s\"; y = 1 }",
        "integer|null; . {..json}; % {..json}; x string|integer",
    ),
    (
        ".v, .e = .x - 1",
        "integer; . {\"e\": string|null, \"v\": integer, ..json}; % {..json}",
    ),
    (
        "x, e = .a + 1",
        "integer; . {..json}; % {..json}; e string|null; x integer",
    ),
    ("%", "{..json}; . {..json}; % {..json}"),
    ("% = {}", "{}; . {..json}; % {}"),
    ("%n = 1", "integer; . {..json}; % {\"n\": integer, ..json}"),
    ("abort", "never; dead"),
    ("abort\n.x = q", "never; dead"),
    ("if .a == 1 { abort }", "null; . {..json}; % {..json}"),
    (
        ".x = 1\nreturn .x",
        "integer; . {\"x\": integer, ..json}; % {..json}",
    ),
    ("{ y = 1; return y }", "integer; . {..json}; % {..json}"),
    (
        "if .a == 1 { return 1 }\n.r = 2",
        "integer; . {..json}; % {..json}",
    ),
    (
        "if .a == 1 { return 1 }\nreturn \"s\"",
        "string|integer; . {..json}; % {..json}",
    ),
];

#[test]
fn ends(rt: HostRuntime) -> Result<(), Memory> {
    expect(&rt, rt.alloc(), Asked::End, &ENDS)
}

const EMPTIES: [(&str, &str); 12] = [
    ("1", ""),
    ("x, e = .a + 1", "integer,"),
    ("x, e = .a + \"s\"", "string,"),
    ("x, e = .a < 1", "boolean,"),
    ("x, e = [.a + 1]", "array,"),
    ("x, e = {\"a\": .a + 1}", "object,"),
    ("x, e = ({ .a + 1; t'2024-01-02T03:04:05Z' })", "timestamp,"),
    ("x, e = ({ .a + 1; r'a' })", "null,"),
    ("x, e = .a + .b", "null,"),
    ("x, e = \"a\" + 1", "null,"),
    (
        "x, e = ({ c, d = .a + 1; .b + \"s\" })\nf, g = .a < 1",
        "string,integer,boolean,",
    ),
    ("abort\nx, e = .a + 1", "null,"),
];

#[test]
fn empty_values(rt: HostRuntime) -> Result<(), Memory> {
    expect(&rt, rt.alloc(), Asked::Empties, &EMPTIES)
}

const LOOPS: [(&str, &str); 8] = [
    ("1", ""),
    ("for_each([1]) -> |i, v| { v }", "alive,"),
    // A collection without parts, and a closure that isn't one for the function.
    (
        "for_each([]) -> |i, v| { for_each([1]) -> |j, w| { w } }",
        "alive,dead,",
    ),
    ("for_each([1]) -> |i| { i }", "dead,"),
    (
        "filter(map_values([1]) -> |v| { v }) -> |i, v| { true }",
        "alive,alive,",
    ),
    ("abs(1) -> |v| { v }", "dead,"),
    ("abs(abs(1) -> |v| { v }) -> |w| { w }", "dead,dead,"),
    (
        "x = { \"a\": abs(1) -> |v| { abs(v) -> |w| { w } } }\nif is_null(x) -> |v| { v } { x = 1 }",
        "dead,dead,dead,",
    ),
];

#[test]
fn what_is_known_of_closures(rt: HostRuntime) -> Result<(), Memory> {
    expect(&rt, rt.alloc(), Asked::Loops, &LOOPS)
}

ghost use Rattle.std.specs.Prelude.{◌≤◌, length};

// Scripts: which texts are accepted, and what is wrong with the others.
use std::alloc::Global;
use std::process::Abort;
use vrl_compile::{Compiled, Diagnostics, SCRIPT_LIMIT, compile};
use vrl_kind::Kind;
use vrl_resolve::Program;
use vrl_tests::shareable;
use vrl_value::Memory;

/// What is wrong with a script, whether or not it is accepted.
fn diagnostics_of(alloc: Global, text: &str) -> Result<Diagnostics, Memory>
    requires { length text.now ≤ 65536 }
{
    match compile(alloc, text, &Kind::any(alloc))? {
        Compiled::Accepted(accepted) => {
            let judged = accepted.judged;
            Ok(judged.diagnostics)
        }
        Compiled::Refused(diagnostics) => Ok(diagnostics),
    }
}

/// Scripts with one diagnostic, its code, and where it starts and ends.
fn expect_codes(
    rt: &impl Abort,
    alloc: Global,
    rows: &[(&str, u16, u32, u32)],
) -> Result<(), Memory> {
    for (text, code, start, end) in rows {
        assert!(rt; text.len() <= SCRIPT_LIMIT);
        let diagnostics = diagnostics_of(alloc, text)?;
        let is_so = matches!(diagnostics.as_slice(), [one]
            if one.code == *code && one.span.start == *start && one.span.end == *end);
        assert!(rt; is_so, "at {text:?}");
    }
    Ok(())
}

/// Whether a script is accepted without a warning.
fn is_accepted(alloc: Global, text: &str) -> Result<bool, Memory>
    requires { length text.now ≤ 65536 }
{
    match compile(alloc, text, &Kind::any(alloc))? {
        Compiled::Accepted(accepted) => Ok(accepted.judged.diagnostics.as_slice().is_empty()),
        Compiled::Refused(_) => Ok(false),
    }
}

/// Scripts that are accepted without a warning.
fn expect_accepted(rt: &impl Abort, alloc: Global, rows: &[&str]) -> Result<(), Memory> {
    for text in rows {
        assert!(rt; text.len() <= SCRIPT_LIMIT);
        assert!(rt; is_accepted(alloc, text)?, "at {text:?}");
    }
    Ok(())
}

const ACCEPTED: [&str; 29] = [
    "",
    " \t\r\n\r\n",
    "# 1",
    "1",
    ".y = .a + 1 ?? 0",
    "x = \"a\" + \"b\"",
    " .a\t=\r.b + \"\" ?? 2 + 3 ",
    ".x=-5",
    "\"é \t'\" # b",
    ".if = .null_",
    "\n.x = 1\n \r\n\nx_1 = .x\r\nx_1 + 2\n",
    ".x = 1; .y = 2",
    ".x =\n1",
    ".x = .y + 1\n?? 2",
    ".\"a b\" = s'\\n'",
    ".x = \"\\n{\"",
    ".x = 1_000",
    ".x = true",
    ".x = r'a'",
    ".x = (1)",
    ".x = [1]",
    ".x = {\"a\": 1}",
    ".x = .a[0]",
    ".x = 1 - 1",
    ".x == 1",
    ".x = y = 1",
    ".a.b = 1",
    "{ 1 }",
    "abort",
];

#[test]
fn built_scripts_are_accepted(rt: HostRuntime) -> Result<(), Memory> {
    expect_accepted(&rt, rt.alloc(), &ACCEPTED)
}

/// 65 brackets, each in the one before it.
const NESTED: &str = "(((((((((((((((((((((((((((((((((((((((((((((((((((((((((((((((((";

const REFUSED: [(&str, u16, u32, u32); 37] = [
    // Spellings at fault.
    (".x = \"a", 203, 5, 7),
    (".x = \"{{ 1 }}\"", 1016, 5, 14),
    (".x = 1.5", 1001, 5, 8),
    (".n = 9223372036854775808", 1002, 5, 24),
    (".x = 1 / 2", 1003, 7, 8),
    (".x = t'now'", 1014, 5, 11),
    // Nesting.
    (NESTED, 1008, 0, 0),
    // No script.
    (".x =", 203, 4, 4),
    (".x = 1 +", 203, 8, 8),
    ("if = 1", 203, 3, 4),
    (".x = 1 ?? ?? 2", 203, 10, 12),
    ("x y", 203, 2, 3),
    ("1\n=", 203, 2, 3),
    // Paths beyond the limits.
    (".a[-65537] = 1", 1012, 0, 10),
    (".a[65536] = 1", 1012, 0, 9),
    (".a[65536] = 1; .a[-65537] = 2", 1012, 0, 9),
    ("del(.a[-65537])", 1012, 4, 14),
    // Regex literals that are malformed.
    (".x = r'('", 101, 5, 9),
    ("f(r'a', r'[')", 101, 8, 12),
    // The judgement.
    (".y = .a + 1", 103, 0, 11),
    (".a + 1", 100, 0, 6),
    (".y = 1 ?? 2", 651, 5, 11),
    (".x = 1\n?? 2", 651, 5, 11),
    (".y = z", 701, 5, 6),
    (".x = \"{{ a }}\"", 701, 9, 10),
    ("n = 1\n.x = \"a{{ n }}c\"", 103, 6, 22),
    (".y = _", 701, 5, 6),
    (".y = \"a\" + 1\n.z = q", 103, 0, 12),
    (".x = x.a", 701, 5, 8),
    ("_ = 1", 640, 0, 5),
    (". = 1", 1006, 0, 5),
    ("% = 3", 1017, 0, 5),
    (".x, e = 1", 104, 0, 9),
    ("!x", 701, 1, 2),
    ("f(1)", 105, 0, 1),
    ("if x { 1 }", 701, 3, 4),
    ("return q", 701, 7, 8),
];

#[test]
fn scripts_are_refused(rt: HostRuntime) -> Result<(), Memory> {
    expect_codes(&rt, rt.alloc(), &REFUSED)
}

// A program, which threads may be sent and share.
fn shared(program: Program) -> Program {
    shareable(program)
}

#[test]
fn an_accepted_script_is_told_whole(rt: HostRuntime) -> Result<(), Memory> {
    let alloc = rt.alloc();
    let declared = Kind::any(alloc);
    let Compiled::Accepted(accepted) = compile(alloc, ".x = .y ?? r'a'", &declared)? else {
        panic!(rt; "refused");
    };
    assert!(rt; accepted.judged.diagnostics.as_slice().len() == 1);
    assert!(rt; matches!(accepted.sources.as_slice(), [source] if source.as_str() == "a"));
    let _program = shared(accepted.program);
    Ok(())
}

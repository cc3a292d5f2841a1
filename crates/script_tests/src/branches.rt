// Branches, blocks and calls by themselves, and how they end.
use crate::running::{Row, expect_rows, unchanged};
use vrl_value::Memory;

// Blocks, branches and ends.
const BRANCHES: [Row; 22] = [
    unchanged!("{ x = 1 }", "= 1"),
    ("x = 1\n{ x = 2; y = 3 }\nx", "{}", "= 2", "{}", "{\"x\":2}"),
    unchanged!("({ x = 1; to_int(\"q\") }) ?? 2", "= 2"),
    unchanged!("{ x = 1; return x }", "= 1"),
    (
        "{ x = {\"a\":1} }\nx.b = 2",
        "{}",
        "= 2",
        "{}",
        "{\"x\":{\"b\":2}}",
    ),
    unchanged!("if true { x = 1 }", "= 1"),
    (
        "if (x = true) { y = 1 }\nx",
        "{}",
        "= true",
        "{}",
        "{\"x\":true}",
    ),
    unchanged!("if false { 1 } else if true { 2 } else { 3 }", "= 2"),
    unchanged!("if false { 1 } else { 3 }", "= 3"),
    unchanged!("if false { 1 }", "= null"),
    ("y = { 1; 2 }", "{}", "= 2", "{}", "{\"y\":2}"),
    (
        "y = if true { .a = 5 } else { 1 }",
        "{}",
        "= 5",
        "{\"a\":5}",
        "{\"y\":5}",
    ),
    ("y = { }", "{}", "= {}", "{}", "{\"y\":{}}"),
    (
        "{ x = 1; { y = 2; x = y } ; .a = x }",
        "{}",
        "= 2",
        "{\"a\":2}",
        "{}",
    ),
    unchanged!("abort", "abort"),
    unchanged!("abort \"a\" + \"b\"", "abort ab"),
    (".b = 1\nabort", "{}", "abort", "{\"b\":1}", "{}"),
    unchanged!("return .a\n.b = 1", "{\"a\":2}", "= 2"),
    unchanged!("x = [1, (abort), 2]", "abort"),
    (
        "[(x = 1), (x = 2), x]",
        "{}",
        "= [1,2,2]",
        "{}",
        "{\"x\":2}",
    ),
    unchanged!("{\"a\": 1, \"a\": 2, \"b\": 3}", "= {\"a\":2,\"b\":3}"),
    (
        "{\"b\": (x = 1), \"a\": (x = 2)}",
        "{}",
        "= {\"a\":2,\"b\":1}",
        "{}",
        "{\"x\":2}",
    ),
];

// Calls.
const CALLS: [Row; 13] = [
    (
        "x, e = mod(7, 0)",
        "{}",
        "= 0",
        "{}",
        "{\"e\":\"mod: modulus is 0\",\"x\":0}",
    ),
    unchanged!("mod(modulus: 4, value: 7)", "= 3"),
    ("mod((x = 7), (x = 4)) ?? 0", "{}", "= 3", "{}", "{\"x\":4}"),
    (
        "mod(modulus: (x = 4), value: (x = 7)) ?? 0",
        "{}",
        "= 3",
        "{}",
        "{\"x\":7}",
    ),
    (
        "x = 7\nmod(x, (x = 4)) ?? 0",
        "{}",
        "= 3",
        "{}",
        "{\"x\":4}",
    ),
    ("mod((x = 7), x) ?? 9", "{}", "= 0", "{}", "{\"x\":7}"),
    (
        "x, e = mod(.a, .b)",
        "{\"a\":\"a\",\"b\":\"b\"}",
        "= 0",
        "{\"a\":\"a\",\"b\":\"b\"}",
        "{\"e\":\"mod: argument value is string\",\"x\":0}",
    ),
    (
        "x, e = mod(modulus: .b, value: .a)",
        "{\"a\":null,\"b\":\"b\"}",
        "= 0",
        "{\"a\":null,\"b\":\"b\"}",
        "{\"e\":\"mod: argument value is null\",\"x\":0}",
    ),
    (
        "x, e = mod(1, .b)",
        "{\"b\":[]}",
        "= 0",
        "{\"b\":[]}",
        "{\"e\":\"mod: argument modulus is array\",\"x\":0}",
    ),
    unchanged!(
        "x = 1\ny = abs!((x = .a))",
        "{\"a\":\"s\"}",
        "bang abs: argument value is string"
    ),
    (
        ".b = 2\nx = int!(.a)",
        "{\"a\":\"s\"}",
        "bang int: value is string",
        "{\"a\":\"s\",\"b\":2}",
        "{}",
    ),
    unchanged!(
        "x = mod!(.a, (to_int!(.a)))",
        "{\"a\":\"s\"}",
        "bang to_int: not a whole number"
    ),
    unchanged!("is_empty([]) && exists(.a)", "= false"),
];

#[test]
fn branches(rt: HostRuntime) -> Result<(), Memory> {
    expect_rows(&rt, rt.alloc(), &BRANCHES)
}

#[test]
fn calls(rt: HostRuntime) -> Result<(), Memory> {
    expect_rows(&rt, rt.alloc(), &CALLS)
}

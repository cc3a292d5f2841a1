// Calls of functions, `del` and `exists`: what is wrong with them, the kind of what they give, and
// what is known then.
use crate::judgement::{Asked, expect};
use vrl_value::Memory;

const FUNCTIONS: [(&str, &str); 38] = [
    (".x = to_int(.x)", "103 1:1"),
    ("to_int(.x)", "100 1:1"),
    ("mod(1, 0)", "100 1:1"),
    ("mod(1, 2)", ""),
    (".x, err = to_int(.x)\n.y = .x + 1", ""),
    (".v, .e = to_int(.x)", ""),
    (
        "x = 1\n.r = ({ x = \"s\"; to_int(.a) }) ?? 0\n.s = x + 1",
        "103 3:1",
    ),
    (
        "x = \"s\"\n.r = (to_int(.a) + (x = 1)) ?? x\n.s = .r + 1",
        "103 3:1",
    ),
    ("if !is_string(.m) { abort }", ""),
    ("x = to_int!(.a)", ""),
    (".x = abs(.a)", "103 1:1"),
    (".x = abs(.a) ?? 0", ""),
    (".x = abs(1) ?? 0", "651 1:6"),
    (".x = to_int!(.a) ?? 0", "651 1:6"),
    (".x = is_string(.a)", ""),
    (".x = is_empty(.a)", "103 1:1"),
    (".x = is_empty([])", ""),
    (".x = to_string(.a)", "103 1:1"),
    (".x = to_string(1)", ""),
    (".x = to_bool(1)", ""),
    (".x = to_bool(\"a\")", "103 1:1"),
    (".x = string(.a)", "103 1:1"),
    (".x = string(\"a\")", ""),
    (".x = parse_int(\"1\")", "103 1:1"),
    (".x = format_int(255)", ""),
    (".x = mod(7, (2))", "103 1:1"),
    (".x = mod(7, 1 + 1)", "103 1:1"),
    ("y = 2\n.x = mod(7, y)", "103 2:1"),
    ("x = \"s\"\n.r = mod(.a, (x = 2)) ?? x\n.s = .r + 1", ""),
    ("x = array([1, \"s\"])\n.r = x[0] + 1", ""),
    ("x = array!(.a)\n.r = x[0] + 1", "103 2:1"),
    ("x = object({\"a\": 1})\n.r = x.a + 1", ""),
    (".r = array([1])[0] + 1", ""),
    ("x = abs!(.a)\n.y = x + 1", ""),
    ("%, err = to_int(.a)", "1017 1:1"),
    ("%, err = parse_json(.a)", ""),
    ("ok, % = parse_json(.a)", "1017 1:1"),
    ("% = parse_json!(.a)", ""),
];

#[test]
fn codes_of_calls(rt: HostRuntime) -> Result<(), Memory> {
    expect(&rt, rt.alloc(), Asked::Codes, &FUNCTIONS)
}

const BINDINGS: [(&str, &str); 44] = [
    ("foo(1)", "105 1:1"),
    (".x = foo(1)", "105 1:6"),
    ("foo!(1)", "105 1:1"),
    ("foo(q)", "105 1:1, 701 1:5"),
    ("foo(.a + 1)", "105 1:1"),
    ("foo(v: 1, v: 2)", "105 1:1"),
    ("foo(1) -> |v| { q }", "105 1:1"),
    ("foo(1) ?? q", "105 1:1"),
    ("abs(1, 2)", "106 1:1"),
    ("abs(1, value: 2)", "106 1:1"),
    ("abs(v: 1, w: 2)", "106 1:1"),
    ("mod(1, 2, 3)", "106 1:1"),
    ("int(value: 1, value: 2)", "106 1:1"),
    ("mod(v: 1, v: 2)", "106 1:1"),
    ("mod(value: 1, value: 2)", "106 1:1"),
    ("abs(.a + 1, 2)", "106 1:1"),
    ("abs(q, 2)", "106 1:1, 701 1:5"),
    ("abs(v: 1)", "108 1:5"),
    ("mod(v: 1, w: 2)", "108 1:5"),
    ("mod(1, w: 2)", "108 1:8"),
    ("mod(value: 1, w: 2)", "108 1:15"),
    ("mod(w: 2)", "108 1:5"),
    ("mod(w: .a + 1, 2)", "108 1:5"),
    ("abs()", "107 1:1"),
    ("abs!()", "107 1:1"),
    ("mod(1)", "107 1:1"),
    ("mod(modulus: 2)", "107 1:1"),
    ("mod(\"a\")", "107 1:1"),
    ("mod(q)", "107 1:1, 701 1:5"),
    (".x = mod(7, 2)", ""),
    (".x = mod(modulus: 2, value: 7)", ""),
    (".x = mod(2, value: 7)", ""),
    (".x = mod(modulus: 2, 7)", ""),
    (".x = mod(value: 0, 2)", ""),
    (".x = mod(0, value: 7)", "103 1:1"),
    (".x = mod(modulus: 0, 7)", "103 1:1"),
    (".x = mod(value: 2, 0)", "103 1:1"),
    (".x = mod(7, modulus: 0)", "103 1:1"),
    (".x = format_int(base: 16, value: 255)", ""),
    (".x = format_int(16, value: 255)", ""),
    (".x = format_int(base: 99, 255)", "103 1:1"),
    (".x = format_int(255, base: 1)", "103 1:1"),
    ("x = \"s\"\n.r = mod(modulus: (x = 2), value: x) ?? 0", ""),
    (
        "x = \"s\"\n.r = mod(value: x, modulus: (x = 2)) ?? 0",
        "110 2:17",
    ),
];

#[test]
fn codes_of_bindings(rt: HostRuntime) -> Result<(), Memory> {
    expect(&rt, rt.alloc(), Asked::Codes, &BINDINGS)
}

const ARGUMENTS: [(&str, &str); 29] = [
    ("parse_int(1)", "110 1:11"),
    ("abs(\"a\")", "110 1:5"),
    (".x = abs(\"a\")", "110 1:10"),
    (".x = abs(\"a\") ?? 1", "110 1:10"),
    (".a = parse_int(to_int!(.b))", "110 1:16"),
    ("mod(\"a\", true)", "110 1:5, 110 1:10"),
    ("mod(modulus: true, value: \"a\")", "110 1:14, 110 1:27"),
    ("abs(parse_int(1))", "110 1:15"),
    ("x = int!(\"a\")\nabs(x)", "110 2:5"),
    ("abs(!1)", "660 1:5"),
    ("abs(q)", "701 1:5"),
    ("abs((abort))", ""),
    ("abs(abort)", ""),
    ("mod((abort), \"a\")", ""),
    ("mod(\"a\", (abort))", "110 1:5"),
    ("abs(.a + 1)", "630 1:5"),
    ("abs(\"a\" + 1)", "630 1:5"),
    ("is_string(to_int(.a))", "630 1:11"),
    ("mod(.a + 1, .b + 1)", "630 1:5, 630 1:13"),
    ("abs(to_string(.a))", "630 1:5"),
    ("mod(\"a\", .b + 1)", "110 1:5, 630 1:10"),
    ("abs(1) -> |v| { v }", "1010 1:1"),
    ("abs(\"a\") -> |v| { q }", "1010 1:1, 110 1:5"),
    ("abs(.a + 1) -> |v| { v }", "1010 1:1, 630 1:5"),
    ("abs(q) -> |v| { v }", "1010 1:1, 701 1:5"),
    ("abs(v: 1) -> |v| { v }", "108 1:5"),
    ("abs() -> |v| { v }", "107 1:1"),
    ("abs(1, 2) -> |v| { v }", "106 1:1"),
    (".x = abs(.a) -> |v| { v }", "1010 1:6"),
];

#[test]
fn codes_of_arguments(rt: HostRuntime) -> Result<(), Memory> {
    expect(&rt, rt.alloc(), Asked::Codes, &ARGUMENTS)
}

const BANGS: [(&str, &str); 24] = [
    ("abs!(1)", "620 1:1"),
    ("abs!(.a)", ""),
    ("to_int!(1)", "620 1:1"),
    ("to_int!(.a)", ""),
    ("is_string!(.a)", "620 1:1"),
    ("string!(\"a\")", "620 1:1"),
    ("string!(.a)", ""),
    ("mod!(1, 2)", "620 1:1"),
    ("mod!(1, 0)", ""),
    ("parse_int!(\"1\")", ""),
    ("format_int!(1)", "620 1:1"),
    ("abs!((abort))", "620 1:1"),
    (".x = abs!(1) ?? 0", "620 1:6"),
    ("abs!(\"a\")", "110 1:6"),
    ("abs!(.a + 1)", "630 1:6"),
    ("abs!(q)", "701 1:6"),
    ("abs!(v: 1)", "108 1:6"),
    ("abs!(1) -> |v| { v }", "1010 1:1"),
    ("abs!(.a) -> |v| { v }", "1010 1:1"),
    ("del!(.a)", "620 1:1"),
    ("exists!(.a)", "620 1:1"),
    ("del!(q)", "701 1:6"),
    ("del!(1)", "1013 1:6"),
    ("del!(.a) -> |v| { v }", "1010 1:1"),
];

#[test]
fn codes_of_bangs(rt: HostRuntime) -> Result<(), Memory> {
    expect(&rt, rt.alloc(), Asked::Codes, &BANGS)
}

const PATHS: [(&str, &str); 57] = [
    ("del(.a)", ""),
    (".x = del(.a)", ""),
    ("del(value: .a)", ""),
    ("del(.)", ""),
    ("exists(.a)", ""),
    ("exists(.)", ""),
    ("exists(value: .a)", ""),
    (
        "if exists(.k) { .v = 1 } else { .v = \"s\" }\n.w = .v + 1",
        "103 2:1",
    ),
    ("if exists(.q) { return 1 }\n.r = 2", ""),
    ("if del(.a) { }", "102 1:4"),
    ("del()", "107 1:1"),
    ("del(.a, .b)", "106 1:1"),
    ("del(.a, value: .b)", "106 1:1"),
    ("del(value: .a, value: .b)", "106 1:1"),
    ("del(v: .a)", "108 1:5"),
    ("exists()", "107 1:1"),
    ("exists(.a, .b)", "106 1:1"),
    ("exists(v: .a)", "108 1:8"),
    ("del(1)", "1013 1:5"),
    ("del((.a))", "1013 1:5"),
    ("del([1][0])", "1013 1:5"),
    ("del(is_string(.a))", "1013 1:5"),
    ("del(is_string(.a).b)", "1013 1:5"),
    ("del(x = 1)", "1013 1:5"),
    ("del(abort)", "1013 1:5"),
    ("exists(1)", "1013 1:8"),
    ("exists(.a == 1)", "1013 1:8"),
    ("exists((abort))", "1013 1:8"),
    ("del(!1)", "660 1:5, 1013 1:5"),
    ("del(abs(\"a\"))", "1013 1:5, 110 1:9"),
    ("del(to_int(.a))", "630 1:5"),
    ("x = int!(\"a\")\ndel(x)", "110 2:5"),
    ("x = int!(\"a\")\nexists(x)", "110 2:8"),
    ("x = int!(\"a\")\ndel((x))", "110 2:5"),
    ("del(.a) -> |v| { v }", "1010 1:1"),
    ("del(1) -> |v| { v }", "1010 1:1, 1013 1:5"),
    ("exists(.a) -> |v| { q }", "1010 1:1"),
    ("exists(1) -> |v| { v }", "1010 1:1, 1013 1:8"),
    ("del(q)", "701 1:5"),
    ("del(q.a)", "701 1:5"),
    ("exists(q)", "701 1:8"),
    ("exists(q.a)", "701 1:8"),
    ("del(q)\n.r = q", "701 1:5, 701 2:6"),
    ("x = {\"a\": 1}\ndel(x.a)\n.r = x.a", ""),
    ("x = {\"a\": 1}\ndel(x.a)\n.r = x.a + 1", "103 3:1"),
    ("x = {\"a\": 1}\ndel(x.a)\n.r = x.a + \"t\"", ""),
    (
        "x = {\"a\": 1, \"b\": \"s\"}\n.r = del(x.a) + 1\n.s = x.b + \"t\"",
        "",
    ),
    ("x = {\"a\": {\"b\": 1}}\n.r = del(x.a).b + 1", ""),
    ("x = [\"s\", 1]\ndel(x[0])\n.r = x[0] + 1", ""),
    ("x = 1\n.r = del(x) + 1\n.s = x + \"t\"", ""),
    ("x = 1\ndel(x)\n.r = x + 1", "103 3:1"),
    ("del(.)\n.r = .a + \"t\"", ""),
    ("del(.)\n.r = .a + 1", "103 2:1"),
    ("%a = 1\ndel(%)\n.r = %a + \"t\"", ""),
    ("%a = 1\ndel(%)\n.r = %a + 1", "103 3:1"),
    ("x = {\"a\": 1}\nexists(x.a)\n.r = x.a + 1", ""),
    (
        "x = {\"a\": 1}\ndel(x.a) -> |v| { v }\n.r = x.a + 1",
        "1010 2:1",
    ),
];

#[test]
fn codes_of_paths(rt: HostRuntime) -> Result<(), Memory> {
    expect(&rt, rt.alloc(), Asked::Codes, &PATHS)
}

const ENDS: [(&str, &str); 30] = [
    ("is_string(.a)", "boolean; . {..json}; % {..json}"),
    ("to_int!(.a)", "integer; . {..json}; % {..json}"),
    ("string!(.a)", "string; . {..json}; % {..json}"),
    ("bool!(.a)", "boolean; . {..json}; % {..json}"),
    ("array!(.a)", "[..json]; . {..json}; % {..json}"),
    ("object!(.a)", "{..json}; . {..json}; % {..json}"),
    ("timestamp!(.a)", "never; . {..json}; % {..json}"),
    ("int!(\"a\")", "never; . {..json}; % {..json}"),
    (
        "array([1, \"s\"])",
        "[integer, string]; . {..json}; % {..json}",
    ),
    (
        "object({\"a\": 1})",
        "{\"a\": integer}; . {..json}; % {..json}",
    ),
    ("abs(-3)", "integer; . {..json}; % {..json}"),
    ("abs!(.a)", "integer; . {..json}; % {..json}"),
    ("format_int(1)", "string; . {..json}; % {..json}"),
    (
        "x = abs(.a) ?? \"s\"",
        "string|integer; . {..json}; % {..json}; x string|integer",
    ),
    (
        "x = string({\"a\": 1}) ?? 1",
        "integer; . {..json}; % {..json}; x integer",
    ),
    (
        ".v, .e = to_int(.x)",
        "integer; . {\"e\": string|null, \"v\": integer, ..json}; % {..json}",
    ),
    ("abs(abort)", "never; dead"),
    ("abs((return 1))", "integer; . {..json}; % {..json}"),
    ("exists(.a)", "boolean; . {..json}; % {..json}"),
    (
        "x = {\"a\": 1}\nexists(x.a)",
        "boolean; . {..json}; % {..json}; x {\"a\": integer}",
    ),
    ("del(.a)", "json; . {\"a\"?: never, ..json}; % {..json}"),
    ("del(.)", "{..json}; . {}; % {..json}"),
    ("del(%)", "{..json}; . {..json}; % {}"),
    (
        "%a = 1\ndel(%)",
        "{\"a\": integer, ..json}; . {..json}; % {}",
    ),
    ("del(%)\n.r = %a", "null; . {\"r\": null, ..json}; % {}"),
    ("x = 1\ndel(x)", "integer; . {..json}; % {..json}; x null"),
    (
        "x = {\"a\": 1}\ndel(x.a)",
        "integer; . {..json}; % {..json}; x {}",
    ),
    (
        "x = {\"a\": 1, \"b\": \"s\"}\ndel(x.a)",
        "integer; . {..json}; % {..json}; x {\"b\": string}",
    ),
    (
        "x = [1, \"s\"]\ndel(x[0])",
        "integer; . {..json}; % {..json}; x [string]",
    ),
    (
        "x = [1, \"s\"]\ndel(x[1])",
        "string; . {..json}; % {..json}; x [integer]",
    ),
];

#[test]
fn ends_of_calls(rt: HostRuntime) -> Result<(), Memory> {
    expect(&rt, rt.alloc(), Asked::End, &ENDS)
}

const EMPTIES: [(&str, &str); 7] = [
    ("abs((x, e = .a + 1))", "integer,"),
    ("foo((x, e = .a + 1))", "integer,"),
    ("abs(1) -> |v| { c, d = .b + \"s\" }", "null,"),
    (
        "abs((x, e = .a + 1)) -> |v| { c, d = .b + \"s\" }",
        "integer,null,",
    ),
    (
        "foo((x, e = .a + 1)) -> |v| { c, d = .b + \"s\" }",
        "integer,null,",
    ),
    ("mod((x, e = .a + 1), (c, d = .a < 1))", "integer,boolean,"),
    (
        "abort\nabs((x, e = .a + 1)) -> |v| { c, d = .b + \"s\" }",
        "null,null,",
    ),
];

#[test]
fn empty_values_of_calls(rt: HostRuntime) -> Result<(), Memory> {
    expect(&rt, rt.alloc(), Asked::Empties, &EMPTIES)
}

// Paths, writes and operators, each by itself.
use crate::running::{Row, expect_rows, unchanged};
use vrl_value::Memory;

// What reads.
const READING: [Row; 15] = [
    unchanged!(".a.b", "{\"a\":{\"b\":7}}", "= 7"),
    unchanged!(".a.b", "{\"a\":[1]}", "= null"),
    unchanged!(".a[0].b", "{\"a\":{}}", "= null"),
    unchanged!(".a[-1]", "{\"a\":[1,2]}", "= 2"),
    unchanged!(".a[-3]", "{\"a\":[1,2]}", "= null"),
    unchanged!(".a[2]", "{\"a\":[1,2]}", "= null"),
    (". = [1,2]\n.[-2]", "{}", "= 1", "[1,2]", "{}"),
    ("x = 5\nx", "{}", "= 5", "{}", "{\"x\":5}"),
    ("x = null\nexists(x)", "{}", "= true", "{}", "{\"x\":null}"),
    ("x = {}\nexists(x.a)", "{}", "= false", "{}", "{\"x\":{}}"),
    unchanged!("exists(.)", "= true"),
    unchanged!("exists(.a)", "{\"a\":null}", "= true"),
    unchanged!("exists(.a[-1])", "{\"a\":[]}", "= false"),
    unchanged!("([1,[2,3]])[1][0]", "= 2"),
    unchanged!("({\"a\":1}).b", "= null"),
];

// What writes and removes.
const WRITING: [Row; 24] = [
    ("x.a = 1", "{}", "= 1", "{}", "{\"x\":{\"a\":1}}"),
    ("x = 1\nx.a = 2", "{}", "= 2", "{}", "{\"x\":{\"a\":2}}"),
    (
        ".a.b[1] = 1",
        "{\"a\":3}",
        "= 1",
        "{\"a\":{\"b\":[null,1]}}",
        "{}",
    ),
    (". = [1]\n.a = 2", "{}", "= 2", "{\"a\":2}", "{}"),
    (".a = .b = 3", "{}", "= 3", "{\"a\":3,\"b\":3}", "{}"),
    ("del(.a)", "{\"a\":1,\"b\":2}", "= 1", "{\"b\":2}", "{}"),
    (
        "del(.a[0])",
        "{\"a\":[1,2,3]}",
        "= 1",
        "{\"a\":[2,3]}",
        "{}",
    ),
    unchanged!("del(.a.b)", "{\"a\":1}", "= null"),
    ("del(.)", "{\"a\":1}", "= {\"a\":1}", "{}", "{}"),
    ("x = 1\ndel(x)", "{}", "= 1", "{}", "{\"x\":null}"),
    (
        "x = {\"a\":1}\ndel(x.b)",
        "{}",
        "= null",
        "{}",
        "{\"x\":{\"a\":1}}",
    ),
    (
        "x = [1,{\"a\":2}]\ndel(x[1].a)",
        "{}",
        "= 2",
        "{}",
        "{\"x\":[1,{}]}",
    ),
    ("del(value: .a)", "{\"a\":1}", "= 1", "{}", "{}"),
    (
        ".a = {\"b\":2,\"c\":1}\n.a |= {\"c\":3}",
        "{}",
        "= {\"b\":2,\"c\":3}",
        "{\"a\":{\"b\":2,\"c\":3}}",
        "{}",
    ),
    (
        ". |= {\"c\":3}\n.d = 1",
        "{\"a\":1}",
        "= 1",
        "{\"a\":1,\"c\":3,\"d\":1}",
        "{}",
    ),
    (
        "a, b = 1 + \"s\"",
        "{}",
        "= null",
        "{}",
        "{\"a\":null,\"b\":\"cannot apply + to integer and string\"}",
    ),
    (
        "a, b = .x + 1",
        "{\"x\":2}",
        "= 3",
        "{\"x\":2}",
        "{\"a\":3,\"b\":null}",
    ),
    (
        "a, a = .x + 1",
        "{\"x\":2}",
        "= 3",
        "{\"x\":2}",
        "{\"a\":null}",
    ),
    (
        "_, b = .x + 1",
        "{\"x\":2}",
        "= 3",
        "{\"x\":2}",
        "{\"b\":null}",
    ),
    (
        "_, b = .x + 1",
        "{\"x\":\"q\"}",
        "= 0",
        "{\"x\":\"q\"}",
        "{\"b\":\"cannot apply + to string and integer\"}",
    ),
    (
        "a, _ = .x + 1",
        "{\"x\":\"q\"}",
        "= 0",
        "{\"x\":\"q\"}",
        "{\"a\":0}",
    ),
    (
        "a, b = ({ .c, .d = .x + 1; .y + \"s\" })",
        "{\"x\":\"q\",\"y\":1}",
        "= \"\"",
        "{\"c\":0,\"d\":\"cannot apply + to string and integer\",\"x\":\"q\",\"y\":1}",
        "{\"a\":\"\",\"b\":\"cannot apply + to integer and string\"}",
    ),
    (
        "err = \"old\"\na, err = to_int(.x)",
        "{\"x\":\"7\"}",
        "= 7",
        "{\"x\":\"7\"}",
        "{\"a\":7,\"err\":null}",
    ),
    (
        "a = .x; .y = a; a",
        "{\"x\":5}",
        "= 5",
        "{\"x\":5,\"y\":5}",
        "{\"a\":5}",
    ),
];

// The empty value of each tag.
const EMPTIES: [Row; 9] = [
    (
        ".v, _ = string(.x)",
        "{\"x\":1}",
        "= \"\"",
        "{\"v\":\"\",\"x\":1}",
        "{}",
    ),
    (
        ".v, _ = int(.x)",
        "{\"x\":\"s\"}",
        "= 0",
        "{\"v\":0,\"x\":\"s\"}",
        "{}",
    ),
    (
        ".v, _ = bool(.x)",
        "{\"x\":1}",
        "= false",
        "{\"v\":false,\"x\":1}",
        "{}",
    ),
    (
        ".v, _ = object(.x)",
        "{\"x\":1}",
        "= {}",
        "{\"v\":{},\"x\":1}",
        "{}",
    ),
    (
        ".v, _ = array(.x)",
        "{\"x\":1}",
        "= []",
        "{\"v\":[],\"x\":1}",
        "{}",
    ),
    (
        "y, _ = ({ .x + 1; t'2024-01-02T03:04:05Z' })\ny = y == t'1970-01-01T00:00:00Z'",
        "{\"x\":\"s\"}",
        "= true",
        "{\"x\":\"s\"}",
        "{\"y\":true}",
    ),
    (
        ".v, _ = ({ .x + 1; null })",
        "{\"x\":\"s\"}",
        "= null",
        "{\"v\":null,\"x\":\"s\"}",
        "{}",
    ),
    (
        ".v, _ = ({ .x + 1; r'a' })",
        "{\"x\":\"s\"}",
        "= null",
        "{\"v\":null,\"x\":\"s\"}",
        "{}",
    ),
    (
        ".v, _ = .x + .x",
        "{\"x\":[]}",
        "= null",
        "{\"v\":null,\"x\":[]}",
        "{}",
    ),
];

// Operators.
const OPERATORS: [Row; 40] = [
    unchanged!("\"a\" + \"b\"", "= \"ab\""),
    unchanged!("(\"a\" + null + .x) ?? 0", "{\"x\":\"b\"}", "= \"ab\""),
    unchanged!("null + \"a\"", "= \"a\""),
    (
        "x, e = null + null",
        "{}",
        "= null",
        "{}",
        "{\"e\":\"cannot apply + to null and null\",\"x\":null}",
    ),
    (
        "x, e = true + 1",
        "{}",
        "= null",
        "{}",
        "{\"e\":\"cannot apply + to boolean and integer\",\"x\":null}",
    ),
    unchanged!("3 * -4", "= -12"),
    unchanged!("-9223372036854775808 - 1", "= 9223372036854775807"),
    unchanged!("4611686018427387904 * 2", "= -9223372036854775808"),
    (
        "x, e = \"a\" * .y",
        "{\"y\":2}",
        "= null",
        "{\"y\":2}",
        "{\"e\":\"cannot apply * to string and integer\",\"x\":null}",
    ),
    unchanged!("1 < 2", "= true"),
    unchanged!("2 <= 2", "= true"),
    unchanged!("2 > 2", "= false"),
    unchanged!("2 >= 3", "= false"),
    unchanged!("\"a\" < \"aa\"", "= true"),
    unchanged!("\"b\" >= \"aa\"", "= true"),
    unchanged!("\"é\" > \"z\"", "= true"),
    unchanged!(
        "t'2024-01-01T00:00:00Z' < t'2024-01-01T00:00:01Z'",
        "= true"
    ),
    (
        "x, e = .a < 1",
        "{\"a\":\"b\"}",
        "= false",
        "{\"a\":\"b\"}",
        "{\"e\":\"cannot apply < to string and integer\",\"x\":false}",
    ),
    (
        "x, e = [1] >= [1]",
        "{}",
        "= null",
        "{}",
        "{\"e\":\"cannot apply >= to array and array\",\"x\":null}",
    ),
    unchanged!("{\"a\":[1,null]} == {\"a\":[1,null]}", "= true"),
    unchanged!("{\"a\":1} != {\"a\":1,\"b\":2}", "= true"),
    unchanged!("1 == \"1\"", "= false"),
    unchanged!("r'a' != r'a'", "= true"),
    (
        "p = r'a'\ns = p == p\ndel(p)\ns",
        "{}",
        "= true",
        "{}",
        "{\"p\":null,\"s\":true}",
    ),
    unchanged!(
        "{\"a\":1,\"b\":2} | {\"b\":3,\"c\":4}",
        "= {\"a\":1,\"b\":3,\"c\":4}"
    ),
    unchanged!(". | {\"b\":3}", "{\"a\":1,\"b\":2}", "= {\"a\":1,\"b\":3}"),
    unchanged!("false || 2", "= 2"),
    unchanged!("null || 2", "= 2"),
    unchanged!("1 || (x = 2)", "= 1"),
    unchanged!(".a || 3", "{\"a\":false}", "= 3"),
    unchanged!("false && (x = true)", "= false"),
    unchanged!("null && (x = true)", "= false"),
    ("true && (x = true)", "{}", "= true", "{}", "{\"x\":true}"),
    unchanged!("true && null", "= false"),
    (
        "x, e = true && 1",
        "{}",
        "= false",
        "{}",
        "{\"e\":\"cannot apply && to integer\",\"x\":false}",
    ),
    (
        "x, e = \"s\" && true",
        "{}",
        "= null",
        "{}",
        "{\"e\":\"cannot apply && to string\",\"x\":null}",
    ),
    unchanged!("!true", "= false"),
    unchanged!("to_int(\"q\") ?? 3", "= 3"),
    unchanged!("(return 1) ?? 3", "= 1"),
    ("(x = 1) + x", "{}", "= 2", "{}", "{\"x\":1}"),
];

#[test]
fn reading(rt: HostRuntime) -> Result<(), Memory> {
    expect_rows(&rt, rt.alloc(), &READING)
}

#[test]
fn writing(rt: HostRuntime) -> Result<(), Memory> {
    expect_rows(&rt, rt.alloc(), &WRITING)
}

#[test]
fn empty_values(rt: HostRuntime) -> Result<(), Memory> {
    expect_rows(&rt, rt.alloc(), &EMPTIES)
}

#[test]
fn operators(rt: HostRuntime) -> Result<(), Memory> {
    expect_rows(&rt, rt.alloc(), &OPERATORS)
}

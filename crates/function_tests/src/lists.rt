// The functions of arrays. The expected answers are those of their rows.
use crate::calling::{expect_answers, expect_judged};
use vrl_value::Memory;

const ANSWERS: [(&str, &str, &str); 52] = [
    ("push", r#"[1];"a""#, r#"[1,"a"]"#),
    ("push", "[];null", "[null]"),
    ("push", "[[]];[]", "[[],[]]"),
    ("append", "[1];[2]", "[1,2]"),
    ("append", "[];[]", "[]"),
    ("append", "[];[1]", "[1]"),
    ("append", "[1,2];[]", "[1,2]"),
    ("includes", "[1];1", "true"),
    ("includes", "[];1", "false"),
    ("includes", r#"[1,"1"];"1""#, "true"),
    ("includes", r#"["1"];1"#, "false"),
    ("includes", r#"[{"a":[1]}];{"a":[1]}"#, "true"),
    ("includes", r#"[{"a":[1]}];{"a":[2]}"#, "false"),
    ("includes", "[[]];{}", "false"),
    ("includes", "[null];null", "true"),
    ("includes", "[false];true", "false"),
    ("unique", "[1,1,2]", "[1,2]"),
    ("unique", "[]", "[]"),
    (
        "unique",
        r#"[2,1,2,1,"1",[1],[1],{"a":1},{"a":1}]"#,
        r#"[2,1,"1",[1],{"a":1}]"#,
    ),
    ("unique", "[null,false,0,null]", "[null,false,0]"),
    ("flatten", "[1,[2,[3]]]", "[1,2,3]"),
    ("flatten", "[]", "[]"),
    ("flatten", "[[],[[]]]", "[]"),
    ("flatten", r#"[{"a":[1,[2]]},[3]]"#, r#"[{"a":[1,[2]]},3]"#),
    ("flatten", "{}", "{}"),
    (
        "flatten",
        r#"{"a":{"b":1,"c":{"d":2}}}"#,
        r#"{"a.b":1,"a.c.d":2}"#,
    ),
    (
        "flatten",
        r#"{"a":{},"b":[{"c":1}]}"#,
        r#"{"a":{},"b":[{"c":1}]}"#,
    ),
    ("flatten", r#"{"a":{"b":1},"a.b":2}"#, r#"{"a.b":2}"#),
    ("flatten", r#"{"a.b":1,"a":{"b":2}}"#, r#"{"a.b":1}"#),
    ("flatten", r#"{"a":{"b":1}};"_""#, r#"{"a_b":1}"#),
    ("flatten", r#"{"a":{"b":1}};"""#, r#"{"ab":1}"#),
    ("flatten", r#"{"a":{"":{"":1}}}"#, r#"{"a..":1}"#),
    ("zip", r#"[1,2];["a"]"#, r#"[[1,"a"]]"#),
    ("zip", "[];[1]", "[]"),
    ("zip", "[1];[]", "[]"),
    ("zip", "[1,2];[3,4]", "[[1,3],[2,4]]"),
    ("chunks", r#""abcde";2"#, r#"["ab","cd","e"]"#),
    ("chunks", r#""";3"#, "[]"),
    ("chunks", r#""abcd";2"#, r#"["ab","cd"]"#),
    ("chunks", r#""abc";3"#, r#"["abc"]"#),
    ("chunks", r#""abc";9223372036854775807"#, r#"["abc"]"#),
    ("chunks", r#""aé€😀b";1"#, r#"["a","é","€","😀","b"]"#),
    ("chunks", r#""aé€😀b";2"#, r#"["aé","€😀","b"]"#),
    ("chunks", r#""a";0"#, "!chunks: chunk_size below 1"),
    ("chunks", r#""";-1"#, "!chunks: chunk_size below 1"),
    ("compact", r#"[null,1,[""]]"#, "[1]"),
    ("compact", "[]", "[]"),
    ("compact", "{}", "{}"),
    (
        "compact",
        r#"{"a":{"b":null},"c":[[],{}],"d":0,"e":false,"f":" "}"#,
        r#"{"d":0,"e":false,"f":" "}"#,
    ),
    (
        "compact",
        r#"[[1,null],{"a":"","b":[0]}]"#,
        r#"[[1],{"b":[0]}]"#,
    ),
    (
        "push",
        "[[[[[[[[[[[[[[[[[[[[[[[[[[[[[[[[[[[[[[[[[[[[[[[[[[[[[[[[[[[[[[[[[[[[[[[[[[[[[[[[[[[[[[[[[[[[[[[[[[[[[[[[[[[[[[[[[[[[[[[[[[[[[[1]]]]]]]]]]]]]]]]]]]]]]]]]]]]]]]]]]]]]]]]]]]]]]]]]]]]]]]]]]]]]]]]]]]]]]]]]]]]]]]]]]]]]]]]]]]]]]]]]]]]]]]]]]]]]]]]]]]]]]]]]]]]]];2",
        "[[[[[[[[[[[[[[[[[[[[[[[[[[[[[[[[[[[[[[[[[[[[[[[[[[[[[[[[[[[[[[[[[[[[[[[[[[[[[[[[[[[[[[[[[[[[[[[[[[[[[[[[[[[[[[[[[[[[[[[[[[[[[[1]]]]]]]]]]]]]]]]]]]]]]]]]]]]]]]]]]]]]]]]]]]]]]]]]]]]]]]]]]]]]]]]]]]]]]]]]]]]]]]]]]]]]]]]]]]]]]]]]]]]]]]]]]]]]]]]]]]]]]]]]]]]],2]",
    ),
    (
        "push",
        "[];[[[[[[[[[[[[[[[[[[[[[[[[[[[[[[[[[[[[[[[[[[[[[[[[[[[[[[[[[[[[[[[[[[[[[[[[[[[[[[[[[[[[[[[[[[[[[[[[[[[[[[[[[[[[[[[[[[[[[[[[[[[[[[1]]]]]]]]]]]]]]]]]]]]]]]]]]]]]]]]]]]]]]]]]]]]]]]]]]]]]]]]]]]]]]]]]]]]]]]]]]]]]]]]]]]]]]]]]]]]]]]]]]]]]]]]]]]]]]]]]]]]]]]]]]]]]]",
        "[[[[[[[[[[[[[[[[[[[[[[[[[[[[[[[[[[[[[[[[[[[[[[[[[[[[[[[[[[[[[[[[[[[[[[[[[[[[[[[[[[[[[[[[[[[[[[[[[[[[[[[[[[[[[[[[[[[[[[[[[[[[[[[1]]]]]]]]]]]]]]]]]]]]]]]]]]]]]]]]]]]]]]]]]]]]]]]]]]]]]]]]]]]]]]]]]]]]]]]]]]]]]]]]]]]]]]]]]]]]]]]]]]]]]]]]]]]]]]]]]]]]]]]]]]]]]]]",
    ),
];

#[test]
fn lists_are_answered(rt: HostRuntime) -> Result<(), Memory> {
    expect_answers(&rt, rt.alloc(), &ANSWERS)
}

const JUDGED: [(&str, &str, &str, bool); 25] = [
    ("push", r#"[1];"a""#, "[integer, string]", false),
    ("push", "[];1", "[integer]", false),
    ("push", "any;1", "[..any]", false),
    ("push", "any;any", "[..any]", false),
    ("append", "[1];[2]", "[integer, integer]", false),
    ("append", r#"["a"];any"#, "[string, ..any]", false),
    ("append", "any;[1]", "[..any]", false),
    ("append", "[];[]", "[]", false),
    ("includes", "[1];1", "boolean", false),
    ("includes", "any;any", "boolean", false),
    ("unique", r#"[1,"a"]"#, "[..string|integer]", false),
    ("unique", "any", "[..any]", false),
    ("unique", "[]", "[]", false),
    ("flatten", "[1]", "[..any]", false),
    ("flatten", r#"{"a":1}"#, "{..any}", false),
    ("flatten", "any", "[..any]|{..any}", false),
    ("zip", r#"[1,2];["a"]"#, "[..[integer, string]]", false),
    ("zip", "any;[1]", "[..[any, integer]]", false),
    ("zip", "[];[1]", "[..[never, integer]]", false),
    ("chunks", r#""abc";2"#, "[..string]", false),
    ("chunks", r#""abc";0"#, "[..string]", true),
    ("chunks", "any;integer", "[..string]", true),
    ("compact", "[1]", "[..any]", false),
    ("compact", r#"{"a":1}"#, "{..any}", false),
    ("compact", "any", "[..any]|{..any}", false),
];

#[test]
fn lists_are_judged(rt: HostRuntime) -> Result<(), Memory> {
    expect_judged(&rt, rt.alloc(), &JUDGED)
}

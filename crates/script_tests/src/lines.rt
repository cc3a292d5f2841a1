ghost use Rattle.std.specs.Prelude.{◌≡◌};
ghost use Rattle.vrl_resolve.specs.Program.{program_of};
ghost use Rattle.vrl_run.specs.LineResult.{HandlesErrors};

// Lines: the events that are kept, and what is reported.
use crate::running::accepted;
use std::alloc::Global;
use std::process::Abort;
use vrl_batch::{Line, LineOut, Outcome};
use vrl_json::Scratch;
use vrl_kind::Kind;
use vrl_resolve::Program;
use vrl_run::{Options, run_line};
use vrl_state::json_object;
use vrl_tests::shareable;
use vrl_value::{Bytes, Memory, Moment, Names};

// A script, the options (`drop` an event over which it fails, `keep` one over which it aborts,
// `envelope` for events with their metadata), a line's number and text (`long` is a line that is too
// long), the events that are kept as lines, what is reported, and how the line went.
type Row = (
    &'static str,
    &'static str,
    u64,
    &'static str,
    &'static str,
    &'static str,
    Outcome,
);

fn stands_in(word: &str, words: &str) -> bool {
    for one in words.split(' ') {
        if one == word {
            return true;
        }
    }
    false
}

fn options_of(words: &str) -> Options {
    Options {
        drop_on_error: stands_in("drop", words),
        keep_on_abort: stands_in("keep", words),
        envelope: stands_in("envelope", words),
    }
}

fn line_of(alloc: Global, number: u64, text: &str) -> Result<Line, Memory> {
    let long = text == "long";
    let bytes = if long { "" } else { text };
    Ok(Line {
        number,
        bytes: Bytes::new(bytes.as_bytes().to_vec(alloc)?),
        long,
        moment: Moment::epoch(),
    })
}

// What is made of a line. What goes into it and comes of it may be sent to and shared by threads.
fn made_of(
    alloc: Global,
    program: &Program,
    sources: &Names,
    declared: &Kind,
    row: &Row,
) -> Result<LineOut, Memory>
    requires sources { sources.now ≡ (program_of program.now).sources }
    requires handled { HandlesErrors declared.now (program_of program.now) }
{
    let options = shareable(options_of(row.1));
    let line = shareable(line_of(alloc, row.2, row.3)?);
    let made = run_line(
        alloc,
        program,
        &program.searches(),
        sources,
        declared,
        &options,
        &line,
        &mut Scratch::new(alloc),
    )?;
    Ok(shareable(made))
}

// What is made of a row's line by its script. `None`: the script isn't accepted.
fn made(alloc: Global, row: &Row) -> Result<Option<LineOut>, Memory> {
    let declared = json_object(alloc)?;
    match accepted(alloc, row.0, &declared)? {
        Some(script) => Ok(Some(made_of(alloc, &script.program, &script.sources, &declared, row)?)),
        None => Ok(None),
    }
}

// How many lines a text has, each of which ends with a newline.
fn count_of(text: &str) -> u64 {
    let newlines = text.as_bytes().iter().filter(|byte| **byte == b'\n');
    newlines.count() as u64
}

fn is_so(out: &LineOut, row: &Row) -> bool {
    out.output.as_slice() == row.4.as_bytes()
        && out.report.as_slice() == row.5.as_bytes()
        && out.kept == count_of(row.4)
        && out.outcome == row.6
}

fn holds(alloc: Global, row: &Row) -> Result<bool, Memory> {
    match made(alloc, row)? {
        Some(out) => Ok(is_so(&out, row)),
        None => Ok(false),
    }
}

fn expect_rows(rt: &impl Abort, alloc: Global, rows: &[Row]) -> Result<(), Memory> {
    for row in rows {
        let is_so = holds(alloc, row)?;
        assert!(rt; is_so, "at {} with {:?}", row.0, row.1);
    }
    Ok(())
}

const LINES: [Row; 50] = [
    (".x = 1", "", 1, "{}", "{\"x\":1}\n", "", Outcome::Fine),
    (
        ".x = 1",
        "",
        1,
        " {\"b\" : [1, 2],\"a\":null} ",
        "{\"a\":null,\"b\":[1,2],\"x\":1}\n",
        "",
        Outcome::Fine,
    ),
    (
        "",
        "",
        1,
        "{\"b\":1,\"a\":2}",
        "{\"a\":2,\"b\":1}\n",
        "",
        Outcome::Fine,
    ),
    (
        "",
        "",
        1,
        "{\"a\":1,\"a\":2}",
        "{\"a\":2}\n",
        "",
        Outcome::Fine,
    ),
    (
        ". = [{\"a\":1},{\"a\":2}]",
        "",
        1,
        "{}",
        "{\"a\":1}\n{\"a\":2}\n",
        "",
        Outcome::Fine,
    ),
    (". = []", "", 1, "{}", "", "", Outcome::Fine),
    (
        ". = [[1,2],null,\"s\"]",
        "",
        1,
        "{}",
        "[1,2]\nnull\n\"s\"\n",
        "",
        Outcome::Fine,
    ),
    (
        ". = [1]\nabort",
        "keep",
        1,
        "{\"b\":2}",
        "{\"b\":2}\n",
        "line 1: aborted\n",
        Outcome::Aborted,
    ),
    (
        ".n = 9223372036854775807 + 1",
        "",
        1,
        "{}",
        "{\"n\":-9223372036854775808}\n",
        "",
        Outcome::Fine,
    ),
    (
        "x = {\"a\":1}\ndel(x.a)\n.r = x.a",
        "",
        1,
        "{}",
        "{\"r\":null}\n",
        "",
        Outcome::Fine,
    ),
    (
        "x = 1\n.r = ({ x = \"s\"; to_int(.a) }) ?? 0\n.s = x",
        "",
        1,
        "{\"a\":\"q\"}",
        "{\"a\":\"q\",\"r\":0,\"s\":\"s\"}\n",
        "",
        Outcome::Fine,
    ),
    (
        "x = to_int!(.a)",
        "",
        1,
        "{\"a\":\"q\"}",
        "{\"a\":\"q\"}\n",
        "line 1: error: \"to_int: not a whole number\"\n",
        Outcome::Errored,
    ),
    (
        ".a = 1\nabort \"no\"",
        "",
        1,
        "{\"a\":\"q\"}",
        "",
        "line 1: aborted: \"no\"\n",
        Outcome::Aborted,
    ),
    (
        "x = to_int!(.a)",
        "drop",
        1,
        "{\"a\":\"q\"}",
        "",
        "line 1: error: \"to_int: not a whole number\"\n",
        Outcome::Errored,
    ),
    (
        ".a = 1\nabort \"no\"",
        "drop",
        1,
        "{\"a\":\"q\"}",
        "",
        "line 1: aborted: \"no\"\n",
        Outcome::Aborted,
    ),
    (
        "x = to_int!(.a)",
        "keep",
        1,
        "{\"a\":\"q\"}",
        "{\"a\":\"q\"}\n",
        "line 1: error: \"to_int: not a whole number\"\n",
        Outcome::Errored,
    ),
    (
        ".a = 1\nabort \"no\"",
        "keep",
        1,
        "{\"a\":\"q\"}",
        "{\"a\":\"q\"}\n",
        "line 1: aborted: \"no\"\n",
        Outcome::Aborted,
    ),
    (
        "x = to_int!(.a)",
        "drop keep",
        1,
        "{\"a\":\"q\"}",
        "",
        "line 1: error: \"to_int: not a whole number\"\n",
        Outcome::Errored,
    ),
    (
        ".a = 1\nabort \"no\"",
        "drop keep",
        1,
        "{\"a\":\"q\"}",
        "{\"a\":\"q\"}\n",
        "line 1: aborted: \"no\"\n",
        Outcome::Aborted,
    ),
    (
        ".b = 1\n.x = to_int!(.a) ?? 0",
        "",
        7,
        "{\"a\":\"q\"}",
        "{\"a\":\"q\"}\n",
        "line 7: error: \"to_int: not a whole number\"\n",
        Outcome::Errored,
    ),
    (
        "abort",
        "",
        12,
        "{}",
        "",
        "line 12: aborted\n",
        Outcome::Aborted,
    ),
    (
        "abort \"\"",
        "",
        1,
        "{}",
        "",
        "line 1: aborted: \"\"\n",
        Outcome::Aborted,
    ),
    (
        "abort \"a\\\"b\\\\\\n\\t\\0é\"",
        "",
        1,
        "{}",
        "",
        "line 1: aborted: \"a\\\"b\\\\\\n\\t\\u0000é\"\n",
        Outcome::Aborted,
    ),
    (
        "x = [[[.a]]]",
        "",
        1,
        "{\"a\":[[[[[[[[[[[[[[[[[[[[[[[[[[[[[[[[[[[[[[[[[[[[[[[[[[[[[[[[[[[[[[[[[[[[[[[[[[[[[[[[[[[[[[[[[[[[[[[[[[[[[[[[[[[[[[[[[[[[[[[[[[[[[[]]]]]]]]]]]]]]]]]]]]]]]]]]]]]]]]]]]]]]]]]]]]]]]]]]]]]]]]]]]]]]]]]]]]]]]]]]]]]]]]]]]]]]]]]]]]]]]]]]]]]]]]]]]]]]]]]]]]]]]]]]]]]]}",
        "{\"a\":[[[[[[[[[[[[[[[[[[[[[[[[[[[[[[[[[[[[[[[[[[[[[[[[[[[[[[[[[[[[[[[[[[[[[[[[[[[[[[[[[[[[[[[[[[[[[[[[[[[[[[[[[[[[[[[[[[[[[[[[[[[[[[]]]]]]]]]]]]]]]]]]]]]]]]]]]]]]]]]]]]]]]]]]]]]]]]]]]]]]]]]]]]]]]]]]]]]]]]]]]]]]]]]]]]]]]]]]]]]]]]]]]]]]]]]]]]]]]]]]]]]]]]]]]]]]}\n",
        "line 1: error: nested deeper than 128\n",
        Outcome::Errored,
    ),
    (
        "x = [[[.a]]]",
        "drop",
        1,
        "{\"a\":[[[[[[[[[[[[[[[[[[[[[[[[[[[[[[[[[[[[[[[[[[[[[[[[[[[[[[[[[[[[[[[[[[[[[[[[[[[[[[[[[[[[[[[[[[[[[[[[[[[[[[[[[[[[[[[[[[[[[[[[[[[[[[]]]]]]]]]]]]]]]]]]]]]]]]]]]]]]]]]]]]]]]]]]]]]]]]]]]]]]]]]]]]]]]]]]]]]]]]]]]]]]]]]]]]]]]]]]]]]]]]]]]]]]]]]]]]]]]]]]]]]]]]]]]]]]}",
        "",
        "line 1: error: nested deeper than 128\n",
        Outcome::Errored,
    ),
    (
        ".c = 1\n.b = [{\"c\": .a}]",
        "",
        1,
        "{\"a\":[[[[[[[[[[[[[[[[[[[[[[[[[[[[[[[[[[[[[[[[[[[[[[[[[[[[[[[[[[[[[[[[[[[[[[[[[[[[[[[[[[[[[[[[[[[[[[[[[[[[[[[[[[[[[[[[[[[[[[[[[[[[[[]]]]]]]]]]]]]]]]]]]]]]]]]]]]]]]]]]]]]]]]]]]]]]]]]]]]]]]]]]]]]]]]]]]]]]]]]]]]]]]]]]]]]]]]]]]]]]]]]]]]]]]]]]]]]]]]]]]]]]]]]]]]]]}",
        "{\"a\":[[[[[[[[[[[[[[[[[[[[[[[[[[[[[[[[[[[[[[[[[[[[[[[[[[[[[[[[[[[[[[[[[[[[[[[[[[[[[[[[[[[[[[[[[[[[[[[[[[[[[[[[[[[[[[[[[[[[[[[[[[[[[[]]]]]]]]]]]]]]]]]]]]]]]]]]]]]]]]]]]]]]]]]]]]]]]]]]]]]]]]]]]]]]]]]]]]]]]]]]]]]]]]]]]]]]]]]]]]]]]]]]]]]]]]]]]]]]]]]]]]]]]]]]]]]]}\n",
        "line 1: error: nested deeper than 128\n",
        Outcome::Errored,
    ),
    (
        ".b = {\"c\": .a}",
        "",
        1,
        "{\"a\":[[[[[[[[[[[[[[[[[[[[[[[[[[[[[[[[[[[[[[[[[[[[[[[[[[[[[[[[[[[[[[[[[[[[[[[[[[[[[[[[[[[[[[[[[[[[[[[[[[[[[[[[[[[[[[[[[[[[[[[[[[[[[[]]]]]]]]]]]]]]]]]]]]]]]]]]]]]]]]]]]]]]]]]]]]]]]]]]]]]]]]]]]]]]]]]]]]]]]]]]]]]]]]]]]]]]]]]]]]]]]]]]]]]]]]]]]]]]]]]]]]]]]]]]]]]]}",
        "{\"a\":[[[[[[[[[[[[[[[[[[[[[[[[[[[[[[[[[[[[[[[[[[[[[[[[[[[[[[[[[[[[[[[[[[[[[[[[[[[[[[[[[[[[[[[[[[[[[[[[[[[[[[[[[[[[[[[[[[[[[[[[[[[[[[]]]]]]]]]]]]]]]]]]]]]]]]]]]]]]]]]]]]]]]]]]]]]]]]]]]]]]]]]]]]]]]]]]]]]]]]]]]]]]]]]]]]]]]]]]]]]]]]]]]]]]]]]]]]]]]]]]]]]]]]]]]]]],\"b\":{\"c\":[[[[[[[[[[[[[[[[[[[[[[[[[[[[[[[[[[[[[[[[[[[[[[[[[[[[[[[[[[[[[[[[[[[[[[[[[[[[[[[[[[[[[[[[[[[[[[[[[[[[[[[[[[[[[[[[[[[[[[[[[[[[[[]]]]]]]]]]]]]]]]]]]]]]]]]]]]]]]]]]]]]]]]]]]]]]]]]]]]]]]]]]]]]]]]]]]]]]]]]]]]]]]]]]]]]]]]]]]]]]]]]]]]]]]]]]]]]]]]]]]]]]]]]]]]]]}}\n",
        "",
        Outcome::Fine,
    ),
    (
        "if exists(.q) { return 1 }\n.r = 2",
        "",
        1,
        "{\"q\":0}",
        "{\"q\":0}\n",
        "",
        Outcome::Fine,
    ),
    (
        "if exists(.q) { return 1 }\n.r = 2",
        "",
        1,
        "{}",
        "{\"r\":2}\n",
        "",
        Outcome::Fine,
    ),
    (
        ".r = 2\nreturn 1",
        "drop keep",
        1,
        "{}",
        "{\"r\":2}\n",
        "",
        Outcome::Fine,
    ),
    (
        "x = .a\n.t = t'2024-01-02T03:04:05.5+01:00'",
        "",
        1,
        "{}",
        "{\"t\":\"2024-01-02T02:04:05.500Z\"}\n",
        "",
        Outcome::Fine,
    ),
    (
        "x = r'b'\n.p = r'a+'",
        "",
        1,
        "{}",
        "{\"p\":\"a+\"}\n",
        "",
        Outcome::Fine,
    ),
    (
        "x = [r'b', r'a\\\"']\n. = x",
        "",
        1,
        "{}",
        "\"b\"\n\"a\\\\\\\"\"\n",
        "",
        Outcome::Fine,
    ),
    (
        ".x = 1",
        "",
        2,
        "{",
        "",
        "line 2: refused: not JSON\n",
        Outcome::Refused,
    ),
    (
        ".x = 1",
        "keep",
        1,
        "",
        "",
        "line 1: refused: not JSON\n",
        Outcome::Refused,
    ),
    (
        ".x = 1",
        "keep",
        1,
        "{\"p\":1.5}",
        "",
        "line 1: refused: not whole numbers\n",
        Outcome::Refused,
    ),
    (
        ".x = 1",
        "",
        1,
        "{\"p\":-0}",
        "",
        "line 1: refused: not whole numbers\n",
        Outcome::Refused,
    ),
    (
        ".x = 1",
        "",
        1,
        "{\"p\":9223372036854775808}",
        "",
        "line 1: refused: not whole numbers\n",
        Outcome::Refused,
    ),
    (
        ".x = 1",
        "",
        1,
        "3",
        "",
        "line 1: refused: not of the declared kind\n",
        Outcome::Refused,
    ),
    (
        "abort",
        "keep",
        3,
        "[{}]",
        "",
        "line 3: refused: not of the declared kind\n",
        Outcome::Refused,
    ),
    (
        ".x = 1",
        "",
        9,
        "long",
        "",
        "line 9: refused: longer than 1048576 bytes\n",
        Outcome::Refused,
    ),
    (
        ".m = %source",
        "envelope",
        1,
        "{\"event\":{\"a\":1},\"metadata\":{\"source\":\"s\"}}",
        "{\"event\":{\"a\":1,\"m\":\"s\"},\"metadata\":{\"source\":\"s\"}}\n",
        "",
        Outcome::Fine,
    ),
    (
        ". = [{\"a\":%s},2]\n%n = 1",
        "envelope",
        1,
        "{\"metadata\":{\"s\":3},\"event\":{}}",
        "{\"event\":{\"a\":3},\"metadata\":{\"n\":1,\"s\":3}}\n{\"event\":2,\"metadata\":{\"n\":1,\"s\":3}}\n",
        "",
        Outcome::Fine,
    ),
    (
        ". = []",
        "envelope",
        1,
        "{\"event\":{},\"metadata\":{}}",
        "",
        "",
        Outcome::Fine,
    ),
    (
        "%n = 1\n.n = %n",
        "",
        1,
        "{\"event\":{},\"metadata\":{}}",
        "{\"event\":{},\"metadata\":{},\"n\":1}\n",
        "",
        Outcome::Fine,
    ),
    (
        "%n = 1\nabort",
        "envelope keep",
        1,
        "{\"event\":{\"a\":[1]},\"metadata\":{\"b\":2}}",
        "{\"event\":{\"a\":[1]},\"metadata\":{\"b\":2}}\n",
        "line 1: aborted\n",
        Outcome::Aborted,
    ),
    (
        "%n = to_int!(.a)",
        "envelope",
        1,
        "{\"event\":{\"a\":\"q\"},\"metadata\":{\"n\":2}}",
        "{\"event\":{\"a\":\"q\"},\"metadata\":{\"n\":2}}\n",
        "line 1: error: \"to_int: not a whole number\"\n",
        Outcome::Errored,
    ),
    (
        "%n = to_int!(.a)",
        "envelope drop",
        1,
        "{\"event\":{\"a\":\"q\"},\"metadata\":{\"n\":2}}",
        "",
        "line 1: error: \"to_int: not a whole number\"\n",
        Outcome::Errored,
    ),
    (
        ".x = 1",
        "envelope",
        4,
        "{\"event\":{},\"metadata\":{},\"x\":1}",
        "",
        "line 4: refused: not an envelope\n",
        Outcome::Refused,
    ),
    (
        ".x = 1",
        "envelope",
        5,
        "{\"event\":3,\"metadata\":{}}",
        "",
        "line 5: refused: not of the declared kind\n",
        Outcome::Refused,
    ),
];

#[test]
fn lines(rt: HostRuntime) -> Result<(), Memory> {
    expect_rows(&rt, rt.alloc(), &LINES)
}

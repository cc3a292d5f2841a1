use std::alloc::Global;
use vrl_json::{JsonFault, Scratch, from_line, json_needs_no_sources, lines_are_json, to_line};
use vrl_value::{Bytes, Chars, Items, Memory, Moment, Value};

// Lines, and what is written of what they stand for, or why they are refused.
const LINES: [(&[u8], &str); 18] = [
    (b"{\"b\":1,\"a\":2}", "{\"a\":2,\"b\":1}"),
    (b"{\"a\":1,\"a\":2}", "{\"a\":2}"),
    (
        b" \t[ null , true,false, [] ,{ } ]\r\n",
        "[null,true,false,[],{}]",
    ),
    (
        b"[-9223372036854775808,9223372036854775807,0]",
        "[-9223372036854775808,9223372036854775807,0]",
    ),
    (
        b"\"\\u00e9\\n\\\"\\\\\\u0001\\/\\ud83d\\ude00\"",
        "\"\u{e9}\\n\\\"\\\\\\u0001/\u{1f600}\"",
    ),
    // A name is told by what its escapes stand for, and only the last number counts.
    (b"{\"a\":1.5,\"\\u0061\":3}", "{\"a\":3}"),
    (b"{\"a\":3,\"a\":1.5}", "not whole numbers"),
    (b"{\"p\":1.5}", "not whole numbers"),
    (b"-0", "not whole numbers"),
    (b"1e2", "not whole numbers"),
    (b"9223372036854775808", "not whole numbers"),
    (b"[[-9223372036854775809]]", "not whole numbers"),
    (b"[1.5", "not JSON"),
    (b"", "not JSON"),
    (b"{", "not JSON"),
    (b"01", "not JSON"),
    (b"\"\\ud800\"", "not JSON"),
    (b"\"\xff\"", "not JSON"),
];

#[test]
fn lines_read_and_written(rt: HostRuntime) -> Result<(), Memory> {
    for (line, answer) in &LINES {
        let written = rewritten(rt.alloc(), line)?;
        assert!(rt; written.as_slice() == answer.as_bytes(), "{line:?}");
    }
    Ok(())
}

// The line of what a line stands for, or why it is refused.
fn rewritten(alloc: Global, line: &[u8]) -> Result<Bytes, Memory> {
    lines_are_json();
    json_needs_no_sources();
    match from_line(alloc, line, &mut Scratch::new(alloc)) {
        Ok(value) => Ok(to_line(alloc, &value, &[])?),
        Err(fault) => Ok(Bytes::new(format!(in alloc; "{fault}")?.into_bytes())),
    }
}

#[test]
fn nesting(rt: HostRuntime) -> Result<(), Memory> {
    for (depth, fault) in [(127, None), (128, Some(JsonFault::NotJson))] {
        let mut line = Vec::new(rt.alloc());
        line.resize(depth, b'[')?;
        line.resize(depth + depth, b']')?;
        assert!(rt;
            from_line(rt.alloc(), &line, &mut Scratch::new(rt.alloc())).err() == fault,
            "at {depth}"
        );
    }
    Ok(())
}

// The line of an array of a timestamp and of the first regex, whose source is `a+"`.
fn line_of_parts(alloc: Global, moment: Moment) -> Result<Bytes, Memory> {
    let mut parts = Vec::new(alloc);
    parts.push(Value::Time(moment))?;
    parts.push(Value::Pattern(0))?;
    let value = Value::List(Items::new(parts));
    let sources = vec![in alloc; Chars::copy_of(alloc, "a+\"")?]?;
    let line = to_line(alloc, &value, &sources)?;
    Ok(line)
}

#[test]
fn timestamps_and_regexes(rt: HostRuntime) -> Result<(), Memory> {
    if let Some(moment) = Moment::new(1_704_161_045_500_000_000) {
        let line = line_of_parts(rt.alloc(), moment)?;
        assert!(rt; line.as_slice() == b"[\"2024-01-02T02:04:05.500Z\",\"a+\\\"\"]".as_slice());
    }
    Ok(())
}

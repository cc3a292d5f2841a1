use remap_words::{Invocation, Mode, read_words};
use std::alloc::{AllocError, Global};
use std::process::Abort;
use std::test::Fail;

/// What the name of a script alone asks for.
const PLAIN: Invocation = Invocation {
    script: "s",
    kind: None,
    jobs: 1,
    drop_on_error: false,
    keep_on_abort: false,
    envelope: false,
    mode: Mode::Lines,
};

/// Lists of words, which stand between strokes, and what they ask for.
const READ: [(&str, Option<Invocation>); 11] = [
    ("s", Some(PLAIN)),
    ("s|--jobs|08", Some(Invocation { jobs: 8, ..PLAIN })),
    ("--jobs=32|s", Some(Invocation { jobs: 32, ..PLAIN })),
    (
        "--drop-on-error|--|-s",
        Some(Invocation {
            script: "-s",
            drop_on_error: true,
            ..PLAIN
        }),
    ),
    (
        "--keep-on-abort|--check|s|--kind|k",
        Some(Invocation {
            kind: Some("k"),
            keep_on_abort: true,
            mode: Mode::Check,
            ..PLAIN
        }),
    ),
    (
        "--envelope|s",
        Some(Invocation {
            envelope: true,
            ..PLAIN
        }),
    ),
    (
        "s|--check|--envelope|--drop-on-error",
        Some(Invocation {
            drop_on_error: true,
            envelope: true,
            mode: Mode::Check,
            ..PLAIN
        }),
    ),
    (
        "s|--kind=-x",
        Some(Invocation {
            kind: Some("-x"),
            ..PLAIN
        }),
    ),
    (
        "--kind=a=b|--|--",
        Some(Invocation {
            script: "--",
            kind: Some("a=b"),
            ..PLAIN
        }),
    ),
    (
        "--generate|1:1|s",
        Some(Invocation {
            mode: Mode::Generate { count: 1, seed: 1 },
            ..PLAIN
        }),
    ),
    (
        "s|--generate=1000000:4294967295",
        Some(Invocation {
            mode: Mode::Generate {
                count: 1_000_000,
                seed: 4_294_967_295,
            },
            ..PLAIN
        }),
    ),
];

/// Lists of words that are refused.
const REFUSED: [&str; 34] = [
    "",
    "--jobs=8|s|--jobs|8",
    "s|--kind",
    "s|--check=1",
    "s|--generate|0:1",
    "s|t",
    "s|--|t",
    "-",
    "s|-x",
    "s|--help",
    "s|--kinds=k",
    "s|--kind=",
    "s|--kind|",
    "s|--kind|-",
    "s|--kind|--",
    "s|--kind|--check",
    "s|--jobs|0",
    "s|--jobs=33",
    "s|--jobs=032",
    "s|--jobs=+8",
    "s|--jobs=",
    "s|--check|--check",
    "s|--check|--generate|1:1",
    "s|--envelope=1",
    "s|--envelope|--envelope",
    "s|--envelope|--generate|1:1",
    "--generate=1:1|--envelope|s",
    "s|--generate=1000001:1",
    "s|--generate=1:4294967296",
    "s|--generate=00000001:1",
    "s|--generate=1",
    "s|--generate=1:",
    "s|--check=",
    "--",
];

/// The words that stand between strokes.
fn words_of(alloc: Global, line: &str) -> Result<Vec<String>, AllocError> {
    let mut words = Vec::new(alloc);
    for word in line.split('|') {
        words.push(String::from_str(alloc, word)?)?;
    }
    Ok(words)
}

/// Asserts that the words ask for this.
fn expect_read(rt: &impl Abort, alloc: Global, words: &[String], wanted: Option<Invocation>) {
    assert!(rt; read_words(alloc, words).ok() == wanted, "at {words:?}");
}

#[test]
fn words_mean_what_their_rows_say(rt: HostRuntime) -> Result<(), Fail> {
    for (line, wanted) in &READ {
        let words = words_of(rt.alloc(), line)?;
        expect_read(&rt, rt.alloc(), words.as_slice(), *wanted);
    }
    for line in &REFUSED {
        let words = words_of(rt.alloc(), line)?;
        expect_read(&rt, rt.alloc(), words.as_slice(), None);
    }
    expect_read(&rt, rt.alloc(), &[], None);
    Ok(())
}

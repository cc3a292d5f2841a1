// Which regexes are malformed, and which groups the others have.
use regex::Regex;
use std::alloc::Global;
use std::process::Abort;
use vrl_pattern::{BuildFault, Numbers, Patterns};
use vrl_tests::shareable;
use vrl_value::{Chars, Memory, Names};

// The sources in a text, parted by newlines.
fn sources_in(alloc: Global, text: &str) -> Result<Names, Memory> {
    let mut sources = Vec::new(alloc);
    for line in text.split('\n') {
        sources.push(Chars::copy_of(alloc, line)?)?;
    }
    Ok(Names::new(sources))
}

// A digit for each of these numbers, in order.
fn digits_of(alloc: Global, numbers: &Numbers) -> Result<String, Memory> {
    let mut told = String::new(alloc);
    for number in numbers.as_slice() {
        told.push_str(format!(in alloc; "{number}")?.as_str())?;
    }
    Ok(told)
}

// The malformed ones of these sources: a digit for each, in order; `!` for want of memory.
fn malformed_in(alloc: Global, sources: &Names) -> Result<String, Memory> {
    match Patterns::build(alloc, sources) {
        Ok(_patterns) => Ok(String::new(alloc)),
        Err(BuildFault::Malformed(numbers)) => digits_of(alloc, &numbers),
        Err(BuildFault::Memory) => Ok(String::from_str(alloc, "!")?),
    }
}

fn expect_malformed(rt: &(impl Abort + AllocGlobal), rows: &[(&str, &str)]) -> Result<(), Memory> {
    for (text, numbers) in rows {
        let found = malformed_in(rt.alloc(), &sources_in(rt.alloc(), text)?)?;
        assert!(rt; found.as_str() == *numbers, "at {text:?} {found:?}");
    }
    Ok(())
}

// The names of the groups of the first source, each with `,` behind it.
fn names_of_first(alloc: Global, patterns: &Patterns) -> Result<String, Memory> {
    let mut told = String::new(alloc);
    if patterns.sources().is_empty() {
        return Ok(told);
    }
    for name in patterns.names(alloc, 0)?.as_slice() {
        told.push_str(name.as_str())?;
        told.push(',')?;
    }
    Ok(told)
}

// The same of the only source; `!` where it isn't built.
fn names_in(alloc: Global, source: &str) -> Result<String, Memory> {
    match Patterns::build(alloc, &sources_in(alloc, source)?) {
        Ok(patterns) => names_of_first(alloc, &patterns),
        Err(_fault) => Ok(String::from_str(alloc, "!")?),
    }
}

// The names that the crate `regex` gives the groups of a source, told in the same way.
fn names_by_regex(alloc: Global, source: &str) -> Result<String, Memory> {
    let mut told = String::new(alloc);
    match Regex::new(alloc, source) {
        Ok(regex) => {
            for name in regex.capture_names() {
                if let Some(name) = name {
                    told.push_str(name.as_str())?;
                }
                told.push(',')?;
            }
        }
        Err(_) => told.push('!')?,
    }
    Ok(told)
}

fn expect_names(rt: &(impl Abort + AllocGlobal), rows: &[(&str, &str)]) -> Result<(), Memory> {
    for (source, names) in rows {
        let found = names_in(rt.alloc(), source)?;
        assert!(rt; found.as_str() == *names, "at {source:?} {found:?}");
        let found = names_by_regex(rt.alloc(), source)?;
        assert!(rt; found.as_str() == *names, "at {source:?} {found:?}");
    }
    Ok(())
}

const MALFORMED: [(&str, &str); 16] = [
    ("", ""),
    ("a", ""),
    ("(", "0"),
    ("a{2,1}", "0"),
    ("[", "0"),
    ("a\n(\nb\n[\na{2,1}", "134"),
    ("(?P<a>x)(?P<a>y)", "0"),
    ("(?P<1>x)", "0"),
    ("(?=a)", "0"),
    ("\\1", "0"),
    (")", "0"),
    ("*", "0"),
    ("\\", "0"),
    ("(?:a|b)*\n\u{e9}+\n[^]a]", ""),
    ("a{1000000}", "!"),
    ("(\na{1000000}", "!"),
];

#[test]
fn malformed_regexes(rt: HostRuntime) -> Result<(), Memory> {
    expect_malformed(&rt, &MALFORMED)
}

// So many parentheses around an `a`.
fn expect_nesting(
    rt: &(impl Abort + AllocGlobal),
    count: usize,
    numbers: &str,
) -> Result<(), Memory> {
    let mut text = String::new(rt.alloc());
    for _ in 0..count {
        text.push('(')?;
    }
    text.push('a')?;
    for _ in 0..count {
        text.push(')')?;
    }
    let found = malformed_in(rt.alloc(), &sources_in(rt.alloc(), text.as_str())?)?;
    assert!(rt; found.as_str() == numbers, "at {count:?} {found:?}");
    Ok(())
}

#[test]
fn nested_regexes(rt: HostRuntime) -> Result<(), Memory> {
    expect_nesting(&rt, 250, "")?;
    expect_nesting(&rt, 251, "0")
}

const GROUP_NAMES: [(&str, &str); 21] = [
    ("", ","),
    ("x", ","),
    ("(?P<a>x)(y)(?<b>z)", ",a,,b,"),
    ("(?P<a>\\w)=(?P<b>\\w)", ",a,b,"),
    ("\\((?P<a>x)\\)", ",a,"),
    ("\\\\(a)", ",,"),
    ("[(](a)[)]", ",,"),
    ("[]()](a)", ",,"),
    ("[^]()](a)", ",,"),
    ("[a[(]b(]](a)", ",,"),
    ("[\\](](a)", ",,"),
    ("[[]a](](b)", ",,"),
    ("[[:alpha:](](b)", ",,"),
    ("[a&&[^(]](b)", ",,"),
    ("](a)", ",,"),
    ("\\[(a)\\]", ",,"),
    ("(?:x)", ","),
    ("(?i)(?s:a)(b)", ",,"),
    ("((a)(?:b(c)))", ",,,,"),
    ("\u{e9}(\u{20ac})?", ",,"),
    ("(?P<caf\u{e9}>x)", ",caf\u{e9},"),
];

#[test]
fn group_names(rt: HostRuntime) -> Result<(), Memory> {
    expect_names(&rt, &GROUP_NAMES)
}

// Patterns, which threads may be sent and share.
fn shared(patterns: Patterns) -> Patterns {
    shareable(patterns)
}

#[test]
fn built_patterns(rt: HostRuntime) -> Result<(), Memory> {
    let sources = sources_in(rt.alloc(), "a(b)\n(?<c>d)")?;
    match Patterns::build(rt.alloc(), &sources) {
        Ok(patterns) => {
            let patterns = shared(patterns);
            assert!(rt; patterns.sources().len() == 2);
            assert!(rt; patterns.names(rt.alloc(), 1)?.as_slice().len() == 2);
        }
        Err(fault) => assert!(rt; false, "{fault}"),
    }
    Ok(())
}

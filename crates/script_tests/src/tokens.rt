// The tokens of texts, and what is wrong with texts.
use std::process::Abort;
use vrl_token::{Holes, Spanned, SyntaxFault, Token, script_text, tokens};
use vrl_value::{Chars, Memory};

// A letter for each sort of token.
fn letter(token: &Token) -> u8 {
    match token {
        Token::Text(_) => b'"',
        Token::Template(_, _) => b'h',
        Token::RawText(_) => b's',
        Token::Regex(_) => b'r',
        Token::Timestamp(_) => b't',
        Token::Number(_) => b'1',
        Token::True => b'T',
        Token::False => b'F',
        Token::Null => b'N',
        Token::If => b'i',
        Token::Else => b'e',
        Token::Abort => b'a',
        Token::Return => b'R',
        Token::Name(_) => b'n',
        Token::Function(_) => b'f',
        Token::BangFunction(_) => b'b',
        Token::EventPath(_) => b'.',
        Token::MetadataPath(_) => b'%',
        Token::NamePath(_, _) => b'p',
        Token::Suffix(_) => b'x',
        Token::Assign => b'=',
        Token::MergeAssign => b'M',
        Token::Coalesce => b'?',
        Token::Or => b'O',
        Token::And => b'&',
        Token::Equal => b'E',
        Token::Unequal => b'U',
        Token::Less => b'<',
        Token::AtMost => b'l',
        Token::More => b'>',
        Token::AtLeast => b'g',
        Token::Merge => b'|',
        Token::Plus => b'+',
        Token::Minus => b'-',
        Token::Times => b'*',
        Token::Not => b'!',
        Token::OpenParenthesis => b'(',
        Token::CloseParenthesis => b')',
        Token::OpenBracket => b'[',
        Token::CloseBracket => b']',
        Token::OpenBlock => b'{',
        Token::OpenObject => b'o',
        Token::CloseBrace => b'}',
        Token::OpenBars => b'B',
        Token::CloseBars => b'C',
        Token::Comma => b',',
        Token::Colon => b':',
        Token::Arrow => b'A',
        Token::Separator => b';',
    }
}

fn expect_tokens(rt: &(impl Abort + AllocGlobal), rows: &[(&str, &str)]) -> Result<(), Memory> {
    for (text, sorts) in rows {
        assert!(rt; text.len() <= 65_536);
        match tokens(rt.alloc(), text) {
            Ok(found) => {
                let mut made = String::new(rt.alloc());
                for spanned in found.as_slice() {
                    made.push(char::from(letter(&spanned.token)))?;
                }
                assert!(rt; made.as_str() == *sorts, "at {text:?} {made:?}");
            }
            Err(fault) => assert!(rt; false, "at {text:?} {fault:?}"),
        }
    }
    Ok(())
}

fn expect_faults(rt: &(impl Abort + AllocGlobal), rows: &[(&str, u16, u32, u32)]) {
    for (text, code, start, end) in rows {
        assert!(rt; text.len() <= 65_536);
        match tokens(rt.alloc(), text) {
            Err(SyntaxFault::Fault(fault)) => assert!(rt;
                fault.code == *code && fault.span.start == *start && fault.span.end == *end,
                "at {text:?} {fault:?}"
            ),
            _ => assert!(rt; false, "at {text:?}"),
        }
    }
}

const TOKENS: [(&str, &str); 81] = [
    ("", ""),
    (".x = 1", ".=1"),
    (".x = 1; .y = 2", ".=1;.=1"),
    (".x = 1\n.y = 2", ".=1;.=1"),
    (".x = 1\n?? 2", ".=1?1"),
    (".x = 1\n\n\n  ?? 2", ".=1?1"),
    (".x = 1 # c\n.y = 2", ".=1;.=1"),
    ("f(a)[0]", "f(n)x"),
    ("f!(a).b[-0].c", "b(n)x"),
    ("f (a)", "n(n)"),
    ("a - 1", "n-1"),
    ("a -1", "n-1"),
    ("a-1", "n-1"),
    ("a = -1", "n=1"),
    ("(x\n-5)", "(n1)"),
    ("x -> y", "nAn"),
    ("a == b ?? c && d || e | f", "nEn?n&nOn|n"),
    ("a <= b < c >= d > e != f", "nln<ngn>nUn"),
    ("f(x) -> |k, v| { v }", "f(n)ABn,nC{n}"),
    ("x = {}", "n=o}"),
    ("x = { }", "n=o}"),
    ("x = {\n}", "n=o}"),
    ("x = {\n\"a\"\n: 1\n}", "n=o\":1}"),
    ("x = { \"a\" }", "n={\"}"),
    ("if a { b } else { }", "in{n}e{}"),
    ("if a { b }\nelse { \"a\": 1 }", "in{n}e{\":1}"),
    ("(1\n)", "(1)"),
    ("[1,\n2\n]", "[1,1]"),
    ("{ 1\n2 }", "{1;1}"),
    ("x =\n1", "n=1"),
    ("x +\n1", "n+1"),
    ("x |\n1", "n|1"),
    (".a.b[0].\"c d\"[-1] = s'a\\'b\\n'", ".=s"),
    ("a.b", "p"),
    ("a.", "n."),
    (".[0]", "."),
    ("..a", ".."),
    ("true.x", "T."),
    ("%", "%"),
    ("%a %\"q r\" %[0] %@a.b[-1]", "%%%%"),
    ("%= %a=1", "%=%=1"),
    ("%.a", "%."),
    (".%a", ".%"),
    ("%%a", "%%"),
    ("%a %[1", "%%[1"),
    ("5 % 2", "1%1"),
    ("5 %2 a%b", "1%n%"),
    ("% -1", "%-1"),
    ("f()%a [1]%[0]", "f()%[1]%"),
    ("if % { b }", "i%{n}"),
    ("x |= 1", "nM1"),
    ("r'a' rr s s'b' t2", "rnnsn"),
    ("x!=1", "nU1"),
    ("!x", "!n"),
    ("! !x", "!!n"),
    ("x!", "n!"),
    ("1_000.x", "1."),
    ("1 .x", "1."),
    ("a\n;\nb", "n;;;n"),
    ("-> |a| |b| c", "ABnC|n|n"),
    ("(a | b)", "(n|n)"),
    ("\"a\\n\\\"b\"", "\""),
    ("\"{{ a }}\"", "h"),
    ("\"a{{ n }}c{{m}}\"", "h"),
    ("\"{{\t _a1\r}}\"", "h"),
    ("\"{{ iff }}{\"", "h"),
    ("\"}}{{a}}}}\"", "h"),
    ("\"{{a}}\n{{b}}\"", "h"),
    ("\"{\\{{{ a }}\"", "h"),
    ("\"\\{{ a }}\"", "\""),
    ("\"{\\{ a }}\"", "\""),
    ("\"{ { a }}\"", "\""),
    ("\"\\\\{\"", "\""),
    ("s'{{ a }}'", "s"),
    (".\"{{ a }}\" .\"\\{\"", ".."),
    ("\"{{ a }}\" -1", "h-1"),
    ("\"{{ a }}\" %a", "h%"),
    ("\"{{ a }}\"\n-1", "h;1"),
    ("x = {\n\"{{ k }}\"\n: 1 }", "n=oh:1}"),
    ("x = { \"{{ k }}\" }", "n={h}"),
    ("[\"{{ a }}\"\n]", "[h]"),
];

#[test]
fn tokens_of_scripts(rt: HostRuntime) -> Result<(), Memory> {
    expect_tokens(&rt, &TOKENS)
}

const FAULTS: [(&str, u16, u32, u32); 50] = [
    (".x = \"a", 203, 5, 7),
    (".x = \"{{ 1 }}\"", 1016, 5, 14),
    ("\"{{ true }}\"", 1016, 0, 12),
    ("\"{{ a.b }}\"", 1016, 0, 11),
    ("\"{{ a \"", 1016, 0, 7),
    ("\"{{ a }\"", 1016, 0, 8),
    ("\"{{ a } }\"", 1016, 0, 10),
    ("\"{{ a\\t}}\"", 1016, 0, 10),
    ("\"{{\na }}\"", 1016, 0, 9),
    ("\"{{}}\"", 1016, 0, 6),
    ("\"{{{ a }}\"", 1016, 0, 10),
    ("\"{{ a }}{{\"", 1016, 0, 11),
    ("\"{{ a }}\\\\{{ }}\"", 1016, 0, 16),
    ("\"{{ \\q }}\"", 203, 0, 10),
    ("\"{{ 1 }}\\q\"", 203, 0, 11),
    ("\"{{ a }}\\q\"", 203, 0, 11),
    ("\"\\}\"", 203, 0, 4),
    ("\"{{ a }}", 203, 0, 8),
    (".x = 1.5", 1001, 5, 8),
    (".x = 1.5x", 1001, 5, 8),
    (".x = 1e5x", 1001, 5, 8),
    (".x = 1.5e-3 + 1", 1001, 5, 11),
    (".x = -1e+5", 1001, 5, 10),
    (".x = 1e", 203, 5, 6),
    (".x = 1_", 203, 5, 6),
    (".x = 1__0", 203, 5, 6),
    (".x = 12x", 203, 5, 7),
    (".x = 99999999999999999999x", 203, 5, 25),
    (".x = 1 / 2", 1003, 7, 8),
    ("%/", 1003, 1, 2),
    ("a ??= 1", 1003, 2, 5),
    (".n = 9223372036854775808", 1002, 5, 24),
    (".x = t'now'", 1014, 5, 11),
    (".x = s'a", 203, 5, 8),
    (".x = r'a\\'", 203, 5, 10),
    (".x = \"a\\q\"", 203, 5, 10),
    (".x = \"a\\q", 203, 5, 9),
    (".a.\"\\q\"[99999999999999999999] = 1", 203, 0, 29),
    (".a[99999999999999999999] = 1", 1002, 0, 24),
    ("a.b[99999999999999999999] = 1", 1002, 0, 25),
    ("f(a)[99999999999999999999]", 1002, 4, 26),
    ("%a[99999999999999999999] = 1", 1002, 0, 24),
    ("x = %\"\\q\"", 203, 4, 9),
    (".a.\"x", 203, 3, 5),
    ("x = \u{e9}", 203, 4, 6),
    ("x = ?", 203, 4, 5),
    ("x = &", 203, 4, 5),
    ("x = @", 203, 4, 5),
    ("x = 'a'", 203, 4, 5),
    ("\"{{\\q\"", 203, 0, 6),
];

#[test]
fn faults_of_scripts(rt: HostRuntime) -> Result<(), Memory> {
    expect_faults(&rt, &FAULTS);
    Ok(())
}

fn expect_nesting(
    rt: &(impl Abort + AllocGlobal),
    start: &str,
    front: &str,
    count: usize,
    back: &str,
    wanted: u16,
) -> Result<(), Memory> {
    let mut text = String::new(rt.alloc());
    text.push_str(start)?;
    for _ in 0..count {
        text.push_str(front)?;
    }
    text.push_str(back)?;
    assert!(rt; text.len() <= 65_536);
    let code = match tokens(rt.alloc(), text.as_str()) {
        Ok(_) => 0,
        Err(SyntaxFault::Fault(fault)) => fault.code,
        Err(SyntaxFault::Memory) => 1,
    };
    assert!(rt; code == wanted, "at {start:?} {front:?} {count:?} {code:?}");
    Ok(())
}

#[test]
fn nestings(rt: HostRuntime) -> Result<(), Memory> {
    expect_nesting(&rt, "", "(", 64, "", 0)?;
    expect_nesting(&rt, "", "(", 65, "", 1008)?;
    expect_nesting(&rt, "", "x + ", 64, "y", 0)?;
    expect_nesting(&rt, "", "x + ", 65, "y", 1008)?;
    expect_nesting(&rt, "", "x + ", 63, "(y)", 0)?;
    expect_nesting(&rt, "", "x + ", 64, "(y)", 1008)?;
    expect_nesting(&rt, "", "(", 63, "y) + y", 0)?;
    expect_nesting(&rt, "", "(", 64, "y) + y", 1008)?;
    expect_nesting(&rt, "", "f(x) -> |v| { ", 4, "", 0)?;
    expect_nesting(&rt, "", "f(x) -> |v| { ", 5, "", 1008)?;
    expect_nesting(&rt, "", "r'a' ", 256, "", 0)?;
    expect_nesting(&rt, "", "r'a' ", 257, "", 1016)?;
    expect_nesting(&rt, "", "x = 1\n", 10000, "", 0)?;
    expect_nesting(&rt, "", "\n", 65536, "", 0)?;
    expect_nesting(&rt, "", "x, ", 20000, "", 0)?;
    expect_nesting(&rt, ".x = \"", "{{a}}", 31, "\"", 0)?;
    expect_nesting(&rt, ".x = \"", "{{a}}", 32, "\"", 1008)?;
    expect_nesting(&rt, "(\"", "{{a}}", 31, "\")", 0)?;
    expect_nesting(&rt, "(\"", "{{a}}", 31, "\") + y", 1008)?;
    expect_nesting(&rt, "\"", "{{a}}", 31, "\" + y", 0)?;
    expect_nesting(&rt, "\"", "{{a}}", 31, "\" + y + z", 1008)?;
    expect_nesting(&rt, "x + ", "\"{{a}}\" + ", 60, "y", 0)?;
    expect_nesting(&rt, "\"", "{{ a }}\\{", 7000, "\"", 1008)?;
    Ok(())
}

// The text before the first variable of a text, and of each variable its name, its distance and the
// text behind it.
fn write_parts(out: &mut String, first: &Chars, holes: &Holes) -> Result<(), Memory> {
    out.push_str(first.as_str())?;
    for hole in holes.as_slice() {
        out.push('|')?;
        out.push_str(hole.name.as_str())?;
        out.push('|')?;
        for _ in 0..hole.distance {
            out.push('.')?;
        }
        out.push('|')?;
        out.push_str(hole.behind.as_str())?;
    }
    Ok(())
}

const PARTS: [(&str, &str); 6] = [
    ("\"{{ a }}\"", "|a|.....|"),
    ("\"a{{ n }}c\"", "a|n|......|c"),
    ("\"{{a}}{{  bc }}\"", "|a|.............||bc|......|"),
    (
        "\"\\n{{ a\t}}\\{{{ b }}\"",
        "\n|a|..............|{|b|.....|",
    ),
    ("\"{{ a }}\u{e9}}}\"", "|a|.........|\u{e9}}}"),
    ("\"a\n{{ a }}\\\"\"", "a\n|a|.......|\""),
];

#[test]
fn parts_of_texts(rt: HostRuntime) -> Result<(), Memory> {
    for (text, wanted) in &PARTS {
        assert!(rt; text.len() <= 65_536);
        let mut made = String::new(rt.alloc());
        if let Ok(found) = tokens(rt.alloc(), text) {
            if let Some(
                Spanned {
                    token: Token::Template(first, holes),
                    ..
                },
            ) = found.as_slice().first()
            {
                write_parts(&mut made, first, holes)?;
            }
        }
        assert!(rt; made.as_str() == *wanted, "at {text:?} {made:?}");
    }
    Ok(())
}

#[test]
fn texts(rt: HostRuntime) -> Result<(), Memory> {
    assert!(rt; script_text(b"\xff").is_err());
    assert!(rt; script_text(b".x = 1").is_ok());
    match tokens(rt.alloc(), ".x = 1 # c") {
        Ok(found) => {
            assert!(rt; found.end() == 10);
            assert!(rt; found.into_vec().len() == 3);
        }
        Err(fault) => assert!(rt; false, "{fault}"),
    }
    Ok(())
}

// The scripts of texts, and the places where no script goes on.
use std::alloc::Global;
use std::process::Abort;
use vrl_parse::parse;
use vrl_syntax::{Expr, Form, Op, Root, Script};
use vrl_token::{SyntaxFault, tokens};
use vrl_value::{Memory, Value};

// A letter for each form of an expression, and the sign of an operator.
fn letter(expr: &Expr) -> char {
    match &expr.form {
        Form::Literal(_) => 'l',
        Form::Array(_) => 'a',
        Form::Map(_) => 'o',
        Form::Read(..) => 'r',
        Form::Query(..) => 'q',
        Form::Group(_) => 'g',
        Form::Block(_) => 'b',
        Form::If(..) => 'i',
        Form::Not(_) => '!',
        Form::Binary(op, _, _) => sign(*op),
        Form::Assign(..) => '=',
        Form::Merge(..) => 'm',
        Form::Both(..) => '2',
        Form::Call(_) => 'c',
        Form::Return(_) => 'R',
        Form::Abort(_) => 'A',
    }
}

fn sign(op: Op) -> char {
    match op {
        Op::Coalesce => '?',
        Op::Or => 'O',
        Op::And => '&',
        Op::Equal => 'E',
        Op::Unequal => 'U',
        Op::Less => '<',
        Op::AtMost => 'L',
        Op::More => '>',
        Op::AtLeast => 'G',
        Op::Merge => '|',
        Op::Plus => '+',
        Op::Minus => '-',
        Op::Times => '*',
    }
}

// The letter of an expression, and those of the expressions that stand directly in it.
fn push_letters(out: &mut String, expr: &Expr) -> Result<(), Memory> {
    out.push(letter(expr))?;
    match &expr.form {
        Form::Query(inner, _) | Form::Group(inner) | Form::Not(inner) | Form::Return(inner) => {
            out.push(letter(inner))?;
        }
        Form::Assign(_, inner) | Form::Merge(_, inner) | Form::Both(_, _, inner) => {
            out.push(letter(inner))?;
        }
        Form::Binary(_, left, right) => {
            out.push(letter(left))?;
            out.push(letter(right))?;
        }
        _ => {}
    }
    Ok(())
}

// The letters of all items.
fn letters(rt: &impl AllocGlobal, script: &Script) -> Result<String, Memory> {
    let mut made = String::new(rt.alloc());
    for item in script.items.as_slice() {
        push_letters(&mut made, item)?;
        made.push(' ')?;
    }
    Ok(made)
}

// The script of a text that has tokens.
fn script(rt: &impl AllocGlobal, text: &str) -> Result<Script, SyntaxFault> {
    if text.len() > 65_536 {
        return Err(SyntaxFault::Memory);
    }
    let words = tokens(rt.alloc(), text)?;
    parse(rt.alloc(), &words)
}

// Each text, the letters of its items, and where its first item stands.
fn expect_scripts(
    rt: &(impl Abort + AllocGlobal),
    rows: &[(&str, &str, u32, u32)],
) -> Result<(), Memory> {
    for (text, wanted, start, end) in rows {
        match script(rt, text) {
            Ok(found) => {
                let made = letters(rt, &found)?;
                assert!(rt; made.as_str() == *wanted, "at {text:?} {made:?}");
                match found.items.as_slice().first() {
                    Some(item) => assert!(rt;
                        item.span.start == *start && item.span.end == *end,
                        "at {text:?}"
                    ),
                    None => assert!(rt; *end == 0, "at {text:?}"),
                }
            }
            Err(fault) => assert!(rt; false, "at {text:?} {fault:?}"),
        }
    }
    Ok(())
}

// Each text, and the code and the place of what is wrong with it.
fn expect_faults(rt: &(impl Abort + AllocGlobal), rows: &[(&str, u16, u32)]) {
    for (text, code, start) in rows {
        match script(rt, text) {
            Err(SyntaxFault::Fault(fault)) => {
                assert!(rt;
                    fault.code == *code && fault.span.start == *start,
                    "at {text:?} {fault:?}"
                );
            }
            _ => assert!(rt; false, "at {text:?}"),
        }
    }
}

const SCRIPTS: [(&str, &str, u32, u32); 36] = [
    ("", "", 0, 0),
    (".x = 1; .y = 2", "=l =l ", 0, 6),
    (".x = 1\n.y = 2", "=l =l ", 0, 6),
    (".x = 1\n?? 2", "=? ", 0, 11),
    (" f(a)[0] ", "qc ", 1, 8),
    ("f!(n: 1, .a,) -> |k, v| { v }", "c ", 0, 29),
    ("[1, 2,].a", "qa ", 0, 9),
    ("({ \"a\": 1 })", "go ", 0, 12),
    ("1 - 2 - 3", "--l ", 0, 9),
    ("1 - 2 + 3", "+-l ", 0, 9),
    ("1 + 2 * 3", "+l* ", 0, 9),
    ("1 * 2 + 3", "+*l ", 0, 9),
    ("a ?? b || c && d", "?rO ", 0, 16),
    ("a | b + c < d == e", "E<r ", 0, 18),
    ("!a.b && c", "&!r ", 0, 9),
    ("a, _ = f()", "2c ", 0, 10),
    ("%, %a[0] = f()", "2c ", 0, 14),
    ("% = { \"a\": %b }", "=o ", 0, 15),
    ("%b |= %", "mr ", 0, 7),
    ("5 - % * %2", "-l* ", 0, 10),
    ("a = b |= return c", "=m ", 0, 17),
    ("abort; abort \"a\"", "A A ", 0, 5),
    ("if a { b } else if c { d } else { e }", "i ", 0, 37),
    ("{ a; b }", "b ", 0, 8),
    (".a[-65536] = del(.b[-1])", "=c ", 0, 24),
    ("\"a{{ n }}c\"", "g+ ", 0, 11),
    ("\"{{ a }}{{ b }}\"", "g+ ", 0, 16),
    ("\"{{ a }}\" + \"b\"", "+gl ", 0, 15),
    ("f(\"{{ a }}\", x: \"b{{ c }}d\")", "c ", 0, 28),
    ("[\"{{ a }}\", \"b\"]", "a ", 0, 16),
    ("{ \"a\": \"{{ b }}\" }", "o ", 0, 18),
    ("if \"{{ a }}\" == b { c }", "i ", 0, 23),
    ("abort \"a{{ n }}\"", "A ", 0, 16),
    (".x = \"{{ a }}\"", "=g ", 0, 14),
    ("!\"{{ a }}\"", "!g ", 0, 10),
    (
        "((((((((((((((((((((((((((((((((((((((((((((((((((((((((((((((((1))))))))))))))))))))))))))))))))))))))))))))))))))))))))))))))))",
        "gg ",
        0,
        129,
    ),
];

#[test]
fn scripts_of_texts(rt: HostRuntime) -> Result<(), Memory> {
    expect_scripts(&rt, &SCRIPTS)
}

// The letter of an expression, its place, and its text or name.
fn push_place(alloc: Global, out: &mut String, expr: &Expr) -> Result<(), Memory> {
    out.push(letter(expr))?;
    out.push_str(format!(in alloc; "{}-{}", expr.span.start, expr.span.end)?.as_str())?;
    match &expr.form {
        Form::Literal(Value::Text(text)) => {
            out.push(':')?;
            out.push_str(text.as_str())?;
        }
        Form::Read(Root::Name(name), _) => {
            out.push(':')?;
            out.push_str(name.as_str())?;
        }
        _ => {}
    }
    Ok(())
}

// The places of a group and of the sums in it, each with its right side, from the outermost on.
fn places(alloc: Global, group: &Expr) -> Result<String, Memory> {
    let mut told = String::new(alloc);
    push_place(alloc, &mut told, group)?;
    let Form::Group(inner) = &group.form else {
        return Ok(told);
    };
    let mut rest: &Expr = inner;
    while let Form::Binary(_, left, right) = &rest.form {
        told.push(' ')?;
        push_place(alloc, &mut told, rest)?;
        told.push(' ')?;
        push_place(alloc, &mut told, right)?;
        rest = left;
    }
    told.push(' ')?;
    push_place(alloc, &mut told, rest)?;
    Ok(told)
}

const SUMS: [(&str, &str); 3] = [
    ("\"a{{ n }}c\"", "g0-11 +0-11 l0-11:c +0-11 r5-6:n l0-11:a"),
    ("  \"{{a}}\"", "g2-9 +2-9 l2-9: +2-9 r5-6:a l2-9:"),
    (
        "\"{{ a }}b{{  cd }}\"",
        "g0-19 +0-19 l0-19: +0-19 r13-15:cd +0-19 l0-19:b +0-19 r4-5:a l0-19:",
    ),
];

#[test]
fn sums_of_texts_with_variables(rt: HostRuntime) -> Result<(), Memory> {
    for (text, wanted) in &SUMS {
        let Ok(found) = script(&rt, text) else {
            assert!(rt; false, "at {text:?}");
            continue;
        };
        let Some(item) = found.items.as_slice().first() else {
            assert!(rt; false, "at {text:?}");
            continue;
        };
        let told = places(rt.alloc(), item)?;
        assert!(rt; told.as_str() == *wanted, "at {text:?} {told:?}");
    }
    Ok(())
}

const FAULTS: [(&str, u16, u32); 26] = [
    (".x = 1 2", 203, 7),
    (".x = (1", 203, 7),
    ("if true 1", 203, 8),
    ("}", 203, 0),
    ("a, .b, c = 1", 203, 5),
    (".x =", 203, 4),
    ("[1 2]", 203, 3),
    ("{ \"a\": 1, 2 }", 203, 10),
    ("f(a b)", 203, 4),
    ("f() -> |k, v| { v }.a", 203, 19),
    ("abort ?? 1", 203, 6),
    ("(a = 1, 2)", 203, 6),
    ("f(a, b = 1", 203, 10),
    ("5 % 2", 203, 2),
    ("%.a", 203, 1),
    ("f()%a", 203, 3),
    ("{ \"a{{ n }}\": 1 }", 203, 2),
    ("\"{{ a }}\".b", 203, 9),
    ("\"{{ a }}\" \"b\"", 203, 10),
    ("\"{{ a }}\" = 1", 203, 10),
    (".a[65536] = 1", 1012, 0),
    (".a[-65537] = 1", 1012, 0),
    ("b = .a[0]; .a[-1][65536] = 1", 1012, 11),
    ("del(x: .a[-65537]); .b[65536] = 1", 1012, 7),
    ("%a[-65537] = 1", 1012, 0),
    ("del(%[65536])", 1012, 4),
];

#[test]
fn places_where_no_script_goes_on(rt: HostRuntime) {
    expect_faults(&rt, &FAULTS);
}

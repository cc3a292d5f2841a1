// Texts with their layouts, or with why they have none. Expected answers are those of the rules.
use std::alloc::Global;
use std::process::Abort;
use vrl_format::{Formatted, format};
use vrl_token::SCRIPT_LIMIT;
use vrl_value::{Chars, Memory};

// What is answered to a text, as a text.
fn told(alloc: Global, text: &str) -> Result<Chars, Memory> {
    if text.len() > SCRIPT_LIMIT {
        return Chars::copy_of(alloc, "no script");
    }
    match format(alloc, text)? {
        Formatted::Text(laid) => Ok(laid),
        Formatted::Refused(fault) => {
            let (code, place) = (fault.code, fault.span.start);
            Ok(Chars::new(format!(in alloc; "error {code} at {place}")?))
        }
        Formatted::TooLong => Chars::copy_of(alloc, "too long"),
    }
}

const ROWS: [(&str, &str); 9] = [
    (
        ".a=1; .b = [ 1,2 ] # two\nif .a==1{abort}",
        ".a = 1\n.b = [1, 2] # two\nif .a == 1 {\n  abort\n}\n",
    ),
    (
        ".a = 1\n.b = [1, 2] # two\nif .a == 1 {\n  abort\n}\n",
        ".a = 1\n.b = [1, 2] # two\nif .a == 1 {\n  abort\n}\n",
    ),
    (".x = (", "error 203 at 6"),
    (".x = 1.5", "error 1001 at 5"),
    ("x={\"a\":!true,}", "x = {\"a\": !true,}\n"),
    ("for_each( . )->|k,v|{}", "for_each(.) -> |k, v| {}\n"),
    ("{;}", "{\n  ;\n}\n"),
    (" \t\r\n\n", ""),
    ("# only \n\n\n\n.", "# only\n\n.\n"),
];

#[test]
fn texts_have_layouts(rt: HostRuntime) -> Result<(), Memory> {
    for (text, wanted) in &ROWS {
        let answer = told(rt.alloc(), text)?;
        assert!(rt;
            answer.as_str() == *wanted,
            "{} for {text}",
            answer.as_str()
        );
    }
    Ok(())
}

use vrl_diag::{
    Diagnostic, Diagnostics, Severity, Span, code, render, render_all, severity, title,
};
use vrl_value::Memory;

const LINES: [(u16, u32, &str, &str); 5] = [
    (
        103,
        6,
        "x = 1\n.r = 2",
        "error[E103] 2:1 unhandled fallible assignment",
    ),
    (
        651,
        5,
        ".m = a ?? b",
        "warning[E651] 1:6 unnecessary error coalescing",
    ),
    (203, 99, ".x =\n", "error[E203] 2:1 unrecognized token"),
    (
        701,
        10,
        "\"\u{e9}\u{20ac}\" + y",
        "error[E701] 1:8 undefined variable",
    ),
    (999, 0, "", "error[E999] 1:1 "),
];

#[test]
fn lines(rt: HostRuntime) -> Result<(), Memory> {
    for (code, start, text, line) in &LINES {
        let end = *start + 1;
        let one = Diagnostic {
            code: *code,
            span: Span { start: *start, end },
        };
        assert_eq!(rt; render(rt.alloc(), &one, text)?.as_str(), *line);
    }
    Ok(())
}

#[test]
fn lines_of_a_script(rt: HostRuntime) -> Result<(), Memory> {
    let span = Span { start: 2, end: 3 };
    let list = vec![in rt.alloc();
        Diagnostic { code: 650, span },
        Diagnostic {
            code: 100,
            span: Span { start: 0, end: 3 }
        },
    ]?;
    let list = Diagnostics::new(list);
    let told = render_all(rt.alloc(), list.as_slice(), b"\xff\n1")?;
    assert_eq!(rt;
        told.as_slice(),
        b"error[E650] 2:1 chained comparison\nerror[E100] 1:1 unhandled error\n".as_slice()
    );
    assert_eq!(rt;
        severity(code::UNNECESSARY_ERROR_COALESCING),
        Severity::Warning
    );
    assert_eq!(rt;
        title(code::METADATA_ASSIGNED_NO_OBJECT),
        "metadata assigned no object"
    );
    assert!(rt; list.into_vec().len() == 2);
    Ok(())
}

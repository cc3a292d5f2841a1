// What a part of a script writes, told of trees that are made by hand.
use std::alloc::Global;
use std::process::Abort;
use vrl_diag::Span;
use vrl_path::{Path, Step};
use vrl_syntax::{Expr, Exprs, Form, Root, Script, Target, limit_faults, written_roots};
use vrl_tests::shareable;
use vrl_value::{Memory, Names, Value};

const SPAN: Span = Span { start: 2, end: 5 };

// An expression that stands at the span.
fn expr(form: Form) -> Expr {
    Expr { span: SPAN, form }
}

// `.[place] = 1`, with as many steps more.
fn assignment(alloc: Global, place: i64, more: usize) -> Result<Exprs, Memory> {
    let mut steps = Vec::new(alloc);
    for _step in 0..more {
        steps.push(Step::Place(0))?;
    }
    steps.push(Step::Place(place))?;
    let target = Target::Place(SPAN, Root::Event, Path::new(steps));
    let value = Box::new(alloc, expr(Form::Literal(Value::Int(1))))?;
    let mut items = Vec::new(alloc);
    items.push(expr(Form::Assign(target, value)))?;
    Ok(Exprs::new(items))
}

// The place and the steps more of an assignment, and the code of its fault; 0 where it has none.
fn expect_faults(rt: &impl Abort, alloc: Global, rows: &[(i64, usize, u16)]) -> Result<(), Memory> {
    for (place, more, code) in rows {
        let faults = limit_faults(alloc, &assignment(alloc, *place, *more)?)?;
        let found = faults.as_slice().first().map(|fault| fault.code);
        assert!(rt; found.unwrap_or(0) == *code, "at {place}, {more}");
    }
    Ok(())
}

fn is_event(root: &Root) -> bool {
    matches!(root, Root::Event)
}

const WRITES: [(i64, usize, u16); 7] = [
    (0, 0, 0),
    (65_535, 127, 0),
    (65_536, 0, 1012),
    (0, 128, 1012),
    (-65_536, 127, 0),
    (-65_537, 0, 1012),
    (-1, 128, 1012),
];

#[test]
fn what_an_assignment_writes(rt: HostRuntime) -> Result<(), Memory> {
    let alloc = rt.alloc();
    expect_faults(&rt, alloc, &WRITES)?;
    let script = shareable(Script {
        items: assignment(alloc, 0, 0)?,
        patterns: Names::new(Vec::new(alloc)),
    });
    let roots = written_roots(alloc, &script.items)?;
    let first = roots.as_slice().first().map(|root| is_event(root));
    assert!(rt; first.unwrap_or(false) && roots.as_slice().len() == 1);
    Ok(())
}

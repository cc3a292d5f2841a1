ghost use Rattle.std.specs.Prelude.{◌≡◌, ◌≤◌, IfOk, string_bytes};
ghost use Rattle.vrl_generate.specs.Made as spec;

use std::alloc::Global;
use vrl_batch::Line;
use vrl_value::{Memory, Moment};

// The moment before that of the first line, in seconds since 1970-01-01T00:00:00Z.
const START: u64 = 1_700_000_000;

// The state behind this one.
pub(crate) fn state_after(state: u64) -> u64
    ensures { result ≡ spec.state_after state }
{
    state
        .wrapping_mul(6_364_136_223_846_793_005)
        .wrapping_add(1_442_695_040_888_963_407)
}

// The line of this number, from its state. `Memory`: want of memory.
pub(crate) fn line_from(alloc: Global, state: u64, number: u64) -> Result<Line, Memory>
    requires { number ≤ 1000000 }
    ensures { IfOk result (λ line. line ≡ spec.line_from state number) }
{
    let text = line_text(alloc, number, drawn(state))?;
    Line::new(alloc, number, text.as_bytes(), moment_of(number))
}

// The number that a state gives.
fn drawn(state: u64) -> u64
    ensures { result ≡ spec.drawn state }
{
    state / (1 << 33)
}

// The moment of the line of this number.
fn moment_of(number: u64) -> Moment
    requires { number ≤ 1000000 }
    ensures { result ≡ spec.made_moment number }
{
    match Moment::new((START + number) as i128 * 1_000_000_000) {
        Some(moment) => moment,
        None => unreachable!(),
    }
}

// One level of three.
fn level_of(number: u64) -> &'static str
    ensures { result.now ≡ spec.level_of number }
{
    match number {
        0 => "INFO",
        1 => "WARN",
        _ => "ERROR",
    }
}

// The text of the line of this number, from the number that its state gives. `Memory`: want of
// memory.
fn line_text(alloc: Global, number: u64, drawn: u64) -> Result<String, Memory>
    ensures { IfOk result (λ text. string_bytes text ≡ spec.line_text number drawn) }
{
    let host = drawn % 16;
    let level = level_of(drawn / 16 % 3);
    let took = drawn / 64 % 1000;
    let n = drawn % 1000;
    Ok(format!(in alloc;
        "{{\"host\":\"h{host}\",\"level\":\"{level}\",\"message\":\"request {number} took {took} ms\",\"n\":{n}}}"
    )?)
}

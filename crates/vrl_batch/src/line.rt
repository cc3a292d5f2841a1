ghost use Rattle.std.specs.Prelude.{◌≡◌, IfOk};
ghost use Rattle.vrl_batch.specs.Lines.{line_at};

use std::alloc::Global;
use vrl_value::{Bytes, Memory, Moment};

/// The most bytes of a line, its newline not counted.
pub(crate) const LINE_LIMIT: usize = 1_048_576;

/// A line of the input that isn't blank.
#[derive(Drop)]
pub struct Line {
    /// Its number. The first line of the input has 1, and blank lines are counted.
    pub number: u64,
    /// Its bytes, without the newline; none of a line that is too long.
    pub bytes: Bytes,
    /// Whether it is too long: it has more than 1,048,576 bytes.
    pub long: bool,
    /// The moment at which it was read.
    pub moment: Moment,
}

impl Line {
    /// The line of this number, with these bytes, read at this moment. `Memory`: want of memory.
    pub fn new(alloc: Global, number: u64, bytes: &[u8], moment: Moment) -> Result<Line, Memory>
        ensures { IfOk result (λ line. line ≡ line_at moment (number, bytes.now)) }
    {
        let long = bytes.len() > LINE_LIMIT;
        let kept = if long { &[] } else { bytes };
        Ok(Line {
            number,
            bytes: Bytes::new(kept.to_vec(alloc)?),
            long,
            moment,
        })
    }
}

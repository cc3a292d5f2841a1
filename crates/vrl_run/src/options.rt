/// What a line stands for, and what becomes of an event over which the script ends early.
#[derive(Clone, Copy, Debug, PartialEq, Eq)]
pub struct Options {
    /// An event over which a call with a `!` fails, or the limit of depth is met, is dropped, and
    /// not kept as it was read.
    pub drop_on_error: bool,
    /// An event over which the script aborts is kept as it was read, and not dropped.
    pub keep_on_abort: bool,
    /// A line is an envelope, an object of an event and its metadata, and each event is written in
    /// one. Without it a line is an event, whose metadata is empty and isn't written.
    pub envelope: bool,
}

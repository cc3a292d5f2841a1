/// What is done with the script.
#[derive(Clone, Copy, Debug, PartialEq, Eq)]
pub enum Mode {
    /// It is run over the lines of the input.
    Lines,
    /// It is checked, and no input is read.
    Check,
    /// It is run over made lines.
    Generate {
        /// How many lines are made, from 1 to 1,000,000.
        count: u64,
        /// Where the numbers begin from which they are made, below 2^32.
        seed: u64,
    },
}

/// What a command line asks for.
#[derive(Clone, Copy, Debug, PartialEq, Eq)]
pub struct Invocation<'a> {
    /// The name of the script's file, which is not empty.
    pub script: &'a str,
    /// The name of the kind file, which is not empty.
    pub kind: Option<&'a str>,
    /// The number of workers, from 1 to 32.
    pub jobs: u32,
    /// Whether a line at which the script ends in an error is left out of the output.
    pub drop_on_error: bool,
    /// Whether a line at which the script aborts is written as it was.
    pub keep_on_abort: bool,
    /// Whether a line holds an event with its metadata. Made lines hold none.
    pub envelope: bool,
    /// What is done with the script.
    pub mode: Mode,
}

/// Why a command line is not read.
#[derive(Clone, Copy, Debug, PartialEq, Eq)]
pub enum WordsFault {
    /// The words are no command line.
    Refused,
    /// There was no memory to read them.
    Memory,
}

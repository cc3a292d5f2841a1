ghost use Rattle.std.specs.Prelude.{◌≡◌};
ghost use Rattle.std.specs.Process.{exit_status};
ghost use Rattle.vrl_run.specs.Status.{meaning_of};

use std::process::ExitCode;

/// How a call ended.
#[derive(Clone, Copy, Debug, PartialEq, Eq)]
pub enum Status {
    /// The lines were read or made to their end, and none was refused; or the kinds were told.
    Done,
    /// The script is refused; the report holds its diagnostics.
    Refused,
    /// The words are refused; the report holds the usage line.
    Usage,
    /// The script or the kind file could not be loaded, or the input could not be read.
    ReadFault,
    /// The output or the report could not be written.
    WriteFault,
    /// Want of memory.
    Memory,
    /// The kind file is refused; the report holds the reason.
    KindRefused,
    /// As `Done`, but some line was refused; the report tells which, where they were read.
    Marked,
    /// The input has more than 2^40 bytes.
    TooMuch,
}

impl Status {
    /// What the program ends with.
    pub fn exit_code(self) -> ExitCode
        ensures { exit_status result ≡ (meaning_of self).number }
    {
        ExitCode::from(match self {
            Status::Done => 0,
            Status::Refused => 1,
            Status::Usage => 2,
            Status::ReadFault => 3,
            Status::WriteFault => 4,
            Status::Memory => 5,
            Status::KindRefused => 6,
            Status::Marked => 7,
            Status::TooMuch => 8,
        })
    }
}

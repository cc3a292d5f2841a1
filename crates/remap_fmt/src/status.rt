ghost use Rattle.std.specs.Prelude.{◌≡◌};
ghost use Rattle.std.specs.Process.{exit_status};
ghost use Rattle.remap_fmt.specs.Status.{number_of};

use std::process::ExitCode;

/// How a call ended.
#[derive(Clone, Copy, Debug, PartialEq, Eq)]
pub enum FmtStatus {
    /// The output holds the layout of the script.
    Done,
    /// The script is refused; the report holds the diagnostic.
    Refused,
    /// The words are refused; the report holds the usage line.
    Usage,
    /// The script could not be loaded.
    ReadFault,
    /// The output or the report could not be written.
    WriteFault,
    /// Out of memory.
    Memory,
    /// The layout has over 65,536 bytes, which no script may have; the report says so.
    TooLong,
}

impl FmtStatus {
    /// What the program ends with.
    pub fn exit_code(self) -> ExitCode
        ensures { exit_status result ≡ number_of self }
    {
        ExitCode::from(match self {
            FmtStatus::Done => 0,
            FmtStatus::Refused => 1,
            FmtStatus::Usage => 2,
            FmtStatus::ReadFault => 3,
            FmtStatus::WriteFault => 4,
            FmtStatus::Memory => 5,
            FmtStatus::TooLong => 6,
        })
    }
}

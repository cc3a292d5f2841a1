use crate::ready_script::ReadyScript;
use vrl_diag::Diagnostics;
use vrl_kind::Kind;
use vrl_kindfile::KindFault;
use vrl_state::Known;
use vrl_value::Bytes;

/// What a call asks, once its words are read and the script that they name is compiled.
#[derive(Drop)]
pub enum Request {
    /// The words are refused.
    Words,
    /// The kind file is refused, for this reason.
    Kind(KindFault),
    /// The script of these bytes is refused, with what is wrong with it.
    Refused(Bytes, Diagnostics),
    /// The script runs over the lines of the input.
    Run(ReadyScript),
    /// The script runs over so many lines, at most 1,000,000, which are made from a seed.
    Generate(ReadyScript, u64, u64),
    /// The kinds are told that the script of these bytes, with these warnings, may end with: that
    /// of its value, and what is known then, in which the metadata is told where the flag says so.
    Check(Bytes, Diagnostics, Kind, Known, bool),
}

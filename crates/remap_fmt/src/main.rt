//! `remap_fmt SCRIPT`: the layout of a script of the Vector Remap Language.
//!
//! `main` hands the words and the real devices to `fmt`, and ends with the number of its status.
//!
//! Files: `call.rt` has `fmt`, `words.rt` what its words name, `answering.rt` what is written, and
//! `status.rt` how a call ends.
#![tactic(auto)]

mod answering;
mod call;
mod status;
mod words;

use call::fmt;
use status::FmtStatus;
use std::process::ExitCode;
use vrl_io::{FileStore, StdSink};
use vrl_words::words_behind_name;

fn main(rt: HostRuntime) -> ExitCode {
    let Ok(words) = words_behind_name(&rt, rt.alloc()) else {
        return FmtStatus::Memory.exit_code();
    };
    let status = fmt(
        rt.alloc(),
        &words,
        &mut FileStore::new(&rt, rt.alloc()),
        &mut StdSink::new(rt.stdout()),
        &mut StdSink::new(rt.stderr()),
    );
    status.exit_code()
}

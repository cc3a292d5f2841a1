//! The devices of a run: where bytes come from and go, where scripts are kept, and the clock.
//!
//! Each is a trait whose ghost members are what a contract may say of a device. What a device holds
//! or has left is optional: one that does not tell it has `None` there. For each trait there is an
//! object in memory, which tells all, and an adapter over what std has, which tells none of its
//! content.
//!
//! Files: `source.rt`, `sink.rt`, `store.rt` and `clock.rt` have the traits, `calls.rt` and
//! `failures.rt` what they count; the files that begin with `memory_` have the devices in memory,
//! and `std_source.rt`, `std_sink.rt`, `file_store.rt` and `system_clock.rt` the adapters.
#![tactic(auto)]

mod calls;
mod clock;
mod failures;
mod fault;
mod file_store;
mod memory_clock;
mod memory_sink;
mod memory_source;
mod memory_store;
mod sink;
mod source;
mod std_sink;
mod std_source;
mod store;
mod system_clock;

pub use clock::Clock;
pub use fault::{Failed, LoadFault};
pub use file_store::FileStore;
pub use memory_clock::MemoryClock;
pub use memory_sink::MemorySink;
pub use memory_source::MemorySource;
pub use memory_store::MemoryStore;
pub use sink::Sink;
pub use source::Source;
pub use std_sink::StdSink;
pub use std_source::StdSource;
pub use store::Store;
pub use system_clock::SystemClock;

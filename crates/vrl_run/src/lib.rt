//! The result of a line: the script's run over the event that the line stands for, the events that
//! are kept, and what is reported; and the answer to a request, over all lines of an input.
//!
//! Files: `result.rt` has `run_line`, `envelope.rt` the event and the metadata that a line stands
//! for, and how both are written, `kept.rt` the events that are kept, `report.rt` what is reported
//! of a line, `reason.rt` why one is refused and `options.rt` what may be asked; `request.rt` has a
//! request and `answering.rt` `answer`, over `mapping.rt`, a run over the lines of an input batch
//! by batch, `made.rt`, one over made lines, `work.rt`, what is done with each line, `joining.rt`,
//! results that are joined, `kinds.rt`, the kinds that are told, and `writing.rt`;
//! `ready_script.rt` has an accepted script, and `status.rt` how a call ends.
#![tactic(auto)]

mod answering;
mod envelope;
mod joining;
mod kept;
mod kinds;
mod made;
mod mapping;
mod options;
mod ready_script;
mod reason;
mod report;
mod request;
mod result;
mod status;
mod work;
mod writing;

pub use answering::answer;
pub use envelope::lines_stand_for_json;
pub use options::Options;
pub use ready_script::ReadyScript;
pub use reason::Reason;
pub use request::Request;
pub use result::run_line;
pub use status::Status;

ghost use Rattle.vrl_batch.specs.Runs.{BatchesEnd, RunsAskAtMost, RunsBegin, RunsEnd, RunsFront, RunsGoOn, RunsStop};

/// The law that a batch is empty exactly where the source has ended, and no line that isn't blank
/// was held before or taken.
pub fn batches_end()
    ensures { BatchesEnd }
{}

/// The law that a reader which was just made has read nothing.
pub fn runs_begin()
    ensures { RunsBegin }
{}

/// The law that a call adds the lines of its batch to those that were read.
pub fn runs_go_on()
    ensures { RunsGoOn }
{}

/// The law that after an empty batch the lines that were read are all of the input.
pub fn runs_end()
    ensures { RunsEnd }
{}

/// The law that at a fault of the source, or at the limit, the lines that were read are those of
/// the whole batches among the bytes taken.
pub fn runs_stop()
    ensures { RunsStop }
{}

/// The law that at any time the lines that were read are the first of the input.
pub fn runs_front()
    ensures { RunsFront }
{}

/// The law that at any time, whatever came of the last call, the clock has told at most one moment
/// for each line of the bytes taken that isn't blank.
pub fn runs_ask_at_most()
    ensures { RunsAskAtMost }
{}

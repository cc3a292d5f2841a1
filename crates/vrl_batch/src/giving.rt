ghost use Rattle.std.specs.Prelude.{◌≡◌, ◌≤◌, [], IsOk, OnOk, OnErr};
ghost use Rattle.vrl_io.specs.Faults.{HasRisen};
ghost use Rattle.vrl_batch.specs.Sinks.{Appends, AppendsFront};

use vrl_io::{Failed, Sink};

/// Gives all of the bytes to the sink, piece by piece. After a failure the sink has taken a front
/// of them.
pub fn give_all<K: Sink>(sink: &mut K, bytes: &[u8]) -> Result<(), Failed>
    ensures whole { OnOk result (Appends (K.written sink.old) (K.written sink.new) bytes.now) }
    ensures front { AppendsFront (K.written sink.old) (K.written sink.new) bytes.now }
    ensures cause { OnErr result (HasRisen (K.faults sink.old) (K.faults sink.new)) }
    ensures count { K.faults sink.old ≤ K.faults sink.new }
    ensures no_fault { OnOk result (K.faults sink.new ≡ K.faults sink.old) }
    ensures none { bytes.now ≡ [] → IsOk result }
{
    let mut given = 0;
    while given < bytes.len() {
        given += sink.give(&bytes[given..])?;
    }
    Ok(())
}

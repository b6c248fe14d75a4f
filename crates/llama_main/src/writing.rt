//! Writes what was gathered.

ghost use Rattle.std.specs.Prelude.{◌≡◌, ◌<◌, ◌≤◌, ◌^◌, [], List, ℕ, ◌⊎◌, OnOk, OnErr, Err, take};
ghost use Rattle.lama_base.specs.Faults.{Rose};
ghost use Rattle.llama_main.specs.Streams.{IsFront, Appends};

use crate::stop::Stop;
use lama_base::{Sink, SinkFault};

/// Writes all of the bytes. After an `Err` the sink took a front of them.
fn write_all<K: Sink>(sink: &mut K, bytes: &[u8]) -> Result<(), SinkFault>
    ensures ok { OnOk result (Appends (K.written sink.old) (K.written sink.new) bytes.now) }
    ensures err { OnErr result ((said : List ℕ) × Appends (K.written sink.old) (K.written sink.new) said × IsFront said bytes.now) }
    ensures cause { result ≡ Err SinkFault.Failed → Rose (K.faults sink.old) (K.faults sink.new) }
    ensures steady { K.faults sink.old ≤ K.faults sink.new }
    ensures bounded { K.faults sink.old < 2 ^ 64 → K.faults sink.new < 2 ^ 64 }
{
    let mut written = 0;
    while written < bytes.len() {
        match sink.write(&bytes[written..]) {
            Ok(taken) => written += taken,
            Err(fault) => return Err(fault),
        }
    }
    Ok(())
}

/// Writes what was gathered, and gathers anew. What the sink did not take is dropped.
pub fn flush<K: Sink>(sink: &mut K, out: &mut Vec<u8>) -> Result<(), Stop>
    ensures gathered { out.new.items ≡ [] }
    ensures ok { OnOk result (Appends (K.written sink.old) (K.written sink.new) out.old.items) }
    ensures err { OnErr result ((said : List ℕ) × Appends (K.written sink.old) (K.written sink.new) said × IsFront said out.old.items) }
    ensures fault { OnErr result (result ≡ Err Stop.NoMemory ⊎ result ≡ Err Stop.WriteFault) }
    ensures cause { result ≡ Err Stop.WriteFault → Rose (K.faults sink.old) (K.faults sink.new) }
    ensures steady { K.faults sink.old ≤ K.faults sink.new }
    ensures bounded { K.faults sink.old < 2 ^ 64 → K.faults sink.new < 2 ^ 64 }
{
    let answer = write_all(sink, out);
    out.clear();
    match answer {
        Ok(()) => Ok(()),
        Err(SinkFault::Failed) => Err(Stop::WriteFault),
        Err(SinkFault::NoMemory) => Err(Stop::NoMemory),
    }
}

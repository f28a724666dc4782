//! Writes a text whole.
ghost use Rattle.sr_engine.specs.Output.{WritesAll};

use sr_base::{Sink, SinkFault};

/// Writes the text to the sink, in as many pieces as the sink takes. At a fault the sink was given a beginning of the
/// text; the fault's cause is that of `Sink::write`.
pub fn write_all<K: Sink>(sink: &mut K, text: &[u8]) -> Result<(), SinkFault>
    ensures { WritesAll (K.held sink.old) (K.held sink.new) (K.faults sink.old) (K.faults sink.new) text.now result }
{
    let mut at = 0;
    while at < text.len() {
        match sink.write(&text[at..]) {
            Ok(count) => at += count,
            Err(fault) => return Err(fault),
        }
    }
    Ok(())
}

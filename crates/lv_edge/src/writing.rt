ghost use Rattle.std.specs.Prelude.{OnOk, OnErr};
ghost use Rattle.lv_edge.specs.Causes.{HasCause};
ghost use Rattle.lv_edge.specs.Streams.{Grows, GrowsByPart};

use crate::{Failed, Sink};

/// Writes all of these bytes. It takes no memory of its own.
///
/// `Failed` comes where a write failed; then only some of the first bytes were written.
pub fn write_all<O: Sink>(sink: &mut O, bytes: &[u8]) -> Result<(), Failed>
    ensures all { OnOk result (Grows (O.written sink.old) (O.written sink.new) bytes.now) }
    ensures part { OnErr result (GrowsByPart (O.written sink.old) (O.written sink.new) bytes.now) }
    ensures cause { HasCause (O.faults sink.old) (O.faults sink.new) result }
{
    let mut at = 0;
    while at < bytes.len() {
        at += sink.write(&bytes[at..])?;
    }
    Ok(())
}

// Writing whole texts to a sink.
ghost use Rattle.std.specs.Prelude.{◌≡◌, ◌++◌};
ghost use Rattle.vb_io.specs.Outside.{Writes};

use crate::{Failed, Sink};

/// Puts all of a text, in as many pieces as the sink takes it.
///
/// At `Failed` a proper front of the text was put, which may be empty, and the sink's count of
/// faults rose. An empty text makes no call of the sink.
pub fn write_all<K: Sink>(sink: &mut K, text: &[u8]) -> Result<(), Failed>
    ensures { Writes (K.written sink.old) (K.written sink.new) (K.faults sink.old) (K.faults sink.new) text.now result }
{
    let mut rest = text;
    while !rest.is_empty() {
        let count = sink.put(rest)?;
        (_, rest) = rest.split_at(count);
    }
    Ok(())
}

/// Puts all of a text that stands in two parts, as [`write_all`] puts one.
pub fn write_both<K: Sink>(sink: &mut K, front: &[u8], back: &[u8]) -> Result<(), Failed>
    ensures { Writes (K.written sink.old) (K.written sink.new) (K.faults sink.old) (K.faults sink.new) (front.now ++ back.now) result }
{
    match write_all(sink, front) {
        Ok(()) => write_all(sink, back),
        Err(failed) => Err(failed),
    }
}

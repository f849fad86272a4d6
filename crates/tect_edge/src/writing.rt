ghost use Rattle.std.specs.Prelude.{OnOk, OnErr};
ghost use Rattle.std.specs.Io.KnownBytes.{Appends};
ghost use Rattle.tect_edge.specs.Counts.{HasCause};
ghost use Rattle.tect_edge.specs.Prefixes.{AppendsProperPrefix};

use crate::sink::Sink;
use crate::source::Failed;

/// Writes the whole piece. After `Failed` a front of it was written, and not all.
pub fn put_all<K: Sink>(sink: &mut K, piece: &[u8]) -> Result<(), Failed>
    ensures whole { OnOk result (Appends (K.written sink.old) (K.written sink.new) piece.now) }
    ensures part { OnErr result (AppendsProperPrefix (K.written sink.old) (K.written sink.new) piece.now) }
    ensures cause { HasCause (K.faults sink.old) (K.faults sink.new) result }
{
    let mut at = 0;
    'puts: while at < piece.len() {
        at += sink.put(&piece[at..])?;
    }
    Ok(())
}

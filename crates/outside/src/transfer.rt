ghost use Rattle.std.specs.Prelude.{◌≡◌, [], IfOk, IsOk, OnOk, OnErr};
ghost use Rattle.outside.specs.Bytes.{GivesByte, Gains, GainsPrefix};
ghost use Rattle.outside.specs.Counts.{next, HasCause};

use crate::traits::{Failed, Sink, Source};

/// The next byte, or `None` at the end. A failed read loses none.
pub fn read_byte<S: Source>(source: &mut S) -> Result<Option<u8>, Failed>
    ensures byte { IfOk result (GivesByte (S.left source.old) (S.left source.new)) }
    ensures err { OnErr result (S.left source.new ≡ S.left source.old) }
    ensures cause { HasCause (S.faults source.old) (S.faults source.new) result }
    ensures counted { S.calls source.new ≡ next (S.calls source.old) }
{
    let mut byte = [0u8];
    let count = source.read(&mut byte)?;
    if count == 0 {
        return Ok(None);
    }
    Ok(Some(byte[0]))
}

/// Hands over all of the bytes, the rest again after a short write. At a failure the sink has
/// taken some of them, from the first on. Where there are none it asks the sink for nothing.
pub fn write_all<K: Sink>(sink: &mut K, bytes: &[u8]) -> Result<(), Failed>
    ensures ok { OnOk result (Gains (K.taken sink.old) (K.taken sink.new) bytes.now) }
    ensures err { OnErr result (GainsPrefix (K.taken sink.old) (K.taken sink.new) bytes.now) }
    ensures cause { HasCause (K.faults sink.old) (K.faults sink.new) result }
    ensures empty { bytes.now ≡ [] → IsOk result × (sink.new ≡ sink.old) }
{
    let mut rest = bytes;
    // A write takes at least one byte, so this ends.
    'writes: while !rest.is_empty() {
        let count = sink.write(rest)?;
        let (_, left) = rest.split_at(count);
        rest = left;
    }
    Ok(())
}

//! Writing all bytes to a sink.

ghost use Rattle.outside.specs.Causes.{HasCause};
ghost use Rattle.book_opening.specs.Outgoing.{Writes};

use outside::{Failed, Sink};

/// Writes all the bytes. At `Err` some from the front were written.
pub fn write_all<K: Sink>(sink: &mut K, bytes: &[u8]) -> Result<(), Failed>
    ensures cause { HasCause (K.tells sink.old).faults (K.tells sink.new).faults result }
    ensures written { Writes (K.tells sink.old) (K.tells sink.new) bytes.now result }
{
    let mut rest = bytes;
    while !rest.is_empty() {
        match sink.write(rest) {
            Ok(count) => {
                let (_, behind) = rest.split_at(count);
                rest = behind;
            }
            Err(failed) => return Err(failed),
        }
    }
    Ok(())
}

ghost use Rattle.std.specs.Prelude.{◌≡◌, ◌≤◌};
ghost use Rattle.fsim_ports.specs.Sink.{Puts};

use crate::outside::{Failed, Sink};

/// Writes bytes whole, by as many puts as the sink needs.
///
/// Where it fails, the sink's count of faults rose and a prefix was written that isn't the whole.
pub fn put_all<K: Sink>(sink: &mut K, bytes: &[u8]) -> Result<(), Failed>
    ensures count { K.faults sink.old ≤ K.faults sink.new }
    ensures written { Puts bytes.now (K.faults sink.old) (K.faults sink.new) (K.written sink.old)
        (K.written sink.new) result }
{
    let mut done = 0;
    while done < bytes.len() {
        match sink.put(&bytes[done..]) {
            Ok(0) => return Err(Failed),
            Ok(count) => done += count,
            Err(failed) => return Err(failed),
        }
    }
    Ok(())
}

ghost use Rattle.std.specs.Prelude.{◌≡◌, ◌≤◌, ◌++◌};
ghost use Rattle.fsim_ports.specs.Sink.{Puts};
ghost use Rattle.mono_model.specs.Report.{joined};

use crate::line::Line;
use fsim_ports::{Failed, Sink, put_all};

/// The sink failed, and a proper prefix of the text was written.
#[derive(Clone, Copy, Debug, PartialEq, Eq)]
pub struct WriteFault;

impl From<Failed> for WriteFault {
    fn from(_failed: Failed) -> WriteFault {
        WriteFault
    }
}

/// Writes a piece of text whole.
pub fn put_piece<K: Sink>(piece: &[u8], sink: &mut K) -> Result<(), WriteFault>
    ensures count { K.faults sink.old ≤ K.faults sink.new }
    ensures written { Puts piece.now (K.faults sink.old) (K.faults sink.new) (K.written sink.old)
        (K.written sink.new) result }
{
    Ok(put_all(sink, piece)?)
}

/// Writes two pieces, one behind the other.
pub fn put_two<K: Sink>(first: &[u8], second: &[u8], sink: &mut K) -> Result<(), WriteFault>
    ensures count { K.faults sink.old ≤ K.faults sink.new }
    ensures written { Puts (first.now ++ second.now) (K.faults sink.old) (K.faults sink.new)
        (K.written sink.old) (K.written sink.new) result }
{
    put_piece(first, sink)?;
    put_piece(second, sink)
}

/// Writes three pieces, one behind the other.
pub fn put_three<K: Sink>(
    first: &[u8],
    second: &[u8],
    third: &[u8],
    sink: &mut K,
) -> Result<(), WriteFault>
    ensures count { K.faults sink.old ≤ K.faults sink.new }
    ensures written { Puts (first.now ++ second.now ++ third.now) (K.faults sink.old)
        (K.faults sink.new) (K.written sink.old) (K.written sink.new) result }
{
    put_two(first, second, sink)?;
    put_piece(third, sink)
}

/// Writes lines, one after the other.
pub fn put_lines<K: Sink>(lines: &[Line], sink: &mut K) -> Result<(), WriteFault>
    ensures count { K.faults sink.old ≤ K.faults sink.new }
    ensures written { Puts (joined lines.now) (K.faults sink.old) (K.faults sink.new)
        (K.written sink.old) (K.written sink.new) result }
{
    for line in lines {
        put_piece(line.as_slice(), sink)?;
    }
    Ok(())
}

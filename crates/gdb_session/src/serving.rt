ghost use Rattle.std.specs.Prelude.{◌≡◌, ◌≤◌, ℕ};
ghost use Rattle.fsim_ports.specs.Source.{IsPrompt};
ghost use Rattle.mono_model.specs.declared.setup.Setup.{Setup as RunSetup};
ghost use Rattle.gdb_model.specs.Talk.{Talk};
ghost use Rattle.gdb_session.specs.Talk.{HasTalked, IsServed, TalkStandsFor};

use crate::stub::Stub;
use device_bus::Device;
use fsim_ports::{Due, Failed, Heard, Sink, Source};

/// Why a talk has broken off.
#[derive(Clone, Copy, Debug, PartialEq, Eq)]
pub enum ServeFault {
    /// What the debugger writes couldn't be read.
    Read,
    /// What answers it couldn't be written.
    Write,
}

impl From<Failed> for ServeFault {
    ghost use Rattle.gdb_session.specs.declared.serving.ServeFault.TheVariants.{Write};

    ghost from_gives = { λ _ fault. fault ≡ Write };

    fn from(_failed: Failed) -> ServeFault {
        ServeFault::Write
    }
}

/// How many bytes are read at a time.
const PIECE: usize = 4096;

/// Answers a debugger up to the end of what it writes.
pub fn serve<U: Due, S: Source, K: Sink, D: Device>(
    stub: &mut Stub<D>,
    source: &mut S,
    sink: &mut K,
) -> Result<(), ServeFault>
    requires prompt { IsPrompt U.due (S.heard source.old) (K.written sink.old) }
    requires served { IsServed U.due (S.heard source.old) stub.old }
    ensures reads { S.faults source.old ≤ S.faults source.new }
    ensures writes { K.faults sink.old ≤ K.faults sink.new }
    ensures talked { (s : RunSetup) (history : ℕ) (talk : Talk)
        → TalkStandsFor s history talk stub.old
        → HasTalked history s talk (record {
          heard_before = S.heard source.old;
          heard_after = S.heard source.new;
          reads_before = S.faults source.old;
          reads_after = S.faults source.new;
          written_before = K.written sink.old;
          written_after = K.written sink.new;
          writes_before = K.faults sink.old;
          writes_after = K.faults sink.new;
        }) result }
{
    let mut piece = [0; PIECE];
    // No debugger writes so many pieces.
    for _ in 0..u64::MAX {
        match source.read::<U, K>(sink, &mut piece) {
            Heard::Bytes(count) => stub.take_all(&piece[..count], sink)?,
            Heard::End => return Ok(()),
            Heard::Failed => return Err(ServeFault::Read),
        }
    }
    Ok(())
}

//! What a debugger writes: a line of each position that a command comes to, and the machine there.
ghost use Rattle.std.specs.Prelude.{◌≡◌, ◌≤◌};
ghost use Rattle.fsim_ports.specs.Sink.{Puts};
ghost use Rattle.report_text.specs.DebugText.{machine_text, position_text};

use crate::line::Line;
use crate::put::{WriteFault, put_piece};
use crate::report_lines::{end_words, output_line};
use crate::untimed::put_values;
use fsim_ports::Sink;
use machine_csr::Csrs;
use mono_model::End;

/// How a command of a debugger came to its position.
#[derive(Clone, Copy, Debug, PartialEq, Eq)]
pub enum Arrival {
    /// All moves were made.
    Moved,
    /// Fewer moves back: the position is the oldest that can be gone back to.
    Oldest,
    /// The steps led to the address that was asked for.
    Reached,
    /// Fewer steps: the run has ended so.
    Ended(End),
}

/// `4 80000014 moved`, and so on.
#[tactic(auto, unfolding(crate::specs::DebugText::position_text))]
fn position_words(at: u64, pc: u32, arrival: Arrival) -> Line
    ensures text { result ≡ position_text at pc arrival }
{
    let mut line = Line::new();
    line.number(at);
    line.byte(b' ');
    line.hex(8, u64::from(pc));
    line.byte(b' ');
    match arrival {
        Arrival::Moved => line.bytes(b"moved"),
        Arrival::Oldest => line.bytes(b"oldest"),
        Arrival::Reached => line.bytes(b"reached"),
        Arrival::Ended(end) => end_words(&mut line, end),
    }
    line.byte(b'\n');
    line
}

/// Writes the line of a position: how many steps are made, the address of the next instruction, and
/// how a command came there.
///
/// Ok says that the whole line was written. A fault comes only where the sink's count of faults
/// rose, and then a proper prefix of the line was written. It takes no memory.
pub fn position_line<K: Sink>(
    at: u64,
    pc: u32,
    arrival: Arrival,
    sink: &mut K,
) -> Result<(), WriteFault>
    ensures count { K.faults sink.old ≤ K.faults sink.new }
    ensures written { Puts (position_text at pc arrival) (K.faults sink.old) (K.faults sink.new)
        (K.written sink.old) (K.written sink.new) result }
{
    put_piece(position_words(at, pc, arrival).as_slice(), sink)
}

/// Writes how many bytes of output there are, the registers, and the CSRs with mtimecmp, each line
/// as in a report.
///
/// Ok says that the whole text was written. A fault comes only where the sink's count of faults
/// rose, and then a proper prefix of the text was written. It takes no memory.
#[tactic(auto, unfolding(crate::specs::DebugText::machine_text))]
pub fn machine_lines<K: Sink>(
    output: u64,
    regs: &[u32; 32],
    csrs: &Csrs,
    cmp: u64,
    sink: &mut K,
) -> Result<(), WriteFault>
    ensures count { K.faults sink.old ≤ K.faults sink.new }
    ensures written { Puts (machine_text output regs.now csrs.now cmp) (K.faults sink.old)
        (K.faults sink.new) (K.written sink.old) (K.written sink.new) result }
{
    put_piece(output_line(output).as_slice(), sink)?;
    put_values(regs, csrs, cmp, sink)
}

//! The lines of a sweep: one of each machine file, behind its name.
ghost use Rattle.std.specs.Prelude.{◌≡◌, true, ◌≤◌, ◌++◌};
ghost use Rattle.fsim_ports.specs.Sink.{Puts};
ghost use Rattle.mono_model.specs.Report.{line_feed};
ghost use Rattle.report_text.specs.SweepText.{is_sweep_refusal, sweep_costs, sweep_progress};
ghost use Rattle.report_text.specs.SweepText.{sweep_refusal_text, sweep_text};

use crate::fault::{image_line, machine_line};
use crate::line::Line;
use crate::put::{WriteFault, put_piece, put_three};
use crate::report_lines::end_words;
use crate::status::Status;
use fsim_ports::Sink;
use mono_model::Final;

/// How a run ended, and how long it took.
fn progress_words(last: &Final) -> Line
    ensures text { result ≡ sweep_progress last.now }
{
    let mut line = Line::new();
    line.bytes(b": ");
    end_words(&mut line, last.end);
    line.bytes(b" cycles ");
    line.number(last.stats.cycles);
    line.bytes(b" instructions ");
    line.number(last.stats.instructions);
    line
}

/// What cost a run cycles, and the line's end.
fn costs_words(last: &Final) -> Line
    ensures text { result ≡ sweep_costs last.now ++ line_feed }
{
    let mut line = Line::new();
    line.bytes(b" mispredicted ");
    line.number(last.stats.mispredicted);
    line.bytes(b" icache ");
    line.number(last.stats.icache_misses);
    line.bytes(b" dcache ");
    line.number(last.stats.dcache_misses);
    line.byte(b'\n');
    line
}

/// Writes the line of a run on the machine of a name, which may have any length.
///
/// Ok says that the whole line was written. A fault comes only where the sink's count of faults
/// rose, and then a proper prefix of the line was written. It takes no memory.
#[tactic(auto, unfolding(crate::specs::SweepText::sweep_text))]
pub fn sweep_line<K: Sink>(name: &[u8], last: &Final, sink: &mut K) -> Result<(), WriteFault>
    ensures count { K.faults sink.old ≤ K.faults sink.new }
    ensures written { Puts (sweep_text name.now last.now) (K.faults sink.old) (K.faults sink.new)
        (K.written sink.old) (K.written sink.new) result }
{
    let progress = progress_words(last);
    let costs = costs_words(last);
    put_three(name, progress.as_slice(), costs.as_slice(), sink)
}

/// Writes the line of a machine that is refused, by its file or by the image for its RAM, behind
/// its name: what the answer's own line has behind `fast: `.
///
/// Ok says that the whole line was written. A fault comes only where the sink's count of faults
/// rose, and then a proper prefix of the line was written. It takes no memory.
#[tactic(auto, unfolding(crate::specs::SweepText::sweep_refusal_text))]
pub fn sweep_refusal<K: Sink>(name: &[u8], status: &Status, sink: &mut K) -> Result<(), WriteFault>
    requires refusal { is_sweep_refusal status.now ≡ true }
    ensures count { K.faults sink.old ≤ K.faults sink.new }
    ensures written { Puts (sweep_refusal_text name.now status.now) (K.faults sink.old)
        (K.faults sink.new) (K.written sink.old) (K.written sink.new) result }
{
    put_piece(name, sink)?;
    match status {
        Status::Image(fault) => put_piece(image_line(b": image: ", *fault).as_slice(), sink),
        Status::Machine(fault) => machine_line(b": machine: ", fault, sink),
        _ => unreachable!(),
    }
}

ghost use Rattle.std.specs.Prelude.{◌≡◌, ◌≤◌, ◌++◌};
ghost use Rattle.fsim_ports.specs.Sink.{Puts};
ghost use Rattle.mono_model.specs.Report.{report_text};
ghost use Rattle.report_text.specs.Lines.{progress_text, costs_text, second_level_text, place_text};
ghost use Rattle.report_text.specs.Lines.{values_text};
ghost use Rattle.report_text.specs.Rest.{output_rest};

use crate::put::{WriteFault, put_lines, put_piece};
use crate::report_lines::{count_line, misses_line, output_line, pc_line, status_line};
use crate::untimed::{put_output, put_values};
use fsim_ports::Sink;
use mono_model::Final;

/// How the run stands, its cycles, and what retired, trapped and was fetched.
fn put_progress<K: Sink>(f: &Final, sink: &mut K) -> Result<(), WriteFault>
    ensures count { K.faults sink.old ≤ K.faults sink.new }
    ensures written { Puts (progress_text f.now) (K.faults sink.old) (K.faults sink.new)
        (K.written sink.old) (K.written sink.new) result }
{
    let lines = [
        status_line(f.end),
        count_line(b"cycles: ", f.stats.cycles),
        count_line(b"instructions: ", f.stats.instructions),
        count_line(b"exceptions: ", f.stats.exceptions),
        count_line(b"interrupts: ", f.stats.interrupts),
        count_line(b"replays: ", f.stats.replays),
        count_line(b"fetched: ", f.stats.fetched),
        count_line(b"squashed: ", f.stats.squashed),
    ];
    put_lines(&lines, sink)
}

/// What was predicted, and what the first level of the caches missed.
fn put_costs<K: Sink>(f: &Final, sink: &mut K) -> Result<(), WriteFault>
    ensures count { K.faults sink.old ≤ K.faults sink.new }
    ensures written { Puts (costs_text f.now) (K.faults sink.old) (K.faults sink.new)
        (K.written sink.old) (K.written sink.new) result }
{
    let lines = [
        count_line(b"branches: ", f.stats.branches),
        count_line(b"mispredicted: ", f.stats.mispredicted),
        misses_line(b"icache: ", f.stats.icache_accesses, f.stats.icache_misses),
        misses_line(b"dcache: ", f.stats.dcache_accesses, f.stats.dcache_misses),
    ];
    put_lines(&lines, sink)
}

/// What the second level missed, and the write-backs: under a machine file of version 2 alone.
fn put_second_level<K: Sink>(f: &Final, sink: &mut K) -> Result<(), WriteFault>
    ensures count { K.faults sink.old ≤ K.faults sink.new }
    ensures written { Puts (second_level_text f.now) (K.faults sink.old) (K.faults sink.new)
        (K.written sink.old) (K.written sink.new) result }
{
    if f.stats.version != 2 {
        return put_piece(b"", sink);
    }
    let lines = [
        misses_line(b"l2: ", f.stats.l2_accesses, f.stats.l2_misses),
        count_line(b"writebacks: ", f.stats.writebacks),
    ];
    put_lines(&lines, sink)
}

/// The size of the output and the next address.
fn put_place<K: Sink>(f: &Final, sink: &mut K) -> Result<(), WriteFault>
    ensures count { K.faults sink.old ≤ K.faults sink.new }
    ensures written { Puts (place_text f.now) (K.faults sink.old) (K.faults sink.new)
        (K.written sink.old) (K.written sink.new) result }
{
    let lines = [output_line(f.stats.output), pc_line(f.pc)];
    put_lines(&lines, sink)
}

/// The report from the size of the output on.
fn put_state<K: Sink>(f: &Final, sink: &mut K) -> Result<(), WriteFault>
    ensures count { K.faults sink.old ≤ K.faults sink.new }
    ensures written { Puts (place_text f.now ++ values_text f.now.regs f.now.csrs f.now.cmp)
        (K.faults sink.old) (K.faults sink.new) (K.written sink.old) (K.written sink.new) result }
{
    put_place(f, sink)?;
    put_values(&f.regs, &f.csrs, f.cmp, sink)
}

/// The report from the second level on.
fn put_levels<K: Sink>(f: &Final, sink: &mut K) -> Result<(), WriteFault>
    ensures count { K.faults sink.old ≤ K.faults sink.new }
    ensures written { Puts (second_level_text f.now
        ++ (place_text f.now ++ values_text f.now.regs f.now.csrs f.now.cmp)) (K.faults sink.old)
        (K.faults sink.new) (K.written sink.old) (K.written sink.new) result }
{
    put_second_level(f, sink)?;
    put_state(f, sink)
}

/// The report from the branches on.
fn put_rest<K: Sink>(f: &Final, sink: &mut K) -> Result<(), WriteFault>
    ensures count { K.faults sink.old ≤ K.faults sink.new }
    ensures written { Puts (costs_text f.now
        ++ (second_level_text f.now ++ (place_text f.now
        ++ values_text f.now.regs f.now.csrs f.now.cmp))) (K.faults sink.old) (K.faults sink.new)
        (K.written sink.old) (K.written sink.new) result }
{
    put_costs(f, sink)?;
    put_levels(f, sink)
}

/// The report without the output.
fn put_report<K: Sink>(f: &Final, sink: &mut K) -> Result<(), WriteFault>
    ensures count { K.faults sink.old ≤ K.faults sink.new }
    ensures written { Puts (report_text f.now) (K.faults sink.old) (K.faults sink.new)
        (K.written sink.old) (K.written sink.new) result }
{
    put_progress(f, sink)?;
    put_rest(f, sink)
}

/// Writes the output from so many bytes on, and the report of a run under a machine file, each line
/// by itself.
///
/// Ok says that the whole text was written. A fault comes only where the sink's count of faults
/// rose, and then a proper prefix of the text was written. It takes no memory.
pub fn report<K: Sink>(f: &Final, output: &[u8], put: usize, sink: &mut K) -> Result<(), WriteFault>
    ensures count { K.faults sink.old ≤ K.faults sink.new }
    ensures written { Puts (output_rest put output.now ++ report_text f.now) (K.faults sink.old)
        (K.faults sink.new) (K.written sink.old) (K.written sink.new) result }
{
    put_output(output, put, sink)?;
    put_report(f, sink)
}

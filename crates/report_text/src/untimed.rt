ghost use Rattle.std.specs.Prelude.{◌≡◌, ◌≤◌, ◌++◌};
ghost use Rattle.fsim_ports.specs.Sink.{Puts};
ghost use Rattle.mono_model.specs.Report.{ends_open, func_report_text};
ghost use Rattle.report_text.specs.Lines.{counts_text, registers_text, csrs_text, values_text};
ghost use Rattle.report_text.specs.Rest.{output_rest};

use crate::put::{WriteFault, put_lines, put_piece, put_two};
use crate::report_lines::{
    count_line, interrupt_csrs_line, output_line, pc_line, register_line, status_line,
    trap_csrs_line,
};
use fsim_ports::Sink;
use machine_csr::Csrs;
use mono_model::Final;

/// Whether the output isn't empty and doesn't end in a line feed.
pub fn ends_open(output: &[u8]) -> bool
    ensures open { result ≡ ends_open output.now }
{
    !output.is_empty() && output[output.len() - 1] != b'\n'
}

/// The output from so many bytes on, with a line feed after it where the whole isn't empty and
/// doesn't end in one.
pub fn put_output<K: Sink>(output: &[u8], put: usize, sink: &mut K) -> Result<(), WriteFault>
    ensures count { K.faults sink.old ≤ K.faults sink.new }
    ensures written { Puts (output_rest put output.now) (K.faults sink.old) (K.faults sink.new)
        (K.written sink.old) (K.written sink.new) result }
{
    let rest = &output[put.min(output.len())..];
    if ends_open(output) {
        put_two(rest, b"\n", sink)
    } else {
        put_piece(rest, sink)
    }
}

/// How the run stands, what retired and trapped, the size of the output and the next address.
fn put_counts<K: Sink>(f: &Final, sink: &mut K) -> Result<(), WriteFault>
    ensures count { K.faults sink.old ≤ K.faults sink.new }
    ensures written { Puts (counts_text f.now) (K.faults sink.old) (K.faults sink.new)
        (K.written sink.old) (K.written sink.new) result }
{
    let lines = [
        status_line(f.end),
        count_line(b"instructions: ", f.stats.instructions),
        count_line(b"exceptions: ", f.stats.exceptions),
        count_line(b"interrupts: ", f.stats.interrupts),
        output_line(f.stats.output),
        pc_line(f.pc),
    ];
    put_lines(&lines, sink)
}

/// The registers.
fn put_registers<K: Sink>(regs: &[u32; 32], sink: &mut K) -> Result<(), WriteFault>
    ensures count { K.faults sink.old ≤ K.faults sink.new }
    ensures written { Puts (registers_text regs.now) (K.faults sink.old) (K.faults sink.new)
        (K.written sink.old) (K.written sink.new) result }
{
    let lines = [
        register_line(regs, 0),
        register_line(regs, 4),
        register_line(regs, 8),
        register_line(regs, 12),
        register_line(regs, 16),
        register_line(regs, 20),
        register_line(regs, 24),
        register_line(regs, 28),
    ];
    put_lines(&lines, sink)
}

/// The CSRs.
fn put_csrs<K: Sink>(csrs: &Csrs, cmp: u64, sink: &mut K) -> Result<(), WriteFault>
    ensures count { K.faults sink.old ≤ K.faults sink.new }
    ensures written { Puts (csrs_text csrs.now cmp) (K.faults sink.old) (K.faults sink.new)
        (K.written sink.old) (K.written sink.new) result }
{
    let lines = [interrupt_csrs_line(csrs), trap_csrs_line(csrs, cmp)];
    put_lines(&lines, sink)
}

/// Registers and CSRs.
pub fn put_values<K: Sink>(
    regs: &[u32; 32],
    csrs: &Csrs,
    cmp: u64,
    sink: &mut K,
) -> Result<(), WriteFault>
    ensures count { K.faults sink.old ≤ K.faults sink.new }
    ensures written { Puts (values_text regs.now csrs.now cmp) (K.faults sink.old)
        (K.faults sink.new) (K.written sink.old) (K.written sink.new) result }
{
    put_registers(regs, sink)?;
    put_csrs(csrs, cmp, sink)
}

/// The report without the output.
fn put_report<K: Sink>(f: &Final, sink: &mut K) -> Result<(), WriteFault>
    ensures count { K.faults sink.old ≤ K.faults sink.new }
    ensures written { Puts (func_report_text f.now) (K.faults sink.old) (K.faults sink.new)
        (K.written sink.old) (K.written sink.new) result }
{
    put_counts(f, sink)?;
    put_values(&f.regs, &f.csrs, f.cmp, sink)
}

/// Writes the output from so many bytes on, and the report of a run without a machine file, each
/// line by itself.
///
/// Ok says that the whole text was written. A fault comes only where the sink's count of faults
/// rose, and then a proper prefix of the text was written. It takes no memory.
pub fn func_report<K: Sink>(
    f: &Final,
    output: &[u8],
    put: usize,
    sink: &mut K,
) -> Result<(), WriteFault>
    ensures count { K.faults sink.old ≤ K.faults sink.new }
    ensures written { Puts (output_rest put output.now ++ func_report_text f.now)
        (K.faults sink.old) (K.faults sink.new) (K.written sink.old) (K.written sink.new) result }
{
    put_output(output, put, sink)?;
    put_report(f, sink)
}

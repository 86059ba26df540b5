//! The lines of a stack: how many cycles were spent on each cause, and how they went.
ghost use Rattle.std.specs.Prelude.{◌≡◌, ◌≤◌, ◌<◌, ◌+◌, ◌++◌, codes, decimal, length};
ghost use Rattle.fsim_ports.specs.Sink.{Puts};
ghost use Rattle.mono_model.specs.Report.{count_line, joined};
ghost use Rattle.insight_model.specs.Cause.{cause_name};
ghost use Rattle.insight_model.specs.Fetch.{fetch_end_name};
ghost use Rattle.insight_model.specs.Stack.{commit_width};
ghost use Rattle.report_text.specs.StackText.{fetch_lines_of, head_lines_of, left_lines_of};
ghost use Rattle.report_text.specs.StackText.{occupied_lines_of, stack_lines_of};

use crate::line::Line;
use crate::put::{WriteFault, put_lines, put_piece};
use fsim_ports::Sink;
use insight_model::{CycleCause, FetchEnd, Pipeline};
use mono_model::Params;

/// The causes, in the order in which they are written.
const CAUSES: [CycleCause; 19] = [
    CycleCause::Commit,
    CycleCause::Alu,
    CycleCause::Mul,
    CycleCause::Div,
    CycleCause::Load,
    CycleCause::Store,
    CycleCause::Device,
    CycleCause::Serial,
    CycleCause::Operand,
    CycleCause::Dcache,
    CycleCause::Icache,
    CycleCause::Window,
    CycleCause::Stations,
    CycleCause::Mispredict,
    CycleCause::Trap,
    CycleCause::Interrupt,
    CycleCause::Replay,
    CycleCause::Fence,
    CycleCause::Start,
];

/// Why fetch ended, in the order in which that is written.
const FETCH_ENDS: [FetchEnd; 6] = [
    FetchEnd::Width,
    FetchEnd::Taken,
    FetchEnd::Window,
    FetchEnd::Stations,
    FetchEnd::Icache,
    FetchEnd::Ended,
];

/// What the cycles of a run were spent on.
#[derive(Clone, Copy, Debug, PartialEq, Eq)]
pub struct StackCounts {
    /// The cycles of each cause, in the order in which causes are written.
    pub heads: [u64; 19],
    /// The cycles by why fetch ended in them.
    pub ends: [u64; 6],
    /// The cycles by how many instructions left.
    pub left: [u64; 9],
    /// Over all cycles, how many instructions were in the window.
    pub occupied: u64,
    /// Over all cycles, how many of those waited.
    pub waiting: u64,
}

/// The name of a cause.
pub fn cause_name(cause: CycleCause) -> &'static [u8]
    ensures name { result.now ≡ cause_name cause }
    ensures short { length result.now ≤ 10 }
{
    match cause {
        CycleCause::Commit => b"commit",
        CycleCause::Alu => b"alu",
        CycleCause::Mul => b"mul",
        CycleCause::Div => b"div",
        CycleCause::Load => b"load",
        CycleCause::Store => b"store",
        CycleCause::Device => b"device",
        CycleCause::Serial => b"serial",
        CycleCause::Operand => b"operand",
        CycleCause::Dcache => b"dcache",
        CycleCause::Icache => b"icache",
        CycleCause::Window => b"window",
        CycleCause::Stations => b"stations",
        CycleCause::Mispredict => b"mispredict",
        CycleCause::Trap => b"trap",
        CycleCause::Interrupt => b"interrupt",
        CycleCause::Replay => b"replay",
        CycleCause::Fence => b"fence",
        CycleCause::Start => b"start",
    }
}

/// The name of why fetch ended.
fn fetch_end_name(end: FetchEnd) -> &'static [u8]
    ensures name { result.now ≡ fetch_end_name end }
    ensures short { length result.now ≤ 8 }
{
    match end {
        FetchEnd::Width => b"width",
        FetchEnd::Taken => b"taken",
        FetchEnd::Window => b"window",
        FetchEnd::Stations => b"stations",
        FetchEnd::Icache => b"icache",
        FetchEnd::Ended => b"ended",
    }
}

/// A name in two parts, and a number.
fn named_line(group: &[u8], name: &[u8], number: u64) -> Line
    requires room { length group.now + length name.now ≤ 20 }
    ensures text { result ≡ count_line (group.now ++ name.now ++ codes ": ") number }
{
    let mut line = Line::new();
    line.bytes(group);
    line.bytes(name);
    line.bytes(b": ");
    line.number(number);
    line.byte(b'\n');
    line
}

/// In how many cycles so many instructions left.
fn left_line(left: usize, number: u64) -> Line
    ensures text { result ≡ count_line (codes "left." ++ decimal left ++ codes ": ") number }
{
    let mut line = Line::new();
    line.bytes(b"left.");
    line.number(left as u64);
    line.bytes(b": ");
    line.number(number);
    line.byte(b'\n');
    line
}

/// How many instructions may leave in a cycle.
fn commit_width(pipeline: Pipeline, params: &Params) -> u32
    ensures width { result ≡ commit_width pipeline params.now }
{
    match pipeline {
        Pipeline::Window => params.core_commit,
        Pipeline::Inorder => 1,
    }
}

/// Writes how many cycles were spent on each cause.
fn put_heads<K: Sink>(counts: &StackCounts, sink: &mut K) -> Result<(), WriteFault>
    ensures count { K.faults sink.old ≤ K.faults sink.new }
    ensures written { Puts (joined (head_lines_of counts.now)) (K.faults sink.old)
        (K.faults sink.new) (K.written sink.old) (K.written sink.new) result }
{
    for (cause, number) in CAUSES.iter().zip(&counts.heads) {
        put_piece(
            named_line(b"head.", cause_name(*cause), *number).as_slice(),
            sink,
        )?;
    }
    Ok(())
}

/// Writes how fetch ended in the cycles.
fn put_ends<K: Sink>(counts: &StackCounts, sink: &mut K) -> Result<(), WriteFault>
    ensures count { K.faults sink.old ≤ K.faults sink.new }
    ensures written { Puts (joined (fetch_lines_of counts.now)) (K.faults sink.old)
        (K.faults sink.new) (K.written sink.old) (K.written sink.new) result }
{
    for (end, number) in FETCH_ENDS.iter().zip(&counts.ends) {
        put_piece(
            named_line(b"fetch.", fetch_end_name(*end), *number).as_slice(),
            sink,
        )?;
    }
    Ok(())
}

/// Writes how many instructions left, up to so many in a cycle.
fn put_left<K: Sink>(width: u32, counts: &StackCounts, sink: &mut K) -> Result<(), WriteFault>
    requires width { width < 9 }
    ensures count { K.faults sink.old ≤ K.faults sink.new }
    ensures written { Puts (joined (left_lines_of width counts.now)) (K.faults sink.old)
        (K.faults sink.new) (K.written sink.old) (K.written sink.new) result }
{
    let counted = &counts.left[..=width as usize];
    for (left, number) in counted.iter().enumerate() {
        put_piece(left_line(left, *number).as_slice(), sink)?;
    }
    Ok(())
}

/// Writes how full the window was.
fn put_occupied<K: Sink>(
    pipeline: Pipeline,
    counts: &StackCounts,
    sink: &mut K,
) -> Result<(), WriteFault>
    ensures count { K.faults sink.old ≤ K.faults sink.new }
    ensures written { Puts (joined (occupied_lines_of pipeline counts.now)) (K.faults sink.old)
        (K.faults sink.new) (K.written sink.old) (K.written sink.new) result }
{
    let occupied = named_line(b"occupied", b"", counts.occupied);
    match pipeline {
        Pipeline::Window => {
            let waiting = named_line(b"waiting", b"", counts.waiting);
            put_lines(&[occupied, waiting], sink)
        }
        Pipeline::Inorder => put_lines(&[occupied], sink),
    }
}

/// Writes the lines of a stack.
///
/// Ok says that the whole text was written. A fault comes only where the sink's count of faults
/// rose, and then a proper prefix of the text was written. It takes no memory.
pub fn stack_lines<K: Sink>(
    pipeline: Pipeline,
    params: &Params,
    counts: &StackCounts,
    sink: &mut K,
) -> Result<(), WriteFault>
    requires width { params.now.core_commit < 9 }
    ensures count { K.faults sink.old ≤ K.faults sink.new }
    ensures written { Puts (joined (stack_lines_of pipeline params.now counts.now))
        (K.faults sink.old) (K.faults sink.new) (K.written sink.old) (K.written sink.new) result }
{
    put_heads(counts, sink)?;
    put_ends(counts, sink)?;
    put_left(commit_width(pipeline, params), counts, sink)?;
    put_occupied(pipeline, counts, sink)
}

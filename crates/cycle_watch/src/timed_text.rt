//! The text of a pipeline trace while it is written: lines, each in its cycle.
ghost use Rattle.std.specs.Prelude.{◌≡◌, ◌≤◌, ◌∷◌, [], option_to_list, IfOk};
ghost use Rattle.fsim_ports.specs.Sink.{Puts};
ghost use Rattle.mono_model.specs.Report.{joined};
ghost use Rattle.insight_model.specs.Trace.{head_lines, time_lines};
ghost use Rattle.cycle_watch.specs.Writing.{IsReady, PutsText, Tells, stand};

use crate::trace_lines::{cycles_line, first_cycle_line, version_line};
use fsim_base::NoMemory;
use fsim_ports::Sink;
use report_text::{Line, TextBuffer, WriteFault};
use std::alloc::Global;

/// The text of a trace, as far as it isn't written yet, and the cycle of its last line.
#[derive(Drop)]
pub(crate) struct TimedText {
    buffer: TextBuffer,
    at: u64,
}

impl TimedText {
    /// A text without a line. It takes its memory here.
    pub(crate) fn new(alloc: Global) -> Result<TimedText, NoMemory>
        ensures empty { IfOk result (λ text. text.buffer.bytes.items ≡ []) }
        ensures ready { IfOk result (IsReady 0) }
    {
        Ok(TimedText {
            buffer: TextBuffer::new(alloc)?,
            at: 0,
        })
    }

    /// Writes a line, whatever its cycle.
    fn put<K: Sink>(&mut self, line: &Line, sink: &mut K) -> Result<(), WriteFault>
        requires ready { IsReady self.old.at self.old }
        ensures ready { IsReady self.old.at self.new }
        ensures at { self.new.at ≡ self.old.at }
        ensures put { PutsText line.now (stand self.old (K.faults sink.old) (K.written sink.old))
            (stand self.new (K.faults sink.new) (K.written sink.new)) result }
    {
        self.buffer.put(line.as_slice(), sink)
    }

    /// Writes the first lines of a trace, which begins with this cycle.
    pub(crate) fn begin<K: Sink>(&mut self, cycle: u64, sink: &mut K) -> Result<(), WriteFault>
        requires ready { IsReady 0 self.old }
        ensures ready { IsReady cycle self.new }
        ensures at { self.new.at ≡ cycle }
        ensures put { PutsText (joined (head_lines cycle))
            (stand self.old (K.faults sink.old) (K.written sink.old))
            (stand self.new (K.faults sink.new) (K.written sink.new)) result }
    {
        self.at = cycle;
        self.put(&version_line(), sink)?;
        self.put(&first_cycle_line(cycle), sink)
    }

    /// Writes the time, where it isn't that of the line before.
    pub(crate) fn tell_time<K: Sink>(&mut self, cycle: u64, sink: &mut K) -> Result<(), WriteFault>
        requires ready { IsReady cycle self.old }
        ensures ready { IsReady cycle self.new }
        ensures at { self.new.at ≡ cycle }
        ensures put { PutsText (joined (time_lines self.old.at cycle))
            (stand self.old (K.faults sink.old) (K.written sink.old))
            (stand self.new (K.faults sink.new) (K.written sink.new)) result }
    {
        if cycle == self.at {
            return Ok(());
        }
        let line = cycles_line(cycle - self.at);
        self.at = cycle;
        self.put(&line, sink)
    }

    /// Writes a line of a cycle, and before it the time, where it isn't that of the line before.
    pub(crate) fn tell<K: Sink>(
        &mut self,
        cycle: u64,
        line: &Line,
        sink: &mut K,
    ) -> Result<(), WriteFault>
        requires ready { IsReady cycle self.old }
        ensures ready { IsReady cycle self.new }
        ensures told { Tells cycle (line.now ∷ [])
            (stand self.old (K.faults sink.old) (K.written sink.old))
            (stand self.new (K.faults sink.new) (K.written sink.new)) result }
    {
        self.tell_time(cycle, sink)?;
        self.put(line, sink)
    }

    /// Writes a line of a cycle, if there is one.
    pub(crate) fn tell_some<K: Sink>(
        &mut self,
        cycle: u64,
        line: Option<Line>,
        sink: &mut K,
    ) -> Result<(), WriteFault>
        requires ready { IsReady cycle self.old }
        ensures ready { IsReady cycle self.new }
        ensures told { Tells cycle (option_to_list line)
            (stand self.old (K.faults sink.old) (K.written sink.old))
            (stand self.new (K.faults sink.new) (K.written sink.new)) result }
    {
        match line {
            Some(line) => self.tell(cycle, &line, sink),
            None => Ok(()),
        }
    }

    /// Writes all that is left of the text.
    pub(crate) fn flush<K: Sink>(&mut self, sink: &mut K) -> Result<(), WriteFault>
        ensures count { K.faults sink.old ≤ K.faults sink.new }
        ensures written { Puts self.old.buffer.bytes.items (K.faults sink.old) (K.faults sink.new)
            (K.written sink.old) (K.written sink.new) result }
    {
        self.buffer.flush(sink)
    }
}

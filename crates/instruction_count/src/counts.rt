ghost use Rattle.std.specs.Prelude.{◌≡◌, ◌≤◌, ◌<◌, ◌+◌, ◌^◌, ◌++◌, ◌∷◌, [], List, length, true};
ghost use Rattle.std.specs.Prelude.{map, IfOk};
ghost use Rattle.device_bus.specs.Bus.{device_order};
ghost use Rattle.elf_image.specs.declared.image.Image.{Image};
ghost use Rattle.fsim_ports.specs.Sink.{Puts};
ghost use Rattle.mono_model.specs.Setup.{is_setup};
ghost use Rattle.mono_model.specs.Alone.{alone_start};
ghost use Rattle.mono_model.specs.Report.{joined};
ghost use Rattle.insight_model.specs.Count.{Executed as ModelExecuted, count_of_run, count_rows};
ghost use Rattle.insight_model.specs.Count.{executed_from};
ghost use Rattle.instruction_count.specs.Counted.{AreCountsOf, Tells, row_text, run_events};

use crate::row::CountRow;
use device_bus::Device;
use fsim_base::NoMemory;
use fsim_ports::Sink;
use func_model::{Executed, ToldRun};
use mono_model::Setup;
use report_text::{WriteFault, count_header, number_row};
use std::alloc::Global;
use text_rows::TextRows;

/// How often the instructions of each row were executed.
#[derive(Debug, Drop)]
pub struct InstructionCounts {
    rows: TextRows,
    /// What was counted in each row.
    counts: Vec<CountRow>,
}

impl InstructionCounts {
    /// Nothing was counted yet. All memory is taken here.
    fn new(alloc: Global, setup: &Setup) -> Result<InstructionCounts, NoMemory>
        requires sound { is_setup setup.now ≡ true }
        ensures nothing { IfOk result (AreCountsOf setup.now.image []) }
    {
        let rows = TextRows::new(alloc, setup)?;
        let Ok(counts) = vec![in alloc; CountRow::new(); rows.len() + 1] else {
            return Err(NoMemory);
        };
        Ok(InstructionCounts { rows, counts })
    }

    /// The counts of a run alone to its end. All memory is taken before its first step.
    pub fn of_run<D: Device>(
        alloc: Global,
        setup: &Setup,
        devices: Vec<D>,
    ) -> Result<InstructionCounts, NoMemory>
        requires sound { is_setup setup.now ≡ true }
        requires order { map D.kind devices.items ≡ device_order }
        ensures counts { IfOk result (AreCountsOf setup.now.image
            (executed_from setup.now setup.now.cycles (alone_start setup.now))) }
    {
        let mut counts = InstructionCounts::new(alloc, setup)?;
        let mut run = ToldRun::new(alloc, setup, devices)?;
        for _ in 0..setup.cycles {
            match run.step() {
                Some(executed) => counts.note(&executed),
                None => return Ok(counts),
            }
        }
        Ok(counts)
    }

    /// Counts an instruction.
    fn note(&mut self, executed: &Executed)
        requires each { length self.old.counts.items ≡ length self.old.rows + 1 }
        ensures noted { (image : Image) (run : List ModelExecuted) (x : ModelExecuted)
            → length run < 2 ^ 63 → Tells executed.now x → AreCountsOf image run self.old
            → AreCountsOf image (run ++ x ∷ []) self.new }
    {
        let row = self.rows.row(executed.addr);
        self.counts[row].note(executed);
    }

    /// Writes the rows in which something was counted, by address.
    ///
    /// Ok says that the whole text was written. A fault comes only where the sink's count of faults
    /// rose, and then a proper prefix of the text was written. It takes no memory.
    pub fn write<K: Sink>(&self, sink: &mut K) -> Result<(), WriteFault>
        ensures count { K.faults sink.old ≤ K.faults sink.new }
        ensures written { (image : Image) (run : List ModelExecuted)
            → AreCountsOf image run self.now → Puts (count_of_run image run)
            (K.faults sink.old) (K.faults sink.new) (K.written sink.old) (K.written sink.new)
            result }
    {
        count_header(sink)?;
        self.write_rows(sink)
    }

    /// The same without the names of the columns.
    fn write_rows<K: Sink>(&self, sink: &mut K) -> Result<(), WriteFault>
        ensures count { K.faults sink.old ≤ K.faults sink.new }
        ensures written { (image : Image) (run : List ModelExecuted)
            → AreCountsOf image run self.now
            → Puts (joined (count_rows image run (run_events image run)))
            (K.faults sink.old) (K.faults sink.new) (K.written sink.old) (K.written sink.new)
            result }
    {
        for (place, row) in self.counts.iter().enumerate() {
            write_row(self.rows.address(place), row, sink)?;
        }
        Ok(())
    }
}

/// Writes the row of an address, if something was counted in it.
#[tactic(auto, using(report_text::proofs::RowLines::grown_nothing))]
fn write_row<K: Sink>(addr: Option<u32>, row: &CountRow, sink: &mut K) -> Result<(), WriteFault>
    ensures count { K.faults sink.old ≤ K.faults sink.new }
    ensures written { Puts (row_text addr row.now) (K.faults sink.old) (K.faults sink.new)
        (K.written sink.old) (K.written sink.new) result }
{
    if row.is_some() {
        let numbers = [row.retired, row.trapped, row.taken];
        number_row(addr, row.word, &numbers, sink)
    } else {
        Ok(())
    }
}

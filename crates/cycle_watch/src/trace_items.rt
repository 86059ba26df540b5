//! What a trace tells of one instruction in a cycle.
ghost use Rattle.std.specs.Prelude.{◌≡◌, ◌≤◌, ◌∷◌, ◌++◌, ℕ, [], codes, length};
ghost use Rattle.std.specs.Option.{option_map_or};
ghost use Rattle.insight_model.specs.Facts.{Facts as FactsSeen};
ghost use Rattle.insight_model.specs.Cause.{cause_name};
ghost use Rattle.insight_model.specs.Sight.{outcome_shown};
ghost use Rattle.insight_model.specs.Trace.{arrow_from, introduction, is_place, kept_text};
ghost use Rattle.insight_model.specs.Trace.{last_line, lines_if, note_line};
ghost use Rattle.insight_model.specs.Trace.{second_arrow, trap_note, wrong_notes};
ghost use Rattle.cycle_watch.specs.Cells.{cell_in};
ghost use Rattle.cycle_watch.specs.Shown.{shown_in};
ghost use Rattle.cycle_watch.specs.Traced.{mark_in};
ghost use Rattle.cycle_watch.specs.Writing.{IsReady, Tells, stand};

use crate::last::load_made;
use crate::shown::{Shown, has_begun};
use crate::timed_text::TimedText;
use crate::trace_lines::{cell_line, instruction_line, label_line, last_line, note_line};
use crate::trace_mark::TraceMark;
use crate::trace_notes::{
    arrow_line, begun_line, miss_line, new_cell_line, paid_line, second_arrow_line, trap_line,
    wrong_line,
};
use fsim_ports::Sink;
use insight_model::{CycleCause, Pipeline};
use report_text::{WriteFault, cause_name};

/// An instruction is introduced: by its number and its place in the run, by address, word and text,
/// and by its cell.
pub(crate) fn tell_introduction<K: Sink>(
    text: &mut TimedText,
    cycle: u64,
    place: u64,
    mark: &TraceMark,
    shown: &Shown,
    sink: &mut K,
) -> Result<(), WriteFault>
    requires ready { IsReady cycle text.old }
    ensures ready { IsReady cycle text.new }
    ensures told { Tells cycle
        (introduction mark.now.number place (cell_in mark.now.cell) (shown_in shown.now))
        (stand text.old (K.faults sink.old) (K.written sink.old))
        (stand text.new (K.faults sink.new) (K.written sink.new)) result }
{
    text.tell(cycle, &instruction_line(mark.number, place), sink)?;
    text.tell(cycle, &label_line(mark.number, shown), sink)?;
    text.tell(cycle, &cell_line(mark.number, mark.cell), sink)
}

/// One left, and may have trapped.
pub(crate) fn tell_left_one<K: Sink>(
    text: &mut TimedText,
    cycle: u64,
    place: u64,
    number: u64,
    shown: &Shown,
    trapped: bool,
    sink: &mut K,
) -> Result<(), WriteFault>
    requires ready { IsReady cycle text.old }
    ensures ready { IsReady cycle text.new }
    ensures told { Tells cycle
        (lines_if trapped (option_map_or (trap_note number) (outcome_shown (shown_in shown.now)) [])
        ++ last_line number place (codes "0") ∷ [])
        (stand text.old (K.faults sink.old) (K.written sink.old))
        (stand text.new (K.faults sink.new) (K.written sink.new)) result }
{
    text.tell_some(cycle, trap_line(number, shown, trapped), sink)?;
    text.tell(cycle, &last_line(number, place, false), sink)
}

/// What flushed, in a word; none where nothing did.
pub(crate) fn flush_word(cause: Option<CycleCause>) -> &'static [u8]
    ensures name { result.now ≡ option_map_or cause_name cause [] }
    ensures short { length result.now ≤ 60 }
{
    match cause {
        Some(cause) => cause_name(cause),
        None => b"",
    }
}

/// One was squashed, and maybe mispredicted.
pub(crate) fn tell_squashed_one<K: Sink>(
    text: &mut TimedText,
    cycle: u64,
    place: u64,
    number: u64,
    shown: &Shown,
    is_wrong: bool,
    flush: Option<CycleCause>,
    sink: &mut K,
) -> Result<(), WriteFault>
    requires ready { IsReady cycle text.old }
    ensures ready { IsReady cycle text.new }
    ensures told { Tells cycle
        (wrong_notes is_wrong number (shown_in shown.now)
        ++ note_line number (codes "squashed: " ++ option_map_or cause_name flush [])
        ∷ last_line number place (codes "1") ∷ [])
        (stand text.old (K.faults sink.old) (K.written sink.old))
        (stand text.new (K.faults sink.new) (K.written sink.new)) result }
{
    text.tell_some(cycle, wrong_line(number, shown, is_wrong), sink)?;
    text.tell(
        cycle,
        &note_line(number, b"squashed: ", flush_word(flush)),
        sink,
    )?;
    text.tell(cycle, &last_line(number, place, true), sink)
}

/// An instruction that stayed, before and after a cycle, with what is told of it then.
#[derive(Clone, Copy, Debug)]
pub(crate) struct Stayed {
    pub before: Shown,
    pub after: Shown,
    pub was: TraceMark,
    pub is: TraceMark,
    /// Whether it was found to be mispredicted.
    pub is_wrong: bool,
}

/// One that stayed: its access where it began, its miss, that it was mispredicted, and its cell if
/// that is new.
pub(crate) fn tell_stayed_one<K: Sink>(
    text: &mut TimedText,
    cycle: u64,
    pipeline: Pipeline,
    stayed: &Stayed,
    sink: &mut K,
) -> Result<(), WriteFault>
    requires ready { IsReady cycle text.old }
    ensures ready { IsReady cycle text.new }
    ensures told { (f : FactsSeen) (place : ℕ)
        → stayed.now.is_wrong ≡ is_place place f.mispredicted
        → Tells cycle (kept_text pipeline f place
        (record { before = shown_in stayed.now.before; after = shown_in stayed.now.after })
        (mark_in stayed.now.was) (mark_in stayed.now.is))
        (stand text.old (K.faults sink.old) (K.written sink.old))
        (stand text.new (K.faults sink.new) (K.written sink.new)) result }
{
    let number = stayed.was.number;
    let (before, after) = (&stayed.before, &stayed.after);
    let begun = has_begun(before.progress, after.progress);
    text.tell_some(cycle, begun_line(number, begun, after.access()), sink)?;
    let made = load_made(pipeline, before.progress, after).is_some();
    text.tell_some(cycle, miss_line(number, made, stayed.is.miss), sink)?;
    text.tell_some(cycle, wrong_line(number, before, stayed.is_wrong), sink)?;
    text.tell_some(
        cycle,
        new_cell_line(number, stayed.was.cell, stayed.is.cell),
        sink,
    )
}

/// One was appended: introduced, with the note of a miss that was waited for, and with arrows from
/// those that it waits for.
pub(crate) fn tell_appended_one<K: Sink>(
    text: &mut TimedText,
    cycle: u64,
    place: u64,
    mark: &TraceMark,
    shown: &Shown,
    paid: bool,
    producers: (Option<u64>, Option<u64>),
    sink: &mut K,
) -> Result<(), WriteFault>
    requires ready { IsReady cycle text.old }
    ensures ready { IsReady cycle text.new }
    ensures told { Tells cycle
        (introduction mark.now.number place (cell_in mark.now.cell) (shown_in shown.now)
        ++ lines_if paid (note_line mark.now.number (codes "icache miss") ∷ [])
        ++ arrow_from mark.now.number producers.0
        ++ second_arrow mark.now.number producers.0 producers.1)
        (stand text.old (K.faults sink.old) (K.written sink.old))
        (stand text.new (K.faults sink.new) (K.written sink.new)) result }
{
    let (first, second) = producers;
    tell_introduction(text, cycle, place, mark, shown, sink)?;
    text.tell_some(cycle, paid_line(mark.number, paid), sink)?;
    text.tell_some(cycle, arrow_line(mark.number, first), sink)?;
    text.tell_some(cycle, second_arrow_line(mark.number, first, second), sink)
}

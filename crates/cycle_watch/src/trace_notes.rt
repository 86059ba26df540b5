//! The lines of a trace that are written in some cases only.
ghost use Rattle.std.specs.Prelude.{◌≡◌, ◌∷◌, ◌++◌, ◌&&◌, [], codes, decimal, nat_lt, not};
ghost use Rattle.std.specs.Prelude.{option_to_list};
ghost use Rattle.std.specs.Option.{option_map_or};
ghost use Rattle.insight_model.specs.Cell.{is_cell};
ghost use Rattle.insight_model.specs.Sight.{outcome_shown};
ghost use Rattle.insight_model.specs.Trace.{access_notes, arrow_from, cell_line, lines_if};
ghost use Rattle.insight_model.specs.Trace.{note_line, second_arrow, trap_note, wrong_notes};
ghost use Rattle.cycle_watch.specs.Cells.{cell_in};
ghost use Rattle.cycle_watch.specs.Shown.{shown_in};

use crate::cell::Cell;
use crate::shown::Shown;
use crate::trace_lines::{
    access_note, cell_line, note_line, number_note, producer_line, wrong_note,
};
use fsim_base::Access;
use report_text::Line;

/// The note of the trap of one that left.
pub(crate) fn trap_line(number: u64, shown: &Shown, trapped: bool) -> Option<Line>
    ensures text { option_to_list result
        ≡ lines_if trapped
        (option_map_or (trap_note number) (outcome_shown (shown_in shown.now)) []) }
{
    match shown.cause {
        Some(cause) if trapped && !shown.is_waiting() => {
            Some(number_note(number, b"trap ", u64::from(cause.number())))
        }
        _ => None,
    }
}

/// The note of a misprediction, if the instruction was mispredicted.
pub(crate) fn wrong_line(number: u64, shown: &Shown, is_wrong: bool) -> Option<Line>
    ensures text { option_to_list result ≡ wrong_notes is_wrong number (shown_in shown.now) }
{
    if is_wrong && !shown.is_waiting() {
        Some(wrong_note(number, shown))
    } else {
        None
    }
}

/// The note of an access, if the instruction began and makes one.
pub(crate) fn begun_line(number: u64, has_begun: bool, access: Access) -> Option<Line>
    ensures text { option_to_list result ≡ lines_if has_begun (access_notes number access) }
{
    if has_begun {
        access_note(number, access)
    } else {
        None
    }
}

/// The note of a miss, if a load was made and its miss adds cycles.
pub(crate) fn miss_line(number: u64, is_made: bool, added: u64) -> Option<Line>
    ensures text { option_to_list result ≡ lines_if (is_made && nat_lt 0 added)
        (note_line number (codes "dcache miss " ++ decimal added) ∷ []) }
{
    if is_made && added > 0 {
        Some(number_note(number, b"dcache miss ", added))
    } else {
        None
    }
}

/// The cell of an instruction, if it is new.
pub(crate) fn new_cell_line(number: u64, before: Cell, after: Cell) -> Option<Line>
    ensures text { option_to_list result
        ≡ lines_if (not (is_cell (cell_in before) (cell_in after)))
        (cell_line number (cell_in after) ∷ []) }
{
    if before == after {
        None
    } else {
        Some(cell_line(number, after))
    }
}

/// The note of a miss that an instruction waited for before it was fetched.
pub(crate) fn paid_line(number: u64, paid: bool) -> Option<Line>
    ensures text { option_to_list result
        ≡ lines_if paid (note_line number (codes "icache miss") ∷ []) }
{
    if paid {
        Some(note_line(number, b"icache miss", b""))
    } else {
        None
    }
}

/// The arrow from the instruction that one waits for, if there is one.
pub(crate) fn arrow_line(number: u64, producer: Option<u64>) -> Option<Line>
    ensures text { option_to_list result ≡ arrow_from number producer }
{
    match producer {
        Some(producer) => Some(producer_line(number, producer)),
        None => None,
    }
}

/// The arrow from a second one, if it is another.
pub(crate) fn second_arrow_line(
    number: u64,
    first: Option<u64>,
    second: Option<u64>,
) -> Option<Line>
    ensures text { option_to_list result ≡ second_arrow number first second }
{
    if first == second {
        None
    } else {
        arrow_line(number, second)
    }
}

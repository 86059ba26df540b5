ghost use Rattle.std.specs.Prelude.{◌≡◌, ◌∷◌, []};
ghost use Rattle.insight_model.specs.Cell.{cell, cell_letter, has_miss_in, stage_cell, window_cell};
ghost use Rattle.insight_model.specs.Sight.{Outcome};
ghost use Rattle.cycle_watch.specs.Shown.{progress_in, shown_in};
ghost use Rattle.cycle_watch.specs.Cells.{cell_in};

use crate::shown::{Progress, Shown};
use insight_model::Pipeline;
use mono_model::Params;

/// The stage that a pipeline viewer shows of an instruction in a cycle.
#[derive(Clone, Copy, Debug, PartialEq, Eq)]
pub(crate) enum Cell {
    /// Fetched, and on its way through the front of the pipeline; in order, fetched in this cycle.
    Fetch,
    /// It waits for its operands or a unit.
    Queue,
    /// In order: it is in Decode.
    Decode,
    /// It executes; in order, it is in Execute.
    Execute,
    /// It waits for its miss; in order, it is in Memory with a miss.
    Miss,
    /// In order: it is in Memory, without a miss.
    Memory,
    /// It is done.
    Complete,
    /// In order: it is in Write.
    Write,
}

impl Cell {
    /// The letter of the stage.
    pub(crate) fn letter(self) -> u8
        ensures letter { result ∷ [] ≡ cell_letter (cell_in self) }
    {
        match self {
            Cell::Fetch => b'F',
            Cell::Queue => b'Q',
            Cell::Decode => b'D',
            Cell::Execute => b'X',
            Cell::Miss => b'M',
            Cell::Memory => b'A',
            Cell::Complete => b'C',
            Cell::Write => b'W',
        }
    }
}

/// Whether one that executes until a cycle waits for its miss in this one.
fn is_missing(cycle: u64, miss: u64, end: u64) -> bool
    ensures missing { result ≡ has_miss_in cycle miss end }
{
    miss > 0 && end.saturating_sub(miss) <= cycle
}

/// The cell of an instruction in a cycle, in the window.
fn window_cell(params: &Params, cycle: u64, miss: u64, shown: &Shown) -> Cell
    ensures cell { cell_in result
        ≡ window_cell params.now cycle miss shown.now.since (shown_in shown.now).progress }
{
    match shown.progress {
        Progress::Waiting => {
            if shown.is_within(cycle, u64::from(params.core_front)) {
                Cell::Fetch
            } else {
                Cell::Queue
            }
        }
        Progress::Executing(end) => {
            if is_missing(cycle, miss, end) {
                Cell::Miss
            } else {
                Cell::Execute
            }
        }
        Progress::Accessing(_) => Cell::Execute,
        Progress::Done => Cell::Complete,
    }
}

/// The cell of an instruction in a stage, but for the cycle in which it was fetched.
fn stage_cell(miss: u64, progress: Progress) -> Cell
    ensures cell { (o : Outcome) → cell_in result ≡ stage_cell miss (progress_in progress o) }
{
    match progress {
        Progress::Waiting => Cell::Decode,
        Progress::Executing(_) => Cell::Execute,
        Progress::Accessing(_) => { if miss > 0 { Cell::Miss } else { Cell::Memory } }
        Progress::Done => Cell::Write,
    }
}

/// The cell of an instruction in a cycle, by the state after it.
#[tactic(auto, unfolding(insight_model::specs::Cell::cell))]
pub(crate) fn cell_of(
    pipeline: Pipeline,
    params: &Params,
    cycle: u64,
    miss: u64,
    shown: &Shown,
) -> Cell
    ensures cell { cell_in result ≡ cell pipeline params.now cycle miss (shown_in shown.now) }
{
    match pipeline {
        Pipeline::Window => window_cell(params, cycle, miss, shown),
        Pipeline::Inorder => {
            if cycle == shown.since {
                Cell::Fetch
            } else {
                stage_cell(miss, shown.progress)
            }
        }
    }
}

//! What a trace has told of the instructions under way.
ghost use Rattle.std.specs.Prelude.{◌≡◌, ◌+◌, ◌-◌, ◌<◌, ◌≤◌, ◌∷◌, ◌++◌, [], IfOk, Some};
ghost use Rattle.std.specs.Prelude.{drop, length, slice_get, slice_set, take};
ghost use Rattle.mono_model.specs.Window.{is_register};
ghost use Rattle.insight_model.specs.Accesses.{miss_after};
ghost use Rattle.insight_model.specs.Cell.{cell};
ghost use Rattle.cycle_watch.specs.Cells.{cell_in};
ghost use Rattle.cycle_watch.specs.Shown.{shown_in};
ghost use Rattle.cycle_watch.specs.Traced.{dest_shown};

use crate::cell::{Cell, cell_of};
use crate::last::{WINDOW_LIMIT, load_made, miss_of};
use crate::shown::Shown;
use circular_buffer::HeapCircularBuffer;
use fsim_base::NoMemory;
use insight_model::Pipeline;
use mono_model::Params;
use std::alloc::Global;

/// What a trace has told of an instruction.
#[derive(Clone, Copy, Debug)]
pub(crate) struct TraceMark {
    /// Its number in the file.
    pub number: u64,
    /// How many cycles its miss adds, from its access on; 0 before it, and of all else.
    pub miss: u64,
    /// Its newest cell.
    pub cell: Cell,
    /// The register that it writes.
    pub writes: Option<u8>,
}

impl TraceMark {
    /// Of an instruction that is introduced in a cycle.
    pub(crate) fn new(
        pipeline: Pipeline,
        params: &Params,
        cycle: u64,
        number: u64,
        shown: &Shown,
    ) -> TraceMark
        ensures number { result.number ≡ number }
        ensures miss { result.miss ≡ 0 }
        ensures cell { cell_in result.cell ≡ cell pipeline params.now cycle 0 (shown_in shown.now) }
        ensures writes { result.writes ≡ dest_shown (shown_in shown.now) }
    {
        TraceMark {
            number,
            miss: 0,
            cell: cell_of(pipeline, params, cycle, 0, shown),
            writes: shown.writes(),
        }
    }

    /// Whether the instruction writes a register.
    pub(crate) fn writes_to(&self, register: u8) -> bool
        ensures writes { result ≡ is_register register self.now.writes }
    {
        match self.writes {
            Some(written) => written == register,
            None => false,
        }
    }

    /// The mark after a cycle of an instruction that stayed.
    pub(crate) fn after(
        &self,
        pipeline: Pipeline,
        params: &Params,
        cycle: u64,
        before: &Shown,
        after: &Shown,
    ) -> TraceMark
        ensures number { result.number ≡ self.now.number }
        ensures miss { result.miss ≡ miss_after pipeline params.now cycle
            (record { before = shown_in before.now; after = shown_in after.now }) self.now.miss }
        ensures cell { cell_in result.cell
            ≡ cell pipeline params.now cycle result.miss (shown_in after.now) }
        ensures writes { result.writes ≡ self.now.writes }
    {
        let miss = match load_made(pipeline, before.progress, after) {
            Some(_) => miss_of(params, cycle, after.progress),
            None => self.miss,
        };
        TraceMark {
            miss,
            cell: cell_of(pipeline, params, cycle, miss, after),
            ..*self
        }
    }
}

/// The marks of the instructions under way, the oldest first.
#[derive(Drop)]
pub(crate) struct TraceMarks {
    marks: HeapCircularBuffer<TraceMark>,
}

impl TraceMarks {
    /// Of none. All memory is taken here.
    pub(crate) fn new(alloc: Global) -> Result<TraceMarks, NoMemory>
        ensures none { IfOk result (λ told. told.marks.items ≡ []) }
        ensures room { IfOk result (λ told. told.marks.capacity ≡ 256) }
    {
        match HeapCircularBuffer::with_capacity(alloc, WINDOW_LIMIT) {
            Ok(marks) => Ok(TraceMarks { marks }),
            Err(_) => Err(NoMemory),
        }
    }

    /// How many there are.
    pub(crate) fn len(&self) -> usize
        ensures count { result ≡ length self.now.marks.items }
    {
        self.marks.len()
    }

    /// The mark at a place.
    pub(crate) fn at(&self, place: usize) -> TraceMark
        requires within { place < length self.now.marks.items }
        ensures mark { slice_get self.now.marks.items place ≡ Some result }
    {
        *self.marks.get(place).unwrap()
    }

    /// Puts a mark in the place of another.
    pub(crate) fn put(&mut self, place: usize, mark: TraceMark)
        requires within { place < length self.old.marks.items }
        ensures items { self.new.marks.items ≡ slice_set self.old.marks.items place mark }
        ensures capacity { self.new.marks.capacity ≡ self.old.marks.capacity }
    {
        if let Some(held) = self.marks.get_mut(place) {
            *held = mark;
        }
    }

    /// Adds the mark of an instruction that was appended.
    pub(crate) fn append(&mut self, mark: TraceMark)
        requires room { length self.old.marks.items < self.old.marks.capacity }
        ensures items { self.new.marks.items ≡ self.old.marks.items ++ mark ∷ [] }
        ensures capacity { self.new.marks.capacity ≡ self.old.marks.capacity }
    {
        let _ = self.marks.try_push_back(mark);
    }

    /// Forgets those of the instructions that left, and of those that were squashed.
    pub(crate) fn keep(&mut self, left: usize, kept: usize)
        requires within { left ≤ length self.old.marks.items }
        ensures items { self.new.marks.items ≡ take kept (drop left self.old.marks.items) }
        ensures capacity { self.new.marks.capacity ≡ self.old.marks.capacity }
    {
        let others = self.marks.len() - left;
        self.marks.truncate_front(others);
        self.marks.truncate_back(kept);
    }
}

ghost use Rattle.std.specs.Prelude.{◌≡◌, ◌+◌, ◌-◌, ◌<◌, ◌≤◌, ◌^◌, ◌++◌, ◌∷◌, ℕ, [], false, length};
ghost use Rattle.std.specs.Prelude.{slice_get, slice_set, vec_capacity, Some, None, IfOk, map, take, drop, filter_map};
ghost use Rattle.std.specs.Prelude.{option_and_then, option_copied, option_map, position, unwrap_or};
ghost use Rattle.std.specs.Prelude.{◌&&◌, if◌then◌else◌, is_none, is_some, nat_lt, List};
ghost use Rattle.std.specs.List.{last_or};
ghost use Rattle.timing_core.specs.Counts.{counts_in};
ghost use Rattle.insight_model.specs.Sight.{Outcome, Shown as ShownSeen, Sight};
ghost use Rattle.insight_model.specs.Facts.{addr_or, departed, facts as cycle_facts, fetch_at_of};
ghost use Rattle.insight_model.specs.Facts.{flush_of, has_stopped as stops, is_redirecting};
ghost use Rattle.insight_model.specs.Facts.{Kept, missed_of, wrong_place};
ghost use Rattle.insight_model.specs.Accesses.{comes_to_memory, kept_misses, load_access, load_made};
ghost use Rattle.insight_model.specs.Accesses.{until_at};
ghost use Rattle.cycle_watch.specs.Shown.{progress_in, shown_in};
ghost use Rattle.cycle_watch.specs.Facts.{Follows, HasRoom, IsFollowed, IsStill, IsTold, Keeps};
ghost use Rattle.cycle_watch.specs.Facts.{MayPassTo};
ghost use Rattle.cycle_watch.specs.Facts.{Notes, at_cycle};
ghost use Rattle.cycle_watch.specs.Facts.{access_in, charge_in, idle, leaving_flush, loads_made};
ghost use Rattle.cycle_watch.specs.Facts.{staying_flush};
ghost use Rattle.cycle_watch.specs.Facts.{window_in};
ghost use Rattle.cycle_watch.specs.Known.{HasAdvanced, HasPassed, Watches, misses_in, origins_in};
ghost use Rattle.cycle_watch.specs.declared.mark.Mark.{Mark};

use crate::charge::Charge;
use crate::facts::Facts;
use crate::mark::Mark;
use crate::shown::{Progress, Shown, has_begun, until_at};
use crate::watched::Watched;
use circular_buffer::HeapCircularBuffer;
use fsim_base::NoMemory;
use insight_model::{CycleCause, Pipeline};
use mono_model::{End, Params};
use std::alloc::Global;
use timing_core::Counts;

/// How many instructions a window holds at most.
pub(crate) const WINDOW_LIMIT: usize = 256;

/// A load that accessed the data cache.
#[derive(Clone, Copy, Debug)]
pub(crate) struct LoadMade {
    /// The address of its instruction.
    pub by: u32,
    /// The address that it read.
    pub addr: u32,
}

/// What was seen last, and what is remembered of the instructions under way.
#[derive(Drop)]
pub(crate) struct LastSight {
    pub pipeline: Pipeline,
    pub params: Params,
    /// The instructions under way, the oldest first.
    pub marks: HeapCircularBuffer<Mark>,
    /// The loads that accessed the data cache in the cycle that was passed last.
    pub loads: Vec<LoadMade>,
    pub cycle: u64,
    retired: u64,
    counts: Counts,
    resume: u64,
    missing: Option<u32>,
    /// How many of them waited.
    pub waiting: u32,
}

/// Whether a run that stands so was ended before its cycle's fetch.
fn has_stopped(end: End) -> bool
    ensures stops { result ≡ stops end }
{
    match end {
        End::Pass | End::Fail(_) | End::OutputFull => true,
        End::Limit | End::Running => false,
    }
}

/// Whether the load of RAM of one that went from the one place to the other accessed the cache.
fn comes_to_memory(pipeline: Pipeline, before: Progress, after: Progress) -> bool
    ensures comes { (k : Kept) (o : Outcome) (p : Outcome)
        → k.before.progress ≡ progress_in before o → k.after.progress ≡ progress_in after p
        → result ≡ comes_to_memory pipeline k }
{
    match pipeline {
        Pipeline::Window => has_begun(before, after),
        Pipeline::Inorder => {
            matches!(before, Progress::Executing(_)) && matches!(after, Progress::Accessing(_))
        }
    }
}

/// The address that an instruction read from RAM by way of the data cache in a cycle, before which
/// it was there.
#[inline(always)]
pub(crate) fn load_made(pipeline: Pipeline, before: Progress, after: &Shown) -> Option<u32>
    ensures made { (k : Kept) (o : Outcome) → k.before.progress ≡ progress_in before o
        → k.after ≡ shown_in after.now → result ≡ load_made pipeline k }
{
    if comes_to_memory(pipeline, before, after.progress) {
        after.ram_load()
    } else {
        None
    }
}

/// How many cycles the miss of a load adds that accessed the data cache in a cycle.
pub(crate) fn miss_of(params: &Params, cycle: u64, after: Progress) -> u64
    ensures miss { (o : Outcome) → result
        ≡ until_at (progress_in after o) - cycle - params.now.mem_latency }
{
    until_at(after)
        .saturating_sub(cycle)
        .saturating_sub(u64::from(params.mem_latency))
}

/// The address at which fetch stands, or has begun where more than so many are under way.
fn fetch_address<S: Watched>(side: &S, kept: usize) -> u32
    requires within { kept ≤ length (S.sight side.now).window }
    ensures at { result ≡ fetch_at_of (S.sight side.now) (drop kept (S.sight side.now).window) }
{
    if kept < side.len() {
        side.shown(kept).addr
    } else {
        side.missing().unwrap_or(0)
    }
}

/// The address at which a miss began in a cycle in which so many were appended.
fn missed<S: Watched>(side: &S, appended: usize, paid: bool) -> Option<u32>
    ensures missed { (shown : List ShownSeen) → appended ≡ length shown
        → result ≡ missed_of (S.sight side.now) shown paid }
{
    if appended == 0 && paid {
        None
    } else {
        side.missing()
    }
}

impl LastSight {
    /// What is seen of a timing side, which has nothing under way. All memory is taken here.
    pub(crate) fn new<S: Watched>(
        alloc: Global,
        pipeline: Pipeline,
        params: &Params,
        side: &S,
    ) -> Result<LastSight, NoMemory>
        requires start { (S.sight side.now).cycle ≡ 0 }
        requires empty { (S.sight side.now).window ≡ [] }
        ensures keeps { IfOk result (Keeps (S.sight side.now)) }
        ensures watches { IfOk result (Watches pipeline params.now) }
    {
        let Ok(marks) = HeapCircularBuffer::with_capacity(alloc, WINDOW_LIMIT) else {
            return Err(NoMemory);
        };
        let Ok(loads) = Vec::with_capacity(alloc, WINDOW_LIMIT) else {
            return Err(NoMemory);
        };
        let mut last = LastSight {
            pipeline,
            params: *params,
            marks,
            loads,
            cycle: 0,
            retired: 0,
            counts: side.counts(),
            resume: 0,
            missing: None,
            waiting: 0,
        };
        last.note(side);
        Ok(last)
    }

    /// Notes all that is seen but the cycle and the instructions under way.
    fn note<S: Watched>(&mut self, side: &S)
        ensures noted { Notes (S.sight side.now) self.new }
        ensures cycle { self.new.cycle ≡ self.old.cycle }
        ensures marks { self.new.marks ≡ self.old.marks }
        ensures loads { self.new.loads ≡ self.old.loads }
        ensures pipeline { self.new.pipeline ≡ self.old.pipeline }
        ensures params { self.new.params ≡ self.old.params }
    {
        self.retired = side.retired();
        self.counts = side.counts();
        self.resume = side.resume();
        self.missing = side.missing();
        self.waiting = side.waiting();
    }

    /// Looks at a timing side anew, and remembers nothing of the instructions under way.
    pub(crate) fn look<S: Watched>(&mut self, side: &S)
        requires within { length (S.sight side.now).window ≤ 256 }
        requires room { HasRoom self.old }
        ensures keeps { Keeps (S.sight side.now) self.new }
        ensures pipeline { self.new.pipeline ≡ self.old.pipeline }
        ensures params { self.new.params ≡ self.old.params }
    {
        self.marks.clear();
        self.loads.clear();
        for place in 0..side.len() {
            self.append(Mark::new(side.shown(place)));
        }
        self.note(side);
        self.cycle = side.cycle();
    }

    /// How many left so far: the number of the oldest instruction.
    pub(crate) fn number(&self) -> u64
        ensures number { (s : Sight) → Keeps s self.now → departed s < 2 ^ 64
            → result ≡ departed s }
    {
        self.retired.saturating_add(self.counts.exceptions)
    }

    /// What is remembered of the instruction at a place.
    pub(crate) fn mark(&self, place: usize) -> &Mark
        requires within { place < length self.now.marks.items }
        ensures mark { slice_get self.now.marks.items place ≡ Some result.now }
    {
        self.marks.get(place).unwrap()
    }

    /// The place, among those from a place on, of the first that is found in this cycle to go
    /// elsewhere than predicted.
    fn redirecting_place(&self, left: usize) -> Option<usize>
        requires within { left ≤ length self.now.marks.items }
        ensures place { result ≡ position (is_redirecting self.now.cycle)
            (drop left (window_in self.now.marks.items)) }
    {
        for place in left..self.marks.len() {
            if self.mark(place).shown.is_redirecting(self.cycle) {
                return Some(place - left);
            }
        }
        None
    }

    /// The place of the mispredicted instruction among those that didn't leave.
    fn wrong_place(&self, left: usize, counts: &Counts) -> Option<usize>
        requires within { left ≤ length self.now.marks.items }
        ensures place { (before : Sight) (after : Sight) → Keeps before self.now
            → counts_in counts.now ≡ after.counts
            → result ≡ wrong_place before after (drop left before.window) }
    {
        if self.counts.mispredicted < counts.mispredicted {
            self.redirecting_place(left)
        } else {
            None
        }
    }

    /// The address of the instruction at a place; 0 where there is none.
    fn addr_at(&self, place: usize) -> u32
        ensures addr { result ≡ addr_or 0 (slice_get (window_in self.now.marks.items) place) }
    {
        match self.marks.get(place) {
            Some(mark) => mark.shown.addr,
            None => 0,
        }
    }

    /// What flushed of the last instruction that left: its trap, or that it is a FENCE.I.
    fn leaving_flush(&self, counts: &Counts, left: usize) -> Option<Charge>
        requires within { left ≤ length self.now.marks.items }
        ensures flush { (before : Sight) (after : Sight) → Keeps before self.now
            → counts_in counts.now ≡ after.counts
            → option_map charge_in result
            ≡ leaving_flush before after (last_or None (take left before.window)) }
    {
        let trapped = self.counts.exceptions < counts.exceptions;
        if left == 0 {
            return if trapped {
                Some(Charge::new(CycleCause::Trap, 0))
            } else {
                None
            };
        }
        let leaver = &self.mark(left - 1).shown;
        if trapped {
            Some(Charge::new(CycleCause::Trap, leaver.addr))
        } else if leaver.is_fence_i() {
            Some(Charge::new(CycleCause::Fence, leaver.addr))
        } else {
            None
        }
    }

    /// What flushed of those that didn't leave: a replay, or that one was mispredicted.
    fn staying_flush(&self, counts: &Counts, left: usize, wrong: Option<usize>) -> Option<Charge>
        ensures flush { (before : Sight) (after : Sight) → Keeps before self.now
            → counts_in counts.now ≡ after.counts
            → option_map charge_in result
            ≡ staying_flush before after (drop left before.window)
            (option_and_then (slice_get (drop left before.window)) wrong) }
    {
        if self.counts.replays < counts.replays {
            return Some(Charge::new(CycleCause::Replay, self.addr_at(left)));
        }
        let mark = self.mark_after(left, wrong?)?;
        Some(Charge::new(CycleCause::Mispredict, mark.shown.addr))
    }

    /// What is remembered of the instruction at a place among those from another place on, if there
    /// is one.
    pub(crate) fn mark_after(&self, left: usize, place: usize) -> Option<&Mark>
        ensures mark { option_copied result
            ≡ slice_get (drop left self.now.marks.items) place }
    {
        if place < self.marks.len().saturating_sub(left) {
            self.marks.get(left + place)
        } else {
            None
        }
    }

    /// What flushed, and what that is charged to: the first that applies, in the order of the
    /// phases.
    #[tactic(auto, using(crate::proofs::Told::flush_by))]
    fn flush(
        &self,
        counts: &Counts,
        fetch_at: u32,
        left: usize,
        wrong: Option<usize>,
    ) -> Option<Charge>
        requires within { left ≤ length self.now.marks.items }
        ensures flush { (before : Sight) (after : Sight) → Keeps before self.now
            → counts_in counts.now ≡ after.counts
            → option_map charge_in result
            ≡ flush_of before after fetch_at (last_or None (take left before.window))
            (drop left before.window)
            (option_and_then (slice_get (drop left before.window)) wrong) }
    {
        if self.counts.interrupts < counts.interrupts {
            return Some(Charge::new(CycleCause::Interrupt, fetch_at));
        }
        match self.leaving_flush(counts, left) {
            Some(flush) => Some(flush),
            None => self.staying_flush(counts, left, wrong),
        }
    }

    /// Whether the miss of the instruction that is fetched next was over, and nothing dropped it.
    fn was_paid(&self, flush: Option<Charge>) -> bool
        ensures paid { result ≡ (is_some self.now.missing && is_none flush) }
    {
        self.missing.is_some() && flush.is_none()
    }

    /// Whether fetch waited for a miss that began before.
    fn has_waited(&self, flush: Option<Charge>) -> bool
        ensures waited { result ≡ (is_none flush && nat_lt self.now.cycle self.now.resume) }
    {
        flush.is_none() && self.cycle < self.resume
    }

    /// What the cycle did that led to what is seen now.
    pub(crate) fn facts<S: Watched>(&self, side: &S) -> Facts
        requires followed { IsFollowed self.now (S.sight side.now) }
        ensures told { (before : Sight) → Keeps before self.now
            → Follows before (S.sight side.now) → IsTold before (S.sight side.now) result }
        ensures few { result.before ≤ self.now.marks.capacity }
    {
        let counts = side.counts();
        let gone = side.retired().saturating_add(counts.exceptions);
        let left = gone.saturating_sub(self.number()) as usize;
        let appended = counts.fetched.saturating_sub(self.counts.fetched) as usize;
        let kept = side.len() - appended;
        let wrong = self.wrong_place(left, &counts);
        let fetch_at = fetch_address(side, kept);
        let flush = self.flush(&counts, fetch_at, left, wrong);
        let paid = self.was_paid(flush);
        Facts {
            cycle: self.cycle,
            number: self.number(),
            fetched: self.counts.fetched,
            before: self.marks.len(),
            left,
            kept,
            appended,
            trapped: self.counts.exceptions < counts.exceptions,
            mispredicted: wrong,
            interrupted: self.counts.interrupts < counts.interrupts,
            replayed: self.counts.replays < counts.replays,
            flush,
            fetch_at,
            paid,
            missed: missed(side, appended, paid),
            waited: self.has_waited(flush),
            stopped: has_stopped(side.end()),
        }
    }

    /// What a cycle did in which nothing happened.
    pub(crate) fn idle_facts(&self) -> Facts
        ensures told { (s : Sight) → Keeps s self.now → departed s < 2 ^ 64
            → stops s.end ≡ false → IsTold s (idle s) result }
    {
        Facts {
            cycle: self.cycle,
            number: self.number(),
            fetched: self.counts.fetched,
            before: self.marks.len(),
            left: 0,
            kept: self.marks.len(),
            appended: 0,
            trapped: false,
            mispredicted: None,
            interrupted: false,
            replayed: false,
            flush: None,
            fetch_at: self.missing.unwrap_or(0),
            paid: self.missing.is_some(),
            missed: None,
            waited: self.cycle < self.resume,
            stopped: false,
        }
    }

    /// Passes a cycle: those that left and were squashed are forgotten, and of the others it is
    /// noted how far they have come. Those that were appended are added by the caller.
    pub(crate) fn pass<S: Watched>(&mut self, facts: &Facts, side: &S)
        requires follows { MayPassTo self.old (S.sight side.now) facts.now }
        ensures passed { (before : Sight) → Keeps before self.old
            → Follows before (S.sight side.now) → IsTold before (S.sight side.now) facts.now
            → HasPassed before (at_cycle (before.cycle + 1) (S.sight side.now)) self.new }
        ensures misses { (before : Sight) → Keeps before self.old
            → Follows before (S.sight side.now) → IsTold before (S.sight side.now) facts.now
            → misses_in self.new.marks.items
            ≡ kept_misses self.old.pipeline self.old.params before.cycle
            (cycle_facts before (S.sight side.now)).kept
            (drop facts.now.left (misses_in self.old.marks.items)) }
        ensures origins { origins_in self.new.marks.items
            ≡ take facts.now.kept (drop facts.now.left (origins_in self.old.marks.items)) }
        ensures loads { (before : Sight) → Keeps before self.old
            → Follows before (S.sight side.now) → IsTold before (S.sight side.now) facts.now
            → map access_in self.new.loads.items
            ≡ filter_map (load_access self.old.pipeline)
            (cycle_facts before (S.sight side.now)).kept }
        ensures pipeline { self.new.pipeline ≡ self.old.pipeline }
        ensures params { self.new.params ≡ self.old.params }
    {
        let others = self.marks.len() - facts.left;
        self.marks.truncate_front(others);
        self.marks.truncate_back(facts.kept);
        self.loads.clear();
        for place in 0..facts.kept {
            self.pass_mark(facts.cycle, place, side);
        }
        self.note(side);
        self.cycle = facts.cycle + 1;
    }

    /// Notes how far the instruction at a place has come.
    #[inline(always)]
    fn pass_mark<S: Watched>(&mut self, cycle: u64, place: usize, side: &S)
        requires before { place < length self.old.marks.items }
        requires after { place < length (S.sight side.now).window }
        requires room { length self.old.loads.items < vec_capacity self.old.loads }
        requires still { (mark : Mark) (is : ShownSeen)
            → slice_get self.old.marks.items place ≡ Some mark
            → slice_get (S.sight side.now).window place ≡ Some is
            → IsStill (shown_in mark.shown) is }
        ensures marks { (mark : Mark) (is : ShownSeen)
            → slice_get self.old.marks.items place ≡ Some mark
            → slice_get (S.sight side.now).window place ≡ Some is
            → HasAdvanced self.old cycle place mark is self.new }
    {
        if self.mark(place).shown.progress != side.progress(place) {
            self.advance(cycle, place, side.shown(place));
        }
    }

    /// Notes how the instruction at a place is seen now, and the load that it made.
    fn advance(&mut self, cycle: u64, place: usize, shown: Shown)
        requires within { place < length self.old.marks.items }
        requires room { length self.old.loads.items < vec_capacity self.old.loads }
        ensures marks { (mark : Mark)
            → slice_get self.old.marks.items place ≡ Some mark
            → HasAdvanced self.old cycle place mark (shown_in shown) self.new }
    {
        let mark = *self.mark(place);
        let made = load_made(self.pipeline, mark.shown.progress, &shown);
        let miss = self.miss_after(cycle, made, mark.miss, shown.progress);
        self.note_load(shown.addr, made);
        self.put_mark(
            place,
            Mark {
                shown,
                miss,
                ..mark
            },
        );
    }

    /// How many cycles the miss of an instruction adds that has come so far, by the load that it
    /// made in a cycle.
    fn miss_after(&self, cycle: u64, made: Option<u32>, known: u64, after: Progress) -> u64
        ensures miss { (o : Outcome) → result ≡ (if is_some made
            then until_at (progress_in after o) - cycle - self.now.params.mem_latency
            else known) }
    {
        match made {
            Some(_) => miss_of(&self.params, cycle, after),
            None => known,
        }
    }

    /// Notes the load that an instruction made, if it made one.
    fn note_load(&mut self, by: u32, made: Option<u32>)
        requires room { length self.old.loads.items < vec_capacity self.old.loads }
        ensures loads { map access_in self.new.loads.items
            ≡ map access_in self.old.loads.items ++ loads_made by made }
        ensures room { vec_capacity self.old.loads ≤ vec_capacity self.new.loads }
        ensures rest { self.new ≡ record self.old { loads = self.new.loads } }
    {
        if let Some(addr) = made {
            let _ = self.loads.push(LoadMade { by, addr });
        }
    }

    /// Remembers an instruction anew.
    pub(crate) fn put_mark(&mut self, place: usize, mark: Mark)
        requires within { place < length self.old.marks.items }
        ensures marks { self.new ≡ record self.old {
          marks = record self.old.marks {
            items = slice_set self.old.marks.items place mark;
          };
        } }
    {
        put_mark(&mut self.marks, place, mark);
    }

    /// Adds an instruction that was appended.
    pub(crate) fn append(&mut self, mark: Mark)
        requires room { length self.old.marks.items < self.old.marks.capacity }
        ensures marks { self.new ≡ record self.old {
          marks = record self.old.marks {
            items = self.old.marks.items ++ mark ∷ [];
          };
        } }
    {
        let _ = self.marks.try_push_back(mark);
    }

    /// The first one, if there is one.
    pub(crate) fn oldest(&self) -> Option<&Mark>
        ensures oldest { option_copied result ≡ slice_get self.now.marks.items 0 }
    {
        self.marks.front()
    }

    /// The first cycle from which on fetch goes on after a miss.
    pub(crate) fn resume(&self) -> u64
        ensures resume { result ≡ self.now.resume }
    {
        self.resume
    }
}

/// Puts an instruction in the place of another.
fn put_mark(marks: &mut HeapCircularBuffer<Mark>, place: usize, mark: Mark)
    requires within { place < length marks.old.items }
    ensures put { marks.new ≡ record marks.old
        { items = slice_set marks.old.items place mark } }
{
    if let Some(held) = marks.get_mut(place) {
        *held = mark;
    }
}

/// What is seen of an instruction at the latest: after the cycle, if it stayed.
pub(crate) fn latest<S: Watched>(facts: &Facts, side: &S, oldest: &Shown) -> Shown
    requires kept { facts.now.kept ≤ length (S.sight side.now).window }
    ensures latest { shown_in result
        ≡ unwrap_or (slice_get (take facts.now.kept (S.sight side.now).window) 0)
        (shown_in oldest.now) }
{
    if facts.kept > 0 {
        side.shown(0)
    } else {
        *oldest
    }
}

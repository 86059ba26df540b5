use crate::stages::{
    Executing, execute_latency, executing_place, in_execute, is_load, is_past_fetch,
    memory_latency, one_is_done, two_are_done,
};
use fsim_base::NoMemory;
use in_flight::Sought;
use mono_model::Setup;
use reorder_buffer::Slot;
use std::alloc::Global;
use timing_core::{Orders, TimingCore, Tried};
use trace_entry::Entry;

/// The pipeline: the instructions in flight with predictor, caches and counts, and how long the one
/// in Memory stays there (Hennessy and Patterson, Computer Architecture, appendix C.1). Of the
/// slots in flight, that in Decode waits, that in Execute executes, and those in Memory and Write
/// are done.
#[derive(Debug, Drop)]
pub struct InorderTimingCore {
    /// The parts that it has as the out-of-order machine has them.
    pub core: TimingCore,
    /// The cycle in which the slot in Memory, the youngest that is done, goes on to Write.
    pub memory: Option<u64>,
}

impl InorderTimingCore {
    ghost use Rattle.std.specs.Prelude.{◌≡◌, ℕ, ◌+◌, ◌==◌, ◌<◌, true, not, IfOk, IfSome, length};
    ghost use Rattle.std.specs.Prelude.{Option, Some, is_none, slice_get};
    ghost use Rattle.reorder_buffer.specs.Window.{youngest};
    ghost use Rattle.reorder_buffer.specs.declared.slot.SlotState.TheVariants.{Waiting};
    ghost use Rattle.mono_model.specs.declared.setup.Setup.{Setup as RunSetup};
    ghost use Rattle.mono_model.specs.Setup.{is_setup};
    ghost use Rattle.timing_side.specs.Slots.{is_waiting_state};
    ghost use Rattle.timing_side.specs.Issue.{has_operands};
    ghost use Rattle.timing_side.specs.Fetch.{timing_try};
    ghost use Rattle.timing_side.specs.Turn.{timing_end_of_cycle};
    ghost use Rattle.timing_core.specs.CoreStandsFor.{CoreStandsFor};
    ghost use Rattle.timing_core.specs.Small.{IsSmall};
    ghost use Rattle.timing_core.specs.Orders.{orders_in};
    ghost use Rattle.timing_core.specs.Finishing.{IsFirst};
    ghost use Rattle.in_flight.specs.Flight.{older_at, may_start_at, executes_at};
    ghost use Rattle.in_flight.specs.Snapshot.{IsSnapshot};
    ghost use Rattle.inorder_machine.specs.InorderMachine.{memory_behind};
    ghost use Rattle.inorder_machine.specs.Memory.{went_on};
    ghost use Rattle.inorder_side.specs.Timing.{InorderTiming, inorder_timing_start, has_write};
    ghost use Rattle.inorder_side.specs.Timing.{in_execute};
    ghost use Rattle.inorder_side.specs.Phases.{timing_inorder_interrupt, timing_inorder_write};
    ghost use Rattle.inorder_side.specs.Phases.{timing_inorder_memory, moved, may_move};
    ghost use Rattle.inorder_side.specs.Phases.{timing_inorder_execute};
    ghost use Rattle.inorder_side.specs.Issue.{wants_time, may_issue, issued, issue_phase};
    ghost use Rattle.inorder_side.specs.Issue.{timing_inorder_issue, timing_inorder_may_fetch};
    ghost use Rattle.inorder_side.specs.Issue.{found_in_order};
    ghost use Rattle.inorder_model.specs.Stages.{executing_as, waits_for_load, write_phase};
    ghost use Rattle.inorder_model.specs.InorderStandsFor.{InorderStandsFor};

    /// The pipeline before the first cycle of a run of this setup. All memory is taken here.
    pub fn new(alloc: Global, setup: &Setup) -> Result<InorderTimingCore, NoMemory>
        requires sound { is_setup setup.now ≡ true }
        ensures opening { IfOk result
            (λ timing. InorderStandsFor setup.now inorder_timing_start timing) }
    {
        let core = TimingCore::new(alloc, setup)?;
        Ok(InorderTimingCore { core, memory: None })
    }

    /// Behind a phase that may flush all slots, Memory is empty where nothing is in flight.
    #[inline(always)]
    fn clear_memory(&mut self)
        ensures core { self.new.core ≡ self.old.core }
        ensures behind { self.new.memory
            ≡ memory_behind self.old.core.flight.slots self.old.memory }
    {
        if self.core.flight().len() == 0 {
            self.memory = None;
        }
    }

    /// The first phase of a cycle: the timer interrupt.
    pub fn interrupt(&mut self) -> Orders
        ensures kept { (s : RunSetup) (l : InorderTiming) → InorderStandsFor s l self.old
            → IsSmall l.timing → InorderStandsFor s (timing_inorder_interrupt l).inorder self.new }
        ensures orders { (s : RunSetup) (l : InorderTiming) → InorderStandsFor s l self.old
            → IsSmall l.timing → orders_in result ≡ (timing_inorder_interrupt l).orders }
    {
        let orders = self.core.interrupt();
        self.clear_memory();
        orders
    }

    /// The second phase: the slot in Write, where there is one, leaves.
    #[inline(always)]
    pub fn write(&mut self) -> Orders
        ensures kept { (s : RunSetup) (l : InorderTiming) → InorderStandsFor s l self.old
            → IsSmall l.timing → InorderStandsFor s (timing_inorder_write s l).inorder self.new }
        ensures orders { (s : RunSetup) (l : InorderTiming) → InorderStandsFor s l self.old
            → IsSmall l.timing → orders_in result ≡ (timing_inorder_write s l).orders }
    {
        let orders = self.commit_written();
        self.clear_memory();
        orders
    }

    /// The same, with Memory as it was.
    #[inline(always)]
    fn commit_written(&mut self) -> Orders
        ensures kept { (s : RunSetup) (l : InorderTiming) → InorderStandsFor s l self.old
            → IsSmall l.timing → CoreStandsFor s (write_phase s l).timing self.new.core }
        ensures memory { self.new.memory ≡ self.old.memory }
        ensures orders { (s : RunSetup) (l : InorderTiming) → InorderStandsFor s l self.old
            → IsSmall l.timing → orders_in result ≡ (write_phase s l).orders }
    {
        if self.has_write() {
            self.core.commit_one()
        } else {
            Orders::none()
        }
    }

    /// Whether a slot is in Write.
    #[inline(always)]
    fn has_write(&self) -> bool
        ensures write { (s : RunSetup) (l : InorderTiming) → InorderStandsFor s l self.now
            → result ≡ has_write l }
    {
        if self.memory.is_none() {
            one_is_done(self.core.flight())
        } else {
            two_are_done(self.core.flight())
        }
    }

    /// The third phase: the slot in Memory goes on to Write once its access is over.
    pub fn access(&mut self)
        ensures kept { (s : RunSetup) (l : InorderTiming) → InorderStandsFor s l self.old
            → InorderStandsFor s (timing_inorder_memory l) self.new }
    {
        if let Some(end) = self.memory {
            if end <= self.core.cycle() {
                self.memory = None;
            }
        }
    }

    /// The fourth phase: the slot in Execute goes on to Memory, once its latency is over and Memory
    /// is empty. A misprediction flushes all younger slots.
    #[inline(always)]
    pub fn execute(&mut self) -> Orders
        ensures kept { (s : RunSetup) (l : InorderTiming) → InorderStandsFor s l self.old
            → IsSmall l.timing → InorderStandsFor s (timing_inorder_execute s l).inorder self.new }
        ensures orders { (s : RunSetup) (l : InorderTiming) → InorderStandsFor s l self.old
            → IsSmall l.timing → orders_in result ≡ (timing_inorder_execute s l).orders }
    {
        let Some(leaving) = in_execute(self.core.flight()) else {
            return Orders::none();
        };
        if !self.may_go_on(&leaving) {
            return Orders::none();
        }
        self.go_on(&leaving)
    }

    /// Whether Memory is empty and the slot's latency over.
    fn may_go_on(&self, leaving: &Executing) -> bool
        ensures may { (s : RunSetup) (l : InorderTiming) → InorderStandsFor s l self.now
            → result ≡ may_move l (executing_as leaving.now) }
    {
        self.memory.is_none() && leaving.from <= self.core.cycle()
    }

    /// The slot in Execute goes on to Memory.
    #[inline(always)]
    fn go_on(&mut self, leaving: &Executing) -> Orders
        requires first { IsFirst self.old.core.flight.slots leaving.now.place leaving.now.slot
            leaving.now.from }
        requires all { IsSnapshot (executes_at self.old.core.flight.slots)
            (leaving.now.place + 1) leaving.now.later }
        ensures kept { (s : RunSetup) (l : InorderTiming) → InorderStandsFor s l self.old
            → IsSmall l.timing
            → InorderStandsFor s (moved s (executing_as leaving.now) l).inorder self.new }
        ensures orders { (s : RunSetup) (l : InorderTiming) → InorderStandsFor s l self.old
            → IsSmall l.timing
            → orders_in result ≡ (moved s (executing_as leaving.now) l).orders }
    {
        let added = self.core.access(&leaving.slot);
        let latency = memory_latency(self.core.params(), leaving.slot.class);
        let end = self
            .core
            .cycle()
            .wrapping_add(u64::from(latency))
            .wrapping_add(u64::from(added));
        self.memory = Some(end);
        self.core
            .complete_first(leaving.place, &leaving.slot, leaving.later, leaving.from)
    }

    /// The fifth phase: the slot in Decode goes on to Execute. But where the oldest reads the time
    /// and was given none, it is sent back to fetch for it.
    #[inline(always)]
    pub fn issue(&mut self) -> Orders
        ensures kept { (s : RunSetup) (l : InorderTiming) → InorderStandsFor s l self.old
            → IsSmall l.timing → InorderStandsFor s (timing_inorder_issue s l).inorder self.new }
        ensures orders { (s : RunSetup) (l : InorderTiming) → InorderStandsFor s l self.old
            → IsSmall l.timing → orders_in result ≡ (timing_inorder_issue s l).orders }
    {
        let orders = self.replay_or_issue();
        self.clear_memory();
        orders
    }

    /// The same, with Memory as it was.
    #[inline(always)]
    fn replay_or_issue(&mut self) -> Orders
        ensures kept { (s : RunSetup) (l : InorderTiming) → InorderStandsFor s l self.old
            → IsSmall l.timing → CoreStandsFor s (issue_phase s l).timing self.new.core }
        ensures memory { self.new.memory ≡ self.old.memory }
        ensures orders { (s : RunSetup) (l : InorderTiming) → InorderStandsFor s l self.old
            → IsSmall l.timing → orders_in result ≡ (issue_phase s l).orders }
    {
        if self.wants_time() {
            return self.core.replay();
        }
        self.issue_youngest();
        Orders::none()
    }

    /// Whether the oldest slot is past fetch, reads the time and was given none.
    fn wants_time(&self) -> bool
        ensures wanted { (s : RunSetup) (l : InorderTiming) → InorderStandsFor s l self.now
            → result ≡ wants_time l.timing }
    {
        match self.core.flight().oldest() {
            Some(slot) => is_past_fetch(&slot, self.core.cycle()) && slot.unserved,
            None => false,
        }
    }

    /// The youngest slot, where it is in Decode, goes on to Execute if it may.
    #[inline(always)]
    fn issue_youngest(&mut self)
        ensures kept { (s : RunSetup) (l : InorderTiming) → InorderStandsFor s l self.old
            → IsSmall l.timing → CoreStandsFor s (issued s l) self.new.core }
        ensures memory { self.new.memory ≡ self.old.memory }
    {
        let count = self.core.flight().len();
        if count == 0 {
            return;
        }
        let place = count - 1;
        let slot = self.core.flight().at(place);
        if !self.may_issue(place, &slot) {
            return;
        }
        let latency = execute_latency(self.core.params(), slot.class);
        let until = self.core.cycle().wrapping_add(u64::from(latency));
        self.core.begin(place, until);
    }

    /// Whether the youngest slot, at this place, goes on: Execute is empty, its operands have
    /// values and its class allows it.
    #[inline(always)]
    fn may_issue(&self, place: u32, slot: &Slot) -> bool
        requires there { slice_get self.now.core.flight.slots place ≡ Some slot.now }
        requires last { length self.now.core.flight.slots ≡ place + 1 }
        ensures may { (s : RunSetup) (l : InorderTiming) → InorderStandsFor s l self.now
            → result ≡ may_issue l (older_at l.timing.slots place) slot.now }
        ensures waits { result ≡ true → slot.now.state ≡ Waiting }
    {
        if !is_past_fetch(slot, self.core.cycle()) {
            return false;
        }
        if !self.is_idle() {
            return false;
        }
        self.has_operands(place, slot) && self.core.class_allows(place, slot)
    }

    /// Whether Execute is empty.
    fn is_idle(&self) -> bool
        ensures idle { result ≡ is_none (in_execute self.now.core.flight.slots) }
    {
        executing_place(self.core.flight()).is_none()
    }

    /// Whether the sources of the slot at a place have values, if it waits.
    #[inline(always)]
    fn has_operands(&self, place: u32, slot: &Slot) -> bool
        requires there { slice_get self.now.core.flight.slots place ≡ Some slot.now }
        ensures operands { is_waiting_state slot.now.state ≡ true → result
            ≡ has_operands (found_in_order self.now.memory
            (older_at self.now.core.flight.slots place)) slot.now }
    {
        self.is_ready(place) && !self.waits_for_load(place, slot)
    }

    /// Whether the slot at a place waits and has its operands.
    #[inline(always)]
    fn is_ready(&self, place: u32) -> bool
        ensures ready { result ≡ may_start_at self.now.core.flight.slots place }
    {
        self.core.flight().is_sought(Sought::Ready, place)
    }

    /// Whether the slot at a place reads what a load in Memory, which has no value yet, writes.
    fn waits_for_load(&self, place: u32, slot: &Slot) -> bool
        requires there { slice_get self.now.core.flight.slots place ≡ Some slot.now }
        ensures waits { result ≡ waits_for_load self.now.memory
            (older_at self.now.core.flight.slots place) slot.now }
    {
        if self.memory.is_none() {
            return false;
        }
        if place == 0 {
            return false;
        }
        let flight = self.core.flight();
        is_load(flight.at(place - 1).class) && flight.reads_from(place, place - 1)
    }

    /// Whether the sixth phase may try to fetch: fetch isn't waiting for a miss, and Decode is
    /// empty.
    pub fn may_fetch(&self) -> bool
        ensures may { (s : RunSetup) (l : InorderTiming) → InorderStandsFor s l self.now
            → result ≡ timing_inorder_may_fetch l.timing }
    {
        self.core.has_resumed() && self.core.flight().waiting() == 0
    }

    /// The sixth phase: one try of fetch.
    #[inline(always)]
    pub fn fetch(&mut self, entry: &Entry) -> Tried
        requires room { length self.old.core.flight.slots < self.old.core.flight.capacity }
        requires next { IfSome (youngest self.old.core.flight.slots)
            (λ last. entry.now.number ≡ last.number + 1) }
        ensures kept { (s : RunSetup) (l : InorderTiming) → InorderStandsFor s l self.old
            → IsSmall l.timing → InorderStandsFor s
            (record l { timing = (timing_try s entry.now l.timing).phase.timing }) self.new }
        ensures orders { (s : RunSetup) (l : InorderTiming) → InorderStandsFor s l self.old
            → IsSmall l.timing
            → orders_in result.orders ≡ (timing_try s entry.now l.timing).phase.orders }
        ensures appended { (s : RunSetup) (l : InorderTiming) → InorderStandsFor s l self.old
            → IsSmall l.timing → result.appended
            ≡ not ((timing_try s entry.now l.timing).phase.timing.counts.fetched
            == l.timing.counts.fetched) }
    {
        self.core.fetch(entry)
    }

    /// The end of a cycle.
    pub fn end_cycle(&mut self)
        ensures kept { (s : RunSetup) (l : InorderTiming) → InorderStandsFor s l self.old
            → IsSmall l.timing
            → InorderStandsFor s (record l { timing = timing_end_of_cycle s l.timing }) self.new }
    {
        self.core.end_cycle();
    }
}

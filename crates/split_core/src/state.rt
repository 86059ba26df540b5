ghost use Rattle.std.specs.Prelude.{◌≡◌, ℕ, true, false, map, IfOk};

use crate::event::Event;
use crate::timing::Timing;
use circular_buffer::HeapCircularBuffer;
use device_bus::Device;
use fsim_base::NoMemory;
use func_model::FuncSide;
use mono_model::{Final, Setup};
use rollback_cmds::{ORDER_ROOM, Order};
use std::alloc::Global;
use trace_entry::Entry;

/// Both sides, and what is under way between them.
#[derive(Drop)]
pub struct SplitState<D: Device, T: Timing> {
    /// The functional side.
    pub func: FuncSide<D>,
    /// The timing side.
    pub time: T,
    /// Entries on their way to the timing side, the oldest first.
    pub entries: HeapCircularBuffer<Entry>,
    /// Orders on their way to the functional side, the oldest first.
    pub listed_orders: HeapCircularBuffer<Order>,
    /// The entry that was computed and not pushed yet.
    pub computed: Option<Entry>,
    /// The order that was told and not sent yet.
    pub hand: Option<Order>,
    /// A boundary is never further than so many rounds.
    pub rounds: u32,
    /// No run has more steps of the timing side.
    pub steps: u64,
    /// Whether the functional side was stopped for the report.
    pub is_reported: bool,
}

impl<D: Device, T: Timing> SplitState<D, T> {
    ghost use Rattle.std.specs.Prelude.{if◌then◌else◌, ◌&&◌, ◌==◌, is_none, length};
    ghost use Rattle.device_bus.specs.Bus.{device_order};
    ghost use Rattle.mono_model.specs.Split.{compute, push, obey, tick, take, send};
    ghost use Rattle.mono_model.specs.Split.{is_place_boundary};
    ghost use Rattle.split_core.specs.Events.{event_in};
    ghost use Rattle.mono_model.specs.declared.setup.Setup.{Setup as RunSetup};
    ghost use Rattle.mono_model.specs.Path.{path};
    ghost use Rattle.split_core.specs.Along.{At, IsReachedOn};
    ghost use Rattle.split_core.specs.Along.{start_at, event_on, played_on, round_on, rounds_on};
    ghost use Rattle.split_core.specs.Standing.{StandsOn, LeadsOn, EndsOn, TellsBoundaryOn};
    ghost use Rattle.split_core.specs.Standing.{IsStandingOn, IsAtBoundaryOn, ReportsOn};
    ghost use Rattle.split_core.specs.Standing.{GoesBackOn};

    /// Both sides at the start of a run, with nothing under way. All memory of the run is taken
    /// here.
    pub fn new(alloc: Global, setup: &Setup, devices: Vec<D>) -> Result<SplitState<D, T>, NoMemory>
        requires sound { T.timed.allows setup.now }
        requires order { map D.kind devices.items ≡ device_order }
        ensures stands { IfOk result (λ state. StandsOn T.timed setup.now (start_at setup.now)
            state) }
    {
        let func = FuncSide::new(alloc, setup, devices)?;
        let time = T::new(alloc, setup)?;
        let Ok(entries) = HeapCircularBuffer::with_capacity(alloc, setup.ring as usize) else {
            return Err(NoMemory);
        };
        let Ok(listed_orders) = HeapCircularBuffer::with_capacity(alloc, ORDER_ROOM) else {
            return Err(NoMemory);
        };
        Ok(SplitState {
            func,
            time,
            entries,
            listed_orders,
            computed: None,
            hand: None,
            rounds: T::most_rounds(setup),
            steps: T::most_steps(setup),
            is_reported: false,
        })
    }

    /// The functional side computes the entry at its position, if none is computed and it isn't at
    /// rest.
    pub fn compute(&mut self)
        requires standing { IsStandingOn T.timed self.old }
        ensures computed { LeadsOn T.timed (λ s. event_on s (T.timed.run s) compute)
            self.old self.new }
    {
        if self.computed.is_none() {
            self.computed = self.func.produce();
        }
    }

    /// The computed entry goes to the end of the entries under way, if it has room there.
    pub fn push(&mut self)
        ensures pushed { LeadsOn T.timed (λ s. event_on s (T.timed.run s) push) self.old self.new }
    {
        if let Some(entry) = self.computed {
            if self.entries.try_push_back(entry).is_ok() {
                self.computed = None;
            }
        }
    }

    /// The functional side obeys the oldest order under way, if there is one. Where that opens an
    /// epoch, the computed entry is of no use any more.
    pub fn obey(&mut self)
        requires standing { IsStandingOn T.timed self.old }
        ensures obeyed { LeadsOn T.timed (λ s. event_on s (T.timed.run s) obey) self.old self.new }
    {
        if let Some(order) = self.listed_orders.pop_front() {
            self.func.obey(order);
            if order.opens_epoch() {
                self.computed = None;
            }
        }
    }

    /// The timing side makes a step, if no order is in hand.
    pub fn tick(&mut self)
        ensures stepped { LeadsOn T.timed (λ s. event_on s (T.timed.run s) tick) self.old self.new }
    {
        if self.hand.is_none() {
            self.hand = self.time.step().order();
        }
    }

    /// The timing side takes the oldest entry under way, if it wants one and there is one.
    pub fn take(&mut self)
        requires standing { IsStandingOn T.timed self.old }
        ensures taken { LeadsOn T.timed (λ s. event_on s (T.timed.run s) take) self.old self.new }
    {
        if self.time.wants() {
            if let Some(entry) = self.entries.pop_front() {
                self.time.take(&entry);
            }
        }
    }

    /// The order in hand goes to the end of the orders under way, if it has room there.
    pub fn send(&mut self)
        ensures sent { LeadsOn T.timed (λ s. event_on s (T.timed.run s) send) self.old self.new }
    {
        if let Some(order) = self.hand {
            if self.listed_orders.try_push_back(order).is_ok() {
                self.hand = None;
            }
        }
    }

    /// Plays an event.
    fn play_event(&mut self, event: Event)
        requires standing { IsStandingOn T.timed self.old }
        ensures played { LeadsOn T.timed (λ s. event_on s (T.timed.run s) (event_in event)) self.old
            self.new }
    {
        match event {
            Event::Compute => self.compute(),
            Event::Push => self.push(),
            Event::Obey => self.obey(),
            Event::Tick => self.tick(),
            Event::Take => self.take(),
            Event::Send => self.send(),
        }
    }

    /// Plays events, the first in front.
    pub fn play(&mut self, events: &[Event])
        requires standing { IsStandingOn T.timed self.old }
        ensures played { LeadsOn T.timed
            (λ s. played_on s (T.timed.run s) (map event_in events.now)) self.old self.new }
    {
        for event in events {
            self.play_event(*event);
        }
    }

    /// Whether a cycle starts or the run is over, with no order in hand or under way.
    pub fn at_boundary(&self) -> bool
        ensures boundary { TellsBoundaryOn T.timed self.now result }
    {
        self.time.at_boundary() && self.is_level()
    }

    /// Whether no order is in hand or under way.
    fn is_level(&self) -> bool
        ensures level { result
            ≡ (is_none self.now.hand && (length self.now.listed_orders.items == 0)) }
    {
        self.hand.is_none() && self.listed_orders.is_empty()
    }

    /// A round of events, which leaves out the step of the timing side where that stands at a
    /// boundary.
    fn round(&mut self)
        requires standing { IsStandingOn T.timed self.old }
        ensures played { LeadsOn T.timed (λ s. round_on s (T.timed.run s)) self.old self.new }
    {
        self.obey();
        self.compute();
        self.push();
        self.take();
        self.tick_within_cycle();
        self.send();
    }

    /// The timing side makes a step, if it isn't at a boundary.
    fn tick_within_cycle(&mut self)
        ensures stepped { LeadsOn T.timed (λ s x. if is_place_boundary x.split.place then x else
            event_on s (T.timed.run s) tick x)
            self.old self.new }
    {
        if !self.time.at_boundary() {
            self.tick();
        }
    }

    /// Plays rounds until it is at a boundary.
    pub fn to_boundary(&mut self)
        requires standing { IsStandingOn T.timed self.old }
        ensures stands { LeadsOn T.timed (λ s. rounds_on s (T.timed.run s) (T.timed.rounds s))
            self.old self.new }
    {
        for _ in 0..self.rounds {
            if self.at_boundary() {
                return;
            }
            self.round();
        }
    }

    /// Plays from boundary to boundary until the run is over, and the functional side has obeyed
    /// the last order.
    pub fn to_end(&mut self)
        requires standing { IsStandingOn T.timed self.old }
        ensures ended { EndsOn T.timed self.old self.new }
    {
        for _ in 0..self.steps {
            self.to_boundary();
            if self.func.stopped() {
                return;
            }
            self.tick();
        }
        self.to_boundary();
    }

    /// What is committed of the output.
    pub fn committed_output(&self) -> &[u8]
        ensures output { (s : RunSetup) (x : At) → T.timed.allows s
            → IsReachedOn s (T.timed.run s) x → StandsOn T.timed s x self.now
            → result.now ≡ (path s x.split.obeyed x.split.committed_number).output }
    {
        self.func.committed_output()
    }

    /// What is reported at a boundary: the functional side goes back to what is committed, and
    /// stays there.
    pub fn committed(&mut self) -> Final
        requires boundary { IsAtBoundaryOn T.timed self.old }
        ensures reported { ReportsOn T.timed self.old result }
        ensures contents { GoesBackOn T.timed self.old self.new }
        ensures over { self.new.is_reported ≡ true }
    {
        let number = self.func.committed();
        self.func.obey(Order::Stop { n: number });
        self.is_reported = true;
        let arch = self.func.arch();
        arch.reported(self.time.end(), self.time.stats())
    }
}

ghost use Rattle.std.specs.Prelude.{◌≡◌};
ghost use Rattle.split_core.specs.Plays.{Plays, IsClear};
ghost use Rattle.split_core.specs.InCycle.{ComesOut};
ghost use Rattle.split_core.specs.Standing.{IsStandingOn};

use crate::state::SplitState;
use crate::timing::Timing;
use device_bus::Device;
use time_model::Turn;
use trace_entry::Entry;

/// The run on demand: an entry is computed only where the timing side wants it, and an order is
/// obeyed as soon as it is told. So nothing is computed for nothing, whatever room there is between
/// the sides.
impl<D: Device, T: Timing> SplitState<D, T> {
    ghost use Rattle.std.specs.Prelude.{true};

    /// Plays so many turns, or fewer where the functional side has obeyed the last order before. A
    /// turn is at least one step of the timing side, up to one that tells an order or wants an
    /// entry.
    pub fn play_on_demand(&mut self, turns: u64)
        requires standing { IsStandingOn T.timed self.old }
        ensures plays { Plays T.timed self.old self.new }
    {
        for _ in 0..turns {
            if self.func.stopped() {
                return;
            }
            if self.is_clear() {
                self.play_clear(turns);
                return;
            }
            self.play_step();
        }
    }

    /// Whether nothing is under way between the sides.
    pub(crate) fn is_clear(&self) -> bool
        ensures clear { result ≡ true → IsClear self.now }
    {
        self.computed.is_none()
            && self.hand.is_none()
            && self.entries.is_empty()
            && self.listed_orders.is_empty()
    }

    /// A step of the timing side, behind the entry that it wants, and the order that it tells.
    fn play_step(&mut self)
        requires standing { IsStandingOn T.timed self.old }
        ensures plays { Plays T.timed self.old self.new }
    {
        self.bring_entry();
        self.tick();
        self.send();
        self.obey();
    }

    /// Brings the timing side the next entry, if it wants one: the oldest under way, or the next
    /// one computed.
    fn bring_entry(&mut self)
        requires standing { IsStandingOn T.timed self.old }
        ensures plays { Plays T.timed self.old self.new }
    {
        if self.time.wants() {
            self.list_entry();
            self.take();
        }
    }

    /// Computes the next entry where none is under way.
    fn list_entry(&mut self)
        requires standing { IsStandingOn T.timed self.old }
        ensures plays { Plays T.timed self.old self.new }
    {
        if self.entries.is_empty() {
            self.compute();
            self.push();
        }
    }

    /// Plays so many turns with nothing under way, or fewer where the run is over before. An order
    /// is obeyed right where its turn is told apart from the others, so that no turn is looked at
    /// twice.
    fn play_clear(&mut self, turns: u64)
        requires standing { IsStandingOn T.timed self.old }
        requires clear { IsClear self.old }
        ensures plays { Plays T.timed self.old self.new }
    {
        let mut entry = Entry::BLANK;
        for _ in 0..turns {
            match self.time.run() {
                Turn::Halted => return,
                Turn::Want => self.hand_over_wanted(&mut entry),
                Turn::Ordered(order) => self.func.obey(order),
                Turn::Moved | Turn::CycleEnd => {}
            }
        }
    }

    /// Hands the timing side one entry after the other as it is computed, each written over the one
    /// before it, as long as it wants the next one: as where they go through the list of entries,
    /// with none before them. An order that the steps with an entry tell is obeyed at once.
    pub(crate) fn hand_over_wanted(&mut self, entry: &mut Entry)
        requires standing { IsStandingOn T.timed self.old }
        requires clear { IsClear self.old }
        requires wants { T.timed.wants self.old.time ≡ true }
        ensures plays { Plays T.timed self.old self.new }
        ensures out { ComesOut T.timed self.old self.new }
        ensures clear { IsClear self.new }
    {
        for _ in 0..self.steps {
            if !self.func.produce_into(entry) {
                return;
            }
            match self.time.feed_own(entry) {
                Turn::Want => {}
                Turn::Ordered(order) => {
                    self.func.obey(order);
                    return;
                }
                Turn::Moved | Turn::CycleEnd | Turn::Halted => return,
            }
        }
    }
}

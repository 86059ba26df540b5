ghost use Rattle.std.specs.Prelude.{◌≡◌, ◌&&◌, ℕ, true, false, Some, None, IfOk};
ghost use Rattle.std.specs.Prelude.{is_none, IfSome, IfNone};

use crate::pipeline::Pipeline;
use crate::telling::Telling;
use crate::turn::Turn;
use fsim_base::NoMemory;
use mono_model::Setup;
use rollback_cmds::Order;
use std::alloc::Global;
use timing_core::Orders;
use trace_entry::Entry;

/// No run of a timing side makes more strides in one call.
pub const STRIDES: u32 = 64;

/// With fewer strides left than these, the ones before told no order, and a run looks for cycles in
/// which nothing happens.
const PATIENT: u32 = STRIDES - 3;

/// The parts of a timing side.
#[derive(Drop)]
pub struct TimingState<P, A> {
    /// The pipeline, whose phases the turns are.
    pub pipeline: P,
    /// The turn that comes next.
    pub at: A,
    /// What is still to be told, and the entry that has arrived.
    pub telling: Telling,
}

impl<P, A> TimingState<P, A>
where
    P: Pipeline<At = A>,
    A: Copy,
{
    ghost use Rattle.std.specs.Prelude.{◌≢◌, unwrap_or};
    ghost use Rattle.mono_model.specs.declared.setup.Setup.{Setup as RunSetup};
    ghost use Rattle.mono_model.specs.Demand.{is_try};
    ghost use Rattle.mono_model.specs.Split.{is_cycle_start};
    ghost use Rattle.time_model.specs.declared.turn.Turn.TheVariants.{Ordered, Want};
    ghost use Rattle.time_model.specs.Turns.{told_or, untold_by, is_ending};
    ghost use Rattle.time_model.specs.Standing.{SideStandsFor, IsStanding, wants_in, over_in};
    ghost use Rattle.time_model.specs.Standing.{ends_in};
    ghost use Rattle.time_model.specs.Turning.{IsTold, placed};
    ghost use Rattle.time_model.specs.Running.{IsRun, IsSilent, Steps, IsInner, IsRunInCycle};
    ghost use Rattle.time_model.specs.Feeding.{holding};

    /// Before the first step of a run. All memory is taken here.
    pub fn new(alloc: Global, setup: &Setup) -> Result<TimingState<P, A>, NoMemory>
        requires sound { P.piped.allows setup.now }
        ensures stands { IfOk result (λ side. SideStandsFor P.piped setup.now 0 side) }
        ensures empty { IfOk result (λ side. side.telling.held ≡ None) }
    {
        let pipeline = P::new(alloc, setup)?;
        Ok(TimingState {
            pipeline,
            at: P::first(),
            telling: Telling::new(),
        })
    }

    /// Whether a cycle starts here, or the run has ended, with all orders told.
    pub fn at_boundary(&self) -> bool
        ensures boundary { result
            ≡ (is_none self.now.telling.owed && is_cycle_start (P.piped.seen self.now.at)) }
    {
        self.telling.owed.is_none() && P::is_cycle_start(self.at)
    }

    /// Whether the step that comes next is a try whose entry is needed.
    #[tactic(auto, unfolding(crate::specs::Standing::wants_in))]
    pub fn wants(&self) -> bool
        ensures wants { result ≡ wants_in P.piped self.now }
        ensures stays { result ≡ true → Steps P.piped self.now self.now Want }
    {
        self.telling.owed.is_none() && P::is_try(self.at) && self.telling.held.is_none()
    }

    /// Whether the run is over, and all is told.
    fn is_told_out(&self) -> bool
        requires free { wants_in P.piped self.now ≡ false }
        ensures over { result ≡ over_in P.piped self.now }
        ensures stays { result ≡ true → Steps P.piped self.now self.now Turn.Halted }
    {
        self.telling.owed.is_none() && P::is_halted(self.at)
    }

    /// Tries to fetch the instruction of the held entry. It stays a call: no stride makes a try,
    /// and a turn with it would be too large to go inline.
    #[inline(never)]
    fn attempt(&mut self, next: &mut A) -> Orders
        requires free { self.old.telling.owed ≡ None }
        requires standing { IsStanding P.piped (placed next.old self.old) }
        requires holds { wants_in P.piped (placed next.old self.old) ≡ false }
        requires tries { is_try (P.piped.seen next.old) ≡ true }
        ensures due { (s : RunSetup) (k : ℕ) → P.piped.allows s
            → SideStandsFor P.piped s k (placed next.old self.old)
            → IsTold P.piped s k (placed next.old self.old) (placed next.new self.new) result }
        ensures others { self.new
            ≡ record self.old {
              pipeline = self.new.pipeline;
              telling = record self.old.telling { held = self.new.telling.held };
            } }
    {
        let entry = self.telling.held.as_ref().unwrap();
        match self.pipeline.fetch(next, entry) {
            Some(fetched) => {
                self.telling.spend(fetched.appended);
                fetched.orders
            }
            None => {
                self.telling.spend(true);
                Orders {
                    first: None,
                    second: None,
                }
            }
        }
    }

    /// The orders of the turn that comes next, which is made, where none is owed.
    #[inline(always)]
    fn turn_due(&mut self, next: &mut A) -> Orders
        requires free { self.old.telling.owed ≡ None }
        requires standing { IsStanding P.piped (placed next.old self.old) }
        requires holds { wants_in P.piped (placed next.old self.old) ≡ false }
        requires goes { over_in P.piped (placed next.old self.old) ≡ false }
        ensures due { (s : RunSetup) (k : ℕ) → P.piped.allows s
            → SideStandsFor P.piped s k (placed next.old self.old)
            → IsTold P.piped s k (placed next.old self.old) (placed next.new self.new) result }
        ensures others { self.new
            ≡ record self.old {
              pipeline = self.new.pipeline;
              telling = record self.old.telling { held = self.new.telling.held };
            } }
    {
        if P::is_try(*next) {
            self.attempt(next)
        } else {
            self.pipeline.turn(next)
        }
    }

    /// The orders that stand to be told: the owed one, or else those of the turn that comes next,
    /// which is made.
    #[inline(always)]
    fn due(&mut self, next: &mut A) -> Orders
        requires standing { IsStanding P.piped (placed next.old self.old) }
        requires holds { wants_in P.piped (placed next.old self.old) ≡ false }
        requires goes { over_in P.piped (placed next.old self.old) ≡ false }
        ensures due { (s : RunSetup) (k : ℕ) → P.piped.allows s
            → SideStandsFor P.piped s k (placed next.old self.old)
            → IsTold P.piped s k (placed next.old self.old) (placed next.new self.new) result }
        ensures others { self.new
            ≡ record self.old {
              pipeline = self.new.pipeline;
              telling = record self.old.telling { owed = None; held = self.new.telling.held };
            } }
    {
        match self.telling.owed {
            Some(order) => {
                self.telling.owed = None;
                Orders::one(order)
            }
            None => self.turn_due(next),
        }
    }

    /// Tells the order that is owed, or else makes the turn that comes next and tells its first. It
    /// stays a call: a stride makes most turns, and inline they would all stand there once more.
    #[inline(never)]
    fn advance(&mut self) -> Option<Order>
        requires standing { IsStanding P.piped self.old }
        requires holds { wants_in P.piped self.old ≡ false }
        requires goes { over_in P.piped self.old ≡ false }
        ensures made { Steps P.piped self.old self.new
            (told_or result (untold_by (is_ending (P.piped.seen self.old.at)))) }
        ensures standing { IsStanding P.piped self.new }
    {
        let mut next = self.at;
        let orders = self.due(&mut next);
        self.at = next;
        self.telling.tell(orders)
    }

    /// What [`TimingState::advance`] tells. It goes inline and is a function of its own, since the
    /// place of a call's result is cleared where a function begins: in a stride that would be done
    /// each time, and the call is rare.
    #[inline(always)]
    fn tell_owed(&mut self) -> Option<Order>
        requires standing { IsStanding P.piped self.old }
        requires holds { wants_in P.piped self.old ≡ false }
        requires goes { over_in P.piped self.old ≡ false }
        ensures made { Steps P.piped self.old self.new
            (told_or result (untold_by (is_ending (P.piped.seen self.old.at)))) }
        ensures standing { IsStanding P.piped self.new }
    {
        let order = self.advance()?;
        Some(order)
    }

    /// Makes some of the steps that come next, or none, up to the first that tells an order, and
    /// tells that. The turn that comes next is kept in a local variable, and stored where the
    /// stride ends.
    #[inline(always)]
    #[tactic(auto, unfolding(crate::specs::Standing::wants_in))]
    fn stride(&mut self) -> Option<Order>
        requires standing { IsStanding P.piped self.old }
        ensures told { IfSome result (λ order.
            IsRun (Steps P.piped) self.old self.new (Ordered order)) }
        ensures untold { IfNone result (IsSilent (Steps P.piped) self.old self.new) }
        ensures standing { IsStanding P.piped self.new }
    {
        if self.telling.owed.is_some() {
            return self.tell_owed();
        }
        let mut next = self.at;
        let orders = self.pipeline.stride(&mut next);
        self.at = next;
        self.telling.tell(orders)
    }

    /// The same, where the next step ends no cycle: it stays within the cycle.
    #[inline(always)]
    #[tactic(auto, unfolding(crate::specs::Standing::wants_in))]
    fn stride_in_cycle(&mut self) -> Option<Order>
        requires standing { IsStanding P.piped self.old }
        requires inner { ends_in P.piped self.old ≡ false }
        ensures told { IfSome result (λ order.
            IsRun (IsInner P.piped) self.old self.new (Ordered order)) }
        ensures untold { IfNone result (IsSilent (IsInner P.piped) self.old self.new) }
        ensures standing { IsStanding P.piped self.new }
    {
        if self.telling.owed.is_some() {
            return self.tell_owed();
        }
        let mut next = self.at;
        let orders = self.pipeline.phases(&mut next);
        self.at = next;
        self.telling.tell(orders)
    }

    /// Passes over cycles after this one in which nothing happens, where it stands at the end of
    /// one. It stays a call: inline a run would be so large that the kit's compiler leaves it a
    /// call.
    #[inline(never)]
    fn pass_idle(&mut self)
        requires standing { IsStanding P.piped self.old }
        ensures silent { IsSilent (Steps P.piped) self.old self.new }
        ensures standing { IsStanding P.piped self.new }
    {
        if P::ends_cycle(self.at) && self.telling.owed.is_none() {
            self.pipeline.pass_idle(self.at);
        }
    }

    /// Makes one step of the demand run, if the entry that it needs is held. The result is what it
    /// did, and None where it was made and told no order.
    fn step(&mut self) -> Option<Turn>
        requires standing { IsStanding P.piped self.old }
        ensures made { Steps P.piped self.old self.new
            (unwrap_or result (untold_by (is_ending (P.piped.seen self.old.at)))) }
        ensures waiting { result ≡ Some Want → wants_in P.piped self.new ≡ true }
        ensures standing { IsStanding P.piped self.new }
    {
        if self.wants() {
            return Some(Turn::Want);
        }
        if self.is_told_out() {
            return Some(Turn::Halted);
        }
        self.step_on()
    }

    /// The same, where an entry isn't needed or is held, and the run isn't over. It goes inline and
    /// is a function of its own: the place of the call's result is cleared where a function begins.
    #[inline(always)]
    fn step_on(&mut self) -> Option<Turn>
        requires standing { IsStanding P.piped self.old }
        requires holds { wants_in P.piped self.old ≡ false }
        requires goes { over_in P.piped self.old ≡ false }
        ensures made { Steps P.piped self.old self.new
            (unwrap_or result (untold_by (is_ending (P.piped.seen self.old.at)))) }
        ensures told { result ≢ Some Want }
        ensures standing { IsStanding P.piped self.new }
    {
        let order = self.advance()?;
        Some(Turn::Ordered(order))
    }

    /// Makes steps of the demand run, up to the first that isn't made or tells an order: at most so
    /// many strides, after each of them at most one step, or cycles in which nothing happens. Of
    /// no strides it makes one step. It goes inline where a run is played: an order ends it, and
    /// most cycles tell one.
    #[inline(always)]
    pub fn run(&mut self, strides: u32) -> Turn
        requires standing { IsStanding P.piped self.old }
        ensures made { IsRun (Steps P.piped) self.old self.new result }
        ensures waiting { result ≡ Want → wants_in P.piped self.new ≡ true }
        ensures single { strides ≡ 0 → Steps P.piped self.old self.new result }
        ensures standing { IsStanding P.piped self.new }
    {
        let mut left = strides;
        loop {
            if left > 0 {
                left -= 1;
                if let Some(order) = self.stride() {
                    return Turn::Ordered(order);
                }
                if P::ends_cycle(self.at) {
                    if left < PATIENT {
                        self.pass_idle();
                    }
                    continue;
                }
            }
            // Steps are made here alone, so that one goes inline.
            let ends = P::ends_cycle(self.at);
            if let Some(turn) = self.step() {
                return turn;
            }
            if left == 0 {
                return if ends { Turn::CycleEnd } else { Turn::Moved };
            }
        }
    }

    /// Whether the next step ends a cycle.
    fn ends_cycle(&self) -> bool
        ensures ends { result ≡ ends_in P.piped self.now }
    {
        self.telling.owed.is_none() && P::ends_cycle(self.at)
    }

    /// Makes steps of the demand run as [`TimingState::run`] does, but none after the end of a
    /// cycle.
    #[inline(always)]
    pub fn run_in_cycle(&mut self) -> Turn
        requires standing { IsStanding P.piped self.old }
        ensures made { IsRunInCycle P.piped self.old self.new result }
        ensures waiting { result ≡ Want → wants_in P.piped self.new ≡ true }
        ensures standing { IsStanding P.piped self.new }
    {
        if self.ends_cycle() {
            return self.single_step();
        }
        if let Some(order) = self.stride_in_cycle() {
            return Turn::Ordered(order);
        }
        self.single_step()
    }

    /// Makes one step of the demand run, if the entry that it needs is held. The result is what it
    /// did.
    fn single_step(&mut self) -> Turn
        requires standing { IsStanding P.piped self.old }
        ensures made { Steps P.piped self.old self.new result }
        ensures waiting { result ≡ Want → wants_in P.piped self.new ≡ true }
        ensures standing { IsStanding P.piped self.new }
    {
        let ends = P::ends_cycle(self.at);
        if let Some(what) = self.step() {
            return what;
        }
        if ends { Turn::CycleEnd } else { Turn::Moved }
    }

    /// Makes the try that comes next with the entry that it needs, as if that were held; and tells
    /// that the step after it wants an entry where it does.
    #[inline(always)]
    pub fn feed(&mut self, entry: &Entry) -> Turn
        requires wants { wants_in P.piped self.old ≡ true }
        requires standing { IsStanding P.piped (holding entry.now self.old) }
        ensures made { IsRunInCycle P.piped (holding entry.now self.old) self.new result }
        ensures waiting { result ≡ Want → wants_in P.piped self.new ≡ true }
        ensures standing { IsStanding P.piped self.new }
    {
        let Some(orders) = self.attempt_at_once(entry) else {
            return Turn::Want;
        };
        match self.telling.tell(orders) {
            Some(order) => Turn::Ordered(order),
            None => Turn::Moved,
        }
    }

    /// Tries to fetch the instruction of an entry that isn't held yet. The result is None where it
    /// made no order and another try comes after it. The entry is held where it wasn't appended.
    /// It goes inline where a run is played, on one thread and in two: as a call it takes a tenth
    /// of a run more.
    #[inline(always)]
    fn attempt_at_once(&mut self, entry: &Entry) -> Option<Orders>
        requires wants { wants_in P.piped self.old ≡ true }
        requires standing { IsStanding P.piped (holding entry.now self.old) }
        ensures due { (s : RunSetup) (k : ℕ) → P.piped.allows s
            → SideStandsFor P.piped s k (holding entry.now self.old)
            → IsTold P.piped s k (holding entry.now self.old) self.new
            (unwrap_or result (record { first = None; second = None })) }
        ensures again { IfNone result (is_try (P.piped.seen self.new.at) ≡ true) }
        ensures free { IfNone result (self.new.telling.held ≡ None) }
        ensures others { self.new
            ≡ record self.old {
              pipeline = self.new.pipeline;
              at = self.new.at;
              telling = record self.old.telling { held = self.new.telling.held };
            } }
    {
        let Some(fetched) = self.pipeline.fetch(&mut self.at, entry) else {
            return None;
        };
        self.telling.keep(entry, fetched.appended);
        Some(fetched.orders)
    }
}

ghost use Rattle.std.specs.Prelude.{◌≡◌};
ghost use Rattle.mono_model.specs.declared.setup.Setup.{Setup as RunSetup};
ghost use Rattle.inorder_side.specs.Timing.{InorderTiming};
ghost use Rattle.inorder_side.specs.Turn.{at_after_write, at_after_issue, at_after_end};
ghost use Rattle.inorder_model.specs.At.{at_in};
ghost use Rattle.inorder_model.specs.InorderStandsFor.{InorderStandsFor};

use crate::at::At;
use crate::bounds;
use crate::timing::InorderTimingCore;
use fsim_base::NoMemory;
use mono_model::Setup;
use rollback_cmds::Order;
use split_core::Bounded;
use std::alloc::Global;
use time_model::{Fetched, Phase, Pipeline, TimingSide, over};
use timing_core::{Orders, TimingCore};
use trace_entry::Entry;

/// The timing side of the in-order machine.
pub type InorderSide = TimingSide<InorderTimingCore>;

/// The phases of a cycle, in their order.
struct Interrupting;

struct Writing;

struct Accessing;

struct Executing;

struct Issuing;

struct Ending;

impl Phase<InorderTimingCore, At> for Interrupting {
    ghost use Rattle.inorder_model.specs.declared.at.At.TheVariants.{Interrupting};
    ghost use Rattle.inorder_model.specs.Standing.{inorder_piped};

    ghost piped = { inorder_piped };

    ghost turn = { Interrupting };

    fn comes(at: At) -> bool {
        at == At::Interrupting
    }

    #[inline(always)]
    fn make(timing: &mut InorderTimingCore, next: &mut At) -> Orders {
        *next = At::Writing;
        timing.interrupt()
    }
}

impl Phase<InorderTimingCore, At> for Writing {
    ghost use Rattle.inorder_model.specs.declared.at.At.TheVariants.{Writing};
    ghost use Rattle.inorder_model.specs.Standing.{inorder_piped};

    ghost piped = { inorder_piped };

    ghost turn = { Writing };

    fn comes(at: At) -> bool {
        at == At::Writing
    }

    #[inline(always)]
    fn make(timing: &mut InorderTimingCore, next: &mut At) -> Orders {
        let orders = timing.write();
        *next = at_after_write(timing);
        orders
    }
}

impl Phase<InorderTimingCore, At> for Accessing {
    ghost use Rattle.inorder_model.specs.declared.at.At.TheVariants.{Accessing};
    ghost use Rattle.inorder_model.specs.Standing.{inorder_piped};

    ghost piped = { inorder_piped };

    ghost turn = { Accessing };

    fn comes(at: At) -> bool {
        at == At::Accessing
    }

    #[inline(always)]
    fn make(timing: &mut InorderTimingCore, next: &mut At) -> Orders {
        *next = At::Executing;
        timing.access();
        Orders::none()
    }
}

impl Phase<InorderTimingCore, At> for Executing {
    ghost use Rattle.inorder_model.specs.declared.at.At.TheVariants.{Executing};
    ghost use Rattle.inorder_model.specs.Standing.{inorder_piped};

    ghost piped = { inorder_piped };

    ghost turn = { Executing };

    fn comes(at: At) -> bool {
        at == At::Executing
    }

    #[inline(always)]
    fn make(timing: &mut InorderTimingCore, next: &mut At) -> Orders {
        *next = At::Issuing;
        timing.execute()
    }
}

impl Phase<InorderTimingCore, At> for Issuing {
    ghost use Rattle.inorder_model.specs.declared.at.At.TheVariants.{Issuing};
    ghost use Rattle.inorder_model.specs.Standing.{inorder_piped};

    ghost piped = { inorder_piped };

    ghost turn = { Issuing };

    fn comes(at: At) -> bool {
        at == At::Issuing
    }

    #[inline(always)]
    fn make(timing: &mut InorderTimingCore, next: &mut At) -> Orders {
        let orders = timing.issue();
        *next = at_after_issue(timing);
        orders
    }
}

impl Phase<InorderTimingCore, At> for Ending {
    ghost use Rattle.inorder_model.specs.declared.at.At.TheVariants.{Ending};
    ghost use Rattle.inorder_model.specs.Standing.{inorder_piped};

    ghost piped = { inorder_piped };

    ghost turn = { Ending };

    fn comes(at: At) -> bool {
        at == At::Ending
    }

    #[inline(always)]
    fn make(timing: &mut InorderTimingCore, next: &mut At) -> Orders {
        timing.end_cycle();
        *next = at_after_end(timing);
        Orders::none()
    }
}

/// What comes after Write: where the run has ended the other phases are left out.
fn at_after_write(timing: &InorderTimingCore) -> At
    ensures at { (s : RunSetup) (l : InorderTiming) → InorderStandsFor s l timing.now
        → at_in result ≡ at_after_write l.timing }
{
    if timing.core.has_ended() {
        At::Ending
    } else {
        At::Accessing
    }
}

/// What comes after issue: a try of fetch where one may be made, else the end of the cycle.
fn at_after_issue(timing: &InorderTimingCore) -> At
    ensures at { (s : RunSetup) (l : InorderTiming) → InorderStandsFor s l timing.now
        → at_in result ≡ at_after_issue l.timing }
{
    if timing.may_fetch() {
        At::Trying
    } else {
        At::Ending
    }
}

/// What comes after the end of a cycle: the next cycle, or the last order.
fn at_after_end(timing: &InorderTimingCore) -> At
    ensures at { (s : RunSetup) (l : InorderTiming) → InorderStandsFor s l timing.now
        → at_in result ≡ at_after_end l.timing }
{
    if timing.core.has_ended() {
        At::Stopping
    } else {
        At::Interrupting
    }
}

impl Pipeline for InorderTimingCore {
    ghost use Rattle.inorder_model.specs.Standing.{inorder_piped};
    ghost use Rattle.inorder_model.specs.StandingLaws.{inorder_laws};

    type At = At;

    ghost piped = { inorder_piped };

    ghost laws = { inorder_laws };

    fn new(alloc: Global, setup: &Setup) -> Result<InorderTimingCore, NoMemory> {
        InorderTimingCore::new(alloc, setup)
    }

    fn first() -> At {
        At::Interrupting
    }

    fn core(&self) -> &TimingCore {
        &self.core
    }

    fn is_try(at: At) -> bool {
        matches!(at, At::Trying)
    }

    fn is_halted(at: At) -> bool {
        matches!(at, At::Halted)
    }

    fn is_cycle_start(at: At) -> bool {
        matches!(at, At::Interrupting | At::Stopping | At::Halted)
    }

    fn ends_cycle(at: At) -> bool {
        matches!(at, At::Ending)
    }

    #[inline(always)]
    fn turn(&mut self, next: &mut At) -> Orders {
        match *next {
            At::Interrupting => Interrupting::make(self, next),
            At::Writing => Writing::make(self, next),
            At::Accessing => Accessing::make(self, next),
            At::Executing => Executing::make(self, next),
            At::Issuing => Issuing::make(self, next),
            At::Ending => Ending::make(self, next),
            At::Stopping => {
                *next = At::Halted;
                Orders::one(Order::Stop {
                    n: self.core.to_commit(),
                })
            }
            At::Trying => Orders::none(),
            At::Halted => Orders::none(),
        }
    }

    #[inline(always)]
    fn fetch(&mut self, next: &mut At, entry: &Entry) -> Option<Fetched> {
        let tried = InorderTimingCore::fetch(self, entry);
        *next = At::Ending;
        Some(Fetched {
            orders: tried.orders,
            appended: tried.appended,
        })
    }

    #[inline(always)]
    fn stride(&mut self, next: &mut At) -> Orders {
        let ended = over::<InorderTimingCore, At, Ending>(self, next);
        if ended.first.is_some() {
            return ended;
        }
        self.phases(next)
    }

    #[inline(always)]
    fn phases(&mut self, next: &mut At) -> Orders {
        let interrupted = over::<InorderTimingCore, At, Interrupting>(self, next);
        if interrupted.first.is_some() {
            return interrupted;
        }
        let written = over::<InorderTimingCore, At, Writing>(self, next);
        if written.first.is_some() {
            return written;
        }
        let accessed = over::<InorderTimingCore, At, Accessing>(self, next);
        if accessed.first.is_some() {
            return accessed;
        }
        let executed = over::<InorderTimingCore, At, Executing>(self, next);
        if executed.first.is_some() {
            return executed;
        }
        over::<InorderTimingCore, At, Issuing>(self, next)
    }

    // It passes over none: nothing here looks for them.
    fn pass_idle(&mut self, _at: At) {}
}

impl Bounded for InorderTimingCore {
    ghost use Rattle.inorder_laws.specs.Rounds.{inorder_boundary_rounds};
    ghost use Rattle.inorder_model.specs.InorderTimedLaws.{inorder_splits};

    ghost rounds = { inorder_boundary_rounds };

    ghost splits = { inorder_splits };

    fn most_rounds(setup: &Setup) -> u32 {
        bounds::most_rounds(setup)
    }

    fn most_steps(setup: &Setup) -> u64 {
        bounds::most_steps(setup)
    }
}

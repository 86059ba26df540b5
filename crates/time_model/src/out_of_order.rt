ghost use Rattle.std.specs.Prelude.{◌≡◌, ◌<◌, ◌-◌, true, false, if◌then◌else◌};
ghost use Rattle.mono_model.specs.Demand.{trying, ending};
ghost use Rattle.mono_model.specs.declared.setup.Setup.{Setup};
ghost use Rattle.timing_side.specs.Timing.{Timing};
ghost use Rattle.timing_side.specs.Turn.{try_or_end, at_after_commit, at_after_cycle};
ghost use Rattle.timing_core.specs.CoreStandsFor.{CoreStandsFor};
ghost use Rattle.time_model.specs.At.{at_in};

use crate::at::At;
use crate::fetched::Fetched;
use crate::phase::{Phase, over};
use crate::pipeline::Pipeline;
use fsim_base::NoMemory;
use mono_model::Setup;
use rollback_cmds::Order;
use std::alloc::Global;
use timing_core::{Orders, TimingCore};
use trace_entry::Entry;

/// The phases of a cycle, in their order.
struct Interrupting;

struct Committing;

struct Completing;

struct Issuing;

struct Ending;

impl Phase<TimingCore, At> for Interrupting {
    ghost use Rattle.time_model.specs.declared.at.At.TheVariants.{Interrupting};
    ghost use Rattle.time_model.specs.OutOfOrder.{core_piped};

    ghost piped = { core_piped };

    ghost turn = { Interrupting };

    fn comes(at: At) -> bool {
        at == At::Interrupting
    }

    #[inline(always)]
    fn make(core: &mut TimingCore, next: &mut At) -> Orders {
        *next = At::Committing;
        core.interrupt()
    }
}

impl Phase<TimingCore, At> for Committing {
    ghost use Rattle.time_model.specs.declared.at.At.TheVariants.{Committing};
    ghost use Rattle.time_model.specs.OutOfOrder.{core_piped};

    ghost piped = { core_piped };

    ghost turn = { Committing };

    fn comes(at: At) -> bool {
        at == At::Committing
    }

    #[inline(always)]
    fn make(core: &mut TimingCore, next: &mut At) -> Orders {
        let orders = core.commit();
        *next = at_after_commit(core);
        orders
    }
}

impl Phase<TimingCore, At> for Completing {
    ghost use Rattle.time_model.specs.declared.at.At.TheVariants.{Completing};
    ghost use Rattle.time_model.specs.OutOfOrder.{core_piped};

    ghost piped = { core_piped };

    ghost turn = { Completing };

    fn comes(at: At) -> bool {
        at == At::Completing
    }

    #[inline(always)]
    fn make(core: &mut TimingCore, next: &mut At) -> Orders {
        *next = At::Issuing;
        core.complete()
    }
}

impl Phase<TimingCore, At> for Issuing {
    ghost use Rattle.time_model.specs.declared.at.At.TheVariants.{Issuing};
    ghost use Rattle.time_model.specs.OutOfOrder.{core_piped};

    ghost piped = { core_piped };

    ghost turn = { Issuing };

    fn comes(at: At) -> bool {
        at == At::Issuing
    }

    #[inline(always)]
    fn make(core: &mut TimingCore, next: &mut At) -> Orders {
        let orders = core.issue();
        *next = try_or_end(core, core.fetch_width());
        orders
    }
}

impl Phase<TimingCore, At> for Ending {
    ghost use Rattle.time_model.specs.declared.at.At.TheVariants.{Ending};
    ghost use Rattle.time_model.specs.OutOfOrder.{core_piped};

    ghost piped = { core_piped };

    ghost turn = { Ending };

    fn comes(at: At) -> bool {
        at == At::Ending
    }

    #[inline(always)]
    fn make(core: &mut TimingCore, next: &mut At) -> Orders {
        core.end_cycle();
        *next = at_after_cycle(core);
        Orders::none()
    }
}

/// What comes after commit: where the run has ended the other phases are left out.
fn at_after_commit(core: &TimingCore) -> At
    ensures at { (s : Setup) (t : Timing) → CoreStandsFor s t core.now → at_in result ≡ at_after_commit t }
{
    if core.has_ended() {
        At::Ending
    } else {
        At::Completing
    }
}

/// A try of fetch where one may be made and is allowed, else the end of the cycle.
#[inline(always)]
fn try_or_end(core: &TimingCore, allowed: u32) -> At
    ensures at { (s : Setup) (t : Timing) → CoreStandsFor s t core.now → at_in result ≡ try_or_end s allowed t }
{
    if allowed > 0 && core.may_fetch() {
        At::Trying(allowed - 1)
    } else {
        At::Ending
    }
}

/// What comes after a try: the next one where that may follow, else the end of the cycle.
#[inline(always)]
fn at_after_try(core: &TimingCore, goes_on: bool, allowed: u32) -> At
    ensures at { (s : Setup) (t : Timing) → CoreStandsFor s t core.now
        → at_in result ≡ (if goes_on then try_or_end s allowed t else ending) }
{
    if goes_on {
        try_or_end(core, allowed)
    } else {
        At::Ending
    }
}

/// Whether the next try comes after a try.
#[inline(always)]
fn tries_again(core: &TimingCore, goes_on: bool, allowed: u32) -> bool
    ensures again { result ≡ true → (s : Setup) (t : Timing) → CoreStandsFor s t core.now
        → trying (allowed - 1) ≡ (if goes_on then try_or_end s allowed t else ending) }
    ensures ends { result ≡ false → (s : Setup) (t : Timing) → CoreStandsFor s t core.now
        → ending ≡ (if goes_on then try_or_end s allowed t else ending) }
    ensures goes { result ≡ true → goes_on ≡ true }
    ensures some { result ≡ true → 0 < allowed }
{
    goes_on && allowed > 0 && core.may_fetch()
}

/// What comes after the end of a cycle: the next cycle, or the last order.
fn at_after_cycle(core: &TimingCore) -> At
    ensures at { (s : Setup) (t : Timing) → CoreStandsFor s t core.now → at_in result ≡ at_after_cycle t }
{
    if core.has_ended() {
        At::Stopping
    } else {
        At::Interrupting
    }
}

impl Pipeline for TimingCore {
    ghost use Rattle.time_model.specs.OutOfOrder.{core_piped};
    ghost use Rattle.time_model.specs.OutOfOrderLaws.{core_laws};

    type At = At;

    ghost piped = { core_piped };

    ghost laws = { core_laws };

    fn new(alloc: Global, setup: &Setup) -> Result<TimingCore, NoMemory> {
        TimingCore::new(alloc, setup)
    }

    fn first() -> At {
        At::Interrupting
    }

    fn core(&self) -> &TimingCore {
        self
    }

    fn is_try(at: At) -> bool {
        matches!(at, At::Trying(_))
    }

    fn is_halted(at: At) -> bool {
        matches!(at, At::Halted)
    }

    fn is_cycle_start(at: At) -> bool {
        matches!(at, At::Interrupting | At::Stopping | At::Halted)
    }

    fn ends_cycle(at: At) -> bool {
        matches!(at, At::Ending)
    }

    #[inline(always)]
    fn turn(&mut self, next: &mut At) -> Orders {
        match *next {
            At::Interrupting => Interrupting::make(self, next),
            At::Committing => Committing::make(self, next),
            At::Completing => Completing::make(self, next),
            At::Issuing => Issuing::make(self, next),
            At::Ending => Ending::make(self, next),
            At::Stopping => {
                *next = At::Halted;
                Orders::one(Order::Stop {
                    n: self.to_commit(),
                })
            }
            At::Trying(_) => Orders::none(),
            At::Halted => Orders::none(),
        }
    }

    // Most tries make no order and have another after them, which is told apart first: so these
    // test nothing twice.
    #[inline(always)]
    fn fetch(&mut self, next: &mut At, entry: &Entry) -> Option<Fetched> {
        let At::Trying(allowed) = *next else {
            return None;
        };
        let tried = TimingCore::fetch(self, entry);
        if tried.orders.first.is_none() {
            if tries_again(self, tried.goes_on, allowed) {
                *next = At::Trying(allowed - 1);
                return None;
            }
            *next = At::Ending;
        } else {
            *next = at_after_try(self, tried.goes_on, allowed);
        }
        Some(Fetched {
            orders: tried.orders,
            appended: tried.appended,
        })
    }

    #[inline(always)]
    fn stride(&mut self, next: &mut At) -> Orders {
        let ended = over::<TimingCore, At, Ending>(self, next);
        if ended.first.is_some() {
            return ended;
        }
        self.phases(next)
    }

    #[inline(always)]
    fn phases(&mut self, next: &mut At) -> Orders {
        let interrupted = over::<TimingCore, At, Interrupting>(self, next);
        if interrupted.first.is_some() {
            return interrupted;
        }
        let committed = over::<TimingCore, At, Committing>(self, next);
        if committed.first.is_some() {
            return committed;
        }
        let completed = over::<TimingCore, At, Completing>(self, next);
        if completed.first.is_some() {
            return completed;
        }
        over::<TimingCore, At, Issuing>(self, next)
    }

    #[inline(always)]
    fn pass_idle(&mut self, _at: At) {
        TimingCore::pass_idle(self);
    }
}

ghost use Rattle.std.specs.Prelude.{◌≡◌, ◌≤◌, ◌<◌, ◌+◌, ◌-◌, true, None, IsSome, map, IfOk, []};

use crate::foresight::Foresight;
use crate::lookahead::Lookahead;
use crate::worker::Worker;
use device_bus::Device;
use fsim_base::NoMemory;
use fsim_ports::Gate;
use func_model::{Arch, FuncSide};
use mono_model::Setup;
use std::alloc::Global;
use std::marker::Model;
use std::sync::Wait;
use trace_entry::Entry;
use trace_ring::FuncEnd;

/// The functional side at its end of the queues.
#[derive(Drop)]
pub struct FuncWorker<D: Device> {
    end: FuncEnd,
    side: FuncSide<D>,
    /// The entry computed last. It is written where it is kept, and not copied from elsewhere as
    /// soon as it is written: wide loads of what small stores wrote wait until those are through.
    entry: Entry,
    /// Whether the entry is still to be pushed.
    is_computed: bool,
    lookahead: Lookahead,
    foresight: Foresight,
}

impl<D: Device> Model for FuncWorker<D> {
    ghost use Rattle.func_model.specs.Walk.{entry_if};
    ghost use Rattle.fast_threads.specs.Workers.{FuncWork, func_work, IsFuncAt};

    ghost Value = { FuncWork D };

    ghost view = { λ worker.
        func_work worker.end worker.side (entry_if worker.is_computed worker.entry)
        worker.lookahead };

    ghost invariant = { λ worker.
        IsFuncAt worker.end worker.side (entry_if worker.is_computed worker.entry) };
}

impl<D: Device> FuncWorker<D> {
    ghost use Rattle.device_bus.specs.Bus.{device_order};
    ghost use Rattle.mono_model.specs.Setup.{is_setup};
    ghost use Rattle.trace_ring.specs.Ends.{func_start};
    ghost use Rattle.func_model.specs.Side.{arch_in};
    ghost use Rattle.func_model.specs.Contents.{output_in};
    ghost use Rattle.func_model.specs.Walk.{IsAtRest};
    ghost use Rattle.fast_threads.specs.Lookahead.{IsWide, IsWidened};
    ghost use Rattle.fast_threads.specs.Workers.{HasObeyed, KeepsObeyed};
    ghost use Rattle.fast_threads.specs.Session.{HoldsEnd};

    /// The functional side at the start of a run, with its end of the queues. All memory of the
    /// side is taken here; a refusal drops what it was given.
    pub fn new(
        alloc: Global,
        setup: &Setup,
        end: FuncEnd,
        devices: Vec<D>,
    ) -> Result<FuncWorker<D>, NoMemory>
        requires sound { is_setup setup.now ≡ true }
        requires end { end ≡ func_start setup.now }
        requires order { map D.kind devices.items ≡ device_order }
        ensures setup { IfOk result (λ worker. worker.setup ≡ setup.now) }
        ensures start { IfOk result (λ worker. HasObeyed setup.now worker.obeyed worker.side []) }
    {
        let side = FuncSide::new(alloc, setup, devices)?;
        let foresight = Foresight::new(alloc, &setup.params)?;
        Ok(FuncWorker {
            end,
            side,
            entry: Entry::BLANK,
            is_computed: false,
            lookahead: Lookahead::new(),
            foresight,
        })
    }

    /// The registers.
    pub fn arch(&self) -> Arch
        ensures arch { result ≡ arch_in self.now.side }
    {
        self.side.arch()
    }

    /// The output so far, ahead of what is committed where the side isn't stopped.
    pub fn output(&self) -> &[u8]
        ensures output { result.now ≡ output_in self.now.side.contents }
    {
        self.side.output()
    }

    /// Whether the side was stopped, by the last order of the run. What it holds then is the state
    /// behind the run.
    pub fn stopped(&self) -> bool
        ensures over { result ≡ true → HoldsEnd self.now.setup self.now.side.contents }
    {
        self.side.stopped()
    }

    /// Obeys the next order, if there is one. Where it opens an epoch, the computed entry is of no
    /// use any more.
    pub fn obey<R: Wait>(&mut self, rt: &R) -> bool
        ensures setup { self.new.setup ≡ self.old.setup }
        ensures kept { KeepsObeyed self.old self.new }
    {
        let Some(order) = self.end.next(rt) else {
            return false;
        };
        let committed = self.side.committed();
        self.side.obey(order);
        if order.opens_epoch() {
            self.is_computed = false;
            self.lookahead = Lookahead::new();
        } else {
            let now = self.side.committed();
            self.lookahead.note_commit(now.saturating_sub(committed));
            self.foresight.learn(committed, now);
        }
        true
    }

    /// What is done in a turn in which no entry may be made. An order that is foreseen is waited
    /// for as long as the timing side has entries left, since it may come behind the last of them.
    fn hold_back(&mut self)
        ensures same { self.new ≡ record self.old { lookahead = self.new.lookahead } }
        ensures waits { 1 < self.old.lookahead.patience
            → self.new.lookahead.patience ≡ self.old.lookahead.patience - 1 }
        ensures wider { self.old.lookahead.patience ≡ 0
            → IsWidened self.old.lookahead.allowed self.new.lookahead.allowed }
    {
        let is_over = self.lookahead.note_idle();
        if is_over && !self.end.is_drained() {
            self.lookahead.wait_on();
        }
    }

    /// Puts the entries that were handed over into the ring.
    pub fn flush<R: Wait>(&mut self, rt: &R)
        ensures same { self.new ≡ self.old }
    {
        self.end.flush(rt);
    }

    /// The timing side has nothing left to do: whatever is waited for comes after more entries.
    pub fn go_on(&mut self)
        ensures same { self.new ≡ record self.old { lookahead = self.new.lookahead } }
        ensures patience { self.new.lookahead.patience ≡ 0 }
        ensures wider { IsWidened self.old.lookahead.allowed self.new.lookahead.allowed }
    {
        self.lookahead.go_on();
    }

    /// Computes the next entry, if the side may run ahead and isn't at rest. Where it may not run
    /// ahead, there is nothing else to do. It may where the allowance is the greatest and no more
    /// is under way than the greatest window holds: so the timing side gets what it waits for.
    fn compute(&mut self)
        requires none { self.old.computed ≡ None }
        ensures setup { self.new.setup ≡ self.old.setup }
        ensures kept { KeepsObeyed self.old self.new }
        ensures made { IsWide self.old.lookahead
            → self.old.side.position ≤ self.old.side.committed + 256
            → (IsAtRest self.old.side → ⊥) → IsSome self.new.computed }
    {
        if !self.lookahead.may_run_ahead(self.side.steps_back()) {
            self.hold_back();
            return;
        }
        self.is_computed = self.side.produce_into(&mut self.entry);
        if self.is_computed {
            let departs = self.foresight.departs(&self.entry);
            self.lookahead.note_entry(departs);
        }
    }

    /// Hands over the computed entry, if there is room for it.
    fn push<R: Wait>(&mut self, rt: &R) -> bool
        requires computed { IsSome self.old.computed }
        ensures same { self.new ≡ record self.old { computed = self.new.computed } }
    {
        let pushed = self.end.push(rt, self.entry).is_ok();
        if pushed {
            self.is_computed = false;
        }
        pushed
    }
}

impl<D: Device> Worker for FuncWorker<D> {
    ghost use Rattle.fast_threads.specs.Workers.{HasGoneOn};

    ghost setup = { λ worker. worker.setup };

    ghost has_gone_on = { λ orders worker.
        HasGoneOn worker.setup worker.obeyed worker.side orders };

    fn is_over(&self) -> bool {
        self.stopped()
    }

    fn pass<G: Gate>(gate: &G) {
        gate.func_turn();
    }

    /// A turn: the next order is obeyed, or else the next entry made and handed over. Where there
    /// is none, those that were handed over go into the ring. Says whether there was anything to
    /// do.
    fn turn<R: Wait>(&mut self, rt: &R) -> bool {
        if self.obey(rt) {
            return true;
        }
        if !self.is_computed {
            self.compute();
        }
        if !self.is_computed {
            self.flush(rt);
            return false;
        }
        self.push(rt)
    }
}

ghost use Rattle.std.specs.Prelude.{◌≡◌, true, false, map, IfOk, []};

use crate::func_worker::FuncWorker;
use crate::rounds::{FEWEST_TURNS, MOST_TURNS};
use crate::time_worker::TimeWorker;
use crate::worker::Worker;
use device_bus::Device;
use fsim_base::NoMemory;
use fsim_ports::Gate;
use mono_model::{Final, Setup};
use std::alloc::Global;
use std::marker::Model;
use std::sync::Wait;
use std::thread::{Threads, join_mut};
use trace_ring::rings;

/// A run of the two sides in two threads. Contracts see its setup, the functional side with how many
/// orders it has obeyed, and whether the run has ended. What the side has committed stays.
#[derive(Drop)]
pub struct Session<D: Device> {
    func: FuncWorker<D>,
    time: TimeWorker,
    /// Whether the run is over: all orders were told, and the functional side has obeyed the last.
    ended: bool,
}

impl<D: Device> Model for Session<D> {
    ghost use Rattle.fast_threads.specs.Session.{SessionAt, session_at, IsRunning};

    ghost Value = { SessionAt D };

    ghost view = { λ session. session_at session.func session.ended };

    ghost invariant = { λ session. IsRunning session.func session.time session.ended };
}

impl<D: Device> Session<D> {
    ghost use Rattle.device_bus.specs.Bus.{device_order};
    ghost use Rattle.mono_model.specs.Setup.{is_setup};
    ghost use Rattle.mono_model.specs.Cycle.{final, mono};
    ghost use Rattle.fast_threads.specs.Workers.{HasObeyed};

    /// The two sides at the start of a run, with nothing under way. All memory of the run is taken
    /// here; a refusal drops what it was given.
    pub fn new(alloc: Global, setup: &Setup, devices: Vec<D>) -> Result<Session<D>, NoMemory>
        requires sound { is_setup setup.now ≡ true }
        requires order { map D.kind devices.items ≡ device_order }
        ensures setup { IfOk result (λ session. session.setup ≡ setup.now) }
        ensures start { IfOk result (λ session.
            HasObeyed setup.now session.obeyed session.func []) }
    {
        let (func_end, time_end) = rings(alloc, setup)?;
        let func = FuncWorker::new(alloc, setup, func_end, devices)?;
        let time = TimeWorker::new(alloc, setup, time_end)?;
        Ok(Session {
            func,
            time,
            ended: false,
        })
    }

    /// What is reported of the run: how it ended, its counts, and the committed registers. It is
    /// what the monolithic machine reports behind all its cycles.
    pub fn result(&self) -> Final
        requires ended { self.now.ended ≡ true }
        ensures reported { result ≡ final self.now.setup self.now.setup.cycles }
    {
        let arch = self.func.arch();
        arch.reported(self.time.end(), self.time.stats())
    }

    /// The output of the run.
    pub fn output(&self) -> &[u8]
        requires ended { self.now.ended ≡ true }
        ensures output { result.now ≡ (mono self.now.setup self.now.setup.cycles).arch.output }
    {
        self.func.output()
    }
}

impl<D: Device + Send> Session<D> {
    ghost use Rattle.fast_threads.specs.Workers.{KeepsObeyed};
    ghost use Rattle.fast_threads.specs.Session.{HoldsEnd, Keeps};

    /// Runs the two sides to the end of the run. In a round they work in two threads, each until it
    /// has ended, or has given way to other threads some times. That tells of a busy host, where
    /// threads that wait for each other come on slowly; so after it the sides take turns on this
    /// thread for a while, and for longer after each round. Before each of its turns a side calls
    /// its turn of the gate. It takes no memory.
    pub fn run<R: Threads + Wait + Sync, G: Gate + Sync>(&mut self, rt: &R, gate: &G)
        ensures setup { self.new.setup ≡ self.old.setup }
        ensures ended { self.new.ended ≡ true }
        ensures kept { Keeps self.old self.new }
        ensures contents { HoldsEnd self.new.setup self.new.func.contents }
    {
        self.ended = false;
        let mut turns = FEWEST_TURNS;
        for _ in rt.forever() {
            let halted = self.time.halted();
            let stopped = self.func.stopped();
            if halted && stopped {
                self.ended = true;
                return;
            }
            let Session { func, time, .. } = self;
            join_mut(
                rt,
                &mut ||
                    ensures place { func.exit.ghost_name ≡ func.entry.ghost_name }
                    ensures setup { func.exit.now.setup ≡ func.entry.now.setup }
                    ensures kept { KeepsObeyed func.entry.now func.exit.now }
                { func.work(rt, gate) },
                &mut ||
                    ensures place { time.exit.ghost_name ≡ time.entry.ghost_name }
                    ensures setup { time.exit.now.setup ≡ time.entry.now.setup }
                { time.work(rt, gate) },
            );
            self.take_turns(rt, gate, turns);
            turns = turns.saturating_mul(2).min(MOST_TURNS);
        }
        unreachable!()
    }

    /// The sides take turns on this thread, the functional one where the timing one has nothing to
    /// do.
    fn take_turns<R: Wait, G: Gate>(&mut self, rt: &R, gate: &G, turns: u32)
        requires runs { self.old.ended ≡ false }
        ensures setup { self.new.setup ≡ self.old.setup }
        ensures kept { Keeps self.old self.new }
        ensures runs { self.new.ended ≡ false }
    {
        for _ in 0..turns {
            if self.time.take_turn(rt, gate) {
                continue;
            }
            if self.func.take_turn(rt, gate) {
                self.func.flush(rt);
            } else {
                self.func.go_on();
            }
        }
    }
}

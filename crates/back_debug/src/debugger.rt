ghost use Rattle.std.specs.Prelude.{◌≡◌, true, map, IfOk};

use device_bus::Device;
use fsim_base::NoMemory;
use func_model::{Arch, Trail};
use mono_model::{End, Setup};
use std::alloc::Global;
use std::marker::Model;

/// What came of a step.
#[derive(Clone, Copy, Debug, PartialEq, Eq)]
pub enum Stepped {
    /// The debugger is one step further.
    Moved,
    /// There is no further step: the run has ended so.
    Ended(End),
}

/// What came of going one step back.
#[derive(Clone, Copy, Debug, PartialEq, Eq)]
pub enum Backed {
    Moved,
    /// The position is the oldest that can be gone back to.
    Oldest,
}

/// What came of running to an address.
#[derive(Clone, Copy, Debug, PartialEq, Eq)]
pub enum RunTo {
    /// The next instruction is the one at the address.
    Reached,
    /// The run has ended so before.
    Ended(End),
}

/// A debugger. It stands for a setup, and a position: how many steps of its run are made.
#[derive(Drop)]
pub struct Debugger<D: Device> {
    pub(crate) trail: Trail<D>,
}

impl<D: Device> Model for Debugger<D> {
    ghost use Rattle.func_model.specs.declared.trail.Trail.{Trail};
    ghost use Rattle.func_model.specs.Trail.{IsOnTrail};

    ghost Value = { Trail D };

    ghost view = { λ debugger. debugger.trail };

    ghost invariant = { λ debugger. IsOnTrail debugger.trail };
}

impl<D: Device> Debugger<D> {
    ghost use Rattle.mono_model.specs.declared.setup.Setup.{Setup as RunSetup};
    ghost use Rattle.device_bus.specs.Bus.{device_order};
    ghost use Rattle.mono_model.specs.Setup.{is_setup};
    ghost use Rattle.func_model.specs.History.{walk};
    ghost use Rattle.func_model.specs.Side.{registers_at};
    ghost use Rattle.func_model.specs.Trail.{TrailStandsFor, IsOnTrail, IsOpening, IsTold, IsBack};
    ghost use Rattle.back_debug.specs.Debugger.{ended_in, has_moved, IsRunTo};

    /// A debugger at the start of a run, which can go back over so many steps. It takes all its
    /// memory here.
    pub fn new(
        alloc: Global,
        setup: &Setup,
        devices: Vec<D>,
        history: u32,
    ) -> Result<Debugger<D>, NoMemory>
        requires sound { is_setup setup.now ≡ true }
        requires order { map D.kind devices.items ≡ device_order }
        ensures stands { IfOk result (λ debugger. TrailStandsFor setup.now debugger) }
        ensures opening { IfOk result (λ debugger. IsOpening history debugger) }
    {
        let trail = Trail::new(alloc, setup, devices, history)?;
        Ok(Debugger { trail })
    }

    /// Makes one step; Ended, and nothing changed, exactly where the run has none behind the
    /// position. A debugger always stands for some run, so its steps come to an end.
    pub fn step(&mut self) -> Stepped
        ensures told { (s : RunSetup) → TrailStandsFor s self.old
            → IsTold s self.old self.new (ended_in result) }
        ensures run { IsOnTrail self.old }
    {
        match self.trail.step() {
            None => Stepped::Moved,
            Some(end) => Stepped::Ended(end),
        }
    }

    /// Takes one step back; Oldest, and nothing changed, exactly where the position is `floor`.
    pub fn back(&mut self) -> Backed
        ensures stands { (s : RunSetup) → TrailStandsFor s self.old → TrailStandsFor s self.new }
        ensures moved { IsBack self.old self.new (has_moved result) }
    {
        if self.trail.back() {
            Backed::Moved
        } else {
            Backed::Oldest
        }
    }

    /// Makes steps, one at least, up to the first that leaves the next address at `addr`; Ended
    /// exactly where the run ends before, and the steps made stay.
    pub fn run_to(&mut self, addr: u32) -> RunTo
        ensures run { (s : RunSetup) → TrailStandsFor s self.old
            → IsRunTo s addr self.old self.new result }
    {
        loop {
            if let Some(end) = self.trail.step() {
                return RunTo::Ended(end);
            }
            if self.trail.pc() == addr {
                return RunTo::Reached;
            }
        }
    }

    /// The position: how many steps are made.
    pub fn at(&self) -> u64
        ensures at { result ≡ self.now.at }
    {
        self.trail.at
    }

    /// The oldest position that can be gone back to.
    pub fn floor(&self) -> u64
        ensures floor { result ≡ self.now.floor }
    {
        self.trail.floor
    }

    /// The registers at the position.
    pub fn arch(&self) -> Arch
        ensures arch { (s : RunSetup) → TrailStandsFor s self.now
            → result ≡ registers_at (walk s self.now.at) }
    {
        self.trail.arch()
    }

    /// The output at the position.
    pub fn output(&self) -> &[u8]
        ensures output { (s : RunSetup) → TrailStandsFor s self.now
            → result.now ≡ (walk s self.now.at).output }
    {
        self.trail.output()
    }
}

ghost use Rattle.std.specs.Prelude.{◌≡◌, true, map, IfOk};
ghost use Rattle.device_bus.specs.Bus.{device_order};
ghost use Rattle.mono_model.specs.Setup.{is_setup};
ghost use Rattle.gdb_model.specs.Session.{start_session};
ghost use Rattle.gdb_session.specs.Standing.{SessionStandsFor};

use crate::points::Points;
use crate::stops::Stops;
use back_debug::Debugger;
use device_bus::Device;
use fsim_base::NoMemory;
use mono_model::Setup;
use std::alloc::Global;

/// A debugger's session: where it stands, and what a run of it stops at.
#[derive(Drop)]
pub struct Session<D: Device> {
    pub debugger: Debugger<D>,
    pub stops: Stops,
    /// How many bytes of output were shown.
    pub shown: usize,
    /// Whether no acknowledgments are wanted.
    pub quiet: bool,
}

impl<D: Device> Session<D> {
    /// A session at the start of a run, over which it can go back so many steps. It takes all its
    /// memory here.
    pub fn new(
        alloc: Global,
        setup: &Setup,
        devices: Vec<D>,
        history: u32,
    ) -> Result<Session<D>, NoMemory>
        requires sound { is_setup setup.now ≡ true }
        requires order { map D.kind devices.items ≡ device_order }
        ensures stands { IfOk result (λ session.
            SessionStandsFor setup.now history start_session session) }
    {
        let debugger = Debugger::new(alloc, setup, devices, history)?;
        let points = Points::new(alloc)?;
        let stops = Stops { points, mark: None };
        Ok(Session {
            debugger,
            stops,
            shown: 0,
            quiet: false,
        })
    }
}

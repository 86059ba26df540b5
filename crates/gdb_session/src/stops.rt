use crate::points::Points;
use crate::range::Range;
use back_debug::Debugger;
use device_bus::Device;
use func_model::Ahead;

/// What runs stop at.
#[derive(Drop)]
pub struct Stops {
    pub points: Points,
    /// A position.
    pub mark: Option<u64>,
}

impl Stops {
    ghost use Rattle.std.specs.Prelude.{◌≡◌, ℕ, Bool};
    ghost use Rattle.mono_model.specs.declared.setup.Setup.{Setup as RunSetup};
    ghost use Rattle.func_model.specs.Position.{reach};
    ghost use Rattle.func_model.specs.Trail.{TrailStandsFor};
    ghost use Rattle.gdb_model.specs.Session.{watched_access};
    ghost use Rattle.gdb_model.specs.Stops.{is_stop};
    ghost use Rattle.gdb_session.specs.Points.{is_watching};
    ghost use Rattle.gdb_session.specs.Standing.{range_in, session_at};

    /// Whether a run stops where the debugger stands, since it halts there or its addresses end.
    pub fn is_stop<D: Device>(&self, debugger: &Debugger<D>, range: Range) -> bool
        ensures stop { (s : RunSetup) (shown : ℕ) (quiet : Bool) → TrailStandsFor s debugger.now
            → result ≡ is_stop s (session_at debugger.now self.now shown quiet) (range_in range)
            debugger.now.at }
    {
        let address = debugger.next_address();
        self.points.has_break(address)
            || self.mark == Some(debugger.at())
            || !range.contains(address)
    }

    /// A watched byte that the next step loads or stores. Whether there is a watchpoint at all is
    /// asked once for many steps.
    pub fn watched<D: Device>(&self, has_watch: bool, debugger: &mut Debugger<D>) -> Option<u64>
        requires known { has_watch ≡ is_watching self.now.points }
        ensures stands { (s : RunSetup) → TrailStandsFor s debugger.old
            → TrailStandsFor s debugger.new }
        ensures byte { (s : RunSetup) → TrailStandsFor s debugger.old
            → result ≡ watched_access self.now.points (reach s debugger.old.at) }
        ensures others { debugger.new
            ≡ record debugger.old { contents = debugger.new.contents } }
    {
        if !has_watch {
            return None;
        }
        match debugger.ahead() {
            Ahead::Ended(_) => None,
            Ahead::Step(access) => self.points.watched(access),
        }
    }
}

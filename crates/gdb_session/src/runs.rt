//! Runs forwards and backwards, up to where they stop.
ghost use Rattle.std.specs.Prelude.{◌≡◌, ℕ, Bool};
ghost use Rattle.mono_model.specs.declared.setup.Setup.{Setup as RunSetup};
ghost use Rattle.func_model.specs.Trail.{TrailStandsFor};
ghost use Rattle.gdb_model.specs.Stops.{back, forth};
ghost use Rattle.gdb_session.specs.Runs.{HasGoneBack, HasGoneForth};
ghost use Rattle.gdb_session.specs.Standing.{range_in, session_at};

use crate::range::Range;
use crate::stops::Stops;
use back_debug::{Debugger, Stepped};
use device_bus::Device;
use mono_model::End;

/// Why a run stops.
#[derive(Clone, Copy, Debug, PartialEq, Eq)]
pub enum Reason {
    /// At a breakpoint or the mark, or outside its addresses.
    Stop,
    /// At the end of the run.
    Ended(End),
    /// At the oldest position.
    Begin,
    /// Before an access of this watched byte, or after it if the run goes backwards.
    Watch(u64),
}

/// Goes forwards to the first position at which a run stops, and says why.
pub fn forth<D: Device>(debugger: &mut Debugger<D>, stops: &Stops, range: Range) -> Reason
    ensures forth { (s : RunSetup) (shown : ℕ) (quiet : Bool) → TrailStandsFor s debugger.old
        → HasGoneForth s
        (forth s (range_in range) (session_at debugger.old stops.now shown quiet))
        debugger.old debugger.new result }
{
    let has_watch = stops.points.has_watch();
    loop {
        if let Some(byte) = stops.watched(has_watch, debugger) {
            return Reason::Watch(byte);
        }
        if let Stepped::Ended(end) = debugger.step() {
            return Reason::Ended(end);
        }
        if stops.is_stop(debugger, range) {
            return Reason::Stop;
        }
    }
}

/// Goes backwards to the last position at which a run stops, and says why.
pub fn back<D: Device>(debugger: &mut Debugger<D>, stops: &Stops, range: Range) -> Reason
    ensures back { (s : RunSetup) (shown : ℕ) (quiet : Bool) → TrailStandsFor s debugger.old
        → HasGoneBack s (back s (range_in range) (session_at debugger.old stops.now shown quiet))
        debugger.old debugger.new result }
{
    let has_watch = stops.points.has_watch();
    let steps = debugger.steps_back();
    for _ in 0..steps {
        debugger.back();
        if let Some(byte) = stops.watched(has_watch, debugger) {
            debugger.step();
            return Reason::Watch(byte);
        }
        if stops.is_stop(debugger, range) {
            return Reason::Stop;
        }
    }
    Reason::Begin
}

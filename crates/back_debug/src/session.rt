//! A script played on a debugger.
ghost use Rattle.std.specs.Prelude.{◌≡◌, ◌≤◌, ◌+◌};
ghost use Rattle.fsim_ports.specs.Sink.{Puts};
ghost use Rattle.mono_model.specs.declared.setup.Setup.{Setup as RunSetup};
ghost use Rattle.func_model.specs.Trail.{TrailStandsFor};
ghost use Rattle.back_debug.specs.Session.{Comes, IsAt, arrival_line, arrived, back, command_text};
ghost use Rattle.back_debug.specs.Session.{forth, machine_at, position_of, session_text, to};

use crate::debugger::{Backed, Debugger, RunTo, Stepped};
use crate::script::{Command, Script};
use device_bus::Device;
use fsim_ports::Sink;
use report_text::{Arrival, WriteFault, machine_lines, position_line};

/// Plays the commands of a script, and writes of each where it led, or what it shows.
///
/// Ok says that the whole text was written. A fault comes only where the sink's count of faults
/// rose, and then a proper prefix of the text was written. It takes no memory.
pub fn play<D: Device, K: Sink>(
    debugger: &mut Debugger<D>,
    script: &Script,
    sink: &mut K,
) -> Result<(), WriteFault>
    ensures stands { (s : RunSetup) → TrailStandsFor s debugger.old →
        TrailStandsFor s debugger.new }
    ensures count { K.faults sink.old ≤ K.faults sink.new }
    ensures written { (s : RunSetup) → TrailStandsFor s debugger.old
        → Puts (session_text debugger.old.steps.capacity s script.now (position_of debugger.old))
        (K.faults sink.old) (K.faults sink.new) (K.written sink.old) (K.written sink.new) result }
{
    for command in script.commands() {
        play_command(debugger, *command, sink)?;
    }
    Ok(())
}

/// Plays a command.
fn play_command<D: Device, K: Sink>(
    debugger: &mut Debugger<D>,
    command: Command,
    sink: &mut K,
) -> Result<(), WriteFault>
    ensures comes { (s : RunSetup) → TrailStandsFor s debugger.old
        → IsAt s (arrived debugger.old.steps.capacity s command (position_of debugger.old)).position
        debugger.old debugger.new }
    ensures count { K.faults sink.old ≤ K.faults sink.new }
    ensures written { (s : RunSetup) → TrailStandsFor s debugger.old
        → Puts (command_text s command
        (arrived debugger.old.steps.capacity s command (position_of debugger.old)))
        (K.faults sink.old) (K.faults sink.new) (K.written sink.old) (K.written sink.new) result }
{
    match command {
        Command::Step(steps) => {
            let arrival = forth(debugger, steps);
            tell(debugger, arrival, sink)
        }
        Command::Back(steps) => {
            let arrival = back(debugger, steps);
            tell(debugger, arrival, sink)
        }
        Command::To(addr) => {
            let arrival = to(debugger, addr);
            tell(debugger, arrival, sink)
        }
        Command::Show => show(debugger, sink),
    }
}

/// Makes up to so many steps.
fn forth<D: Device>(debugger: &mut Debugger<D>, steps: u64) -> Arrival
    ensures comes { (s : RunSetup) → TrailStandsFor s debugger.old
        → Comes s (forth debugger.old.steps.capacity s steps (position_of debugger.old))
        debugger.old debugger.new result }
{
    for _ in 0..steps {
        if let Stepped::Ended(end) = debugger.step() {
            return Arrival::Ended(end);
        }
    }
    Arrival::Moved
}

/// Takes up to so many steps back.
fn back<D: Device>(debugger: &mut Debugger<D>, steps: u64) -> Arrival
    ensures comes { (s : RunSetup) → TrailStandsFor s debugger.old
        → Comes s (back steps (position_of debugger.old)) debugger.old debugger.new result }
{
    for _ in 0..steps {
        if let Backed::Oldest = debugger.back() {
            return Arrival::Oldest;
        }
    }
    Arrival::Moved
}

/// Runs to an address.
fn to<D: Device>(debugger: &mut Debugger<D>, addr: u32) -> Arrival
    ensures comes { (s : RunSetup) → TrailStandsFor s debugger.old
        → Comes s
        (to debugger.old.steps.capacity s addr (s.cycles + 1) (position_of debugger.old))
        debugger.old debugger.new result }
{
    match debugger.run_to(addr) {
        RunTo::Reached => Arrival::Reached,
        RunTo::Ended(end) => Arrival::Ended(end),
    }
}

/// Writes how the debugger came where it stands.
fn tell<D: Device, K: Sink>(
    debugger: &Debugger<D>,
    arrival: Arrival,
    sink: &mut K,
) -> Result<(), WriteFault>
    ensures count { K.faults sink.old ≤ K.faults sink.new }
    ensures written { (s : RunSetup) → TrailStandsFor s debugger.now
        → Puts (arrival_line s (record { position = position_of debugger.now; arrival = arrival }))
        (K.faults sink.old) (K.faults sink.new) (K.written sink.old) (K.written sink.new) result }
{
    position_line(debugger.at(), debugger.arch().pc, arrival, sink)
}

/// Writes what the machine holds where the debugger stands.
fn show<D: Device, K: Sink>(debugger: &Debugger<D>, sink: &mut K) -> Result<(), WriteFault>
    ensures count { K.faults sink.old ≤ K.faults sink.new }
    ensures written { (s : RunSetup) → TrailStandsFor s debugger.now
        → Puts (machine_at s debugger.now.at) (K.faults sink.old) (K.faults sink.new)
        (K.written sink.old) (K.written sink.new) result }
{
    let arch = debugger.arch();
    let output = debugger.output().len() as u64;
    machine_lines(output, &arch.regs, &arch.csrs, arch.cmp, sink)
}

//! Runs whose output is put as it comes.
ghost use Rattle.std.specs.Prelude.{◌≡◌, ℕ, ◌≤◌, true, false, List, OnOk};
ghost use Rattle.mono_model.specs.declared.setup.Setup.{Setup as RunSetup};
ghost use Rattle.mono_model.specs.Alone.{alone};
ghost use Rattle.mono_model.specs.Cycle.{mono};
ghost use Rattle.mono_model.specs.Setup.{is_setup};
ghost use Rattle.mono_model.specs.Split.{Split};
ghost use Rattle.machine_laws.specs.Output.{GrowsTo};
ghost use Rattle.machine_laws.specs.Reached.{IsReached};
ghost use Rattle.func_model.specs.Alone.{AloneStandsFor, IsAlone};
ghost use Rattle.split_core.specs.Standing.{SplitStandsFor, LeadsToEnd, IsAtBoundary};
ghost use Rattle.split_core.specs.Standing.{IsUnderWay};
ghost use Rattle.inorder_machine.specs.Cycle.{inorder};
ghost use Rattle.inorder_machine.specs.Setup.{IsInorder};
ghost use Rattle.inorder_machine.specs.Split.{InorderSplit};
ghost use Rattle.inorder_laws.specs.SplitLaw.{IsInorderReached};
ghost use Rattle.inorder_model.specs.Core.{InorderSplitStandsFor, InorderLeadsToEnd};
ghost use Rattle.inorder_model.specs.Core.{IsAtInorderBoundary, IsInorderUnderWay};
ghost use Rattle.fast_jobs.specs.Early.{PutsOn, PutsFirst};

use device_bus::Device;
use fsim_ports::{Failed, Sink, put_all};
use func_model::AloneRun;
use inorder_model::InorderCore;
use machine_laws::output_only_grows;
use split_core::SplitCore;

/// So many steps of a run alone are made between two puts.
const PIECE_STEPS: u64 = 65_536;

/// So many turns of the timing side are played between two puts. Most are one cycle.
const PIECE_TURNS: u64 = 16_384;

/// Puts the bytes of an output from so many on, and gives how many were put then.
fn put_new<K: Sink>(output: &[u8], put: usize, sink: &mut K) -> Result<usize, Failed>
    ensures count { K.faults sink.old ≤ K.faults sink.new }
    ensures put { (whole : List ℕ) → GrowsTo output.now whole
        → PutsOn whole put (K.faults sink.old) (K.faults sink.new) (K.written sink.old)
        (K.written sink.new) result }
{
    if output.len() <= put {
        return Ok(put);
    }
    put_all(sink, &output[put..])?;
    Ok(output.len())
}

/// Makes the steps of a run alone to its end, and puts its output as it comes. The result is how
/// many bytes were put.
pub fn play_alone<K: Sink, D: Device>(
    run: &mut AloneRun<D>,
    cycles: u64,
    sink: &mut K,
) -> Result<usize, Failed>
    requires standing { IsAlone run.old }
    ensures count { K.faults sink.old ≤ K.faults sink.new }
    ensures ended { (s : RunSetup) → s.cycles ≡ cycles → AloneStandsFor s 0 run.old
        → OnOk result (AloneStandsFor s cycles run.new) }
    ensures put { (s : RunSetup) → s.cycles ≡ cycles → AloneStandsFor s 0 run.old
        → PutsFirst (alone s cycles).arch.output (K.faults sink.old) (K.faults sink.new)
        (K.written sink.old) (K.written sink.new) result }
{
    // The law that what is put is the beginning of the whole output.
    output_only_grows();
    let mut put = 0;
    let mut left = cycles;
    while left > 0 {
        if run.is_over() {
            return Ok(put);
        }
        let steps = left.min(PIECE_STEPS);
        run.go_on(steps);
        left -= steps;
        put = put_new(run.output(), put, sink)?;
    }
    Ok(put)
}

/// Plays pieces of a run on the machine until it is over, and puts what is committed of its output
/// after each. The result is how many bytes were put.
fn play_pieces<K: Sink, D: Device>(
    core: &mut SplitCore<D>,
    cycles: u64,
    sink: &mut K,
) -> Result<usize, Failed>
    requires going { core.old.is_reported ≡ false }
    ensures count { K.faults sink.old ≤ K.faults sink.new }
    ensures going { OnOk result (core.new.is_reported ≡ false) }
    ensures played { (s : RunSetup) (x : Split) → is_setup s ≡ true → IsReached s x
        → SplitStandsFor s x core.old → OnOk result (IsUnderWay s core.new) }
    ensures put { (s : RunSetup) (x : Split) → is_setup s ≡ true → IsReached s x
        → SplitStandsFor s x core.old
        → PutsFirst (mono s s.cycles).arch.output (K.faults sink.old) (K.faults sink.new)
        (K.written sink.old) (K.written sink.new) result }
{
    let mut put = 0;
    // No run has more pieces than cycles.
    for _ in 0..cycles {
        if core.is_over() {
            return Ok(put);
        }
        core.go_on(PIECE_TURNS);
        put = put_new(core.committed_output(), put, sink)?;
    }
    Ok(put)
}

/// Plays a run on the machine to its end, and puts what is committed of its output as it comes. The
/// result is how many bytes were put.
pub fn play_core<K: Sink, D: Device>(
    core: &mut SplitCore<D>,
    cycles: u64,
    sink: &mut K,
) -> Result<usize, Failed>
    requires going { core.old.is_reported ≡ false }
    ensures count { K.faults sink.old ≤ K.faults sink.new }
    ensures ended { OnOk result (LeadsToEnd core.old core.new) }
    ensures boundary { OnOk result (IsAtBoundary core.new) }
    ensures put { (s : RunSetup) (x : Split) → is_setup s ≡ true → IsReached s x
        → SplitStandsFor s x core.old
        → PutsFirst (mono s s.cycles).arch.output (K.faults sink.old) (K.faults sink.new)
        (K.written sink.old) (K.written sink.new) result }
{
    let put = play_pieces(core, cycles, sink)?;
    core.to_end();
    Ok(put)
}

/// The same pieces on the in-order machine.
fn play_inorder_pieces<K: Sink, D: Device>(
    core: &mut InorderCore<D>,
    cycles: u64,
    sink: &mut K,
) -> Result<usize, Failed>
    requires going { core.old.is_reported ≡ false }
    ensures count { K.faults sink.old ≤ K.faults sink.new }
    ensures going { OnOk result (core.new.is_reported ≡ false) }
    ensures played { (s : RunSetup) (x : InorderSplit) → IsInorder s → IsInorderReached s x
        → InorderSplitStandsFor s x core.old → OnOk result (IsInorderUnderWay s core.new) }
    ensures put { (s : RunSetup) (x : InorderSplit) → IsInorder s → IsInorderReached s x
        → InorderSplitStandsFor s x core.old
        → PutsFirst (inorder s s.cycles).machine.arch.output (K.faults sink.old)
        (K.faults sink.new) (K.written sink.old) (K.written sink.new) result }
{
    let mut put = 0;
    // No run has more pieces than cycles.
    for _ in 0..cycles {
        if core.is_over() {
            return Ok(put);
        }
        core.go_on(PIECE_TURNS);
        put = put_new(core.committed_output(), put, sink)?;
    }
    Ok(put)
}

/// The same run on the in-order machine.
pub fn play_inorder<K: Sink, D: Device>(
    core: &mut InorderCore<D>,
    cycles: u64,
    sink: &mut K,
) -> Result<usize, Failed>
    requires going { core.old.is_reported ≡ false }
    ensures count { K.faults sink.old ≤ K.faults sink.new }
    ensures ended { OnOk result (InorderLeadsToEnd core.old core.new) }
    ensures boundary { OnOk result (IsAtInorderBoundary core.new) }
    ensures put { (s : RunSetup) (x : InorderSplit) → IsInorder s → IsInorderReached s x
        → InorderSplitStandsFor s x core.old
        → PutsFirst (inorder s s.cycles).machine.arch.output (K.faults sink.old)
        (K.faults sink.new) (K.written sink.old) (K.written sink.new) result }
{
    let put = play_inorder_pieces(core, cycles, sink)?;
    core.to_end();
    Ok(put)
}

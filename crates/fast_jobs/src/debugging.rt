//! A talk with a debugger, and what comes of it.
ghost use Rattle.std.specs.Prelude.{◌≡◌, ◌≤◌, true, map};
ghost use Rattle.device_bus.specs.Bus.{device_order};
ghost use Rattle.mono_model.specs.Setup.{is_setup};
ghost use Rattle.gdb_model.specs.Talk.{start_talk};
ghost use Rattle.gdb_session.specs.Talk.{HasTalked as HasServed, TalkStandsFor};
ghost use Rattle.fast_jobs.specs.declared.job.Job.{Job as AnyJob};
ghost use Rattle.fast_jobs.specs.Call.{hearing_of, writing_of};
ghost use Rattle.fast_jobs.specs.Ending.{HasTalked};
ghost use Rattle.fast_jobs.specs.Talking.{due_after, exchange_of};

use crate::refusal::{Refusal, tell_want_of_memory};
use device_bus::Device;
use fsim_base::NoMemory;
use fsim_ports::{Due, Sink, Source};
use gdb_session::{ServeFault, Stub, serve};
use mono_model::Setup;
use report_text::{Role, Status};
use std::alloc::Global;
use std::marker::Brand;

/// Answers a debugger, over a run that remembers so many steps, up to the end of what it writes.
#[tactic(auto, using(crate::proofs::Talks::talk_answers))]
pub fn run_gdb<S: Source, K: Sink, D: Device>(
    alloc: Global,
    setup: &Setup,
    history: u32,
    devices: Vec<D>,
    source: &mut S,
    sink: &mut K,
) -> Status
    requires sound { is_setup setup.now ≡ true }
    requires order { map D.kind devices.items ≡ device_order }
    ensures reads { S.faults source.old ≤ S.faults source.new }
    ensures count { K.faults sink.old ≤ K.faults sink.new }
    ensures talked { HasTalked (AnyJob.Gdb setup.now history)
        (hearing_of S.heard S.faults source.old source.new)
        (writing_of K.written K.faults sink.old sink.new) result }
{
    let mut stub = match Stub::new(alloc, setup, devices, history) {
        Ok(stub) => stub,
        Err(NoMemory) => return tell_want_of_memory(sink),
    };
    match answer_all::<Brand, S, K, D>(setup, history, &mut stub, source, sink) {
        Ok(()) => Status::Shown,
        Err(ServeFault::Read) => Refusal::new(Status::ReadFault(Role::Packets)).tell(sink),
        Err(ServeFault::Write) => Status::WriteFault,
    }
}

/// Answers a debugger up to the end of what it writes. Setup and history say what is due of that.
fn answer_all<U: Due, S: Source, K: Sink, D: Device>(
    setup: &Setup,
    history: u32,
    stub: &mut Stub<D>,
    source: &mut S,
    sink: &mut K,
) -> Result<(), ServeFault>
    requires stands { TalkStandsFor setup.now history start_talk stub.old }
    requires due { U.due
        ≡ due_after history setup.now (S.heard source.old) (K.written sink.old) }
    ensures reads { S.faults source.old ≤ S.faults source.new }
    ensures count { K.faults sink.old ≤ K.faults sink.new }
    ensures talked { HasServed history setup.now start_talk (exchange_of
        (hearing_of S.heard S.faults source.old source.new)
        (writing_of K.written K.faults sink.old sink.new)) result }
{
    let _ = setup;
    let _ = history;
    serve::<U, S, K, D>(stub, source, sink)
}

ghost use Rattle.std.specs.Prelude.{◌≡◌, ◌≤◌, ℕ, true, map, IfOk, Some};
ghost use Rattle.device_bus.specs.Bus.{device_order};
ghost use Rattle.mono_model.specs.Setup.{is_setup};
ghost use Rattle.mono_model.specs.declared.setup.Setup.{Setup as RunSetup};
ghost use Rattle.fsim_ports.specs.Sink.{Puts};
ghost use Rattle.gdb_model.specs.Talk.{Talk, after_bytes, arrived, start_talk, taken, talk_text};
ghost use Rattle.gdb_model.specs.Talk.{went_on};
ghost use Rattle.gdb_session.specs.Standing.{SessionStandsFor};
ghost use Rattle.gdb_session.specs.Talk.{TalkStandsFor};

use crate::play::play;
use crate::session::Session;
use device_bus::Device;
use fsim_base::NoMemory;
use fsim_ports::{Failed, Sink, put_all};
use gdb_packets::{Arrival, Receiver};
use mono_model::Setup;
use std::alloc::Global;

/// What a debugger talks to: it takes the bytes that come, one by one, and answers them.
#[derive(Drop)]
pub struct Stub<D: Device> {
    session: Session<D>,
    receiver: Receiver,
}

impl<D: Device> Stub<D> {
    /// A stub at the start of a run, of which so many steps can be taken back. It takes all its
    /// memory here.
    pub fn new(
        alloc: Global,
        setup: &Setup,
        devices: Vec<D>,
        history: u32,
    ) -> Result<Stub<D>, NoMemory>
        requires sound { is_setup setup.now ≡ true }
        requires order { map D.kind devices.items ≡ device_order }
        ensures stands { IfOk result (λ stub. TalkStandsFor setup.now history start_talk stub) }
    {
        Ok(Stub {
            session: Session::new(alloc, setup, devices, history)?,
            receiver: Receiver::new(),
        })
    }

    /// Takes bytes, one after the other, and answers each packet as it ends.
    pub fn take_all<K: Sink>(&mut self, bytes: &[u8], sink: &mut K) -> Result<(), Failed>
        ensures stands { (s : RunSetup) (history : ℕ) (talk : Talk)
            → TalkStandsFor s history talk self.old
            → IfOk result (λ _.
            TalkStandsFor s history (after_bytes history s talk bytes.now) self.new) }
        ensures count { K.faults sink.old ≤ K.faults sink.new }
        ensures written { (s : RunSetup) (history : ℕ) (talk : Talk)
            → TalkStandsFor s history talk self.old
            → Puts (talk_text history s talk bytes.now) (K.faults sink.old) (K.faults sink.new)
            (K.written sink.old) (K.written sink.new) result }
    {
        for byte in bytes {
            self.take(*byte, sink)?;
        }
        Ok(())
    }

    /// Takes the next byte. A packet that ends with it is acknowledged, played and answered.
    pub fn take<K: Sink>(&mut self, byte: u8, sink: &mut K) -> Result<(), Failed>
        ensures stands { (s : RunSetup) (history : ℕ) (talk : Talk)
            → TalkStandsFor s history talk self.old
            → IfOk result (λ _.
            TalkStandsFor s history (went_on history s talk byte) self.new) }
        ensures count { K.faults sink.old ≤ K.faults sink.new }
        ensures written { (s : RunSetup) (history : ℕ) (talk : Talk)
            → TalkStandsFor s history talk self.old
            → Puts (taken history s talk byte).text (K.faults sink.old) (K.faults sink.new)
            (K.written sink.old) (K.written sink.new) result }
    {
        match self.receiver.take(byte) {
            Some(arrival) => self.answer(arrival, sink),
            None => Ok(()),
        }
    }

    /// Answers the packet that has come. It is acknowledged before it is played: a run may be long.
    fn answer<K: Sink>(&mut self, arrival: Arrival, sink: &mut K) -> Result<(), Failed>
        ensures stands { (s : RunSetup) (history : ℕ) (talk : Talk)
            → TalkStandsFor s history talk self.old
            → IfOk result (λ _. SessionStandsFor s history
            (arrived history s talk.stream.content (Some arrival) talk.session).session
            self.new.session) }
        ensures receiver { self.new.receiver ≡ self.old.receiver }
        ensures count { K.faults sink.old ≤ K.faults sink.new }
        ensures written { (s : RunSetup) (history : ℕ) (talk : Talk)
            → TalkStandsFor s history talk self.old
            → Puts (arrived history s talk.stream.content (Some arrival) talk.session).text
            (K.faults sink.old) (K.faults sink.new) (K.written sink.old) (K.written sink.new)
            result }
    {
        let quiet = self.session.quiet;
        put_all(sink, arrival.acknowledgment(quiet))?;
        if arrival.is_answered(quiet) {
            play(&mut self.session, self.receiver.packet(), sink)
        } else {
            Ok(())
        }
    }
}

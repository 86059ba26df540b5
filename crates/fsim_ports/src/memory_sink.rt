ghost use Rattle.std.specs.Prelude.{◌≡◌, ◌≤◌, ◌↔◌, length, Some, vec_len, vec_capacity, IsTrue};
ghost use Rattle.std.specs.Prelude.{IsErr, IfOk, OnOk, OnErr};
ghost use Rattle.fsim_ports.specs.Plan.{with_failing};
ghost use Rattle.fsim_ports.specs.Memory.{SinkInMemory, empty_sink, put_fails, after_put};
ghost use Rattle.fsim_ports.specs.Sink.{IsPut};

use crate::outside::{Failed, Sink};
use crate::plan::FaultPlan;
use fsim_base::NoMemory;
use std::alloc::Global;
use std::marker::Model;

/// A sink that keeps what it is given in memory, up to a room that it takes when it is made. Its
/// puts fail where a list says so and where a piece doesn't fit.
#[derive(Debug, Drop)]
pub struct MemorySink {
    bytes: Vec<u8>,
    room: usize,
    plan: FaultPlan,
}

impl Model for MemorySink {
    ghost Value = { SinkInMemory };

    ghost view = { λ s. record { bytes = s.bytes.items; room = s.room; plan = s.plan } };

    ghost invariant = { λ s. (vec_len s.bytes ≤ s.room) × (s.room ≤ vec_capacity s.bytes) };
}

impl MemorySink {
    /// A sink with room for so many bytes, and no put that is to fail.
    pub fn new(alloc: Global, room: u32) -> Result<MemorySink, NoMemory>
        ensures empty { IfOk result (λ sink. sink ≡ empty_sink room) }
    {
        let room = room as usize;
        let Ok(bytes) = Vec::with_capacity(alloc, room) else {
            return Err(NoMemory);
        };
        Ok(MemorySink {
            bytes,
            room,
            plan: FaultPlan::new(alloc),
        })
    }

    /// The bytes that were written.
    pub fn bytes(&self) -> &[u8]
        ensures written { result.now ≡ self.now.bytes }
    {
        self.bytes.as_slice()
    }

    /// Lets one more call of `put` fail. Calls are counted from 1.
    pub fn fail_at(&mut self, call: u64) -> Result<(), NoMemory>
        ensures ok { OnOk result (self.new
            ≡ record self.old { plan = with_failing self.old.plan call }) }
        ensures err { OnErr result (self.new ≡ self.old) }
    {
        self.plan.fail_at(call)
    }
}

impl Sink for MemorySink {
    ghost written = { λ s. Some s.bytes };

    ghost faults = { λ s. s.plan.faults };

    /// Takes the piece whole, without memory. Fails, and counts a fault, exactly where the call is
    /// in the list or the piece doesn't fit in what is left of the room.
    fn put(&mut self, bytes: &[u8]) -> Result<usize, Failed>
        ensures count { self.old.plan.faults ≤ self.new.plan.faults }
        ensures put { IsPut bytes.now self.old.plan.faults self.new.plan.faults
            (Some self.old.bytes) (Some self.new.bytes) result }
        ensures fails { IsErr result ↔ IsTrue (put_fails self.old bytes.now) }
        ensures whole { IfOk result (λ count. count ≡ length bytes.now) }
        ensures after { self.new ≡ after_put self.old bytes.now }
    {
        let is_to_fail = self.plan.next_call();
        if is_to_fail || self.room - self.bytes.len() < bytes.len() {
            self.plan.count_fault();
            return Err(Failed);
        }
        self.bytes.extend_from_slice(bytes).unwrap();
        Ok(bytes.len())
    }
}

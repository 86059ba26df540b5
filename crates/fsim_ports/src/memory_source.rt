ghost use Rattle.std.specs.Prelude.{◌≡◌, IfOk, OnErr, OnOk};
ghost use Rattle.fsim_ports.specs.Memory.{opening_source};
ghost use Rattle.fsim_ports.specs.Plan.{with_failing};

use crate::outside::Sink;
use crate::plan::FaultPlan;
use crate::source::{Due, Heard, Source};
use fsim_base::NoMemory;
use std::alloc::Global;
use std::marker::Model;

/// Bytes in memory that come in pieces of a size. Its reads fail where a list says so.
#[derive(Debug, Drop)]
pub struct MemorySource {
    bytes: Vec<u8>,
    /// How many bytes were read.
    place: usize,
    /// How many bytes a read gives at most, at least one.
    piece: usize,
    plan: FaultPlan,
}

impl Model for MemorySource {
    ghost use Rattle.std.specs.Prelude.{◌≤◌, length};
    ghost use Rattle.fsim_ports.specs.Memory.{SourceInMemory};

    ghost Value = { SourceInMemory };

    ghost view = { λ m. record {
      bytes = m.bytes.items;
      place = m.place;
      piece = m.piece;
      plan = m.plan;
    } };

    ghost invariant = { λ m. (m.place ≤ length m.bytes.items) × (1 ≤ m.piece) };
}

impl MemorySource {
    /// These bytes, and no read that is to fail. A piece of no bytes is one of one.
    pub fn new(alloc: Global, bytes: &[u8], piece: usize) -> Result<MemorySource, NoMemory>
        ensures opening { IfOk result (λ source. source ≡ opening_source bytes.now piece) }
    {
        let Ok(bytes) = bytes.to_vec(alloc) else {
            return Err(NoMemory);
        };
        Ok(MemorySource {
            bytes,
            place: 0,
            piece: piece.max(1),
            plan: FaultPlan::new(alloc),
        })
    }

    /// Lets one more call of `read` fail. Calls are counted from 1.
    pub fn fail_at(&mut self, call: u64) -> Result<(), NoMemory>
        ensures ok { OnOk result (self.new
            ≡ record self.old { plan = with_failing self.old.plan call }) }
        ensures err { OnErr result (self.new ≡ self.old) }
    {
        self.plan.fail_at(call)
    }
}

impl Source for MemorySource {
    ghost use Rattle.std.specs.Prelude.{Some, take};

    ghost heard = { λ m. Some (take m.place m.bytes) };

    ghost faults = { λ m. m.plan.faults };

    fn read<U: Due, K: Sink>(&mut self, sink: &K, buf: &mut [u8]) -> Heard {
        let _ = sink;
        if self.plan.next_call() {
            self.plan.count_fault();
            return Heard::Failed;
        }
        let left = &self.bytes.as_slice()[self.place..];
        let count = left.len().min(self.piece).min(buf.len());
        if count == 0 {
            return Heard::End;
        }
        buf[..count].copy_from_slice(&left[..count]);
        self.place += count;
        Heard::Bytes(count)
    }
}

ghost use Rattle.std.specs.Prelude.{◌≡◌, ◌<◌};
ghost use Rattle.trace_ring.specs.Trial.{trial, trial_params, refused_fetch, next_word};

use elf_image::{Image, Segments};
use fsim_base::{Access, Bytes, Cause, Class};
use mono_model::{Params, Setup};
use rollback_cmds::Order;
use std::alloc::Global;
use trace_entry::Entry;

/// A machine that is far from its first result when its run ends.
fn params() -> Params
    ensures { result ≡ trial_params }
{
    Params {
        ram_size: 4096,
        core_fetch: 8,
        core_front: 32,
        core_window: 256,
        predictor_counters: 1,
        icache_sets: 1,
        dcache_sets: 1,
        l2_sets: 1,
        ..Params::plain()
    }
}

/// A run without a program.
pub fn setup(alloc: Global) -> Setup
    ensures { result ≡ trial }
{
    Setup {
        image: Image {
            entry: 0,
            segments: Segments::new(Vec::new(alloc)),
        },
        params: params(),
        input: Bytes::new(Vec::new(alloc)),
        cycles: 11,
        output: 0,
        ring: 16,
    }
}

/// A fetch that fails: its trap leads to address 0.
pub fn refused_fetch(epoch: u64, number: u64, addr: u32) -> Entry
    ensures { result ≡ refused_fetch epoch number addr }
{
    Entry {
        number,
        epoch,
        addr,
        word: 0,
        access: Access::Nothing,
        next: 0,
        cause: Some(Cause::InstructionAccess),
        class: Class::Alu,
        unserved: false,
        out: None,
        halt: None,
        irq_on: false,
        cmp: u64::MAX,
    }
}

/// The order in a place.
pub fn next_word(place: u32) -> Order
    requires place { place < 88 }
    ensures { result ≡ next_word place }
{
    let number = place + 1;
    Order::Set {
        n: u64::from(number),
        addr: 4 * number,
    }
}

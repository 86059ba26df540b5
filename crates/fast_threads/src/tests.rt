//! What no clause says: that what one side has pushed and flushed, the other one has at its next
//! call.
use crate::func_worker::FuncWorker;
use crate::time_worker::TimeWorker;
use crate::worker::Worker;
use device_bus::{AnyDevice, Console, Device, Finisher, Timer, in_order};
use elf_image::read;
use fsim_base::Bytes;
use fsim_ports::QuietGate;
use mono_model::{Params, Setup};
use std::alloc::Global;
use std::process::Abort;
use std::sync::Wait;
use std::test::Fail;
use trace_ring::rings;

/// Four instructions from 0x80000000 on: LUI x5, 0x100; LUI x6, 5; ADDI x6, x6, 0x555;
/// SW x6, 0(x5). The last one stores a pass.
const IMAGE: [u8; 100] = [
    0x7f, 0x45, 0x4c, 0x46, 0x01, 0x01, 0x01, 0x00, 0x00, 0x00, 0x00, 0x00, 0x00, 0x00, 0x00, 0x00,
    0x02, 0x00, 0xf3, 0x00, 0x01, 0x00, 0x00, 0x00, 0x00, 0x00, 0x00, 0x80, 0x34, 0x00, 0x00, 0x00,
    0x00, 0x00, 0x00, 0x00, 0x00, 0x00, 0x00, 0x00, 0x34, 0x00, 0x20, 0x00, 0x01, 0x00, 0x00, 0x00,
    0x00, 0x00, 0x00, 0x00, 0x01, 0x00, 0x00, 0x00, 0x54, 0x00, 0x00, 0x00, 0x00, 0x00, 0x00, 0x80,
    0x00, 0x00, 0x00, 0x80, 0x10, 0x00, 0x00, 0x00, 0x10, 0x00, 0x00, 0x00, 0x05, 0x00, 0x00, 0x00,
    0x04, 0x00, 0x00, 0x00, 0xb7, 0x02, 0x10, 0x00, 0x37, 0x53, 0x00, 0x00, 0x13, 0x03, 0x53, 0x55,
    0x23, 0xa0, 0x62, 0x00,
];

/// More turns than the run has.
const TURNS: u32 = 1000;

fn setup_of(alloc: Global) -> Result<Setup, Fail> {
    let params = Params {
        core_window: 8,
        ..Params::plain()
    };
    Ok(Setup {
        image: read(alloc, &IMAGE, params.ram_range())?,
        params,
        input: Bytes::new(Vec::new(alloc)),
        cycles: 1000,
        output: 0,
        ring: 64,
    })
}

fn devices_of(alloc: Global) -> Result<Vec<AnyDevice>, Fail> {
    let mut devices = Vec::new(alloc);
    devices.push(AnyDevice::Console(Console::new(alloc)?))?;
    devices.push(AnyDevice::Timer(Timer::new()))?;
    devices.push(AnyDevice::Finisher(Finisher::new()))?;
    Ok(devices)
}

/// Has the sides work in turn, one entry at a time, and counts the entries and the orders that go
/// over. The timing side flushes its orders where it wants an entry that hasn't come.
fn count_in_turn<R: Wait + Abort, D: Device>(
    rt: &R,
    func: &mut FuncWorker<D>,
    time: &mut TimeWorker,
) -> (u32, u32) {
    let mut entries = 0u32;
    let mut orders = 0u32;
    for _ in 0..TURNS {
        if time.take_turn(rt, &QuietGate) {
            continue;
        }
        if func.obey(rt) {
            orders = orders.saturating_add(1);
        } else if !func.is_over() {
            // An entry is made and pushed.
            assert!(rt; func.take_turn(rt, &QuietGate));
            func.flush(rt);
            // It is there at once.
            assert!(rt; time.take_turn(rt, &QuietGate));
            entries = entries.saturating_add(1);
        }
    }
    (entries, orders)
}

/// By another simulator six instructions are fetched, and the orders are `Commit` 1 to 4, `Set` 5
/// and 6, and `Stop`.
#[test]
fn what_is_flushed_is_handed_over_at_once(rt: HostRuntime) -> Result<(), Fail> {
    let alloc = rt.alloc();
    let setup = setup_of(alloc)?;
    let devices = devices_of(alloc)?;
    assert!(rt; setup.sound() && in_order(devices.as_slice()));
    let (func_end, time_end) = rings(alloc, &setup)?;
    let mut func = FuncWorker::new(alloc, &setup, func_end, devices)?;
    let mut time = TimeWorker::new(alloc, &setup, time_end)?;
    assert_eq!(rt; count_in_turn(&rt, &mut func, &mut time), (6, 7));
    assert!(rt; time.halted() && func.stopped());
    Ok(())
}

//! A gate that holds each side until the other has had a turn, and makes turns slow: that the
//! program runs the sides in two threads, and that no number depends on how fast they are.
use super::programs::files_of_runs;
use super::{answer_with, set_with};
use crossbeam_utils::CachePadded;
use device_bus::Console;
use fsim_ports::{Gate, MemorySink};
use std::alloc::Global;
use std::process::Abort;
use std::sync::Wait;
use std::sync::atomic::{AtomicBool, Ordering};
use std::test::Fail;
use std::thread::Threads;
use std::{hint, thread};

/// How often a thread gives way to the other before it gives up.
const MOST_YIELDS: u32 = 1_000_000;

/// Holds each side until the other has had a turn, which on one thread never comes. Then each turn
/// of a side spins as often as is told of that side.
#[derive(Drop)]
struct MeetingGate {
    func_spins: u32,
    time_spins: u32,
    func: CachePadded<AtomicBool>,
    time: CachePadded<AtomicBool>,
    ran_out: AtomicBool,
}

impl MeetingGate {
    fn new(func_spins: u32, time_spins: u32) -> MeetingGate {
        MeetingGate {
            func_spins,
            time_spins,
            func: CachePadded::new(AtomicBool::new(false)),
            time: CachePadded::new(AtomicBool::new(false)),
            ran_out: AtomicBool::new(false),
        }
    }

    fn meet(&self, mine: &AtomicBool, theirs: &AtomicBool) {
        mine.store(true, Ordering::SeqCst);
        for _ in 0..MOST_YIELDS {
            if theirs.load(Ordering::SeqCst) {
                return;
            }
            thread::yield_now();
        }
        self.ran_out.store(true, Ordering::SeqCst);
    }
}

impl Gate for MeetingGate {
    fn func_turn(&self) {
        self.meet(&self.func, &self.time);
        spin(self.func_spins);
    }

    fn time_turn(&self) {
        self.meet(&self.time, &self.func);
        spin(self.time_spins);
    }
}

fn spin(times: u32) {
    for _ in 0..times {
        hint::spin_loop();
    }
}

/// Runs a loop in two threads through a gate, and gives what it writes.
fn run_through<R: Threads + Wait + Sync + Abort>(
    rt: &R,
    alloc: Global,
    gate: &MeetingGate,
) -> Result<MemorySink, Fail> {
    let devices = set_with(alloc, Box::new(alloc, Console::new(alloc)?)?)?;
    let mut files = files_of_runs(alloc)?;
    let mut sink = MemorySink::new(alloc, 4096)?;
    let line = "run loop targets";
    let number = answer_with(rt, alloc, line, &mut files, &mut sink, devices, gate)?;
    assert_eq!(rt; number, 0);
    assert!(rt; sink.bytes().starts_with(b"status: pass\ncycles: 30\n"));
    Ok(sink)
}

#[test]
fn run_has_both_sides_at_work(rt: HostRuntime) -> Result<(), Fail> {
    let gate = MeetingGate::new(0, 0);
    run_through(&rt, rt.alloc(), &gate)?;
    assert!(rt; !gate.ran_out.load(Ordering::SeqCst));
    Ok(())
}

#[test]
fn slow_turns_change_nothing(rt: HostRuntime) -> Result<(), Fail> {
    let quick = run_through(&rt, rt.alloc(), &MeetingGate::new(0, 0))?;
    for (func, time) in [(1000, 0), (0, 1000), (1000, 1000)] {
        let slow = run_through(&rt, rt.alloc(), &MeetingGate::new(func, time))?;
        assert_eq!(rt; slow.bytes(), quick.bytes());
    }
    Ok(())
}

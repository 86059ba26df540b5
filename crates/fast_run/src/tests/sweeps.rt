//! Lines of a sweep, against values worked out by hand from the machine's rules, and by another
//! simulator: `reference/out/reference sweep` writes them again.
use super::programs::files_of_runs;
use super::{answer_with, check, set_with};
use device_bus::Console;
use fsim_ports::{MemorySink, QuietGate};
use std::test::Fail;

/// Lines, and what is written of the machines that they name.
const SWEEPS: [(&str, &str); 7] = [
    (
        "sweep pass plain eight bad",
        "plain: pass cycles 13 instructions 4 mispredicted 0 icache 0 dcache 0\n\
         eight: pass cycles 7 instructions 4 mispredicted 0 icache 0 dcache 0\n\
         bad: machine: range core.window 0\n",
    ),
    (
        "sweep pass bad plain",
        "bad: machine: range core.window 0\n\
         plain: pass cycles 13 instructions 4 mispredicted 0 icache 0 dcache 0\n",
    ),
    (
        "sweep loop targets plain",
        "targets: pass cycles 30 instructions 25 mispredicted 2 icache 0 dcache 0\n\
         plain: pass cycles 76 instructions 25 mispredicted 9 icache 0 dcache 0\n",
    ),
    (
        "sweep short plain bad",
        "plain: image: short\nbad: machine: range core.window 0\n",
    ),
    (
        "sweep evict lane bad --pipeline inorder",
        "lane: pass cycles 36 instructions 8 mispredicted 1 icache 0 dcache 1\n\
         bad: machine: range core.window 0\n",
    ),
    // The ninth machine comes once the first eight are done.
    (
        "sweep evict plain four eight targets line slow wide large narrow",
        "plain: pass cycles 25 instructions 8 mispredicted 1 icache 0 dcache 0\n\
         four: pass cycles 12 instructions 8 mispredicted 1 icache 0 dcache 0\n\
         eight: pass cycles 12 instructions 8 mispredicted 1 icache 0 dcache 0\n\
         targets: pass cycles 12 instructions 8 mispredicted 1 icache 0 dcache 0\n\
         line: pass cycles 32 instructions 8 mispredicted 1 icache 0 dcache 3\n\
         slow: pass cycles 22 instructions 8 mispredicted 1 icache 0 dcache 0\n\
         wide: pass cycles 12 instructions 8 mispredicted 1 icache 0 dcache 0\n\
         large: pass cycles 60 instructions 8 mispredicted 1 icache 1 dcache 2\n\
         narrow: pass cycles 35 instructions 8 mispredicted 1 icache 0 dcache 1\n",
    ),
    (
        "sweep evict plain line --cycles 20",
        "plain: limit cycles 20 instructions 6 mispredicted 1 icache 0 dcache 0\n\
         line: limit cycles 20 instructions 3 mispredicted 1 icache 0 dcache 3\n",
    ),
];

fn sweeps() -> &'static [(&'static str, &'static str)] {
    &SWEEPS
}

#[test]
fn lines_stand_in_the_order_of_the_words(rt: HostRuntime) -> Result<(), Fail> {
    let alloc = rt.alloc();
    let mut files = files_of_runs(alloc)?;
    files.add("short", b"")?;
    for &(line, text) in sweeps() {
        check(&rt, alloc, line, &mut files, 5, text)?;
    }
    Ok(())
}

/// A sweep takes a set of devices for each machine that it names.
#[test]
fn two_machines_want_two_sets_of_devices(rt: HostRuntime) -> Result<(), Fail> {
    let alloc = rt.alloc();
    let devices = set_with(alloc, Box::new(alloc, Console::new(alloc)?)?)?;
    let mut files = files_of_runs(alloc)?;
    let mut sink = MemorySink::new(alloc, 4096)?;
    let line = "sweep pass plain eight";
    let number = answer_with(&rt, alloc, line, &mut files, &mut sink, devices, &QuietGate)?;
    assert_eq!(rt; number, 22);
    assert_eq!(rt; sink.bytes(), b"fast: sets: 2\n".as_slice());
    Ok(())
}

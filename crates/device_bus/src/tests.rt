ghost use Rattle.std.specs.Prelude.{◌≡◌, map};
ghost use Rattle.device_bus.specs.Bus.{device_order};

use crate::any_device::AnyDevice;
use crate::bus::{Bus, in_order, sets_in_order};
use crate::console::Console;
use crate::device::Device;
use crate::finisher::Finisher;
use crate::place::Place;
use crate::timer::Timer;
use crate::undo::{DevUndo, Note};
use fsim_base::{Halt, Width};
use std::alloc::Global;
use std::process::Abort;
use std::test::Fail;

/// An access and what it must give.
#[derive(Clone, Copy)]
enum Access {
    /// Offset, width, time and value.
    Load(u32, Width, u64, u32),
    /// Offset, width, value and note.
    Store(u32, Width, u32, Note),
}

/// A driver's walk over the console with the input `AB`: the divisor latch hides data, and the line
/// status tells of input.
static CONSOLE: [Access; 16] = [
    Access::Load(5, Width::Byte, 0, 0x61),
    Access::Store(3, Width::Byte, 0x80, Note::Nothing),
    Access::Load(3, Width::Byte, 0, 0x80),
    Access::Load(0, Width::Byte, 0, 0),
    Access::Store(0, Width::Byte, 1, Note::Nothing),
    Access::Load(5, Width::Byte, 0, 0x61),
    Access::Store(3, Width::Byte, 0x103, Note::Nothing),
    Access::Load(3, Width::Byte, 0, 0x03),
    Access::Store(0, Width::Byte, 0x48, Note::Out(0x48)),
    Access::Store(0, Width::Word, 0x0101_0169, Note::Out(0x69)),
    Access::Store(1, Width::Byte, 1, Note::Nothing),
    Access::Load(0, Width::Half, 0, 0x41),
    Access::Load(0, Width::Word, 0, 0x42),
    Access::Load(0, Width::Byte, 0, 0),
    Access::Load(5, Width::Byte, 0, 0x60),
    Access::Load(6, Width::Half, 0, 0),
];

const TIME: u64 = 0x0123_4567_89ab_cdef;

static TIMER: [Access; 11] = [
    Access::Load(0x4000, Width::Word, TIME, 0xffff_ffff),
    Access::Load(0x4004, Width::Word, TIME, 0xffff_ffff),
    Access::Store(0x4000, Width::Word, 0x1111_2222, Note::Nothing),
    Access::Store(0x4004, Width::Word, 0x3333_4444, Note::Nothing),
    Access::Load(0x4000, Width::Word, TIME, 0x1111_2222),
    Access::Load(0x4004, Width::Word, TIME, 0x3333_4444),
    Access::Store(0xbff8, Width::Word, 7, Note::Nothing),
    Access::Store(0xbffc, Width::Word, 7, Note::Nothing),
    Access::Load(0xbff8, Width::Word, TIME, 0x89ab_cdef),
    Access::Load(0xbffc, Width::Word, TIME, 0x0123_4567),
    Access::Load(0x4008, Width::Word, TIME, 0),
];

static FINISHER: [Access; 8] = [
    Access::Store(0, Width::Word, 0x5555, Note::End(Halt::Pass)),
    Access::Store(0, Width::Word, 0x0007_3333, Note::End(Halt::Fail(7))),
    Access::Store(0, Width::Word, 0x3333, Note::End(Halt::Fail(0))),
    Access::Store(0, Width::Word, 0x0001_5555, Note::Nothing),
    Access::Store(0, Width::Half, 0x5555, Note::Nothing),
    Access::Store(0, Width::Byte, 0x5555, Note::Nothing),
    Access::Store(4, Width::Word, 0x5555, Note::Nothing),
    Access::Load(0, Width::Word, 0, 0),
];

/// Starts a device with the input `AB`, and makes the accesses.
fn check_all<D: Device>(rt: &impl Abort, alloc: Global, mut device: D, accesses: &[Access]) {
    assert!(rt; device.start(alloc, b"AB").is_ok());
    for access in accesses {
        check(rt, &mut device, *access);
    }
}

/// Makes an access, takes it back and makes it again: the second answer is the first.
fn check<D: Device>(rt: &impl Abort, device: &mut D, access: Access) {
    match access {
        Access::Load(off, width, time, value) => {
            assert!(rt; device.accepts(off, width));
            let (first, undo) = device.load(off, width, time);
            device.undo(undo);
            let (second, _) = device.load(off, width, time);
            assert_eq!(rt; (first, second), (value, value), "load at {off}");
        }
        Access::Store(off, width, value, note) => {
            assert!(rt; device.accepts(off, width));
            let (first, undo) = device.store(off, width, value);
            device.undo(undo);
            let (second, _) = device.store(off, width, value);
            assert_eq!(rt; first, note, "store at {off}");
            assert_eq!(rt; second, note, "store again at {off}");
        }
    }
}

/// A load takes the next byte of the input, its undo gives it back, and the next load takes the
/// same byte.
#[test]
#[tactic(auto, unfolding(crate::specs::Range::accepts_of))]
fn console_load_is_taken_back(rt: HostRuntime) -> Result<(), Fail> {
    let mut console = Console::new(rt.alloc()).ok().ok_or("no memory")?;
    console.start(rt.alloc(), b"AB").ok().ok_or("no memory")?;
    let (value, undo) = console.load(0, Width::Byte, 0);
    assert_eq!(rt; (value, console.number(1)), (0x41, 1));
    console.undo(undo);
    assert_eq!(rt; console.number(1), 0);
    let (value, _) = console.load(0, Width::Byte, 0);
    assert_eq!(rt; (value, console.number(1)), (0x41, 1));
    Ok(())
}

#[test]
fn registers_answer_and_keep_what_their_tables_say(rt: HostRuntime) -> Result<(), Fail> {
    let console = Console::new(rt.alloc()).ok().ok_or("no memory")?;
    check_all(&rt, rt.alloc(), console, &CONSOLE);
    check_all(&rt, rt.alloc(), Timer::new(), &TIMER);
    check_all(&rt, rt.alloc(), Finisher::new(), &FINISHER);
    Ok(())
}

/// Addresses, widths, and the places that they have, around the ends of the ranges.
static PLACES: [(u32, Width, Option<Place>); 10] = [
    (
        0x1000_0000,
        Width::Byte,
        Some(Place {
            device: 0,
            off: 0,
            accepted: true,
        }),
    ),
    (
        0x1000_00ff,
        Width::Byte,
        Some(Place {
            device: 0,
            off: 0xff,
            accepted: true,
        }),
    ),
    (0x1000_0100, Width::Byte, None),
    (0x0fff_ffff, Width::Byte, None),
    (
        0x0200_bffc,
        Width::Word,
        Some(Place {
            device: 1,
            off: 0xbffc,
            accepted: true,
        }),
    ),
    (
        0x0200_bffc,
        Width::Half,
        Some(Place {
            device: 1,
            off: 0xbffc,
            accepted: false,
        }),
    ),
    (0x0201_0000, Width::Word, None),
    (
        0x0010_0ffc,
        Width::Word,
        Some(Place {
            device: 2,
            off: 0xffc,
            accepted: true,
        }),
    ),
    (0x0010_1000, Width::Word, None),
    (0x8000_0000, Width::Word, None),
];

fn places() -> &'static [(u32, Width, Option<Place>)] {
    &PLACES
}

/// Places, accesses and undos on a bus.
#[tactic(auto, unfolding(crate::specs::Range::accepts_of))]
fn drive<D: Device>(rt: &impl Abort, alloc: Global, devices: Vec<D>)
    requires order { map D.kind devices.items ≡ device_order }
{
    let mut bus = Bus::new(devices);
    assert!(rt; bus.start(alloc, b"AB").is_ok());
    for &(addr, width, place) in places() {
        assert_eq!(rt; bus.find(addr, width), place, "at {addr}");
    }
    let (value, undo) = bus.load(0, 0, Width::Byte, 0);
    assert_eq!(rt; (value, bus.number(0, 1)), (0x41, 1));
    bus.undo(0, undo);
    assert_eq!(rt; bus.number(0, 1), 0);
    let (note, undo) = bus.store(1, 0x4004, Width::Word, 5);
    assert_eq!(rt;
        (note, bus.number(1, 0), bus.number(1, 1)),
        (Note::Nothing, 0xffff_ffff, 5)
    );
    bus.undo(1, undo);
    assert_eq!(rt; bus.number(1, 1), 0xffff_ffff);
    let (note, _) = bus.store(2, 0, Width::Word, 0x5555);
    assert_eq!(rt; note, Note::End(Halt::Pass));
}

#[test]
fn bus_drives_devices_in_boxes(rt: HostRuntime) -> Result<(), Fail> {
    let alloc = rt.alloc();
    let mut devices: Vec<Box<dyn Device + Send>> = Vec::new(alloc);
    devices.push(Box::new(alloc, Console::new(alloc).ok().ok_or("no memory")?)?)?;
    devices.push(Box::new(alloc, Timer::new())?)?;
    assert!(rt; !in_order(&devices));
    devices.push(Box::new(alloc, Finisher::new())?)?;
    assert!(rt; in_order(&devices));
    drive(&rt, alloc, devices);
    Ok(())
}

#[test]
fn bus_drives_devices_of_one_type(rt: HostRuntime) -> Result<(), Fail> {
    let alloc = rt.alloc();
    let mut devices = Vec::new(alloc);
    devices.push(AnyDevice::Console(Console::new(alloc).ok().ok_or("no memory")?))?;
    devices.push(AnyDevice::Finisher(Finisher::new()))?;
    devices.push(AnyDevice::Timer(Timer::new()))?;
    assert!(rt; !in_order(&devices));
    devices.swap(1, 2);
    assert!(rt; in_order(&devices));
    drive(&rt, alloc, devices);
    Ok(())
}

/// Adds a set of devices.
fn push_set(alloc: Global, devices: &mut Vec<Box<dyn Device + Send>>) -> Result<(), Fail> {
    devices.push(Box::new(alloc, Console::new(alloc).ok().ok_or("no memory")?)?)?;
    devices.push(Box::new(alloc, Timer::new())?)?;
    devices.push(Box::new(alloc, Finisher::new())?)?;
    Ok(())
}

#[test]
fn whole_sets_are_in_order_up_to_64_of_them(rt: HostRuntime) -> Result<(), Fail> {
    let alloc = rt.alloc();
    let mut devices: Vec<Box<dyn Device + Send>> = Vec::new(alloc);
    assert!(rt; !sets_in_order(&devices));
    for _ in 0..64 {
        push_set(alloc, &mut devices)?;
        assert!(rt; sets_in_order(&devices));
    }
    assert!(rt; !in_order(&devices));
    let _ = devices.pop();
    assert!(rt; !sets_in_order(&devices), "a set has three devices");
    devices.push(Box::new(alloc, Finisher::new())?)?;
    assert!(rt; sets_in_order(&devices));
    push_set(alloc, &mut devices)?;
    assert!(rt; !sets_in_order(&devices), "there are 64 sets at most");
    Ok(())
}

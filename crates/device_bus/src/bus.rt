ghost use Rattle.std.specs.Prelude.{◌≡◌, ◌/◌, ◌<◌, ◌≤◌, ◌↔◌, [], ◌∷◌, length, map, slice_index};
ghost use Rattle.std.specs.Prelude.{IsTrue, IsNone, IfSome, OnOk};
ghost use Rattle.device_bus.specs.Range.{accepts_of, IsInRange};
ghost use Rattle.device_bus.specs.Device.{loading, storing, slots_of};
ghost use Rattle.device_bus.specs.Undo.{NamesSlot, Undoes};
ghost use Rattle.device_bus.specs.Bus.{device_order, sets_order, AreSets};
ghost use Rattle.device_bus.specs.Bus.{kind_at, find_of, state_of, opening_devices, answer_at};
ghost use Rattle.device_bus.specs.Bus.{devices_after, devices_undone};

use crate::device::{Device, INPUT_LIMIT};
use crate::kind::DeviceKind;
use crate::place::Place;
use crate::undo::{DevUndo, Note};
use fsim_base::{NoMemory, Width};
use std::alloc::Global;
use std::marker::Model;

/// Whether there are three devices: console, timer, finisher, in this order.
pub fn in_order<D: Device>(devices: &[D]) -> bool
    ensures order { IsTrue result ↔ (map D.kind devices.now ≡ device_order) }
{
    match devices {
        [console, timer, finisher] => is_set(console, timer, finisher),
        _ => false,
    }
}

/// Whether three devices are console, timer and finisher, in this order.
fn is_set<D: Device>(console: &D, timer: &D, finisher: &D) -> bool
    ensures order { IsTrue result
        ↔ (D.kind console.now ∷ D.kind timer.now ∷ D.kind finisher.now ∷ [] ≡ device_order) }
{
    console.kind() == DeviceKind::Console
        && timer.kind() == DeviceKind::Timer
        && finisher.kind() == DeviceKind::Finisher
}

/// How many devices a set has: console, timer, finisher.
pub const SET_SIZE: usize = 3;

/// How many sets of devices there may be.
pub const SETS_LIMIT: usize = 64;

/// Whether there are from 1 to 64 sets of three devices, each console, timer, finisher, in this
/// order.
pub fn sets_in_order<D: Device>(devices: &[D]) -> bool
    ensures order { IsTrue result ↔ AreSets (length devices.now / 3) (map D.kind devices.now) }
{
    let sets = devices.len() / SET_SIZE;
    1 <= sets && sets <= SETS_LIMIT && are_whole_sets(devices)
}

/// Whether the devices are any number of sets, none among them.
fn are_whole_sets<D: Device>(devices: &[D]) -> bool
    ensures order { IsTrue result ↔ (map D.kind devices.now ≡ sets_order (length devices.now / 3)) }
{
    match devices {
        [] => true,
        [console, timer, finisher, rest @ ..] => {
            is_set(console, timer, finisher) && are_whole_sets(rest)
        }
        _ => false,
    }
}

/// The three devices, which contracts see as their states alone.
#[derive(Drop)]
pub struct Bus<D: Device> {
    console: D,
    timer: D,
    finisher: D,
}

impl<D: Device> Model for Bus<D> {
    ghost use Rattle.std.specs.Prelude.{◌≡◌};
    ghost use Rattle.device_bus.specs.declared.kind.DeviceKind.{DeviceKind};
    ghost use Rattle.device_bus.specs.Bus.{Devices};

    ghost Value = { Devices };

    ghost view = { λ b. record {
      console = D.state b.console;
      timer = D.state b.timer;
      finisher = D.state b.finisher;
    } };

    ghost invariant = { λ b.
        (D.kind b.console ≡ DeviceKind.Console)
        × (D.kind b.timer ≡ DeviceKind.Timer)
        × (D.kind b.finisher ≡ DeviceKind.Finisher) };
}

impl<D: Device> Bus<D> {
    /// The bus of three devices, which are as they were.
    pub fn new(devices: Vec<D>) -> Bus<D>
        requires order { map D.kind devices.items ≡ device_order }
        ensures states { map D.state devices.items
            ≡ result.console ∷ result.timer ∷ result.finisher ∷ [] }
    {
        let mut devices = devices;
        let finisher = devices.pop().unwrap();
        let timer = devices.pop().unwrap();
        let console = devices.pop().unwrap();
        Bus {
            console,
            timer,
            finisher,
        }
    }

    /// Makes the devices ready for a run with this input. Want of memory leaves them unfit for a
    /// run.
    pub fn start(&mut self, alloc: Global, input: &[u8]) -> Result<(), NoMemory>
        requires input { length input.now ≤ INPUT_LIMIT }
        ensures started { OnOk result (self.new ≡ opening_devices input.now) }
    {
        self.console.start(alloc, input)?;
        self.timer.start(alloc, input)?;
        self.finisher.start(alloc, input)?;
        Ok(())
    }

    /// Where an address lies among the devices, and whether the device accepts an access of this
    /// width there. It accepts no misaligned one.
    #[tactic(auto, unfolding(crate::specs::Bus::find_of))]
    pub fn find(&self, addr: u32, width: Width) -> Option<Place>
        ensures place { result ≡ find_of addr width }
        ensures outside { IsNone result ↔ ((kind : DeviceKind) → ¬ IsInRange kind addr) }
        ensures device { IfSome result (λ place. place.device < 3) }
        ensures accepted { IfSome result
            (λ place. place.accepted ≡ accepts_of (kind_at place.device) place.off width) }
    {
        let kind = DeviceKind::at(addr)?;
        let off = addr - kind.base();
        let (device, accepted) = match kind {
            DeviceKind::Console => (0, self.console.accepts(off, width)),
            DeviceKind::Timer => (1, self.timer.accepts(off, width)),
            DeviceKind::Finisher => (2, self.finisher.accepts(off, width)),
        };
        Some(Place {
            device,
            off,
            accepted,
        })
    }

    /// A load from a device at a time: its value, and what takes it back. The others stay as they
    /// are.
    pub fn load(&mut self, device: u32, off: u32, width: Width, time: u64) -> (u32, DevUndo)
        requires device { device < 3 }
        requires accepted { IsTrue (accepts_of (kind_at device) off width) }
        ensures value { result.0
            ≡ (answer_at self.old (kind_at device) (loading off width time)).value }
        ensures devices { self.new
            ≡ devices_after self.old (kind_at device) (loading off width time) }
        ensures undoes { Undoes (kind_at device) result.1 (state_of self.old (kind_at device))
            (state_of self.new (kind_at device)) }
    {
        match device {
            0 => self.console.load(off, width, time),
            1 => self.timer.load(off, width, time),
            _ => self.finisher.load(off, width, time),
        }
    }

    /// A store to a device: what it does outside it, and what takes it back. The others stay as
    /// they are.
    pub fn store(&mut self, device: u32, off: u32, width: Width, value: u32) -> (Note, DevUndo)
        requires device { device < 3 }
        requires accepted { IsTrue (accepts_of (kind_at device) off width) }
        ensures note { result.0
            ≡ (answer_at self.old (kind_at device) (storing off width value)).note }
        ensures devices { self.new
            ≡ devices_after self.old (kind_at device) (storing off width value) }
        ensures undoes { Undoes (kind_at device) result.1 (state_of self.old (kind_at device))
            (state_of self.new (kind_at device)) }
    {
        match device {
            0 => self.console.store(off, width, value),
            1 => self.timer.store(off, width, value),
            _ => self.finisher.store(off, width, value),
        }
    }

    /// Takes back an access to a device, and changes nothing else.
    pub fn undo(&mut self, device: u32, undo: DevUndo)
        requires device { device < 3 }
        requires slot { NamesSlot (kind_at device) undo }
        ensures devices { self.new ≡ devices_undone self.old (kind_at device) undo }
    {
        match device {
            0 => self.console.undo(undo),
            1 => self.timer.undo(undo),
            _ => self.finisher.undo(undo),
        }
    }

    /// One of a device's numbers.
    pub fn number(&self, device: u32, slot: u32) -> u32
        requires device { device < 3 }
        requires slot { slot < slots_of (kind_at device) }
        ensures number { result ≡ slice_index (state_of self.now (kind_at device)).numbers slot }
    {
        match device {
            0 => self.console.number(slot),
            1 => self.timer.number(slot),
            _ => self.finisher.number(slot),
        }
    }
}

ghost use Rattle.std.specs.Prelude.{◌≡◌, []};
ghost use Rattle.device_bus.specs.Device.{finish_note};

use crate::device::Device;
use crate::kind::DeviceKind;
use crate::undo::{DevUndo, Note};
use fsim_base::{Halt, NoMemory, Width};
use std::alloc::Global;

/// The register by which a program ends the run. It has no numbers.
#[derive(Debug, Drop)]
pub struct Finisher;

/// Offset of the register.
const FINISH: u32 = 0;

/// The word that ends the run well.
const PASS: u32 = 0x5555;

/// The low half of a word that ends the run badly; its high half is the code.
const FAIL: u32 = 0x3333;

/// How a word that is stored to the register ends the run, if it does.
fn finish(value: u32) -> Note
    ensures note { result ≡ finish_note value }
{
    if value == PASS {
        Note::End(Halt::Pass)
    } else if value & 0xffff == FAIL {
        Note::End(Halt::Fail((value >> 16) as u16))
    } else {
        Note::Nothing
    }
}

impl Finisher {
    /// A finisher. There is one value of the type.
    pub fn new() -> Finisher {
        Finisher
    }
}

impl Device for Finisher {
    ghost use Rattle.device_bus.specs.declared.kind.DeviceKind.{DeviceKind};

    ghost kind = { λ _. DeviceKind.Finisher };

    ghost state = { λ _. record { given = []; numbers = [] } };

    fn kind(&self) -> DeviceKind {
        DeviceKind::Finisher
    }

    fn start(&mut self, _alloc: Global, _input: &[u8]) -> Result<(), NoMemory> {
        Ok(())
    }

    #[tactic(auto, unfolding(crate::specs::Device::dev))]
    fn load(&mut self, _off: u32, _width: Width, _time: u64) -> (u32, DevUndo) {
        (0, DevUndo::NOTHING)
    }

    #[tactic(auto, unfolding(crate::specs::Device::dev))]
    fn store(&mut self, off: u32, width: Width, value: u32) -> (Note, DevUndo) {
        let note = match (off, width) {
            (FINISH, Width::Word) => finish(value),
            _ => Note::Nothing,
        };
        (note, DevUndo::NOTHING)
    }

    fn undo(&mut self, _undo: DevUndo) {}

    // No slot exists, so that no call could meet the trait's condition.
    fn number(&self, _slot: u32) -> u32
        ensures none { result ≡ 0 }
    {
        0
    }
}

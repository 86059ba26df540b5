//! Registers by GDB's numbers: x0 to x31, pc, and from 65 on the CSRs by their addresses.
ghost use Rattle.std.specs.Prelude.{◌≡◌};
ghost use Rattle.mono_model.specs.declared.setup.Setup.{Setup as RunSetup};
ghost use Rattle.func_model.specs.Trail.{TrailStandsFor};
ghost use Rattle.gdb_model.specs.Registers.{register_at};
ghost use Rattle.gdb_model.specs.Talk.{are_bytes_of, has_bytes, little_or_bad, registers_text};

use back_debug::Debugger;
use device_bus::Device;
use gdb_packets::{HexBytes, Reply};

/// GDB's number of pc.
const PC: u64 = 32;

/// GDB's number of the CSR at address 0.
const FIRST_CSR: u64 = 65;

/// The value of a register, if there is one of this number.
pub fn register<D: Device>(debugger: &Debugger<D>, number: u64) -> Option<u32>
    ensures value { (s : RunSetup) → TrailStandsFor s debugger.now
        → result ≡ register_at s debugger.now.at number }
{
    if number < PC {
        Some(debugger.found().regs[number as usize])
    } else if number == PC {
        Some(debugger.next_address())
    } else if FIRST_CSR <= number {
        debugger.csr(u16::try_from(number - FIRST_CSR).ok()?)
    } else {
        None
    }
}

/// The registers that GDB wants at each stop: x0 to x31, and pc.
pub fn registers_reply<D: Device>(debugger: &Debugger<D>) -> Reply
    ensures text { (s : RunSetup) → TrailStandsFor s debugger.now
        → result ≡ registers_text s debugger.now.at }
{
    let found = debugger.found();
    let mut reply = Reply::new();
    for value in found.regs.iter() {
        reply.little(*value);
    }
    reply.little(found.pc);
    reply
}

/// The value of a register, or that there is none.
pub fn register_reply<D: Device>(debugger: &Debugger<D>, number: u64) -> Reply
    ensures text { (s : RunSetup) → TrailStandsFor s debugger.now
        → result ≡ little_or_bad (register_at s debugger.now.at number) }
{
    let mut reply = Reply::new();
    match register(debugger, number) {
        Some(value) => reply.little(value),
        None => reply.bytes(b"E01"),
    }
    reply
}

/// Whether a register has these bytes.
pub fn has_register<D: Device>(debugger: &Debugger<D>, number: u64, bytes: &HexBytes<'_>) -> bool
    ensures same { (s : RunSetup) → TrailStandsFor s debugger.now
        → result ≡ has_bytes bytes.now (register_at s debugger.now.at number) }
{
    match register(debugger, number) {
        Some(value) => are_bytes_of(value, bytes),
        None => false,
    }
}

/// Whether these are the bytes of a value, the lowest first.
fn are_bytes_of(value: u32, bytes: &HexBytes<'_>) -> bool
    ensures same { result ≡ are_bytes_of value bytes.now }
{
    let wanted = value.to_le_bytes();
    if bytes.len() != wanted.len() {
        return false;
    }
    for (place, byte) in wanted.iter().enumerate() {
        if bytes.at(place) != *byte {
            return false;
        }
    }
    true
}

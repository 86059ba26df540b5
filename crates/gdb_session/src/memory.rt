//! Memory and devices as bytes.
ghost use Rattle.std.specs.Prelude.{◌≡◌, ◌+◌, ◌*◌, ◌≤◌, ◌++◌, length};
ghost use Rattle.hex.specs.Hex.{encode_lower};
ghost use Rattle.mono_model.specs.declared.setup.Setup.{Setup as RunSetup};
ghost use Rattle.func_model.specs.Position.{byte_at};
ghost use Rattle.func_model.specs.Trail.{TrailStandsFor};
ghost use Rattle.gdb_model.specs.Talk.{bytes_from, has_memory, memory_text};

use back_debug::Debugger;
use device_bus::Device;
use gdb_packets::{CONTENT_LIMIT, HexBytes, Reply};

/// How many bytes fill a packet, two digits each.
const MOST: u64 = (CONTENT_LIMIT / 2) as u64;

/// The byte at a place after an address.
fn byte_after<D: Device>(debugger: &mut Debugger<D>, address: u64, place: u64) -> Option<u8>
    ensures byte { (s : RunSetup) → TrailStandsFor s debugger.old
        → result ≡ byte_at s debugger.old.at (address + place) }
    ensures same { debugger.new ≡ debugger.old }
{
    let address = address.checked_add(place)?;
    debugger.byte(u32::try_from(address).ok()?)
}

/// Appends the bytes from an address on, so many or up to the first that isn't there, and says how
/// many these are.
fn put_bytes<D: Device>(
    debugger: &mut Debugger<D>,
    address: u64,
    count: u64,
    reply: &mut Reply,
) -> u64
    requires room { length reply.old + 2 * count ≤ CONTENT_LIMIT }
    ensures text { (s : RunSetup) → TrailStandsFor s debugger.old → reply.new
        ≡ reply.old ++ encode_lower (bytes_from s debugger.old.at address count) }
    ensures count { (s : RunSetup) → TrailStandsFor s debugger.old
        → result ≡ length (bytes_from s debugger.old.at address count) }
    ensures bound { length reply.new ≤ length reply.old + 2 * result }
    ensures same { debugger.new ≡ debugger.old }
{
    for place in 0..count {
        match byte_after(debugger, address, place) {
            Some(byte) => reply.hex(byte),
            None => return place,
        }
    }
    count
}

/// The bytes from an address on, as many as there are and fit, or that there is none.
pub fn memory_reply<D: Device>(debugger: &mut Debugger<D>, address: u64, size: u64) -> Reply
    ensures text { (s : RunSetup) → TrailStandsFor s debugger.old
        → result ≡ memory_text s debugger.old.at address size }
    ensures same { debugger.new ≡ debugger.old }
{
    let mut reply = Reply::new();
    if put_bytes(debugger, address, size.min(MOST), &mut reply) == 0 {
        reply.bytes(b"E01");
    }
    reply
}

/// Whether memory has these bytes, so many, from an address on.
pub fn has_memory<D: Device>(
    debugger: &mut Debugger<D>,
    address: u64,
    size: u64,
    bytes: &HexBytes<'_>,
) -> bool
    ensures same { (s : RunSetup) → TrailStandsFor s debugger.old
        → result ≡ has_memory s debugger.old.at address size bytes.now }
    ensures unchanged { debugger.new ≡ debugger.old }
{
    if bytes.len() as u64 != size {
        return false;
    }
    for place in 0..bytes.len() {
        if byte_after(debugger, address, place as u64) != Some(bytes.at(place)) {
            return false;
        }
    }
    true
}

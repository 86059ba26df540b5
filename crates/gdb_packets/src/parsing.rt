//! What the content of a packet asks for.
ghost use Rattle.std.specs.Option.{option_copied};
ghost use Rattle.std.specs.Prelude.{◌≡◌, position};
ghost use Rattle.gdb_packets.specs.Packet.{action_in, actions_in, after_text, description_in};
ghost use Rattle.gdb_packets.specs.Packet.{ends_action, known_packet, letter_packet, memory_in};
ghost use Rattle.gdb_packets.specs.Packet.{memory_write_in, monitor_in, named_packet, or_malformed};
ghost use Rattle.gdb_packets.specs.Packet.{packet_of, plain_packet, point_in, point_kind};
ghost use Rattle.gdb_packets.specs.Packet.{point_packet, register_in, register_write_in};

use crate::hex_bytes::HexBytes;
use crate::number::{number_in, numbers_in, parted};
use crate::packet::{CONTENT_LIMIT, Packet, Point, PointKind};

/// What the content of a packet asks for. Its bytes stay where they are: the packet refers to the
/// digits that it writes bytes in.
pub fn parse(content: &[u8]) -> Packet<'_>
    ensures packet { result ≡ packet_of content.now }
{
    if CONTENT_LIMIT < content.len() {
        return Packet::Unknown;
    }
    known_packet(content).unwrap_or(Packet::Unknown)
}

/// What a content asks for, if it is known.
fn known_packet(content: &[u8]) -> Option<Packet<'_>>
    ensures packet { result ≡ known_packet content.now }
{
    if let Some(packet) = plain_packet(content) {
        return Some(packet);
    }
    if let Some(packet) = point_packet(content) {
        return Some(packet);
    }
    if let Some(packet) = letter_packet(content) {
        return Some(packet);
    }
    named_packet(content)
}

/// A packet without an argument.
fn plain_packet(content: &[u8]) -> Option<Packet<'static>>
    ensures packet { result ≡ plain_packet content.now }
{
    if content == b"?".as_slice() {
        Some(Packet::Reason)
    } else if content == b"g".as_slice() {
        Some(Packet::Registers)
    } else if content == b"c".as_slice() {
        Some(Packet::Continue)
    } else if content == b"s".as_slice() {
        Some(Packet::Step)
    } else if content == b"bc".as_slice() {
        Some(Packet::ContinueBack)
    } else if content == b"bs".as_slice() {
        Some(Packet::StepBack)
    } else if content == b"vCont?".as_slice() {
        Some(Packet::Actions)
    } else if content == b"D".as_slice() {
        Some(Packet::Detach)
    } else if content == b"k".as_slice() {
        Some(Packet::Kill)
    } else if content == b"qSupported".as_slice() {
        Some(Packet::Supported)
    } else if content == b"QStartNoAckMode".as_slice() {
        Some(Packet::NoAcks)
    } else {
        None
    }
}

/// A packet that sets or clears a point.
fn point_packet(content: &[u8]) -> Option<Packet<'static>>
    ensures packet { result ≡ point_packet content.now }
{
    match content {
        [b'Z', digit, rest @ ..] => match point_in(point_kind(*digit)?, rest) {
            Some(point) => Some(Packet::SetPoint(point)),
            None => Some(Packet::Malformed),
        },
        [b'z', digit, rest @ ..] => match point_in(point_kind(*digit)?, rest) {
            Some(point) => Some(Packet::ClearPoint(point)),
            None => Some(Packet::Malformed),
        },
        _ => None,
    }
}

/// The kind of a point that a digit names.
fn point_kind(digit: u8) -> Option<PointKind>
    ensures kind { result ≡ point_kind digit }
{
    match digit {
        b'0' => Some(PointKind::Software),
        b'1' => Some(PointKind::Hardware),
        b'2' => Some(PointKind::Written),
        b'3' => Some(PointKind::Read),
        b'4' => Some(PointKind::Accessed),
        _ => None,
    }
}

/// A point's address and size, each with a comma before it.
fn point_in(kind: PointKind, rest: &[u8]) -> Option<Point>
    ensures point { result ≡ point_in kind rest.now }
{
    let (address, size) = numbers_in(after_text(b",", rest)?)?;
    Some(Point {
        kind,
        address,
        size,
    })
}

/// A letter and its argument.
fn letter_packet(content: &[u8]) -> Option<Packet<'_>>
    ensures packet { result ≡ letter_packet content.now }
{
    if let Some(rest) = after_text(b"p", content) {
        Some(or_malformed(register_in(rest)))
    } else if let Some(rest) = after_text(b"P", content) {
        Some(or_malformed(register_write_in(rest)))
    } else if let Some(rest) = after_text(b"m", content) {
        Some(or_malformed(memory_in(rest)))
    } else if let Some(rest) = after_text(b"M", content) {
        Some(or_malformed(memory_write_in(rest)))
    } else {
        None
    }
}

/// A name and its argument.
fn named_packet(content: &[u8]) -> Option<Packet<'_>>
    ensures packet { result ≡ named_packet content.now }
{
    if let Some(rest) = after_text(b"vCont;", content) {
        Some(or_malformed(actions_in(rest)))
    } else if let Some(rest) = after_text(b"qXfer:features:read:target.xml:", content) {
        Some(or_malformed(description_in(rest)))
    } else if let Some(rest) = after_text(b"qRcmd,", content) {
        Some(or_malformed(monitor_in(rest)))
    } else if let Some(_) = after_text(b"qSupported:", content) {
        Some(Packet::Supported)
    } else {
        None
    }
}

/// What follows a text, if the content begins with it.
#[tactic(auto, unfolding(crate::specs::Packet::after_text))]
fn after_text<'a>(text: &[u8], content: &'a [u8]) -> Option<&'a [u8]>
    ensures rest { option_copied result ≡ after_text text.now content.now }
{
    content.strip_prefix(text)
}

/// What was read of an argument; a packet whose argument is not of its form is malformed.
fn or_malformed(read: Option<Packet<'_>>) -> Packet<'_>
    ensures packet { result ≡ or_malformed read.entry }
{
    read.unwrap_or(Packet::Malformed)
}

/// `N`.
fn register_in(rest: &[u8]) -> Option<Packet<'_>>
    ensures packet { result ≡ register_in rest.now }
{
    Some(Packet::Register(number_in(rest)?))
}

/// `N=H`.
fn register_write_in(rest: &[u8]) -> Option<Packet<'_>>
    ensures packet { result ≡ register_write_in rest.now }
{
    let (number, digits) = parted(b'=', rest)?;
    Some(Packet::WriteRegister(number_in(number)?, HexBytes::read(digits)?))
}

/// `A,L`.
fn memory_in(rest: &[u8]) -> Option<Packet<'_>>
    ensures packet { result ≡ memory_in rest.now }
{
    let (address, size) = numbers_in(rest)?;
    Some(Packet::Memory { address, size })
}

/// `A,L:H`.
fn memory_write_in(rest: &[u8]) -> Option<Packet<'_>>
    ensures packet { result ≡ memory_write_in rest.now }
{
    let (range, digits) = parted(b':', rest)?;
    let (address, size) = numbers_in(range)?;
    let bytes = HexBytes::read(digits)?;
    Some(Packet::WriteMemory {
        address,
        size,
        bytes,
    })
}

/// The first of some actions; those after a `;` or a `:` are for other threads.
fn actions_in(rest: &[u8]) -> Option<Packet<'_>>
    ensures packet { result ≡ actions_in rest.now }
{
    match action_end(rest) {
        Some(end) => action_in(&rest[..end]),
        None => action_in(rest),
    }
}

/// Where the first action ends, if more follows.
fn action_end(rest: &[u8]) -> Option<usize>
    ensures end { result ≡ position ends_action rest.now }
{
    rest.iter().position(|byte| *byte == b';' || *byte == b':')
}

/// `c`, `s`, each in capitals with a signal's two digits, or `rA,B`.
fn action_in(word: &[u8]) -> Option<Packet<'_>>
    ensures packet { result ≡ action_in word.now }
{
    match word {
        b"c" | [b'C', _, _] => Some(Packet::Continue),
        b"s" | [b'S', _, _] => Some(Packet::Step),
        [b'r', range @ ..] => {
            let (start, end) = numbers_in(range)?;
            Some(Packet::StepRange { start, end })
        }
        _ => None,
    }
}

/// `A,L` of the target description.
fn description_in(rest: &[u8]) -> Option<Packet<'_>>
    ensures packet { result ≡ description_in rest.now }
{
    let (place, size) = numbers_in(rest)?;
    Some(Packet::Description { place, size })
}

/// `H`.
fn monitor_in(rest: &[u8]) -> Option<Packet<'_>>
    ensures packet { result ≡ monitor_in rest.now }
{
    Some(Packet::Monitor(HexBytes::read(rest)?))
}

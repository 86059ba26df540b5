//! Packets as gdb 13 sends them, and answers as it reads them.
use super::*;
use std::process::Abort;

/// A receiver that took these bytes, and what came with the last one.
fn taken(bytes: &[u8]) -> (Receiver, Option<Arrival>) {
    let mut receiver = Receiver::new();
    let mut arrival = None;
    for byte in bytes {
        arrival = receiver.take(*byte);
    }
    (receiver, arrival)
}

#[test]
fn a_session_begins(rt: HostRuntime) {
    let (receiver, arrival) = taken(b"+$QStartNoAckMode#b0");
    assert_eq!(rt; arrival, Some(Arrival::Whole));
    assert!(rt; matches!(receiver.packet(), Packet::NoAcks));
    let (receiver, arrival) = taken(b"+\x03$vCont;s#b8");
    assert_eq!(rt; arrival, Some(Arrival::Whole));
    assert!(rt; matches!(receiver.packet(), Packet::Step));
}

#[test]
fn damaged_and_cut_off(rt: HostRuntime) {
    assert_eq!(rt; taken(b"$?#00").1, Some(Arrival::Damaged));
    assert_eq!(rt; taken(b"$?#3").1, None);
    let (receiver, arrival) = taken(b"$m80000$?#3F");
    assert_eq!(rt; arrival, Some(Arrival::Whole));
    assert!(rt; matches!(receiver.packet(), Packet::Reason));
}

/// Writes memory at 0x80001000, of which the bytes are these.
fn writes_memory(rt: &impl Abort, content: &[u8], first: u8, last: u8) {
    match parse(content) {
        Packet::WriteMemory {
            address: 0x8000_1000,
            size: 4,
            bytes,
        } if bytes.len() == 4 => {
            assert_eq!(rt; bytes.at(0), first);
            assert_eq!(rt; bytes.at(3), last);
        }
        _ => assert!(rt; false),
    }
}

#[test]
fn arguments(rt: HostRuntime) {
    writes_memory(&rt, b"M80001000,4:13050000", 0x13, 0);
    writes_memory(&rt, b"M80001000,4:6f00A0fE", 0x6f, 0xfe);
    assert!(rt; matches!(parse(b"p20"), Packet::Register(32)));
    assert!(rt;
        matches!(
            parse(b"m80000ffc,40"),
            Packet::Memory {
                address: 0x8000_0ffc,
                size: 64
            }
        )
    );
    let range = parse(b"vCont;r80000010,80000024;c");
    assert!(rt;
        matches!(
            range,
            Packet::StepRange {
                start: 0x8000_0010,
                end: 0x8000_0024
            }
        )
    );
    let watch = parse(b"Z2,80001010,4");
    assert!(rt;
        matches!(
            watch,
            Packet::SetPoint(Point {
                kind: PointKind::Written,
                address: 0x8000_1010,
                size: 4
            })
        )
    );
    assert!(rt;
        matches!(
            parse(b"qXfer:features:read:target.xml:0,ffb"),
            Packet::Description {
                place: 0,
                size: 4091
            }
        )
    );
}

#[test]
fn no_row_and_no_form(rt: HostRuntime) {
    assert!(rt; matches!(parse(b"vMustReplyEmpty"), Packet::Unknown));
    assert!(rt; matches!(parse(b"Z5,80000000,4"), Packet::Unknown));
    assert!(rt; matches!(parse(b"p"), Packet::Malformed));
    assert!(rt; matches!(parse(b"m80000000"), Packet::Malformed));
    assert!(rt; matches!(parse(b"P20=0400008"), Packet::Malformed));
}

#[test]
fn answers(rt: HostRuntime) {
    let mut reply = Reply::new();
    assert_eq!(rt; reply.finish().as_slice(), b"$#00".as_slice());
    let mut reply = Reply::new();
    reply.bytes(b"OK");
    assert_eq!(rt; reply.finish().as_slice(), b"$OK#9a".as_slice());
    let mut reply = Reply::new();
    reply.little(0x8000_0004);
    assert_eq!(rt; reply.finish().as_slice(), b"$04000080#8c".as_slice());
}

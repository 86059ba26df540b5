//! Accesses at the edges of RAM and of its pages, and a text that shares its page with data.

use crate::Ram;
use elf_image::{Image, Segment, Segments};
use fsim_base::{Bytes, RamRange, Width};
use std::alloc::Global;
use std::process::Abort;
use std::test::Fail;

/// RAM of a range, with the image of some segments.
fn ram(
    rt: &impl Abort,
    alloc: Global,
    range: RamRange,
    segments: Vec<Segment>,
) -> Result<Ram, Fail> {
    let image = Image {
        entry: range.base,
        segments: Segments::new(segments),
    };
    assert!(rt; image.sound(range));
    Ok(Ram::new(alloc, range, &image)?)
}

/// A store, and the bytes that stand from four bytes before it on.
fn store(
    rt: &impl Abort,
    ram: &mut Ram,
    addr: u32,
    width: Width,
    value: u32,
    old: Option<u32>,
    bytes: [u32; 12],
) {
    assert!(rt; addr >= 4 && addr < 0xffff_0000 && addr % width.bytes() == 0);
    assert_eq!(rt; ram.set(addr, width, value), old, "store at {addr:x}");
    for (i, want) in bytes.iter().enumerate() {
        let found = ram.get(addr - 4 + i as u32, Width::Byte).unwrap_or(0x100);
        assert_eq!(rt; found, *want, "byte {i} round {addr:x}");
    }
}

/// Stands for a byte outside RAM.
const OUT: u32 = 0x100;

/// Address, width and value of a store, what stood there, and the bytes around it then.
static EDGES: [(u32, Width, u32, Option<u32>, [u32; 12]); 12] = [
    (
        0x8000_0000,
        Width::Byte,
        0x1234_56ab,
        Some(0),
        [OUT, OUT, OUT, OUT, 0xab, 0, 0, 0, 0, 0, 0, 0],
    ),
    (
        0x8000_0000,
        Width::Half,
        0x1234_56cd,
        Some(0xab),
        [OUT, OUT, OUT, OUT, 0xcd, 0x56, 0, 0, 0, 0, 0, 0],
    ),
    (
        0x8000_0000,
        Width::Word,
        0x8765_4321,
        Some(0x56cd),
        [OUT, OUT, OUT, OUT, 0x21, 0x43, 0x65, 0x87, 0, 0, 0, 0],
    ),
    (
        0x8000_0ffc,
        Width::Word,
        0x1122_3344,
        Some(0),
        [0, 0, 0, 0, 0x44, 0x33, 0x22, 0x11, 0, 0, 0, 0],
    ),
    (
        0x8000_1000,
        Width::Word,
        0x5566_7788,
        Some(0),
        [0x44, 0x33, 0x22, 0x11, 0x88, 0x77, 0x66, 0x55, 0, 0, 0, 0],
    ),
    (
        0x8000_0ffe,
        Width::Half,
        0xffff_9900,
        Some(0x1122),
        [0, 0, 0x44, 0x33, 0, 0x99, 0x88, 0x77, 0x66, 0x55, 0, 0],
    ),
    (
        0x8000_0fff,
        Width::Byte,
        0xee,
        Some(0x99),
        [0, 0x44, 0x33, 0, 0xee, 0x88, 0x77, 0x66, 0x55, 0, 0, 0],
    ),
    (
        0x8000_1ffc,
        Width::Word,
        0xa1a2_a3a4,
        Some(0),
        [0, 0, 0, 0, 0xa4, 0xa3, 0xa2, 0xa1, OUT, OUT, OUT, OUT],
    ),
    (
        0x8000_1ffe,
        Width::Half,
        0x0000_b1b2,
        Some(0xa1a2),
        [0, 0, 0xa4, 0xa3, 0xb2, 0xb1, OUT, OUT, OUT, OUT, OUT, OUT],
    ),
    (
        0x8000_1fff,
        Width::Byte,
        0xc1,
        Some(0xb1),
        [0, 0xa4, 0xa3, 0xb2, 0xc1, OUT, OUT, OUT, OUT, OUT, OUT, OUT],
    ),
    (
        0x8000_2000,
        Width::Byte,
        1,
        None,
        [
            0xa4, 0xa3, 0xb2, 0xc1, OUT, OUT, OUT, OUT, OUT, OUT, OUT, OUT,
        ],
    ),
    (
        0x7fff_fffc,
        Width::Word,
        1,
        None,
        [
            OUT, OUT, OUT, OUT, OUT, OUT, OUT, OUT, 0x21, 0x43, 0x65, 0x87,
        ],
    ),
];

fn edges() -> &'static [(u32, Width, u32, Option<u32>, [u32; 12])] {
    &EDGES
}

#[test]
fn edges_of_ram_and_of_pages(rt: HostRuntime) -> Result<(), Fail> {
    let alloc = rt.alloc();
    let range = RamRange {
        base: 0x8000_0000,
        size: 0x2000,
    };
    let mut ram = ram(&rt, alloc, range, Vec::new(alloc))?;
    for &(addr, width, value, old, bytes) in edges() {
        store(&rt, &mut ram, addr, width, value, old, bytes);
    }
    assert_eq!(rt; ram.get(0x8000_0ffc, Width::Word), Some(0xee00_3344));
    assert_eq!(rt; ram.get(0x8000_1ffc, Width::Half), Some(0xa3a4));
    assert_eq!(rt; ram.text(0x8000_0000), None);
    Ok(())
}

/// An address, and what stands there at first.
static WORDS: [(u32, Option<u32>); 6] = [
    (0x8000_0ff4, None),
    (0x8000_0ff8, Some(0)),
    (0x8000_0ffc, Some(0)),
    (0x8000_1000, Some(0)),
    (0x8000_1004, Some(0)),
    (0x8000_1008, None),
];

fn words() -> &'static [(u32, Option<u32>)] {
    &WORDS
}

#[test]
fn range_that_begins_and_ends_inside_a_page(rt: HostRuntime) -> Result<(), Fail> {
    let alloc = rt.alloc();
    let range = RamRange {
        base: 0x8000_0ff8,
        size: 0x10,
    };
    let mut ram = ram(&rt, alloc, range, Vec::new(alloc))?;
    for &(addr, old) in words() {
        assert!(rt; addr % 4 == 0);
        assert_eq!(rt; ram.set(addr, Width::Word, addr), old, "at {addr:x}");
        assert_eq!(rt;
            ram.get(addr, Width::Word),
            old.map(|_| addr),
            "at {addr:x}"
        );
    }
    Ok(())
}

/// An address, the instruction there, and the word that a load reads.
static BEFORE: [(u32, Option<u32>, Option<u32>); 9] = [
    (0x8000_0ffc, None, Some(0)),
    (0x8000_1000, Some(0x0010_02b7), Some(0x0010_02b7)),
    (0x8000_1004, Some(0x37), Some(0x37)),
    (0x8000_1008, None, Some(0)),
    (0x8000_100c, None, Some(0x0403_0201)),
    (0x8000_1010, None, Some(0)),
    (0x8000_2000, None, Some(0)),
    (0x8000_3000, None, None),
    (0x7fff_fffc, None, None),
];

/// An address and the instruction there, behind stores and a FENCE.I.
static AFTER: [(u32, Option<u32>); 4] = [
    (0x8000_1000, Some(0x0010_02b7)),
    (0x8000_1004, Some(0x1111_1111)),
    (0x8000_1008, None),
    (0x8000_100c, None),
];

fn before_sync() -> &'static [(u32, Option<u32>, Option<u32>)] {
    &BEFORE
}

fn after_sync() -> &'static [(u32, Option<u32>)] {
    &AFTER
}

/// Ten bytes of text, then two of nothing, then data on the same page.
fn text_and_data(alloc: Global) -> Result<Vec<Segment>, Fail> {
    let text = Segment {
        index: 0,
        addr: 0x8000_1000,
        size: 10,
        exec: true,
        bytes: Bytes::new([0xb7, 0x02, 0x10, 0x00, 0x37].to_vec(alloc)?),
    };
    let data = Segment {
        index: 2,
        addr: 0x8000_100c,
        size: 8,
        exec: false,
        bytes: Bytes::new([1, 2, 3, 4].to_vec(alloc)?),
    };
    Ok(vec![in alloc; text, data]?)
}

#[test]
fn stores_reach_the_text_once_it_is_synced(rt: HostRuntime) -> Result<(), Fail> {
    let alloc = rt.alloc();
    let range = RamRange {
        base: 0x8000_0000,
        size: 0x3000,
    };
    let mut ram = ram(&rt, alloc, range, text_and_data(alloc)?)?;
    for &(addr, text, word) in before_sync() {
        assert!(rt; addr % 4 == 0);
        assert_eq!(rt;
            (ram.text(addr), ram.get(addr, Width::Word)),
            (text, word),
            "at {addr:x}"
        );
    }
    for addr in [0x8000_1004, 0x8000_1008, 0x8000_100c] {
        assert!(rt; addr % 4 == 0);
        ram.set(addr, Width::Word, 0x1111_1111)
            .ok_or("outside RAM")?;
    }
    assert_eq!(rt;
        ram.text(0x8000_1004),
        Some(0x37),
        "stores don't reach the text"
    );
    ram.sync();
    for &(addr, text) in after_sync() {
        assert!(rt; addr % 4 == 0);
        assert_eq!(rt; ram.text(addr), text, "synced, at {addr:x}");
    }
    Ok(())
}

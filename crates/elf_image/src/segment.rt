ghost use Rattle.std.specs.Prelude.{◌≡◌, ◌+◌};

use fsim_base::{Bytes, RamRange};
use std::cmp::{max, min};
use std::marker::Model;

/// The most segments of an image; their numbers lie below.
pub(crate) const MAX_SEGMENTS: u32 = 64;

/// What a program header of an image puts into RAM.
#[derive(Debug, Drop)]
pub struct Segment {
    /// The header's place in the table of program headers.
    pub index: u32,
    /// The physical address of the first byte.
    pub addr: u32,
    /// How many bytes of memory it takes.
    pub size: u32,
    /// Whether instructions may be fetched from it.
    pub exec: bool,
    /// Its first bytes; those up to `size` are zero.
    pub bytes: Bytes,
}

impl Segment {
    ghost use Rattle.elf_image.specs.Sound.{is_placed, is_before};

    /// The address behind its last byte.
    fn end(&self) -> u64
        ensures { result ≡ self.now.addr + self.now.size }
    {
        u64::from(self.addr) + u64::from(self.size)
    }

    /// Whether it takes memory inside RAM, with no more bytes than that, and a number below 64.
    pub(crate) fn is_placed(&self, ram: RamRange) -> bool
        ensures { result ≡ is_placed ram self.now }
    {
        self.index < MAX_SEGMENTS
            && self.size > 0
            && self.bytes.as_slice().len() <= self.size as usize
            && ram.contains(self.addr, self.size)
    }

    /// Whether it has the lower number than another, and no byte of memory in common with it.
    pub(crate) fn is_before(&self, later: &Segment) -> bool
        ensures { result ≡ is_before self.now later.now }
    {
        let end = min(self.end(), later.end());
        self.index < later.index && u64::from(max(self.addr, later.addr)) >= end
    }
}

/// A list of segments that contracts see as the list alone.
#[derive(Debug, Drop)]
pub struct Segments {
    list: Vec<Segment>,
}

impl Model for Segments {
    ghost use Rattle.std.specs.Prelude.{List};
    ghost use Rattle.elf_image.specs.declared.segment.Segment.{Segment};

    ghost Value = { List Segment };

    ghost view = { λ s. s.list.items };
}

impl Segments {
    /// The segments of a vector.
    pub fn new(list: Vec<Segment>) -> Segments
        ensures same { result ≡ list.items }
    {
        Segments { list }
    }

    /// The segments, in order.
    pub fn as_slice(&self) -> &[Segment]
        ensures same { result.now ≡ self.now }
    {
        self.list.as_slice()
    }
}

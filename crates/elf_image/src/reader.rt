ghost use Rattle.std.specs.Prelude.{◌≡◌, ◌≢◌, ◌==◌, ◌&&◌, ◌+◌, ◌<◌, ◌≤◌, length, None, IfOk, IfErr};
ghost use Rattle.std.specs.Prelude.{IfSome};
ghost use Rattle.elf_image.specs.Fields.{HasTable, header_count, header_at};
ghost use Rattle.elf_image.specs.Image.{first_fault, file_rows, table_rows, overlap_rows};
ghost use Rattle.elf_image.specs.Image.{image_fault, share_a_byte, HasContents, segment_at};
ghost use Rattle.elf_image.specs.Image.{segments_of, IsImage};
ghost use Rattle.elf_image.specs.Sound.{IsSound};

use crate::fault::ImageFault;
use crate::header::{LOAD, ProgramHeader, half_at, header, word_at};
use crate::image::Image;
use crate::segment::{Segment, Segments};
use fsim_base::{Bytes, RamRange};
use std::alloc::{AllocError, Global};
use std::cmp::{max, min};

/// How many bytes an ELF header has.
const FILE_HEADER_SIZE: usize = 52;

/// How many bytes a program header has.
const HEADER_SIZE: u16 = 32;

/// The most program headers that are accepted.
const MAX_HEADERS: u16 = 64;

/// EI_CLASS of a file of 32 bits, ELFCLASS32.
const CLASS: u8 = 1;

/// EI_DATA of a little-endian file, ELFDATA2LSB.
const BYTE_ORDER: u8 = 1;

/// e_type of an executable file, ET_EXEC.
const EXECUTABLE: u16 = 2;

/// e_machine of RISC-V, EM_RISCV.
const RISC_V: u16 = 243;

/// The bit of p_flags that says executable, PF_X.
const EXECUTE: u32 = 1;

/// The first fault of the ELF header.
#[tactic(auto, unfolding(crate::specs::Image::file_rows))]
fn file_fault(bytes: &[u8]) -> Option<ImageFault>
    ensures first { result ≡ first_fault (file_rows bytes.now) }
    ensures table { result ≡ None → HasTable bytes.now }
{
    if bytes.len() < FILE_HEADER_SIZE {
        return Some(ImageFault::Short);
    }
    let count = half_at(bytes, 44);
    let table_end = u64::from(word_at(bytes, 28)) + 32 * u64::from(count);
    if !bytes.starts_with(&[0x7f, b'E', b'L', b'F']) {
        Some(ImageFault::Magic)
    } else if bytes[4] != CLASS {
        Some(ImageFault::Class)
    } else if bytes[5] != BYTE_ORDER {
        Some(ImageFault::Endian)
    } else if half_at(bytes, 16) != EXECUTABLE {
        Some(ImageFault::FileType)
    } else if half_at(bytes, 18) != RISC_V {
        Some(ImageFault::Machine)
    } else if count > 0 && half_at(bytes, 42) != HEADER_SIZE {
        Some(ImageFault::EntrySize)
    } else if count > MAX_HEADERS {
        Some(ImageFault::Count(u32::from(count)))
    } else if count > 0 && table_end > bytes.len() as u64 {
        Some(ImageFault::TableOutside)
    } else {
        None
    }
}

/// Whether the earlier of two headers is a load header whose memory shares a byte with that of the
/// later.
fn overlaps(later: ProgramHeader, earlier: ProgramHeader) -> bool
    ensures { result ≡ (earlier.kind == 1
        && share_a_byte later.address later.memory_size earlier.address earlier.memory_size) }
{
    let later_end = u64::from(later.address) + u64::from(later.memory_size);
    let earlier_end = u64::from(earlier.address) + u64::from(earlier.memory_size);
    earlier.kind == LOAD
        && u64::from(max(later.address, earlier.address)) < min(later_end, earlier_end)
}

/// The first earlier load header whose memory shares a byte with that of header `index`.
#[tactic(auto, using(crate::proofs::Rows::row_steps))]
fn overlap_fault(bytes: &[u8], index: u32) -> Option<ImageFault>
    requires table { HasTable bytes.now }
    requires index { index < header_count bytes.now }
    ensures { result ≡ first_fault (overlap_rows bytes.now index 0 index) }
{
    let later = header(bytes, index);
    for i in 0..index {
        if overlaps(later, header(bytes, i)) {
            return Some(ImageFault::Overlap(index, i));
        }
    }
    None
}

/// The first fault of a program header.
#[tactic(auto, unfolding(crate::specs::Image::header_rows))]
fn header_fault(bytes: &[u8], ram: RamRange, index: u32) -> Option<ImageFault>
    requires table { HasTable bytes.now }
    requires index { index < header_count bytes.now }
    ensures { result ≡ first_fault (table_rows bytes.now ram index 1) }
{
    let found = header(bytes, index);
    let file_end = u64::from(found.offset) + u64::from(found.file_size);
    if found.kind != LOAD {
        None
    } else if file_end > bytes.len() as u64 {
        Some(ImageFault::FileOutside(index))
    } else if found.file_size > found.memory_size {
        Some(ImageFault::Larger(index))
    } else if found.memory_size > 0 && !ram.contains(found.address, found.memory_size) {
        Some(ImageFault::OutsideRam(index))
    } else {
        overlap_fault(bytes, index)
    }
}

/// The first fault of the program headers, in table order.
#[tactic(auto, using(crate::proofs::Rows::row_steps))]
fn table_fault(bytes: &[u8], ram: RamRange) -> Option<ImageFault>
    requires table { HasTable bytes.now }
    ensures { result ≡ first_fault (table_rows bytes.now ram 0 (header_count bytes.now)) }
{
    let count = u32::from(half_at(bytes, 44));
    for index in 0..count {
        if let Some(fault) = header_fault(bytes, ram, index) {
            return Some(fault);
        }
    }
    None
}

/// The first fault of the bytes, none where they are an image for this RAM.
#[tactic(auto, using(crate::proofs::Rows::row_steps), unfolding(crate::specs::Image::image_fault))]
fn fault_of(bytes: &[u8], ram: RamRange) -> Option<ImageFault>
    ensures first { result ≡ image_fault bytes.now ram }
    ensures table { result ≡ None → HasTable bytes.now }
{
    match file_fault(bytes) {
        Some(fault) => Some(fault),
        None => table_fault(bytes, ram),
    }
}

/// What a program header puts into RAM, with a copy of its bytes.
#[tactic(auto, unfolding(crate::specs::Image::segment_at))]
fn segment(
    alloc: Global,
    bytes: &[u8],
    index: u32,
    found: ProgramHeader,
) -> Result<Segment, AllocError>
    requires header { found ≡ header_at bytes.now index }
    requires contents { found.offset + found.file_size ≤ length bytes.now }
    ensures { IfOk result (λ s. s ≡ segment_at bytes.now index) }
{
    let contents = &bytes[found.offset as usize..][..found.file_size as usize];
    Ok(Segment {
        index,
        addr: found.address,
        size: found.memory_size,
        exec: found.flags & EXECUTE != 0,
        bytes: Bytes::new(contents.to_vec(alloc)?),
    })
}

/// What the program headers put into RAM, in table order.
#[tactic(auto, using(crate::proofs::Rows::segment_steps))]
fn segments(alloc: Global, bytes: &[u8]) -> Result<Vec<Segment>, AllocError>
    requires table { HasTable bytes.now }
    requires contents { HasContents bytes.now }
    ensures { IfOk result (λ v. v.items ≡ segments_of bytes.now 0 (header_count bytes.now)) }
{
    let count = u32::from(half_at(bytes, 44));
    let mut list = Vec::new(alloc);
    for index in 0..count {
        let found = header(bytes, index);
        if found.kind == LOAD && found.memory_size > 0 {
            list.push(segment(alloc, bytes, index, found)?)?;
        }
    }
    Ok(list)
}

/// The image that the bytes of an ELF file are for a range of RAM, or the first fault that applies,
/// in the order of `ImageFault`: first those of the ELF header, then those of each load header in
/// table order. The bytes of a segment are copied; all fields, headers and sections that
/// `ImageFault` doesn't speak of are ignored.
///
/// Takes time that grows with the length of the file and the square of the number of program
/// headers, and memory for the segments' bytes once. Wants memory only where there is no fault.
#[tactic(auto, using(crate::proofs::Reading::sound_image), unfolding(crate::specs::Image::image_of))]
pub fn read(alloc: Global, bytes: &[u8], ram: RamRange) -> Result<Image, ImageFault>
    ensures image { IfOk result (λ image. IsImage bytes.now ram image) }
    ensures sound { IfOk result (λ image. IsSound image ram) }
    ensures fault { IfErr result (λ fault. fault ≢ ImageFault.Memory
        → image_fault bytes.now ram ≡ Some fault) }
    ensures refused { IfSome (image_fault bytes.now ram) (λ fault. result ≡ Err fault) }
{
    if let Some(fault) = fault_of(bytes, ram) {
        return Err(fault);
    }
    match segments(alloc, bytes) {
        Ok(list) => Ok(Image {
            entry: word_at(bytes, 24),
            segments: Segments::new(list),
        }),
        Err(_) => Err(ImageFault::Memory),
    }
}

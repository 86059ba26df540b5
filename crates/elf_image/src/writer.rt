ghost use Rattle.std.specs.Prelude.{◌≡◌, ◌+◌, ◌*◌, ◌<◌, ◌≤◌, ◌^◌, ◌++◌, length, IfOk, OnOk, All};
ghost use Rattle.elf_image.specs.Image.{IsImage};
ghost use Rattle.elf_image.specs.Sound.{IsSound};
ghost use Rattle.elf_image.specs.Write.{halves, words, file_header, program_header};
ghost use Rattle.elf_image.specs.Write.{program_headers, contents_of, file_of, IsNumbered};
ghost use Rattle.elf_image.specs.Write.{HasWords};

use crate::header::{LOAD, ProgramHeader};
use crate::image::Image;
use crate::segment::Segment;
use fsim_base::{NoMemory, RamRange};
use std::alloc::{AllocError, Global};

/// e_ident: the magic, then class, byte order, version and padding.
const IDENT: [u8; 16] = [0x7f, b'E', b'L', b'F', 1, 1, 1, 0, 0, 0, 0, 0, 0, 0, 0, 0];

/// p_flags of an executable segment, PF_R and PF_X.
const READ_EXECUTE: u32 = 5;

/// p_flags of any other segment, PF_R and PF_W.
const READ_WRITE: u32 = 6;

/// p_align.
const ALIGNMENT: u32 = 4;

/// Adds numbers of two bytes each.
fn push_halves(out: &mut Vec<u8>, numbers: &[u16]) -> Result<(), AllocError>
    ensures { OnOk result (out.new.items ≡ out.old.items ++ halves numbers.now) }
{
    for number in numbers {
        out.extend_from_slice(&number.to_le_bytes())?;
    }
    Ok(())
}

/// Adds numbers of four bytes each.
fn push_words(out: &mut Vec<u8>, numbers: &[u32]) -> Result<(), AllocError>
    ensures { OnOk result (out.new.items ≡ out.old.items ++ words numbers.now) }
{
    for number in numbers {
        out.extend_from_slice(&number.to_le_bytes())?;
    }
    Ok(())
}

/// Adds the ELF header of an image with `count` segments.
#[tactic(auto, unfolding(crate::specs::Write::file_header))]
fn push_file_header(out: &mut Vec<u8>, entry: u32, count: u16) -> Result<(), AllocError>
    ensures header { OnOk result (out.new.items ≡ out.old.items ++ file_header entry count) }
    ensures entry { entry < 2 ^ 32 }
{
    out.extend_from_slice(&IDENT)?;
    push_halves(out, &[2, 243])?;
    push_words(out, &[1, entry, 52, 0, 0])?;
    push_halves(out, &[52, 32, count, 0, 0, 0])?;
    Ok(())
}

/// Adds a program header; its virtual address is the physical one.
#[tactic(auto, unfolding(crate::specs::Write::program_header))]
fn push_program_header(out: &mut Vec<u8>, header: ProgramHeader) -> Result<(), AllocError>
    ensures header { OnOk result (out.new.items ≡ out.old.items ++ program_header header) }
    ensures address { header.address < 2 ^ 32 }
    ensures memory_size { header.memory_size < 2 ^ 32 }
{
    push_words(
        out,
        &[
            header.kind,
            header.offset,
            header.address,
            header.address,
            header.file_size,
            header.memory_size,
            header.flags,
            ALIGNMENT,
        ],
    )
}

/// Adds the program headers of segments whose bytes stand behind the headers, in order.
fn push_program_headers(out: &mut Vec<u8>, segments: &[Segment]) -> Result<(), AllocError>
    requires few { length segments.now ≤ 64 }
    requires small { All (λ s. length s.bytes ≤ 67108864) segments.now }
    ensures headers { OnOk result (out.new.items
        ≡ out.old.items ++ program_headers segments.now (52 + 32 * length segments.now)) }
    ensures words { OnOk result (All HasWords segments.now) }
{
    let mut offset = 52 + 32 * segments.len() as u64;
    for segment in segments {
        let file_size = segment.bytes.as_slice().len() as u32;
        let header = ProgramHeader {
            kind: LOAD,
            offset: offset as u32,
            address: segment.addr,
            file_size,
            memory_size: segment.size,
            flags: if segment.exec {
                READ_EXECUTE
            } else {
                READ_WRITE
            },
        };
        push_program_header(out, header)?;
        offset += u64::from(file_size);
    }
    Ok(())
}

/// Adds the bytes of the segments, in order.
fn push_contents(out: &mut Vec<u8>, segments: &[Segment]) -> Result<(), AllocError>
    ensures { OnOk result (out.new.items ≡ out.old.items ++ contents_of segments.now) }
{
    for segment in segments {
        out.extend_from_slice(segment.bytes.as_slice())?;
    }
    Ok(())
}

/// The bytes of an image whose segments are few and small.
#[tactic(auto, unfolding(crate::specs::Write::file_of))]
fn file(alloc: Global, image: &Image) -> Result<Vec<u8>, AllocError>
    requires few { length image.now.segments ≤ 64 }
    requires small { All (λ s. length s.bytes ≤ 67108864) image.now.segments }
    ensures bytes { IfOk result (λ v. v.items ≡ file_of image.now) }
    ensures words { OnOk result (All HasWords image.now.segments) }
    ensures entry { OnOk result (image.now.entry < 2 ^ 32) }
{
    let segments = image.segments.as_slice();
    let mut out = Vec::new(alloc);
    push_file_header(&mut out, image.entry, segments.len() as u16)?;
    push_program_headers(&mut out, segments)?;
    push_contents(&mut out, segments)?;
    Ok(out)
}

/// The bytes of an ELF file that `read` with the same range of RAM reads as this image.
///
/// The image is sound for the range, its segments are numbered from 0 without a gap, and the range
/// has at most 67,108,864 bytes, so that each place in the file is a number of 32 bits.
pub fn write(alloc: Global, image: &Image, ram: RamRange) -> Result<Vec<u8>, NoMemory>
    requires sound { IsSound image.now ram }
    requires numbered { IsNumbered image.now }
    requires small { ram.size ≤ 67108864 }
    ensures bytes { IfOk result (λ v. v.items ≡ file_of image.now) }
    ensures image { IfOk result (λ v. IsImage v.items ram image.now) }
{
    // The range leaves no trace in the file.
    let _ = ram;
    match file(alloc, image) {
        Ok(bytes) => Ok(bytes),
        Err(_) => Err(NoMemory),
    }
}

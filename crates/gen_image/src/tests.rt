// What no clause says: that memory is found, and that the words are those of another program that
// makes the same images: `reference/out/reference soakimage SEED BLOCKS FILE` makes them again.
ghost use Rattle.std.specs.Prelude.{◌≤◌};

use crate::soak_image;
use elf_image::{Image, read, write};
use fsim_base::RamRange;
use std::alloc::Global;
use std::process::Abort;
use std::test::Fail;

const RAM: RamRange = RamRange {
    base: 0x8000_0000,
    size: 0x0100_0000,
};

/// The bytes of the only segment.
fn code(image: &Image) -> Option<&[u8]> {
    match image.segments.as_slice() {
        [segment] => Some(segment.bytes.as_slice()),
        _ => None,
    }
}

/// FNV-1a of 64 bits.
fn digest(bytes: &[u8]) -> u64 {
    let mut hash = 0xcbf2_9ce4_8422_2325u64;
    for byte in bytes {
        hash = (hash ^ u64::from(*byte)).wrapping_mul(0x0100_0000_01b3);
    }
    hash
}

#[test]
fn opening_and_ending_of_no_blocks(rt: HostRuntime) -> Result<(), Fail> {
    let words: [u32; 34] = [
        0x02c0006f, 0x34202e73, 0x000e4a63, 0x34102e73, 0x004e0e13, 0x341e1073, 0x30200073,
        0x000b2e03, 0x3e8e0e13, 0x01cb2023, 0x30200073, 0x00000297, 0xfd828293, 0x30529073,
        0x80800a37, 0x02004b37, 0x3e800313, 0x006b2023, 0x000b2223, 0x08000313, 0x30432073,
        0x30046073, 0x1ca00293, 0x7de00313, 0x42000393, 0x15f00413, 0x69500493, 0x4f300513,
        0x4d700593, 0x30f00613, 0x00100337, 0x000053b7, 0x55538393, 0x00732023,
    ];
    let image = soak_image(rt.alloc(), 7, 0)?;
    let bytes = code(&image).ok_or("segments")?;
    let mut wanted = Vec::new(rt.alloc());
    for word in words {
        wanted.extend_from_slice(&word.to_le_bytes())?;
    }
    assert_eq!(rt; bytes, wanted.as_slice());
    Ok(())
}

/// Makes an image, and compares how many bytes of code it has and their digest.
fn check_image(
    rt: &impl Abort,
    alloc: Global,
    seed: u64,
    blocks: u32,
    len: usize,
    wanted: u64,
) -> Result<(), Fail>
    requires few { blocks ≤ 65_536 }
{
    let image = soak_image(alloc, seed, blocks)?;
    let bytes = code(&image).ok_or("segments")?;
    assert_eq!(rt; bytes.len(), len, "{seed} {blocks}");
    assert_eq!(rt; digest(bytes), wanted, "{seed} {blocks}");
    Ok(())
}

// Lengths and digests of the images that an independent program makes of the same seeds.
#[test]
fn images_are_those_of_an_independent_program(rt: HostRuntime) -> Result<(), Fail> {
    let alloc = rt.alloc();
    check_image(&rt, alloc, 7, 0, 136, 0xf4fb_c64f_a2d2_7062)?;
    check_image(&rt, alloc, 7, 40, 752, 0x3d1b_c66e_44bc_2417)?;
    check_image(&rt, alloc, 7, 3000, 48_668, 0xcc47_976d_c554_a3ab)?;
    check_image(
        &rt,
        alloc,
        u64::MAX,
        65_536,
        1_050_236,
        0x9d9c_9ad1_7837_a667,
    )
}

#[test]
fn written_image_is_read_back(rt: HostRuntime) -> Result<(), Fail> {
    let image = soak_image(rt.alloc(), 7, 40)?;
    let file = write(rt.alloc(), &image, RAM)?;
    let Ok(same) = read(rt.alloc(), file.as_slice(), RAM) else {
        return Err(Fail::from("no image"));
    };
    assert_eq!(rt; same.entry, image.entry);
    assert_eq!(rt; code(&same), code(&image));
    Ok(())
}

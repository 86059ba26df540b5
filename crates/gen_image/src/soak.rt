ghost use Rattle.std.specs.Prelude.{◌≡◌, ◌+◌, ◌*◌, ◌^◌, ◌≤◌, ◌<◌, ◌++◌, length, map, IfOk, OnOk};
ghost use Rattle.elf_image.specs.Sound.{IsSound};
ghost use Rattle.elf_image.specs.Write.{IsNumbered, words};
ghost use Rattle.rv_decode.specs.Encode.{encode_of};
ghost use Rattle.gen_image.specs.Draws.{each};
ghost use Rattle.gen_image.specs.Made.{Adds};
ghost use Rattle.gen_image.specs.Soak.{handler, opening, first_value, operation, block, ending};
ghost use Rattle.gen_image.specs.Soak.{soak_code, generator, program_at, soak_image, plain_ram};

use crate::assembly::{
    addi, auipc, blt, csrrs, csrrsi, csrrw, ecall, jal, lui, lw, minus, mret, sw,
};
use crate::blocks::{call, first_value, memory, operation, skip, turns};
use crate::draws::draw;
use elf_image::{Image, Segment, Segments};
use fsim_base::{Bytes, NoMemory};
use machine_csr::address::{MCAUSE, MEPC, MIE, MSTATUS, MTVEC};
use rand_pcg::Lcg64Xsh32;
use std::alloc::{AllocError, Global};

/// The base of RAM, where the program begins.
const BASE: u32 = 0x8000_0000;

/// Adds words, the lowest byte of each first.
fn push_words(bytes: &mut Vec<u8>, code: &[u32]) -> Result<(), AllocError>
    ensures added { OnOk result (bytes.new.items ≡ bytes.old.items ++ words code.now) }
    ensures len { OnOk result
        (length bytes.new.items ≡ length bytes.old.items + 4 * length code.now) }
{
    for word in code {
        bytes.extend_from_slice(&word.to_le_bytes())?;
    }
    Ok(())
}

/// The handler of exceptions and of the timer interrupt, and the jump over it.
#[tactic(auto, unfolding(crate::specs::Soak::handler))]
fn handler() -> [u32; 11]
    ensures code { result ≡ map encode_of handler }
{
    [
        jal(0, 44),
        csrrs(28, MCAUSE, 0),
        blt(28, 0, 20),
        csrrs(28, MEPC, 0),
        addi(28, 28, 4),
        csrrw(0, MEPC, 28),
        mret(),
        lw(28, 0, 22),
        addi(28, 28, 1000),
        sw(28, 0, 22),
        mret(),
    ]
}

/// What stands before the first block: handler, pointers, the first timer interrupt.
#[tactic(auto, unfolding(crate::specs::Soak::opening))]
fn opening() -> [u32; 11]
    ensures code { result ≡ map encode_of opening }
{
    [
        auipc(5, 0),
        addi(5, 5, minus(40)),
        csrrw(0, MTVEC, 5),
        lui(20, 0x8080_0000),
        lui(22, 0x0200_4000),
        addi(6, 0, 1000),
        sw(6, 0, 22),
        sw(0, 4, 22),
        addi(6, 0, 128),
        csrrs(0, MIE, 6),
        csrrsi(0, MSTATUS, 8),
    ]
}

/// The store of 0x5555 into the finisher, which ends the run.
#[tactic(auto, unfolding(crate::specs::Soak::ending))]
fn ending() -> [u32; 4]
    ensures code { result ≡ map encode_of ending }
{
    [
        lui(6, 0x0010_0000),
        lui(7, 0x5000),
        addi(7, 7, 0x555),
        sw(7, 0, 6),
    ]
}

/// Adds the first values of x5 to x12.
fn push_values(bytes: &mut Vec<u8>, rng: &mut Lcg64Xsh32) -> Result<(), AllocError>
    ensures added { OnOk result (Adds (each (λ k. first_value (5 + k)) 8) rng.old rng.new
        bytes.old.items bytes.new.items) }
    ensures len { OnOk result (length bytes.new.items ≡ length bytes.old.items + 32) }
{
    for k in 0..8u8 {
        push_words(bytes, &first_value(5 + k, rng))?;
    }
    Ok(())
}

/// Adds eight operations.
fn push_operations(bytes: &mut Vec<u8>, rng: &mut Lcg64Xsh32) -> Result<(), AllocError>
    ensures added { OnOk result (Adds (each (λ k. operation) 8) rng.old rng.new
        bytes.old.items bytes.new.items) }
    ensures len { OnOk result (length bytes.new.items ≡ length bytes.old.items + 32) }
{
    for _turn in 0..8u8 {
        push_words(bytes, &operation(rng))?;
    }
    Ok(())
}

/// Adds a block of a drawn kind.
fn push_block(bytes: &mut Vec<u8>, rng: &mut Lcg64Xsh32) -> Result<(), AllocError>
    ensures added { OnOk result (Adds block rng.old rng.new bytes.old.items bytes.new.items) }
    ensures len { OnOk result (length bytes.new.items ≤ length bytes.old.items + 32) }
{
    match draw(rng) % 6 {
        0 => push_operations(bytes, rng),
        1 => push_words(bytes, &skip(rng)),
        2 => push_words(bytes, &memory(rng)),
        3 => push_words(bytes, &turns(rng)),
        4 => push_words(bytes, &call(rng)),
        _ => push_words(bytes, &[ecall()]),
    }
}

/// Adds so many blocks.
fn push_blocks(bytes: &mut Vec<u8>, rng: &mut Lcg64Xsh32, count: u32) -> Result<(), AllocError>
    ensures added { OnOk result (Adds (each (λ k. block) count) rng.old rng.new
        bytes.old.items bytes.new.items) }
    ensures len { OnOk result (length bytes.new.items ≤ length bytes.old.items + 32 * count) }
{
    for _turn in 0..count {
        push_block(bytes, rng)?;
    }
    Ok(())
}

/// The bytes of the program.
fn soak_bytes(alloc: Global, seed: u64, blocks: u32) -> Result<Vec<u8>, AllocError>
    requires few { blocks ≤ 65_536 }
    ensures bytes { IfOk result (λ bytes. bytes.items
        ≡ words (map encode_of (soak_code blocks (generator seed)).0)) }
    ensures some { IfOk result (λ bytes. 0 < length bytes.items) }
    ensures len { IfOk result (λ bytes. length bytes.items ≤ 136 + 32 * blocks) }
{
    let mut rng = Lcg64Xsh32::new(seed, 1);
    let mut bytes = Vec::new(alloc);
    push_words(&mut bytes, &handler())?;
    push_words(&mut bytes, &opening())?;
    push_values(&mut bytes, &mut rng)?;
    push_blocks(&mut bytes, &mut rng, blocks)?;
    push_words(&mut bytes, &ending())?;
    Ok(bytes)
}

/// One executable segment from the base of RAM on, which is the entry.
fn image_of(alloc: Global, bytes: Vec<u8>) -> Result<Image, AllocError>
    requires small { length bytes.items < 2 ^ 32 }
    ensures image { IfOk result (λ image. image ≡ program_at bytes.items) }
{
    let size = bytes.len() as u32;
    let mut segments = Vec::new(alloc);
    segments.push(Segment {
        index: 0,
        addr: BASE,
        size,
        exec: true,
        bytes: Bytes::new(bytes),
    })?;
    Ok(Image {
        entry: BASE,
        segments: Segments::new(segments),
    })
}

/// The image of the soak program of a seed, with so many blocks behind its opening.
///
/// It is sound for the RAM of a machine file with no keys.
///
/// # Errors
///
/// Where memory was wanted and not found.
#[tactic(auto, unfolding(crate::specs::Soak::soak_image))]
pub fn soak_image(alloc: Global, seed: u64, blocks: u32) -> Result<Image, NoMemory>
    requires few { blocks ≤ 65_536 }
    ensures image { IfOk result (λ image. image ≡ soak_image seed blocks) }
    ensures sound { IfOk result (λ image. IsSound image plain_ram) }
    ensures numbered { IfOk result IsNumbered }
{
    let Ok(bytes) = soak_bytes(alloc, seed, blocks) else {
        return Err(NoMemory);
    };
    match image_of(alloc, bytes) {
        Ok(image) => Ok(image),
        Err(_) => Err(NoMemory),
    }
}

ghost use Rattle.std.specs.Prelude.{◌≡◌, ℕ, ◌+◌, ◌%◌, All, OnOk, IfOk, IfErr, IfSome, IfNone, length};
ghost use Rattle.fsim_base.specs.Width.{width_bytes};
ghost use Rattle.elf_image.specs.Sound.{IsSound};
ghost use Rattle.elf_image.specs.Load.{image_byte, is_executable};
ghost use Rattle.mono_model.specs.Found.{known};
ghost use Rattle.phys_mem.specs.Ram.{ram_of, exec_of, text_of, range_of, text_from, loaded, stored};
ghost use Rattle.func_model.specs.Hart.{found_in, DecodedFits, FetchedFits, found_by};
ghost use Rattle.func_model.specs.Memory.{IsOfText};

use crate::found::{Decoded, Fetched};
use elf_image::Image;
use fsim_base::{Cause, NoMemory, RamRange, Width};
use phys_mem::Ram;
use rv_decode::{Insn, decode};
use std::alloc::Global;
use std::marker::Model;

/// How many instructions of the text are kept: as many as 512 KiB have.
const KEPT: usize = 131_072;

/// The stamp of the first text, and how far those of two texts are apart: beyond every address.
const STAMP: u64 = 1 << 32;

/// Behind this stamp they begin anew.
const LAST_STAMP: u64 = 1 << 63;

/// An instruction of the text, with its word and what is read off it.
#[derive(Clone, Copy, Debug)]
struct TextInsn {
    /// Its address, and the stamp of the text that it was found in; 0 where none is kept.
    key: u64,
    decoded: Decoded,
}

/// Keeps the instruction that stands in the text at an address, by this key and in place of
/// another one, or says what fetch finds there instead.
#[tactic(auto, unfolding(crate::specs::Hart::found_by))]
#[inline(never)]
fn keep(ram: &Ram, addr: u32, key: u64, kept: &mut TextInsn) -> Result<(), Fetched>
    ensures kept { OnOk result (kept.new.key ≡ key) }
    ensures found { IfErr result (λ other. found_in other
        ≡ found_by (exec_of ram.now) (text_of ram.now) addr) }
    ensures fits { IfErr result FetchedFits }
    ensures text { (stamp : ℕ) → key ≡ stamp + addr
        → IsOfText (exec_of ram.now) (text_of ram.now) stamp kept.old
        → IsOfText (exec_of ram.now) (text_of ram.now) stamp kept.new }
{
    if addr % 4 != 0 {
        return Err(Fetched::Refused(Cause::InstructionMisaligned));
    }
    let Some(word) = ram.text(addr) else {
        return Err(Fetched::Refused(Cause::InstructionAccess));
    };
    let Some(insn) = decode(word) else {
        return Err(Fetched::Unknown(word));
    };
    *kept = TextInsn {
        key,
        decoded: Decoded::new(word, insn),
    };
    Ok(())
}

/// Keeps none of these instructions.
fn forget(insns: &mut Vec<TextInsn>)
    ensures length { length insns.new.items ≡ length insns.old.items }
    ensures none { All (λ kept. kept.key ≡ 0) insns.new.items }
{
    for kept in insns.iter_mut() {
        kept.key = 0;
    }
}

/// RAM, with instructions of its text that fetch was asked for. The text changes only where fetch
/// is let see memory; until then what is kept stays true.
#[derive(Drop)]
pub struct Memory {
    ram: Ram,
    /// An instruction is kept in the place that its address selects.
    insns: Vec<TextInsn>,
    /// That of the text as fetch sees it. What has an earlier one was kept of an earlier text.
    stamp: u64,
}

impl Model for Memory {
    ghost use Rattle.std.specs.Prelude.{◌≡◌, ◌+◌, ◌^◌, ◌≤◌, All, length};
    ghost use Rattle.phys_mem.specs.declared.ram.Ram.{Ram};

    ghost Value = { Ram };

    ghost use Rattle.phys_mem.specs.Ram.{exec_of, text_of};
    ghost use Rattle.func_model.specs.Memory.{IsOfText};

    ghost view = { λ memory. memory.ram };

    ghost invariant = { λ memory. (length memory.insns.items ≡ 131072)
        × (2 ^ 32 ≤ memory.stamp) × (memory.stamp + 2 ^ 32 ≤ 2 ^ 64)
        × All (IsOfText (exec_of memory.ram) (text_of memory.ram) memory.stamp)
        memory.insns.items };
}

impl Memory {
    /// RAM as an image that is sound for its range leaves it. All memory is taken here; want of it
    /// is the one refusal.
    pub fn new(alloc: Global, range: RamRange, image: &Image) -> Result<Memory, NoMemory>
        requires sound { IsSound image.now range }
        ensures range { IfOk result (λ ram. range_of ram ≡ range) }
        ensures ram { IfOk result (λ ram. ram_of ram ≡ image_byte image.now) }
        ensures exec { IfOk result (λ ram. exec_of ram ≡ is_executable image.now) }
        ensures text { IfOk result (λ ram. text_of ram
            ≡ text_from (is_executable image.now) (image_byte image.now)) }
    {
        let ram = Ram::new(alloc, range, image)?;
        let none = TextInsn {
            key: 0,
            decoded: Decoded::new(0, Insn::Wfi),
        };
        let Ok(insns) = vec![in alloc; none; KEPT] else {
            return Err(NoMemory);
        };
        Ok(Memory {
            ram,
            insns,
            stamp: STAMP,
        })
    }

    /// The value of an aligned access, none where it isn't inside RAM. Little endian.
    #[inline(always)]
    pub fn get(&self, addr: u32, width: Width) -> Option<u32>
        requires aligned { addr % width_bytes width ≡ 0 }
        ensures value { result ≡ loaded (range_of self.now) (ram_of self.now) addr width }
    {
        self.ram.get(addr, width)
    }

    /// Stores the low bytes of a value by an aligned access, and gives the value that it replaces;
    /// none, and nothing changes, where the access isn't inside RAM. Little endian. Storing the
    /// value that was given restores RAM.
    #[inline(always)]
    pub fn set(&mut self, addr: u32, width: Width, value: u32) -> Option<u32>
        requires aligned { addr % width_bytes width ≡ 0 }
        ensures old { result ≡ loaded (range_of self.old) (ram_of self.old) addr width }
        ensures ram { ram_of self.new
            ≡ stored (range_of self.old) (ram_of self.old) addr width value }
        ensures back { IfSome result (λ old.
            stored (range_of self.old) (ram_of self.new) addr width old ≡ ram_of self.old) }
        ensures none { IfNone result (self.new ≡ self.old) }

        // The text stays as it was.
        ensures text { text_of self.new ≡ text_of self.old }
        ensures exec { exec_of self.new ≡ exec_of self.old }
        ensures range { range_of self.new ≡ range_of self.old }
    {
        self.ram.set(addr, width, value)
    }

    /// Lets fetch see memory as it stands: the text becomes memory's bytes.
    pub fn sync(&mut self)
        ensures text { text_of self.new ≡ text_from (exec_of self.old) (ram_of self.old) }

        // All else stays as it was.
        ensures ram { ram_of self.new ≡ ram_of self.old }
        ensures exec { exec_of self.new ≡ exec_of self.old }
        ensures range { range_of self.new ≡ range_of self.old }
    {
        self.ram.sync();
        if self.stamp < LAST_STAMP {
            self.stamp += STAMP;
        } else {
            forget(&mut self.insns);
            self.stamp = STAMP;
        }
    }

    /// The instruction at an address, where it is kept.
    #[inline(always)]
    pub fn known(&self, addr: u32) -> Option<&Decoded>
        ensures found { IfSome result (λ decoded. known decoded.now.word decoded.now.insn
            ≡ found_by (exec_of self.now) (text_of self.now) addr) }
        ensures fits { IfSome result (λ decoded. DecodedFits decoded.now) }
    {
        let kept = &self.insns[(addr / 4) as usize % KEPT];
        if kept.key == self.stamp + u64::from(addr) {
            Some(&kept.decoded)
        } else {
            None
        }
    }

    /// What fetch finds at an address.
    #[inline(always)]
    pub fn fetch(&mut self, addr: u32) -> Fetched
        ensures found { found_in result ≡ found_by (exec_of self.old) (text_of self.old) addr }
        ensures fits { FetchedFits result }
        ensures others { self.new ≡ self.old }
    {
        let key = self.stamp + u64::from(addr);
        let kept = &mut self.insns[(addr / 4) as usize % KEPT];
        if kept.key != key {
            if let Err(other) = keep(&self.ram, addr, key, kept) {
                return other;
            }
        }
        Fetched::Known(kept.decoded)
    }
}

ghost use Rattle.std.specs.Prelude.{◌≡◌, ◌+◌, ◌*◌, ◌/◌, ◌%◌, ◌==◌, ◌||◌, ◌≤◌, ◌<◌, false, All};
ghost use Rattle.std.specs.Prelude.{AllPairs, IfOk, OnOk, IfSome, IfNone, length};
ghost use Rattle.fsim_base.specs.Range.{IsInside};
ghost use Rattle.fsim_base.specs.Memory.{put_byte};
ghost use Rattle.fsim_base.specs.Width.{width_bytes};
ghost use Rattle.phys_mem.specs.Segment.{with_bytes, with_text, with_segment};
ghost use Rattle.elf_image.specs.Load.{segments_byte, in_executable, image_byte, is_executable};
ghost use Rattle.elf_image.specs.Sound.{IsPlaced, IsSound, AreApart};

use crate::page::{PAGE_SIZE, TextPage, load, store};
use crate::pages::Pages;
use crate::text::{add_text, copy_pages, fetch, no_texts};
use elf_image::{Image, Segment};
use fsim_base::{NoMemory, RamRange, Width};
use std::alloc::{AllocError, Global};

/// How many bytes a page has, as a step of addresses.
const PAGE_STEP: u64 = PAGE_SIZE as u64;

/// RAM, and the text that fetch reads.
#[derive(Drop)]
pub struct Ram {
    range: RamRange,
    /// The bytes of RAM. The first page begins at the last multiple of the page size that isn't
    /// above RAM's base.
    pages: Pages,
    /// For each page its text, where it has some.
    texts: Vec<Option<Box<TextPage>>>,
    ghost covered: { range.base + range.size ≤ 4096 * (range.base / 4096 + length pages) },
    ghost paired: { length texts.items ≡ length pages },
}

impl Ram {
    ghost use Rattle.phys_mem.specs.Ram.{page_of, range_of, ram_of, exec_of, text_of, loaded};
    ghost use Rattle.phys_mem.specs.Ram.{stored, text_from};
    ghost use Rattle.phys_mem.specs.Fetch.{fetched};

    /// The place of an address's page.
    fn page_index(&self, addr: u64) -> usize
        requires inside { IsInside self.now.range addr 1 }
        ensures place { result ≡ page_of self.now.range addr }
        ensures within { result < length self.now.pages }
    {
        (addr / PAGE_STEP - u64::from(self.range.base) / PAGE_STEP) as usize
    }

    /// RAM of zeros, without text.
    #[tactic(auto, unfolding(crate::specs::Ram::ram_of, crate::specs::Ram::exec_of))]
    fn zeros(alloc: Global, range: RamRange) -> Result<Ram, AllocError>
        ensures range { IfOk result (λ ram. range_of ram ≡ range) }
        ensures ram { IfOk result (λ ram. ram_of ram ≡ (λ _. 0)) }
        ensures exec { IfOk result (λ ram. exec_of ram ≡ (λ _. false)) }
    {
        let first = u64::from(range.base) / PAGE_STEP;
        let end = u64::from(range.base) + u64::from(range.size);
        let count = ((end + PAGE_STEP - 1) / PAGE_STEP - first) as usize;
        Ok(Ram {
            range,
            pages: Pages::new(alloc, count)?,
            texts: no_texts(alloc, count)?,
        })
    }

    /// Stores one byte of RAM.
    #[tactic(auto, unfolding(crate::specs::Ram::exec_of))]
    fn put(&mut self, addr: u64, byte: u8)
        requires inside { IsInside self.old.range addr 1 }
        ensures range { range_of self.new ≡ range_of self.old }
        ensures ram { ram_of self.new ≡ put_byte addr byte (ram_of self.old) }
        ensures exec { exec_of self.new ≡ exec_of self.old }
    {
        let index = self.page_index(addr);
        store(
            self.pages.page_mut(index),
            addr as usize % PAGE_SIZE,
            Width::Byte,
            u32::from(byte),
        );
    }

    /// Stores bytes of RAM from an address on.
    fn put_all(&mut self, addr: u32, bytes: &[u8])
        requires inside { IsInside self.old.range addr (length bytes.now) }
        ensures range { range_of self.new ≡ range_of self.old }
        ensures ram { ram_of self.new ≡ with_bytes addr bytes.now (ram_of self.old) }
        ensures exec { exec_of self.new ≡ exec_of self.old }
    {
        for (i, byte) in bytes.iter().enumerate() {
            self.put(u64::from(addr) + i as u64, *byte);
        }
    }

    /// Makes one address of RAM text.
    #[tactic(auto, unfolding(crate::specs::Ram::ram_of))]
    fn mark(&mut self, alloc: Global, addr: u64) -> Result<(), AllocError>
        requires inside { IsInside self.old.range addr 1 }
        ensures range { range_of self.new ≡ range_of self.old }
        ensures ram { ram_of self.new ≡ ram_of self.old }
        ensures exec { OnOk result (exec_of self.new ≡ (λ x. x == addr || exec_of self.old x)) }
    {
        let index = self.page_index(addr);
        add_text(alloc, &mut self.texts[index], addr as usize % PAGE_SIZE)?;
        Ok(())
    }

    /// Makes addresses of RAM text, from one on.
    fn mark_all(&mut self, alloc: Global, addr: u32, size: u32) -> Result<(), AllocError>
        requires inside { IsInside self.old.range addr size }
        ensures range { range_of self.new ≡ range_of self.old }
        ensures ram { ram_of self.new ≡ ram_of self.old }
        ensures exec { OnOk result (exec_of self.new ≡ with_text addr size (exec_of self.old)) }
    {
        for i in 0..size {
            self.mark(alloc, u64::from(addr) + u64::from(i))?;
        }
        Ok(())
    }

    /// Loads a segment: its bytes into RAM, and its addresses as text where it is executable.
    fn load_segment(&mut self, alloc: Global, segment: &Segment) -> Result<(), AllocError>
        requires placed { IsPlaced self.old.range segment.now }
        ensures range { range_of self.new ≡ range_of self.old }
        ensures ram { OnOk result (ram_of self.new
            ≡ with_bytes segment.now.addr segment.now.bytes (ram_of self.old)) }
        ensures exec { OnOk result (exec_of self.new
            ≡ with_segment segment.now (exec_of self.old)) }
    {
        self.put_all(segment.addr, segment.bytes.as_slice());
        if segment.exec {
            self.mark_all(alloc, segment.addr, segment.size)?;
        }
        Ok(())
    }

    /// Loads segments into RAM of zeros without text.
    fn load_all(&mut self, alloc: Global, segments: &[Segment]) -> Result<(), AllocError>
        requires placed { All (IsPlaced self.old.range) segments.now }
        requires apart { AllPairs AreApart segments.now }
        requires zero { ram_of self.old ≡ (λ _. 0) }
        requires none { exec_of self.old ≡ (λ _. false) }
        ensures range { range_of self.new ≡ range_of self.old }
        ensures ram { OnOk result (ram_of self.new ≡ segments_byte segments.now) }
        ensures exec { OnOk result (exec_of self.new ≡ in_executable segments.now) }
    {
        for i in (0..segments.len()).rev() {
            self.load_segment(alloc, &segments[i])?;
        }
        Ok(())
    }

    /// RAM as an image that is sound for its range leaves it: the segments' bytes, and 0 elsewhere.
    /// The text is that of the executable segments. All memory is taken here; a refusal drops what
    /// was taken.
    #[tactic(auto, unfolding(elf_image::specs::Load::image_byte, elf_image::specs::Load::is_executable))]
    pub fn new(alloc: Global, range: RamRange, image: &Image) -> Result<Ram, NoMemory>
        requires sound { IsSound image.now range }
        ensures range { IfOk result (λ ram. range_of ram ≡ range) }
        ensures ram { IfOk result (λ ram. ram_of ram ≡ image_byte image.now) }
        ensures exec { IfOk result (λ ram. exec_of ram ≡ is_executable image.now) }
        ensures text { IfOk result (λ ram. text_of ram
            ≡ text_from (is_executable image.now) (image_byte image.now)) }
    {
        let Ok(mut ram) = Ram::zeros(alloc, range) else {
            return Err(NoMemory);
        };
        if ram.load_all(alloc, image.segments.as_slice()).is_err() {
            return Err(NoMemory);
        }
        ram.sync();
        Ok(ram)
    }

    /// The value of an aligned access, none where it isn't inside RAM. Little endian.
    #[inline(always)]
    pub fn get(&self, addr: u32, width: Width) -> Option<u32>
        requires aligned { addr % width_bytes width ≡ 0 }
        ensures value { result ≡ loaded (range_of self.now) (ram_of self.now) addr width }
    {
        if !self.range.contains(addr, width.bytes()) {
            return None;
        }
        let index = self.page_index(u64::from(addr));
        Some(load(self.pages.page(index), addr as usize % PAGE_SIZE, width))
    }

    /// Stores the low bytes of a value by an aligned access, and gives the value that it replaces;
    /// none, and nothing changes, where the access isn't inside RAM. Little endian. Storing the
    /// value that was given restores RAM.
    #[inline(always)]
    pub fn set(&mut self, addr: u32, width: Width, value: u32) -> Option<u32>
        requires aligned { addr % width_bytes width ≡ 0 }
        ensures old { result ≡ loaded (range_of self.old) (ram_of self.old) addr width }
        ensures ram { ram_of self.new
            ≡ stored (range_of self.old) (ram_of self.old) addr width value }
        ensures back { IfSome result (λ old.
            stored (range_of self.old) (ram_of self.new) addr width old ≡ ram_of self.old) }
        ensures none { IfNone result (self.new ≡ self.old) }

        // The text stays as it was.
        ensures text { text_of self.new ≡ text_of self.old }
        ensures exec { exec_of self.new ≡ exec_of self.old }
        ensures range { range_of self.new ≡ range_of self.old }
    {
        if !self.range.contains(addr, width.bytes()) {
            return None;
        }
        let index = self.page_index(u64::from(addr));
        let page = self.pages.page_mut(index);
        let offset = addr as usize % PAGE_SIZE;
        let old = load(page, offset, width);
        store(page, offset, width, value);
        Some(old)
    }

    /// The word that fetch reads at an aligned address, none where its four bytes aren't all text.
    pub fn text(&self, addr: u32) -> Option<u32>
        requires aligned { addr % 4 ≡ 0 }
        ensures word { result ≡ fetched (exec_of self.now) (text_of self.now) addr }
    {
        if !self.range.contains(addr, 4) {
            return None;
        }
        let index = self.page_index(u64::from(addr));
        fetch(&self.texts[index], addr as usize % PAGE_SIZE)
    }

    /// Sets the text to memory: each byte that is text becomes that of RAM.
    pub fn sync(&mut self)
        ensures text { text_of self.new ≡ text_from (exec_of self.old) (ram_of self.old) }

        // All else stays as it was.
        ensures ram { ram_of self.new ≡ ram_of self.old }
        ensures exec { exec_of self.new ≡ exec_of self.old }
        ensures range { range_of self.new ≡ range_of self.old }
    {
        copy_pages(&self.pages, &mut self.texts);
    }
}

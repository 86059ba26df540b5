ghost use Rattle.std.specs.Prelude.{◌≡◌, ◌≤◌, ◌+◌, ◌%◌, ◌++◌, ◌∷◌, [], ℕ, OnOk};
ghost use Rattle.text_rows.specs.Rows.{AreRowsWithin};

use crate::text::{PAGE_SIZE, PAGE_WORDS, has_text, is_reached};
use elf_image::Image;
use fsim_base::NoMemory;
use mono_model::Setup;
use std::alloc::Global;
use std::marker::Model;

/// The addresses of the words of a text, in rising order. The place of each is its row; one more
/// row, after them, is that of all other addresses.
#[derive(Debug, Drop)]
pub struct TextRows {
    addrs: Vec<u32>,
    /// The first address of RAM.
    base: u32,
    /// Of each page of RAM, how many of the addresses lie before it: where a search begins.
    before: Vec<u32>,
}

impl Model for TextRows {
    ghost use Rattle.std.specs.Prelude.{List, ℕ};
    ghost use Rattle.std.specs.List.Sorted.{IsStrictlyIncreasing};

    ghost Value = { List ℕ };

    ghost view = { λ rows. rows.addrs.items };

    ghost invariant = { λ rows. IsStrictlyIncreasing rows.addrs.items };
}

impl TextRows {
    ghost use Rattle.std.specs.Prelude.{◌≡◌, ◌<◌, ◌^◌, true, length, slice_get, IfOk};
    ghost use Rattle.std.specs.List.Sorted.{IsStrictlyIncreasing};
    ghost use Rattle.mono_model.specs.Setup.{is_setup};
    ghost use Rattle.text_rows.specs.Rows.{AreRowsOf, IsRowOf};

    /// The rows of a setup's image. All memory is taken here.
    pub fn new(alloc: Global, setup: &Setup) -> Result<TextRows, NoMemory>
        requires sound { is_setup setup.now ≡ true }
        ensures rows { IfOk result (AreRowsOf setup.now.image) }
    {
        let image = &setup.image;
        let ram = setup.params.ram_range();
        let mut addrs = Vec::new(alloc);
        let mut before = Vec::new(alloc);
        for page in 0..ram.size / PAGE_SIZE {
            push(&mut before, addrs.len() as u32)?;
            push_page(image, ram.base + PAGE_SIZE * page, &mut addrs)?;
        }
        Ok(TextRows {
            addrs,
            base: ram.base,
            before,
        })
    }

    /// How many words of text there are, which is the row of all other addresses.
    pub fn len(&self) -> usize
        ensures len { result ≡ length self.now }
        ensures rising { IsStrictlyIncreasing self.now }
        ensures small { result < 2 ^ 63 }
    {
        self.addrs.len()
    }

    /// The row of an address.
    pub fn row(&self, addr: u32) -> usize
        ensures row { IsRowOf self.now addr result }
    {
        let guess = self.guess(addr);
        match self.addrs.get(guess) {
            Some(found) if *found == addr => guess,
            _ => self.search(addr),
        }
    }

    /// The row of an address, if the words of text of its page stand side by side up to there: it
    /// may be any number.
    fn guess(&self, addr: u32) -> usize {
        let page = addr.wrapping_sub(self.base) / PAGE_SIZE;
        let before = match self.before.get(page as usize) {
            Some(before) => *before as usize,
            None => return 0,
        };
        match self.addrs.get(before) {
            Some(first) => before.saturating_add((addr.wrapping_sub(*first) / 4) as usize),
            None => 0,
        }
    }

    /// The row of an address, by a search among all.
    fn search(&self, addr: u32) -> usize
        ensures row { IsRowOf self.now addr result }
    {
        match self.addrs.binary_search(&addr) {
            Ok(row) => row,
            Err(_) => self.addrs.len(),
        }
    }

    /// The address of a row; None of the last one.
    pub fn address(&self, row: usize) -> Option<u32>
        ensures address { result ≡ slice_get self.now row }
    {
        self.addrs.get(row).copied()
    }
}

/// Adds the words of text of the page that begins at an address.
fn push_page(image: &Image, page: u32, addrs: &mut Vec<u32>) -> Result<(), NoMemory>
    requires fits { page + 4096 ≤ 4294967296 }
    requires aligned { page % 4 ≡ 0 }
    ensures rows { OnOk result ((first : ℕ)
        → AreRowsWithin image.now first page addrs.old.items
        → AreRowsWithin image.now first (page + 4096) addrs.new.items) }
{
    if !is_reached(image, page) {
        return Ok(());
    }
    for word in 0..PAGE_WORDS {
        let addr = page + 4 * word;
        if has_text(image, addr) {
            push(addrs, addr)?;
        }
    }
    Ok(())
}

/// Adds to a list.
fn push(list: &mut Vec<u32>, item: u32) -> Result<(), NoMemory>
    ensures pushed { OnOk result (list.new.items ≡ list.old.items ++ item ∷ []) }
{
    match list.push(item) {
        Ok(()) => Ok(()),
        Err(_) => Err(NoMemory),
    }
}

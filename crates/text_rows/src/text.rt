//! The words of text, and the pages that hold them.
ghost use Rattle.std.specs.Prelude.{◌≡◌, ◌+◌, ◌≤◌, ◌<◌, ◌&&◌, ℕ, true, false, nat_lt};
ghost use Rattle.elf_image.specs.Load.{holds, is_executable};
ghost use Rattle.mono_model.specs.Found.{has_text};
ghost use Rattle.mono_model.specs.Setup.{is_setup, ram_range};
ghost use Rattle.text_rows.specs.Pages.{holds_text, text_pages};

use elf_image::{Image, Segment};
use fsim_base::RamRange;
use mono_model::Setup;

/// How many bytes a page has.
pub(crate) const PAGE_SIZE: u32 = 4096;

/// How many words a page has.
pub(crate) const PAGE_WORDS: u32 = 1024;

/// For how many pages there are rows, at most.
pub const MOST_PAGES: u32 = 1024;

/// Whether a byte lies in the segment.
fn has_byte(segment: &Segment, addr: u64) -> bool
    requires fits { addr < 8589934592 }
    ensures byte { result ≡ holds segment.now addr }
{
    let first = u64::from(segment.addr);
    first <= addr && addr < first + u64::from(segment.size)
}

/// Whether a byte lies in an executable segment.
fn is_executable(image: &Image, addr: u64) -> bool
    requires fits { addr < 8589934592 }
    ensures executable { result ≡ is_executable image.now addr }
{
    for segment in image.segments.as_slice() {
        if segment.exec && has_byte(segment, addr) {
            return true;
        }
    }
    false
}

/// Whether the four bytes from an address on lie in executable segments.
pub(crate) fn has_text(image: &Image, addr: u32) -> bool
    ensures text { result ≡ has_text image.now addr }
{
    let addr = u64::from(addr);
    is_executable(image, addr)
        && is_executable(image, addr + 1)
        && is_executable(image, addr + 2)
        && is_executable(image, addr + 3)
}

/// Whether a byte of the segment lies in the page that begins at an address.
fn reaches_into(segment: &Segment, page: u32) -> bool
    ensures reaches { result ≡ (nat_lt segment.now.addr (page + 4096)
        && nat_lt page (segment.now.addr + segment.now.size)) }
{
    let first = u64::from(segment.addr);
    let page = u64::from(page);
    first < page + u64::from(PAGE_SIZE) && page < first + u64::from(segment.size)
}

/// Whether a byte of the page that begins at an address may lie in an executable segment.
pub(crate) fn is_reached(image: &Image, page: u32) -> bool
    ensures unreached { result ≡ false → (addr : ℕ) → page ≤ addr → addr < page + 4096
        → is_executable image.now addr ≡ false }
{
    for segment in image.segments.as_slice() {
        if segment.exec && reaches_into(segment, page) {
            return true;
        }
    }
    false
}

/// Whether the page that begins at an address holds a word of text.
fn holds_text(image: &Image, page: u32) -> bool
    requires fits { page + 4096 ≤ 4294967296 }
    ensures holds { result ≡ holds_text image.now page }
{
    if !is_reached(image, page) {
        return false;
    }
    for word in 0..PAGE_WORDS {
        if has_text(image, page + 4 * word) {
            return true;
        }
    }
    false
}

/// How many pages of RAM hold a word of text.
pub fn text_pages(setup: &Setup) -> u32
    requires sound { is_setup setup.now ≡ true }
    ensures pages { result ≡ text_pages setup.now.image (ram_range setup.now.params) }
{
    pages_in(&setup.image, setup.params.ram_range())
}

/// The same of an image in this RAM.
fn pages_in(image: &Image, ram: RamRange) -> u32
    requires end { ram.base + ram.size ≤ 4294967296 }
    ensures pages { result ≡ text_pages image.now ram }
{
    let mut count = 0;
    for page in 0..ram.size / PAGE_SIZE {
        if holds_text(image, ram.base + PAGE_SIZE * page) {
            count += 1;
        }
    }
    count
}

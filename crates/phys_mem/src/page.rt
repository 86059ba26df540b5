ghost use Rattle.std.specs.Prelude.{◌≡◌, ℕ, ◌+◌, ◌<◌, ◌≤◌, slice_index};
ghost use Rattle.fsim_base.specs.Memory.{from_bytes, put_bytes};
ghost use Rattle.fsim_base.specs.Width.{width_bytes};
ghost use Rattle.phys_mem.specs.PageBytes.{bytes_of};

use byteorder::{ByteOrder, LittleEndian};
use fsim_base::Width;

/// How many bytes a page has.
pub const PAGE_SIZE: usize = 4096;

/// The bytes of a page, from its first address up.
pub type Page = [u8; PAGE_SIZE];

/// One bit for each byte of a page, the lowest bit of a byte first.
pub type Marks = [u8; PAGE_SIZE / 8];

/// The copy of a page that fetch reads, with one mark for each byte that is text.
#[derive(Drop)]
pub struct TextPage {
    pub bytes: Page,
    pub marks: Marks,
}

/// The value of an access inside a page.
pub fn load(page: &Page, offset: usize, width: Width) -> u32
    requires inside { offset + width_bytes width ≤ 4096 }
    ensures value { result ≡ from_bytes (width_bytes width) offset (bytes_of page.now) }
    ensures bytes { (i : ℕ) → slice_index page.now i < 256 }
{
    match width {
        Width::Byte => u32::from(page[offset]),
        Width::Half => u32::from(LittleEndian::read_u16(&page[offset..])),
        Width::Word => LittleEndian::read_u32(&page[offset..]),
    }
}

/// Stores the low two bytes of a value inside a page.
fn store_half(page: &mut Page, offset: usize, value: u32)
    requires inside { offset + 2 ≤ 4096 }
    ensures { bytes_of page.new ≡ put_bytes 2 offset value (bytes_of page.old) }
{
    LittleEndian::write_u16(&mut page[offset..], (value & 0xffff) as u16);
}

/// Stores the four bytes of a value inside a page.
fn store_word(page: &mut Page, offset: usize, value: u32)
    requires inside { offset + 4 ≤ 4096 }
    ensures { bytes_of page.new ≡ put_bytes 4 offset value (bytes_of page.old) }
{
    LittleEndian::write_u32(&mut page[offset..], value);
}

/// Stores the low bytes of a value inside a page.
pub fn store(page: &mut Page, offset: usize, width: Width, value: u32)
    requires inside { offset + width_bytes width ≤ 4096 }
    ensures { bytes_of page.new ≡ put_bytes (width_bytes width) offset value (bytes_of page.old) }
{
    match width {
        Width::Byte => page[offset] = (value & 0xff) as u8,
        Width::Half => store_half(page, offset, value),
        Width::Word => store_word(page, offset, value),
    }
}

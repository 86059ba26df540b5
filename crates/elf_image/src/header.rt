ghost use Rattle.std.specs.Prelude.{◌≡◌, ◌+◌, ◌*◌, ◌≤◌, length};
ghost use Rattle.elf_image.specs.Fields.{number_at, header_of, header_at, table_place};

use byteorder::{ByteOrder, LittleEndian};

/// p_type of a part that is to be loaded, PT_LOAD.
pub const LOAD: u32 = 1;

/// An entry of the table of program headers, by the fields that an image is made from.
#[derive(Clone, Copy)]
pub struct ProgramHeader {
    /// p_type
    pub kind: u32,
    /// p_offset
    pub offset: u32,
    /// p_paddr
    pub address: u32,
    /// p_filesz
    pub file_size: u32,
    /// p_memsz
    pub memory_size: u32,
    /// p_flags
    pub flags: u32,
}

/// The number in the two bytes from a place.
#[tactic(auto, unfolding(crate::specs::Fields::number_at))]
pub fn half_at(bytes: &[u8], at: usize) -> u16
    requires inside { at + 2 ≤ length bytes.now }
    ensures { result ≡ number_at 2 at bytes.now }
{
    LittleEndian::read_u16(&bytes[at..])
}

/// The number in the four bytes from a place.
#[tactic(auto, unfolding(crate::specs::Fields::number_at))]
pub fn word_at(bytes: &[u8], at: usize) -> u32
    requires inside { at + 4 ≤ length bytes.now }
    ensures { result ≡ number_at 4 at bytes.now }
{
    LittleEndian::read_u32(&bytes[at..])
}

/// The program header at the front of some bytes.
#[tactic(auto, unfolding(crate::specs::Fields::header_of))]
fn first_header(bytes: &[u8]) -> ProgramHeader
    requires inside { 32 ≤ length bytes.now }
    ensures { result ≡ header_of bytes.now }
{
    ProgramHeader {
        kind: word_at(bytes, 0),
        offset: word_at(bytes, 4),
        address: word_at(bytes, 12),
        file_size: word_at(bytes, 16),
        memory_size: word_at(bytes, 20),
        flags: word_at(bytes, 24),
    }
}

/// The program header at a place of the table.
#[tactic(auto, unfolding(crate::specs::Fields::header_at))]
pub fn header(bytes: &[u8], index: u32) -> ProgramHeader
    requires file { 52 ≤ length bytes.now }
    requires table { table_place bytes.now + 32 * index + 32 ≤ length bytes.now }
    ensures { result ≡ header_at bytes.now index }
{
    let at = word_at(bytes, 28) as usize + 32 * index as usize;
    first_header(&bytes[at..])
}

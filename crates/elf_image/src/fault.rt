/// Why bytes are no image for a range of RAM. Numbers are places in the table of program headers,
/// from 0.
#[derive(Clone, Copy, Debug, PartialEq, Eq)]
pub enum ImageFault {
    /// Fewer bytes than an ELF header has.
    Short,
    /// The first four bytes aren't those of an ELF file.
    Magic,
    /// Not an ELF file of 32 bits.
    Class,
    /// Not little endian.
    Endian,
    /// Not an executable file.
    FileType,
    /// Not for RISC-V.
    Machine,
    /// Program headers of another size than 32 bytes.
    EntrySize,
    /// More program headers than 64; how many.
    Count(u32),
    /// The table of program headers goes past the end of the file.
    TableOutside,
    /// The bytes of this header's segment go past the end of the file.
    FileOutside(u32),
    /// This header's segment has more bytes in the file than in memory.
    Larger(u32),
    /// This header's segment isn't inside RAM.
    OutsideRam(u32),
    /// The first header's segment shares a byte of memory with that of the second, an earlier one;
    /// it is the first such.
    Overlap(u32, u32),
    /// Memory was wanted and not found.
    Memory,
}

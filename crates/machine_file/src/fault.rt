use fsim_base::Bytes;

/// Why bytes are no machine file. A key is the section's name, a dot and the name inside it, or a
/// top-level name alone.
#[derive(Debug, Drop)]
pub enum MachineFault {
    /// The bytes aren't TOML.
    NotToml,
    /// No such key.
    Unknown(Bytes),
    /// The value isn't of the key's kind.
    Kind(Bytes),
    /// The value isn't in the key's range.
    Range(Bytes, i64),
    /// The value isn't a power of two.
    Power(Bytes, i64),
    /// Memory was wanted and not found.
    Memory,
}

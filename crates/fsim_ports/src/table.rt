ghost use Rattle.std.specs.Prelude.{◌≡◌, ◌≢◌, ℕ, ◌<◌, [], length, None, Some, MatchOption, OnOk};
ghost use Rattle.std.specs.Prelude.{OnErr, IfOk};
ghost use Rattle.fsim_ports.specs.Files.{Names, Holds, lookup, IsPart};
ghost use Rattle.fsim_ports.specs.Memory.{with_file};

use crate::outside::Part;
use fsim_base::{Bytes, NoMemory, Text};
use std::alloc::Global;
use std::marker::Model;

/// Names and the bytes under them, the newest in front.
#[derive(Debug, Drop)]
pub struct NameTable {
    alloc: Global,
    files: Vec<(Text, Bytes)>,
}

impl Model for NameTable {
    ghost Value = { Names };

    ghost view = { λ t. t.files.items };
}

impl NameTable {
    /// A table with no name.
    pub fn new(alloc: Global) -> NameTable
        ensures empty { result ≡ [] }
    {
        NameTable {
            alloc,
            files: Vec::new(alloc),
        }
    }

    /// Puts bytes under a name. A name that is there already has its new bytes from then on.
    pub fn add(&mut self, name: &str, bytes: &[u8]) -> Result<(), NoMemory>
        ensures ok { OnOk result (self.new ≡ with_file self.old name.now bytes.now) }
        ensures err { OnErr result (self.new ≡ self.old) }
    {
        let file = copied(self.alloc, name, bytes)?;
        if self.files.insert(0, file).is_err() {
            return Err(NoMemory);
        }
        Ok(())
    }

    /// The bytes under a name.
    pub fn find(&self, name: &str) -> Option<&[u8]>
        ensures found { MatchOption result (lookup self.now name.now ≡ None)
            (λ bytes. lookup self.now name.now ≡ Some bytes.now) }
    {
        for (held, bytes) in self.files.as_slice() {
            if held.as_str() == name {
                return Some(bytes.as_slice());
            }
        }
        None
    }
}

/// Copies of a name and of the bytes under it.
fn copied(alloc: Global, name: &str, bytes: &[u8]) -> Result<(Text, Bytes), NoMemory>
    ensures same { IfOk result (λ file. file ≡ (name.now, bytes.now)) }
{
    let Ok(name) = String::from_str(alloc, name) else {
        return Err(NoMemory);
    };
    let Ok(bytes) = Vec::from_slice(alloc, bytes) else {
        return Err(NoMemory);
    };
    Ok((Text::new(name), Bytes::new(bytes)))
}

/// Reads the bytes of a file from the place `at` on into the front of `buf`.
pub fn part_of(file: &[u8], at: u64, buf: &mut [u8]) -> Part
    requires room { 0 < length buf.old }
    ensures part { (before after : ℕ) → IsPart (Holds file.now) at before after buf.new result }
    ensures sure { result ≢ Part.Failed }
{
    if file.len() as u64 <= at {
        return Part::End;
    }
    let rest = &file[at as usize..];
    let count = rest.len().min(buf.len());
    buf[..count].copy_from_slice(&rest[..count]);
    Part::Bytes(count)
}

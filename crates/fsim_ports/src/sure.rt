ghost use Rattle.std.specs.Prelude.{◌≡◌, ◌≤◌, [], length, None, Some, OnOk, OnErr};
ghost use Rattle.fsim_ports.specs.Files.{Names};
ghost use Rattle.fsim_ports.specs.Memory.{with_file};
ghost use Rattle.fsim_ports.specs.Sink.{IsPut};

use crate::outside::{Failed, Files, Part, Sink};
use crate::table::{NameTable, part_of};
use fsim_base::NoMemory;
use std::alloc::Global;
use std::marker::Model;

/// Files in memory whose reads never fail.
#[derive(Debug, Drop)]
pub struct SureFiles {
    table: NameTable,
}

impl Model for SureFiles {
    ghost Value = { Names };

    ghost view = { λ s. s.table };
}

impl SureFiles {
    /// No files.
    pub fn new(alloc: Global) -> SureFiles
        ensures empty { result ≡ [] }
    {
        SureFiles {
            table: NameTable::new(alloc),
        }
    }

    /// Puts bytes under a name. A name that is added again has its new bytes.
    pub fn add(&mut self, name: &str, bytes: &[u8]) -> Result<(), NoMemory>
        ensures ok { OnOk result (self.new ≡ with_file self.old name.now bytes.now) }
        ensures err { OnErr result (self.new ≡ self.old) }
    {
        self.table.add(name, bytes)
    }
}

impl Files for SureFiles {
    ghost told = { λ names. Some names };

    ghost faults = { λ names. 0 };

    fn read(&mut self, name: &str, at: u64, buf: &mut [u8]) -> Part {
        let Some(file) = self.table.find(name) else {
            return Part::Missing;
        };
        part_of(file, at, buf)
    }
}

/// A sink that takes every piece whole, keeps none and never fails.
#[derive(Clone, Copy, Debug, Default, PartialEq, Eq)]
pub struct SureSink;

impl SureSink {
    /// A sink with a count of 0 faults, which stays so.
    pub fn new() -> SureSink {
        SureSink
    }
}

impl Sink for SureSink {
    ghost written = { λ s. None };

    ghost faults = { λ s. 0 };

    /// Takes the piece whole.
    fn put(&mut self, bytes: &[u8]) -> Result<usize, Failed>
        ensures count { 0 ≤ 0 }
        ensures put { IsPut bytes.now 0 0 None None result }
        ensures whole { result ≡ Ok (length bytes.now) }
    {
        Ok(bytes.len())
    }
}

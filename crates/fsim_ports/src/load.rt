ghost use Rattle.std.specs.Prelude.{◌≡◌, ◌≤◌};
ghost use Rattle.fsim_ports.specs.Files.{holding_of};
ghost use Rattle.fsim_ports.specs.Loading.{IsLoad};

use crate::outside::{Files, Part};
use std::alloc::Global;
use thiserror::Error;

/// Why a file couldn't be read whole.
#[derive(Clone, Copy, Debug, PartialEq, Eq, Error)]
pub enum LoadFault {
    #[error("no file has this name")]
    Missing,
    #[error("reading failed")]
    Failed,
    #[error("the file is longer than its limit")]
    TooLong,
    #[error("no memory is left")]
    Memory,
}

/// How many bytes are asked for at a time.
const PART_SIZE: usize = 65_536;

/// Reads a file of at most `limit` bytes whole.
///
/// Of told files, `Missing` comes exactly where no file has the name, and `TooLong` and the bytes
/// only where the file is so. `Failed`, and `Missing` of files that aren't told, come only where
/// the count of faults rose. `Memory` is free.
/// Each read takes at least one byte, so there are at most `limit` + 2 of them.
pub fn load_file<F: Files>(
    alloc: Global,
    files: &mut F,
    name: &str,
    limit: u64,
) -> Result<Vec<u8>, LoadFault>
    ensures same { F.told files.new ≡ F.told files.old }
    ensures count { F.faults files.old ≤ F.faults files.new }
    ensures load { IsLoad (holding_of (F.told files.old) name.now) limit (F.faults files.old)
        (F.faults files.new) result }
{
    let mut bytes = Vec::new(alloc);
    let mut part = [0; PART_SIZE];
    loop {
        match files.read(name, bytes.len() as u64, &mut part) {
            Part::Bytes(count) => {
                if limit - (bytes.len() as u64) < count as u64 {
                    return Err(LoadFault::TooLong);
                }
                if bytes.extend_from_slice(&part[..count]).is_err() {
                    return Err(LoadFault::Memory);
                }
            }
            Part::End => return Ok(bytes),
            Part::Missing => return Err(LoadFault::Missing),
            Part::Failed => return Err(LoadFault::Failed),
        }
    }
}

ghost use Rattle.std.specs.Prelude.{◌≡◌, ◌≤◌, MatchResult};
ghost use Rattle.fast_jobs.specs.Files.{limit_of};
ghost use Rattle.fast_jobs.specs.Call.{reading_of};
ghost use Rattle.fast_jobs.specs.Reading.{IsRead, StopsAt, status_of_load};

use crate::files::NamedFile;
use crate::refusal::Refusal;
use device_bus::INPUT_LIMIT;
use fsim_ports::{Files, LoadFault, load_file};
use report_text::{Role, Status};
use std::alloc::Global;

/// How many bytes a file of this role may have.
fn limit_of(role: Role) -> u64
    ensures limit { result ≡ limit_of role }
{
    match role {
        Role::Image => 67_108_864,
        Role::Machine => 65_536,
        Role::Plan => 1_048_576,
        Role::Input => INPUT_LIMIT as u64,
        Role::Script => 65_536,
        // What a debugger writes is no file.
        Role::Packets => 0,
    }
}

/// The answer where the file of this role could not be read.
fn refusal_of_load(role: Role, fault: LoadFault) -> Refusal
    ensures status { result ≡ status_of_load role fault }
{
    match fault {
        LoadFault::Missing => Refusal::new(Status::Missing(role)),
        LoadFault::Failed => Refusal::new(Status::ReadFault(role)),
        LoadFault::TooLong => Refusal::new(Status::TooLong(role, limit_of(role))),
        LoadFault::Memory => Refusal::new(Status::Memory),
    }
}

/// The bytes of the file, read whole.
pub fn load<F: Files>(alloc: Global, file: &NamedFile, files: &mut F) -> Result<Vec<u8>, Refusal>
    ensures told { F.told files.new ≡ F.told files.old }
    ensures count { F.faults files.old ≤ F.faults files.new }
    ensures loaded { MatchResult result (λ bytes. IsRead (F.told files.old) file.now bytes.items)
        (StopsAt (reading_of F.told F.faults files.old files.new) file.now) }
{
    match load_file(alloc, files, file.name.as_str(), limit_of(file.role)) {
        Ok(bytes) => Ok(bytes),
        Err(fault) => Err(refusal_of_load(file.role, fault)),
    }
}

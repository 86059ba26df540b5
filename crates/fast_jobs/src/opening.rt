ghost use Rattle.std.specs.Prelude.{◌≡◌, ◌≤◌, Ok, IfOk, IfErr};
ghost use Rattle.fast_cli.specs.Ranges.{IsInRange};
ghost use Rattle.fast_jobs.specs.Opening.{Asks, Closes};
ghost use Rattle.fast_jobs.specs.Call.{reading_of};
ghost use Rattle.fast_jobs.specs.Job.{CanBegin, sets_for};

use crate::files::files_of;
use crate::job::{Job, job_of};
use crate::read::read_files;
use crate::refusal::Refusal;
use fast_cli::Line;
use fsim_ports::Files;
use std::alloc::Global;

/// The job that a line asks for with so many sets of devices: its files are read, and then what
/// they hold is tested.
pub fn open<F: Files>(
    alloc: Global,
    line: &Line,
    sets: usize,
    files: &mut F,
) -> Result<Job, Refusal>
    requires sets { 1 ≤ sets }
    requires ranges { IsInRange line.now }
    ensures told { F.told files.new ≡ F.told files.old }
    ensures count { F.faults files.old ≤ F.faults files.new }
    ensures asks { IfOk result (λ job. Asks line.now sets
        (reading_of F.told F.faults files.old files.new) (Ok job)) }
    ensures can { IfOk result (λ job. CanBegin job) }
    ensures room { IfOk result (λ job. sets_for job ≤ sets) }
    ensures closes { IfErr result
        (Closes line.now sets (reading_of F.told F.faults files.old files.new)) }
{
    let named = files_of(alloc, line)?;
    let contents = read_files(alloc, named.as_slice(), files)?;
    job_of(alloc, line, sets, contents)
}

ghost use Rattle.std.specs.Prelude.{◌≡◌, ◌≢◌, ◌≤◌, [], IfOk, IfErr};
ghost use Rattle.report_text.specs.declared.status.Status.TheVariants.{Memory};
ghost use Rattle.fast_jobs.specs.Call.{reading_of};
ghost use Rattle.fast_jobs.specs.Reading.{AreRead, StopsIn};

use crate::files::NamedFile;
use crate::load::load;
use crate::refusal::Refusal;
use fsim_base::Bytes;
use fsim_ports::Files;
use std::alloc::Global;

/// The bytes of the files, which are read whole, one after the other, up to the first that can't
/// be.
pub fn read_files<F: Files>(
    alloc: Global,
    named: &[NamedFile],
    files: &mut F,
) -> Result<Vec<Bytes>, Refusal>
    ensures told { F.told files.new ≡ F.told files.old }
    ensures count { F.faults files.old ≤ F.faults files.new }
    ensures unread { named.now ≡ [] → F.faults files.new ≡ F.faults files.old }
    ensures read { IfOk result (λ contents. AreRead (F.told files.old) named.now contents.items) }
    ensures stopped { IfErr result (λ status. status ≢ Memory
        → StopsIn (reading_of F.told F.faults files.old files.new) named.now status) }
{
    let mut contents = Vec::new(alloc);
    for file in named {
        let bytes = load(alloc, file, files)?;
        contents.push(Bytes::new(bytes))?;
    }
    Ok(contents)
}

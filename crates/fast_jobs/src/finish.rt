ghost use Rattle.std.specs.Prelude.{◌≡◌, ℕ, ◌≤◌, ◌++◌, List, [], Option};
ghost use Rattle.mono_model.specs.Report.{closed_output, report_text, func_report_text};
ghost use Rattle.fast_jobs.specs.declared.job.Job.{Job as AnyJob};
ghost use Rattle.fast_jobs.specs.Ending.{Ends};
ghost use Rattle.fast_jobs.specs.Early.{HasPut, writing_since};
ghost use Rattle.fast_jobs.specs.Outcome.{MayEnd, job_status, job_text, status_for};

use fsim_ports::Sink;
use mono_model::{End, Final};
use report_text::{Status, func_report, report};

/// The answer to an end.
pub fn status_for(end: End) -> Status
    ensures status { result ≡ status_for end }
{
    match end {
        End::Pass => Status::Pass,
        End::Fail(code) => Status::Fail(code),
        End::Limit => Status::Limit,
        End::OutputFull => Status::OutputFull,
        End::Running => Status::Running,
    }
}

/// Writes what is left of the output, of which so many bytes were put, and the report of a run
/// without a machine file, and gives the answer to it: to whichever job has this end and this text,
/// and of which only those bytes were put since it began, it is the answer.
pub fn finish_alone<K: Sink>(last: &Final, output: &[u8], put: usize, sink: &mut K) -> Status
    ensures count { K.faults sink.old ≤ K.faults sink.new }
    ensures ends { (job : AnyJob) (begun : Option (List ℕ)) (faults : ℕ) → MayEnd job
        → job_status job ≡ status_for last.now.end
        → job_text job [] ≡ closed_output output.now ++ func_report_text last.now
        → HasPut output.now put begun faults (K.written sink.old) (K.faults sink.old)
        → Ends job [] (writing_since K.written K.faults begun faults sink.new) result }
{
    match func_report(last, output, put, sink) {
        Ok(()) => status_for(last.end),
        Err(_) => Status::WriteFault,
    }
}

/// The same of a run on the machine.
pub fn finish_timed<K: Sink>(last: &Final, output: &[u8], put: usize, sink: &mut K) -> Status
    ensures count { K.faults sink.old ≤ K.faults sink.new }
    ensures ends { (job : AnyJob) (begun : Option (List ℕ)) (faults : ℕ) → MayEnd job
        → job_status job ≡ status_for last.now.end
        → job_text job [] ≡ closed_output output.now ++ report_text last.now
        → HasPut output.now put begun faults (K.written sink.old) (K.faults sink.old)
        → Ends job [] (writing_since K.written K.faults begun faults sink.new) result }
{
    match report(last, output, put, sink) {
        Ok(()) => status_for(last.end),
        Err(_) => Status::WriteFault,
    }
}

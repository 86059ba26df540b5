ghost use Rattle.std.specs.Prelude.{◌≡◌, ◌≤◌};
ghost use Rattle.report_text.specs.FaultText.{fault_text};
ghost use Rattle.report_text.specs.declared.status.Status.TheVariants.{Memory as NoMemoryLeft};
ghost use Rattle.fast_jobs.specs.Call.{WroteTo, writing_of};

use back_debug::ScriptFault;
use elf_image::ImageFault;
use fsim_base::NoMemory;
use fsim_ports::Sink;
use machine_file::MachineFault;
use report_text::{Status, fault_line};
use std::alloc::AllocFailed;
use std::marker::Model;

/// Why there is no job, or why it could not begin: an answer that has a line, as no end of a run
/// has. Contracts see it as that answer.
#[derive(Debug, Drop)]
pub struct Refusal {
    status: Status,
}

impl Model for Refusal {
    ghost use Rattle.std.specs.Prelude.{◌≡◌, true};
    ghost use Rattle.report_text.specs.declared.status.Status.{Status};
    ghost use Rattle.report_text.specs.FaultText.{has_line};

    ghost Value = { Status };

    ghost view = { λ refusal. refusal.status };

    ghost invariant = { λ refusal. has_line refusal.status ≡ true };
}

impl Refusal {
    ghost use Rattle.std.specs.Prelude.{◌≡◌, ◌≢◌, ◌≤◌, true, IfOk, OnErr};
    ghost use Rattle.report_text.specs.FaultText.{fault_text, has_line};
    ghost use Rattle.fast_jobs.specs.Call.{WroteTo, writing_of};

    /// The refusal that is this answer.
    pub fn new(status: Status) -> Refusal
        requires line { has_line status ≡ true }
        ensures same { result ≡ status }
    {
        Refusal { status }
    }

    /// The answer.
    pub fn status(&self) -> &Status
        ensures same { result.now ≡ self.now }
        ensures line { has_line result.now ≡ true }
    {
        &self.status
    }

    /// The refusal, if it isn't want of memory.
    pub fn unless_memory(self) -> Result<Refusal, NoMemory>
        ensures same { IfOk result (λ refusal. refusal ≡ self) }
        ensures other { IfOk result (λ refusal. refusal ≢ NoMemoryLeft) }
        ensures memory { OnErr result (self ≡ NoMemoryLeft) }
    {
        match self.status {
            Status::Memory => Err(NoMemory),
            _ => Ok(self),
        }
    }

    /// Writes the line of the answer, and gives the answer, whether or not the sink took the line.
    pub fn tell<K: Sink>(self, sink: &mut K) -> Status
        ensures same { result ≡ self }
        ensures count { K.faults sink.old ≤ K.faults sink.new }
        ensures line { WroteTo (writing_of K.written K.faults sink.old sink.new)
            (fault_text self) }
    {
        let Refusal { status } = self;
        let _ = fault_line(&status, sink);
        status
    }
}

/// Writes the line of want of memory, and gives this answer, whether or not the sink took the line.
pub fn tell_want_of_memory<K: Sink>(sink: &mut K) -> Status
    ensures same { result ≡ NoMemoryLeft }
    ensures count { K.faults sink.old ≤ K.faults sink.new }
    ensures line { WroteTo (writing_of K.written K.faults sink.old sink.new)
        (fault_text NoMemoryLeft) }
{
    Refusal::new(Status::Memory).tell(sink)
}

impl From<NoMemory> for Refusal {
    ghost from_gives = { λ _ refusal. refusal ≡ NoMemoryLeft };

    fn from(_fault: NoMemory) -> Refusal {
        Refusal::new(Status::Memory)
    }
}

impl<T: Drop> From<AllocFailed<T>> for Refusal {
    ghost from_gives = { λ _ refusal. refusal ≡ NoMemoryLeft };

    fn from(_fault: AllocFailed<T>) -> Refusal {
        Refusal::new(Status::Memory)
    }
}

impl From<ImageFault> for Refusal {
    ghost use Rattle.fast_jobs.specs.Refusal.{refused_image};

    ghost from_gives = { λ fault refusal. refusal ≡ refused_image fault };

    #[tactic(auto, using(report_text::proofs::Told::image_line_told))]
    fn from(fault: ImageFault) -> Refusal {
        match fault {
            ImageFault::Memory => Refusal::new(Status::Memory),
            fault => Refusal::new(Status::Image(fault)),
        }
    }
}

impl From<MachineFault> for Refusal {
    ghost use Rattle.fast_jobs.specs.Refusal.{refused_machine};

    ghost from_gives = { λ fault refusal. refusal ≡ refused_machine fault };

    #[tactic(auto, using(report_text::proofs::Told::machine_line_told))]
    fn from(fault: MachineFault) -> Refusal {
        match fault {
            MachineFault::Memory => Refusal::new(Status::Memory),
            fault => Refusal::new(Status::Machine(fault)),
        }
    }
}

impl From<ScriptFault> for Refusal {
    ghost use Rattle.fast_jobs.specs.Refusal.{refused_script};

    ghost from_gives = { λ fault refusal. refusal ≡ refused_script fault };

    fn from(fault: ScriptFault) -> Refusal {
        match fault {
            ScriptFault::BadLine(line) => Refusal::new(Status::BadScript(line)),
            ScriptFault::Memory => Refusal::new(Status::Memory),
        }
    }
}

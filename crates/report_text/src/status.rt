use elf_image::ImageFault;
use machine_file::MachineFault;

/// Which of the files that the words name.
#[derive(Clone, Copy, Debug, PartialEq, Eq)]
pub enum Role {
    Image,
    Machine,
    Plan,
    Input,
    Script,
    /// What a debugger writes on standard input.
    Packets,
}

/// How the program answers; `number` is its exit status.
#[derive(Debug, Drop)]
pub enum Status {
    /// The program under simulation passed.
    Pass,
    /// It failed with this code.
    Fail(u16),
    /// The limit of cycles or steps was reached.
    Limit,
    /// The output had no room for a byte.
    OutputFull,
    /// The plan has left the run at a cycle where it has not ended.
    Running,
    /// The whole answer to a debugger or to a sweep was written.
    Shown,
    /// The words are no command line.
    Usage,
    /// The image isn't one for this RAM.
    Image(ImageFault),
    /// The machine file isn't one.
    Machine(MachineFault),
    /// There is no file of this name.
    Missing(Role),
    /// The file could not be read.
    ReadFault(Role),
    /// The sink failed while output and report were written; a prefix of them was.
    WriteFault,
    /// Memory was wanted and not found.
    Memory,
    /// The file is longer than its limit, in bytes.
    TooLong(Role, u64),
    /// The plan's first byte that is neither an event nor a blank, counted from 0.
    BadPlan(u64),
    /// The script's first line that is no command, counted from 1.
    BadScript(u64),
    /// A sweep names this many machine files, and fewer sets of devices were handed in.
    Sets(u64),
    /// So many pages hold text, and there is room for the rows of fewer.
    TooMuchText(u32),
}

impl Status {
    ghost use Rattle.std.specs.Prelude.{◌≡◌};
    ghost use Rattle.report_text.specs.FaultText.{status_number};

    /// The exit status.
    pub fn number(&self) -> u8
        ensures number { result ≡ status_number self.now }
    {
        match self {
            Status::Pass => 0,
            Status::Fail(_) => 1,
            Status::Limit => 2,
            Status::OutputFull => 3,
            Status::Running => 4,
            Status::Shown => 5,
            Status::Usage => 10,
            Status::Image(_) => 11,
            Status::Machine(_) => 12,
            Status::Missing(_) => 13,
            Status::ReadFault(_) => 14,
            Status::WriteFault => 15,
            Status::Memory => 16,
            Status::TooLong(_, _) => 17,
            Status::BadPlan(_) => 18,
            Status::BadScript(_) => 21,
            Status::Sets(_) => 22,
            Status::TooMuchText(_) => 23,
        }
    }
}

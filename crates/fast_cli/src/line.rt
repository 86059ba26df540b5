ghost use Rattle.std.specs.Prelude.{◌≡◌};

use crate::texts::Texts;
use fsim_base::Text;
use std::alloc::AllocError;
use thiserror::Error;

/// What a command line asks for: its command, with the names of files and the options that it
/// gives.
#[derive(Debug, Drop)]
pub enum Line {
    /// Executes the image sequentially; the machine file, if there is one, places RAM.
    Func {
        image: Text,
        machine: Option<Text>,
        options: Options,
    },
    /// Runs the image on the machine, with 1 or 2 `threads`: with 2 each side has a thread of its
    /// own, with 1 both are played in turn on one. The in-order machine is always played on one.
    Run {
        image: Text,
        machine: Text,
        pipeline: Pipeline,
        threads: u32,
        options: Options,
    },
    /// Plays a plan of the core's events on one thread, and goes on to the next cycle boundary.
    Sched {
        image: Text,
        machine: Text,
        plan: Text,
        options: Options,
    },
    /// Runs the image that the seed makes.
    Soak {
        seed: u64,
    },
    /// Plays a debugger's script; at most `history` steps can be taken back, from 1 to 1,048,576.
    /// The machine file, if there is one, places RAM.
    Back {
        image: Text,
        script: Text,
        machine: Option<Text>,
        history: u32,
        options: Options,
    },
    /// Plays a plan, or none, on the in-order machine, and goes on to its end.
    Inorder {
        image: Text,
        machine: Text,
        plan: Option<Text>,
        options: Options,
    },
    /// Runs the image on each of 1 to 64 machines.
    Sweep {
        image: Text,
        machines: Texts,
        pipeline: Pipeline,
        options: Options,
    },
    /// Runs the image on the machine, and traces the cycles from `from` up to `to`, both at most
    /// 1,099,511,627,776.
    Trace {
        image: Text,
        machine: Text,
        from: u64,
        to: u64,
        pipeline: Pipeline,
        options: Options,
    },
    /// Runs the image on the machine, and tells on what its cycles were spent.
    Stack {
        image: Text,
        machine: Text,
        pipeline: Pipeline,
        options: Options,
    },
    /// Runs the image on the machine, and tells of each address what it cost.
    Profile {
        image: Text,
        machine: Text,
        pipeline: Pipeline,
        options: Options,
    },
    /// Executes the image sequentially, and counts at each address how often. The machine file, if
    /// there is one, places RAM.
    Count {
        image: Text,
        machine: Option<Text>,
        options: Options,
    },
    /// Answers GDB; at most `history` steps can be taken back, from 1 to 1,048,576. The machine
    /// file, if there is one, places RAM.
    Gdb {
        image: Text,
        machine: Option<Text>,
        history: u32,
        options: Options,
    },
}

/// Which machine plays a run.
#[derive(Clone, Copy, Debug, PartialEq, Eq)]
pub enum Pipeline {
    /// The machine with a window of instructions, which issues them in any order.
    Window,
    /// The in-order machine of five stages.
    Inorder,
}

/// The options of a line, each with its default where the words leave it out.
#[derive(Debug, Drop)]
pub struct Options {
    /// How many entries the trace ring holds, from 1 to 65,536.
    pub ring: u32,
    /// The limit of cycles, or of steps where no machine is timed, from 1 to 1,099,511,627,776.
    pub cycles: u64,
    /// How many bytes the console may put out, at most 16,777,216.
    pub output: u32,
    /// The name of the file that the console reads.
    pub input: Option<Text>,
    /// Whether the process ends with the program's code.
    pub exit_code: bool,
}

/// Why words gave no line.
#[derive(Clone, Copy, Debug, PartialEq, Eq, Error)]
pub enum UsageFault {
    /// They make none.
    #[error("the words are no command line")]
    Words,
    /// No memory was left to read them.
    #[error("no memory is left")]
    Memory,
}

impl From<AllocError> for UsageFault {
    ghost use Rattle.fast_cli.specs.declared.line.UsageFault.TheVariants.{Memory};

    ghost from_gives = { λ _ fault. fault ≡ Memory };

    fn from(_error: AllocError) -> UsageFault {
        UsageFault::Memory
    }
}

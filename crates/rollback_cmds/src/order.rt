ghost use Rattle.std.specs.Prelude.{◌≡◌};

/// How many orders are on their way to the functional side at most.
pub const ORDER_ROOM: usize = 64;

/// An order to the functional side. `n` is the number of an instruction along its path.
///
/// Each order but [`Order::Commit`] takes the functional side to instruction `n`, whatever it had
/// done from there on, and opens a new epoch: entries made before it are of no use any more.
#[derive(Clone, Copy, Debug, PartialEq, Eq)]
pub enum Order {
    /// Instruction `n` stands at `addr`: a wrong path is entered or left.
    Set { n: u64, addr: u32 },
    /// All instructions below `n` are committed and are never undone; nothing moves.
    Commit { n: u64 },
    /// The timer interrupt is taken before instruction `n`; that is committed.
    Interrupt { n: u64 },
    /// Instruction `n`, which reads the time, is given the time `v`, in cycles.
    Time { n: u64, v: u64 },
    /// The run has ended before instruction `n`.
    Stop { n: u64 },
    /// Fetch sees memory as it stands before instruction `n`, behind a FENCE.I; that is committed.
    Sync { n: u64 },
}

impl Order {
    ghost use Rattle.rollback_cmds.specs.Order.{opens_epoch_of};

    /// Whether the order opens a new epoch: each but [`Order::Commit`] does.
    pub fn opens_epoch(&self) -> bool
        ensures all_but_commit { result ≡ opens_epoch_of self.now }
    {
        !matches!(self, Order::Commit { .. })
    }
}

/// Which turn comes next.
#[derive(Clone, Copy, Debug, PartialEq, Eq)]
pub enum At {
    /// The timer interrupt.
    Interrupting,
    /// Write, whose instruction commits.
    Writing,
    /// Memory, whose instruction goes on to Write.
    Accessing,
    /// Execute, whose instruction goes on to Memory.
    Executing,
    /// Issue, where the instruction in Decode goes on to Execute.
    Issuing,
    /// The try of fetch.
    Trying,
    /// The end of the cycle.
    Ending,
    /// The last order.
    Stopping,
    /// The run is over.
    Halted,
}

/// Which turn of the run comes next: the phases of a cycle in their order, and its end.
#[derive(Clone, Copy, Debug, PartialEq, Eq)]
pub enum At {
    /// The timer interrupt.
    Interrupting,
    Committing,
    Completing,
    Issuing,
    /// A try of fetch, with so many more allowed behind it in this cycle.
    Trying(u32),
    /// The end of the cycle.
    Ending,
    /// The last order.
    Stopping,
    /// The run is over.
    Halted,
}

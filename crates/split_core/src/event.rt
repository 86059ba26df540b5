/// An event of the split machine. One that can't happen changes nothing.
#[derive(Clone, Copy, Debug, PartialEq, Eq)]
pub enum Event {
    /// The functional side computes its next entry.
    Compute,
    /// The computed entry goes to the end of the entries under way.
    Push,
    /// The functional side obeys the oldest order under way.
    Obey,
    /// The timing side makes a step.
    Tick,
    /// The timing side takes the oldest entry under way.
    Take,
    /// The order in hand goes to the end of the orders under way.
    Send,
}

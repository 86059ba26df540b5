/// Why fetch ended in a cycle.
#[derive(Clone, Copy, Debug, PartialEq, Eq)]
pub enum FetchEnd {
    /// As many instructions were fetched as a cycle may fetch.
    Width,
    /// The last one fetched is predicted to go elsewhere than on.
    Taken,
    /// The window was full; in order, Decode was taken.
    Window,
    /// No station was free.
    Stations,
    /// The instruction cache missed.
    Icache,
    /// The run ended before fetch.
    Ended,
}

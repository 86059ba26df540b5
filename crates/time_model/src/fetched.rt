use timing_core::Orders;

/// What a try of fetch made.
#[derive(Clone, Copy, Debug, PartialEq, Eq)]
pub struct Fetched {
    /// The orders that it made.
    pub orders: Orders,
    /// The instruction was appended, so its entry is spent; else its cache miss is waited for.
    pub appended: bool,
}

/// A store in the window.
#[derive(Clone, Copy, Debug, PartialEq, Eq)]
pub struct Queued {
    /// The instruction's number along its path.
    pub number: u64,
    /// Whether the store is done, so that younger loads need not wait for it.
    pub is_done: bool,
}

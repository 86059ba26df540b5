/// What the phases count. They add to a count without a test: as a phase of a run begins, each is
/// below 2^63.
#[derive(Clone, Copy, Debug, PartialEq, Eq)]
pub struct Counts {
    /// Instructions committed with a trap.
    pub exceptions: u64,
    /// Timer interrupts taken.
    pub interrupts: u64,
    /// Time reads that were sent back to fetch to be given a time.
    pub replays: u64,
    /// Slots appended to the window, on wrong paths too.
    pub fetched: u64,
    /// Slots removed from the window by a flush.
    pub squashed: u64,
    /// Branches and jumps that retired.
    pub branches: u64,
    /// Slots whose next address wasn't the predicted one, found at their completion.
    pub mispredicted: u64,
}

impl Counts {
    ghost use Rattle.std.specs.Prelude.{◌≡◌};
    ghost use Rattle.timing_side.specs.Timing.{timing_start};
    ghost use Rattle.timing_core.specs.Counts.{counts_in};

    /// Nothing was counted.
    #[tactic(auto, unfolding(timing_side::specs::Timing::timing_start))]
    pub(crate) fn new() -> Counts
        ensures start { counts_in result ≡ timing_start.counts }
    {
        Counts {
            exceptions: 0,
            interrupts: 0,
            replays: 0,
            fetched: 0,
            squashed: 0,
            branches: 0,
            mispredicted: 0,
        }
    }
}

//! What is seen of the timing side as a cycle begins.
use crate::counts::Counts;
use crate::state::TimingCore;

impl TimingCore {
    ghost use Rattle.std.specs.Prelude.{◌≡◌};

    /// How many instructions retired.
    pub fn retired(&self) -> u64
        ensures retired { result ≡ self.now.retired }
    {
        self.retired
    }

    /// What the phases counted.
    pub fn counts(&self) -> Counts
        ensures counts { result ≡ self.now.counts }
    {
        self.counts
    }

    /// The cycle from which on fetch goes on after a miss.
    pub fn resume(&self) -> u64
        ensures resume { result ≡ self.now.resume }
    {
        self.resume
    }

    /// Whether the miss of the instruction to fetch next was counted.
    pub fn paid(&self) -> bool
        ensures paid { result ≡ self.now.paid }
    {
        self.paid
    }
}

ghost use Rattle.std.specs.Prelude.{◌≡◌, ◌-◌, ◌||◌, if◌then◌else◌, is_some};

use crate::charge::Charge;

/// What a cycle did. The instructions that it speaks of stand in the window before it, those that
/// left first, then those that stayed, then those that were squashed; and in the window after it,
/// those that stayed first, then those that were appended.
#[derive(Clone, Copy, Debug, PartialEq, Eq)]
pub(crate) struct Facts {
    pub cycle: u64,
    /// How many left before the cycle: the number of the oldest instruction.
    pub number: u64,
    /// How many were appended before it.
    pub fetched: u64,
    /// How many instructions the window had before it.
    pub before: usize,
    /// How many left, stayed and were appended.
    pub left: usize,
    pub kept: usize,
    pub appended: usize,
    /// Whether the last that left trapped.
    pub trapped: bool,
    /// The place of the mispredicted one among those that stayed and were squashed.
    pub mispredicted: Option<usize>,
    pub interrupted: bool,
    pub replayed: bool,
    /// What flushed, and what that is charged to.
    pub flush: Option<Charge>,
    /// The address at which fetch stands or has begun.
    pub fetch_at: u32,
    /// The first one appended was waited for.
    pub paid: bool,
    /// The address at which a miss began.
    pub missed: Option<u32>,
    /// Fetch waited for a miss that began before.
    pub waited: bool,
    /// The run ended before fetch.
    pub stopped: bool,
}

impl Facts {
    /// How many of those that left retired.
    pub(crate) fn retired(&self) -> usize
        ensures retired { result ≡ (if self.now.trapped then self.now.left - 1 else self.now.left) }
    {
        if self.trapped {
            self.left.saturating_sub(1)
        } else {
            self.left
        }
    }

    /// Whether fetch waited for a miss, which began in the cycle or before it.
    pub(crate) fn has_waited(&self) -> bool
        ensures waited { result ≡ (is_some self.now.missed || self.now.waited) }
    {
        self.missed.is_some() || self.waited
    }
}

//! Some of 64 places that follow one another.
ghost use Rattle.std.specs.Prelude.{◌≡◌, ◌<◌, ◌≤◌, ◌==◌, ◌&&◌, not, ℕ, false};
ghost use Rattle.std.specs.Prelude.{IsTrue, IfSome, IfNone};
ghost use Rattle.reservation_stations.specs.PlaceSet.{has};

/// A set of places, all among the 64 from one on.
#[derive(Clone, Copy, Debug, PartialEq, Eq)]
pub struct PlaceSet {
    /// The first of the 64 places.
    pub(crate) from: u8,
    /// Bit `k` tells whether place `from + k` is in the set.
    pub(crate) word: u64,
}

impl PlaceSet {
    /// Takes the first place out of the set, and gives None where there is none.
    #[inline(always)]
    pub fn take_first(&mut self) -> Option<u32>
        ensures found { IfSome result (λ place. IsTrue (has self.old place)) }
        ensures first { IfSome result (λ place. (k : ℕ) → k < place → has self.old k ≡ false) }
        ensures removed { IfSome result (λ place. (k : ℕ)
            → has self.new k ≡ (has self.old k && not (k == place))) }
        ensures none { IfNone result ((k : ℕ) → has self.old k ≡ false) }
        ensures kept { IfNone result (self.new ≡ self.old) }
    {
        if self.word == 0 {
            return None;
        }
        let bit = self.word.trailing_zeros();
        self.word &= !(1 << bit);
        Some(u32::from(self.from) + bit)
    }

    /// Whether the first of the 64 places is in the set.
    #[inline(always)]
    pub fn has_first(&self) -> bool
        ensures first { result ≡ has self.now self.now.from }
    {
        self.word % 2 == 1
    }

    /// The first place of the set from one on, and None where there is none.
    pub fn first_from(&self, place: u32) -> Option<u32>
        ensures behind { IfSome result (λ found. place ≤ found) }
        ensures found { IfSome result (λ found. IsTrue (has self.now found)) }
        ensures first { IfSome result (λ found. (k : ℕ) → place ≤ k → k < found
            → has self.now k ≡ false) }
        ensures none { IfNone result ((k : ℕ) → place ≤ k → has self.now k ≡ false) }
    {
        let skipped = place.saturating_sub(u32::from(self.from));
        if skipped >= 64 {
            return None;
        }
        let rest = self.word >> skipped;
        if rest == 0 {
            return None;
        }
        Some(u32::from(self.from) + skipped + rest.trailing_zeros())
    }
}

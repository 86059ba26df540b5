ghost use Rattle.std.specs.Prelude.{◌≡◌, ℕ, ◌+◌, ◌*◌, ◌%◌, ◌^◌, ◌<◌, ◌≤◌, IsTrue};
ghost use Rattle.std.specs.Prelude.{if◌then◌else◌};
ghost use Rattle.std.specs.Int.{is_power_of_two};
ghost use Rattle.branch_predictor.specs.Predictor.{moved as moved_by};
ghost use Rattle.branch_predictor.specs.PredictorStandsFor.{bits_kept};

use crate::params::PredKind;

/// The place of a number in a table of a power of two of entries, one more than the mask.
#[tactic(auto, using(crate::proofs::Masks::and_mask, crate::proofs::Masks::and_within))]
pub fn place_in(mask: u32, number: u32) -> usize
    requires power { IsTrue (is_power_of_two (mask + 1)) }
    ensures remainder { result ≡ number % (mask + 1) }
    ensures within { result ≤ mask }
{
    (number & mask) as usize
}

/// The mask of the outcomes that select counters together with an address.
#[tactic(auto, using(crate::proofs::History::power_within))]
pub fn history_mask(kind: PredKind, bits: u32) -> u32
    requires few { bits ≤ 16 }
    ensures power { result + 1 ≡ 2 ^ bits_kept kind bits }
    ensures limit { result < 65536 }
{
    match kind {
        PredKind::Static | PredKind::Bimodal => 0,
        PredKind::Gshare => (1 << bits) - 1,
    }
}

/// A two-bit counter after one more outcome.
pub fn moved(taken: bool, counter: u8) -> u8
    ensures { result ≡ moved_by taken counter }
{
    if taken {
        counter.min(2) + 1
    } else {
        counter.saturating_sub(1)
    }
}

/// A history of the outcomes that a mask leaves, after one more outcome.
#[tactic(auto, using(crate::proofs::Masks::and_power_mask, crate::proofs::Masks::and_within))]
pub fn longer(history: u32, mask: u32, taken: bool) -> u32
    requires limit { mask < 65536 }
    requires kept { history ≤ mask }
    ensures newest { (bits : ℕ) → mask + 1 ≡ 2 ^ bits →
        result ≡ (history * 2 + (if taken then 1 else 0)) % 2 ^ bits }
    ensures within { result ≤ mask }
{
    (history * 2 + u32::from(taken)) & mask
}

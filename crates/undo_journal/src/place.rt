ghost use Rattle.std.specs.Prelude.{◌≡◌, ◌+◌, ◌%◌, ◌<◌, ◌^◌};
ghost use Rattle.undo_journal.specs.Ring.{IsMask};

/// The place so many places behind another one, of as many as the mask tells. A mask takes one of
/// the host's instructions, where a division takes many and a test of the end some.
#[inline(always)]
pub fn behind(place: u32, count: u32, mask: u32) -> u32
    requires mask { IsMask mask }
    requires bounded { place + count < 2 ^ 32 }
    ensures place { result ≡ (place + count) % (mask + 1) }
{
    (place + count) & mask
}

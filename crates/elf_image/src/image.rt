ghost use Rattle.std.specs.Prelude.{◌≡◌, ◌↔◌, IsTrue};
ghost use Rattle.std.specs.List.{list_all};
ghost use Rattle.elf_image.specs.Sound.{is_placed, is_before, are_ordered};

use crate::segment::{MAX_SEGMENTS, Segment, Segments};
use fsim_base::RamRange;

/// Whether a segment comes before some others.
fn is_before_all(segment: &Segment, later: &[Segment]) -> bool
    ensures { result ≡ list_all (is_before segment.now) later.now }
{
    later.iter().all(|other| segment.is_before(other))
}

/// Whether each segment comes before all later ones.
#[tactic(auto, using(crate::proofs::Ordered::ordered_steps))]
fn are_ordered(segments: &[Segment]) -> bool
    ensures { result ≡ are_ordered segments.now }
{
    for i in 0..segments.len() {
        if !is_before_all(&segments[i], &segments[i + 1..]) {
            return false;
        }
    }
    true
}

/// Whether each segment is placed inside RAM.
fn are_placed(segments: &[Segment], ram: RamRange) -> bool
    ensures { result ≡ list_all (is_placed ram) segments.now }
{
    segments.iter().all(|segment| segment.is_placed(ram))
}

/// A program as it is loaded: where it starts, and what it puts into RAM.
#[derive(Debug, Drop)]
pub struct Image {
    /// The address of the first instruction.
    pub entry: u32,
    pub segments: Segments,
}

impl Image {
    ghost use Rattle.elf_image.specs.Sound.{IsSound, is_sound};

    /// Whether the image can be loaded into this RAM: at most 64 segments with rising indexes below
    /// 64, each with a size above 0, at most that many bytes and inside RAM, and no two with a byte
    /// in common.
    #[tactic(auto, unfolding(crate::specs::Sound::is_sound))]
    pub fn sound(&self, ram: RamRange) -> bool
        ensures sound { IsTrue result ↔ IsSound self.now ram }
        ensures test { result ≡ is_sound self.now ram }
    {
        let segments = self.segments.as_slice();
        segments.len() <= MAX_SEGMENTS as usize
            && are_placed(segments, ram)
            && are_ordered(segments)
    }
}

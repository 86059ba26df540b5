ghost use Rattle.std.specs.Prelude.{◌≡◌, ◌+◌, ◌%◌, ◌<◌, ◌≤◌};
ghost use Rattle.gen_image.specs.Draws.{draw};

use rand_core::utils::NextWord;
use rand_pcg::Lcg64Xsh32;

/// The generator's next word.
#[tactic(auto, unfolding(crate::specs::Draws::draw))]
pub fn draw(rng: &mut Lcg64Xsh32) -> u32
    ensures word { result ≡ (draw rng.old).0 }
    ensures next { rng.new ≡ (draw rng.old).1 }
{
    rng.next_word()
}

/// The number of a register from x5 to x12.
pub fn register(rng: &mut Lcg64Xsh32) -> u8
    ensures number { result ≡ 5 + (draw rng.old).0 % 8 }
    ensures next { rng.new ≡ (draw rng.old).1 }
    ensures low { 5 ≤ result }
    ensures high { result ≤ 12 }
{
    5 + (draw(rng) % 8) as u8
}

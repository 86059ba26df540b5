ghost use Rattle.std.specs.Prelude.{◌≡◌, ◌%◌, ◌^◌, ◌<◌, ◌≤◌, IsTrue};
ghost use Rattle.std.specs.Int.{is_power_of_two};

/// The place of a number in a table of so many entries.
#[tactic(auto, using(fsim_base::proofs::Powers::and_power, fsim_base::proofs::Powers::power_positive))]
pub fn place_in(entries: u32, number: u32) -> u32
    requires power { IsTrue (is_power_of_two entries) }
    ensures remainder { result ≡ number % entries }
    ensures within { result < entries }
{
    number & (entries - 1)
}

/// The exponent of a power of two up to 256.
#[tactic(auto, using(crate::proofs::Powers::log_power, fsim_base::proofs::Powers::power_positive))]
pub fn exponent(power: u32) -> u32
    requires power { IsTrue (is_power_of_two power) }
    requires few { power ≤ 256 }
    ensures power { power ≡ 2 ^ result }
    ensures most { result ≤ 8 }
{
    power.ilog2()
}

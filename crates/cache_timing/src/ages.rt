//! The ages of a set's ways, four bits each in one word.
ghost use Rattle.std.specs.Prelude.{◌≡◌, ℕ, ◌+◌, ◌-◌, ◌<◌, ◌≤◌};
ghost use Rattle.cache_timing.specs.Ages.{age_of, age_after};

/// Each way's age is its own number.
pub const START: u64 = 0xfedc_ba98_7654_3210;

/// The age of a way: 0 is that of the way used last.
pub fn age_of(ages: u64, way: u32) -> u64
    requires way { way < 16 }
    ensures age { result ≡ age_of ages way }
    ensures within { result < 16 }
{
    ages >> (4 * way) & 15
}

/// The way used longest ago, where the ages are an order of so many ways.
pub fn oldest(ages: u64, ways: u32) -> u32
    requires some { 0 < ways }
    requires few { ways ≤ 16 }
    ensures within { result < ways }
    ensures oldest { (way : ℕ) → way < ways → age_of ages way ≡ ways - 1
        → age_of ages result ≡ ways - 1 }
{
    for way in 0..ways {
        if age_of(ages, way) == u64::from(ways - 1) {
            return way;
        }
    }
    0
}

/// The age of a way after the way `used` was used.
fn age_after(ages: u64, used: u32, way: u32) -> u64
    requires used_within { used < 16 }
    requires way_within { way < 16 }
    ensures age { result ≡ age_after (age_of ages) used way }
    ensures within { result < 16 }
{
    let age = age_of(ages, way);
    if way == used {
        0
    } else if age < age_of(ages, used) {
        age + 1
    } else {
        age
    }
}

/// The ages after a way was used: it is the first now, and those before it come one later.
pub fn after_use(ages: u64, ways: u32, used: u32) -> u64
    requires within { used < ways }
    requires few { ways ≤ 16 }
    ensures { (way : ℕ) → way < ways → age_of result way ≡ age_after (age_of ages) used way }
{
    if age_of(ages, used) == 0 {
        return ages;
    }
    let mut aged = 0;
    for way in (0..ways).rev() {
        aged = aged * 16 + age_after(ages, used, way);
    }
    aged
}

//! Tests of a number against what its key wants.
ghost use Rattle.std.specs.Prelude.{◌≡◌, ◌%◌, ◌==◌, ◌&&◌, if◌then◌else◌, pos, Some, None};
ghost use Rattle.machine_file.specs.File.{is_in_range, is_power, lies_between, natural};
ghost use Rattle.machine_file.specs.Code.{wanted_of};

use crate::table::Wanted;

/// The size of a page of RAM.
const PAGE_SIZE: u32 = 4096;

/// The number, where it is in a range.
fn between(low: u32, high: u32, number: i64) -> Option<u32>
    ensures { result ≡ (if lies_between low high number then Some (natural number) else None) }
{
    match u32::try_from(number) {
        Ok(n) if low <= n && n <= high => Some(n),
        _ => None,
    }
}

/// The same for a multiple of 4,096.
fn pages_between(low: u32, high: u32, number: i64) -> Option<u32>
    ensures { result ≡ (if lies_between low high number && natural number % 4096 == 0
        then Some (natural number) else None) }
{
    match between(low, high, number) {
        Some(n) if n % PAGE_SIZE == 0 => Some(n),
        _ => None,
    }
}

/// The number, where it is in a key's range and RAM begins at `base`.
pub(crate) fn in_range(base: u64, wanted: &Wanted, number: i64) -> Option<u32>
    ensures { result ≡ (if is_in_range base (wanted_of wanted.now) number then Some (natural number)
        else None) }
{
    match *wanted {
        Wanted::Number { low, high } | Wanted::Power { low, high } => between(low, high, number),
        Wanted::Pages { low, high } => pages_between(low, high, number),
        Wanted::PagesOfRam { low, high } => match pages_between(low, high, number) {
            Some(n) if base.saturating_add(u64::from(n)) <= 1 << 32 => Some(n),
            _ => None,
        },
        Wanted::TextOfTwo(_, _) => between(0, 1, number),
        Wanted::TextOfThree(_, _, _) => between(0, 2, number),
    }
}

/// Whether a number is a power of two, or 0, where one is asked.
pub(crate) fn is_power(wanted: &Wanted, number: u32) -> bool
    ensures { result ≡ is_power (wanted_of wanted.now) (pos number) }
{
    match *wanted {
        Wanted::Power { .. } => number == 0 || number.is_power_of_two(),
        _ => true,
    }
}

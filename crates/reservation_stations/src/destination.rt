//! The register that an instruction writes.
ghost use Rattle.std.specs.Prelude.{◌≡◌, ◌≢◌, ◌≤◌, None, is_some};
ghost use Rattle.reservation_stations.specs.Numbers.{number_of};

use crate::source::REGISTERS;
use std::marker::Model;

/// The number of no destination: its place in the table of producers is the last one, which no
/// source reads.
const NO_DESTINATION: u16 = REGISTERS + 1;

/// The number of the register that an instruction writes, or none, in one number: its place in the
/// table of producers, which is written without a test. None has a place of its own, which no
/// source reads.
#[derive(Clone, Copy, Debug, PartialEq, Eq)]
pub struct Destination {
    /// The register, or `NO_DESTINATION`.
    number: u16,
}

impl Model for Destination {
    ghost use Rattle.std.specs.Prelude.{ℕ, ◌≢◌, ◌≤◌, Option};
    ghost use Rattle.reservation_stations.specs.Numbers.{in_number, number_of, skipping_256};

    ghost Value = { Option ℕ };

    ghost view = { λ d. in_number d.number };

    ghost inverse = { λ o. record { number = number_of 257 o } };

    ghost invariant = { λ d. (d.number ≤ 257) × (d.number ≢ 256) };

    ghost inverse_ok = { λ d h i. record { number = skipping_256 d.number h i } };
}

impl Destination {
    /// No register.
    #[inline(always)]
    pub(crate) fn none() -> Destination
        ensures none { result ≡ None }
    {
        Destination {
            number: NO_DESTINATION,
        }
    }

    /// The register of this number, if one is given.
    #[inline(always)]
    pub fn of(register: Option<u8>) -> Destination
        ensures register { result ≡ register }
    {
        match register {
            Some(register) => Destination {
                number: u16::from(register),
            },
            None => Destination::none(),
        }
    }

    /// Its number, where there is one.
    #[inline(always)]
    pub fn register(self) -> Option<u8>
        ensures register { result ≡ self }
    {
        if self.number < REGISTERS {
            Some(self.number as u8)
        } else {
            None
        }
    }

    /// Whether there is a register.
    #[inline(always)]
    pub(crate) fn is_some(self) -> bool
        ensures some { result ≡ is_some self }
    {
        self.number < REGISTERS
    }

    /// Its place in the table of producers.
    #[inline(always)]
    pub(crate) fn place(self) -> usize
        ensures place { result ≡ number_of 257 self }
        ensures within { result ≤ 257 }
        ensures apart { result ≢ 256 }
    {
        usize::from(self.number)
    }
}

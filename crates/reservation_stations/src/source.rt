//! A register that an instruction reads.
ghost use Rattle.std.specs.Prelude.{◌≡◌, ◌<◌, ◌≤◌, None, IfSome};
ghost use Rattle.reservation_stations.specs.Numbers.{number_of};

use std::marker::Model;

/// How many numbers of registers there are.
pub(crate) const REGISTERS: u16 = 256;

/// The number of no source: its place in the table of producers is the one behind those of the
/// registers, which no producer ever takes.
const NO_SOURCE: u16 = REGISTERS;

/// The number of a register that an instruction reads, or none, in one number: its place in the
/// table of producers, which is read without a test.
#[derive(Clone, Copy, Debug, PartialEq, Eq)]
pub struct Source {
    /// The register, or `NO_SOURCE`.
    number: u16,
}

impl Model for Source {
    ghost use Rattle.std.specs.Prelude.{ℕ, ◌≤◌, Option};
    ghost use Rattle.reservation_stations.specs.Numbers.{in_number, number_of, up_to_256};

    ghost Value = { Option ℕ };

    ghost view = { λ s. in_number s.number };

    ghost inverse = { λ o. record { number = number_of 256 o } };

    ghost invariant = { λ s. s.number ≤ 256 };

    ghost inverse_ok = { λ s h i. record { number = up_to_256 s.number h i } };
}

impl Source {
    /// No register.
    #[inline(always)]
    pub(crate) fn none() -> Source
        ensures none { result ≡ None }
    {
        Source { number: NO_SOURCE }
    }

    /// The register of this number, if one is given.
    #[inline(always)]
    pub fn of(register: Option<u8>) -> Source
        ensures register { result ≡ register }
    {
        match register {
            Some(register) => Source {
                number: u16::from(register),
            },
            None => Source::none(),
        }
    }

    /// Its number, where there is one.
    #[inline(always)]
    pub fn register(self) -> Option<u8>
        ensures register { result ≡ self }
    {
        if self.number < REGISTERS {
            Some(self.number as u8)
        } else {
            None
        }
    }

    /// Its place in the table of producers.
    #[inline(always)]
    pub(crate) fn place(self) -> usize
        ensures place { result ≡ number_of 256 self }
        ensures within { result ≤ 256 }
        ensures register { IfSome self (λ register. register < 256) }
    {
        usize::from(self.number)
    }
}

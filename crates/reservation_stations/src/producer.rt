//! The index of a register's producer.
ghost use Rattle.std.specs.Prelude.{◌≡◌, ◌<◌, IsTrue, Some, None, is_some};
ghost use Rattle.reservation_stations.specs.AreSets.{are_two};
ghost use Rattle.reservation_stations.specs.Changes.{without};

use std::marker::Model;

/// The number of no producer, which is above every index.
const NO_PRODUCER: u32 = 256;

/// The index of a register's producer, or none, in one number: so it takes one register of the
/// host, and no flag goes with it.
#[derive(Clone, Copy, Debug)]
pub struct Producer {
    /// The index, or `NO_PRODUCER`.
    number: u32,
}

impl Model for Producer {
    ghost use Rattle.std.specs.Prelude.{ℕ, ◌≤◌, Option};
    ghost use Rattle.reservation_stations.specs.Numbers.{in_number, number_of, up_to_256};

    ghost Value = { Option ℕ };

    ghost view = { λ p. in_number p.number };

    ghost inverse = { λ o. record { number = number_of 256 o } };

    ghost invariant = { λ p. p.number ≤ 256 };

    ghost inverse_ok = { λ p h i. record { number = up_to_256 p.number h i } };
}

impl Producer {
    /// No producer.
    #[inline(always)]
    pub fn none() -> Producer
        ensures none { result ≡ None }
    {
        Producer {
            number: NO_PRODUCER,
        }
    }

    /// The producer of this index.
    #[inline(always)]
    pub fn of(index: u32) -> Producer
        requires within { index < 256 }
        ensures some { result ≡ Some index }
    {
        Producer { number: index }
    }

    /// Whether there is one.
    #[inline(always)]
    pub fn is_some(self) -> bool
        ensures some { result ≡ is_some self }
    {
        self.number < NO_PRODUCER
    }

    /// Its index.
    #[inline(always)]
    pub fn index(self) -> u32
        requires some { IsTrue (is_some self) }
        ensures index { self ≡ Some result }
    {
        self.number
    }

    /// None where it is this index, and else itself.
    #[inline(always)]
    pub fn without(self, index: u32) -> Producer
        ensures without { result ≡ without index self }
    {
        if self.number == index {
            Producer::none()
        } else {
            self
        }
    }

    /// Whether both are there, and differ.
    #[inline(always)]
    pub fn are_two(self, other: Producer) -> bool
        ensures two { result ≡ are_two self other }
    {
        self.is_some() && other.is_some() && self.number != other.number
    }
}

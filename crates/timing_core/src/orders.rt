ghost use Rattle.std.specs.Prelude.{◌≡◌};

use rollback_cmds::Order;

/// The orders that a phase makes: none, one or two. There is a second only where there is a first,
/// which is told before it.
#[derive(Clone, Copy, Debug, PartialEq, Eq)]
pub struct Orders {
    /// The one that is told first.
    pub first: Option<Order>,
    /// The one that is told behind it.
    pub second: Option<Order>,
}

impl Orders {
    ghost use Rattle.std.specs.Prelude.{[], ◌∷◌};
    ghost use Rattle.timing_core.specs.Orders.{orders_in, and_then};

    /// No order.
    pub fn none() -> Orders
        ensures none { orders_in result ≡ [] }
    {
        Orders {
            first: None,
            second: None,
        }
    }

    /// One order.
    pub fn one(order: Order) -> Orders
        ensures one { orders_in result ≡ order ∷ [] }
    {
        Orders {
            first: Some(order),
            second: None,
        }
    }

    /// One order after the other, as far as they are there.
    pub(crate) fn in_turn(first: Option<Order>, second: Option<Order>) -> Orders
        ensures orders { orders_in result ≡ and_then second (and_then first []) }
    {
        match first {
            Some(_) => Orders { first, second },
            None => Orders {
                first: second,
                second: None,
            },
        }
    }
}

ghost use Rattle.std.specs.Prelude.{◌≡◌};

use crate::charge::Charge;
use crate::shown::Shown;
use insight_model::CycleCause;

/// An instruction as it was seen last, and what is remembered of it.
#[derive(Clone, Copy, Debug)]
pub(crate) struct Mark {
    pub shown: Shown,
    /// How many cycles its miss adds, from its access on; 0 before it, and of all else.
    pub miss: u64,
    /// Why it wasn't fetched earlier.
    pub origin: Charge,
}

impl Mark {
    /// An instruction that is seen for the first time.
    pub(crate) fn new(shown: Shown) -> Mark
        ensures shown { result.shown ≡ shown }
        ensures miss { result.miss ≡ 0 }
    {
        Mark {
            shown,
            miss: 0,
            origin: Charge::new(CycleCause::Start, shown.addr),
        }
    }
}

ghost use Rattle.std.specs.Prelude.{◌≡◌};
ghost use Rattle.insight_model.specs.Cause.{cause_place};
ghost use Rattle.fsim_base.specs.declared.access.Access.{Access};
ghost use Rattle.insight_model.specs.Hole.{class_cause, own_cause};
ghost use Rattle.insight_model.specs.Sight.{is_device_load_in};
ghost use Rattle.cycle_watch.specs.Shown.{shown_in};

use crate::shown::Shown;
use fsim_base::Class;
use insight_model::CycleCause;

/// What a cycle is charged to.
#[derive(Clone, Copy, Debug, PartialEq, Eq)]
pub struct Charge {
    pub cause: CycleCause,
    pub addr: u32,
}

impl Charge {
    /// A cause and an address.
    pub(crate) fn new(cause: CycleCause, addr: u32) -> Charge
        ensures cause { result.cause ≡ cause }
        ensures addr { result.addr ≡ addr }
    {
        Charge { cause, addr }
    }
}

/// The place of a cause among all, in the order in which they are written.
pub(crate) fn cause_place(cause: CycleCause) -> usize
    ensures place { result ≡ cause_place cause }
{
    match cause {
        CycleCause::Commit => 0,
        CycleCause::Alu => 1,
        CycleCause::Mul => 2,
        CycleCause::Div => 3,
        CycleCause::Load => 4,
        CycleCause::Store => 5,
        CycleCause::Device => 6,
        CycleCause::Serial => 7,
        CycleCause::Operand => 8,
        CycleCause::Dcache => 9,
        CycleCause::Icache => 10,
        CycleCause::Window => 11,
        CycleCause::Stations => 12,
        CycleCause::Mispredict => 13,
        CycleCause::Trap => 14,
        CycleCause::Interrupt => 15,
        CycleCause::Replay => 16,
        CycleCause::Fence => 17,
        CycleCause::Start => 18,
    }
}

/// The cause of an instruction's class; a load of a device has its own.
pub(crate) fn class_cause(class: Class, is_device_load: bool) -> CycleCause
    ensures cause { (made : Access) → is_device_load ≡ is_device_load_in made
        → result ≡ class_cause class made }
{
    match class {
        Class::Alu => CycleCause::Alu,
        Class::Mul => CycleCause::Mul,
        Class::Div => CycleCause::Div,
        Class::Load => {
            if is_device_load {
                CycleCause::Device
            } else {
                CycleCause::Load
            }
        }
        Class::Store => CycleCause::Store,
        Class::Serial => CycleCause::Serial,
    }
}

/// The cause of an instruction, by what is seen of it.
pub(crate) fn own_cause(shown: &Shown) -> CycleCause
    ensures own { result ≡ own_cause (shown_in shown.now) }
{
    class_cause(shown.class(), shown.is_device_load())
}

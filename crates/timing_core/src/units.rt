ghost use Rattle.std.specs.Prelude.{◌≡◌};
ghost use Rattle.mono_model.specs.Issue.{latency_of};

use fsim_base::Class;
use mono_model::Params;

/// How many slots of each unit kind have begun in this cycle.
#[derive(Clone, Copy)]
pub(crate) struct Used {
    /// The ALU has the serial instructions too.
    pub(crate) alu: u32,
    pub(crate) mul: u32,
    pub(crate) div: u32,
    /// Loads and stores.
    pub(crate) mem: u32,
}

impl Used {
    ghost use Rattle.std.specs.Prelude.{◌+◌, ◌-◌, ◌<◌, ◌^◌, true};
    ghost use Rattle.mono_model.specs.Issue.{none_used, has_unit, with_used};
    ghost use Rattle.fsim_base.specs.declared.instruction.Class.TheVariants.{Alu};
    ghost use Rattle.timing_core.specs.Units.{used_in, kind_count};

    /// None has begun.
    pub(crate) fn none() -> Used
        ensures none { used_in result ≡ none_used }
    {
        Used {
            alu: 0,
            mul: 0,
            div: 0,
            mem: 0,
        }
    }

    /// Whether a unit is free for a class, where so many divisions were executing when the phase
    /// began.
    #[inline(always)]
    pub(crate) fn has_unit(self, params: &Params, busy: u32, class: Class) -> bool
        ensures unit { result ≡ has_unit params.now (busy + self.div) (used_in self) class }
        ensures countable { result ≡ true → kind_count class self < 2 ^ 32 - 1 }
    {
        match class {
            Class::Alu | Class::Serial => self.alu < params.alu_count,
            Class::Mul => self.mul < params.mul_count,
            Class::Div => busy.saturating_add(self.div) < params.div_count,
            Class::Load | Class::Store => self.mem < params.mem_count,
        }
    }

    /// One more in the ALU.
    #[inline(always)]
    pub(crate) fn with_alu(self) -> Used
        requires countable { self.alu < 2 ^ 32 - 1 }
        ensures counted { used_in result ≡ with_used Alu (used_in self) }
    {
        Used {
            alu: self.alu + 1,
            ..self
        }
    }

    /// One more of the class's kind.
    #[inline(always)]
    pub(crate) fn with(self, class: Class) -> Used
        requires countable { kind_count class self < 2 ^ 32 - 1 }
        ensures counted { used_in result ≡ with_used class (used_in self) }
    {
        match class {
            Class::Alu | Class::Serial => Used {
                alu: self.alu + 1,
                ..self
            },
            Class::Mul => Used {
                mul: self.mul + 1,
                ..self
            },
            Class::Div => Used {
                div: self.div + 1,
                ..self
            },
            Class::Load | Class::Store => Used {
                mem: self.mem + 1,
                ..self
            },
        }
    }
}

/// How many cycles the class's unit takes.
#[inline(always)]
pub fn latency_of(params: &Params, class: Class) -> u32
    ensures latency { result ≡ latency_of params.now class }
{
    match class {
        Class::Alu | Class::Serial => params.alu_latency,
        Class::Mul => params.mul_latency,
        Class::Div => params.div_latency,
        Class::Load | Class::Store => params.mem_latency,
    }
}

ghost use Rattle.std.specs.Prelude.{◌≡◌};

/// Why an instruction traps: the exception codes of `mcause` that this hart raises
/// (RISC-V privileged manual, table "Machine cause register values after trap").
#[derive(Clone, Copy, Debug, PartialEq, Eq)]
pub enum Cause {
    InstructionMisaligned,
    InstructionAccess,
    IllegalInstruction,
    Breakpoint,
    LoadMisaligned,
    LoadAccess,
    StoreMisaligned,
    StoreAccess,
    EnvironmentCall,
}

impl Cause {
    ghost use Rattle.fsim_base.specs.Cause.{cause_number};

    /// The exception code, as `mcause` holds it.
    pub fn number(&self) -> u32
        ensures code { result ≡ cause_number self.now }
    {
        match self {
            Cause::InstructionMisaligned => 0,
            Cause::InstructionAccess => 1,
            Cause::IllegalInstruction => 2,
            Cause::Breakpoint => 3,
            Cause::LoadMisaligned => 4,
            Cause::LoadAccess => 5,
            Cause::StoreMisaligned => 6,
            Cause::StoreAccess => 7,
            Cause::EnvironmentCall => 11,
        }
    }
}

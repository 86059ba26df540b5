//! What is seen where a debugger stands.
use crate::debugger::Debugger;
use device_bus::Device;
use func_model::{Ahead, Arch};

impl<D: Device> Debugger<D> {
    ghost use Rattle.std.specs.Prelude.{◌≡◌, ◌≤◌, ◌-◌};
    ghost use Rattle.mono_model.specs.declared.setup.Setup.{Setup as RunSetup};
    ghost use Rattle.func_model.specs.Position.{LiesAhead, byte_at, csr_at, found, next_address};
    ghost use Rattle.func_model.specs.Side.{registers_at};
    ghost use Rattle.func_model.specs.Trail.{TrailStandsFor};

    /// How many steps can be taken back.
    pub fn steps_back(&self) -> u64
        ensures count { (s : RunSetup) → TrailStandsFor s self.now
            → result ≡ self.now.at - self.now.floor }
        ensures most { result ≤ self.now.steps.capacity }
    {
        self.trail.steps_back()
    }

    /// The address of the next instruction to be executed: that of the handler, where a timer
    /// interrupt comes before it.
    pub fn next_address(&self) -> u32
        ensures address { (s : RunSetup) → TrailStandsFor s self.now
            → result ≡ next_address s self.now.at }
    {
        self.trail.next_address()
    }

    /// The registers that the next instruction finds: a pending timer interrupt is taken first.
    pub fn found(&self) -> Arch
        ensures found { (s : RunSetup) → TrailStandsFor s self.now
            → result ≡ registers_at (found s self.now.at) }
    {
        self.trail.found()
    }

    /// What a CSR instruction would read; none where there is no such register.
    pub fn csr(&self, csr: u16) -> Option<u32>
        ensures value { (s : RunSetup) → TrailStandsFor s self.now
            → result ≡ csr_at s self.now.at csr }
    {
        self.trail.csr(csr)
    }

    /// A byte of memory or a device, as it is looked at.
    pub fn byte(&mut self, addr: u32) -> Option<u8>
        ensures byte { (s : RunSetup) → TrailStandsFor s self.old
            → result ≡ byte_at s self.old.at addr }
        ensures same { self.new ≡ self.old }
    {
        self.trail.byte(addr)
    }

    /// What comes next: how the run has ended, or what the next step loads or stores.
    pub fn ahead(&mut self) -> Ahead
        ensures stands { (s : RunSetup) → TrailStandsFor s self.old → TrailStandsFor s self.new }
        ensures ahead { (s : RunSetup) → TrailStandsFor s self.old → LiesAhead s self.old.at result }
        ensures others { self.new ≡ record self.old { contents = self.new.contents } }
    {
        self.trail.ahead()
    }
}

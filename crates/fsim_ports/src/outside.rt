ghost use Rattle.std.specs.Prelude.{◌≡◌, ℕ, ◌<◌, ◌≤◌, List, length, Option};
ghost use Rattle.fsim_ports.specs.Files.{Names, holding_of, IsPart};
ghost use Rattle.fsim_ports.specs.Sink.{IsPut};

/// A sink failed.
#[derive(Clone, Copy, Debug, PartialEq, Eq)]
pub struct Failed;

/// What one read of a file gives.
#[derive(Clone, Copy, Debug, PartialEq, Eq)]
pub enum Part {
    /// So many bytes were read, at least one.
    Bytes(usize),
    /// The file has no byte there or behind.
    End,
    /// No file has this name.
    Missing,
    Failed,
}

/// Files that are read by name.
///
/// `told` has the names and what each holds, where that is told; `faults` counts faults, and never
/// falls.
pub trait Files {
    ghost told: { Self → Option Names };

    ghost faults: { Self → ℕ };

    /// Reads bytes of the file `name` from the place `at` on into the front of `buf`. What the
    /// files hold stays.
    ///
    /// `Missing` comes exactly where the told names lack the name, also in a call that is to fail.
    /// `End` comes only at or behind the end. `Failed`, and `Missing` where names aren't told, come
    /// only where the count of faults rose.
    fn read(&mut self, name: &str, at: u64, buf: &mut [u8]) -> Part
        requires room { 0 < length buf.old }
        ensures same { told self.new ≡ told self.old }
        ensures count { faults self.old ≤ faults self.new }
        ensures part { IsPart (holding_of (told self.old) name.now) at (faults self.old)
            (faults self.new) buf.new result };
}

/// Something that bytes are written to.
///
/// `written` has the bytes written so far, where that is told; `faults` counts faults, and never
/// falls.
pub trait Sink {
    ghost written: { Self → Option (List ℕ) };

    ghost faults: { Self → ℕ };

    /// Writes some bytes from the front of `bytes`, and answers how many. Where it fails it has
    /// written none, and the count of faults rose; so it did where it writes none of a piece that
    /// isn't empty.
    fn put(&mut self, bytes: &[u8]) -> Result<usize, Failed>
        ensures count { faults self.old ≤ faults self.new }
        ensures put { IsPut bytes.now (faults self.old) (faults self.new) (written self.old)
            (written self.new) result };
}

/// What the two threads call before each of their turns, so that a test can order them. It has no
/// meaning.
pub trait Gate {
    fn func_turn(&self);

    fn time_turn(&self);
}

/// The program's gate, which lets every turn pass.
#[derive(Clone, Copy, Debug, PartialEq, Eq)]
pub struct QuietGate;

impl Gate for QuietGate {
    fn func_turn(&self) {}

    fn time_turn(&self) {}
}

ghost use Rattle.std.specs.Prelude.{◌≡◌, ℕ, ◌<◌, ◌≤◌, List, length, Option};
ghost use Rattle.fsim_ports.specs.Source.{IsHeard, IsPrompt};

use crate::outside::Sink;
use std::marker::Brand;

/// What one read of a source gives.
#[derive(Clone, Copy, Debug, PartialEq, Eq)]
pub enum Heard {
    /// So many bytes were read, at least one.
    Bytes(usize),
    /// No more bytes come.
    End,
    Failed,
}

/// What has to be written, of all bytes that were read, before more are read. It is picked where a
/// talk begins, and no code holds it.
pub trait Due {
    ghost use Rattle.std.specs.Prelude.{ℕ, List};

    ghost due: { List ℕ → List ℕ };
}

impl Due for Brand {
    ghost use Rattle.std.specs.Prelude.{[]};

    ghost due = { λ heard. [] };
}

/// Bytes that come one after the other, and from somebody who may wait for what answers them.
///
/// `heard` has the bytes read so far, where that is told; `faults` counts faults, and never falls.
pub trait Source {
    ghost heard: { Self → Option (List ℕ) };

    ghost faults: { Self → ℕ };

    /// Reads bytes into the front of `buf`, as many as have come, and waits where none has. What is
    /// due of those that were read before was written to the sink.
    ///
    /// `Failed` comes only where the count of faults rose.
    fn read<U: Due, K: Sink>(&mut self, sink: &K, buf: &mut [u8]) -> Heard
        requires room { 0 < length buf.old }
        requires prompt { IsPrompt U.due (heard self.old) (K.written sink.now) }
        ensures count { faults self.old ≤ faults self.new }
        ensures heard { IsHeard (faults self.old) (faults self.new) (heard self.old)
            (heard self.new) buf.new result };
}

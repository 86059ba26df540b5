use crate::outside::Sink;
use crate::source::{Due, Heard, Source};
use std::io::Read;
use std::marker::Model;

/// Standard input of the host. Nothing is told of it; a contract sees the count of faults alone.
#[derive(Drop)]
pub struct HostSource<R: Read> {
    input: R,
    faults: u64,
}

impl<R: Read> Model for HostSource<R> {
    ghost use Rattle.std.specs.Prelude.{ℕ};

    ghost Value = { ℕ };

    ghost view = { λ h. h.faults };
}

impl<R: Read + Drop> HostSource<R> {
    ghost use Rattle.std.specs.Prelude.{◌≡◌};

    /// The bytes that a reader reaches, as it gives them.
    pub fn new(input: R) -> HostSource<R>
        ensures none { result ≡ 0 }
    {
        HostSource { input, faults: 0 }
    }
}

impl<R: Read + Drop> Source for HostSource<R> {
    ghost use Rattle.std.specs.Prelude.{None};

    ghost heard = { λ faults. None };

    ghost faults = { λ faults. faults };

    fn read<U: Due, K: Sink>(&mut self, sink: &K, buf: &mut [u8]) -> Heard {
        let _ = sink;
        match self.input.read(buf) {
            Ok(0) => Heard::End,
            Ok(count) => Heard::Bytes(count),
            Err(_) => {
                self.faults = self.faults.saturating_add(1);
                Heard::Failed
            }
        }
    }
}

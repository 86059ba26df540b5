ghost use Rattle.std.specs.Prelude.{◌≡◌, ℕ, List};

use std::marker::Model;

/// A list of bytes that contracts see as the list alone.
#[derive(Debug, Drop)]
pub struct Bytes {
    list: Vec<u8>,
}

impl Model for Bytes {
    ghost Value = { List ℕ };

    ghost view = { λ b. b.list.items };
}

impl Bytes {
    /// The bytes of a vector.
    pub fn new(list: Vec<u8>) -> Bytes
        ensures same { result ≡ list.items }
    {
        Bytes { list }
    }

    /// The bytes, in order.
    pub fn as_slice(&self) -> &[u8]
        ensures same { result.now ≡ self.now }
    {
        self.list.as_slice()
    }
}

ghost use Rattle.std.specs.Prelude.{◌≡◌, ℕ, List, string_bytes};

use std::marker::Model;

/// A text that contracts see as the list of its bytes alone.
#[derive(Debug, Drop)]
pub struct Text {
    string: String,
}

impl Model for Text {
    ghost Value = { List ℕ };

    ghost view = { λ t. string_bytes t.string };
}

impl Text {
    /// The text of a string.
    pub fn new(string: String) -> Text
        ensures same { result ≡ string_bytes string }
    {
        Text { string }
    }

    /// The text, as UTF-8.
    pub fn as_str(&self) -> &str
        ensures same { result.now ≡ self.now }
    {
        self.string.as_str()
    }
}

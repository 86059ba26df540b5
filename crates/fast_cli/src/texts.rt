ghost use Rattle.std.specs.Prelude.{◌≡◌, ℕ, List};

use fsim_base::Text;
use std::marker::Model;

/// A list of texts that contracts see as the list alone, each text as its bytes.
#[derive(Debug, Drop)]
pub struct Texts {
    list: Vec<Text>,
}

impl Model for Texts {
    ghost Value = { List (List ℕ) };

    ghost view = { λ t. t.list.items };
}

impl Texts {
    /// The texts of a vector.
    pub fn new(list: Vec<Text>) -> Texts
        ensures same { result ≡ list.items }
    {
        Texts { list }
    }

    /// The texts, in order.
    pub fn as_slice(&self) -> &[Text]
        ensures same { result.now ≡ self.now }
    {
        self.list.as_slice()
    }
}

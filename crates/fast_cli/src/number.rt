ghost use Rattle.std.specs.Prelude.{◌≡◌, ◌≤◌, IfSome};
ghost use Rattle.std.specs.Char.{is_ascii_digit};
ghost use Rattle.std.specs.List.{list_all};
ghost use Rattle.fast_cli.specs.Number.{is_numeral, number_in};

fn has_only_digits(text: &[u8]) -> bool
    ensures { result ≡ list_all is_ascii_digit text.now }
{
    text.iter().all(u8::is_ascii_digit)
}

/// Whether the text is one to twenty decimal digits.
fn is_numeral(text: &str) -> bool
    ensures { result ≡ is_numeral text.now }
{
    if text.is_empty() || 20 < text.len() {
        return false;
    }
    has_only_digits(text.as_bytes())
}

/// The number that a text writes in one to twenty decimal digits, where it is from `least` to
/// `most`.
#[tactic(auto, unfolding(crate::specs::Number::number_in))]
pub(crate) fn number_in(text: &str, least: u64, most: u64) -> Option<u64>
    ensures value { result ≡ number_in least most text.now }
    ensures least { IfSome result (λ n. least ≤ n) }
    ensures most { IfSome result (λ n. n ≤ most) }
{
    if !is_numeral(text) {
        return None;
    }
    let Ok(number) = text.parse::<u64>() else {
        return None;
    };
    if number < least || most < number {
        return None;
    }
    Some(number)
}

ghost use Rattle.std.specs.Prelude.{◌≡◌, ◌+◌};

use std::sync::Wait;

/// One more. After the highest number, to which no run comes, it waits for ever.
pub fn one_more<R: Wait>(rt: &R, count: u64) -> u64
    ensures more { result ≡ count + 1 }
{
    let Some(more) = count.checked_add(1) else {
        for _ in rt.forever() {}
        unreachable!()
    };
    more
}

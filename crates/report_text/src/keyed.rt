ghost use Rattle.std.specs.Prelude.{◌≡◌, ◌+◌, ◌≤◌, ◌++◌, length, IsSome, IfSome};

use arrayvec::ArrayVec;

/// How many bytes a line with a key may have that is put in one piece. A machine file has at most
/// 65,536 bytes, so each of its keys fits, with the longest beginning and the longest value.
pub const KEYED_ROOM: usize = 65_600;

/// A beginning, a key and what stands behind it, where they fit in a line.
pub fn keyed_line(head: &[u8], key: &[u8], tail: &[u8]) -> Option<ArrayVec<u8, KEYED_ROOM>>
    ensures joined { IfSome result (λ line. line.items ≡ head.now ++ key.now ++ tail.now) }
    ensures fits { length head.now + length key.now + length tail.now ≤ KEYED_ROOM → IsSome result }
{
    let mut line = ArrayVec::new();
    line.try_extend_from_slice(head).ok()?;
    line.try_extend_from_slice(key).ok()?;
    line.try_extend_from_slice(tail).ok()?;
    Some(line)
}

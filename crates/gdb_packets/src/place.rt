/// Where in a packet the next byte comes.
#[derive(Clone, Copy, Debug, PartialEq, Eq)]
pub(crate) enum Place {
    /// Between packets.
    Outside,
    /// After the `$`.
    Content,
    /// The sum's first digit.
    First,
    /// Its second digit, after this byte.
    Second(u8),
}

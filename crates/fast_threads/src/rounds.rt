/// Up to so many turns in a row in which a side had nothing to do it spins, since the other side
/// mostly answers soon; then it gives way to other threads after each.
pub const MOST_SPINS: u32 = 256;

/// Once it has given way so often, its round is over: the host is busy.
pub const MOST_WAITS: u32 = 16;

/// So many turns the sides take on one thread after the first round, and twice as many after each
/// further one, up to the most.
pub const FEWEST_TURNS: u32 = 4096;

pub const MOST_TURNS: u32 = 1 << 20;

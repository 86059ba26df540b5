ghost use Rattle.std.specs.Prelude.{◌≡◌, ◌≤◌, ◌<◌, ◌+◌, ◌-◌, min, true};

/// How many entries may be under way behind an order that opens an epoch, before it is known that
/// the timing side needs more.
const FIRST: u64 = 4;

/// Up to here the allowance doubles; from here on it grows one by one.
const KNEE: u64 = 64;

/// The most that may be under way. It has to be more than a window holds, 256 slots, since all of
/// these may wait for the commit of the oldest.
const MOST: u64 = 512;

/// So many idle turns are given to an order that is foreseen, and as many again while the timing
/// side has entries left.
const PATIENCE: u32 = 64;

/// How far the functional side runs ahead of what it knows to be committed.
///
/// Entries that were made before an order which opens an epoch were made for nothing: they are
/// undone on this side and let go on the other. So few are made behind such an order, and more the
/// longer none comes; and none for a while where one is foreseen.
#[derive(Clone, Copy, Debug)]
pub struct Lookahead {
    /// How many entries were made since the last opening, less those known to be committed.
    ahead: u64,
    /// How many may be.
    allowed: u64,
    /// For so many idle turns more an order is waited for.
    patience: u32,
}

impl Lookahead {
    ghost use Rattle.fast_threads.specs.Lookahead.{IsWide, IsWidened};

    /// Behind an order that opens an epoch, and at the start of a run.
    pub fn new() -> Lookahead
        ensures some { 0 < result.allowed }
    {
        Lookahead {
            ahead: 0,
            allowed: FIRST,
            patience: 0,
        }
    }

    /// Whether one more entry may be made now, where so many instructions are under way: made, and
    /// not known to be committed. No more than these count as ahead, whatever was noted.
    pub fn may_run_ahead(&self, under_way: u32) -> bool
        ensures room { IsWide self.now → min self.now.ahead under_way ≤ 256 → result ≡ true }
    {
        self.patience == 0 && self.ahead.min(u64::from(under_way)) < self.allowed
    }

    /// One more entry was made. Where the timing side will probably depart behind it, its order is
    /// waited for.
    pub fn note_entry(&mut self, departs: bool)
        ensures ahead { self.new.ahead ≤ self.old.ahead + 1 }
        ensures allowed { self.new.allowed ≡ self.old.allowed }
    {
        self.ahead = self.ahead.saturating_add(1);
        if departs {
            self.wait_on();
        }
    }

    /// So many instructions were committed: the entries are of use.
    pub fn note_commit(&mut self, count: u64)
        ensures ahead { self.new.ahead ≡ self.old.ahead - count }
        ensures wider { IsWidened self.old.allowed self.new.allowed }
    {
        self.ahead = self.ahead.saturating_sub(count);
        self.widen();
    }

    /// There was nothing to do in a turn: more entries may be made, unless an order is waited for.
    /// Says whether such a wait is over.
    pub fn note_idle(&mut self) -> bool
        ensures ahead { self.new.ahead ≡ self.old.ahead }
        ensures patience { self.new.patience ≡ self.old.patience - 1 }
        ensures wider { self.old.patience ≡ 0 → IsWidened self.old.allowed self.new.allowed }
        ensures over { result ≡ true → self.new.patience ≡ 0 }
    {
        if self.patience == 0 {
            self.widen();
            return false;
        }
        self.patience -= 1;
        self.patience == 0
    }

    /// The order that was waited for may still come.
    pub fn wait_on(&mut self)
        ensures ahead { self.new.ahead ≡ self.old.ahead }
        ensures allowed { self.new.allowed ≡ self.old.allowed }
        ensures patience { self.new.patience ≡ 64 }
    {
        self.patience = PATIENCE;
    }

    /// No order will come before there are more entries: it isn't waited for any more.
    pub fn go_on(&mut self)
        ensures ahead { self.new.ahead ≡ self.old.ahead }
        ensures patience { self.new.patience ≡ 0 }
        ensures wider { IsWidened self.old.allowed self.new.allowed }
    {
        self.patience = 0;
        self.widen();
    }

    fn widen(&mut self)
        ensures ahead { self.new.ahead ≡ self.old.ahead }
        ensures patience { self.new.patience ≡ self.old.patience }
        ensures wider { IsWidened self.old.allowed self.new.allowed }
    {
        let allowed = if self.allowed < KNEE {
            self.allowed * 2
        } else {
            self.allowed.saturating_add(1)
        };
        self.allowed = allowed.min(MOST);
    }
}

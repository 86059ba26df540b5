use crate::{AllCaches, Cache, CacheCounts, CacheParams, Caches, Touch};
use std::alloc::Global;
use std::process::Abort;

/// A miss that drops no dirty line.
const MISS: Touch = Touch::Miss { dropped: None };

fn params(line: u32, sets: u32, ways: u32, miss: u32) -> CacheParams {
    CacheParams {
        line,
        sets,
        ways,
        miss,
    }
}

/// Reads (`false`) and writes (`true`) one address after the other.
fn check(
    rt: &impl Abort,
    alloc: Global,
    p: CacheParams,
    back: bool,
    accesses: &[(u32, bool, Touch)],
) {
    assert!(rt; p.is_in_range());
    let mut cache = Cache::new(alloc, p, back).expect(rt, "there is memory");
    for (addr, write, touch) in accesses {
        assert_eq!(rt; cache.access(*addr, *write), *touch);
    }
}

/// Lines A, B, A, C, B in a set of two: C drops B, which was used longer ago than A.
#[test]
fn drops_the_line_used_longest_ago(rt: HostRuntime) {
    let accesses = [
        (0x00, false, MISS),
        (0x10, false, MISS),
        (0x0c, false, Touch::Hit),
        (0x20, false, MISS),
        (0x10, false, MISS),
    ];
    check(&rt, rt.alloc(), params(16, 1, 2, 0), false, &accesses);
}

#[test]
fn sixteen_ways_keep_sixteen_lines(rt: HostRuntime) {
    let p = params(4, 1, 16, 0);
    assert!(rt; p.is_in_range());
    let mut cache = Cache::new(rt.alloc(), p, false).expect(&rt, "there is memory");
    for line in 0..16 {
        assert_eq!(rt; cache.access(4 * line, false), MISS, "line {line}");
    }
    for line in 0..16 {
        assert_eq!(rt; cache.access(4 * line, false), Touch::Hit, "line {line}");
    }
    assert_eq!(rt; cache.access(64, false), MISS);
    assert_eq!(rt; cache.access(4, false), Touch::Hit);
    assert_eq!(rt; cache.access(0, false), MISS);
    assert_eq!(rt; cache.access(8, false), MISS);
}

#[test]
fn only_write_back_drops_dirty_lines(rt: HostRuntime) {
    let dropped = |first| Touch::Miss {
        dropped: Some(first),
    };
    let back = [
        (0x1234, true, MISS),
        (0x1264, true, MISS),
        (0x1238, false, Touch::Hit),
        (0x1250, false, dropped(0x1230)),
        (0x1278, false, MISS),
        (0x1274, true, Touch::Hit),
        (0x1230, false, dropped(0x1270)),
        (0x1280, false, dropped(0x1260)),
    ];
    check(&rt, rt.alloc(), params(16, 2, 1, 0), true, &back);
    let through = [
        (0x1234, true, MISS),
        (0x1250, true, MISS),
        (0x1230, false, MISS),
    ];
    check(&rt, rt.alloc(), params(16, 2, 1, 0), false, &through);
    let highest = [(0xffff_fffc, true, MISS), (0, false, dropped(0xffff_ff00))];
    check(&rt, rt.alloc(), params(256, 1, 1, 0), true, &highest);
    let no_ways = [(0x1234, true, Touch::None), (0x1234, false, Touch::None)];
    check(&rt, rt.alloc(), params(16, 2, 0, 0), true, &no_ways);
}

#[derive(Clone, Copy)]
enum Access {
    Fetch,
    Load,
    Store,
}

/// Makes one access after the other, each with the cycles that it is to add, and looks at the
/// counts at the end.
fn check_all(
    rt: &impl Abort,
    alloc: Global,
    p: AllCaches,
    accesses: &[(Access, u32, u32)],
    counts: CacheCounts,
) {
    assert!(rt; p.are_in_range());
    let mut caches = Caches::new(alloc, &p).expect(rt, "there is memory");
    for (access, addr, cycles) in accesses {
        match access {
            Access::Fetch => assert_eq!(rt; caches.fetch(*addr), *cycles),
            Access::Load => assert_eq!(rt; caches.load(*addr), *cycles),
            Access::Store => caches.store(*addr),
        }
    }
    assert_eq!(rt; caches.counts(), counts);
}

const TWO_LEVELS: AllCaches = AllCaches {
    icache: CacheParams {
        line: 16,
        sets: 1,
        ways: 1,
        miss: 7,
    },
    dcache: CacheParams {
        line: 16,
        sets: 1,
        ways: 1,
        miss: 9,
    },
    back: true,
    l2: CacheParams {
        line: 64,
        sets: 4,
        ways: 2,
        miss: 100,
    },
    l2_hit: 10,
};

#[test]
fn second_level_takes_misses_and_write_backs(rt: HostRuntime) {
    let accesses = [
        (Access::Fetch, 0x100, 100),
        (Access::Fetch, 0x104, 0),
        (Access::Load, 0x110, 10),
        (Access::Store, 0x118, 0),
        (Access::Load, 0x11c, 0),
        (Access::Load, 0x200, 100),
        (Access::Fetch, 0x200, 10),
        (Access::Store, 0x300, 0),
        (Access::Load, 0x100, 100),
    ];
    let counts = CacheCounts {
        icache_accesses: 3,
        icache_misses: 2,
        dcache_accesses: 6,
        dcache_misses: 4,
        l2_accesses: 8,
        l2_misses: 4,
        writebacks: 2,
    };
    check_all(&rt, rt.alloc(), TWO_LEVELS, &accesses, counts);
}

#[test]
fn one_level_adds_its_own_cycles(rt: HostRuntime) {
    let mut p = TWO_LEVELS;
    p.l2.ways = 0;
    let accesses = [
        (Access::Fetch, 0x100, 7),
        (Access::Fetch, 0x104, 0),
        (Access::Load, 0x110, 9),
        (Access::Store, 0x118, 0),
        (Access::Load, 0x200, 9),
    ];
    let mut counts = CacheCounts {
        icache_accesses: 2,
        icache_misses: 1,
        dcache_accesses: 3,
        dcache_misses: 2,
        l2_accesses: 0,
        l2_misses: 0,
        writebacks: 1,
    };
    check_all(&rt, rt.alloc(), p, &accesses, counts);
    p.back = false;
    counts.writebacks = 0;
    check_all(&rt, rt.alloc(), p, &accesses, counts);
}

#[test]
fn no_first_level_asks_no_second(rt: HostRuntime) {
    let mut p = TWO_LEVELS;
    p.icache.ways = 0;
    p.dcache.ways = 0;
    let accesses = [
        (Access::Fetch, 0x100, 0),
        (Access::Load, 0x100, 0),
        (Access::Store, 0x100, 0),
    ];
    let counts = CacheCounts {
        icache_accesses: 0,
        icache_misses: 0,
        dcache_accesses: 0,
        dcache_misses: 0,
        l2_accesses: 0,
        l2_misses: 0,
        writebacks: 0,
    };
    check_all(&rt, rt.alloc(), p, &accesses, counts);
}

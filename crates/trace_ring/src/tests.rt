//! Entries and orders that one thread hands over to itself, and that two hand to each other. They
//! are those of a run whose every fetch fails, worked out by hand from the machine's rules
//! (`specs/Trial.antt`).

ghost use Rattle.std.specs.Prelude.{◌≡◌, ◌≤◌, ◌<◌, ◌+◌, MatchBool, Some, None};
ghost use Rattle.trace_ring.specs.Ring.{IsNamed, Follows};
ghost use Rattle.trace_ring.specs.Trial.{trial, refused_fetch, before};

mod trial;

use crate::{FuncEnd, TimeEnd, rings};
use std::process::Abort;
use std::sync::Wait;
use std::test::Fail;
use std::thread;
use trace_entry::Entry;
use trial::{next_word, refused_fetch, setup};

/// How many entries go from one thread to another, the last three of them by a flush.
const ENTRIES: u64 = 5003;

/// How many orders go the other way: all but the last of the run.
const ORDERS: u32 = 88;

/// Pushes an entry, and says whether it had room.
fn push<R: Wait + Abort>(rt: &R, end: &mut FuncEnd, epoch: u64, number: u64, addr: u32) -> bool
    requires run { end.old.setup ≡ trial }
    requires named { IsNamed trial (refused_fetch epoch number addr) }
    requires follows { Follows trial end.old.last epoch number }
    ensures run { end.new.setup ≡ trial }
    ensures last { MatchBool result (end.new.last ≡ Some (epoch, number))
        (end.new.last ≡ end.old.last) }
{
    let entry = refused_fetch(epoch, number, addr);
    match end.push(rt, entry) {
        Ok(()) => true,
        Err(back) => {
            assert_eq!(rt; back, entry);
            false
        }
    }
}

/// Pushes an entry that has room, or else has none.
fn expect_push<R: Wait + Abort>(
    rt: &R,
    end: &mut FuncEnd,
    epoch: u64,
    number: u64,
    addr: u32,
    room: bool,
)
    requires run { end.old.setup ≡ trial }
    requires named { IsNamed trial (refused_fetch epoch number addr) }
    requires follows { Follows trial end.old.last epoch number }
    ensures run { end.new.setup ≡ trial }
    ensures last { MatchBool room (end.new.last ≡ Some (epoch, number))
        (end.new.last ≡ end.old.last) }
{
    let had_room = push(rt, end, epoch, number, addr);
    assert_eq!(rt; had_room, room, "entry {number} of epoch {epoch}");
}

/// Pushes the first entries of an epoch, one after the other; each has room.
#[tactic(auto, using(crate::proofs::Trials::entry_named, crate::proofs::Trials::goes_on))]
fn push_first<R: Wait + Abort>(rt: &R, func: &mut FuncEnd, count: u64)
    requires run { func.old.setup ≡ trial }
    requires last { func.old.last ≡ None }
    ensures run { func.new.setup ≡ trial }
    ensures last { func.new.last ≡ before count }
{
    for number in 0..count {
        expect_push(rt, func, 0, number, 0, true);
    }
}

/// Pushes the first entry of epoch 3 after the second of epoch 1. It has room, or else has none.
#[tactic(auto, using(crate::proofs::Trials::first_of_three))]
fn push_last<R: Wait + Abort>(rt: &R, func: &mut FuncEnd, room: bool)
    requires run { func.old.setup ≡ trial }
    requires last { func.old.last ≡ Some (1, 2) }
    ensures run { func.new.setup ≡ trial }
    ensures last { MatchBool room (func.new.last ≡ Some (3, 3)) (func.new.last ≡ Some (1, 2)) }
{
    expect_push(rt, func, 3, 3, 12, room);
}

/// Sixteen entries of two epochs fill the ring of 16; the next one has no room.
#[tactic(auto, using(crate::proofs::Trials::first_of_one, crate::proofs::Trials::second_of_one))]
fn fill<R: Wait + Abort>(rt: &R, func: &mut FuncEnd)
    requires run { func.old.setup ≡ trial }
    requires last { func.old.last ≡ None }
    ensures run { func.new.setup ≡ trial }
    ensures last { func.new.last ≡ Some (1, 2) }
{
    push_first(rt, func, 14);
    expect_push(rt, func, 1, 1, 4, true);
    expect_push(rt, func, 1, 2, 0, true);
    push_last(rt, func, false);
}

/// Takes entries of an epoch, from one number up to before another.
fn expect_entries<R: Wait + Abort>(rt: &R, time: &mut TimeEnd, first: u64, end: u64) {
    for number in first..end {
        assert_eq!(rt; time.next(rt), Some(refused_fetch(0, number, 0)));
    }
}

#[test]
fn full_ring_hands_an_entry_back(rt: HostRuntime) -> Result<(), Fail> {
    let setup = setup(rt.alloc());
    assert!(rt; setup.sound());
    let (mut func, mut time) = rings(rt.alloc(), &setup)?;
    assert_eq!(rt; time.next(&rt), None);
    fill(&rt, &mut func);
    expect_entries(&rt, &mut time, 0, 1);
    push_last(&rt, &mut func, true);
    expect_entries(&rt, &mut time, 1, 14);
    for (epoch, number, addr) in [(1, 1, 4), (1, 2, 0)] {
        assert_eq!(rt; time.next(&rt), Some(refused_fetch(epoch, number, addr)));
    }
    // The last entry waits for more of them, or for a flush.
    assert_eq!(rt; time.next(&rt), None);
    func.flush(&rt);
    assert_eq!(rt; time.next(&rt), Some(refused_fetch(3, 3, 12)));
    assert_eq!(rt; time.next(&rt), None);
    Ok(())
}

#[test]
fn ring_is_drained_once_its_entries_are_taken(rt: HostRuntime) -> Result<(), Fail> {
    let setup = setup(rt.alloc());
    assert!(rt; setup.sound());
    let (mut func, mut time) = rings(rt.alloc(), &setup)?;
    assert!(rt; func.is_drained());
    push_first(&rt, &mut func, 2);
    assert_eq!(rt; time.next(&rt), None);
    func.flush(&rt);
    expect_entries(&rt, &mut time, 0, 1);
    assert!(rt; !func.is_drained());
    expect_entries(&rt, &mut time, 1, 2);
    assert!(rt; func.is_drained());
    Ok(())
}

/// Pushes the order in a place, and says whether it had room.
#[tactic(auto, using(crate::proofs::Trials::order_named))]
fn push_order<R: Wait>(rt: &R, end: &mut TimeEnd, place: u32) -> bool
    requires run { end.old.setup ≡ trial }
    requires place { (end.old.pushed ≡ place) × (place < 88) }
    ensures run { end.new.setup ≡ trial }
    ensures pushed { MatchBool result (end.new.pushed ≡ place + 1) (end.new.pushed ≡ place) }
{
    match end.push(rt, next_word(place)) {
        Ok(()) => true,
        Err(_) => false,
    }
}

/// Pushes the orders in the places from `first` on until one is handed back, and gives its place.
fn push_orders<R: Wait>(rt: &R, end: &mut TimeEnd, first: u32) -> u32
    requires run { end.old.setup ≡ trial }
    requires place { (end.old.pushed ≡ first) × (first ≤ 88) }
    ensures run { end.new.setup ≡ trial }
    ensures pushed { (end.new.pushed ≡ result) × (result ≤ 88) }
{
    for place in first..ORDERS {
        if !push_order(rt, end, place) {
            return place;
        }
    }
    ORDERS
}

/// Takes orders, from the one in a place up to before another place.
fn expect_orders<R: Wait + Abort>(rt: &R, func: &mut FuncEnd, first: u32, end: u32)
    requires within { end ≤ 88 }
{
    for place in first..end {
        assert_eq!(rt; func.next(rt), Some(next_word(place)));
    }
}

#[test]
fn full_order_queue_hands_an_order_back(rt: HostRuntime) -> Result<(), Fail> {
    let setup = setup(rt.alloc());
    assert!(rt; setup.sound());
    let (mut func, mut time) = rings(rt.alloc(), &setup)?;
    assert_eq!(rt; func.next(&rt), None);
    let refused = push_orders(&rt, &mut time, 0);
    assert_eq!(rt; refused, 64);
    expect_orders(&rt, &mut func, 0, 1);
    let refused = push_orders(&rt, &mut time, refused);
    assert_eq!(rt; refused, 65);
    expect_orders(&rt, &mut func, 1, 65);
    assert_eq!(rt; func.next(&rt), None);
    Ok(())
}

/// Pushes all entries, waiting for room, and then flushes until an order says that they came.
#[tactic(auto, using(crate::proofs::Trials::entry_named))]
fn push_all<R: Wait + Abort>(rt: &R, mut end: FuncEnd)
    requires run { end.setup ≡ trial }
    requires last { end.last ≡ None }
{
    let mut number = 0;
    for _ in rt.forever() {
        if number >= ENTRIES {
            end.flush(rt);
            if end.next(rt).is_some() {
                break;
            }
            thread::yield_now();
        } else if push(rt, &mut end, 0, number, 0) {
            number += 1;
        } else {
            thread::yield_now();
        }
    }
}

/// Takes all entries, waiting for each, and then gives the first order.
fn take_all<R: Wait + Abort>(rt: &R, mut end: TimeEnd)
    requires run { end.setup ≡ trial }
    requires pushed { end.pushed ≡ 0 }
{
    let mut number = 0;
    for _ in rt.forever() {
        if number >= ENTRIES {
            assert!(rt; push_order(rt, &mut end, 0));
            break;
        }
        match end.next(rt) {
            Some(entry) => {
                assert_eq!(rt; entry, refused_fetch(0, number, 0));
                number += 1;
            }
            None => thread::yield_now(),
        }
    }
}

#[test]
fn two_threads_hand_over_entries(rt: HostRuntime) -> Result<(), Fail> {
    let setup = setup(rt.alloc());
    assert!(rt; setup.sound());
    let (func, time) = rings(rt.alloc(), &setup)?;
    thread::join(
        &rt,
        move ||
            requires opened { (func.setup ≡ trial) × (func.last ≡ None) }
        { push_all(&rt, func) },
        move ||
            requires opened { (time.setup ≡ trial) × (time.pushed ≡ 0) }
        { take_all(&rt, time) },
    );
    Ok(())
}

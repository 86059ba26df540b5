ghost use Rattle.std.specs.Prelude.{◌≡◌, ◌+◌, ◌<◌, length, All};

use crate::{Change, Journal, OldCsr, OldTrap, Past};
use device_bus::DevUndo;
use fsim_base::Width;
use std::test::Fail;

/// What a step changed: one of the five kinds in turn.
fn change(number: u64) -> Change {
    match number % 5 {
        0 => Change::Nothing,
        1 => Change::Memory {
            addr: 0x8000_1000,
            width: Width::Half,
            old: 0x2222,
        },
        2 => Change::Device {
            device: 1,
            undo: DevUndo {
                slot: Some(0),
                old: 0x3333_3333,
            },
        },
        3 => Change::Trap(OldTrap {
            mie: true,
            mpie: false,
            mepc: 0x8000_0020,
            mcause: 11,
            mtval: 0x4444_4444,
        }),
        _ => Change::Csr(OldCsr::Mtvec(0x8000_0040)),
    }
}

/// A step with something in each field.
fn past(number: u64) -> Past
    ensures { result.number ≡ number }
{
    Past {
        number,
        addr: 0x8000_0010,
        value: 0x1111_1111,
        register: 5,
        change: change(number),
        out: number % 2 == 0,
    }
}

#[tactic(auto, using(crate::proofs::Steps::newest_below))]
fn note(journal: &mut Journal, number: u64)
    requires room { length journal.old.steps < journal.old.room }
    requires above { All (λ p. p.number < number) journal.old.steps }
    ensures above { All (λ p. p.number < number + 1) journal.new.steps }
{
    journal.note(past(number));
}

/// Drops the steps below `lowest` where the journal is full; gives whether it did.
#[tactic(auto, using(crate::proofs::Steps::below_from))]
fn make_room(journal: &mut Journal, lowest: u64, number: u64) -> bool
    requires numbers { All (λ p. p.number < number) journal.old.steps }
    ensures { All (λ p. p.number < number) journal.new.steps }
{
    let full = journal.is_full();
    if full {
        journal.drop_below(lowest);
    }
    full
}

/// Takes the newest step back in every seventh turn.
#[tactic(auto, using(crate::proofs::Steps::below_front))]
fn take_back(journal: &mut Journal, number: u64) -> Option<Past>
    requires numbers { All (λ p. p.number < number + 1) journal.old.steps }
    ensures { All (λ p. p.number < number + 1) journal.new.steps }
{
    if number % 7 == 6 {
        journal.back()
    } else {
        None
    }
}

#[test]
fn a_journal_wraps_around_many_times(rt: HostRuntime) -> Result<(), Fail> {
    let mut journal = Journal::with_room(rt.alloc(), 5)?;
    let mut expected = Vec::new(rt.alloc());
    for number in 0..1000u64 {
        let lowest = number.saturating_sub(3);
        if make_room(&mut journal, lowest, number) {
            expected.retain(|kept| *kept >= lowest);
        }
        assert!(rt; !journal.is_full(), "room at {number}");
        note(&mut journal, number);
        expected.push(number)?;
        if let Some(step) = take_back(&mut journal, number) {
            assert_eq!(rt; Some(step.number), expected.pop(), "newest at {number}");
            assert_eq!(rt; step, past(number), "newest at {number}");
        }
        assert_eq!(rt;
            journal.len() as usize,
            expected.len(),
            "length at {number}"
        );
    }
    for number in expected.iter().rev() {
        assert_eq!(rt; journal.back(), Some(past(*number)), "at the end");
    }
    assert_eq!(rt; journal.back(), None);
    Ok(())
}

#[test]
fn a_full_journal_empties_from_both_ends(rt: HostRuntime) -> Result<(), Fail> {
    let mut journal = Journal::with_room(rt.alloc(), 3)?;
    assert!(rt; !journal.is_full());
    note(&mut journal, 10);
    assert!(rt; !journal.is_full());
    note(&mut journal, 20);
    assert!(rt; !journal.is_full());
    note(&mut journal, 30);
    assert!(rt; journal.is_full());
    journal.drop_below(20);
    assert_eq!(rt; journal.len(), 2);
    journal.drop_below(20);
    assert_eq!(rt; journal.len(), 2, "the number itself stays");
    assert_eq!(rt; journal.back(), Some(past(30)));
    journal.drop_below(21);
    assert_eq!(rt; (journal.len(), journal.back()), (0, None));
    let mut none = Journal::with_room(rt.alloc(), 0)?;
    assert!(rt; none.is_full());
    assert_eq!(rt; none.back(), None);
    Ok(())
}

#[test]
fn the_oldest_steps_go_by_count(rt: HostRuntime) -> Result<(), Fail> {
    let mut journal = Journal::with_room(rt.alloc(), 3)?;
    note(&mut journal, 10);
    assert!(rt; !journal.is_full());
    note(&mut journal, 20);
    assert!(rt; !journal.is_full());
    note(&mut journal, 30);
    journal.drop_oldest(0);
    assert_eq!(rt; journal.len(), 3);
    journal.drop_oldest(1);
    assert_eq!(rt; (journal.len(), journal.back()), (2, Some(past(30))));
    journal.drop_oldest(u64::MAX);
    assert_eq!(rt;
        (journal.len(), journal.back()),
        (0, None),
        "all where there are fewer"
    );
    Ok(())
}

ghost use Rattle.std.specs.Prelude.{◌≡◌, ◌+◌, IsTrue, IfSome};
ghost use Rattle.reorder_buffer.specs.Window.{youngest};

use crate::{SlotState, Window};
use fsim_base::{Access, Class};
use std::test::Fail;
use trace_entry::Entry;

/// What is done to the window.
#[derive(Clone, Copy, Debug, PartialEq, Eq)]
enum Step {
    Append(u64),
    /// Marks the slot at this place as done.
    Finish(u32),
    Pop,
    CutFrom(u64),
}

/// What is told of an instruction.
fn entry(number: u64) -> Entry
    ensures { result.number ≡ number }
{
    Entry {
        number,
        epoch: 0,
        addr: 0x8000_0010,
        word: 0x0000_0013,
        access: Access::Nothing,
        next: 0x8000_0014,
        cause: None,
        class: Class::Alu,
        unserved: false,
        out: None,
        halt: None,
        irq_on: false,
        cmp: 0,
    }
}

/// Whether the number is the one behind the youngest slot's.
fn follows(window: &Window, number: u64) -> bool
    ensures { IsTrue result
        → IfSome (youngest window.now.slots) (λ last. number ≡ last.number + 1) }
{
    let len = window.len();
    if len == 0 {
        return true;
    }
    let (_, last) = window.at(len - 1);
    number.checked_sub(1) == Some(last.number)
}

/// Does a step that is possible, and gives the index or the count that it answers; None for a step
/// that isn't.
fn play(window: &mut Window, step: Step) -> Option<u32> {
    match step {
        Step::Append(number) if !window.is_full() && follows(window, number) => {
            Some(window.append(&entry(number), 0x8000_0014, 1))
        }
        Step::Finish(place) if place < window.len() => {
            window.mark(place, SlotState::Done);
            Some(place)
        }
        Step::Pop if window.len() > 0 => {
            window.pop();
            Some(0)
        }
        Step::CutFrom(number) => Some(window.cut_from(number)),
        _ => None,
    }
}

/// The number and the index of the slot at a place, and whether it is done; None behind the last.
type Seen = Option<(u64, u32, bool)>;

fn seen(window: &Window, place: u32) -> Seen {
    if place >= window.len() {
        return None;
    }
    let (index, slot) = window.at(place);
    Some((slot.number, index, slot.state == SlotState::Done))
}

/// A step, what it answers, and the three places after it.
fn steps() -> [(Step, u32, [Seen; 3]); 11] {
    [
        (Step::Append(7), 1, [Some((7, 1, false)), None, None]),
        (
            Step::Append(8),
            2,
            [Some((7, 1, false)), Some((8, 2, false)), None],
        ),
        (
            Step::Append(9),
            0,
            [
                Some((7, 1, false)),
                Some((8, 2, false)),
                Some((9, 0, false)),
            ],
        ),
        (
            Step::Finish(1),
            1,
            [Some((7, 1, false)), Some((8, 2, true)), Some((9, 0, false))],
        ),
        (
            Step::Pop,
            0,
            [Some((8, 2, true)), Some((9, 0, false)), None],
        ),
        (
            Step::Append(10),
            1,
            [
                Some((8, 2, true)),
                Some((9, 0, false)),
                Some((10, 1, false)),
            ],
        ),
        (
            Step::CutFrom(11),
            0,
            [
                Some((8, 2, true)),
                Some((9, 0, false)),
                Some((10, 1, false)),
            ],
        ),
        (Step::CutFrom(9), 2, [Some((8, 2, true)), None, None]),
        (
            Step::Append(9),
            0,
            [Some((8, 2, true)), Some((9, 0, false)), None],
        ),
        (Step::CutFrom(3), 2, [None, None, None]),
        (Step::Append(50), 2, [Some((50, 2, false)), None, None]),
    ]
}

#[test]
fn a_window_of_three_goes_round(rt: HostRuntime) -> Result<(), Fail> {
    let mut window = Window::new(rt.alloc(), 3)?;
    for (step, answer, places) in steps() {
        assert_eq!(rt;
            play(&mut window, step),
            Some(answer),
            "the answer to {step:?}"
        );
        let now = [seen(&window, 0), seen(&window, 1), seen(&window, 2)];
        assert_eq!(rt; now, places, "behind {step:?}");
        let oldest = window.oldest().map(|slot| slot.number);
        assert_eq!(rt;
            oldest,
            places[0].map(|(number, _, _)| number),
            "oldest behind {step:?}"
        );
        assert_eq!(rt;
            window.is_full(),
            places[2].is_some(),
            "full behind {step:?}"
        );
    }
    Ok(())
}

/// The position of the slot that comes next, whose number is this one; None where none may come.
fn free_position(window: &Window, number: u64) -> Option<u32> {
    if window.is_full() || !follows(window, number) {
        return None;
    }
    Some(window.free_position(number))
}

/// The position of the youngest slot; None where there is none.
fn youngest_position(window: &Window) -> Option<u32> {
    let len = window.len();
    if len == 0 {
        return None;
    }
    Some(window.position(len - 1))
}

#[test]
fn a_window_of_three_has_four_positions(rt: HostRuntime) -> Result<(), Fail> {
    let mut window = Window::new(rt.alloc(), 3)?;
    assert_eq!(rt; window.room(), 4);
    for (number, position) in [(6, 2), (7, 3), (8, 0)] {
        assert_eq!(rt;
            free_position(&window, number),
            Some(position),
            "before {number}"
        );
        play(&mut window, Step::Append(number));
        assert_eq!(rt;
            youngest_position(&window),
            Some(position),
            "behind {number}"
        );
    }
    assert_eq!(rt; free_position(&window, 9), None, "no room");
    play(&mut window, Step::Pop);
    assert_eq!(rt;
        free_position(&window, 9),
        Some(1),
        "behind the last position"
    );
    Ok(())
}

#[test]
fn a_window_without_room_is_full_and_empty(rt: HostRuntime) -> Result<(), Fail> {
    let window = Window::new(rt.alloc(), 0)?;
    assert!(rt; window.is_full());
    assert!(rt; window.oldest().is_none());
    Ok(())
}

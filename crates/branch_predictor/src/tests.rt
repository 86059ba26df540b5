use crate::{PredKind, PredParams, Predictor};
use fsim_base::Flow;
use std::alloc::Global;
use std::process::Abort;

const TAKEN: (u32, Flow, u32) = (0x100, Flow::Branch, 0x80);

const NOT_TAKEN: (u32, Flow, u32) = (0x100, Flow::Branch, 0x104);

fn new_predictor(rt: &impl Abort, alloc: Global, p: PredParams) -> Predictor {
    assert!(rt; p.is_in_range());
    Predictor::new(alloc, p).expect(rt, "there is memory")
}

/// Trains one instruction after the other, each after its own prediction was looked at.
fn check(rt: &impl Abort, alloc: Global, p: PredParams, steps: &[((u32, Flow, u32), u32)]) {
    let mut predictor = new_predictor(rt, alloc, p);
    for ((addr, flow, next), predicted) in steps {
        assert_eq!(rt; predictor.predict(*addr), *predicted);
        predictor.train(*addr, *flow, *next);
    }
}

/// From weakly not taken up to strongly taken, and down to strongly not taken. A place is written
/// by the first taken branch.
#[test]
fn two_bit_counter_goes_through_its_four_states(rt: HostRuntime) {
    let steps = [
        (TAKEN, 0x104),
        (TAKEN, 0x80),
        (TAKEN, 0x80),
        (NOT_TAKEN, 0x80),
        (NOT_TAKEN, 0x80),
        (NOT_TAKEN, 0x104),
        (NOT_TAKEN, 0x104),
        (TAKEN, 0x104),
        (TAKEN, 0x104),
        (TAKEN, 0x80),
    ];
    for kind in [PredKind::Bimodal, PredKind::Gshare] {
        let p = PredParams {
            kind,
            counters: 16,
            history: 0,
            targets: 16,
        };
        check(&rt, rt.alloc(), p, &steps);
    }
}

/// A branch that is taken every second time: once twelve outcomes fill the history, it tells the
/// two cases apart. Each is then met once more before its counter is right.
#[test]
fn gshare_learns_an_alternating_branch(rt: HostRuntime) {
    let p = PredParams {
        kind: PredKind::Gshare,
        counters: 4096,
        history: 12,
        targets: 16,
    };
    let mut predictor = new_predictor(&rt, rt.alloc(), p);
    for turn in 0..40 {
        let taken = turn % 2 == 0;
        let expected = if taken && turn >= 14 { 0x80 } else { 0x104 };
        assert_eq!(rt; predictor.predict(0x100), expected, "in turn {turn}");
        predictor.train(0x100, Flow::Branch, if taken { 0x80 } else { 0x104 });
    }
}

#[test]
fn target_buffer_holds_one_instruction_a_place(rt: HostRuntime) {
    let mut p = PredParams {
        kind: PredKind::Static,
        counters: 1,
        history: 16,
        targets: 4,
    };
    let first = (0x100, Flow::Jump, 0x200);
    let second = (0x110, Flow::Jump, 0x300);
    let last = (0xffff_fffc, Flow::Jump, 0x400);
    let replaced = [
        (first, 0x104),
        (first, 0x200),
        (second, 0x114),
        (first, 0x104),
        (second, 0x114),
        (second, 0x300),
        (TAKEN, 0x104),
        (TAKEN, 0x104),
        (last, 0),
        (last, 0x400),
    ];
    check(&rt, rt.alloc(), p, &replaced);
    p.targets = 0;
    let nothing_kept = [
        (first, 0x104),
        (first, 0x104),
        (TAKEN, 0x104),
        (TAKEN, 0x104),
    ];
    check(&rt, rt.alloc(), p, &nothing_kept);
}

use crate::IrqView;

#[test]
fn the_interrupt_is_due_from_its_cycle_on(rt: HostRuntime) {
    for (on, cmp, cycle, due) in [
        (true, 10, 9, false),
        (true, 10, 10, true),
        (true, 10, 11, true),
        (true, 0, 0, true),
        (true, u64::MAX, 10, false),
        (false, 10, 11, false),
    ] {
        let view = IrqView { on, cmp };
        assert_eq!(rt; view.pending(cycle), due, "{view:?} in cycle {cycle}");
    }
}

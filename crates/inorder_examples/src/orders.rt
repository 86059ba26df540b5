//! The orders of the in-order machine's run, and its split state under a plan of events.
#![tactic(auto, unfolding(crate::proofs::Computing::inorder_computing))]

ghost use Rattle.std.specs.Prelude.{◌≡◌, [], ◌∷◌, ◌++◌, Some, None};
ghost use Rattle.rollback_cmds.specs.declared.order.Order.TheVariants.{Set, Commit, Interrupt};
ghost use Rattle.rollback_cmds.specs.declared.order.Order.TheVariants.{Time, Stop, Sync};
ghost use Rattle.mono_model.specs.Demand.{told};
ghost use Rattle.mono_model.specs.Split.{newest, committed};
ghost use Rattle.worked_examples.specs.Plan.{unanswered, in_turn};
ghost use Rattle.inorder_machine.specs.Cycle.{inorder};
ghost use Rattle.inorder_machine.specs.Demand.{inorder_place, seen, halted};
ghost use Rattle.inorder_machine.specs.Split.{inorder_run};
ghost use Rattle.inorder_examples.specs.Plan.{looping, reading, calling, patching, passing};

/// The interrupt is ordered in cycle 20, in step 135 of the demand run, and the time of the
/// handler's first instruction in cycle 21, in step 146. The orders of the whole run stand with
/// the newest in front.
pub fn orders_of_an_interrupt_in_order()
    ensures before_the_interrupt { newest (told (seen reading 134)) ≡ Some (Set 14 0x80000038) }
    ensures interrupt_ordered { newest (told (seen reading 135)) ≡ Some (Interrupt 10) }
    ensures interrupt_cycle { (inorder_place reading 135).run.demand.machine.cycle ≡ 20 }
    ensures before_the_time { newest (told (seen reading 145)) ≡ Some (Interrupt 10) }
    ensures time_ordered { newest (told (seen reading 146)) ≡ Some (Time 10 21) }
    ensures time_cycle { (inorder_place reading 146).run.demand.machine.cycle ≡ 21 }
    ensures all { told (seen reading 400)
        ≡ Stop 15 ∷ Commit 15 ∷ Set 18 0x8000007c ∷ Commit 14 ∷ Set 17 0x80000078 ∷ Commit 13
        ∷ Set 16 0x80000074 ∷ Commit 12 ∷ Commit 11 ∷ Time 10 21 ∷ Interrupt 10 ∷ Set 14 0x80000038
        ∷ Commit 10 ∷ Set 13 0x80000034 ∷ Set 12 0x80000030 ∷ Set 11 0x8000002c ∷ Commit 9 ∷
        Commit 8
        ∷ Commit 7 ∷ Commit 6 ∷ Commit 5 ∷ Commit 4 ∷ Commit 3 ∷ Commit 2 ∷ Commit 1 ∷ [] }
    ensures halts { (inorder_place reading 400).run.at ≡ halted }
    ensures same_machine { (inorder_place reading 400).run.demand.machine
        ≡ (inorder reading 30).machine }
{}

/// A trap is two orders, Commit and Set to the handler, and FENCE.I is Commit and Sync, each told
/// by a step of its own.
pub fn orders_of_a_trap_and_a_fence_in_order()
    ensures commit_of_the_trap { newest (told (seen calling 63)) ≡ Some (Commit 4) }
    ensures handler { newest (told (seen calling 64)) ≡ Some (Set 4 0x80000010) }
    ensures trap { told (seen calling 400)
        ≡ Stop 8 ∷ Commit 8 ∷ Set 11 0x8000002c ∷ Commit 7 ∷ Set 10 0x80000028 ∷ Commit 6
        ∷ Set 9 0x80000024 ∷ Commit 5 ∷ Set 4 0x80000010 ∷ Commit 4 ∷ Commit 3 ∷ Commit 2 ∷ Commit 1
        ∷ [] }
    ensures commit_of_the_fence { newest (told (seen patching 57)) ≡ Some (Commit 4) }
    ensures sync { newest (told (seen patching 58)) ≡ Some (Sync 4) }
    ensures fence { told (seen patching 400)
        ≡ Stop 9 ∷ Commit 9 ∷ Set 12 0x80000030 ∷ Commit 8 ∷ Set 11 0x8000002c ∷ Commit 7 ∷ Commit 6
        ∷ Commit 5 ∷ Sync 4 ∷ Commit 4 ∷ Commit 3 ∷ Commit 2 ∷ Commit 1 ∷ [] }
{}

/// The misprediction of the loop's branch, number 2, is ordered in Execute, in step 32. Before it
/// the functional side was made to go on behind the branch, as predicted.
pub fn orders_of_a_loop_in_order()
    ensures prediction { newest (told (seen looping 20)) ≡ Some (Set 3 0x8000000c) }
    ensures before { newest (told (seen looping 31)) ≡ Some (Commit 1) }
    ensures misprediction { newest (told (seen looping 32)) ≡ Some (Set 3 0x80000004) }
    ensures cycle { (inorder_place looping 32).run.demand.machine.cycle ≡ 4 }
{}

/// Where no order is obeyed, the timing side drops the entries of the older epoch, and stands in
/// the cycle in which it needs one of the newer.
pub fn entries_of_an_older_epoch_are_dropped_in_order()
    ensures all_dropped { (inorder_run looping (unanswered 200)).split.entries ≡ [] }
    ensures none_held { (inorder_run looping (unanswered 200)).split.held ≡ None }
    ensures orders_wait { (inorder_run looping (unanswered 200)).split.listed_orders
        ≡ Set 3 0x8000000c ∷ [] }
    ensures stands_in_cycle { (inorder_run looping (unanswered 200)).place.run.demand.machine.cycle
        ≡ 3 }
{}

/// Each side in turn, the split runs to its end: all orders are obeyed, and what is committed is
/// the state of the machine after as many cycles.
pub fn split_runs_in_order_to_its_end()
    ensures halts { (inorder_run passing (in_turn 140)).place.run.at ≡ halted }
    ensures obeyed { (inorder_run passing (in_turn 140)).split.obeyed
        ≡ Stop 4 ∷ Commit 4 ∷ Set 7 0x8000001c ∷ Commit 3 ∷ Set 6 0x80000018 ∷ Commit 2
        ∷ Set 5 0x80000014 ∷ Commit 1 ∷ [] }
    ensures cycle { (inorder_run passing (in_turn 140)).place.run.demand.machine.cycle ≡ 8 }
    ensures value { (committed passing (inorder_run passing (in_turn 140)).split).regs 6 ≡ 0x5555 }
    ensures address { (committed passing (inorder_run passing (in_turn 140)).split).pc
        ≡ 0x80000010 }
{}

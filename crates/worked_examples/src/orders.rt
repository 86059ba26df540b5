//! The orders of a run, and the split machine under a plan of events.
#![tactic(auto, unfolding(crate::proofs::Computing::computing))]

ghost use Rattle.std.specs.Prelude.{◌≡◌, [], ◌∷◌, true, false, Some, None};
ghost use Rattle.machine_csr.specs.Csr.{opening_csrs};
ghost use Rattle.rollback_cmds.specs.declared.order.Order.TheVariants.{Set, Commit, Interrupt};
ghost use Rattle.rollback_cmds.specs.declared.order.Order.TheVariants.{Time, Stop, Sync};
ghost use Rattle.mono_model.specs.declared.final_state.End.TheVariants.{Running};
ghost use Rattle.mono_model.specs.Final.{final_of};
ghost use Rattle.mono_model.specs.Machine.{stats_of};
ghost use Rattle.mono_model.specs.Cycle.{mono};
ghost use Rattle.mono_model.specs.Path.{path, entry, time_of};
ghost use Rattle.mono_model.specs.Demand.{place, told, halted};
ghost use Rattle.mono_model.specs.Split.{run, to_boundary, committed, reach, newest};
ghost use Rattle.worked_examples.specs.Setups.{no_stats, registers, never};
ghost use Rattle.worked_examples.specs.Plan.{reading, looping, counting, calling, patching};
ghost use Rattle.worked_examples.specs.Plan.{missing, in_turn, name_held, thirteen_entries};
ghost use Rattle.worked_examples.specs.Plan.{unanswered, names_of};

/// The interrupt is ordered in cycle 16, in step 97 of the demand run, and the time of the
/// handler's first instruction in cycle 17, in step 106. The orders of the whole run stand with the
/// newest in front, and its machine is the monolithic one.
pub fn orders_of_the_interrupt()
    ensures before_the_interrupt { newest (told (place reading 96)) ≡ Some (Commit 10) }
    ensures interrupt_ordered { newest (told (place reading 97)) ≡ Some (Interrupt 10) }
    ensures interrupt_cycle { (place reading 97).run.demand.machine.cycle ≡ 16 }
    ensures before_the_time { newest (told (place reading 105)) ≡ Some (Interrupt 10) }
    ensures time_ordered { newest (told (place reading 106)) ≡ Some (Time 10 17) }
    ensures time_cycle { (place reading 106).run.demand.machine.cycle ≡ 17 }
    ensures all { told (place reading 400)
        ≡ Stop 15 ∷ Commit 15 ∷ Set 17 0x80000078 ∷ Commit 14 ∷ Set 16 0x80000074 ∷ Commit 13 ∷
        Commit 12 ∷ Commit 11
        ∷ Time 10 17 ∷ Interrupt 10 ∷ Commit 10 ∷ Set 15 0x8000003c ∷ Set 14 0x80000038
        ∷ Commit 9 ∷ Set 13 0x80000034 ∷ Set 12 0x80000030 ∷ Commit 8 ∷ Set 11 0x8000002c
        ∷ Commit 7 ∷ Commit 6 ∷ Commit 5 ∷ Commit 4 ∷ Commit 3
        ∷ Commit 2 ∷ Commit 1 ∷ [] }
    ensures halts { (place reading 400).run.at ≡ halted }
    ensures same_machine { (place reading 400).run.demand.machine ≡ mono reading 25 }
{}

/// A trap at commit is two orders, Commit and Set to the handler, also where fetch was at the
/// handler already. FENCE.I is Commit and Sync. Each time read is given its cycle once.
pub fn orders_of_a_trap_a_fence_and_time_reads()
    ensures trap { told (place calling 400)
        ≡ Stop 8 ∷ Commit 8 ∷ Set 10 0x80000028 ∷ Commit 7 ∷ Set 9 0x80000024 ∷ Commit 6 ∷ Commit 5
        ∷ Set 4 0x80000010
        ∷ Commit 4 ∷ Commit 3 ∷ Commit 2 ∷ Commit 1 ∷ [] }
    ensures fence { told (place patching 400)
        ≡ Stop 9 ∷ Commit 9 ∷ Set 11 0x8000002c ∷ Commit 8 ∷ Commit 7 ∷ Commit 6 ∷ Commit 5 ∷ Sync 4
        ∷ Commit 4
        ∷ Commit 3 ∷ Commit 2 ∷ Commit 1 ∷ [] }
    ensures time_reads { told (place counting 400)
        ≡ Stop 6 ∷ Commit 6 ∷ Set 8 0x80000020 ∷ Commit 5 ∷ Set 7 0x8000001c ∷ Commit 4 ∷ Commit 3 ∷
        Commit 2
        ∷ Time 1 4 ∷ Commit 1 ∷ Time 0 1 ∷ [] }
{}

/// Set, Interrupt, Time and Sync change the path from their number on and nothing below it; Commit
/// and Stop change nothing.
pub fn orders_bend_the_path()
    ensures loop_without_orders { (path looping [] 3).pc ≡ 0x80000004 }
    ensures set_goes_elsewhere { (path looping (Set 3 0x8000000c ∷ []) 3).pc ≡ 0x8000000c }
    ensures below_a_set { (path looping (Set 3 0x8000000c ∷ []) 2).pc ≡ 0x80000008 }
    ensures behind_a_set { (path looping (Set 3 0x8000000c ∷ []) 5).regs 6 ≡ 0x100000 }
    ensures commit_and_stop { (path looping (Stop 2 ∷ Commit 1 ∷ []) 3).pc ≡ 0x80000004 }
    ensures interrupt_enters { (path reading (Interrupt 10 ∷ []) 10).pc ≡ 0x8000005c }
    ensures interrupt_returns_to { (path reading (Interrupt 10 ∷ []) 10).csrs.mepc ≡ 0x80000028 }
    ensures below_an_interrupt { (path reading (Interrupt 10 ∷ []) 9).pc ≡ 0x80000024 }
    ensures no_time { (entry counting [] 0).unserved ≡ true }
    ensures time_serves { (entry counting (Time 0 1 ∷ []) 0).unserved ≡ false }
    ensures time_serves_one { (entry counting (Time 0 1 ∷ []) 1).unserved ≡ true }
    ensures interrupt_takes_times { time_of (Interrupt 0 ∷ Time 0 1 ∷ []) 0 ≡ None }
    ensures first_time { (path counting (Time 1 4 ∷ Time 0 1 ∷ []) 2).regs 5 ≡ 1 }
    ensures second_time { (path counting (Time 1 4 ∷ Time 0 1 ∷ []) 2).regs 6 ≡ 4 }
    ensures before_the_sync { (entry patching [] 4).word ≡ 0x00100513 }
    ensures behind_the_sync { (entry patching (Sync 4 ∷ []) 4).word ≡ 0x00200513 }
    ensures epoch_of_the_sync { (entry patching (Sync 4 ∷ []) 4).epoch ≡ 1 }
    ensures below_the_sync { (entry patching (Sync 4 ∷ []) 3).word ≡ 0x0000100f }
{}

/// The functional side makes thirteen entries along the path that it knows; the timing side takes
/// three, and orders that instruction 3 stands where it predicted. The other ten are of an older
/// epoch, and it drops them one by one. Once the order is obeyed, the next boundary is the start of
/// cycle 4.
pub fn entries_of_an_older_epoch_are_dropped()
    ensures made { names_of (run looping thirteen_entries).entries
        ≡ (0, 0) ∷ (1, 0) ∷ (2, 0) ∷ (3, 0) ∷ (4, 0) ∷ (5, 0) ∷ (6, 0) ∷ (7, 0) ∷ (8, 0) ∷ (9, 0) ∷
        (10, 0) ∷ (11, 0) ∷ (12, 0) ∷ [] }
    ensures opened { told (run looping (unanswered 17)).place ≡ Set 3 0x8000000c ∷ [] }
    ensures before_the_drops { names_of (run looping (unanswered 22)).entries
        ≡ (3, 0) ∷ (4, 0) ∷ (5, 0) ∷ (6, 0) ∷ (7, 0) ∷ (8, 0) ∷ (9, 0) ∷ (10, 0) ∷ (11, 0) ∷ (12, 0)
        ∷ [] }
    ensures first_drop { names_of (run looping (unanswered 23)).entries
        ≡ (4, 0) ∷ (5, 0) ∷ (6, 0) ∷ (7, 0) ∷ (8, 0) ∷ (9, 0) ∷ (10, 0) ∷ (11, 0) ∷ (12, 0) ∷ [] }
    ensures last_is_left { names_of (run looping (unanswered 31)).entries ≡ (12, 0) ∷ [] }
    ensures all_dropped { (run looping (unanswered 32)).entries ≡ [] }
    ensures none_held { (run looping (unanswered 200)).held ≡ None }
    ensures orders_wait { (run looping (unanswered 200)).listed_orders
        ≡ Set 3 0x8000000c ∷ Commit 1 ∷ [] }
    ensures stands_in_cycle { (run looping (unanswered 200)).place.run.demand.machine.cycle ≡ 3 }
    ensures reaches { reach looping (unanswered 200) ≡ 4 }
    ensures obeyed { (to_boundary looping (run looping (unanswered 200))).obeyed
        ≡ Commit 1 ∷ Set 3 0x8000000c ∷ [] }
    ensures boundary_report { let x = to_boundary looping (run looping (unanswered 200)) in
        final_of Running (stats_of looping x.place.run.demand.machine) (committed looping x)
        ≡ record {
          end = Running;
          stats = record no_stats { cycles = 4; instructions = 1; fetched = 4 };
          pc = 0x80000004;
          regs = registers ((5, 10) ∷ []);
          csrs = record opening_csrs { retired = 1 };
          cmp = never;
        } }
{}

/// An entry that a missing try of fetch keeps is dropped by the order of a misprediction.
pub fn held_entry_is_dropped_by_an_order()
    ensures held { name_held (run missing (in_turn 133)).held ≡ Some (4, 1) }
    ensures ordered { newest (told (run missing (in_turn 134)).place) ≡ Some (Set 4 0x80000004) }
    ensures dropped { (run missing (in_turn 134)).held ≡ None }
{}

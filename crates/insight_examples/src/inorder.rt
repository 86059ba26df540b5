//! What the cycles of small runs were spent on in five stages.
#![tactic(auto, unfolding(crate::proofs::Computing::insight_computing))]

ghost use Rattle.std.specs.Prelude.{◌≡◌, [], ◌∷◌, None};
ghost use Rattle.worked_examples.specs.Setups.{code_image, data_image, setup_of};
ghost use Rattle.worked_examples.specs.Machines.{wide_machine};
ghost use Rattle.worked_examples.specs.Pipeline.{smallest_pass, backward_branch_loop};
ghost use Rattle.worked_examples.specs.Memory.{load_on_a_wrong_path};
ghost use Rattle.worked_examples.specs.Traps.{speculative_misaligned_jump};
ghost use Rattle.worked_examples.specs.Time.{timer_interrupt_between};
ghost use Rattle.worked_examples.specs.Devices.{uart_driver};
ghost use Rattle.inorder_examples.specs.Machines.{in_order_machine, one_line_cache_in_order};
ghost use Rattle.insight_model.specs.declared.pipeline.Pipeline.TheVariants.{Inorder};
ghost use Rattle.insight_model.specs.declared.cycle_cause.CycleCause.TheVariants as cause;
ghost use Rattle.insight_model.specs.declared.fetch_end.FetchEnd.TheVariants as fetch;
ghost use Rattle.insight_examples.specs.Reading.{reading};

/// Write has its first record in the fifth cycle.
pub fn smallest_pass_in_order()
    ensures stack { reading Inorder (setup_of (code_image smallest_pass) in_order_machine)
        ≡ record {
          cycles = 8;
          spent = (cause.Commit, 4) ∷ (cause.Start, 4) ∷ [];
          fetch = (fetch.Width, 7) ∷ (fetch.Ended, 1) ∷ [];
          left = 4 ∷ 4 ∷ [];
          occupied = 22;
          waiting = None;
        } }
{}

/// Each branch that goes back costs a cycle.
pub fn loop_in_order()
    ensures stack { reading Inorder (setup_of (code_image backward_branch_loop) in_order_machine)
        ≡ record {
          cycles = 38;
          spent = (cause.Commit, 25) ∷ (cause.Mispredict, 9) ∷ (cause.Start, 4) ∷ [];
          fetch = (fetch.Width, 37) ∷ (fetch.Ended, 1) ∷ [];
          left = 13 ∷ 25 ∷ [];
          occupied = 115;
          waiting = None;
        } }
{}

/// The load on the wrong path is never made, so that the second load hits.
pub fn loads_that_miss_in_order()
    ensures stack { reading Inorder
        (setup_of (code_image load_on_a_wrong_path) one_line_cache_in_order)
        ≡ record {
          cycles = 24;
          spent = (cause.Commit, 8) ∷ (cause.Operand, 1) ∷ (cause.Dcache, 10) ∷
              (cause.Mispredict, 1) ∷ (cause.Start, 4) ∷ [];
          fetch = (fetch.Width, 12) ∷ (fetch.Window, 11) ∷ (fetch.Ended, 1) ∷ [];
          left = 16 ∷ 8 ∷ [];
          occupied = 60;
          waiting = None;
        } }
{}

/// The interrupt empties all stages.
pub fn interrupt_in_order()
    ensures stack { reading Inorder (setup_of (code_image timer_interrupt_between) in_order_machine)
        ≡ record {
          cycles = 37;
          spent = (cause.Commit, 18) ∷ (cause.Serial, 9) ∷ (cause.Mispredict, 1) ∷
              (cause.Interrupt, 4) ∷ (cause.Replay, 1) ∷ (cause.Start, 4) ∷ [];
          fetch = (fetch.Width, 25) ∷ (fetch.Window, 11) ∷ (fetch.Ended, 1) ∷ [];
          left = 19 ∷ 18 ∷ [];
          occupied = 93;
          waiting = None;
        } }
{}

/// The same driver in five stages, with both caches.
pub fn console_driver_in_order()
    ensures stack { reading Inorder
        (setup_of
        (data_image uart_driver 0x80001000 16 (0xa6948 ∷ [])) wide_machine)
        ≡ record {
          cycles = 132;
          spent = (cause.Commit, 39) ∷ (cause.Load, 4) ∷ (cause.Store, 8) ∷ (cause.Device, 9) ∷
              (cause.Operand, 7) ∷ (cause.Dcache, 20) ∷ (cause.Icache, 39) ∷
              (cause.Mispredict, 2) ∷ (cause.Start, 4) ∷ [];
          fetch = (fetch.Width, 44) ∷ (fetch.Window, 47) ∷ (fetch.Icache, 40) ∷
              (fetch.Ended, 1) ∷ [];
          left = 93 ∷ 39 ∷ [];
          occupied = 254;
          waiting = None;
        } }
{}

/// The trap empties the stages before Write.
pub fn trap_in_order()
    ensures stack { reading Inorder
        (setup_of (code_image speculative_misaligned_jump) in_order_machine)
        ≡ record {
          cycles = 21;
          spent = (cause.Commit, 10) ∷ (cause.Serial, 4) ∷ (cause.Trap, 3) ∷ (cause.Start, 4) ∷ [];
          fetch = (fetch.Width, 14) ∷ (fetch.Window, 6) ∷ (fetch.Ended, 1) ∷ [];
          left = 11 ∷ 10 ∷ [];
          occupied = 53;
          waiting = None;
        } }
{}

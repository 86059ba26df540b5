//! Faults and their handlers.
#![tactic(auto, unfolding(crate::proofs::Computing::computing))]

ghost use Rattle.std.specs.Prelude.{◌≡◌, [], ◌∷◌, true};
ghost use Rattle.machine_csr.specs.Csr.{opening_csrs};
ghost use Rattle.mono_model.specs.declared.final_state.End.TheVariants.{Pass, Limit, Running};
ghost use Rattle.mono_model.specs.Cycle.{mono, final};
ghost use Rattle.worked_examples.specs.Setups.{code_image, plain_machine, setup_of, no_stats};
ghost use Rattle.worked_examples.specs.Setups.{registers, never};
ghost use Rattle.worked_examples.specs.Machines.{window_of_eight, bimodal_window_of_eight};
ghost use Rattle.worked_examples.specs.Machines.{wide_commit_behind_division};
ghost use Rattle.worked_examples.specs.Machines.{small_instruction_cache, two_dividers};
ghost use Rattle.worked_examples.specs.Traps.{speculative_misaligned_jump, environment_call};
ghost use Rattle.worked_examples.specs.Traps.{trap_storm, call_behind_a_division};
ghost use Rattle.worked_examples.specs.Traps.{jump_to_a_misaligned_address};
ghost use Rattle.worked_examples.specs.Traps.{jump_whose_target_turns_bad, jump_to_the_console};
ghost use Rattle.worked_examples.specs.Traps.{store_outside_memory, breakpoint_and_return};

/// What depends on a load with a fault never issues, and the fault is taken at commit.
pub fn jump_through_a_value_that_never_comes()
    ensures ends { final (setup_of (code_image speculative_misaligned_jump) window_of_eight) 17
        ≡ record {
          end = Pass;
          stats = record no_stats {
            cycles = 17;
            instructions = 9;
            exceptions = 1;
            fetched = 16;
            squashed = 3;
          };
          pc = 0x80000038;
          regs = registers ((5, 0x80000020) ∷ (6, 0x100000) ∷ (7, 0x5555) ∷ (9, 5) ∷ (10, 16) ∷ []);
          csrs = record opening_csrs {
            mtvec = 0x80000020;
            mepc = 0x8000000c;
            mcause = 5;
            mtval = 16;
            retired = 9;
          };
          cmp = never;
        } }
    ensures not_before { (mono (setup_of (code_image speculative_misaligned_jump) window_of_eight)
        16).end
        ≡ Running }
{}

/// The handler reads the cause and the address.
pub fn load_fault_on_the_plain_machine()
    ensures ends { final (setup_of (code_image speculative_misaligned_jump) plain_machine) 31
        ≡ record {
          end = Pass;
          stats = record no_stats { cycles = 31; instructions = 9; exceptions = 1; fetched = 10 };
          pc = 0x80000038;
          regs = registers ((5, 0x80000020) ∷ (6, 0x100000) ∷ (7, 0x5555) ∷ (9, 5) ∷ (10, 16) ∷ []);
          csrs = record opening_csrs {
            mtvec = 0x80000020;
            mepc = 0x8000000c;
            mcause = 5;
            mtval = 16;
            retired = 9;
          };
          cmp = never;
        } }
    ensures not_before { (mono (setup_of (code_image speculative_misaligned_jump) plain_machine)
        30).end
        ≡ Running }
{}

/// The handler stands behind the call, where fetch was already: its records are flushed all the
/// same.
pub fn environment_call_in_a_window_of_eight()
    ensures ends { final (setup_of (code_image environment_call) window_of_eight) 14 ≡ record {
      end = Pass;
      stats = record no_stats {
        cycles = 14;
        instructions = 7;
        exceptions = 1;
        fetched = 13;
        squashed = 3;
      };
      pc = 0x80000020;
      regs = registers ((5, 0x80000010) ∷ (6, 0x100000) ∷ (7, 0x5555) ∷ []);
      csrs = record opening_csrs {
        mtvec = 0x80000010;
        mepc = 0x8000000c;
        mcause = 11;
        retired = 7;
      };
      cmp = never;
    } }
    ensures not_before { (mono (setup_of (code_image environment_call) window_of_eight) 13).end
        ≡ Running }
{}

/// Nothing is flushed where the window holds one record.
pub fn environment_call_on_the_plain_machine()
    ensures ends { final (setup_of (code_image environment_call) plain_machine) 25 ≡ record {
      end = Pass;
      stats = record no_stats { cycles = 25; instructions = 7; exceptions = 1; fetched = 8 };
      pc = 0x80000020;
      regs = registers ((5, 0x80000010) ∷ (6, 0x100000) ∷ (7, 0x5555) ∷ []);
      csrs = record opening_csrs {
        mtvec = 0x80000010;
        mepc = 0x8000000c;
        mcause = 11;
        retired = 7;
      };
      cmp = never;
    } }
    ensures not_before { (mono (setup_of (code_image environment_call) plain_machine) 24).end
        ≡ Running }
{}

/// Each trap goes to address 0, where nothing can be fetched.
pub fn trap_storm_takes_three_cycles_a_trap()
    ensures ends { final (record (setup_of (code_image trap_storm) plain_machine) { cycles = 31 })
        31
        ≡ record {
          end = Limit;
          stats = record no_stats { cycles = 31; exceptions = 10; fetched = 11 };
          pc = 0;
          regs = registers [];
          csrs = record opening_csrs { mcause = 1 };
          cmp = never;
        } }
    ensures not_before { (mono (record (setup_of (code_image trap_storm) plain_machine)
        { cycles = 31 }) 30).end
        ≡ Running }
{}

/// The division, both additions and the fault leave in one cycle.
pub fn fault_leaves_with_the_records_before_it()
    ensures ends { final (setup_of (code_image call_behind_a_division) wide_commit_behind_division)
        36
        ≡ record {
          end = Pass;
          stats = record no_stats {
            cycles = 36;
            instructions = 13;
            exceptions = 1;
            fetched = 28;
            squashed = 12;
          };
          pc = 0x80000040;
          regs = registers ((5, 0x8000002c) ∷ (6, 0x100000) ∷ (7, 0x5555) ∷ (8, 50) ∷ (9, 7) ∷
              (10, 7) ∷ (11, 1) ∷ (12, 2) ∷ (15, 0x80000020) ∷ []);
          csrs = record opening_csrs {
            mtvec = 0x8000002c;
            mepc = 0x80000020;
            mcause = 11;
            retired = 13;
          };
          cmp = never;
        } }
    ensures not_before { (mono (setup_of (code_image call_behind_a_division)
        wide_commit_behind_division) 35).end
        ≡ Running }
{}

/// With four a cycle the fault leaves with the three before it.
pub fn commit_width_is_for_faults_too()
    ensures ends { final (setup_of (code_image call_behind_a_division) two_dividers) 31 ≡ record {
      end = Pass;
      stats = record no_stats {
        cycles = 31;
        instructions = 13;
        exceptions = 1;
        fetched = 41;
        squashed = 12;
      };
      pc = 0x80000040;
      regs = registers ((5, 0x8000002c) ∷ (6, 0x100000) ∷ (7, 0x5555) ∷ (8, 50) ∷ (9, 7) ∷
          (10, 7) ∷ (11, 1) ∷ (12, 2) ∷ (15, 0x80000020) ∷ []);
      csrs = record opening_csrs {
        mtvec = 0x8000002c;
        mepc = 0x80000020;
        mcause = 11;
        retired = 13;
      };
      cmp = never;
    } }
    ensures not_before { (mono (setup_of (code_image call_behind_a_division) two_dividers) 30).end
        ≡ Running }
{}

/// The fault is the jump's own: mepc is its address, mtval the target, and x1 stays.
pub fn misaligned_target_faults_at_the_jump()
    ensures ends { final (setup_of (code_image jump_to_a_misaligned_address) window_of_eight) 21
        ≡ record {
          end = Pass;
          stats = record no_stats {
            cycles = 21;
            instructions = 12;
            exceptions = 1;
            fetched = 20;
            squashed = 3;
          };
          pc = 0x80000038;
          regs = registers ((5, 0x8000001c) ∷ (6, 0x100000) ∷ (7, 0x5555) ∷ (8, 0x80000042) ∷
              (10, 0x80000014) ∷ (11, 0x80000042) ∷ []);
          csrs = record opening_csrs {
            mtvec = 0x8000001c;
            mepc = 0x80000014;
            mtval = 0x80000042;
            retired = 12;
          };
          cmp = never;
        } }
    ensures not_before { (mono (setup_of (code_image jump_to_a_misaligned_address) window_of_eight)
        20).end
        ≡ Running }
{}

/// A record with a fault is never counted as mispredicted, though fetch went to the target of the
/// first time.
pub fn fault_is_no_misprediction()
    ensures ends { final (setup_of (code_image jump_whose_target_turns_bad) bimodal_window_of_eight)
        22
        ≡ record {
          end = Pass;
          stats = record no_stats {
            cycles = 22;
            instructions = 13;
            exceptions = 1;
            fetched = 21;
            squashed = 5;
            branches = 2;
            mispredicted = 2;
          };
          pc = 0x80000038;
          regs = registers ((5, 0x80000024) ∷ (6, 0x100000) ∷ (7, 0x5555) ∷ (8, 0x8000001e) ∷
              (10, 0x80000014) ∷ []);
          csrs = record opening_csrs {
            mtvec = 0x80000024;
            mepc = 0x80000014;
            mtval = 0x8000001e;
            retired = 13;
          };
          cmp = never;
        } }
    ensures not_before { (mono (setup_of (code_image jump_whose_target_turns_bad)
        bimodal_window_of_eight) 21).end
        ≡ Running }
{}

/// What stands there is no part of an executable segment; its record is fetched, and no cache is
/// accessed for it.
pub fn fetch_without_text_faults()
    ensures ends { final (setup_of (code_image jump_to_the_console) small_instruction_cache) 99
        ≡ record {
          end = Pass;
          stats = record no_stats {
            cycles = 99;
            instructions = 12;
            exceptions = 1;
            fetched = 18;
            squashed = 3;
            branches = 1;
            mispredicted = 1;
            icache_accesses = 13;
            icache_misses = 4;
          };
          pc = 0x80000034;
          regs = registers ((1, 0x80000014) ∷ (5, 0x80000018) ∷ (6, 0x100000) ∷ (7, 0x5555) ∷
              (8, 0x10000000) ∷ (9, 1) ∷ (10, 0x10000000) ∷ (11, 0x10000000) ∷ []);
          csrs = record opening_csrs {
            mtvec = 0x80000018;
            mepc = 0x10000000;
            mcause = 1;
            mtval = 0x10000000;
            retired = 12;
          };
          cmp = never;
        } }
    ensures not_before { (mono (setup_of (code_image jump_to_the_console) small_instruction_cache)
        98).end
        ≡ Running }
{}

/// What is behind a store with a fault is flushed, and the store is never made.
pub fn store_fault_flushes_what_is_behind()
    ensures ends { final (setup_of (code_image store_outside_memory) window_of_eight) 21 ≡ record {
      end = Pass;
      stats = record no_stats {
        cycles = 21;
        instructions = 12;
        exceptions = 1;
        fetched = 20;
        squashed = 3;
      };
      pc = 0x8000003c;
      regs = registers ((5, 0x80000020) ∷ (6, 0x100000) ∷ (7, 0x5555) ∷ (8, 64) ∷
          (10, 0x34202673) ∷ (12, 7) ∷ (13, 64) ∷ (14, 7) ∷ []);
      csrs = record opening_csrs {
        mtvec = 0x80000020;
        mepc = 0x80000014;
        mcause = 7;
        mtval = 64;
        retired = 12;
      };
      cmp = never;
    } }
    ensures not_before { (mono (setup_of (code_image store_outside_memory) window_of_eight) 20).end
        ≡ Running }
{}

/// MRET goes to mepc as the handler wrote it.
pub fn handler_returns_behind_the_breakpoint()
    ensures ends { final (setup_of (code_image breakpoint_and_return) window_of_eight) 23 ≡ record {
      end = Pass;
      stats = record no_stats {
        cycles = 23;
        instructions = 13;
        exceptions = 1;
        fetched = 22;
        squashed = 6;
        branches = 1;
        mispredicted = 1;
      };
      pc = 0x80000028;
      regs = registers ((5, 0x80000028) ∷ (6, 0x100000) ∷ (7, 0x5555) ∷ (8, 3) ∷
          (9, 0x80000014) ∷ []);
      csrs = record opening_csrs {
        mpie = true;
        mtvec = 0x80000028;
        mepc = 0x80000014;
        mcause = 3;
        retired = 13;
      };
      cmp = never;
    } }
    ensures not_before { (mono (setup_of (code_image breakpoint_and_return) window_of_eight) 22).end
        ≡ Running }
{}

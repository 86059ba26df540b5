//! Reads of the time, and the timer interrupt.
#![tactic(auto, unfolding(crate::proofs::Computing::computing))]

ghost use Rattle.std.specs.Prelude.{◌≡◌, [], ◌∷◌, true};
ghost use Rattle.machine_csr.specs.Csr.{opening_csrs};
ghost use Rattle.mono_model.specs.declared.final_state.End.TheVariants.{Pass, Running};
ghost use Rattle.mono_model.specs.Cycle.{mono, final};
ghost use Rattle.worked_examples.specs.Setups.{code_image, plain_machine, setup_of, no_stats};
ghost use Rattle.worked_examples.specs.Setups.{registers, never};
ghost use Rattle.worked_examples.specs.Machines.{window_of_eight, bimodal_window_of_eight};
ghost use Rattle.worked_examples.specs.Machines.{four_wide_window_of_sixteen};
ghost use Rattle.worked_examples.specs.Machines.{one_word_instruction_cache};
ghost use Rattle.worked_examples.specs.Time.{cycle_counter_twice, timer_interrupt_between};
ghost use Rattle.worked_examples.specs.Time.{vectored_interrupt_reads_time};
ghost use Rattle.worked_examples.specs.Time.{interrupt_between_replay_and_fetch};
ghost use Rattle.worked_examples.specs.Time.{interrupt_at_the_replay, cycle_counter_written};
ghost use Rattle.worked_examples.specs.Time.{time_read_on_a_wrong_path, compare_registers};
ghost use Rattle.worked_examples.specs.Time.{interrupt_storm};

/// Each read of mcycle is sent back to fetch, and reads the cycle in which it was.
pub fn time_reads_are_replayed()
    ensures ends { final (setup_of (code_image cycle_counter_twice) window_of_eight) 12 ≡ record {
      end = Pass;
      stats = record no_stats {
        cycles = 12;
        instructions = 6;
        replays = 2;
        fetched = 11;
        squashed = 3;
      };
      pc = 0x80000018;
      regs = registers ((5, 1) ∷ (6, 4) ∷ (8, 0x100000) ∷ (9, 0x5555) ∷ []);
      csrs = record opening_csrs { retired = 6 };
      cmp = never;
    } }
    ensures not_before { (mono (setup_of (code_image cycle_counter_twice) window_of_eight) 11).end
        ≡ Running }
{}

/// The interrupt is taken in the cycle in which mtimecmp is reached, and MRET goes back to the
/// instruction not committed.
pub fn timer_interrupt_flushes()
    ensures ends { final (setup_of (code_image timer_interrupt_between) window_of_eight) 30
        ≡ record {
          end = Pass;
          stats = record no_stats {
            cycles = 30;
            instructions = 18;
            interrupts = 1;
            replays = 2;
            fetched = 29;
            squashed = 9;
            branches = 1;
            mispredicted = 1;
          };
          pc = 0x8000003c;
          regs = registers ((5, 0x80000040) ∷ (6, 0x100000) ∷ (7, 0x5555) ∷ (8, 0x2004000) ∷
              (9, 16) ∷ (10, 128) ∷ (11, 22) ∷ (12, 0xffffffff) ∷ []);
          csrs = record opening_csrs {
            mie = true;
            mpie = true;
            mtie = true;
            mtvec = 0x80000040;
            mepc = 0x80000028;
            mcause = 0x80000007;
            retired = 18;
          };
          cmp = 0xffffffff00000010;
        } }
    ensures not_before { (mono (setup_of (code_image timer_interrupt_between) window_of_eight)
        29).end
        ≡ Running }
{}

/// The interrupt goes to entry 7 of the table, whose instruction is replayed with its time.
pub fn vectored_interrupt_then_time_read()
    ensures ends { final (setup_of (code_image vectored_interrupt_reads_time) window_of_eight) 25
        ≡ record {
          end = Pass;
          stats = record no_stats {
            cycles = 25;
            instructions = 15;
            interrupts = 1;
            replays = 1;
            fetched = 24;
            squashed = 7;
          };
          pc = 0x80000070;
          regs = registers ((5, 0x80000041) ∷ (6, 0x100000) ∷ (7, 0x5555) ∷ (8, 0x2004000) ∷
              (10, 128) ∷ (12, 17) ∷ (13, 0x200c000) ∷ []);
          csrs = record opening_csrs {
            mpie = true;
            mtie = true;
            mtvec = 0x80000041;
            mepc = 0x80000028;
            mcause = 0x80000007;
            retired = 15;
          };
          cmp = 0;
        } }
    ensures not_before { (mono (setup_of (code_image vectored_interrupt_reads_time) window_of_eight)
        24).end
        ≡ Running }
{}

/// The read is sent back in cycle 56 and waits for its word when the interrupt comes: the first
/// record of the handler is given no time.
pub fn interrupt_takes_the_time_away()
    ensures ends { final (setup_of (code_image interrupt_between_replay_and_fetch)
        one_word_instruction_cache) 94
        ≡ record {
          end = Pass;
          stats = record no_stats {
            cycles = 94;
            instructions = 15;
            interrupts = 1;
            replays = 2;
            fetched = 22;
            squashed = 2;
            icache_accesses = 20;
            icache_misses = 20;
          };
          pc = 0x80000044;
          regs = registers ((5, 0x80000030) ∷ (6, 0x100000) ∷ (7, 0x5555) ∷ (8, 0x2004000) ∷
              (9, 59) ∷ (10, 128) ∷ (13, 65) ∷ []);
          csrs = record opening_csrs {
            mpie = true;
            mtie = true;
            mtvec = 0x80000030;
            mepc = 0x80000028;
            mcause = 0x80000007;
            retired = 15;
          };
          cmp = 59;
        } }
    ensures not_before { (mono (setup_of (code_image interrupt_between_replay_and_fetch)
        one_word_instruction_cache) 93).end
        ≡ Running }
{}

/// In the cycle in which the read would be sent back the interrupt is taken first.
pub fn interrupt_comes_before_the_replay()
    ensures ends { final (setup_of (code_image interrupt_at_the_replay) one_word_instruction_cache)
        91
        ≡ record {
          end = Pass;
          stats = record no_stats {
            cycles = 91;
            instructions = 15;
            interrupts = 1;
            replays = 1;
            fetched = 22;
            squashed = 2;
            icache_accesses = 19;
            icache_misses = 19;
          };
          pc = 0x80000044;
          regs = registers ((5, 0x80000030) ∷ (6, 0x100000) ∷ (7, 0x5555) ∷ (8, 0x2004000) ∷
              (9, 56) ∷ (10, 128) ∷ (13, 62) ∷ []);
          csrs = record opening_csrs {
            mpie = true;
            mtie = true;
            mtvec = 0x80000030;
            mepc = 0x80000028;
            mcause = 0x80000007;
            retired = 15;
          };
          cmp = 56;
        } }
    ensures not_before { (mono (setup_of (code_image interrupt_at_the_replay)
        one_word_instruction_cache) 90).end
        ≡ Running }
{}

/// CSRRW and CSRRWI with rd = x0 read nothing, so they are not replayed; the time is not changed by
/// a write.
pub fn swap_without_a_destination_reads_no_time()
    ensures ends { final (setup_of (code_image cycle_counter_written) window_of_eight) 17 ≡ record {
      end = Pass;
      stats = record no_stats {
        cycles = 17;
        instructions = 9;
        replays = 1;
        fetched = 16;
        squashed = 5;
      };
      pc = 0x80000024;
      regs = registers ((5, 7) ∷ (6, 0x100000) ∷ (7, 0x5555) ∷ (8, 3) ∷ (9, 9) ∷ []);
      csrs = record opening_csrs { retired = 9 };
      cmp = never;
    } }
    ensures not_before { (mono (setup_of (code_image cycle_counter_written) window_of_eight) 16).end
        ≡ Running }
{}

/// Only the oldest record is sent back.
pub fn time_read_on_a_wrong_path_is_not_replayed()
    ensures ends { final (setup_of (code_image time_read_on_a_wrong_path) window_of_eight) 16
        ≡ record {
          end = Pass;
          stats = record no_stats {
            cycles = 16;
            instructions = 9;
            replays = 2;
            fetched = 15;
            squashed = 4;
            branches = 1;
            mispredicted = 1;
          };
          pc = 0x8000002c;
          regs = registers ((6, 0x100000) ∷ (7, 0x5555) ∷ (8, 0x200c000) ∷ (9, 1) ∷ (12, 5) ∷ []);
          csrs = record opening_csrs { retired = 9 };
          cmp = never;
        } }
    ensures not_before { (mono (setup_of (code_image time_read_on_a_wrong_path) window_of_eight)
        15).end
        ≡ Running }
{}

/// A replay costs the fetch again.
pub fn time_reads_on_the_plain_machine()
    ensures ends { final (setup_of (code_image time_read_on_a_wrong_path) plain_machine) 30
        ≡ record {
          end = Pass;
          stats = record no_stats {
            cycles = 30;
            instructions = 9;
            replays = 2;
            fetched = 11;
            squashed = 2;
            branches = 1;
            mispredicted = 1;
          };
          pc = 0x8000002c;
          regs = registers ((6, 0x100000) ∷ (7, 0x5555) ∷ (8, 0x200c000) ∷ (9, 1) ∷ (12, 10) ∷ []);
          csrs = record opening_csrs { retired = 9 };
          cmp = never;
        } }
    ensures not_before { (mono (setup_of (code_image time_read_on_a_wrong_path) plain_machine)
        29).end
        ≡ Running }
{}

/// MTIP of mip is set from mtimecmp on; mtimecmp itself is no time; the timer has no bytes.
pub fn pending_bit_is_a_time_read()
    ensures ends { final (setup_of (code_image compare_registers) window_of_eight) 35 ≡ record {
      end = Pass;
      stats = record no_stats {
        cycles = 35;
        instructions = 19;
        exceptions = 1;
        replays = 2;
        fetched = 34;
        squashed = 11;
      };
      pc = 0x80000050;
      regs = registers ((5, 0x80000038) ∷ (6, 0x100000) ∷ (7, 0x5555) ∷ (8, 0x2004000) ∷
          (9, 0xffffffff) ∷ (11, 30) ∷ (13, 30) ∷ (15, 0x200c000) ∷ (17, 5) ∷ (18, 0x200bff8) ∷ []);
      csrs = record opening_csrs {
        mtvec = 0x80000038;
        mepc = 0x80000034;
        mcause = 5;
        mtval = 0x200bff8;
        retired = 19;
      };
      cmp = 30;
    } }
    ensures not_before { (mono (setup_of (code_image compare_registers) window_of_eight) 34).end
        ≡ Running }
{}

/// Interrupts flush what was not committed, and nothing is counted twice.
pub fn interrupts_in_a_loop()
    ensures ends { final (setup_of (code_image interrupt_storm) bimodal_window_of_eight) 194
        ≡ record {
          end = Pass;
          stats = record no_stats {
            cycles = 194;
            instructions = 142;
            interrupts = 9;
            fetched = 193;
            squashed = 49;
            branches = 39;
            mispredicted = 11;
          };
          pc = 0x8000004c;
          regs = registers ((5, 0x8000004c) ∷ (6, 0x100000) ∷ (7, 0x5555) ∷ (8, 0x2004000) ∷
              (9, 200) ∷ (10, 128) ∷ (12, 30) ∷ (13, 9) ∷ []);
          csrs = record opening_csrs {
            mpie = true;
            mtie = true;
            mtvec = 0x8000004c;
            mepc = 0x80000038;
            mcause = 0x80000007;
            retired = 142;
          };
          cmp = 200;
        } }
    ensures not_before { (mono (setup_of (code_image interrupt_storm) bimodal_window_of_eight)
        193).end
        ≡ Running }
{}

/// The same loop with four instructions a cycle.
pub fn interrupts_on_a_wide_machine()
    ensures ends { final (setup_of (code_image interrupt_storm) four_wide_window_of_sixteen) 216
        ≡ record {
          end = Pass;
          stats = record no_stats {
            cycles = 216;
            instructions = 146;
            interrupts = 10;
            fetched = 809;
            squashed = 648;
            branches = 40;
            mispredicted = 39;
          };
          pc = 0x8000004c;
          regs = registers ((5, 0x8000004c) ∷ (6, 0x100000) ∷ (7, 0x5555) ∷ (8, 0x2004000) ∷
              (9, 220) ∷ (10, 128) ∷ (12, 30) ∷ (13, 10) ∷ []);
          csrs = record opening_csrs {
            mpie = true;
            mtie = true;
            mtvec = 0x8000004c;
            mepc = 0x8000002c;
            mcause = 0x80000007;
            retired = 146;
          };
          cmp = 220;
        } }
    ensures not_before { (mono (setup_of (code_image interrupt_storm) four_wide_window_of_sixteen)
        215).end
        ≡ Running }
{}

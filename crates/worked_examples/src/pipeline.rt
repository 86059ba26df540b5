//! The order of instructions, units and predictions.
#![tactic(auto, unfolding(crate::proofs::Computing::computing))]

ghost use Rattle.std.specs.Prelude.{◌≡◌, [], ◌∷◌};
ghost use Rattle.machine_csr.specs.Csr.{opening_csrs};
ghost use Rattle.mono_model.specs.declared.final_state.End.TheVariants.{Pass, Limit, Running};
ghost use Rattle.mono_model.specs.Cycle.{mono, final};
ghost use Rattle.worked_examples.specs.Setups.{code_image, plain_machine, setup_of, no_stats};
ghost use Rattle.worked_examples.specs.Setups.{registers, never};
ghost use Rattle.worked_examples.specs.Machines.{window_of_eight, bimodal_window_of_eight};
ghost use Rattle.worked_examples.specs.Machines.{bimodal_plain_machine, small_instruction_cache};
ghost use Rattle.worked_examples.specs.Machines.{two_dividers, two_stations};
ghost use Rattle.worked_examples.specs.Machines.{gshare_of_four_outcomes, one_counter, one_target};
ghost use Rattle.worked_examples.specs.Machines.{bimodal_fetch_of_four, slow_multiplier};
ghost use Rattle.worked_examples.specs.Machines.{bimodal_window_of_thirty_two};
ghost use Rattle.worked_examples.specs.Pipeline.{smallest_pass, backward_branch_loop};
ghost use Rattle.worked_examples.specs.Pipeline.{division_corner_cases};
ghost use Rattle.worked_examples.specs.Pipeline.{finisher_store_on_a_wrong_path};
ghost use Rattle.worked_examples.specs.Pipeline.{loop_at_a_line_end, four_divisions};
ghost use Rattle.worked_examples.specs.Pipeline.{alternating_branch, branch_to_the_next};
ghost use Rattle.worked_examples.specs.Pipeline.{calls_in_a_loop, writes_to_register_zero};
ghost use Rattle.worked_examples.specs.Pipeline.{four_multiplications, three_instruction_loop};

/// Four instructions overlap, and two more are fetched behind them.
pub fn smallest_pass_in_a_window_of_eight()
    ensures ends { final (setup_of (code_image smallest_pass) window_of_eight) 7 ≡ record {
      end = Pass;
      stats = record no_stats { cycles = 7; instructions = 4; fetched = 6 };
      pc = 0x80000010;
      regs = registers ((5, 0x100000) ∷ (6, 0x5555) ∷ []);
      csrs = record opening_csrs { retired = 4 };
      cmp = never;
    } }
    ensures not_before { (mono (setup_of (code_image smallest_pass) window_of_eight) 6).end
        ≡ Running }
{}

/// Without overlap an instruction takes three cycles, and the last ends the run in its fourth.
pub fn smallest_pass_on_the_plain_machine()
    ensures ends { final (setup_of (code_image smallest_pass) plain_machine) 13 ≡ record {
      end = Pass;
      stats = record no_stats { cycles = 13; instructions = 4; fetched = 4 };
      pc = 0x80000010;
      regs = registers ((5, 0x100000) ∷ (6, 0x5555) ∷ []);
      csrs = record opening_csrs { retired = 4 };
      cmp = never;
    } }
    ensures not_before { (mono (setup_of (code_image smallest_pass) plain_machine) 12).end
        ≡ Running }
{}

/// Division by 0 and the one that overflows have values, and neither traps.
pub fn division_corner_cases_are_defined()
    ensures ends { final (setup_of (code_image division_corner_cases) plain_machine) 37 ≡ record {
      end = Pass;
      stats = record no_stats {
        cycles = 37;
        instructions = 12;
        fetched = 12;
        branches = 1;
        mispredicted = 1;
      };
      pc = 0x80000034;
      regs = registers ((5, 0x80000000) ∷ (6, 0xffffffff) ∷ (7, 0x80000000) ∷ (8, 7) ∷
          (9, 0xffffffff) ∷ (11, 7) ∷ (28, 0x100000) ∷ (29, 0x5555) ∷ []);
      csrs = record opening_csrs { retired = 12 };
      cmp = never;
    } }
    ensures not_before { (mono (setup_of (code_image division_corner_cases) plain_machine) 36).end
        ≡ Running }
{}

/// The first and the last round of a loop are mispredicted.
pub fn bimodal_counter_learns_a_loop()
    ensures ends { final (setup_of (code_image backward_branch_loop) bimodal_window_of_eight) 30
        ≡ record {
          end = Pass;
          stats = record no_stats {
            cycles = 30;
            instructions = 25;
            fetched = 29;
            squashed = 2;
            branches = 10;
            mispredicted = 2;
          };
          pc = 0x8000001c;
          regs = registers ((6, 0x100000) ∷ (7, 0x5555) ∷ []);
          csrs = record opening_csrs { retired = 25 };
          cmp = never;
        } }
    ensures not_before { (mono (setup_of (code_image backward_branch_loop) bimodal_window_of_eight)
        29).end
        ≡ Running }
{}

/// With one instruction at a time a misprediction costs nothing, and is counted.
pub fn bimodal_counter_learns_a_loop_on_the_plain_machine()
    ensures ends { final (setup_of (code_image backward_branch_loop) bimodal_plain_machine) 76
        ≡ record {
          end = Pass;
          stats = record no_stats {
            cycles = 76;
            instructions = 25;
            fetched = 25;
            branches = 10;
            mispredicted = 2;
          };
          pc = 0x8000001c;
          regs = registers ((6, 0x100000) ∷ (7, 0x5555) ∷ []);
          csrs = record opening_csrs { retired = 25 };
          cmp = never;
        } }
    ensures not_before { (mono (setup_of (code_image backward_branch_loop) bimodal_plain_machine)
        75).end
        ≡ Running }
{}

/// Without a target buffer each taken branch is mispredicted.
pub fn next_address_is_always_wrong_in_a_loop()
    ensures ends { final (setup_of (code_image backward_branch_loop) plain_machine) 76 ≡ record {
      end = Pass;
      stats = record no_stats {
        cycles = 76;
        instructions = 25;
        fetched = 25;
        branches = 10;
        mispredicted = 9;
      };
      pc = 0x8000001c;
      regs = registers ((6, 0x100000) ∷ (7, 0x5555) ∷ []);
      csrs = record opening_csrs { retired = 25 };
      cmp = never;
    } }
    ensures not_before { (mono (setup_of (code_image backward_branch_loop) plain_machine) 75).end
        ≡ Running }
{}

/// A store on a wrong path is never made.
pub fn finisher_store_on_a_wrong_path_ends_nothing()
    ensures ends { final (setup_of (code_image finisher_store_on_a_wrong_path) window_of_eight) 11
        ≡ record {
          end = Pass;
          stats = record no_stats {
            cycles = 11;
            instructions = 7;
            fetched = 10;
            squashed = 1;
            branches = 1;
            mispredicted = 1;
          };
          pc = 0x80000020;
          regs = registers ((6, 0x100000) ∷ (7, 0x5555) ∷ []);
          csrs = record opening_csrs { retired = 7 };
          cmp = never;
        } }
    ensures not_before { (mono (setup_of (code_image finisher_store_on_a_wrong_path)
        window_of_eight) 10).end
        ≡ Running }
{}

/// A misprediction ends the wait for a miss on the wrong path: fetch goes on at once, and accesses
/// the cache again.
pub fn flush_ends_the_wait_for_a_miss()
    ensures ends { final (setup_of (code_image loop_at_a_line_end) small_instruction_cache) 39
        ≡ record {
          end = Pass;
          stats = record no_stats {
            cycles = 39;
            instructions = 14;
            fetched = 17;
            squashed = 1;
            branches = 3;
            mispredicted = 2;
            icache_accesses = 16;
            icache_misses = 2;
          };
          pc = 0x80000020;
          regs = registers ((6, 0x100000) ∷ (7, 0x5555) ∷ (8, 15) ∷ []);
          csrs = record opening_csrs { retired = 14 };
          cmp = never;
        } }
    ensures not_before { (mono (setup_of (code_image loop_at_a_line_end) small_instruction_cache)
        38).end
        ≡ Running }
{}

/// A divider is busy until its division is done.
pub fn two_divisions_at_a_time()
    ensures ends { final (setup_of (code_image four_divisions) two_dividers) 46 ≡ record {
      end = Pass;
      stats = record no_stats { cycles = 46; instructions = 13; fetched = 28 };
      pc = 0x80000034;
      regs = registers ((5, 100) ∷ (6, 0x100000) ∷ (7, 0x5555) ∷ (8, 7) ∷ (9, 14) ∷ (10, 2) ∷
          (12, 2) ∷ (13, 700) ∷ (15, 49) ∷ []);
      csrs = record opening_csrs { retired = 13 };
      cmp = never;
    } }
    ensures not_before { (mono (setup_of (code_image four_divisions) two_dividers) 45).end
        ≡ Running }
{}

/// Fetch stops where two records wait, however much room the window has.
pub fn two_records_wait()
    ensures ends { final (setup_of (code_image four_divisions) two_stations) 32 ≡ record {
      end = Pass;
      stats = record no_stats { cycles = 32; instructions = 13; fetched = 26 };
      pc = 0x80000034;
      regs = registers ((5, 100) ∷ (6, 0x100000) ∷ (7, 0x5555) ∷ (8, 7) ∷ (9, 14) ∷ (10, 2) ∷
          (12, 2) ∷ (13, 700) ∷ (15, 49) ∷ []);
      csrs = record opening_csrs { retired = 13 };
      cmp = never;
    } }
    ensures not_before { (mono (setup_of (code_image four_divisions) two_stations) 31).end
        ≡ Running }
{}

/// Counters are selected by the outcomes of committed branches, which lag behind fetch in so short
/// a loop.
pub fn gshare_goes_by_committed_outcomes()
    ensures ends { final (setup_of (code_image alternating_branch) gshare_of_four_outcomes) 73
        ≡ record {
          end = Pass;
          stats = record no_stats {
            cycles = 73;
            instructions = 59;
            fetched = 72;
            squashed = 11;
            branches = 24;
            mispredicted = 11;
          };
          pc = 0x80000028;
          regs = registers ((6, 0x100000) ∷ (7, 0x5555) ∷ (8, 1) ∷ (9, 6) ∷ []);
          csrs = record opening_csrs { retired = 59 };
          cmp = never;
        } }
    ensures not_before { (mono (setup_of (code_image alternating_branch) gshare_of_four_outcomes)
        72).end
        ≡ Running }
{}

/// A counter for each branch never learns a branch that alternates.
pub fn bimodal_counter_alternates()
    ensures ends { final (setup_of (code_image alternating_branch) bimodal_window_of_eight) 76
        ≡ record {
          end = Pass;
          stats = record no_stats {
            cycles = 76;
            instructions = 59;
            fetched = 75;
            squashed = 14;
            branches = 24;
            mispredicted = 14;
          };
          pc = 0x80000028;
          regs = registers ((6, 0x100000) ∷ (7, 0x5555) ∷ (8, 1) ∷ (9, 6) ∷ []);
          csrs = record opening_csrs { retired = 59 };
          cmp = never;
        } }
    ensures not_before { (mono (setup_of (code_image alternating_branch) bimodal_window_of_eight)
        75).end
        ≡ Running }
{}

/// A branch whose target is the next address counts as not taken, and so keeps the shared counter
/// low.
pub fn branch_to_the_next_is_not_taken()
    ensures ends { final (setup_of (code_image branch_to_the_next) one_counter) 31 ≡ record {
      end = Pass;
      stats = record no_stats {
        cycles = 31;
        instructions = 23;
        fetched = 30;
        squashed = 5;
        branches = 12;
        mispredicted = 5;
      };
      pc = 0x80000020;
      regs = registers ((6, 0x100000) ∷ (7, 0x5555) ∷ []);
      csrs = record opening_csrs { retired = 23 };
      cmp = never;
    } }
    ensures not_before { (mono (setup_of (code_image branch_to_the_next) one_counter) 30).end
        ≡ Running }
{}

/// Call and return are in the target buffer once they committed.
pub fn jumps_are_predicted_from_the_second_time_on()
    ensures ends { final (setup_of (code_image calls_in_a_loop) bimodal_window_of_eight) 27
        ≡ record {
          end = Pass;
          stats = record no_stats {
            cycles = 27;
            instructions = 20;
            fetched = 26;
            squashed = 4;
            branches = 9;
            mispredicted = 4;
          };
          pc = 0x80000020;
          regs = registers ((1, 0x80000008) ∷ (6, 0x100000) ∷ (7, 0x5555) ∷ (8, 3) ∷ []);
          csrs = record opening_csrs { retired = 20 };
          cmp = never;
        } }
    ensures not_before { (mono (setup_of (code_image calls_in_a_loop) bimodal_window_of_eight)
        26).end
        ≡ Running }
{}

/// Where all share one place, a target serves the address that it was written for.
pub fn one_target_is_tagged()
    ensures ends { final (setup_of (code_image calls_in_a_loop) one_target) 31 ≡ record {
      end = Pass;
      stats = record no_stats {
        cycles = 31;
        instructions = 20;
        fetched = 30;
        squashed = 8;
        branches = 9;
        mispredicted = 8;
      };
      pc = 0x80000020;
      regs = registers ((1, 0x80000008) ∷ (6, 0x100000) ∷ (7, 0x5555) ∷ (8, 3) ∷ []);
      csrs = record opening_csrs { retired = 20 };
      cmp = never;
    } }
    ensures not_before { (mono (setup_of (code_image calls_in_a_loop) one_target) 30).end
        ≡ Running }
{}

/// Four tries of fetch end with the record whose next is predicted elsewhere; two records leave a
/// cycle.
pub fn fetch_stops_at_a_predicted_jump()
    ensures ends { final (setup_of (code_image calls_in_a_loop) bimodal_fetch_of_four) 37 ≡ record {
      end = Pass;
      stats = record no_stats {
        cycles = 37;
        instructions = 20;
        fetched = 71;
        squashed = 40;
        branches = 9;
        mispredicted = 4;
      };
      pc = 0x80000020;
      regs = registers ((1, 0x80000008) ∷ (6, 0x100000) ∷ (7, 0x5555) ∷ (8, 3) ∷ []);
      csrs = record opening_csrs { retired = 20 };
      cmp = never;
    } }
    ensures not_before { (mono (setup_of (code_image calls_in_a_loop) bimodal_fetch_of_four) 36).end
        ≡ Running }
{}

/// The same for a loop of two instructions, with a front of three cycles.
pub fn wide_fetch_runs_a_loop()
    ensures ends { final (setup_of (code_image backward_branch_loop) bimodal_fetch_of_four) 39
        ≡ record {
          end = Pass;
          stats = record no_stats {
            cycles = 39;
            instructions = 25;
            fetched = 66;
            squashed = 30;
            branches = 10;
            mispredicted = 3;
          };
          pc = 0x8000001c;
          regs = registers ((6, 0x100000) ∷ (7, 0x5555) ∷ []);
          csrs = record opening_csrs { retired = 25 };
          cmp = never;
        } }
    ensures not_before { (mono (setup_of (code_image backward_branch_loop) bimodal_fetch_of_four)
        38).end
        ≡ Running }
{}

/// It is flushed before it can trap.
pub fn wrong_path_word_that_is_no_instruction()
    ensures ends { final (setup_of (code_image division_corner_cases) window_of_eight) 16 ≡ record {
      end = Pass;
      stats = record no_stats {
        cycles = 16;
        instructions = 12;
        fetched = 15;
        squashed = 1;
        branches = 1;
        mispredicted = 1;
      };
      pc = 0x80000034;
      regs = registers ((5, 0x80000000) ∷ (6, 0xffffffff) ∷ (7, 0x80000000) ∷ (8, 7) ∷
          (9, 0xffffffff) ∷ (11, 7) ∷ (28, 0x100000) ∷ (29, 0x5555) ∷ []);
      csrs = record opening_csrs { retired = 12 };
      cmp = never;
    } }
    ensures not_before { (mono (setup_of (code_image division_corner_cases) window_of_eight) 15).end
        ≡ Running }
{}

/// What is written to register 0 is no operand of anything.
pub fn register_zero_is_never_waited_for()
    ensures ends { final (setup_of (code_image writes_to_register_zero) two_dividers) 25 ≡ record {
      end = Pass;
      stats = record no_stats { cycles = 25; instructions = 10; fetched = 22 };
      pc = 0x80000028;
      regs = registers ((6, 0x100000) ∷ (7, 0x5555) ∷ (8, 0x80000000) ∷ (9, 9) ∷ (10, 9) ∷
          (11, 0xfffffff7) ∷ []);
      csrs = record opening_csrs { retired = 10 };
      cmp = never;
    } }
    ensures not_before { (mono (setup_of (code_image writes_to_register_zero) two_dividers) 24).end
        ≡ Running }
{}

/// A run that ends in the cycle of its limit has passed.
pub fn pass_in_the_last_cycle_is_no_limit()
    ensures ends { final (record (setup_of (code_image smallest_pass) window_of_eight)
        { cycles = 7 }) 7
        ≡ record {
          end = Pass;
          stats = record no_stats { cycles = 7; instructions = 4; fetched = 6 };
          pc = 0x80000010;
          regs = registers ((5, 0x100000) ∷ (6, 0x5555) ∷ []);
          csrs = record opening_csrs { retired = 4 };
          cmp = never;
        } }
    ensures not_before { (mono (record (setup_of (code_image smallest_pass) window_of_eight)
        { cycles = 7 }) 6).end
        ≡ Running }
{}

/// The limit ends a run wherever it stands, with records in flight.
pub fn limit_inside_a_run()
    ensures ends { final (record (setup_of (code_image backward_branch_loop)
        bimodal_window_of_eight) { cycles = 17 }) 17
        ≡ record {
          end = Limit;
          stats = record no_stats {
            cycles = 17;
            instructions = 13;
            fetched = 17;
            squashed = 1;
            branches = 6;
            mispredicted = 1;
          };
          pc = 0x80000004;
          regs = registers ((5, 4) ∷ []);
          csrs = record opening_csrs { retired = 13 };
          cmp = never;
        } }
    ensures not_before { (mono (record
        (setup_of (code_image backward_branch_loop) bimodal_window_of_eight)
        { cycles = 17 }) 16).end
        ≡ Running }
{}

/// A multiplier takes a multiplication each cycle, however long each of them lasts.
pub fn a_multiplication_begins_each_cycle()
    ensures ends { final (setup_of (code_image four_multiplications) slow_multiplier) 16 ≡ record {
      end = Pass;
      stats = record no_stats { cycles = 16; instructions = 9; fetched = 24 };
      pc = 0x80000024;
      regs = registers ((5, 3) ∷ (6, 0x100000) ∷ (7, 0x5555) ∷ (8, 9) ∷ []);
      csrs = record opening_csrs { retired = 9 };
      cmp = never;
    } }
    ensures not_before { (mono (setup_of (code_image four_multiplications) slow_multiplier) 15).end
        ≡ Running }
{}

/// A branch that is predicted taken ends the fetch of its cycle, before the fourth try.
pub fn fetch_of_four_takes_three_a_cycle()
    ensures ends { final (setup_of (code_image three_instruction_loop) bimodal_window_of_thirty_two)
        33
        ≡ record {
          end = Pass;
          stats = record no_stats {
            cycles = 33;
            instructions = 65;
            fetched = 108;
            squashed = 27;
            branches = 20;
            mispredicted = 3;
          };
          pc = 0x80000020;
          regs = registers ((6, 0x100000) ∷ (7, 0x5555) ∷ (8, 20) ∷ []);
          csrs = record opening_csrs { retired = 65 };
          cmp = never;
        } }
    ensures not_before { (mono (setup_of (code_image three_instruction_loop)
        bimodal_window_of_thirty_two) 32).end
        ≡ Running }
{}

/// One record was fetched, and nothing else was done.
pub fn limit_of_one_cycle_on_the_plain_machine()
    ensures ends { final (record (setup_of (code_image smallest_pass) plain_machine) { cycles = 1 })
        1
        ≡ record {
          end = Limit;
          stats = record no_stats { cycles = 1; fetched = 1 };
          pc = 0x80000000;
          regs = registers [];
          csrs = opening_csrs;
          cmp = never;
        } }
    ensures not_before { (mono (record (setup_of (code_image smallest_pass) plain_machine)
        { cycles = 1 }) 0).end
        ≡ Running }
{}

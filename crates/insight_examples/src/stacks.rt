//! What the cycles of small runs were spent on.
#![tactic(auto, unfolding(crate::proofs::Computing::insight_computing))]

ghost use Rattle.std.specs.Prelude.{◌≡◌, [], ◌∷◌, Some};
ghost use Rattle.worked_examples.specs.Setups.{code_image, data_image, plain_machine, setup_of};
ghost use Rattle.worked_examples.specs.Machines.{window_of_eight};
ghost use Rattle.worked_examples.specs.Machines.{instruction_cache};
ghost use Rattle.worked_examples.specs.Machines.{bimodal_window_of_eight};
ghost use Rattle.worked_examples.specs.Machines.{one_line_cache};
ghost use Rattle.worked_examples.specs.Machines.{slow_division_and_memory};
ghost use Rattle.worked_examples.specs.Machines.{wide_commit_behind_division};
ghost use Rattle.worked_examples.specs.Machines.{wide_machine};
ghost use Rattle.worked_examples.specs.Pipeline.{smallest_pass, backward_branch_loop};
ghost use Rattle.worked_examples.specs.Memory.{load_on_a_wrong_path, partly_covering_stores};
ghost use Rattle.worked_examples.specs.Traps.{speculative_misaligned_jump, environment_call};
ghost use Rattle.worked_examples.specs.Time.{cycle_counter_twice, timer_interrupt_between};
ghost use Rattle.worked_examples.specs.Time.{vectored_interrupt_reads_time};
ghost use Rattle.worked_examples.specs.Devices.{bytes_behind_a_division, uart_driver};
ghost use Rattle.insight_model.specs.declared.pipeline.Pipeline.TheVariants.{Window};
ghost use Rattle.insight_model.specs.declared.cycle_cause.CycleCause.TheVariants as cause;
ghost use Rattle.insight_model.specs.declared.fetch_end.FetchEnd.TheVariants as fetch;
ghost use Rattle.insight_examples.specs.Reading.{reading};

/// Four instructions follow each other: each of the last four cycles commits one.
pub fn smallest_pass_in_a_window_of_eight()
    ensures stack { reading Window (setup_of (code_image smallest_pass) window_of_eight)
        ≡ record {
          cycles = 7;
          spent = (cause.Commit, 4) ∷ (cause.Start, 3) ∷ [];
          fetch = (fetch.Width, 6) ∷ (fetch.Ended, 1) ∷ [];
          left = 3 ∷ 4 ∷ [];
          occupied = 15;
          waiting = Some 6;
        } }
{}

/// With room for one record, each but the first comes late for want of room.
pub fn smallest_pass_on_the_plain_machine()
    ensures stack { reading Window (setup_of (code_image smallest_pass) plain_machine)
        ≡ record {
          cycles = 13;
          spent = (cause.Commit, 4) ∷ (cause.Window, 6) ∷ (cause.Start, 3) ∷ [];
          fetch = (fetch.Width, 4) ∷ (fetch.Window, 8) ∷ (fetch.Ended, 1) ∷ [];
          left = 9 ∷ 4 ∷ [];
          occupied = 12;
          waiting = Some 4;
        } }
{}

/// The first record waits for the line in which all four stand.
pub fn smallest_pass_with_an_instruction_cache()
    ensures stack { reading Window (setup_of (code_image smallest_pass) instruction_cache)
        ≡ record {
          cycles = 33;
          spent = (cause.Commit, 4) ∷ (cause.Icache, 20) ∷ (cause.Window, 6) ∷ (cause.Start, 3) ∷
              [];
          fetch = (fetch.Width, 4) ∷ (fetch.Window, 8) ∷ (fetch.Icache, 20) ∷ (fetch.Ended, 1) ∷ [];
          left = 29 ∷ 4 ∷ [];
          occupied = 12;
          waiting = Some 4;
        } }
{}

/// Two mispredictions cost a cycle each.
pub fn loop_in_a_window_of_eight()
    ensures stack { reading Window
        (setup_of (code_image backward_branch_loop) bimodal_window_of_eight)
        ≡ record {
          cycles = 30;
          spent = (cause.Commit, 25) ∷ (cause.Mispredict, 2) ∷ (cause.Start, 3) ∷ [];
          fetch = (fetch.Width, 29) ∷ (fetch.Ended, 1) ∷ [];
          left = 5 ∷ 25 ∷ [];
          occupied = 80;
          waiting = Some 29;
        } }
{}

/// Nine mispredictions cost two cycles each, and all else comes late for want of room.
pub fn loop_on_the_plain_machine()
    ensures stack { reading Window (setup_of (code_image backward_branch_loop) plain_machine)
        ≡ record {
          cycles = 76;
          spent = (cause.Commit, 25) ∷ (cause.Window, 30) ∷ (cause.Mispredict, 18) ∷
              (cause.Start, 3) ∷ [];
          fetch = (fetch.Width, 25) ∷ (fetch.Window, 50) ∷ (fetch.Ended, 1) ∷ [];
          left = 51 ∷ 25 ∷ [];
          occupied = 75;
          waiting = Some 25;
        } }
{}

/// Two loads wait for their lines. A third one misses on a wrong path, and costs nothing.
pub fn loads_that_miss()
    ensures stack { reading Window (setup_of (code_image load_on_a_wrong_path) one_line_cache)
        ≡ record {
          cycles = 32;
          spent = (cause.Commit, 8) ∷ (cause.Dcache, 20) ∷ (cause.Mispredict, 1) ∷
              (cause.Start, 3) ∷ [];
          fetch = (fetch.Width, 11) ∷ (fetch.Window, 20) ∷ (fetch.Ended, 1) ∷ [];
          left = 24 ∷ 8 ∷ [];
          occupied = 88;
          waiting = Some 21;
        } }
{}

/// A load traps, and its handler reads CSRs, which execute only as the oldest.
pub fn trap_after_a_jump()
    ensures stack { reading Window
        (setup_of (code_image speculative_misaligned_jump) window_of_eight)
        ≡ record {
          cycles = 17;
          spent = (cause.Commit, 10) ∷ (cause.Serial, 2) ∷ (cause.Trap, 2) ∷ (cause.Start, 3) ∷ [];
          fetch = (fetch.Width, 16) ∷ (fetch.Ended, 1) ∷ [];
          left = 7 ∷ 10 ∷ [];
          occupied = 49;
          waiting = Some 24;
        } }
{}

/// A call traps: the two cycles of its flush are charged to it.
pub fn environment_call_is_a_trap()
    ensures stack { reading Window (setup_of (code_image environment_call) window_of_eight)
        ≡ record {
          cycles = 14;
          spent = (cause.Commit, 8) ∷ (cause.Serial, 1) ∷ (cause.Trap, 2) ∷ (cause.Start, 3) ∷ [];
          fetch = (fetch.Width, 13) ∷ (fetch.Ended, 1) ∷ [];
          left = 6 ∷ 8 ∷ [];
          occupied = 35;
          waiting = Some 17;
        } }
{}

/// A division holds all after it for nine cycles, and a load for one more.
pub fn division_holds_all_after_it()
    ensures stack { reading Window
        (setup_of (data_image partly_covering_stores 0x80000040 4
        (0x11223344 ∷ [])) slow_division_and_memory)
        ≡ record {
          cycles = 24;
          spent = (cause.Commit, 11) ∷ (cause.Div, 9) ∷ (cause.Load, 1) ∷ (cause.Start, 3) ∷ [];
          fetch = (fetch.Width, 18) ∷ (fetch.Window, 5) ∷ (fetch.Ended, 1) ∷ [];
          left = 13 ∷ 11 ∷ [];
          occupied = 151;
          waiting = Some 23;
        } }
{}

/// Two time reads are replayed.
pub fn replays_of_time_reads()
    ensures stack { reading Window (setup_of (code_image cycle_counter_twice) window_of_eight)
        ≡ record {
          cycles = 12;
          spent = (cause.Commit, 6) ∷ (cause.Replay, 5) ∷ (cause.Start, 1) ∷ [];
          fetch = (fetch.Width, 11) ∷ (fetch.Ended, 1) ∷ [];
          left = 6 ∷ 6 ∷ [];
          occupied = 25;
          waiting = Some 12;
        } }
{}

/// The flush is charged to the handler; a time read is replayed.
pub fn interrupt_is_charged_to_its_handler()
    ensures stack { reading Window (setup_of (code_image timer_interrupt_between) window_of_eight)
        ≡ record {
          cycles = 30;
          spent = (cause.Commit, 18) ∷ (cause.Serial, 4) ∷ (cause.Interrupt, 3) ∷
              (cause.Replay, 2) ∷ (cause.Start, 3) ∷ [];
          fetch = (fetch.Width, 29) ∷ (fetch.Ended, 1) ∷ [];
          left = 12 ∷ 18 ∷ [];
          occupied = 89;
          waiting = Some 45;
        } }
{}

/// The handler reads the time, and is replayed.
pub fn interrupt_before_a_replay()
    ensures stack { reading Window
        (setup_of (code_image vectored_interrupt_reads_time) window_of_eight)
        ≡ record {
          cycles = 25;
          spent = (cause.Commit, 15) ∷ (cause.Serial, 3) ∷ (cause.Interrupt, 1) ∷
              (cause.Replay, 3) ∷ (cause.Start, 3) ∷ [];
          fetch = (fetch.Width, 24) ∷ (fetch.Ended, 1) ∷ [];
          left = 10 ∷ 15 ∷ [];
          occupied = 81;
          waiting = Some 40;
        } }
{}

/// Loads of the console execute only as the oldest, and lines come in twice.
pub fn console_driver_on_a_wide_machine()
    ensures stack { reading Window
        (setup_of
        (data_image uart_driver 0x80001000 16 (0xa6948 ∷ [])) wide_machine)
        ≡ record {
          cycles = 80;
          spent = (cause.Commit, 21) ∷ (cause.Load, 1) ∷ (cause.Store, 2) ∷ (cause.Device, 6) ∷
              (cause.Dcache, 20) ∷ (cause.Icache, 20) ∷ (cause.Mispredict, 3) ∷
              (cause.Start, 7) ∷ [];
          fetch = (fetch.Width, 37) ∷ (fetch.Stations, 2) ∷ (fetch.Icache, 40) ∷
              (fetch.Ended, 1) ∷ [];
          left = 59 ∷ 12 ∷ 4 ∷ 1 ∷ 4 ∷ [];
          occupied = 1085;
          waiting = Some 849;
        } }
{}

/// A division holds four bytes, and the run ends at the fifth.
pub fn output_full_after_a_division()
    ensures stack { reading Window
        (record
        (setup_of (code_image bytes_behind_a_division) wide_commit_behind_division) { output = 4 })
        ≡ record {
          cycles = 25;
          spent = (cause.Commit, 3) ∷ (cause.Div, 19) ∷ (cause.Start, 3) ∷ [];
          fetch = (fetch.Width, 18) ∷ (fetch.Window, 6) ∷ (fetch.Ended, 1) ∷ [];
          left = 22 ∷ 2 ∷ 0 ∷ 0 ∷ 0 ∷ 1 ∷ 0 ∷ 0 ∷ 0 ∷ [];
          occupied = 238;
          waiting = Some 18;
        } }
{}

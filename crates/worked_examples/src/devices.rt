//! The console and the finisher.
#![tactic(auto, unfolding(crate::proofs::Computing::computing))]

ghost use Rattle.std.specs.Prelude.{◌≡◌, [], ◌∷◌};
ghost use Rattle.machine_csr.specs.Csr.{opening_csrs};
ghost use Rattle.mono_model.specs.declared.final_state.End.TheVariants.{Pass, Fail, Limit};
ghost use Rattle.mono_model.specs.declared.final_state.End.TheVariants.{OutputFull, Running};
ghost use Rattle.mono_model.specs.Cycle.{mono, final};
ghost use Rattle.worked_examples.specs.Setups.{code_image, data_image, plain_machine, setup_of};
ghost use Rattle.worked_examples.specs.Setups.{no_stats, registers, never};
ghost use Rattle.worked_examples.specs.Machines.{window_of_eight, wide_commit_behind_division};
ghost use Rattle.worked_examples.specs.Machines.{wide_machine};
ghost use Rattle.worked_examples.specs.Devices.{uart_driver, console_load_on_a_wrong_path};
ghost use Rattle.worked_examples.specs.Devices.{bytes_behind_a_division, failure_code};
ghost use Rattle.worked_examples.specs.Devices.{console_registers, finisher_without_an_end};

/// A driver polls the line status before each byte.
pub fn uart_driver_prints()
    ensures ends { final (setup_of (data_image uart_driver 0x80001000 16 (0xa6948 ∷ []))
        plain_machine) 118
        ≡ record {
          end = Pass;
          stats = record no_stats {
            cycles = 118;
            instructions = 39;
            fetched = 39;
            branches = 10;
            mispredicted = 4;
            output = 3;
          };
          pc = 0x80000054;
          regs = registers ((6, 0x100000) ∷ (7, 0x5555) ∷ (8, 0x10000000) ∷ (9, 3) ∷
              (11, 0x80001003) ∷ (13, 32) ∷ []);
          csrs = record opening_csrs { retired = 39 };
          cmp = never;
        } }
    ensures sends { (mono (setup_of (data_image uart_driver 0x80001000 16 (0xa6948 ∷ []))
        plain_machine) 118).arch.output
        ≡ 72 ∷ 105 ∷ 10 ∷ [] }
    ensures not_before { (mono (setup_of (data_image uart_driver 0x80001000 16 (0xa6948 ∷ []))
        plain_machine) 117).end
        ≡ Running }
{}

/// Four instructions a cycle, gshare and caches: the same bytes, in other cycles.
pub fn uart_driver_prints_on_a_wide_machine()
    ensures ends { final (setup_of (data_image uart_driver 0x80001000 16 (0xa6948 ∷ []))
        wide_machine) 80
        ≡ record {
          end = Pass;
          stats = record no_stats {
            cycles = 80;
            instructions = 39;
            fetched = 154;
            squashed = 79;
            branches = 10;
            mispredicted = 3;
            icache_accesses = 83;
            icache_misses = 2;
            dcache_accesses = 4;
            dcache_misses = 1;
            output = 3;
          };
          pc = 0x80000054;
          regs = registers ((6, 0x100000) ∷ (7, 0x5555) ∷ (8, 0x10000000) ∷ (9, 3) ∷
              (11, 0x80001003) ∷ (13, 32) ∷ []);
          csrs = record opening_csrs { retired = 39 };
          cmp = never;
        } }
    ensures sends { (mono (setup_of (data_image uart_driver 0x80001000 16 (0xa6948 ∷ []))
        wide_machine) 80).arch.output
        ≡ 72 ∷ 105 ∷ 10 ∷ [] }
    ensures not_before { (mono (setup_of (data_image uart_driver 0x80001000 16 (0xa6948 ∷ []))
        wide_machine) 79).end
        ≡ Running }
{}

/// A load of the console waits until it is the oldest, so one on a wrong path takes no byte of the
/// input.
pub fn console_load_on_a_wrong_path_takes_no_input()
    ensures ends { final (record (setup_of (code_image console_load_on_a_wrong_path)
        window_of_eight) { input = 65 ∷ 66 ∷ [] }) 12
        ≡ record {
          end = Pass;
          stats = record no_stats {
            cycles = 12;
            instructions = 8;
            fetched = 11;
            squashed = 1;
            branches = 1;
            mispredicted = 1;
          };
          pc = 0x80000024;
          regs = registers ((5, 1) ∷ (6, 0x100000) ∷ (7, 0x5555) ∷ (8, 0x10000000) ∷ (10, 65) ∷ []);
          csrs = record opening_csrs { retired = 8 };
          cmp = never;
        } }
    ensures not_before { (mono (record
        (setup_of (code_image console_load_on_a_wrong_path) window_of_eight)
        { input = 65 ∷ 66 ∷ [] }) 11).end
        ≡ Running }
{}

/// A fifth byte has no room: the run ends with its instruction not committed.
pub fn output_full_ends_before_the_byte()
    ensures ends { final (record (setup_of (code_image bytes_behind_a_division)
        wide_commit_behind_division) { output = 4 }) 25
        ≡ record {
          end = OutputFull;
          stats = record no_stats { cycles = 25; instructions = 7; fetched = 18; output = 4 };
          pc = 0x8000001c;
          regs = registers ((8, 0x10000000) ∷ (9, 65) ∷ (10, 1) ∷ []);
          csrs = record opening_csrs { retired = 7 };
          cmp = never;
        } }
    ensures sends { (mono (record (setup_of (code_image bytes_behind_a_division)
        wide_commit_behind_division) { output = 4 }) 25).arch.output
        ≡ 65 ∷ 65 ∷ 65 ∷ 65 ∷ [] }
    ensures not_before { (mono (record
        (setup_of (code_image bytes_behind_a_division) wide_commit_behind_division)
        { output = 4 }) 24).end
        ≡ Running }
{}

/// The limit is reached at the end of the first cycle.
pub fn limit_of_one_cycle()
    ensures ends { final (record (setup_of (code_image bytes_behind_a_division)
        wide_commit_behind_division) { cycles = 1; output = 4 }) 1
        ≡ record {
          end = Limit;
          stats = record no_stats { cycles = 1; fetched = 1 };
          pc = 0x80000000;
          regs = registers [];
          csrs = opening_csrs;
          cmp = never;
        } }
    ensures not_before { (mono (record
        (setup_of (code_image bytes_behind_a_division) wide_commit_behind_division)
        { cycles = 1; output = 4 }) 0).end
        ≡ Running }
{}

/// The upper half of the word is the code.
pub fn failure_code_ends_the_run()
    ensures ends { final (setup_of (code_image failure_code) window_of_eight) 7 ≡ record {
      end = Fail 7;
      stats = record no_stats { cycles = 7; instructions = 4; fetched = 6 };
      pc = 0x80000010;
      regs = registers ((5, 0x100000) ∷ (6, 0x73333) ∷ []);
      csrs = record opening_csrs { retired = 4 };
      cmp = never;
    } }
    ensures not_before { (mono (setup_of (code_image failure_code) window_of_eight) 6).end
        ≡ Running }
{}

/// The latch hides the transfer register; the status says whether input is left.
pub fn console_gives_each_byte_once()
    ensures ends { final (record (setup_of (code_image console_registers) window_of_eight)
        { input = 65 ∷ 66 ∷ [] }) 27
        ≡ record {
          end = Pass;
          stats = record no_stats { cycles = 27; instructions = 17; fetched = 24; output = 1 };
          pc = 0x80000044;
          regs = registers ((6, 0x100000) ∷ (7, 0x5555) ∷ (8, 0x10000000) ∷ (9, 131) ∷ (10, 97) ∷
              (11, 131) ∷ (13, 65) ∷ (14, 66) ∷ (15, 96) ∷ []);
          csrs = record opening_csrs { retired = 17 };
          cmp = never;
        } }
    ensures sends { (mono (record (setup_of (code_image console_registers) window_of_eight)
        { input = 65 ∷ 66 ∷ [] }) 27).arch.output
        ≡ 131 ∷ [] }
    ensures not_before { (mono (record (setup_of (code_image console_registers) window_of_eight)
        { input = 65 ∷ 66 ∷ [] }) 26).end
        ≡ Running }
{}

/// A half ends nothing, nor does a word without a meaning.
pub fn finisher_ends_by_a_word_alone()
    ensures ends { final (setup_of (code_image finisher_without_an_end) window_of_eight) 14
        ≡ record {
          end = Fail 259;
          stats = record no_stats { cycles = 14; instructions = 10; fetched = 13 };
          pc = 0x80000028;
          regs = registers ((5, 0x100000) ∷ (6, 0x5555) ∷ (7, 0x1033333) ∷ []);
          csrs = record opening_csrs { retired = 10 };
          cmp = never;
        } }
    ensures not_before { (mono (setup_of (code_image finisher_without_an_end) window_of_eight)
        13).end
        ≡ Running }
{}

/// Five bytes fit where the limit is five.
pub fn exact_room_for_the_output()
    ensures ends { final (record (setup_of (code_image bytes_behind_a_division)
        wide_commit_behind_division) { output = 5 }) 26
        ≡ record {
          end = Pass;
          stats = record no_stats { cycles = 26; instructions = 12; fetched = 19; output = 5 };
          pc = 0x80000030;
          regs = registers ((6, 0x100000) ∷ (7, 0x5555) ∷ (8, 0x10000000) ∷ (9, 65) ∷ (10, 1) ∷ []);
          csrs = record opening_csrs { retired = 12 };
          cmp = never;
        } }
    ensures sends { (mono (record (setup_of (code_image bytes_behind_a_division)
        wide_commit_behind_division) { output = 5 }) 26).arch.output
        ≡ 65 ∷ 65 ∷ 65 ∷ 65 ∷ 65 ∷ [] }
    ensures not_before { (mono (record
        (setup_of (code_image bytes_behind_a_division) wide_commit_behind_division)
        { output = 5 }) 25).end
        ≡ Running }
{}

/// With no room at all the run ends before its first byte.
pub fn no_room_for_any_output()
    ensures ends { final (record (setup_of (code_image bytes_behind_a_division)
        wide_commit_behind_division) { output = 0 }) 25
        ≡ record {
          end = OutputFull;
          stats = record no_stats { cycles = 25; instructions = 3; fetched = 18 };
          pc = 0x8000000c;
          regs = registers ((8, 0x10000000) ∷ (9, 65) ∷ (10, 1) ∷ []);
          csrs = record opening_csrs { retired = 3 };
          cmp = never;
        } }
    ensures not_before { (mono (record
        (setup_of (code_image bytes_behind_a_division) wide_commit_behind_division)
        { output = 0 }) 24).end
        ≡ Running }
{}

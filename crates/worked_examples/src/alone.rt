//! Runs without a machine file.
#![tactic(auto, unfolding(crate::proofs::Computing::computing))]

ghost use Rattle.std.specs.Prelude.{◌≡◌, [], ◌∷◌, true};
ghost use Rattle.machine_csr.specs.Csr.{opening_csrs};
ghost use Rattle.mono_model.specs.declared.final_state.End.TheVariants.{Pass, Fail, Limit};
ghost use Rattle.mono_model.specs.declared.final_state.End.TheVariants.{OutputFull, Running};
ghost use Rattle.mono_model.specs.Alone.{alone, alone_final};
ghost use Rattle.worked_examples.specs.Setups.{code_image, data_image, plain_machine, setup_of};
ghost use Rattle.worked_examples.specs.Setups.{no_stats, registers, never};
ghost use Rattle.worked_examples.specs.Pipeline.{smallest_pass};
ghost use Rattle.worked_examples.specs.Traps.{speculative_misaligned_jump, trap_storm};
ghost use Rattle.worked_examples.specs.Time.{cycle_counter_twice, vectored_interrupt_reads_time};
ghost use Rattle.worked_examples.specs.Time.{compare_registers, interrupt_storm};
ghost use Rattle.worked_examples.specs.Devices.{uart_driver, bytes_behind_a_division, failure_code};
ghost use Rattle.worked_examples.specs.Fences.{patched_instruction_with_fence};

/// Without a machine file nothing that speaks of cycles is counted.
pub fn smallest_pass_alone()
    ensures ends { alone_final (alone (setup_of (code_image smallest_pass) plain_machine) 4)
        ≡ record {
          end = Pass;
          stats = record no_stats { version = 0; instructions = 4 };
          pc = 0x80000010;
          regs = registers ((5, 0x100000) ∷ (6, 0x5555) ∷ []);
          csrs = record opening_csrs { retired = 4 };
          cmp = never;
        } }
    ensures not_before { (alone (setup_of (code_image smallest_pass) plain_machine) 3).end
        ≡ Running }
{}

/// The upper half of the word is the code.
pub fn failure_code_alone()
    ensures ends { alone_final (alone (setup_of (code_image failure_code) plain_machine) 4)
        ≡ record {
          end = Fail 7;
          stats = record no_stats { version = 0; instructions = 4 };
          pc = 0x80000010;
          regs = registers ((5, 0x100000) ∷ (6, 0x73333) ∷ []);
          csrs = record opening_csrs { retired = 4 };
          cmp = never;
        } }
    ensures not_before { (alone (setup_of (code_image failure_code) plain_machine) 3).end
        ≡ Running }
{}

/// The same output as on every machine.
pub fn uart_driver_alone()
    ensures ends { alone_final (alone
        (setup_of (data_image uart_driver 0x80001000 16 (0xa6948 ∷ [])) plain_machine) 39)
        ≡ record {
          end = Pass;
          stats = record no_stats { version = 0; instructions = 39; output = 3 };
          pc = 0x80000054;
          regs = registers ((6, 0x100000) ∷ (7, 0x5555) ∷ (8, 0x10000000) ∷ (9, 3) ∷
              (11, 0x80001003) ∷ (13, 32) ∷ []);
          csrs = record opening_csrs { retired = 39 };
          cmp = never;
        } }
    ensures sends { (alone (setup_of (data_image uart_driver 0x80001000 16 (0xa6948 ∷ []))
        plain_machine) 39).arch.output
        ≡ 72 ∷ 105 ∷ 10 ∷ [] }
    ensures not_before { (alone (setup_of (data_image uart_driver 0x80001000 16 (0xa6948 ∷ []))
        plain_machine) 38).end
        ≡ Running }
{}

/// A trap is a step.
pub fn load_fault_alone()
    ensures ends { alone_final (alone
        (setup_of (code_image speculative_misaligned_jump) plain_machine) 10)
        ≡ record {
          end = Pass;
          stats = record no_stats { version = 0; instructions = 9; exceptions = 1 };
          pc = 0x80000038;
          regs = registers ((5, 0x80000020) ∷ (6, 0x100000) ∷ (7, 0x5555) ∷ (9, 5) ∷ (10, 16) ∷ []);
          csrs = record opening_csrs {
            mtvec = 0x80000020;
            mepc = 0x8000000c;
            mcause = 5;
            mtval = 16;
            retired = 9;
          };
          cmp = never;
        } }
    ensures not_before { (alone (setup_of (code_image speculative_misaligned_jump) plain_machine)
        9).end
        ≡ Running }
{}

/// The time is the number of the step.
pub fn cycle_counter_alone()
    ensures ends { alone_final (alone (setup_of (code_image cycle_counter_twice) plain_machine) 6)
        ≡ record {
          end = Pass;
          stats = record no_stats { version = 0; instructions = 6 };
          pc = 0x80000018;
          regs = registers ((6, 1) ∷ (8, 0x100000) ∷ (9, 0x5555) ∷ []);
          csrs = record opening_csrs { retired = 6 };
          cmp = never;
        } }
    ensures not_before { (alone (setup_of (code_image cycle_counter_twice) plain_machine) 5).end
        ≡ Running }
{}

/// FENCE.I shows the patched instruction.
pub fn fence_i_alone()
    ensures ends { alone_final (alone
        (setup_of (code_image patched_instruction_with_fence) plain_machine) 9)
        ≡ record {
          end = Pass;
          stats = record no_stats { version = 0; instructions = 9 };
          pc = 0x80000024;
          regs = registers ((5, 0x80000000) ∷ (6, 0x100000) ∷ (7, 0x5555) ∷ (10, 2) ∷ []);
          csrs = record opening_csrs { retired = 9 };
          cmp = never;
        } }
    ensures not_before { (alone (setup_of (code_image patched_instruction_with_fence) plain_machine)
        8).end
        ≡ Running }
{}

/// A limit of ten steps is reached by ten traps.
pub fn trap_storm_alone()
    ensures ends { alone_final (alone
        (record (setup_of (code_image trap_storm) plain_machine) { cycles = 10 }) 10)
        ≡ record {
          end = Limit;
          stats = record no_stats { version = 0; exceptions = 10 };
          pc = 0;
          regs = registers [];
          csrs = record opening_csrs { mcause = 1 };
          cmp = never;
        } }
    ensures not_before { (alone (record (setup_of (code_image trap_storm) plain_machine)
        { cycles = 10 }) 9).end
        ≡ Running }
{}

/// The step that would send the fifth byte is not made.
pub fn output_full_alone()
    ensures ends { alone_final (alone
        (record (setup_of (code_image bytes_behind_a_division) plain_machine) { output = 4 }) 8)
        ≡ record {
          end = OutputFull;
          stats = record no_stats { version = 0; instructions = 7; output = 4 };
          pc = 0x8000001c;
          regs = registers ((8, 0x10000000) ∷ (9, 65) ∷ (10, 1) ∷ []);
          csrs = record opening_csrs { retired = 7 };
          cmp = never;
        } }
    ensures sends { (alone (record (setup_of (code_image bytes_behind_a_division) plain_machine)
        { output = 4 }) 8).arch.output
        ≡ 65 ∷ 65 ∷ 65 ∷ 65 ∷ [] }
    ensures not_before { (alone (record
        (setup_of (code_image bytes_behind_a_division) plain_machine) { output = 4 }) 7).end
        ≡ Running }
{}

/// The limit ends the run behind its step.
pub fn limit_inside_a_run_alone()
    ensures ends { alone_final (alone
        (record (setup_of (data_image uart_driver 0x80001000 16 (0xa6948 ∷ [])) plain_machine)
        { cycles = 25 }) 25)
        ≡ record {
          end = Limit;
          stats = record no_stats { version = 0; instructions = 25; output = 2 };
          pc = 0x80000024;
          regs = registers ((8, 0x10000000) ∷ (9, 3) ∷ (11, 0x80001002) ∷ (12, 105)
              ∷ (13, 32) ∷ []);
          csrs = record opening_csrs { retired = 25 };
          cmp = never;
        } }
    ensures sends { (alone (record (setup_of (data_image uart_driver 0x80001000 16 (0xa6948 ∷ []))
        plain_machine) { cycles = 25 }) 25).arch.output
        ≡ 72 ∷ 105 ∷ [] }
    ensures not_before { (alone (record
        (setup_of (data_image uart_driver 0x80001000 16 (0xa6948 ∷ [])) plain_machine)
        { cycles = 25 }) 24).end
        ≡ Running }
{}

/// An interrupt is taken before a step, and is no step.
pub fn vectored_interrupt_alone()
    ensures ends { alone_final (alone
        (setup_of (code_image vectored_interrupt_reads_time) plain_machine) 15)
        ≡ record {
          end = Pass;
          stats = record no_stats { version = 0; instructions = 15; interrupts = 1 };
          pc = 0x80000070;
          regs = registers ((5, 0x80000041) ∷ (6, 0x100000) ∷ (7, 0x5555) ∷ (8, 0x2004000) ∷
              (10, 128) ∷ (12, 10) ∷ (13, 0x200c000) ∷ []);
          csrs = record opening_csrs {
            mpie = true;
            mtie = true;
            mtvec = 0x80000041;
            mepc = 0x80000028;
            mcause = 0x80000007;
            retired = 15;
          };
          cmp = 0;
        } }
    ensures not_before { (alone (setup_of (code_image vectored_interrupt_reads_time) plain_machine)
        14).end
        ≡ Running }
{}

/// The time is the number of the step, so other interrupts come than on a pipeline.
pub fn interrupts_in_a_loop_alone()
    ensures ends { alone_final (alone (setup_of (code_image interrupt_storm) plain_machine) 130)
        ≡ record {
          end = Pass;
          stats = record no_stats { version = 0; instructions = 130; interrupts = 6 };
          pc = 0x8000004c;
          regs = registers ((5, 0x8000004c) ∷ (6, 0x100000) ∷ (7, 0x5555) ∷ (8, 0x2004000) ∷
              (9, 140) ∷ (10, 128) ∷ (12, 30) ∷ (13, 6) ∷ []);
          csrs = record opening_csrs {
            mpie = true;
            mtie = true;
            mtvec = 0x8000004c;
            mepc = 0x80000034;
            mcause = 0x80000007;
            retired = 130;
          };
          cmp = 140;
        } }
    ensures not_before { (alone (setup_of (code_image interrupt_storm) plain_machine) 129).end
        ≡ Running }
{}

/// The timer counts steps.
pub fn time_registers_alone()
    ensures ends { alone_final (alone (setup_of (code_image compare_registers) plain_machine) 20)
        ≡ record {
          end = Pass;
          stats = record no_stats { version = 0; instructions = 19; exceptions = 1 };
          pc = 0x80000050;
          regs = registers ((5, 0x80000038) ∷ (6, 0x100000) ∷ (7, 0x5555) ∷ (8, 0x2004000) ∷
              (9, 0xffffffff) ∷ (11, 30) ∷ (13, 30) ∷ (15, 0x200c000) ∷ (17, 5)
              ∷ (18, 0x200bff8) ∷ []);
          csrs = record opening_csrs {
            mtvec = 0x80000038;
            mepc = 0x80000034;
            mcause = 5;
            mtval = 0x200bff8;
            retired = 19;
          };
          cmp = 30;
        } }
    ensures not_before { (alone (setup_of (code_image compare_registers) plain_machine) 19).end
        ≡ Running }
{}

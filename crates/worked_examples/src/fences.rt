//! Instructions that are changed by the program.
#![tactic(auto, unfolding(crate::proofs::Computing::computing))]

ghost use Rattle.std.specs.Prelude.{◌≡◌, [], ◌∷◌};
ghost use Rattle.machine_csr.specs.Csr.{opening_csrs};
ghost use Rattle.mono_model.specs.declared.final_state.End.TheVariants.{Pass, Running};
ghost use Rattle.mono_model.specs.Cycle.{mono, final};
ghost use Rattle.worked_examples.specs.Setups.{code_image, plain_machine, setup_of, no_stats};
ghost use Rattle.worked_examples.specs.Setups.{registers, never};
ghost use Rattle.worked_examples.specs.Machines.{window_of_eight};
ghost use Rattle.worked_examples.specs.Fences.{patched_instruction_with_fence};
ghost use Rattle.worked_examples.specs.Fences.{patched_instruction_without_fence_i};

/// Behind FENCE.I the patched instruction is fetched.
pub fn fence_i_flushes()
    ensures ends { final (setup_of (code_image patched_instruction_with_fence) window_of_eight) 14
        ≡ record {
          end = Pass;
          stats = record no_stats { cycles = 14; instructions = 9; fetched = 13; squashed = 2 };
          pc = 0x80000024;
          regs = registers ((5, 0x80000000) ∷ (6, 0x100000) ∷ (7, 0x5555) ∷ (10, 2) ∷ []);
          csrs = record opening_csrs { retired = 9 };
          cmp = never;
        } }
    ensures not_before { (mono (setup_of (code_image patched_instruction_with_fence)
        window_of_eight) 13).end
        ≡ Running }
{}

/// One instruction at a time sees the patch only because of FENCE.I.
pub fn fence_i_on_the_plain_machine()
    ensures ends { final (setup_of (code_image patched_instruction_with_fence) plain_machine) 28
        ≡ record {
          end = Pass;
          stats = record no_stats { cycles = 28; instructions = 9; fetched = 9 };
          pc = 0x80000024;
          regs = registers ((5, 0x80000000) ∷ (6, 0x100000) ∷ (7, 0x5555) ∷ (10, 2) ∷ []);
          csrs = record opening_csrs { retired = 9 };
          cmp = never;
        } }
    ensures not_before { (mono (setup_of (code_image patched_instruction_with_fence) plain_machine)
        27).end
        ≡ Running }
{}

/// FENCE alone changes nothing for fetch.
pub fn fence_without_i_fetches_the_old_word()
    ensures ends { final (setup_of (code_image patched_instruction_without_fence_i) window_of_eight)
        12
        ≡ record {
          end = Pass;
          stats = record no_stats { cycles = 12; instructions = 9; fetched = 11 };
          pc = 0x80000024;
          regs = registers ((5, 0x80000000) ∷ (6, 0x100000) ∷ (7, 0x5555) ∷ (10, 1) ∷ []);
          csrs = record opening_csrs { retired = 9 };
          cmp = never;
        } }
    ensures not_before { (mono (setup_of (code_image patched_instruction_without_fence_i)
        window_of_eight) 11).end
        ≡ Running }
{}

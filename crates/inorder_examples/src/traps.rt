//! Traps, interrupts, the time and FENCE.I in five stages.
#![tactic(auto, unfolding(crate::proofs::Computing::inorder_computing))]

ghost use Rattle.std.specs.Prelude.{◌≡◌, [], ◌∷◌, true};
ghost use Rattle.machine_csr.specs.Csr.{opening_csrs};
ghost use Rattle.mono_model.specs.declared.final_state.End.TheVariants.{Pass, Running};
ghost use Rattle.worked_examples.specs.Setups.{code_image, setup_of, no_stats};
ghost use Rattle.worked_examples.specs.Setups.{registers, never};
ghost use Rattle.worked_examples.specs.Traps.{environment_call};
ghost use Rattle.worked_examples.specs.Time.{vectored_interrupt_reads_time};
ghost use Rattle.worked_examples.specs.Fences.{patched_instruction_with_fence};
ghost use Rattle.inorder_machine.specs.Cycle.{inorder, inorder_final};
ghost use Rattle.inorder_examples.specs.Machines.{in_order_machine};

/// A trap is taken in Write, and what stands behind it is flushed.
pub fn environment_call_in_order()
    ensures ends { inorder_final (setup_of (code_image environment_call) in_order_machine) 17
        ≡ record {
          end = Pass;
          stats = record no_stats {
            cycles = 17;
            instructions = 7;
            exceptions = 1;
            fetched = 14;
            squashed = 3;
          };
          pc = 0x80000020;
          regs = registers ((5, 0x80000010) ∷ (6, 0x100000) ∷ (7, 0x5555) ∷ []);
          csrs = record opening_csrs {
            mtvec = 0x80000010;
            mepc = 0x8000000c;
            mcause = 0xb;
            retired = 7;
          };
          cmp = never;
        } }
    ensures not_before { (inorder (setup_of (code_image environment_call) in_order_machine)
        16).machine.end
        ≡ Running }
{}

/// The interrupt is taken before Write, and the handler reads its time in the cycle in which it
/// is replayed.
pub fn vectored_interrupt_in_order()
    ensures ends { inorder_final (setup_of (code_image vectored_interrupt_reads_time)
        in_order_machine) 30
        ≡ record {
          end = Pass;
          stats = record no_stats {
            cycles = 30;
            instructions = 15;
            interrupts = 1;
            replays = 1;
            fetched = 23;
            squashed = 5;
          };
          pc = 0x80000070;
          regs = registers ((5, 0x80000041) ∷ (6, 0x100000) ∷ (7, 0x5555) ∷ (8, 0x2004000) ∷
              (10, 0x80) ∷ (12, 0x15) ∷ (13, 0x200c000) ∷ []);
          csrs = record opening_csrs {
            mpie = true;
            mtie = true;
            mtvec = 0x80000041;
            mepc = 0x80000028;
            mcause = 0x80000007;
            retired = 15;
          };
          cmp = 0;
        } }
    ensures not_before { (inorder (setup_of (code_image vectored_interrupt_reads_time)
        in_order_machine) 29).machine.end
        ≡ Running }
{}

/// FENCE.I is taken in Write, and what was fetched behind it is fetched anew.
pub fn fence_i_in_order()
    ensures ends { inorder_final (setup_of (code_image patched_instruction_with_fence)
        in_order_machine) 17
        ≡ record {
          end = Pass;
          stats = record no_stats {
            cycles = 17;
            instructions = 9;
            fetched = 15;
            squashed = 3;
          };
          pc = 0x80000024;
          regs = registers ((5, 0x80000000) ∷ (6, 0x100000) ∷ (7, 0x5555) ∷ (10, 2) ∷ []);
          csrs = record opening_csrs { retired = 9 };
          cmp = never;
        } }
    ensures not_before { (inorder (setup_of (code_image patched_instruction_with_fence)
        in_order_machine) 16).machine.end
        ≡ Running }
{}

//! The order of instructions in five stages.
#![tactic(auto, unfolding(crate::proofs::Computing::inorder_computing))]

ghost use Rattle.std.specs.Prelude.{◌≡◌, [], ◌∷◌};
ghost use Rattle.machine_csr.specs.Csr.{opening_csrs};
ghost use Rattle.mono_model.specs.declared.final_state.End.TheVariants.{Pass, Running};
ghost use Rattle.worked_examples.specs.Setups.{code_image, setup_of, no_stats};
ghost use Rattle.worked_examples.specs.Setups.{registers, never};
ghost use Rattle.worked_examples.specs.Pipeline.{
  smallest_pass,
  backward_branch_loop,
  four_divisions,
};
ghost use Rattle.worked_examples.specs.Memory.{load_on_a_wrong_path};
ghost use Rattle.inorder_machine.specs.Cycle.{inorder, inorder_final};
ghost use Rattle.inorder_examples.specs.Machines.{in_order_machine, slow_memory, slow_units};
ghost use Rattle.inorder_examples.specs.Machines.{one_line_cache_in_order};
ghost use Rattle.inorder_examples.specs.Programs.{load_and_use, load_and_later_use};

/// Four instructions follow each other through five stages: the last commits in the eighth cycle.
pub fn smallest_pass_in_order()
    ensures ends { inorder_final (setup_of (code_image smallest_pass) in_order_machine) 8
        ≡ record {
          end = Pass;
          stats = record no_stats {
            cycles = 8;
            instructions = 4;
            fetched = 7;
          };
          pc = 0x80000010;
          regs = registers ((5, 0x100000) ∷ (6, 0x5555) ∷ []);
          csrs = record opening_csrs { retired = 4 };
          cmp = never;
        } }
    ensures not_before { (inorder (setup_of
        (code_image smallest_pass) in_order_machine) 7).machine.end
        ≡ Running }
{}

/// A branch that goes back is found in Execute, and costs the instruction fetched behind it.
pub fn loop_in_order()
    ensures ends { inorder_final (setup_of (code_image backward_branch_loop) in_order_machine) 38
        ≡ record {
          end = Pass;
          stats = record no_stats {
            cycles = 38;
            instructions = 25;
            fetched = 37;
            squashed = 9;
            branches = 10;
            mispredicted = 9;
          };
          pc = 0x8000001c;
          regs = registers ((6, 0x100000) ∷ (7, 0x5555) ∷ []);
          csrs = record opening_csrs { retired = 25 };
          cmp = never;
        } }
    ensures not_before { (inorder (setup_of (code_image backward_branch_loop) in_order_machine)
        37).machine.end
        ≡ Running }
{}

/// An instruction that needs a loaded value waits until the load is in Write.
pub fn use_of_a_load_waits()
    ensures ends { inorder_final (setup_of (code_image load_and_use) in_order_machine) 12
        ≡ record {
          end = Pass;
          stats = record no_stats {
            cycles = 12;
            instructions = 7;
            fetched = 10;
          };
          pc = 0x8000001c;
          regs = registers ((5, 0x80000000) ∷ (6, 0x800002b7) ∷ (7, 0x800002b8) ∷
              (8, 0x100000) ∷ (9, 0x5555) ∷ []);
          csrs = record opening_csrs { retired = 7 };
          cmp = never;
        } }
    ensures not_before { (inorder (setup_of
        (code_image load_and_use) in_order_machine) 11).machine.end
        ≡ Running }
{}

/// With another instruction between them it waits no longer.
pub fn later_use_of_a_load_does_not_wait()
    ensures ends { inorder_final (setup_of (code_image load_and_later_use) in_order_machine) 11
        ≡ record {
          end = Pass;
          stats = record no_stats {
            cycles = 11;
            instructions = 7;
            fetched = 10;
          };
          pc = 0x8000001c;
          regs = registers ((5, 0x80000000) ∷ (6, 0x800002b7) ∷ (7, 0x800002b8) ∷
              (8, 0x100000) ∷ (9, 0x5555) ∷ []);
          csrs = record opening_csrs { retired = 7 };
          cmp = never;
        } }
    ensures not_before { (inorder (setup_of (code_image load_and_later_use) in_order_machine)
        10).machine.end
        ≡ Running }
{}

/// A slow memory holds the load, and what needs its value, two cycles longer, and the store at
/// the end too.
pub fn slow_memory_holds_what_needs_it()
    ensures ends { inorder_final (setup_of (code_image load_and_use) slow_memory) 16
        ≡ record {
          end = Pass;
          stats = record no_stats {
            cycles = 16;
            instructions = 7;
            fetched = 10;
          };
          pc = 0x8000001c;
          regs = registers ((5, 0x80000000) ∷ (6, 0x800002b7) ∷ (7, 0x800002b8) ∷
              (8, 0x100000) ∷ (9, 0x5555) ∷ []);
          csrs = record opening_csrs { retired = 7 };
          cmp = never;
        } }
    ensures not_before { (inorder (setup_of (code_image load_and_use) slow_memory) 15).machine.end
        ≡ Running }
{}

/// In Execute one instruction stands before the next, however many divide or multiply.
pub fn units_are_taken_in_order()
    ensures ends { inorder_final (setup_of (code_image four_divisions) slow_units) 51
        ≡ record {
          end = Pass;
          stats = record no_stats {
            cycles = 51;
            instructions = 13;
            fetched = 16;
          };
          pc = 0x80000034;
          regs = registers ((5, 0x64) ∷ (6, 0x100000) ∷ (7, 0x5555) ∷ (8, 7) ∷ (9, 0xe) ∷
              (10, 2) ∷ (12, 2) ∷ (13, 0x2bc) ∷ (15, 0x31) ∷ []);
          csrs = record opening_csrs { retired = 13 };
          cmp = never;
        } }
    ensures not_before { (inorder (setup_of (code_image four_divisions) slow_units) 50).machine.end
        ≡ Running }
{}

/// A load behind a mispredicted branch never comes to Memory, and brings no line.
pub fn wrong_path_load_never_comes_to_memory()
    ensures ends { inorder_final (setup_of
        (code_image load_on_a_wrong_path) one_line_cache_in_order)
        24
        ≡ record {
          end = Pass;
          stats = record no_stats {
            cycles = 24;
            instructions = 8;
            fetched = 12;
            squashed = 1;
            branches = 1;
            mispredicted = 1;
            dcache_accesses = 2;
            dcache_misses = 1;
          };
          pc = 0x80000024;
          regs = registers ((6, 0x100000) ∷ (7, 0x5555) ∷ (8, 0x80000000) ∷ []);
          csrs = record opening_csrs { retired = 8 };
          cmp = never;
        } }
    ensures not_before { (inorder (setup_of (code_image load_on_a_wrong_path)
        one_line_cache_in_order) 23).machine.end
        ≡ Running }
{}

//! Loads, stores and caches.
#![tactic(auto, unfolding(crate::proofs::Computing::computing))]

ghost use Rattle.std.specs.Prelude.{◌≡◌, [], ◌∷◌};
ghost use Rattle.machine_csr.specs.Csr.{opening_csrs};
ghost use Rattle.mono_model.specs.declared.final_state.End.TheVariants.{Pass, Running};
ghost use Rattle.mono_model.specs.Cycle.{mono, final};
ghost use Rattle.worked_examples.specs.Setups.{code_image, data_image, setup_of, no_stats};
ghost use Rattle.worked_examples.specs.Setups.{registers, never};
ghost use Rattle.worked_examples.specs.Machines.{one_line_cache, one_line_cache_plain_machine};
ghost use Rattle.worked_examples.specs.Machines.{one_line_cache_with_second_level};
ghost use Rattle.worked_examples.specs.Machines.{write_back_cache, slow_division_and_memory};
ghost use Rattle.worked_examples.specs.Machines.{instruction_cache, two_way_data_cache};
ghost use Rattle.worked_examples.specs.Machines.{two_memory_units, write_back_before_second_level};
ghost use Rattle.worked_examples.specs.Machines.{write_through_before_second_level};
ghost use Rattle.worked_examples.specs.Machines.{both_caches_before_second_level};
ghost use Rattle.worked_examples.specs.Pipeline.{smallest_pass};
ghost use Rattle.worked_examples.specs.Memory.{load_on_a_wrong_path, partly_covering_stores};
ghost use Rattle.worked_examples.specs.Memory.{dirty_line_is_dropped, overlapping_stores};
ghost use Rattle.worked_examples.specs.Memory.{three_lines_in_two_ways, dirty_lines};
ghost use Rattle.worked_examples.specs.Memory.{misaligned_load};

/// A load on a wrong path accesses the data cache, and its line replaces another.
pub fn wrong_path_load_evicts()
    ensures ends { final (setup_of (code_image load_on_a_wrong_path) one_line_cache) 32 ≡ record {
      end = Pass;
      stats = record no_stats {
        cycles = 32;
        instructions = 8;
        fetched = 11;
        squashed = 1;
        branches = 1;
        mispredicted = 1;
        dcache_accesses = 3;
        dcache_misses = 3;
      };
      pc = 0x80000024;
      regs = registers ((6, 0x100000) ∷ (7, 0x5555) ∷ (8, 0x80000000) ∷ []);
      csrs = record opening_csrs { retired = 8 };
      cmp = never;
    } }
    ensures not_before { (mono (setup_of (code_image load_on_a_wrong_path) one_line_cache) 31).end
        ≡ Running }
{}

/// One instruction at a time loads no line on a wrong path.
pub fn one_line_cache_on_the_plain_machine()
    ensures ends { final (setup_of (code_image load_on_a_wrong_path) one_line_cache_plain_machine)
        35
        ≡ record {
          end = Pass;
          stats = record no_stats {
            cycles = 35;
            instructions = 8;
            fetched = 8;
            branches = 1;
            mispredicted = 1;
            dcache_accesses = 2;
            dcache_misses = 1;
          };
          pc = 0x80000024;
          regs = registers ((6, 0x100000) ∷ (7, 0x5555) ∷ (8, 0x80000000) ∷ []);
          csrs = record opening_csrs { retired = 8 };
          cmp = never;
        } }
    ensures not_before { (mono (setup_of (code_image load_on_a_wrong_path)
        one_line_cache_plain_machine) 34).end
        ≡ Running }
{}

/// The line that was replaced is still in the second level.
pub fn wrong_path_load_evicts_before_a_second_level()
    ensures ends { final (setup_of (code_image load_on_a_wrong_path)
        one_line_cache_with_second_level) 26
        ≡ record {
          end = Pass;
          stats = record no_stats {
            version = 2;
            cycles = 26;
            instructions = 8;
            fetched = 11;
            squashed = 1;
            branches = 1;
            mispredicted = 1;
            dcache_accesses = 3;
            dcache_misses = 3;
            l2_accesses = 3;
            l2_misses = 2;
          };
          pc = 0x80000024;
          regs = registers ((6, 0x100000) ∷ (7, 0x5555) ∷ (8, 0x80000000) ∷ []);
          csrs = record opening_csrs { retired = 8 };
          cmp = never;
        } }
    ensures not_before { (mono (setup_of (code_image load_on_a_wrong_path)
        one_line_cache_with_second_level) 25).end
        ≡ Running }
{}

/// A load that misses drops the line that a store made dirty.
pub fn dirty_line_is_written_back()
    ensures ends { final (setup_of (code_image dirty_line_is_dropped) write_back_cache) 32
        ≡ record {
          end = Pass;
          stats = record no_stats {
            version = 2;
            cycles = 32;
            instructions = 7;
            fetched = 7;
            dcache_accesses = 2;
            dcache_misses = 2;
            writebacks = 1;
          };
          pc = 0x8000001c;
          regs = registers ((6, 0x100000) ∷ (7, 0x5555) ∷ (8, 0x80000000) ∷ []);
          csrs = record opening_csrs { retired = 7 };
          cmp = never;
        } }
    ensures not_before { (mono (setup_of (code_image dirty_line_is_dropped) write_back_cache)
        31).end
        ≡ Running }
{}

/// Each byte of a load is that of the youngest older store that covers it, and memory gives the
/// rest.
pub fn stores_partly_cover_a_load()
    ensures ends { final (setup_of (data_image partly_covering_stores 0x80000040 4
        (0x11223344 ∷ [])) slow_division_and_memory) 24
        ≡ record {
          end = Pass;
          stats = record no_stats { cycles = 24; instructions = 11; fetched = 18 };
          pc = 0x8000002c;
          regs = registers ((5, 170) ∷ (6, 0x100000) ∷ (7, 0x5555) ∷ (8, 0x80000000) ∷
              (9, 0x7bc33aa) ∷ (10, 1) ∷ []);
          csrs = record opening_csrs { retired = 11 };
          cmp = never;
        } }
    ensures not_before { (mono (setup_of
        (data_image partly_covering_stores 0x80000040 4 (0x11223344 ∷ []))
        slow_division_and_memory) 23).end
        ≡ Running }
{}

/// Four words lie in one line.
pub fn instruction_cache_misses_once()
    ensures ends { final (setup_of (code_image smallest_pass) instruction_cache) 33 ≡ record {
      end = Pass;
      stats = record no_stats {
        cycles = 33;
        instructions = 4;
        fetched = 4;
        icache_accesses = 4;
        icache_misses = 1;
      };
      pc = 0x80000010;
      regs = registers ((5, 0x100000) ∷ (6, 0x5555) ∷ []);
      csrs = record opening_csrs { retired = 4 };
      cmp = never;
    } }
    ensures not_before { (mono (setup_of (code_image smallest_pass) instruction_cache) 32).end
        ≡ Running }
{}

/// Each byte comes from the youngest older store over it, and a load waits until all older stores
/// are done.
pub fn youngest_older_store_wins()
    ensures ends { final (setup_of (code_image overlapping_stores) slow_division_and_memory) 38
        ≡ record {
          end = Pass;
          stats = record no_stats { cycles = 38; instructions = 18; fetched = 25 };
          pc = 0x80000048;
          regs = registers ((6, 0x100000) ∷ (7, 0x5555) ∷ (8, 0x80000100) ∷ (9, 0x12345000) ∷
              (10, 85) ∷ (11, 0x36d3c3) ∷ (12, 0x55d3c3) ∷ (13, 85) ∷ (14, 0xffffffd3) ∷
              (15, 0x55d355) ∷ []);
          csrs = record opening_csrs { retired = 18 };
          cmp = never;
        } }
    ensures not_before { (mono (setup_of (code_image overlapping_stores) slow_division_and_memory)
        37).end
        ≡ Running }
{}

/// The same values with two memory units and a cache.
pub fn overlapping_stores_on_a_wide_machine()
    ensures ends { final (setup_of (code_image overlapping_stores) two_memory_units) 27 ≡ record {
      end = Pass;
      stats = record no_stats {
        cycles = 27;
        instructions = 18;
        fetched = 33;
        dcache_accesses = 9;
        dcache_misses = 3;
      };
      pc = 0x80000048;
      regs = registers ((6, 0x100000) ∷ (7, 0x5555) ∷ (8, 0x80000100) ∷ (9, 0x12345000) ∷
          (10, 85) ∷ (11, 0x36d3c3) ∷ (12, 0x55d3c3) ∷ (13, 85) ∷ (14, 0xffffffd3) ∷
          (15, 0x55d355) ∷ []);
      csrs = record opening_csrs { retired = 18 };
      cmp = never;
    } }
    ensures not_before { (mono (setup_of (code_image overlapping_stores) two_memory_units) 26).end
        ≡ Running }
{}

/// C replaces B, which was used before A was used again.
pub fn least_recently_used_way_goes()
    ensures ends { final (setup_of (code_image three_lines_in_two_ways) two_way_data_cache) 24
        ≡ record {
          end = Pass;
          stats = record no_stats {
            cycles = 24;
            instructions = 11;
            fetched = 18;
            dcache_accesses = 6;
            dcache_misses = 4;
          };
          pc = 0x8000002c;
          regs = registers ((6, 0x100000) ∷ (7, 0x5555) ∷ (8, 0x80000000) ∷ (9, 0x80000437) ∷
              (11, 0x42483) ∷ (13, 0x4042503) ∷ []);
          csrs = record opening_csrs { retired = 11 };
          cmp = never;
        } }
    ensures not_before { (mono (setup_of (code_image three_lines_in_two_ways) two_way_data_cache)
        23).end
        ≡ Running }
{}

/// Two loads begin in one cycle, and the older accesses the cache first.
pub fn two_loads_a_cycle()
    ensures ends { final (setup_of (code_image three_lines_in_two_ways) two_memory_units) 20
        ≡ record {
          end = Pass;
          stats = record no_stats {
            cycles = 20;
            instructions = 11;
            fetched = 25;
            dcache_accesses = 6;
            dcache_misses = 6;
          };
          pc = 0x8000002c;
          regs = registers ((6, 0x100000) ∷ (7, 0x5555) ∷ (8, 0x80000000) ∷ (9, 0x80000437) ∷
              (11, 0x42483) ∷ (13, 0x4042503) ∷ []);
          csrs = record opening_csrs { retired = 11 };
          cmp = never;
        } }
    ensures not_before { (mono (setup_of (code_image three_lines_in_two_ways) two_memory_units)
        19).end
        ≡ Running }
{}

/// A dirty line that is dropped accesses the second level behind the miss.
pub fn written_back_lines_access_the_second_level()
    ensures ends { final (setup_of (code_image dirty_lines) write_back_before_second_level) 35
        ≡ record {
          end = Pass;
          stats = record no_stats {
            version = 2;
            cycles = 35;
            instructions = 17;
            fetched = 24;
            dcache_accesses = 10;
            dcache_misses = 8;
            l2_accesses = 10;
            l2_misses = 7;
            writebacks = 2;
          };
          pc = 0x80000044;
          regs = registers ((6, 0x100000) ∷ (7, 0x5555) ∷ (8, 0x80000100) ∷ (9, 1) ∷ (11, 1) ∷
              (13, 1) ∷ (14, 1) ∷ []);
          csrs = record opening_csrs { retired = 17 };
          cmp = never;
        } }
    ensures not_before { (mono (setup_of (code_image dirty_lines) write_back_before_second_level)
        34).end
        ≡ Running }
{}

/// With the policy of writing through no line is ever written back.
pub fn write_through_drops_nothing_dirty()
    ensures ends { final (setup_of (code_image dirty_lines) write_through_before_second_level) 35
        ≡ record {
          end = Pass;
          stats = record no_stats {
            version = 2;
            cycles = 35;
            instructions = 17;
            fetched = 24;
            dcache_accesses = 10;
            dcache_misses = 8;
            l2_accesses = 8;
            l2_misses = 8;
          };
          pc = 0x80000044;
          regs = registers ((6, 0x100000) ∷ (7, 0x5555) ∷ (8, 0x80000100) ∷ (9, 1) ∷ (11, 1) ∷
              (13, 1) ∷ (14, 1) ∷ []);
          csrs = record opening_csrs { retired = 17 };
          cmp = never;
        } }
    ensures not_before { (mono (setup_of (code_image dirty_lines) write_through_before_second_level)
        34).end
        ≡ Running }
{}

/// Misses of both caches go to one second level.
pub fn instructions_and_data_share_the_second_level()
    ensures ends { final (setup_of (code_image dirty_lines) both_caches_before_second_level) 70
        ≡ record {
          end = Pass;
          stats = record no_stats {
            version = 2;
            cycles = 70;
            instructions = 17;
            fetched = 19;
            icache_accesses = 17;
            icache_misses = 5;
            dcache_accesses = 10;
            dcache_misses = 7;
            l2_accesses = 12;
            l2_misses = 11;
          };
          pc = 0x80000044;
          regs = registers ((6, 0x100000) ∷ (7, 0x5555) ∷ (8, 0x80000100) ∷ (9, 1) ∷ (11, 1) ∷
              (13, 1) ∷ (14, 1) ∷ []);
          csrs = record opening_csrs { retired = 17 };
          cmp = never;
        } }
    ensures not_before { (mono (setup_of (code_image dirty_lines) both_caches_before_second_level)
        69).end
        ≡ Running }
{}

/// A misaligned load is counted nowhere.
pub fn load_with_a_fault_accesses_no_cache()
    ensures ends { final (setup_of (code_image misaligned_load) two_way_data_cache) 17 ≡ record {
      end = Pass;
      stats = record no_stats {
        cycles = 17;
        instructions = 9;
        exceptions = 1;
        fetched = 16;
        squashed = 3;
      };
      pc = 0x80000028;
      regs = registers ((5, 0x80000010) ∷ (6, 0x100000) ∷ (7, 0x5555) ∷ (9, 4) ∷
          (10, 0x80000011) ∷ []);
      csrs = record opening_csrs {
        mtvec = 0x80000010;
        mepc = 0x8000000c;
        mcause = 4;
        mtval = 0x80000011;
        retired = 9;
      };
      cmp = never;
    } }
    ensures not_before { (mono (setup_of (code_image misaligned_load) two_way_data_cache) 16).end
        ≡ Running }
{}

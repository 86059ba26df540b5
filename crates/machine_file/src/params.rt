ghost use Rattle.std.specs.Prelude.{◌≡◌, map};
ghost use Rattle.toml.specs.Data.{Members};
ghost use Rattle.machine_file.specs.Table.{rows};
ghost use Rattle.machine_file.specs.File.{kind_at, params_by, value_at, value_of};

use crate::table::ROW_COUNT;
use branch_predictor::PredKind;
use mono_model::Params;

/// The kind of predictor whose text has this place.
fn predictor_kind(place: u32) -> PredKind
    ensures { result ≡ kind_at place }
{
    match place {
        1 => PredKind::Bimodal,
        2 => PredKind::Gshare,
        _ => PredKind::Static,
    }
}

/// The parameters of which these are the numbers, in the order of the table.
pub(crate) fn params(numbers: [u32; ROW_COUNT]) -> Params
    ensures { (file : Members) → numbers ≡ map (value_of file) rows
        → result ≡ params_by (value_at file) }
{
    let [
        version,
        ram_base,
        ram_size,
        core_fetch,
        core_commit,
        core_front,
        core_window,
        core_stations,
        alu_count,
        alu_latency,
        mul_count,
        mul_latency,
        div_count,
        div_latency,
        mem_count,
        mem_latency,
        kind,
        predictor_counters,
        predictor_history,
        predictor_targets,
        icache_line,
        dcache_line,
        icache_sets,
        dcache_sets,
        icache_ways,
        dcache_ways,
        icache_miss,
        dcache_miss,
        policy,
        l2_line,
        l2_sets,
        l2_ways,
        l2_hit,
        l2_miss,
    ] = numbers;
    Params {
        version,
        ram_base,
        ram_size,
        core_fetch,
        core_commit,
        core_front,
        core_window,
        core_stations,
        alu_count,
        alu_latency,
        mul_count,
        mul_latency,
        div_count,
        div_latency,
        mem_count,
        mem_latency,
        predictor_kind: predictor_kind(kind),
        predictor_counters,
        predictor_history,
        predictor_targets,
        icache_line,
        icache_sets,
        icache_ways,
        icache_miss,
        dcache_line,
        dcache_sets,
        dcache_ways,
        dcache_miss,
        dcache_back: policy == 1,
        l2_line,
        l2_sets,
        l2_ways,
        l2_hit,
        l2_miss,
    }
}

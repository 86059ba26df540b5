ghost use Rattle.std.specs.Prelude.{◌≡◌, true};
ghost use Rattle.machine_file.specs.File.{IsMachine};
ghost use Rattle.mono_model.specs.Setup.{are_params, ram_range};
ghost use Rattle.gen_image.specs.Machine.{soak_machine};
ghost use Rattle.gen_image.specs.Soak.{plain_ram};

use branch_predictor::PredKind;
use mono_model::Params;

/// The machine that the soak program runs on: the parameters that its machine file gives.
pub fn soak_params() -> Params
    ensures machine { IsMachine soak_machine result }
    ensures in_range { are_params result ≡ true }
    ensures ram { ram_range result ≡ plain_ram }
{
    Params {
        core_fetch: 4,
        core_commit: 4,
        core_front: 5,
        core_window: 64,
        core_stations: 32,
        alu_count: 3,
        mul_latency: 3,
        div_latency: 20,
        mem_count: 2,
        mem_latency: 2,
        predictor_kind: PredKind::Gshare,
        predictor_counters: 4096,
        predictor_history: 12,
        predictor_targets: 512,
        icache_ways: 4,
        dcache_ways: 4,
        ..Params::plain()
    }
}

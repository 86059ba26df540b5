ghost use Rattle.std.specs.Prelude.{◌≡◌};
ghost use Rattle.mono_model.specs.Setup.{icache_params, dcache_params, l2_params, predictor_params};
ghost use Rattle.mono_model.specs.Setup.{caches_params};

use branch_predictor::PredParams;
use cache_timing::{AllCaches, CacheParams};
use mono_model::Params;

/// The sizes of the predictor.
pub fn predictor_params(p: &Params) -> PredParams
    ensures sizes { result ≡ predictor_params p.now }
{
    PredParams {
        kind: p.predictor_kind,
        counters: p.predictor_counters,
        history: p.predictor_history,
        targets: p.predictor_targets,
    }
}

fn icache_params(p: &Params) -> CacheParams
    ensures sizes { result ≡ icache_params p.now }
{
    CacheParams {
        line: p.icache_line,
        sets: p.icache_sets,
        ways: p.icache_ways,
        miss: p.icache_miss,
    }
}

fn dcache_params(p: &Params) -> CacheParams
    ensures sizes { result ≡ dcache_params p.now }
{
    CacheParams {
        line: p.dcache_line,
        sets: p.dcache_sets,
        ways: p.dcache_ways,
        miss: p.dcache_miss,
    }
}

fn l2_params(p: &Params) -> CacheParams
    ensures sizes { result ≡ l2_params p.now }
{
    CacheParams {
        line: p.l2_line,
        sets: p.l2_sets,
        ways: p.l2_ways,
        miss: p.l2_miss,
    }
}

/// The sizes and costs of the caches.
pub fn caches_params(p: &Params) -> AllCaches
    ensures sizes { result ≡ caches_params p.now }
{
    AllCaches {
        icache: icache_params(p),
        dcache: dcache_params(p),
        back: p.dcache_back,
        l2: l2_params(p),
        l2_hit: p.l2_hit,
    }
}

ghost use Rattle.std.specs.Prelude.{◌≡◌, ◌<◌};
ghost use Rattle.branch_predictor.specs.Params.{IsInRange};
ghost use Rattle.mono_model.specs.Setup.{predictor_params};

use branch_predictor::Predictor;
use fsim_base::{Flow, NoMemory};
use mono_model::Params;
use std::alloc::Global;
use timing_core::{flow_of, predictor_params};
use trace_entry::Entry;

/// So many of the last entries are kept until they are committed. Where more are under way, the
/// predictor learns of others in their stead.
const KEPT: usize = 512;

/// What the predictor learns of an instruction that is committed.
#[derive(Clone, Copy, Debug)]
struct Outcome {
    addr: u32,
    next: u32,
    flow: Flow,
}

impl Outcome {
    /// Of which nothing is learnt.
    const NONE: Outcome = Outcome {
        addr: 0,
        next: 0,
        flow: Flow::Plain,
    };
}

/// What the functional side foresees of the timing side's predictions.
///
/// Where fetch goes another way than the program, the timing side opens an epoch, and all that was
/// made behind that instruction was made for nothing. So this side has a predictor of its own, of
/// the timing side's sizes, which learns of what is known to be committed. It lags behind a little,
/// and may be wrong: it says when to wait for an order, and nothing else.
#[derive(Debug, Drop)]
pub struct Foresight {
    predictor: Predictor,
    /// By the lowest bits of the entry's number.
    outcomes: [Outcome; KEPT],
}

impl Foresight {
    /// Foresight that has learnt nothing. It takes its memory here and none later.
    pub fn new(alloc: Global, params: &Params) -> Result<Foresight, NoMemory>
        requires in_range { IsInRange (predictor_params params.now) }
    {
        let predictor = Predictor::new(alloc, predictor_params(params))?;
        Ok(Foresight {
            predictor,
            outcomes: [Outcome::NONE; KEPT],
        })
    }

    /// Keeps what is to be learnt of an entry, and says whether the timing side will probably go
    /// another way behind it.
    pub fn departs(&mut self, entry: &Entry) -> bool {
        self.outcomes[place_of(entry.number)] = Outcome {
            addr: entry.addr,
            next: entry.next,
            flow: flow_behind(entry),
        };
        self.predictor.predict(entry.addr) != entry.next
    }

    /// Learns of the entries from number `start` up to `end`, which are committed now.
    pub fn learn(&mut self, start: u64, end: u64) {
        for number in start..end {
            let outcome = self.outcomes[place_of(number)];
            self.predictor
                .train(outcome.addr, outcome.flow, outcome.next);
        }
    }
}

/// Where what is learnt of an entry is kept.
fn place_of(number: u64) -> usize
    ensures within { result < 512 }
{
    (number % KEPT as u64) as usize
}

/// What a predictor learns from an entry's instruction: of one that traps nothing.
fn flow_behind(entry: &Entry) -> Flow {
    match entry.cause {
        Some(_) => Flow::Plain,
        None => flow_of(entry.word),
    }
}

ghost use Rattle.std.specs.Prelude.{◌≡◌, ◌+◌, ◌<◌, ◌≤◌, vec_len, IsTrue};
ghost use Rattle.std.specs.Int.{is_power_of_two};
ghost use Rattle.branch_predictor.specs.Params.{IsInRange};

use crate::number::{history_mask, longer, moved, place_in};
use crate::params::{PredKind, PredParams, Target};
use fsim_base::{Flow, NoMemory, wrap_add};
use std::alloc::Global;

/// Where the instruction goes that a place of the target buffer knows of.
#[derive(Clone, Copy, Debug)]
struct Way {
    /// `Flow::Branch` where a counter tells whether it goes there.
    flow: Flow,
    /// For `Flow::Plain` the address behind it.
    next: u32,
}

/// A branch predictor: what fetch takes for the next address. A mask is one less than the power of
/// two that it takes the remainder by.
#[derive(Debug, Drop)]
pub struct Predictor {
    params: PredParams,
    /// Those of a static predictor stay as they were made, and predict no branch taken.
    counters: Vec<u8>,
    counter_mask: u32,
    /// The address of the instruction that each place knows of. One that knows nothing knows that
    /// a plain instruction is at 0; without a target buffer there is one place, which stays so.
    addrs: Vec<u32>,
    /// Apart from their addresses, which most predictions read alone.
    ways: Vec<Way>,
    place_mask: u32,
    /// The latest outcomes, the newest in bit 0, 1 for taken; 0 where they select no counter.
    history: u32,
    history_mask: u32,
    ghost every_counter: { vec_len counters ≡ counter_mask + 1 },
    ghost every_addr: { vec_len addrs ≡ place_mask + 1 },
    ghost every_way: { vec_len ways ≡ place_mask + 1 },
    ghost counters_power: { IsTrue (is_power_of_two (counter_mask + 1)) },
    ghost places_power: { IsTrue (is_power_of_two (place_mask + 1)) },
    ghost history_limit: { history ≤ history_mask },
    ghost history_mask_limit: { history_mask < 65536 },
}

impl Predictor {
    ghost use Rattle.std.specs.Prelude.{ℕ, ◌≢◌, IfOk};
    ghost use Rattle.branch_predictor.specs.Predictor.{Predicting, untrained, counter_index};
    ghost use Rattle.branch_predictor.specs.Predictor.{is_taken, predicted, counted};
    ghost use Rattle.branch_predictor.specs.Predictor.{placed, trained};
    ghost use Rattle.branch_predictor.specs.PredictorStandsFor.{PredictorStandsFor};
    ghost use Rattle.fsim_base.specs.declared.instruction.Flow.TheVariants.{Plain};

    /// A predictor of these sizes that has learnt nothing. It takes its memory here and none later.
    pub fn new(alloc: Global, p: PredParams) -> Result<Predictor, NoMemory>
        requires in_range { IsInRange p }
        ensures untrained { IfOk result (λ it. PredictorStandsFor it p untrained) }
    {
        let Ok(counters) = vec![in alloc; 1u8; p.counters as usize] else {
            return Err(NoMemory);
        };
        let places = p.targets.max(1);
        let Ok(addrs) = vec![in alloc; 0u32; places as usize] else {
            return Err(NoMemory);
        };
        let nothing = Way {
            flow: Flow::Plain,
            next: 4,
        };
        let Ok(ways) = vec![in alloc; nothing; places as usize] else {
            return Err(NoMemory);
        };
        Ok(Predictor {
            params: p,
            counters,
            counter_mask: p.counters - 1,
            addrs,
            ways,
            place_mask: places - 1,
            history: 0,
            history_mask: history_mask(p.kind, p.history),
        })
    }

    /// The index of the counter of the branch at an address.
    fn counter_index(&self, addr: u32) -> usize
        ensures within { result < vec_len self.now.counters }
        ensures index { (p : PredParams) (s : Predicting) → PredictorStandsFor self.now p s →
            result ≡ counter_index p s addr }
    {
        place_in(self.counter_mask, (addr / 4) ^ self.history)
    }

    /// Whether the branch at an address is predicted taken.
    fn is_taken(&self, addr: u32) -> bool
        ensures { (p : PredParams) (s : Predicting) → PredictorStandsFor self.now p s →
            result ≡ is_taken p s addr }
    {
        self.counters[self.counter_index(addr)] >= 2
    }

    /// The address that is taken to follow the instruction at an address.
    #[tactic(auto, unfolding(crate::specs::Predictor::predicted))]
    pub fn predict(&self, addr: u32) -> u32
        ensures predicted { (p : PredParams) (s : Predicting) → PredictorStandsFor self.now p s →
            result ≡ predicted p s addr }
    {
        let behind = wrap_add(addr, 4);
        let place = place_in(self.place_mask, addr / 4);
        if self.addrs[place] != addr {
            return behind;
        }
        let way = self.ways[place];
        match way.flow {
            Flow::Branch if !self.is_taken(addr) => behind,
            _ => way.next,
        }
    }

    /// Learns the outcome of the branch at an address. A static predictor has nothing to learn.
    fn count(&mut self, addr: u32, taken: bool)
        ensures { (p : PredParams) (s : Predicting) → PredictorStandsFor self.old p s →
            PredictorStandsFor self.new p (counted p addr taken s) }
    {
        if self.params.kind == PredKind::Static {
            return;
        }
        let index = self.counter_index(addr);
        self.counters[index] = moved(taken, self.counters[index]);
        self.history = longer(self.history, self.history_mask, taken);
    }

    /// Writes a target to its place.
    fn place(&mut self, target: Target)
        requires goes { target.flow ≢ Plain }
        ensures { (p : PredParams) (s : Predicting) → PredictorStandsFor self.old p s →
            PredictorStandsFor self.new p (placed p target s) }
    {
        if self.params.targets != 0 {
            let index = place_in(self.place_mask, target.addr / 4);
            self.addrs[index] = target.addr;
            self.ways[index] = Way {
                flow: target.flow,
                next: target.next,
            };
        }
    }

    /// Learns from an instruction that was committed without a fault and went from `addr` to
    /// `next`.
    #[inline(always)]
    #[tactic(auto, unfolding(crate::specs::Predictor::trained))]
    pub fn train(&mut self, addr: u32, flow: Flow, next: u32)
        ensures trained { (p : PredParams) (s : Predicting) → PredictorStandsFor self.old p s →
            PredictorStandsFor self.new p (trained p s addr flow next) }
    {
        let target = Target { addr, flow, next };
        match flow {
            Flow::Plain => {}
            Flow::Branch => {
                let taken = next != wrap_add(addr, 4);
                self.count(addr, taken);
                if taken {
                    self.place(target);
                }
            }
            Flow::Jump => self.place(target),
        }
    }
}

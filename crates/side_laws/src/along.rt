//! A functional side that obeys the orders of a run, one after the other.
#![tactic(auto)]

ghost use Rattle.std.specs.Prelude.{◌≡◌, ◌≤◌, ℕ, true, Some, List, ◌∷◌, ◌++◌, [], length};
ghost use Rattle.rollback_cmds.specs.declared.order.Order.{Order};
ghost use Rattle.mono_model.specs.declared.setup.Setup.{Setup};
ghost use Rattle.mono_model.specs.Setup.{is_setup};
ghost use Rattle.mono_model.specs.Cycle.{mono};
ghost use Rattle.mono_model.specs.Demand.{place, told, order};
ghost use Rattle.machine_laws.specs.Stays.{KeepsBelow, KeepsAt};
ghost use Rattle.func_model.specs.declared.walk.Walk.{Walk};
ghost use Rattle.func_model.specs.Contents.{ContentsStandFor};
ghost use Rattle.func_model.specs.Walk.{WalkStandsFor, IsFresh, IsForward, IsAtRest};
ghost use Rattle.func_model.specs.Walk.{IsObeyed};
ghost use Rattle.side_laws.specs.Along.{IsAlong, MayObey, MayProduce};

use device_bus::Device;

/// The next order of the run may be obeyed, and an entry produced.
#[tactic(auto, using(crate::proofs::Obeying::may_produce))]
pub fn functional_side_may_obey_what_comes_next<D: Device>()
    ensures obeys { (s : Setup) (os : List Order) (o : Order) (side : Walk D) → is_setup s ≡ true
        → IsAlong s os side → order s (length os) ≡ Some o → MayObey o side }
    ensures produces { (s : Setup) (os : List Order) (side : Walk D) → is_setup s ≡ true
        → IsAlong s os side → MayProduce side }
{}

/// From its start on, with each entry that it produces and each order that it obeys.
pub fn functional_side_goes_along<D: Device>()
    ensures start { (s : Setup) (side : Walk D) → WalkStandsFor s [] side → IsFresh side
        → IsAlong s [] side }
    ensures produced { (s : Setup) (os : List Order) (old new : Walk D) → IsAlong s os old
        → WalkStandsFor s os new → IsForward old new → (IsAtRest old → ⊥) → IsAlong s os new }
    ensures obeyed { (s : Setup) (os : List Order) (o : Order) (old new : Walk D) → 1 ≤ s.cycles
        → IsAlong s os old → order s (length os) ≡ Some o → WalkStandsFor s (o ∷ os) new
        → IsObeyed o old new → IsAlong s (o ∷ os) new }
{}

/// What it has committed stays, whatever orders of the run it obeys after that: no number is taken
/// back, and the path below it stays. If each order of the turns made so far is obeyed, only
/// interrupts change the path at it.
#[tactic(auto, using(crate::proofs::Staying::along_rises, crate::proofs::Staying::along_below, crate::proofs::Staying::along_at))]
pub fn what_a_functional_side_commits_stays<D: Device>()
    ensures number { (s : Setup) (os later : List Order) (old new : Walk D) → IsAlong s os old
        → IsAlong s (later ++ os) new → old.committed ≤ new.committed }
    ensures below { (s : Setup) (os later : List Order) (old new : Walk D) → IsAlong s os old
        → IsAlong s (later ++ os) new → KeepsBelow s old.committed os later }
    ensures at { (s : Setup) (k : ℕ) (later : List Order) (old new : Walk D)
        → (place s k).owed ≡ 0 → IsAlong s (told (place s k)) old
        → IsAlong s (later ++ told (place s k)) new
        → KeepsAt s old.committed (told (place s k)) later }
{}

/// Once it is stopped it holds the state in which the monolithic machine ends.
#[tactic(auto, using(crate::proofs::Goes::along_end))]
pub fn functional_side_holds_the_end<D: Device>()
    ensures contents { (s : Setup) (os : List Order) (side : Walk D) → 1 ≤ s.cycles
        → IsAlong s os side → side.is_stopped ≡ true
        → ContentsStandFor s (mono s s.cycles).arch side.contents }
{}

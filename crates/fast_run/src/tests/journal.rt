//! A journal that is full: how far the functional side executes ahead of what is committed.
ghost use Rattle.std.specs.Prelude.{◌≡◌, ◌+◌, ◌<◌, ◌≤◌, ◌^◌, []};
ghost use Rattle.mono_model.specs.declared.setup.Setup.{Setup as RunSetup};
ghost use Rattle.func_model.specs.Walk.{IsFresh, IsSameBut, WalkStandsFor};

use super::image_of;
use device_bus::{AnyDevice, Console, Device, Finisher, Timer, in_order};
use elf_image::read;
use fsim_base::Bytes;
use func_model::FuncSide;
use mono_model::{Params, Setup};
use rollback_cmds::Order;
use std::alloc::Global;
use std::process::Abort;
use std::test::Fail;

/// A loop: ADDI x5, x0, 10; ADDI x5, x5, -1; BNE x5, x0, -4.
const LOOP: &str = "00a00293 fff28293 fe029ee3";

/// The number of the next instruction that is executed, if the journal has room for it.
fn next_number<D: Device>(side: &mut FuncSide<D>) -> Option<u64>
    requires position { side.old.position < 2 ^ 61 }
    requires epoch { side.old.epoch < 2 ^ 61 }
    ensures position { side.new.position ≤ side.old.position + 1 }
    ensures others { IsSameBut side.old side.new }
    ensures stands { (s : RunSetup) → WalkStandsFor s [] side.old → WalkStandsFor s [] side.new }
{
    Some(side.produce()?.number)
}

/// Fills the journal, which has room for four steps, and has one more step made once one of them is
/// committed.
#[tactic(auto, using(crate::proofs::Journal::quiet_has_room))]
fn check_room<D: Device>(rt: &impl Abort, setup: &Setup, side: &mut FuncSide<D>)
    requires fresh { IsFresh side.old }
    requires stands { WalkStandsFor setup.now [] side.old }
{
    let first = [
        next_number(side),
        next_number(side),
        next_number(side),
        next_number(side),
        next_number(side),
    ];
    assert_eq!(rt; first, [Some(0), Some(1), Some(2), Some(3), None]);
    assert!(rt; side.steps_back() == 4);
    assert!(rt; side.output().is_empty());
    side.obey(Order::Commit { n: 1 });
    assert_eq!(rt; [next_number(side), next_number(side)], [Some(4), None]);
}

fn devices_of(alloc: Global) -> Result<Vec<AnyDevice>, Fail> {
    let mut devices = Vec::new(alloc);
    devices.push(AnyDevice::Console(Console::new(alloc)?))?;
    devices.push(AnyDevice::Timer(Timer::new()))?;
    devices.push(AnyDevice::Finisher(Finisher::new()))?;
    Ok(devices)
}

/// In the journal are as many steps as the window and the ring have places, and two more: the entry
/// that is computed and the one that is held.
#[test]
fn journal_is_full_until_an_instruction_commits(rt: HostRuntime) -> Result<(), Fail> {
    let alloc = rt.alloc();
    let params = Params::plain();
    let setup = Setup {
        image: read(alloc, image_of(alloc, LOOP)?.as_slice(), params.ram_range())?,
        params,
        input: Bytes::new(Vec::new(alloc)),
        cycles: 1000,
        output: 0,
        ring: 1,
    };
    let devices = devices_of(alloc)?;
    assert!(rt; setup.sound() && in_order(devices.as_slice()));
    let mut side = FuncSide::new(alloc, &setup, devices)?;
    check_room(&rt, &setup, &mut side);
    Ok(())
}

//! Plans that starve a side, each ten thousand times, and a sink that fails behind a long run. The
//! reports are those of another simulator: `reference/out/reference sched` writes them again.
use super::answer;
use super::programs::{files_of_runs, repeated};
use super::reports::check_report;
use fsim_ports::{MemoryFiles, MemorySink};
use std::test::Fail;

/// Events, and what is reported of a loop where they lead to, with room for one entry.
const PLANS: [(&str, &str); 5] = [
    ("C", "status: running; cycles: 0; fetched: 0; pc: 80000000"),
    ("CP", "status: running; cycles: 0; fetched: 0; pc: 80000000"),
    (
        "CPK",
        "status: running; cycles: 0; fetched: 0; pc: 80000000",
    ),
    (
        "CPKT",
        "status: running; cycles: 3; fetched: 3; pc: 80000000",
    ),
    (
        "CPKTS",
        concat!(
            "status: running; cycles: 4; instructions: 1; fetched: 4; pc: 80000004; ",
            "x4=00000000 x5=0000000a x6=00000000 x7=00000000",
        ),
    ),
];

fn plans() -> &'static [(&'static str, &'static str)] {
    &PLANS
}

#[test]
fn plans_that_starve_a_side_lead_to_the_machines_cycle(rt: HostRuntime) -> Result<(), Fail> {
    let alloc = rt.alloc();
    let mut files = files_of_runs(alloc)?;
    for &(events, lines) in plans() {
        let plan = repeated(alloc, events.as_bytes(), 10_000)?;
        files.add(events, plan.as_slice())?;
        let text = format!(in alloc; "sched loop targets {events} --ring 1")?;
        check_report(&rt, alloc, text.as_str(), &mut files, 4, lines)?;
    }
    Ok(())
}

#[test]
fn soak_over_a_sink_that_fails_leaves_a_prefix(rt: HostRuntime) -> Result<(), Fail> {
    let alloc = rt.alloc();
    let mut files = MemoryFiles::new(alloc);
    let mut sink = MemorySink::new(alloc, 4096)?;
    sink.fail_at(2)?;
    assert_eq!(rt; answer(&rt, alloc, "soak 7", &mut files, &mut sink)?, 15);
    assert_eq!(rt; sink.bytes(), b"status: pass\n".as_slice());
    Ok(())
}

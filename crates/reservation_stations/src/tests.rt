use crate::{Destination, Registers, Sought, Source, Stations};
use std::test::Fail;

fn registers(sources: (Option<u8>, Option<u8>), destination: Option<u8>) -> Registers {
    Registers {
        sources: (Source::of(sources.0), Source::of(sources.1)),
        destination: Destination::of(destination),
    }
}

/// How many wait, and the first two places that can begin.
fn seen(stations: &Stations) -> (u32, Option<u32>, Option<u32>) {
    let first = stations.first(Sought::Ready, 0);
    let second = match first {
        Some(place) => stations.first(Sought::Ready, place.saturating_add(1)),
        None => None,
    };
    (stations.waiting(), first, second)
}

/// `lw x5, 0(x1)`, `add x6, x5, x2` and `lw x6, 0(x3)`; the last is cut, and `sw x6, 0(x5)`
/// follows. The addition faults.
#[test]
fn a_source_waits_for_its_youngest_older_writer(rt: HostRuntime) -> Result<(), Fail> {
    let mut stations = Stations::new(rt.alloc(), 4)?;
    stations.enter(3, &registers((Some(1), None), Some(5)));
    stations.enter(0, &registers((Some(5), Some(2)), Some(6)));
    stations.enter(1, &registers((Some(3), None), Some(6)));
    assert_eq!(rt;
        seen(&stations),
        (3, Some(0), Some(2)),
        "both loads have their operand"
    );
    stations.issue(3);
    assert_eq!(rt;
        stations.first(Sought::Executing, 0),
        Some(0),
        "the first load executes"
    );
    stations.wake(3, false);
    assert_eq!(rt;
        stations.first(Sought::Executing, 0),
        None,
        "none executes any more"
    );
    assert_eq!(rt; seen(&stations), (2, Some(1), Some(2)), "x5 has its value");
    stations.keep(2);
    stations.enter(1, &registers((Some(5), Some(6)), None));
    assert_eq!(rt;
        seen(&stations),
        (2, Some(1), None),
        "x6 comes from the addition again"
    );
    stations.issue(0);
    stations.wake(0, true);
    assert_eq!(rt; seen(&stations), (1, None, None), "a fault gives no value");
    stations.retire(3);
    stations.retire(0);
    assert_eq!(rt;
        seen(&stations),
        (1, Some(0), None),
        "x6 is the committed register"
    );
    Ok(())
}

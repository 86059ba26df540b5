//! What `count`, `profile`, `trace` and `stack` write. The values are those of another simulator.
use super::programs::files_of_runs;
use super::{answer, check};
use fsim_ports::MemorySink;
use std::test::Fail;

/// A loop of ten rounds is taken nine times.
const LOOP: &str = concat!(
    "address,word,retired,exceptions,taken\n",
    "80000000,00a00293,1,0,0\n",
    "80000004,fff28293,10,0,0\n",
    "80000008,fe029ee3,10,0,9\n",
    "8000000c,00100337,1,0,0\n",
    "80000010,000053b7,1,0,0\n",
    "80000014,55538393,1,0,0\n",
    "80000018,00732023,1,0,0\n",
);

/// A word was stored before it was executed.
const PATCH: &str = concat!(
    "address,word,retired,exceptions,taken\n",
    "80000000,00000297,1,0,0\n",
    "80000004,0242a303,1,0,0\n",
    "80000008,0062a823,1,0,0\n",
    "8000000c,0000100f,1,0,0\n",
    "80000010,00200513,1,0,0\n",
    "80000014,00100337,1,0,0\n",
    "80000018,000053b7,1,0,0\n",
    "8000001c,55538393,1,0,0\n",
    "80000020,00732023,1,0,0\n",
);

/// The handler is at 0, where there is no text.
const ZERO: &str = concat!(
    "address,word,retired,exceptions,taken\n",
    "80000000,00000000,0,1,0\n",
    "other,00000000,0,2,0\n",
);

/// There is room for four of five bytes.
const FIVE: &str = concat!(
    "address,word,retired,exceptions,taken\n",
    "80000000,10000437,1,0,0\n",
    "80000004,04100493,1,0,0\n",
    "80000008,0294c533,1,0,0\n",
    "8000000c,00940023,1,0,0\n",
    "80000010,00940023,1,0,0\n",
    "80000014,00940023,1,0,0\n",
    "80000018,00940023,1,0,0\n",
);

/// A window with room for one: two of the three cycles of each instruction are the window's.
const PROFILE: &str = concat!(
    "address,word,retired,exceptions,taken,fetched,squashed,mispredicted,",
    "icache_accesses,icache_misses,dcache_accesses,dcache_misses,l2_accesses,l2_misses,",
    "writebacks,cycles,commit,alu,mul,div,load,store,device,serial,operand,dcache,icache,window,",
    "stations,mispredict,trap,interrupt,replay,fence,start\n",
    "80000000,001002b7,1,0,0,1,0,0,0,0,0,0,0,0,0,4,1,0,0,0,0,0,0,0,0,0,0,0,0,0,0,0,0,0,3\n",
    "80000004,00005337,1,0,0,1,0,0,0,0,0,0,0,0,0,3,1,0,0,0,0,0,0,0,0,0,0,2,0,0,0,0,0,0,0\n",
    "80000008,55530313,1,0,0,1,0,0,0,0,0,0,0,0,0,3,1,0,0,0,0,0,0,0,0,0,0,2,0,0,0,0,0,0,0\n",
    "8000000c,0062a023,1,0,0,1,0,0,0,0,0,0,0,0,0,3,1,0,0,0,0,0,0,0,0,0,0,2,0,0,0,0,0,0,0\n",
);

const TRACE: &str = concat!(
    "Kanata\t0004\n",
    "C=\t1\n",
    "I\t0\t0\t0\n",
    "L\t0\t0\t80000000: 001002b7 lui x5,0x100\n",
    "S\t0\t0\tX\n",
    "I\t1\t1\t0\n",
    "L\t1\t0\t80000004: 00005337 lui x6,0x5\n",
    "S\t1\t0\tF\n",
    "C\t1\n",
    "S\t0\t0\tC\n",
    "S\t1\t0\tX\n",
    "I\t2\t2\t0\n",
    "L\t2\t0\t80000008: 55530313 addi x6,x6,1365\n",
    "S\t2\t0\tF\n",
    "W\t2\t1\t0\n",
    "C\t1\n",
    "R\t0\t0\t0\n",
    "S\t1\t0\tC\n",
    "S\t2\t0\tX\n",
    "I\t3\t3\t0\n",
    "L\t3\t0\t8000000c: 0062a023 sw x6,0(x5)\n",
    "S\t3\t0\tF\n",
    "W\t3\t2\t0\n",
    "C\t1\n",
);

const INORDER_TRACE: &str = concat!(
    "Kanata\t0004\n",
    "C=\t0\n",
    "I\t0\t0\t0\n",
    "L\t0\t0\t80000000: 001002b7 lui x5,0x100\n",
    "S\t0\t0\tF\n",
    "C\t1\n",
    "S\t0\t0\tX\n",
    "I\t1\t1\t0\n",
    "L\t1\t0\t80000004: 00005337 lui x6,0x5\n",
    "S\t1\t0\tF\n",
    "C\t1\n",
    "S\t0\t0\tA\n",
    "S\t1\t0\tX\n",
    "I\t2\t2\t0\n",
    "L\t2\t0\t80000008: 55530313 addi x6,x6,1365\n",
    "S\t2\t0\tF\n",
    "W\t2\t1\t0\n",
    "C\t1\n",
);

/// Words, and what they write.
const TEXTS: [(&str, &str); 7] = [
    ("count loop", LOOP),
    ("count patch --machine wide", PATCH),
    ("count zero --cycles 3", ZERO),
    ("count five --output 4", FIVE),
    ("profile pass plain", PROFILE),
    ("trace pass eight --from 2 --to 4", TRACE),
    ("trace pass plain --pipeline inorder --to=3", INORDER_TRACE),
];

fn texts() -> &'static [(&'static str, &'static str)] {
    &TEXTS
}

#[test]
fn each_text_is_written_whole(rt: HostRuntime) -> Result<(), Fail> {
    let alloc = rt.alloc();
    let mut files = files_of_runs(alloc)?;
    for &(words, text) in texts() {
        check(&rt, alloc, words, &mut files, 5, text)?;
    }
    Ok(())
}

/// The lines of causes on which nothing was spent.
const NO_UNIT: &str = concat!(
    "head.alu: 0\nhead.mul: 0\nhead.div: 0\nhead.load: 0\nhead.store: 0\nhead.device: 0\n",
    "head.serial: 0\nhead.operand: 0\nhead.dcache: 0\nhead.icache: 0\nhead.window: 0\n",
    "head.stations: 0\n",
);

/// The lines after them.
const LOOP_STACK: &str = concat!(
    "head.mispredict: 2\nhead.trap: 0\nhead.interrupt: 0\nhead.replay: 0\nhead.fence: 0\n",
    "head.start: 3\nfetch.width: 29\nfetch.taken: 0\nfetch.window: 0\nfetch.stations: 0\n",
    "fetch.icache: 0\nfetch.ended: 1\nleft.0: 5\nleft.1: 25\noccupied: 80\nwaiting: 29\n",
);

#[test]
fn a_stack_follows_the_report(rt: HostRuntime) -> Result<(), Fail> {
    let alloc = rt.alloc();
    let mut files = files_of_runs(alloc)?;
    let mut report = MemorySink::new(alloc, 4096)?;
    let mut sink = MemorySink::new(alloc, 4096)?;
    let _ = answer(&rt, alloc, "run loop targets", &mut files, &mut report)?;
    let answered = answer(&rt, alloc, "stack loop targets", &mut files, &mut sink)?;
    assert_eq!(rt; answered, 0);
    let mut wanted = report.bytes().to_vec(alloc)?;
    wanted.extend_from_slice(b"head.commit: 25\n")?;
    wanted.extend_from_slice(NO_UNIT.as_bytes())?;
    wanted.extend_from_slice(LOOP_STACK.as_bytes())?;
    assert_eq!(rt; sink.bytes(), wanted.as_slice());
    Ok(())
}

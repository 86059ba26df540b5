//! A console that counts its calls: it shows that `sched`, `run` and `inorder` load ahead of what
//! is committed, and take it back.
use super::programs::files_of_runs;
use super::{answer_with, set_with};
use device_bus::{Console, DevUndo, Device, DeviceKind, Note};
use fsim_base::{NoMemory, Width};
use fsim_ports::{MemoryFiles, MemorySink, QuietGate};
use std::alloc::Global;
use std::process::Abort;
use std::sync::atomic::{AtomicU64, Ordering};
use std::sync::{Arc, Wait};
use std::test::Fail;
use std::thread::Threads;

/// How often a device was called.
#[derive(Debug, Drop)]
struct Calls {
    starts: AtomicU64,
    loads: AtomicU64,
    undos: AtomicU64,
}

impl Calls {
    fn new() -> Calls {
        Calls {
            starts: AtomicU64::new(0),
            loads: AtomicU64::new(0),
            undos: AtomicU64::new(0),
        }
    }
}

/// A console whose calls are counted outside of it.
#[derive(Drop)]
struct Counting {
    console: Console,
    calls: Arc<Calls, Global>,
}

impl Device for Counting {
    ghost use Rattle.device_bus.specs.declared.kind.DeviceKind.{DeviceKind};

    ghost kind = { λ _. DeviceKind.Console };

    ghost state = { λ c. c.console };

    fn kind(&self) -> DeviceKind {
        self.console.kind()
    }

    fn start(&mut self, alloc: Global, input: &[u8]) -> Result<(), NoMemory> {
        self.calls.starts.fetch_add(1, Ordering::SeqCst);
        self.console.start(alloc, input)
    }

    fn load(&mut self, off: u32, width: Width, time: u64) -> (u32, DevUndo) {
        self.calls.loads.fetch_add(1, Ordering::SeqCst);
        self.console.load(off, width, time)
    }

    fn store(&mut self, off: u32, width: Width, value: u32) -> (Note, DevUndo) {
        self.console.store(off, width, value)
    }

    fn undo(&mut self, undo: DevUndo) {
        self.calls.undos.fetch_add(1, Ordering::SeqCst);
        self.console.undo(undo)
    }

    fn number(&self, slot: u32) -> u32 {
        self.console.number(slot)
    }
}

/// Answers the words with a console that is counted, which was started once and dropped, and gives
/// the exit status, and how often it was loaded and undone.
fn count<R: Threads + Wait + Sync + Abort>(
    rt: &R,
    alloc: Global,
    text: &str,
    files: &mut MemoryFiles,
    sink: &mut MemorySink,
) -> Result<(u8, u64, u64), Fail> {
    let calls = Arc::new(alloc, Calls::new())?;
    let console = Counting {
        console: Console::new(alloc)?,
        calls: Arc::try_clone(&calls)?,
    };
    let devices = set_with(alloc, Box::new(alloc, console)?)?;
    let number = answer_with(rt, alloc, text, files, sink, devices, &QuietGate)?;
    assert_eq!(rt; calls.starts.load(Ordering::SeqCst), 1, "{text}");
    assert_eq!(rt; Arc::strong_count(&calls), 1, "{text}");
    let loads = calls.loads.load(Ordering::SeqCst);
    Ok((number, loads, calls.undos.load(Ordering::SeqCst)))
}

#[test]
fn console_is_loaded_ahead_and_taken_back(rt: HostRuntime) -> Result<(), Fail> {
    let alloc = rt.alloc();
    let mut files = files_of_runs(alloc)?;
    files.add("four", b"CPCPCPCP")?;
    let mut ahead = MemorySink::new(alloc, 4096)?;
    let text = "sched echo eight four --input in";
    let (number, loads, undos) = count(&rt, alloc, text, &mut files, &mut ahead)?;
    assert_eq!(rt; number, 4);
    assert!(rt; loads >= 1 && undos >= 1);
    let mut still = MemorySink::new(alloc, 4096)?;
    let text = "sched echo eight nothing --input in";
    let counted = count(&rt, alloc, text, &mut files, &mut still)?;
    assert_eq!(rt; counted, (4, 0, 0));
    assert_eq!(rt; ahead.bytes(), still.bytes());
    Ok(())
}

#[test]
fn console_of_a_run_is_loaded_and_taken_back(rt: HostRuntime) -> Result<(), Fail> {
    let alloc = rt.alloc();
    let mut files = files_of_runs(alloc)?;
    for text in [
        "run echo eight --input in",
        "run echo eight --input in --threads 1",
    ] {
        let mut sink = MemorySink::new(alloc, 4096)?;
        let (number, loads, undos) = count(&rt, alloc, text, &mut files, &mut sink)?;
        assert_eq!(rt; number, 0);
        assert!(rt; loads >= 2 && undos >= 1);
        assert!(rt; sink.bytes().starts_with(b"status: pass\ncycles: 12\n"));
    }
    Ok(())
}

/// On demand the load on the wrong path is made, and taken back once the jump is done. By the plan
/// the one at which the jump goes is made before that, and taken back too.
#[test]
fn console_of_an_in_order_run_shows_its_plan(rt: HostRuntime) -> Result<(), Fail> {
    let alloc = rt.alloc();
    let mut files = files_of_runs(alloc)?;
    files.add("four", b"CPCPCPCP")?;
    for (text, loads, undos) in [
        ("inorder echo eight four --input in", 3, 2),
        ("inorder echo eight nothing --input in", 2, 1),
    ] {
        let mut sink = MemorySink::new(alloc, 4096)?;
        let counted = count(&rt, alloc, text, &mut files, &mut sink)?;
        assert_eq!(rt; counted, (0, loads, undos));
        assert!(rt; sink.bytes().starts_with(b"status: pass\ncycles: 14\n"));
    }
    Ok(())
}

// What no clause says: that calls succeed where memory is ample, and that faults in mid-stream stay
// where they are.
mod host;

ghost use Rattle.std.specs.Prelude.{[], Some};

use super::*;
use std::alloc::Global;
use std::fmt::Display;
use std::io;
use std::process::Abort;
use std::test::Fail;

/// Loads a file and compares.
fn check_load<F: Files>(
    rt: &impl Abort,
    files: &mut F,
    name: &str,
    limit: u64,
    wanted: Result<&[u8], LoadFault>,
    alloc: Global,
) {
    match (load_file(alloc, files, name, limit), wanted) {
        (Ok(bytes), Ok(wanted)) => assert_eq!(rt; bytes.as_slice(), wanted, "{name} {limit}"),
        (Err(fault), Err(wanted)) => assert_eq!(rt; fault, wanted, "{name} {limit}"),
        _ => panic!(rt; "{name} {limit}"),
    }
}

/// A name, a limit, and what comes of files that hold `abcd` under `image` and nothing under
/// `empty`.
fn loads() -> [(&'static str, u64, Result<&'static [u8], LoadFault>); 6] {
    [
        ("image", 4, Ok(b"abcd")),
        ("image", u64::MAX, Ok(b"abcd")),
        ("image", 3, Err(LoadFault::TooLong)),
        ("empty", 0, Ok(b"")),
        ("imag", 4, Err(LoadFault::Missing)),
        ("", 4, Err(LoadFault::Missing)),
    ]
}

/// Loads such files.
fn check_loads<F: Files>(rt: &impl Abort, files: &mut F, alloc: Global) {
    for (name, limit, wanted) in loads() {
        check_load(rt, files, name, limit, wanted, alloc);
    }
}

#[test]
fn loads_files_of_memory(rt: HostRuntime) -> Result<(), Fail> {
    let mut files = MemoryFiles::new(rt.alloc());
    files.add("image", b"xyz")?;
    files.add("empty", b"")?;
    files.add("image", b"abcd")?;
    check_loads(&rt, &mut files, rt.alloc());
    let mut files = SureFiles::new(rt.alloc());
    files.add("image", b"xyz")?;
    files.add("empty", b"")?;
    files.add("image", b"abcd")?;
    check_loads(&rt, &mut files, rt.alloc());
    Ok(())
}

/// What comes of loads of which some fail.
fn loads_of<'a>(long: &'a [u8]) -> [(&'static str, Result<&'a [u8], LoadFault>); 6] {
    [
        ("image", Err(LoadFault::Failed)),
        ("none", Err(LoadFault::Missing)),
        ("image", Ok(b"abcd")),
        ("long", Err(LoadFault::Failed)),
        ("long", Ok(long)),
        ("image", Err(LoadFault::Failed)),
    ]
}

#[test]
fn loads_again_behind_a_failed_read(rt: HostRuntime) -> Result<(), Fail> {
    let long = vec![in rt.alloc(); 7u8; 70_000]?;
    let mut files = MemoryFiles::new(rt.alloc());
    files.add("image", b"abcd")?;
    files.add("long", long.as_slice())?;
    for call in [1, 2, 6, 10] {
        files.fail_at(call)?;
    }
    for (name, wanted) in loads_of(long.as_slice()) {
        check_load(&rt, &mut files, name, 70_000, wanted, rt.alloc());
    }
    Ok(())
}

/// What is put into a sink of seven bytes whose second put fails, and what comes of it.
fn puts() -> [(&'static [u8], Result<(), Failed>); 6] {
    [
        (b"ab", Ok(())),
        (b"cd", Err(Failed)),
        (b"ef", Ok(())),
        (b"ghij", Err(Failed)),
        (b"", Ok(())),
        (b"klm", Ok(())),
    ]
}

#[test]
fn writes_on_behind_a_failed_put(rt: HostRuntime) -> Result<(), Fail> {
    let mut sink = MemorySink::new(rt.alloc(), 7)?;
    sink.fail_at(2)?;
    for (text, wanted) in puts() {
        assert_eq!(rt; put_all(&mut sink, text), wanted);
    }
    assert_eq!(rt; sink.bytes(), b"abefklm".as_slice());
    Ok(())
}

/// A sink that takes at most two bytes at a time.
#[derive(Drop)]
struct ShortSink {
    inner: MemorySink,
}

impl Sink for ShortSink {
    ghost written = { λ s. Some s.inner.bytes };

    ghost faults = { λ s. s.inner.plan.faults };

    fn put(&mut self, bytes: &[u8]) -> Result<usize, Failed> {
        self.inner.put(&bytes[..bytes.len().min(2)])
    }
}

/// A sink that takes no byte.
#[derive(Drop)]
struct FullSink {
    faults: u64,
}

impl Sink for FullSink {
    ghost written = { λ s. Some [] };

    ghost faults = { λ s. s.faults };

    fn put(&mut self, bytes: &[u8]) -> Result<usize, Failed> {
        let _ = bytes;
        self.faults = self.faults.saturating_add(1);
        Ok(0)
    }
}

#[test]
fn writes_by_short_puts(rt: HostRuntime) -> Result<(), Fail> {
    let mut sink = ShortSink {
        inner: MemorySink::new(rt.alloc(), 7)?,
    };
    assert_eq!(rt; put_all(&mut sink, b"abcde"), Ok(()));
    assert_eq!(rt; put_all(&mut sink, b"fghij"), Err(Failed));
    assert_eq!(rt; sink.inner.bytes(), b"abcdefg".as_slice());
    let mut sink = FullSink { faults: 0 };
    assert_eq!(rt; put_all(&mut sink, b"a"), Err(Failed));
    assert_eq!(rt; sink.faults, 1);
    Ok(())
}

/// A host whose standard output takes so many bytes at a time at most.
#[derive(Drop)]
struct SlowHost {
    most: usize,
}

impl Print for SlowHost {
    fn print<D: Display + Drop>(&self, value: D) -> io::Result<()> {
        let _ = value;
        Ok(())
    }

    fn println<D: Display + Drop>(&self, value: D) -> io::Result<()> {
        let _ = value;
        Ok(())
    }

    fn write_all(&self, bytes: &[u8]) -> io::Result<()> {
        let _ = bytes;
        Ok(())
    }

    fn write_some(&self, bytes: &[u8]) -> io::Result<usize> {
        Ok(bytes.len().min(self.most))
    }
}

/// How much the host takes at a time, what is put, and what comes of it.
fn pieces() -> [(usize, &'static [u8], Result<usize, Failed>); 5] {
    [
        (2, b"abcde", Ok(2)),
        (2, b"a", Ok(1)),
        (2, b"", Ok(0)),
        (0, b"a", Err(Failed)),
        (0, b"", Ok(0)),
    ]
}

#[test]
fn host_sink_tells_how_much_was_taken(rt: HostRuntime) {
    for (most, piece, wanted) in pieces() {
        let mut sink = HostSink::new(SlowHost { most });
        assert_eq!(rt; sink.put(piece), wanted, "{most} {piece:?}");
    }
}

/// Uses a sink and a gate by their bounds alone.
fn writes_between_turns<K: Sink, G: Gate + Sync>(sink: &mut K, gate: &G) -> Result<(), Failed> {
    gate.func_turn();
    put_all(sink, b"abc")?;
    gate.time_turn();
    Ok(())
}

#[test]
fn sure_sink_and_quiet_gate_let_all_pass(rt: HostRuntime) {
    assert_eq!(rt;
        writes_between_turns(&mut SureSink::new(), &QuietGate),
        Ok(())
    );
}

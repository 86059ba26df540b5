//! What the files and the sink refuse.
use super::programs::{files_of_runs, repeated};
use super::{SMALLEST_PASS, answer, check, image_of, put_words};
use fsim_ports::{MemoryFiles, MemorySink};
use std::alloc::Global;
use std::process::Abort;
use std::sync::Wait;
use std::test::Fail;
use std::thread::Threads;

/// Machine files, plans and a script, most of which are none, by their names.
const TEXTS: [(&str, &str); 13] = [
    ("empty", ""),
    ("zero", "core.window = 0"),
    ("text", "core.window = \"8\""),
    ("sets", "icache.sets = 48"),
    ("section", "[cpu]"),
    ("both", "core.window = 0\ncore.foo = 1\n"),
    ("half", "a ="),
    ("low", "ram.base = 0x20000000"),
    ("old", "version = 1\nl2.ways = 1\n"),
    ("bad", "CPX"),
    ("spaced", "C P\r\nOTKSx"),
    ("tab", "C\tP"),
    ("script", "r\r\n\ns 1\ns 0\nx"),
];

fn texts() -> &'static [(&'static str, &'static str)] {
    &TEXTS
}

/// The front of an image of another processor.
fn other_front() -> [u8; 84] {
    let mut front = super::FRONT;
    front[18] = 62;
    front
}

/// An image whose two segments are the same.
fn doubled(alloc: Global) -> Result<Vec<u8>, Fail> {
    let mut front = super::FRONT;
    // e_phnum, p_offset behind two headers, p_filesz and p_memsz.
    front[44] = 2;
    front[56] = 116;
    front[68] = 16;
    front[72] = 16;
    let mut image = front.to_vec(alloc)?;
    image.extend_from_slice(&front[52..])?;
    put_words(&mut image, SMALLEST_PASS)?;
    Ok(image)
}

/// These files, an image, and three that are none.
fn files_of(alloc: Global) -> Result<MemoryFiles, Fail> {
    let mut files = MemoryFiles::new(alloc);
    for &(name, text) in texts() {
        files.add(name, text.as_bytes())?;
    }
    files.add("other", &other_front())?;
    files.add("double", doubled(alloc)?.as_slice())?;
    let mut image = image_of(alloc, SMALLEST_PASS)?;
    files.add("pass", image.as_slice())?;
    image.truncate(51);
    files.add("short", image.as_slice())?;
    Ok(files)
}

/// Lines and their refusals, in the order in which these are tested. `reference/out/reference`
/// with a line's words writes them too.
const REFUSED: [(&str, u8, &str); 57] = [
    ("func none", 13, "fast: missing: image\n"),
    ("func none --input none", 13, "fast: missing: image\n"),
    ("func pass --input none", 13, "fast: missing: input\n"),
    ("func empty --input none", 13, "fast: missing: input\n"),
    ("func empty", 11, "fast: image: short\n"),
    ("func short --input empty", 11, "fast: image: short\n"),
    ("func double", 11, "fast: image: overlap 1 0\n"),
    ("func none --machine none", 13, "fast: missing: image\n"),
    ("func short --machine none", 13, "fast: missing: machine\n"),
    (
        "func short --machine zero --input none",
        13,
        "fast: missing: input\n",
    ),
    (
        "func short --machine zero",
        12,
        "fast: machine: range core.window 0\n",
    ),
    ("func short --machine low", 11, "fast: image: short\n"),
    (
        "func pass --machine low",
        11,
        "fast: image: outside ram 0\n",
    ),
    ("run none none", 13, "fast: missing: image\n"),
    ("run short none", 13, "fast: missing: machine\n"),
    ("run short zero --input none", 13, "fast: missing: input\n"),
    ("sched pass none none", 13, "fast: missing: machine\n"),
    ("sched pass zero none", 13, "fast: missing: plan\n"),
    (
        "sched short zero bad --input none",
        13,
        "fast: missing: input\n",
    ),
    ("run short zero", 12, "fast: machine: range core.window 0\n"),
    ("run pass text", 12, "fast: machine: kind core.window\n"),
    ("run pass sets", 12, "fast: machine: power icache.sets 48\n"),
    ("run pass section", 12, "fast: machine: unknown cpu\n"),
    ("run pass both", 12, "fast: machine: unknown core.foo\n"),
    ("run pass half", 12, "fast: machine: not toml\n"),
    ("run pass old", 12, "fast: machine: unknown l2\n"),
    (
        "sched short zero bad",
        12,
        "fast: machine: range core.window 0\n",
    ),
    ("run short empty", 11, "fast: image: short\n"),
    ("run other empty", 11, "fast: image: machine\n"),
    ("run pass low", 11, "fast: image: outside ram 0\n"),
    ("sched pass low bad", 11, "fast: image: outside ram 0\n"),
    ("sched short empty bad", 11, "fast: image: short\n"),
    ("sched pass empty bad", 18, "fast: bad plan: 2\n"),
    ("sched pass empty spaced", 18, "fast: bad plan: 9\n"),
    ("sched pass empty half", 18, "fast: bad plan: 0\n"),
    ("sched pass empty tab", 18, "fast: bad plan: 1\n"),
    (
        "sched pass empty bad --input pass",
        18,
        "fast: bad plan: 2\n",
    ),
    ("back none none", 13, "fast: missing: image\n"),
    ("back short none", 13, "fast: missing: script\n"),
    ("back short bad --input none", 13, "fast: missing: input\n"),
    ("back short bad", 11, "fast: image: short\n"),
    ("back pass bad", 21, "fast: bad script: 1\n"),
    ("back pass script", 21, "fast: bad script: 4\n"),
    ("back pass script --input bad", 21, "fast: bad script: 4\n"),
    (
        "back short none --machine none",
        13,
        "fast: missing: machine\n",
    ),
    (
        "back short none --machine zero",
        13,
        "fast: missing: script\n",
    ),
    (
        "back short bad --machine zero",
        12,
        "fast: machine: range core.window 0\n",
    ),
    ("gdb short --input none", 13, "fast: missing: input\n"),
    (
        "gdb short --machine zero",
        12,
        "fast: machine: range core.window 0\n",
    ),
    ("gdb pass --machine low", 11, "fast: image: outside ram 0\n"),
    ("inorder pass empty bad", 18, "fast: bad plan: 2\n"),
    (
        "inorder short zero",
        12,
        "fast: machine: range core.window 0\n",
    ),
    ("inorder short empty", 11, "fast: image: short\n"),
    (
        "run short zero --pipeline inorder",
        12,
        "fast: machine: range core.window 0\n",
    ),
    ("count short --input none", 13, "fast: missing: input\n"),
    ("count short", 11, "fast: image: short\n"),
    (
        "count short --machine zero",
        12,
        "fast: machine: range core.window 0\n",
    ),
];

fn refused() -> &'static [(&'static str, u8, &'static str)] {
    &REFUSED
}

#[test]
fn first_refusal_is_told(rt: HostRuntime) -> Result<(), Fail> {
    let alloc = rt.alloc();
    for &(text, number, told) in refused() {
        let mut files = files_of(alloc)?;
        check(&rt, alloc, text, &mut files, number, told)?;
    }
    Ok(())
}

/// The front of an image of so many bytes of 0 from 0x80fffff0 on, where RAM has 16.
fn last_front(size: u8) -> [u8; 84] {
    let mut front = super::FRONT;
    // p_paddr, and p_memsz; p_filesz is 0.
    front[64] = 0xf0;
    front[65] = 0xff;
    front[66] = 0xff;
    front[72] = size;
    front
}

#[test]
fn image_may_fill_ram_to_its_last_byte(rt: HostRuntime) -> Result<(), Fail> {
    let alloc = rt.alloc();
    let mut files = MemoryFiles::new(alloc);
    files.add("last", &last_front(16))?;
    let line = "func last --cycles 1";
    let mut sink = MemorySink::new(alloc, 4096)?;
    assert_eq!(rt; answer(&rt, alloc, line, &mut files, &mut sink)?, 2);
    files.add("outside", &last_front(17))?;
    let told = "fast: image: outside ram 0\n";
    check(&rt, alloc, "func outside", &mut files, 11, told)
}

/// The front of an image whose text is so many bytes of 0 from 0x80000000 on.
fn text_front(size: u32) -> [u8; 84] {
    let mut front = super::FRONT;
    front[72..76].copy_from_slice(&size.to_le_bytes());
    front
}

#[test]
fn text_of_more_than_1024_pages_is_not_counted(rt: HostRuntime) -> Result<(), Fail> {
    let alloc = rt.alloc();
    let mut files = MemoryFiles::new(alloc);
    files.add("most", &text_front(4_194_304))?;
    let told = "address,word,retired,exceptions,taken\n80000000,00000000,0,1,0\n";
    check(&rt, alloc, "count most --cycles 1", &mut files, 5, told)?;
    files.add("more", &text_front(4_194_308))?;
    let told = "fast: too much text: 1025\n";
    check(&rt, alloc, "count more --cycles 1", &mut files, 23, told)
}

/// Files of one byte, so many times.
const FILLED: [(&str, u8, usize); 7] = [
    ("image", 0, 67_108_865),
    ("most", 0, 16_777_216),
    ("more", 0, 16_777_217),
    ("lines", b'\n', 65_536),
    ("one-more", b'\n', 65_537),
    ("blanks", b' ', 1_048_576),
    ("one-more-blank", b' ', 1_048_577),
];

fn filled() -> &'static [(&'static str, u8, usize)] {
    &FILLED
}

/// These files, and an image.
fn filled_files(alloc: Global) -> Result<MemoryFiles, Fail> {
    let mut files = MemoryFiles::new(alloc);
    for &(name, byte, size) in filled() {
        let bytes = vec![in alloc; byte; size]?;
        files.add(name, bytes.as_slice())?;
    }
    files.add("pass", image_of(alloc, SMALLEST_PASS)?.as_slice())?;
    Ok(files)
}

/// Lines of which a file has one byte too many.
const TOO_LONG: [(&str, &str); 5] = [
    ("func image", "fast: too long: image 67108864\n"),
    ("func pass --input more", "fast: too long: input 16777216\n"),
    ("run pass one-more", "fast: too long: machine 65536\n"),
    (
        "sched pass lines one-more-blank",
        "fast: too long: plan 1048576\n",
    ),
    ("back pass one-more", "fast: too long: script 65536\n"),
];

fn too_long() -> &'static [(&'static str, &'static str)] {
    &TOO_LONG
}

/// Lines whose files are as long as they may be, and their answers.
const JUST_FITTING: [(&str, u8); 3] = [
    ("func pass --input most", 0),
    ("sched pass lines blanks", 4),
    ("back pass lines", 5),
];

fn just_fitting() -> &'static [(&'static str, u8)] {
    &JUST_FITTING
}

#[test]
fn files_are_read_to_their_limits(rt: HostRuntime) -> Result<(), Fail> {
    let alloc = rt.alloc();
    let mut files = filled_files(alloc)?;
    for &(line, told) in too_long() {
        check(&rt, alloc, line, &mut files, 17, told)?;
    }
    for &(line, number) in just_fitting() {
        let mut sink = MemorySink::new(alloc, 4096)?;
        let answered = answer(&rt, alloc, line, &mut files, &mut sink)?;
        assert_eq!(rt; answered, number, "{line}");
    }
    Ok(())
}

/// Bytes with others before and behind them.
fn around(alloc: Global, before: &[u8], bytes: &[u8], behind: &[u8]) -> Result<Vec<u8>, Fail> {
    let mut text = before.to_vec(alloc)?;
    text.extend_from_slice(bytes)?;
    text.extend_from_slice(behind)?;
    Ok(text)
}

#[test]
fn longest_key_of_a_machine_file_is_told(rt: HostRuntime) -> Result<(), Fail> {
    let alloc = rt.alloc();
    let key = repeated(alloc, b"k", 65_534)?;
    let text = around(alloc, b"", key.as_slice(), b"=1")?;
    let told = around(alloc, b"fast: machine: unknown ", key.as_slice(), b"\n")?;
    let mut files = MemoryFiles::new(alloc);
    files.add("pass", image_of(alloc, SMALLEST_PASS)?.as_slice())?;
    files.add("long", text.as_slice())?;
    let mut sink = MemorySink::new(alloc, 70_000)?;
    let answered = answer(&rt, alloc, "run pass long", &mut files, &mut sink)?;
    assert_eq!(rt; answered, 12);
    assert_eq!(rt; sink.bytes(), told.as_slice());
    Ok(())
}

/// Lines, the roles of their files in the order in which these are read, and the answer where no
/// read fails. Each file takes one read for its bytes and one for its end.
const READ: [(&str, &str, u8); 6] = [
    ("func echo --input in", "image input", 0),
    ("run echo eight --input in", "image machine input", 0),
    (
        "sched echo eight nothing --input in",
        "image machine plan input",
        4,
    ),
    ("back echo again --input in", "image script input", 5),
    (
        "sweep echo eight targets --input in",
        "image machine machine input",
        5,
    ),
    (
        "inorder echo eight nothing --input in",
        "image machine plan input",
        0,
    ),
];

fn readings() -> &'static [(&'static str, &'static str, u8)] {
    &READ
}

#[test]
fn each_read_that_fails_is_told_with_its_role(rt: HostRuntime) -> Result<(), Fail> {
    let alloc = rt.alloc();
    for &(text, roles, number) in readings() {
        let mut read = 0u64;
        for role in roles.split(' ') {
            check_read(&rt, alloc, text, role, read)?;
            read = read.saturating_add(2);
        }
        let mut files = files_of_runs(alloc)?;
        files.fail_at(read.saturating_add(1))?;
        let mut sink = MemorySink::new(alloc, 4096)?;
        let answered = answer(&rt, alloc, text, &mut files, &mut sink)?;
        assert_eq!(rt; answered, number, "{text}");
    }
    Ok(())
}

/// Has each of the two reads of a file fail in turn, which come behind so many others, and compares
/// the answers with one that tells its role.
fn check_read<R: Threads + Wait + Sync + Abort>(
    rt: &R,
    alloc: Global,
    line: &str,
    role: &str,
    before: u64,
) -> Result<(), Fail> {
    let told = format!(in alloc; "fast: read fault: {role}\n")?;
    for behind in 1..3u64 {
        let mut files = files_of_runs(alloc)?;
        files.fail_at(before.saturating_add(behind))?;
        check(rt, alloc, line, &mut files, 14, told.as_str())?;
    }
    Ok(())
}

#[test]
fn refusal_stands_where_its_line_is_not_written(rt: HostRuntime) -> Result<(), Fail> {
    let alloc = rt.alloc();
    let mut files = MemoryFiles::new(alloc);
    let mut sink = MemorySink::new(alloc, 4096)?;
    sink.fail_at(1)?;
    assert_eq!(rt; answer(&rt, alloc, "run a", &mut files, &mut sink)?, 10);
    assert_eq!(rt; sink.bytes().len(), 0);
    Ok(())
}

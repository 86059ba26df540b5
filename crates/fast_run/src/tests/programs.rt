//! The programs of the runs, from 0x80000000 on, and the machine files.
use super::{image_of, put_words};
use fsim_ports::MemoryFiles;
use std::alloc::Global;
use std::str;
use std::test::Fail;

/// Programs by the names of their files, each by its words; most end in a pass by x6 and x7.
const PROGRAMS: [(&str, &str); 23] = [
    // Four instructions, of which the last stores a pass.
    ("pass", "001002b7 00005337 55530313 0062a023"),
    // MULHSU, MUL, DIV and MULH at the ends of the range, and a branch over a word that is no
    // instruction.
    (
        "arith",
        concat!(
            "800002b7 fff00313 0262c3b3 00700413 020444b3 0262e533 020465b3 00538463 ",
            "00000000 00100e37 00005eb7 555e8e93 01de2023",
        ),
    ),
    // A loop of ten rounds.
    (
        "loop",
        "00a00293 fff28293 fe029ee3 00100337 000053b7 55538393 00732023",
    ),
    // Behind a branch that is taken stands a load, whose line evicts that of the loads before and
    // after.
    (
        "evict",
        concat!(
            "00000417 04042483 00048463 08042503 04042583 00100337 000053b7 55538393 ",
            "00732023",
        ),
    ),
    // Behind a branch that is taken stands a load from the console, and behind that another.
    (
        "echo",
        concat!(
            "00100293 10000437 00029463 00044483 00044503 00100337 000053b7 55538393 ",
            "00732023",
        ),
    ),
    // Behind a branch that is taken stands a store of a failure to the finisher.
    (
        "finish",
        "00100337 000033b7 33338393 00000463 00732023 000053b7 55538393 00732023",
    ),
    // A load of an address that is none, and a jump to what it loads.
    (
        "fault",
        concat!(
            "00000297 02028293 30529073 01002403 00040067 00000013 00000013 00000013 ",
            "342024f3 34302573 00100337 000053b7 55538393 00732023",
        ),
    ),
    // ECALL, with a handler at the next address.
    (
        "call",
        "00000297 01028293 30529073 00000073 00100337 000053b7 55538393 00732023",
    ),
    // A byte and a half word are stored, and then the word over both is loaded.
    (
        "merge",
        concat!(
            "00000417 02844533 0aa00293 7bc00313 04540023 04641123 04042483 00100337 ",
            "000053b7 55538393 00732023 00000000 00000000 00000000 00000000 00000000 ",
            "11223344",
        ),
    ),
    // mcycle is read twice.
    (
        "time",
        "b00022f3 b0002373 00100437 000054b7 55548493 00942023",
    ),
    // mtimecmp is reached while mcycle is read.
    (
        "timer",
        concat!(
            "00000297 04028293 30529073 02004437 01000493 00042223 00942023 08000513 ",
            "30452073 30046073 b00025f3 00100337 000053b7 55538393 00732023 00000013 ",
            "fff00613 00c42223 30200073",
        ),
    ),
    // The handler of the timer, at its own vector, loads mtime.
    (
        "vector",
        concat!(
            "00000297 04128293 30529073 02004437 0200c6b7 00042223 00042023 08000513 ",
            "30452073 30046073 00000000 00000000 00000000 00000000 00000000 00000000 ",
            "00000000 00000000 00000000 00000000 00000000 00000000 00000000 ff86a603 ",
            "00100337 000053b7 55538393 00732023",
        ),
    ),
    // Behind a DIV five bytes are put out.
    (
        "five",
        concat!(
            "10000437 04100493 0294c533 00940023 00940023 00940023 00940023 00940023 ",
            "00100337 000053b7 55538393 00732023",
        ),
    ),
    // Three bytes are put out, each after a loop of 32,768 rounds.
    (
        "drip",
        concat!(
            "10000437 04100493 00300513 000085b7 fff58593 fe059ee3 00940023 fff50513 ",
            "fe0516e3 00100337 000053b7 55538393 00732023",
        ),
    ),
    // The last word is stored over the fifth, which is executed behind a FENCE.I.
    (
        "patch",
        concat!(
            "00000297 0242a303 0062a823 0000100f 00100513 00100337 000053b7 55538393 ",
            "00732023 00200513",
        ),
    ),
    // The same with a FENCE.
    (
        "unpatched",
        concat!(
            "00000297 0242a303 0062a823 0000000f 00100513 00100337 000053b7 55538393 ",
            "00732023 00200513",
        ),
    ),
    // A store, and a load that drops its line.
    (
        "dirty",
        "00000417 04842023 08042483 00100337 000053b7 55538393 00732023",
    ),
    // The smallest program with another word for the finisher.
    ("fail", "001002b7 00073337 33330313 0062a023"),
    // The same with the codes 65,535 and 256.
    ("large_code", "001002b7 ffff3337 33330313 0062a023"),
    ("byte_code", "001002b7 01003337 33330313 0062a023"),
    // A jump over a word, and behind it a byte for the console.
    (
        "jump",
        "00700293 0080006f 00100313 100003b7 00538023 00000013 00000013 00000013",
    ),
    // A word that is no instruction, with its handler at 0.
    ("zero", "00000000"),
    // A jump to itself.
    ("spin", "0000006f"),
];

/// The front of a linker's image: the headers of its attributes, its text of 84 bytes at
/// 0x80000000, its data of 4 bytes and 12 more at 0x80001000, and its stack.
const UART_FRONT: [u8; 180] = [
    0x7f, 0x45, 0x4c, 0x46, 0x01, 0x01, 0x01, 0x00, 0x00, 0x00, 0x00, 0x00, 0x00, 0x00, 0x00, 0x00,
    0x02, 0x00, 0xf3, 0x00, 0x01, 0x00, 0x00, 0x00, 0x00, 0x00, 0x00, 0x80, 0x34, 0x00, 0x00, 0x00,
    0x00, 0x00, 0x00, 0x00, 0x00, 0x00, 0x00, 0x00, 0x34, 0x00, 0x20, 0x00, 0x04, 0x00, 0x00, 0x00,
    0x00, 0x00, 0x00, 0x00, 0x03, 0x00, 0x00, 0x70, 0x00, 0x00, 0x00, 0x00, 0x00, 0x00, 0x00, 0x00,
    0x00, 0x00, 0x00, 0x00, 0x00, 0x00, 0x00, 0x00, 0x00, 0x00, 0x00, 0x00, 0x04, 0x00, 0x00, 0x00,
    0x01, 0x00, 0x00, 0x00, 0x01, 0x00, 0x00, 0x00, 0xb4, 0x00, 0x00, 0x00, 0x00, 0x00, 0x00, 0x80,
    0x00, 0x00, 0x00, 0x80, 0x54, 0x00, 0x00, 0x00, 0x54, 0x00, 0x00, 0x00, 0x05, 0x00, 0x00, 0x00,
    0x04, 0x00, 0x00, 0x00, 0x01, 0x00, 0x00, 0x00, 0x08, 0x01, 0x00, 0x00, 0x00, 0x10, 0x00, 0x80,
    0x00, 0x10, 0x00, 0x80, 0x04, 0x00, 0x00, 0x00, 0x10, 0x00, 0x00, 0x00, 0x06, 0x00, 0x00, 0x00,
    0x04, 0x00, 0x00, 0x00, 0x51, 0xe5, 0x74, 0x64, 0x00, 0x00, 0x00, 0x00, 0x00, 0x00, 0x00, 0x00,
    0x00, 0x00, 0x00, 0x00, 0x00, 0x00, 0x00, 0x00, 0x00, 0x00, 0x00, 0x00, 0x06, 0x00, 0x00, 0x00,
    0x10, 0x00, 0x00, 0x00,
];

/// A driver that sets the divisor of the console, and then puts out its data up to the byte 0, each
/// byte once the console is ready.
const UART: &str = concat!(
    "10000437 08300493 009401a3 00300493 00940023 000400a3 009401a3 00001597 ",
    "fe458593 0005c603 00060e63 00544683 0206f693 fe068ce3 00c40023 00158593 ",
    "fe5ff06f 00100337 000053b7 55538393 00732023",
);

/// Machine files by their names.
const MACHINES: [(&str, &str); 17] = [
    ("plain", ""),
    ("four", "core.window = 4\ncore.stations = 4\n"),
    ("eight", "core.window = 8"),
    (
        "targets",
        concat!(
            "core.window = 8\n",
            "predictor.kind = \"bimodal\"\n",
            "predictor.targets = 16\n",
        ),
    ),
    (
        "line",
        concat!(
            "core.window = 3\n",
            "dcache.line = 16\n",
            "dcache.sets = 1\n",
            "dcache.ways = 1\n",
            "dcache.miss = 10\n",
        ),
    ),
    (
        "slow",
        concat!(
            "core.window = 8\n",
            "div.latency = 10\n",
            "mem.latency = 6\n",
        ),
    ),
    (
        "wide",
        concat!(
            "core.window = 16\n",
            "core.commit = 8\n",
            "div.latency = 20\n",
        ),
    ),
    (
        "large",
        concat!(
            "version = 1\n",
            "[core]\n",
            "fetch = 4\n",
            "commit = 4\n",
            "front = 5\n",
            "window = 64\n",
            "stations = 32\n",
            "[alu]\n",
            "count = 3\n",
            "[mul]\n",
            "latency = 3\n",
            "[div]\n",
            "latency = 20\n",
            "[mem]\n",
            "count = 2\n",
            "latency = 2\n",
            "[predictor]\n",
            "kind = \"gshare\"\n",
            "counters = 4096\n",
            "history = 12\n",
            "targets = 512\n",
            "[icache]\n",
            "ways = 4\n",
            "[dcache]\n",
            "ways = 4\n",
        ),
    ),
    (
        "bimodal",
        concat!(
            "predictor.kind = \"bimodal\"\n",
            "predictor.targets = 16\n",
        ),
    ),
    (
        "narrow",
        concat!(
            "dcache.line = 16\n",
            "dcache.sets = 1\n",
            "dcache.ways = 1\n",
            "dcache.miss = 10\n",
        ),
    ),
    ("fetched", "icache.ways = 1"),
    (
        "lane",
        concat!(
            "alu.latency = 3\n",
            "mem.latency = 2\n",
            "dcache.line = 16\n",
            "dcache.sets = 1\n",
            "dcache.ways = 1\n",
            "dcache.miss = 10\n",
        ),
    ),
    // All as wide as it may be.
    (
        "broad",
        concat!(
            "core.fetch = 8\n",
            "core.commit = 8\n",
            "core.window = 256\n",
            "core.stations = 256\n",
            "alu.count = 8\n",
            "div.latency = 64\n",
        ),
    ),
    ("bad", "core.window = 0"),
    // What a run without a pipeline leaves unused, and where RAM is.
    ("low", "ram.base = 0x20000000\ncore.window = 8\n"),
    (
        "levels",
        concat!(
            "version = 2\n",
            "core.window = 3\n",
            "dcache.line = 16\n",
            "dcache.sets = 1\n",
            "dcache.ways = 1\n",
            "dcache.miss = 10\n",
            "l2.line = 16\n",
            "l2.sets = 16\n",
            "l2.ways = 1\n",
            "l2.hit = 4\n",
            "l2.miss = 10\n",
        ),
    ),
    (
        "back",
        concat!(
            "version = 2\n",
            "dcache.line = 16\n",
            "dcache.sets = 1\n",
            "dcache.ways = 1\n",
            "dcache.miss = 10\n",
            "dcache.policy = \"back\"\n",
        ),
    ),
];

fn programs() -> &'static [(&'static str, &'static str)] {
    &PROGRAMS
}

fn machines() -> &'static [(&'static str, &'static str)] {
    &MACHINES
}

/// Programs, machine files, an input, plans and a script.
pub fn files_of_runs(alloc: Global) -> Result<MemoryFiles, Fail> {
    let mut files = MemoryFiles::new(alloc);
    for &(name, words) in programs() {
        files.add(name, image_of(alloc, words)?.as_slice())?;
    }
    for &(name, text) in machines() {
        files.add(name, text.as_bytes())?;
    }
    files.add("uart", uart(alloc)?.as_slice())?;
    files.add("flags", flagged(alloc)?.as_slice())?;
    files.add("long", long(alloc)?.as_slice())?;
    files.add("moved", moved(alloc)?.as_slice())?;
    files.add("-", image_of(alloc, super::SMALLEST_PASS)?.as_slice())?;
    files.add("in", b"AB")?;
    files.add("nothing", b" \r\n")?;
    files.add("ahead", ahead(alloc)?.as_slice())?;
    files.add("rounds", repeated(alloc, b"OCPKTS", 200)?.as_slice())?;
    files.add("whole", repeated(alloc, b"OCPKTS", 20_000)?.as_slice())?;
    files.add("orders", vec![in alloc; b'O'; 1_048_576]?.as_slice())?;
    files.add("again", b"s 4\nb 1\ns 1\nr\n")?;
    Ok(files)
}

/// The smallest image that passes, with a flag in its header that nobody reads.
fn flagged(alloc: Global) -> Result<Vec<u8>, Fail> {
    let mut front = super::FRONT;
    front[36] = 1;
    front[68] = 16;
    front[72] = 16;
    let mut image = front.to_vec(alloc)?;
    put_words(&mut image, super::SMALLEST_PASS)?;
    Ok(image)
}

/// A DIV, and 2,000 instructions without a branch that don't wait for it.
fn long(alloc: Global) -> Result<Vec<u8>, Fail> {
    let mut words = b"06400513 02054633".to_vec(alloc)?;
    words.extend_from_slice(repeated(alloc, b" 00100293", 2000)?.as_slice())?;
    words.extend_from_slice(b" 00100337 000053b7 55538393 00732023")?;
    image_of(alloc, str::from_utf8(words.as_slice()).unwrap_or(""))
}

/// The smallest image that passes, at 0x20000000.
pub fn moved(alloc: Global) -> Result<Vec<u8>, Fail> {
    let mut front = super::FRONT;
    // e_entry, p_vaddr and p_paddr.
    front[27] = 0x20;
    front[63] = 0x20;
    front[67] = 0x20;
    front[68] = 16;
    front[72] = 16;
    let mut image = front.to_vec(alloc)?;
    put_words(&mut image, super::SMALLEST_PASS)?;
    Ok(image)
}

/// The image of the driver.
fn uart(alloc: Global) -> Result<Vec<u8>, Fail> {
    let mut image = UART_FRONT.to_vec(alloc)?;
    put_words(&mut image, UART)?;
    image.extend_from_slice(b"Hi\n\0")?;
    Ok(image)
}

/// Thirteen entries are computed and pushed, and then the timing side has two hundred turns.
fn ahead(alloc: Global) -> Result<Vec<u8>, Fail> {
    let mut plan = b"CP CP CP CP CP CP CP CP CP CP CP CP CP\r\n".to_vec(alloc)?;
    plan.extend_from_slice(repeated(alloc, b"KTS", 200)?.as_slice())?;
    Ok(plan)
}

/// These events so many times.
pub fn repeated(alloc: Global, events: &[u8], times: u32) -> Result<Vec<u8>, Fail> {
    let mut plan = Vec::new(alloc);
    for _ in 0..times {
        plan.extend_from_slice(events)?;
    }
    Ok(plan)
}

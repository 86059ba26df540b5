use crate::{MachineFault, read};
use branch_predictor::PredKind;
use fsim_base::Bytes;
use mono_model::Params;
use std::alloc::{AllocError, Global};
use std::process::Abort;
use std::test::Fail;

/// A file with another value for each key.
const ALL_KEYS: &str = "
version = 2
[ram]
base = 0x20000000
size = 8192
[core]
fetch = 2
commit = 3
front = 4
window = 5
stations = 6
[alu]
count = 7
latency = 8
[mul]
count = 2
latency = 10
[div]
count = 3
latency = 12
[mem]
count = 4
latency = 14
[predictor]
kind = \"gshare\"
counters = 32
history = 15
targets = 2
[icache]
line = 4
sets = 8
ways = 1
miss = 21
[dcache]
line = 16
sets = 128
ways = 2
miss = 22
policy = \"back\"
[l2]
line = 256
sets = 1
ways = 3
hit = 23
miss = 24
";

/// Its machine.
const ALL_OTHERS: Params = Params {
    version: 2,
    ram_base: 0x2000_0000,
    ram_size: 8192,
    core_fetch: 2,
    core_commit: 3,
    core_front: 4,
    core_window: 5,
    core_stations: 6,
    alu_count: 7,
    alu_latency: 8,
    mul_count: 2,
    mul_latency: 10,
    div_count: 3,
    div_latency: 12,
    mem_count: 4,
    mem_latency: 14,
    predictor_kind: PredKind::Gshare,
    predictor_counters: 32,
    predictor_history: 15,
    predictor_targets: 2,
    icache_line: 4,
    icache_sets: 8,
    icache_ways: 1,
    icache_miss: 21,
    dcache_line: 16,
    dcache_sets: 128,
    dcache_ways: 2,
    dcache_miss: 22,
    dcache_back: true,
    l2_line: 256,
    l2_sets: 1,
    l2_ways: 3,
    l2_hit: 23,
    l2_miss: 24,
};

/// A file, and how it is refused.
static REFUSED: [(&str, &str); 52] = [
    ("core.window = 0", "range core.window 0"),
    ("core.window = -1", "range core.window -1"),
    ("core.window = 4294967297", "range core.window 4294967297"),
    (
        "core.window = -9223372036854775808",
        "range core.window -9223372036854775808",
    ),
    ("core.window = \"8\"", "kind core.window"),
    ("core.window = 8.0", "kind core.window"),
    ("core.window = [8]", "kind core.window"),
    ("core.window = {}", "kind core.window"),
    ("core.window.more = 8", "kind core.window"),
    ("core.window = true", "kind core.window"),
    ("core = 3", "kind core"),
    ("[[core]]", "kind core"),
    ("[[core]]\nfoo = 1", "kind core"),
    ("[version]", "kind version"),
    ("[version]\nfoo = 1", "kind version"),
    ("version = 0", "range version 0"),
    ("version = 3", "range version 3"),
    ("version = \"2\"", "kind version"),
    ("version = 2.0", "kind version"),
    ("icache.sets = 48", "power icache.sets 48"),
    ("icache.line = 257", "range icache.line 257"),
    ("icache.line = 2", "range icache.line 2"),
    (
        "predictor.counters = 65537",
        "range predictor.counters 65537",
    ),
    ("predictor.counters = 3", "power predictor.counters 3"),
    ("predictor.targets = 3", "power predictor.targets 3"),
    ("predictor.targets = -1", "range predictor.targets -1"),
    ("predictor.kind = \"Static\"", "kind predictor.kind"),
    ("predictor.kind = \"\"", "kind predictor.kind"),
    ("predictor.kind = 0", "kind predictor.kind"),
    ("[cpu]", "unknown cpu"),
    ("cpu = 1", "unknown cpu"),
    ("\"\" = 1", "unknown "),
    ("core.\"\" = 1", "unknown core."),
    ("Core.window = 1", "unknown Core"),
    ("core.window = 0\ncore.foo = 1", "unknown core.foo"),
    ("core.zoo = 1\nbus = 1\ncore.foo = 1", "unknown bus"),
    ("zoo = 1\ncore.zoo = 1\ncore.foo = 1", "unknown core.foo"),
    ("core.foo.bar = 1", "unknown core.foo"),
    (
        "icache.policy = \"back\"\nversion = 2",
        "unknown icache.policy",
    ),
    ("dcache.policy = \"back\"", "unknown dcache.policy"),
    ("version = 1\nl2.ways = 1", "unknown l2"),
    ("version = 3\nl2.ways = 1", "unknown l2"),
    ("version = 2.0\nl2.ways = 1", "unknown l2"),
    ("version = 2\nl2 = 1", "kind l2"),
    (
        "version = 2\ndcache.policy = \"write\"",
        "kind dcache.policy",
    ),
    ("dcache.line = 0\nicache.sets = 0", "range dcache.line 0"),
    ("mem.latency = 0\nalu.latency = 0", "range alu.latency 0"),
    ("ram.base = 0xFFFFF000", "range ram.size 16777216"),
    ("a =", "not toml"),
    ("core.window = 8\ncore.window = 8", "not toml"),
    ("core.window = 8\n[core]\nfetch = 1", "not toml"),
    ("core.window = 08", "not toml"),
];

/// A key with a whole number, and the range of its numbers.
static RANGES: [(&str, i64, i64); 31] = [
    ("version", 1, 2),
    ("ram.size", 4096, 67_108_864),
    ("core.fetch", 1, 8),
    ("core.commit", 1, 8),
    ("core.front", 1, 32),
    ("core.window", 1, 256),
    ("core.stations", 1, 256),
    ("alu.count", 1, 8),
    ("alu.latency", 1, 64),
    ("mul.count", 1, 8),
    ("mul.latency", 1, 64),
    ("div.count", 1, 8),
    ("div.latency", 1, 64),
    ("mem.count", 1, 8),
    ("mem.latency", 1, 64),
    ("predictor.counters", 1, 65_536),
    ("predictor.history", 0, 16),
    ("predictor.targets", 0, 65_536),
    ("icache.line", 4, 256),
    ("icache.sets", 1, 4096),
    ("icache.ways", 0, 16),
    ("icache.miss", 0, 1000),
    ("dcache.line", 4, 256),
    ("dcache.sets", 1, 4096),
    ("dcache.ways", 0, 16),
    ("dcache.miss", 0, 1000),
    ("l2.line", 4, 256),
    ("l2.sets", 1, 65_536),
    ("l2.ways", 0, 16),
    ("l2.hit", 0, 1000),
    ("l2.miss", 0, 1000),
];

/// Where RAM lies, and how that is answered.
static RAMS: [(&str, &str); 12] = [
    ("base = 0x20000000", "read"),
    ("base = 0x1FFFF000", "range ram.base 536866816"),
    ("base = 0x20000800", "range ram.base 536872960"),
    ("base = 0xFFFFF000\nsize = 4096", "read"),
    (
        "base = 0x100000000\nsize = 4096",
        "range ram.base 4294967296",
    ),
    ("base = 0xFFFFF000\nsize = 8192", "range ram.size 8192"),
    ("base = 0xFF000000", "read"),
    ("base = 0xFF001000", "range ram.size 16777216"),
    ("base = 0xFC000000\nsize = 67108864", "read"),
    ("size = 4097", "range ram.size 4097"),
    ("size = 67112960", "range ram.size 67112960"),
    ("base = -1\nsize = -1", "range ram.base -1"),
];

fn key_text(key: &Bytes) -> &str {
    std::str::from_utf8(key.as_slice()).unwrap_or("no text")
}

fn fault_text(alloc: Global, fault: &MachineFault) -> Result<String, AllocError> {
    match fault {
        MachineFault::NotToml => String::from_str(alloc, "not toml"),
        MachineFault::Unknown(key) => format!(in alloc; "unknown {}", key_text(key)),
        MachineFault::Kind(key) => format!(in alloc; "kind {}", key_text(key)),
        MachineFault::Range(key, number) => format!(in alloc; "range {} {number}", key_text(key)),
        MachineFault::Power(key, number) => format!(in alloc; "power {} {number}", key_text(key)),
        MachineFault::Memory => String::from_str(alloc, "no memory"),
    }
}

fn answer(alloc: Global, file: &str) -> Result<String, AllocError> {
    match read(alloc, file.as_bytes()) {
        Ok(_) => String::from_str(alloc, "read"),
        Err(fault) => fault_text(alloc, &fault),
    }
}

/// Files, and the machines that they say.
fn machines() -> [(&'static str, Params); 11] {
    let plain = Params::plain();
    let wide = Params {
        core_fetch: 2,
        core_window: 16,
        ..plain
    };
    let second = Params {
        version: 2,
        ..plain
    };
    let four_wide = Params {
        core_fetch: 4,
        core_commit: 4,
        core_window: 64,
        predictor_kind: PredKind::Bimodal,
        predictor_targets: 64,
        icache_ways: 4,
        dcache_ways: 4,
        dcache_miss: 1000,
        ..plain
    };
    [
        ("", plain),
        ("# nothing\n", plain),
        ("version = 2", second),
        ("[core]\n[alu]\n", plain),
        ("core.fetch = 2\ncore.window = 16\n", wide),
        ("[core]\r\nfetch = 2\r\nwindow = 16\r\n", wide),
        ("core = { window = 16, fetch = 2 }", wide),
        ("\"core\".'window' = 0x10\ncore.fetch = +2", wide),
        ("core.window = 1_6\ncore.fetch = 0b10", wide),
        (
            "version = 1\n\n[core] # four wide\nfetch = 4\ncommit = 4\nwindow = 64\n\n\
             [predictor]\nkind = \"bimodal\"\ntargets = 64\n\n\
             [icache]\nways = 4\n\n[dcache]\nways = 4\nmiss = 1000\n",
            four_wide,
        ),
        (ALL_KEYS, ALL_OTHERS),
    ]
}

#[test]
fn files_give_their_machines(rt: HostRuntime) -> Result<(), Fail> {
    for (file, wanted) in machines() {
        match read(rt.alloc(), file.as_bytes()) {
            Ok(params) => assert_eq!(rt; params, wanted, "the file {file}"),
            Err(fault) => {
                let text = fault_text(rt.alloc(), &fault)?;
                assert_eq!(rt; text.as_str(), "read", "the file {file}");
            }
        }
    }
    Ok(())
}

/// Compares how a file is answered.
fn expect(rt: &impl Abort, alloc: Global, file: &str, wanted: &str) -> Result<(), Fail> {
    let text = answer(alloc, file)?;
    assert_eq!(rt; text.as_str(), wanted, "the file {file}");
    Ok(())
}

fn refused() -> &'static [(&'static str, &'static str)] {
    &REFUSED
}

#[test]
fn files_are_refused_with_their_first_fault(rt: HostRuntime) -> Result<(), Fail> {
    for &(file, wanted) in refused() {
        expect(&rt, rt.alloc(), file, wanted)?;
    }
    Ok(())
}

/// Compares how a file is answered in which a key has this number.
fn expect_number(
    rt: &impl Abort,
    alloc: Global,
    key: &str,
    number: i64,
    is_within: bool,
) -> Result<(), Fail> {
    let version = if key.starts_with("l2") {
        "version = 2"
    } else {
        ""
    };
    let file = format!(in alloc; "{version}\n{key} = {number}")?;
    let refusal = format!(in alloc; "range {key} {number}")?;
    let wanted = if is_within { "read" } else { refusal.as_str() };
    expect(rt, alloc, file.as_str(), wanted)
}

fn ranges() -> &'static [(&'static str, i64, i64)] {
    &RANGES
}

#[test]
fn both_ends_of_a_range_are_in_it(rt: HostRuntime) -> Result<(), Fail> {
    let alloc = rt.alloc();
    for &(key, low, high) in ranges() {
        expect_number(&rt, alloc, key, low, true)?;
        expect_number(&rt, alloc, key, high, true)?;
        expect_number(&rt, alloc, key, low.saturating_sub(1), false)?;
        expect_number(&rt, alloc, key, high.saturating_add(1), false)?;
    }
    Ok(())
}

fn rams() -> &'static [(&'static str, &'static str)] {
    &RAMS
}

#[test]
fn ram_lies_within_the_addresses(rt: HostRuntime) -> Result<(), Fail> {
    let alloc = rt.alloc();
    for &(keys, wanted) in rams() {
        let file = format!(in alloc; "[ram]\n{keys}")?;
        expect(&rt, alloc, file.as_str(), wanted)?;
    }
    Ok(())
}

#[test]
fn bytes_that_are_no_document_are_refused(rt: HostRuntime) -> Result<(), Fail> {
    assert!(rt; matches!(read(rt.alloc(), &[0xff]), Err(MachineFault::NotToml)));
    assert!(rt;
        matches!(
            read(rt.alloc(), &[b'a', b'=', 0]),
            Err(MachineFault::NotToml)
        )
    );
    let mut nested = Vec::new(rt.alloc());
    nested.extend_from_slice(b"core = ")?;
    for _ in 0..1000 {
        nested.push(b'[')?;
    }
    assert!(rt;
        matches!(
            read(rt.alloc(), nested.as_slice()),
            Err(MachineFault::NotToml)
        )
    );
    Ok(())
}

/// How long a file may be is the program's to say: this crate reads one of any length.
#[test]
fn comment_of_65_537_bytes_is_the_plain_machine(rt: HostRuntime) -> Result<(), Fail> {
    let mut comment = Vec::new(rt.alloc());
    for _ in 0..65_537 {
        comment.push(b'#')?;
    }
    assert!(rt;
        matches!(read(rt.alloc(), comment.as_slice()), Ok(params) if params == Params::plain())
    );
    Ok(())
}

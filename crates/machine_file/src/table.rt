/// What the value of a key has to be.
#[derive(Clone, Copy)]
pub(crate) enum Wanted {
    /// A whole number in this range.
    Number { low: u32, high: u32 },
    /// Such a number that is 0 or a power of two.
    Power { low: u32, high: u32 },
    /// Such a number that is a multiple of 4,096.
    Pages { low: u32, high: u32 },
    /// Such a multiple that makes at most 2^32 with the base of RAM.
    PagesOfRam { low: u32, high: u32 },
    /// One of two texts, which stands for its place among them.
    TextOfTwo(&'static str, &'static str),
    /// One of three texts, which stands for its place among them.
    TextOfThree(&'static str, &'static str, &'static str),
}

/// A top-level name, and perhaps a name inside the section of that name.
#[derive(Clone, Copy)]
pub(crate) struct Key<'a> {
    pub top: &'a str,
    pub inside: Option<&'a str>,
}

/// A key, what its value has to be, and the value that it has where a file leaves it out.
#[derive(Clone, Copy)]
pub(crate) struct Row {
    pub key: Key<'static>,
    pub wanted: Wanted,
    pub default: u32,
}

/// How many keys there are, and how many of them are those of version 1.
pub(crate) const ROW_COUNT: usize = 34;

pub(crate) const FIRST_COUNT: usize = 28;

/// A row with the names of its key, the kind and range of its numbers, and its default.
macro_rules! row {
    (
        $top:literal, $inside:literal, $wanted:ident, $low:literal, $high:literal,
        $default:literal
    ) => {
        Row {
            key: Key {
                top: $top,
                inside: Some($inside),
            },
            wanted: Wanted::$wanted {
                low: $low,
                high: $high,
            },
            default: $default,
        }
    };
}

/// The row of the first address of RAM.
pub(crate) const RAM_BASE: Row = row!("ram", "base", Pages, 0x2000_0000, 0xffff_f000, 0x8000_0000);

/// The keys in the order in which they are tested. Those of version 2 alone stand at the end.
pub(crate) const ROWS: [Row; ROW_COUNT] = [
    Row {
        key: Key {
            top: "version",
            inside: None,
        },
        wanted: Wanted::Number { low: 1, high: 2 },
        default: 1,
    },
    RAM_BASE,
    row!("ram", "size", PagesOfRam, 4096, 67_108_864, 16_777_216),
    row!("core", "fetch", Number, 1, 8, 1),
    row!("core", "commit", Number, 1, 8, 1),
    row!("core", "front", Number, 1, 32, 1),
    row!("core", "window", Number, 1, 256, 1),
    row!("core", "stations", Number, 1, 256, 256),
    row!("alu", "count", Number, 1, 8, 1),
    row!("alu", "latency", Number, 1, 64, 1),
    row!("mul", "count", Number, 1, 8, 1),
    row!("mul", "latency", Number, 1, 64, 1),
    row!("div", "count", Number, 1, 8, 1),
    row!("div", "latency", Number, 1, 64, 1),
    row!("mem", "count", Number, 1, 8, 1),
    row!("mem", "latency", Number, 1, 64, 1),
    Row {
        key: Key {
            top: "predictor",
            inside: Some("kind"),
        },
        wanted: Wanted::TextOfThree("static", "bimodal", "gshare"),
        default: 0,
    },
    row!("predictor", "counters", Power, 1, 65_536, 1024),
    row!("predictor", "history", Number, 0, 16, 8),
    row!("predictor", "targets", Power, 0, 65_536, 0),
    row!("icache", "line", Power, 4, 256, 64),
    row!("dcache", "line", Power, 4, 256, 64),
    row!("icache", "sets", Power, 1, 4096, 64),
    row!("dcache", "sets", Power, 1, 4096, 64),
    row!("icache", "ways", Number, 0, 16, 0),
    row!("dcache", "ways", Number, 0, 16, 0),
    row!("icache", "miss", Number, 0, 1000, 20),
    row!("dcache", "miss", Number, 0, 1000, 20),
    Row {
        key: Key {
            top: "dcache",
            inside: Some("policy"),
        },
        wanted: Wanted::TextOfTwo("through", "back"),
        default: 0,
    },
    row!("l2", "line", Power, 4, 256, 64),
    row!("l2", "sets", Power, 1, 65_536, 512),
    row!("l2", "ways", Number, 0, 16, 0),
    row!("l2", "hit", Number, 0, 1000, 10),
    row!("l2", "miss", Number, 0, 1000, 100),
];

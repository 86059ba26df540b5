ghost use Rattle.std.specs.Prelude.{◌≡◌, [], ◌<◌, ◌≤◌, ◌==◌, ◌&&◌, filter, find, length, not, IfOk};
ghost use Rattle.std.specs.List.{list_any, range_with_len};
ghost use Rattle.gdb_model.specs.Session.{is_break, is_over, watched_access, watches_loads};
ghost use Rattle.gdb_model.specs.Session.{watches_stores};
ghost use Rattle.gdb_model.specs.Talk.{is_same, kind_number};
ghost use Rattle.gdb_session.specs.Points.{IsSet, greater, is_break_at, is_watching, watched_by};

use fsim_base::{Access, NoMemory};
use gdb_packets::{Point, PointKind};
use std::alloc::Global;
use std::marker::Model;

/// How many points a session has room for.
const POINTS: usize = 256;

/// Breakpoints and watchpoints, none of them twice. Contracts see their list, in the order in which
/// they were set.
#[derive(Drop)]
pub struct Points {
    points: Vec<Point>,
}

impl Model for Points {
    ghost use Rattle.std.specs.Prelude.{List, ◌≤◌, length, vec_capacity};
    ghost use Rattle.gdb_packets.specs.declared.packet.Point.{Point};

    ghost Value = { List Point };

    ghost view = { λ p. p.points.items };

    ghost invariant = { λ p. (length p.points.items ≤ 256) × (256 ≤ vec_capacity p.points) };
}

/// The number by which GDB knows a kind.
fn kind_number(kind: PointKind) -> u8
    ensures number { result ≡ kind_number kind }
{
    match kind {
        PointKind::Software => 0,
        PointKind::Hardware => 1,
        PointKind::Written => 2,
        PointKind::Read => 3,
        PointKind::Accessed => 4,
    }
}

/// Whether two points are the same.
fn is_same(point: &Point, other: &Point) -> bool
    ensures same { result ≡ is_same point.now other.now }
{
    kind_number(point.kind) == kind_number(other.kind)
        && point.address == other.address
        && point.size == other.size
}

/// Whether a point stops a run before an instruction.
fn is_break(kind: PointKind) -> bool
    ensures stops { result ≡ is_break kind }
{
    matches!(kind, PointKind::Software | PointKind::Hardware)
}

/// Whether a breakpoint is at an address.
fn is_break_at(address: u32, point: &Point) -> bool
    ensures there { result ≡ is_break_at address point.now }
{
    is_break(point.kind) && point.address == u64::from(address)
}

/// Whether a point watches loads.
fn watches_loads(kind: PointKind) -> bool
    ensures watches { result ≡ watches_loads kind }
{
    matches!(kind, PointKind::Read | PointKind::Accessed)
}

/// Whether a point watches stores.
fn watches_stores(kind: PointKind) -> bool
    ensures watches { result ≡ watches_stores kind }
{
    matches!(kind, PointKind::Written | PointKind::Accessed)
}

/// Whether a point is for a byte.
fn is_over(point: &Point, byte: u64) -> bool
    ensures over { result ≡ is_over point.now byte }
{
    point.address <= byte && byte - point.address < point.size
}

/// The first of so many bytes that a point is for.
fn first_over(point: &Point, addr: u32, count: u32) -> Option<u64>
    ensures first { result ≡ find (is_over point.now) (range_with_len addr count) }
{
    for place in 0..u64::from(count) {
        let byte = u64::from(addr) + place;
        if is_over(point, byte) {
            return Some(byte);
        }
    }
    None
}

/// The first byte of an access that a point watches.
fn watched_byte(point: &Point, access: Access) -> Option<u64>
    ensures byte { result ≡ watched_by point.now access }
{
    match access {
        Access::Load { addr, width, .. } if watches_loads(point.kind) => {
            first_over(point, addr, width.bytes())
        }
        Access::Store { addr, width, .. } if watches_stores(point.kind) => {
            first_over(point, addr, width.bytes())
        }
        _ => None,
    }
}

/// The greater of two numbers, where there are two.
fn greater(first: Option<u64>, second: Option<u64>) -> Option<u64>
    ensures greater { result ≡ greater first second }
{
    match (first, second) {
        (Some(first), Some(second)) => Some(first.max(second)),
        (Some(first), None) => Some(first),
        (None, second) => second,
    }
}

impl Points {
    /// No point. All memory is taken here.
    pub fn new(alloc: Global) -> Result<Points, NoMemory>
        ensures none { IfOk result (λ points. points ≡ []) }
    {
        match Vec::with_capacity(alloc, POINTS) {
            Ok(points) => Ok(Points { points }),
            Err(_) => Err(NoMemory),
        }
    }

    /// Adds a point, where it isn't there already; false, and nothing changes, where there is no
    /// room for it.
    pub fn set(&mut self, point: Point) -> bool
        ensures set { IsSet point self.old self.new result }
    {
        if self.has(&point) {
            return true;
        }
        if self.points.len() == POINTS {
            return false;
        }
        self.points.push_reserved(point);
        true
    }

    /// Whether a point is there.
    fn has(&self, point: &Point) -> bool
        ensures there { result ≡ list_any (is_same point.now) self.now }
    {
        self.points
            .as_slice()
            .iter()
            .any(|other| is_same(point, other))
    }

    /// Takes a point away, where it is there.
    pub fn clear(&mut self, point: Point)
        ensures cleared { self.new ≡ filter (λ other. not (is_same point other)) self.old }
    {
        self.points.retain(|other| !is_same(&point, other));
    }

    /// Whether a breakpoint is at an address.
    pub fn has_break(&self, address: u32) -> bool
        ensures there { result ≡ list_any (is_break_at address) self.now }
    {
        self.points
            .as_slice()
            .iter()
            .any(|point| is_break_at(address, point))
    }

    /// Whether there is a watchpoint.
    pub fn has_watch(&self) -> bool
        ensures there { result ≡ is_watching self.now }
    {
        self.points
            .as_slice()
            .iter()
            .any(|point| !is_break(point.kind))
    }

    /// A watched byte of an access: of each watchpoint the first one that it watches, and of these
    /// the greatest, which lies in the most of watchpoints within each other.
    pub fn watched(&self, access: Access) -> Option<u64>
        ensures byte { result ≡ watched_access self.now access }
    {
        let mut greatest = None;
        for point in self.points.as_slice() {
            greatest = greater(greatest, watched_byte(point, access));
        }
        greatest
    }
}

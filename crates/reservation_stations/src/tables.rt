//! What is read of the rows and by turns, and the table of producers.
ghost use Rattle.std.specs.Prelude.{◌≡◌, ◌<◌, ◌≤◌, ◌+◌, vec_len, length, if◌then◌else◌};
ghost use Rattle.std.specs.Prelude.{None, List, get_or, reverse};
ghost use Rattle.reservation_stations.specs.declared.station.Station.{Station};
ghost use Rattle.reservation_stations.specs.Readiness.{is_waiting, waiting_count};
ghost use Rattle.reservation_stations.specs.Changes.{without, with_producer, producer_at};
ghost use Rattle.reservation_stations.specs.AreTables.{AreProducers, Each, awaited};
ghost use Rattle.reservation_stations.specs.AreTables.{stations_at, row_at};
ghost use Rattle.reservation_stations.specs.Turns.{indices_from};

use crate::destination::Destination;
use crate::producer::Producer;
use crate::row::Row;
use crate::source::Source;
use crate::station::Mark;
use crate::turn_set::TURNS;

/// The places of the table of producers: one for each register, one that a source of none reads,
/// and one that is written for a destination of none.
pub const PRODUCER_PLACES: usize = 258;

/// The index of the station that has yet to give the value of a source, if one has.
#[inline(always)]
pub fn awaited(producers: &[Producer; PRODUCER_PLACES], source: Source) -> Producer
    ensures awaited { (older : List Station) → AreProducers producers.now older
        → get_or producers.now 256 None ≡ None → result ≡ awaited older source }
{
    producers[source.place()]
}

/// Makes an index the producer of a register, if one is given, or none.
#[inline(always)]
pub fn set_producer(
    producers: &mut [Producer; PRODUCER_PLACES],
    register: Destination,
    producer: Producer,
)
    ensures set { producers.new ≡ with_producer register producer producers.old }
    ensures apart { get_or producers.new 256 None ≡ get_or producers.old 256 None }
{
    producers[register.place()] = producer;
}

/// Makes a register, if one is given, have no producer, where this index is its producer.
pub fn drop_producer(producers: &mut [Producer; PRODUCER_PLACES], register: Destination, index: u32)
    ensures dropped { producers.new ≡
        with_producer register (without index (producer_at producers.old register))
        producers.old }
    ensures apart { get_or producers.new 256 None ≡ get_or producers.old 256 None }
{
    let place = register.place();
    producers[place] = producers[place].without(index);
}

/// Makes the producers those of so many stations from a turn on, and gives how many of them wait.
pub fn rename(
    producers: &mut [Producer; PRODUCER_PLACES],
    at_turn: &[u8; TURNS],
    rows: &Vec<Row>,
    from: u8,
    count: u32,
) -> u32
    requires few { count ≤ 256 }
    requires within { Each (λ index. index < vec_len rows.now)
        (indices_from at_turn.now from count) }
    ensures every_register { length producers.new ≡ 258 }
    ensures no_source { get_or producers.new 256 None ≡ None }
    ensures renamed { AreProducers producers.new
        (stations_at (row_at rows.now.items)
        (reverse (indices_from at_turn.now from count))) }
    ensures waiting { result ≡ waiting_count
        (stations_at (row_at rows.now.items) (indices_from at_turn.now from count)) }
{
    producers.fill(Producer::none());
    let mut waiting = 0;
    for place in 0..count {
        let turn = from.wrapping_add(place as u8);
        let index = u32::from(at_turn[turn as usize]);
        let Row {
            registers,
            mark,
            ..
        } = rows[index as usize];
        let producer = if mark.is_done() {
            Producer::none()
        } else {
            Producer::of(index)
        };
        set_producer(producers, registers.destination, producer);
        waiting += u32::from(mark.is_waiting());
    }
    waiting
}

/// How many stations wait once one with this mark is gone.
pub fn uncounted(waiting: u32, mark: Mark) -> u32
    requires counted { (if is_waiting mark then 1 else 0) ≤ waiting }
    ensures left { result + (if is_waiting mark then 1 else 0) ≡ waiting }
{
    if mark.is_waiting() {
        waiting - 1
    } else {
        waiting
    }
}

ghost use Rattle.std.specs.Prelude.{◌≡◌, [], IfOk, IfErr};
ghost use Rattle.fast_jobs.specs.Gives.{Gives};
ghost use Rattle.fast_jobs.specs.Job.{plan_in};
ghost use Rattle.fast_jobs.specs.Plan.{IsAdded, IsBadAt, event_of, is_blank};

use crate::refusal::Refusal;
use report_text::Status;
use split_core::Event;
use std::alloc::Global;
use std::marker::Model;

/// The events of a plan, in their order.
#[derive(Debug, Drop)]
pub struct Plan {
    events: Vec<Event>,
}

impl Model for Plan {
    ghost use Rattle.std.specs.Prelude.{List};
    ghost use Rattle.split_core.specs.declared.event.Event.{Event};

    ghost Value = { List Event };

    ghost view = { λ plan. plan.events.items };
}

impl Plan {
    /// The plan that the bytes are: letters of events, and blanks between them.
    pub fn read(alloc: Global, bytes: &[u8]) -> Result<Plan, Refusal>
        ensures plan { Gives (plan_in bytes.now) result }
    {
        let mut events = Vec::new(alloc);
        for (place, byte) in bytes.iter().enumerate() {
            add(&mut events, place as u64, *byte)?;
        }
        Ok(Plan { events })
    }

    /// The plan without events.
    pub fn empty(alloc: Global) -> Plan
        ensures none { result ≡ [] }
    {
        Plan {
            events: Vec::new(alloc),
        }
    }

    /// The events.
    pub fn events(&self) -> &[Event]
        ensures events { result.now ≡ self.now }
    {
        self.events.as_slice()
    }
}

/// Adds the event of the byte at a place to the events; a blank has none.
fn add(events: &mut Vec<Event>, place: u64, byte: u8) -> Result<(), Refusal>
    ensures added { IfOk result (λ _. IsAdded byte events.old.items events.new.items) }
    ensures refused { IfErr result (λ status. IsBadAt byte place status) }
{
    match event_of(byte) {
        Some(event) => {
            events.push(event)?;
            Ok(())
        }
        None if is_blank(byte) => Ok(()),
        None => Err(Refusal::new(Status::BadPlan(place))),
    }
}

/// The event of a letter.
fn event_of(byte: u8) -> Option<Event>
    ensures event { result ≡ event_of byte }
{
    match byte {
        b'C' => Some(Event::Compute),
        b'P' => Some(Event::Push),
        b'O' => Some(Event::Obey),
        b'T' => Some(Event::Tick),
        b'K' => Some(Event::Take),
        b'S' => Some(Event::Send),
        _ => None,
    }
}

/// Whether the byte does nothing.
fn is_blank(byte: u8) -> bool
    ensures blank { result ≡ is_blank byte }
{
    matches!(byte, b' ' | b'\r' | b'\n')
}

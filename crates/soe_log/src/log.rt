use crate::event::Event;
use std::alloc::Global;
use std::marker::Model;
use tri_base::NoMemory;

/// How many events are kept.
const EVENT_LIMIT: usize = 4096;

/// The first 4,096 events, and how many more there were.
#[derive(Drop)]
pub(crate) struct Log {
    events: Vec<Event>,
    lost: u64,
}

impl Model for Log {
    ghost use Rattle.std.specs.Prelude.{◌≤◌, vec_len, vec_capacity};
    ghost use Rattle.soe_log.specs.Recording.{event_limit};
    ghost use Rattle.soe_log.specs.Inner.Logged.{LogData};

    ghost Value = { LogData };

    ghost view = { λ log. record { events = log.events.items; lost = log.lost } };

    ghost invariant = { λ log.
        (vec_len log.events ≤ event_limit) × (event_limit ≤ vec_capacity log.events) };
}

impl Log {
    ghost use Rattle.std.specs.Prelude.{◌≡◌, ◌≤◌, ◌<◌, ◌+◌, ◌^◌, [], ◌∷◌, length, IfOk};
    ghost use Rattle.soe_log.specs.Recording.{event_limit};
    ghost use Rattle.soe_log.specs.Inner.Logged.{logged, noted};

    /// No events, and room for all that are kept.
    pub(crate) fn new(alloc: Global) -> Result<Log, NoMemory>
        ensures { IfOk result (λ log. log ≡ record { events = []; lost = 0 }) }
    {
        let events = Vec::with_capacity(alloc, EVENT_LIMIT)?;
        Ok(Log { events, lost: 0 })
    }

    /// Adds an event where its value isn't the older one. It takes no memory.
    pub(crate) fn note(&mut self, older: bool, event: Event)
        requires room { self.old.lost + 1 < 2 ^ 64 }
        requires few { length self.old.events ≤ event_limit }
        ensures log { self.new ≡ noted self.old older event }
        ensures lost { self.new.lost ≤ self.old.lost + 1 }
        ensures few { length self.new.events ≤ event_limit }
    {
        if event.value != older {
            self.add(event);
        }
    }

    /// Adds an event.
    fn add(&mut self, event: Event)
        requires room { self.old.lost + 1 < 2 ^ 64 }
        ensures log { self.new ≡ logged self.old (event ∷ []) }
        ensures lost { self.new.lost ≤ self.old.lost + 1 }
        ensures few { length self.new.events ≤ event_limit }
    {
        if self.events.len() < EVENT_LIMIT {
            self.events.push(event).unwrap();
        } else {
            self.lost += 1;
        }
    }

    /// Lends the events that are kept.
    pub(crate) fn events(&self) -> &[Event]
        ensures events { result.now ≡ self.now.events }
        ensures few { length self.now.events ≤ event_limit }
    {
        self.events.as_slice()
    }

    /// How many more there were.
    pub(crate) fn lost(&self) -> u64
        ensures { result ≡ self.now.lost }
    {
        self.lost
    }
}

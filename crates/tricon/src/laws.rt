//! What holds of what the commands write, as contracts of functions that do nothing.

ghost use Rattle.tricon.specs.Answered.{CalmRepliesCarry, RepliesCarry};
ghost use Rattle.tricon.specs.Events.{CalmEventsCarry, EventsCarry};
ghost use Rattle.tricon.specs.Headline.{ReportsCarry, SummariesCarry};

/// The majority carries: what `step` and `play` write of each scan before the first that isn't calm
/// is what the one controller without faults does, over the voted inputs, with the same downloads.
pub fn reports_carry_the_controller()
    ensures reports { ReportsCarry }
    // Where all scans are calm, the summary has the sum of the one controller's outputs.
    ensures sums { SummariesCarry }
{}

/// What `play events` writes are the events of what the one controller does, of each scan before
/// the first that isn't calm.
pub fn events_carry_the_controller()
    ensures before_uncalm { EventsCarry }
    // Where all scans are calm, it is the text of the one controller's events.
    ensures all_calm { CalmEventsCarry }
{}

/// What `play modbus` writes are the replies over what the one controller does, of each scan before
/// the first that isn't calm.
pub fn replies_carry_the_controller()
    ensures before_uncalm { RepliesCarry }
    // Where all scans are calm, it is the text of the replies over the one controller.
    ensures all_calm { CalmRepliesCarry }
{}

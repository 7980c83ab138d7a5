// The size of a buffer.
ghost use Rattle.std.specs.Prelude.{◌-◌, ◌<◌, ◌≡◌};
ghost use Rattle.numbers.specs.Rationals.{signed};
ghost use Rattle.specification.specs.Sizes.{IsNeeded};
ghost use Rattle.results.specs.Kept.{fewest_events, size_at, BufferNumbers};

use crate::timings::Timings;
use period::delay;
use specification::{Events, Link, Needed, Ticks};

// What a needed delay comes to, where one event takes so many ticks.
fn events_needed(delay: Ticks, event: Ticks) -> Needed
    requires { event.1 < event.0 }
    ensures { IsNeeded (signed delay.0 delay.1) (signed event.0 event.1) result }
{
    if delay.0 <= delay.1 {
        return Needed::Nothing;
    }
    let above = delay.0 - delay.1;
    let length = event.0 - event.1;
    let whole = Events(above / length, 0);
    if above % length == 0 {
        Needed::Exact(whole)
    } else {
        Needed::PartOver(whole)
    }
}

// The fewest events that take as long as a needed delay.
fn fewest(delay: Ticks, event: Ticks) -> Events
    requires { event.1 < event.0 }
    ensures { result ≡ (fewest_events delay.0 delay.1 (event.0 - event.1), 0) }
{
    match events_needed(delay, event) {
        // Document 000's line (7) holds δ at zero.
        Needed::Nothing => Events(0, 0),
        Needed::Exact(events) => events,
        // Its rounding up.
        Needed::PartOver(events) => Events(events.0 + 1, 0),
    }
}

impl<'a> Timings<'a> {
    // The size of a buffer, from the weights and the periods and starts of its ends.
    pub(crate) fn size_of(&self, buffer: Link) -> u64
        requires { BufferNumbers buffer self.now.weights.now self.now.kept.now }
        ensures { result ≡ size_at buffer self.now.weights.now self.now.kept.now }
    {
        let sender = self.kept[buffer.from];
        let receiver = self.kept[buffer.to];
        let weight = self.weights[buffer.from];
        // ε, and one event of the sender, in ticks over b.
        let epsilon = delay::delay(buffer.ticks, Events(0, 0), sender.period);
        let event = delay::delay(Ticks(0, 0), Events(weight, 0), sender.period);
        // The sender's start plus ε minus the receiver's start.
        let needed_delay = Ticks(sender.start + epsilon.0, receiver.start + epsilon.1);
        fewest(needed_delay, event).0
    }
}

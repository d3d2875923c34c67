// Response times of events on a plain CAN bus.
#![tactic(auto)]

mod busy;
mod demand;
mod events;
mod times;

ghost use Rattle.std.specs.Prelude.{◌≡◌, ◌≤◌, length};
ghost use Rattle.rules.specs.Paper.{room_fault};
ghost use Rattle.response.specs.Events.{most_events};
ghost use Rattle.response.specs.Promise.{call_fault, Responding};
ghost use Rattle.response.specs.Parts.{Noted};

use busy::busy_fault;
pub use events::{
    DATA, DEADLINE, EVENT_WORDS, IDENTIFIER, JITTER, LONGEST_PERIOD, MOST_EVENTS, PERIOD,
};
use events::{count_of, events_fault};
use rules::{Refusal, refuse_if};
use times::fill;
pub use times::{Worst, worst_of};

// That n times are more than there is room for.
fn room_fault(n: usize, room: usize) -> Result<(), Refusal>
    ensures { result ≡ room_fault n room }
{
    refuse_if(room < n, Refusal::Room)
}

// What is wrong with a call that has room for so many times: its events, the first that has no busy period, or that the room is too little. The busy periods are noted.
fn call_fault(events: &[u32], spans: &mut [u32], room: usize) -> Result<(), Refusal>
    requires { most_events ≤ length spans.old }
    ensures { Noted events.now spans.new (call_fault events.now room) result }
{
    events_fault(events)?;
    busy_fault(events, spans).and(room_fault(count_of(events), room))
}

// Writes each event's response time, 0 for one that misses its deadline, and answers how many are 0, or why there are no times.
pub fn responses(events: &[u32], times: &mut [u32]) -> Result<u32, Refusal>
    ensures { Responding events.now times.old times.new result }
{
    let mut spans = [0u32; MOST_EVENTS];
    call_fault(events, &mut spans, times.len())?;
    Ok(fill(events, &spans, times))
}

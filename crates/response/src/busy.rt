// How long the bus stays busy with an event and those of higher priority.
ghost use Rattle.std.specs.Prelude.{◌≤◌, length};
ghost use Rattle.rules.specs.Refusal.{first_fault};
ghost use Rattle.response.specs.Events.{Sound, count};
ghost use Rattle.response.specs.Promise.{endless_fault};
ghost use Rattle.response.specs.Parts.{Member, BusyOrNone, Noted};

use super::demand::{arrivals_of, blocking_of, demand_of, frame_of};
use super::events::count_of;
use rules::Refusal;

// The longest busy period that is allowed.
pub(crate) const LONGEST_BUSY: usize = 16777216;

// The length of event i's busy period, if it has one: t climbs from 1 to the least t that is its own load, or past the longest.
pub(crate) fn busy_of(events: &[u32], i: usize) -> Option<u32>
    requires { Member events.now i }
    ensures { BusyOrNone events.now i result }
{
    let blocked = blocking_of(events, i);
    let frame = frame_of(events, i);
    let mut t: usize = 1;
    while t <= LONGEST_BUSY {
        let next = blocked + (frame * arrivals_of(events, i, t) + demand_of(events, i, t));
        if next == t {
            return Some(t as u32);
        }
        t = next;
    }
    None
}

// Notes each event's busy period, up to the first event that has none, which is the fault.
pub(crate) fn busy_fault(events: &[u32], spans: &mut [u32]) -> Result<(), Refusal>
    requires { Sound events.now × (count events.now ≤ length spans.old) }
    ensures { Noted events.now spans.new (first_fault (count events.now) (endless_fault events.now)) result }
{
    for j in 0..count_of(events) {
        spans[j] = busy_of(events, j).ok_or(Refusal::Endless(j as u32))?;
    }
    Ok(())
}

// The response times of events from their busy periods.
ghost use Rattle.std.specs.Prelude.{◌≡◌, false, ◌≤◌, length};
ghost use Rattle.response.specs.Events.{Sound, count};
ghost use Rattle.response.specs.Times.{endless, Response, Written};
ghost use Rattle.response.specs.Promise.{miss, zeros, TimesWritten};
ghost use Rattle.response.specs.Parts.{Member, Figure, Span, Spans, Worse, Sought};

use super::busy::{LONGEST_BUSY, busy_of};
use super::demand::{
    arrivals_of, blocking_of, deadline_of, demand_of, frame_of, jitter_of, period_of,
};
use super::events::{LONGEST_PERIOD, count_of};

// How long an event's busy period is, the longest response of the instances in it, and the first instance that has it.
#[derive(Clone, Copy)]
pub struct Worst {
    pub span: usize,
    pub instance: usize,
    pub response: usize,
}

// What was the worst before instance q, or that instance if its response is longer.
fn worse(worst: Worst, q: usize, response: usize) -> Worst
    ensures { Worse worst q response result }
{
    if worst.response < response {
        Worst {
            instance: q,
            response,
            ..worst
        }
    } else {
        worst
    }
}

// The worst of event i in its busy period, or the first instance whose response is above the limit. At each turn w climbs, or it is an instance's queuing
// time and the next instance waits at least a frame longer.
fn worst_within(events: &[u32], i: usize, span: usize, limit: usize) -> Worst
    requires { Member events.now i × Span events.now i span }
    ensures { Sought events.now i span limit result }
{
    let frame = frame_of(events, i);
    let period = period_of(events, i);
    let own = jitter_of(events, i) + frame;
    let instances = arrivals_of(events, i, span);
    let mut worst = Worst {
        span,
        instance: 0,
        response: 0,
    };
    let mut ahead = blocking_of(events, i);
    let mut released: usize = 0;
    let mut w = ahead;
    let mut q: usize = 0;
    while q < instances {
        let next = ahead + demand_of(events, i, w + 1);
        if next != w {
            w = next;
            continue;
        }
        worst = worse(worst, q, own + w - released);
        if limit < worst.response {
            return worst;
        }
        ahead += frame;
        released += period;
        w += frame;
        q += 1;
    }
    worst
}

// The worst of event i.
pub fn worst_of(events: &[u32], i: usize) -> Worst
    requires { Member events.now i × (endless events.now i ≡ false) }
    ensures { Response events.now i result.span result.instance result.response }
{
    let span = busy_of(events, i).unwrap() as usize;
    worst_within(events, i, span, LONGEST_BUSY + LONGEST_PERIOD as usize)
}

// The word that is written for event i: its response time, from its busy period, or 0, document 01's word for a missed deadline.
fn time_of(events: &[u32], i: usize, span: usize) -> u32
    requires { Member events.now i × Span events.now i span }
    ensures { Written events.now i result }
{
    let deadline = deadline_of(events, i);
    let worst = worst_within(events, i, span, deadline);
    if deadline < worst.response {
        0
    } else {
        worst.response as u32
    }
}

// Writes every event's time, from its busy period, and answers how many of them are 0.
pub(crate) fn fill(events: &[u32], spans: &[u32], times: &mut [u32]) -> u32
    requires { Sound events.now × Spans events.now spans.now (count events.now) × (count events.now ≤ length spans.now) × (count events.now ≤ length times.old) }
    ensures { TimesWritten events.now times.old times.new (count events.now) × (result ≡ zeros times.new (count events.now)) }
{
    let mut misses: u32 = 0;
    for (i, time) in times[..count_of(events)].iter_mut().enumerate() {
        *time = time_of(events, i, spans[i] as usize);
        misses += u32::from(*time == 0);
    }
    misses
}

// The figures of events that keep the rules: an event's own, what blocks it, and what comes before it within a span. A demand can be above 32 bits, so every figure is a usize.
// One function reads each word of an event, since each has its own bounds in its contract.
ghost use Rattle.std.specs.Prelude.{◌≡◌, ◌<◌, ◌≤◌, max};
ghost use Rattle.response.specs.Events.{longest_period, identifier, period, jitter, deadline};
ghost use Rattle.response.specs.Times.{wins, takes, blocked_by, blocking, ceiling, arrivals, interference, demand};
ghost use Rattle.response.specs.Parts.{Member, Figure, shortest_frame, longest_frame, longest_span, most_arrivals, most_interference, most_demand};

use super::events::{DATA, DEADLINE, IDENTIFIER, JITTER, PERIOD, count_of, word};
use rules::words::frame_bits;

// Event j's identifier.
fn identifier_of(events: &[u32], j: usize) -> u32
    requires { Member events.now j }
    ensures { result ≡ identifier events.now j }
{
    word(events, j, IDENTIFIER)
}

// Event j's period.
pub(crate) fn period_of(events: &[u32], j: usize) -> usize
    requires { Member events.now j }
    ensures { Figure (period events.now j) 1 longest_period result }
{
    word(events, j, PERIOD) as usize
}

// Event j's jitter.
pub(crate) fn jitter_of(events: &[u32], j: usize) -> usize
    requires { Member events.now j }
    ensures { Figure (jitter events.now j) 0 longest_period result }
{
    word(events, j, JITTER) as usize
}

// Event j's deadline.
pub(crate) fn deadline_of(events: &[u32], j: usize) -> usize
    requires { Member events.now j }
    ensures { Figure (deadline events.now j) 1 longest_period result }
{
    word(events, j, DEADLINE) as usize
}

// How long a frame of event j takes.
pub(crate) fn frame_of(events: &[u32], j: usize) -> usize
    requires { Member events.now j }
    ensures { Figure (takes events.now j) shortest_frame longest_frame result }
{
    frame_bits(word(events, j, DATA) as usize)
}

// Whether event j has a higher priority than event i.
fn wins_over(events: &[u32], j: usize, i: usize) -> bool
    requires { Member events.now j × Member events.now i }
    ensures { result ≡ wins events.now j i }
{
    identifier_of(events, j) < identifier_of(events, i)
}

// How long a frame of event j, once it is on the bus, can keep event i off it.
fn blocked_by(events: &[u32], i: usize, j: usize) -> usize
    requires { Member events.now i × Member events.now j }
    ensures { Figure (blocked_by events.now i j) 0 longest_frame result }
{
    if wins_over(events, i, j) {
        frame_of(events, j)
    } else {
        0
    }
}

// The longest frame of lower priority than event i's.
pub(crate) fn blocking_of(events: &[u32], i: usize) -> usize
    requires { Member events.now i }
    ensures { Figure (blocking events.now i) 0 longest_frame result }
{
    let mut most: usize = 0;
    for j in 0..count_of(events) {
        most = most.max(blocked_by(events, i, j));
    }
    most
}

// a / b, rounded up; divided as words, since that division is quicker.
fn ceiling_of(a: usize, b: usize) -> usize
    requires { (a ≤ most_arrivals) × (1 ≤ b) × (b ≤ longest_period) }
    ensures { Figure (ceiling a b) 0 most_arrivals result }
{
    (a as u32).div_ceil(b as u32) as usize
}

// How many frames of event j can be queued within a span.
pub(crate) fn arrivals_of(events: &[u32], j: usize, span: usize) -> usize
    requires { Member events.now j × (span ≤ longest_span) }
    ensures { Figure (arrivals events.now j span) 0 most_arrivals result }
{
    ceiling_of(span + jitter_of(events, j), period_of(events, j))
}

// How long the frames of event j take that can be queued within a span and go before event i's.
fn interference_of(events: &[u32], i: usize, j: usize, span: usize) -> usize
    requires { Member events.now i × Member events.now j × (span ≤ longest_span) }
    ensures { Figure (interference events.now i span j) 0 most_interference result }
{
    if wins_over(events, j, i) {
        frame_of(events, j) * arrivals_of(events, j, span)
    } else {
        0
    }
}

// How long all frames of higher priority than event i's take that can be queued within a span.
pub(crate) fn demand_of(events: &[u32], i: usize, span: usize) -> usize
    requires { Member events.now i × (span ≤ longest_span) }
    ensures { Figure (demand events.now i span) 0 most_demand result }
{
    let mut total: usize = 0;
    for j in 0..count_of(events) {
        total += interference_of(events, i, j, span);
    }
    total
}

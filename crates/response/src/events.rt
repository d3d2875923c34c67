// The words of events, and what is wrong with them.
ghost use Rattle.std.specs.Prelude.{◌≡◌, ◌<◌};
ghost use Rattle.rules.specs.Refusal.{first_fault};
ghost use Rattle.response.specs.Events.{event_words, count, field, Gives, Whole, fields_wrong, repeated, event_wrong, words_wrong, event_fault, events_fault};

use basics::is_outside;
use rules::{Refusal, refuse_if};

// So many words are an event, and a call takes at most so many events.
pub const EVENT_WORDS: usize = 5;

pub const MOST_EVENTS: usize = 64;

const MOST_WORDS: usize = EVENT_WORDS * MOST_EVENTS;

// No period is longer.
pub const LONGEST_PERIOD: u32 = 4194304;

// Where each of an event's words stands.
pub const IDENTIFIER: usize = 0;

pub const DATA: usize = 1;

pub const PERIOD: usize = 2;

pub const JITTER: usize = 3;

pub const DEADLINE: usize = 4;

// How many events the words are.
pub(crate) fn count_of(events: &[u32]) -> usize
    ensures { result ≡ count events.now }
{
    events.len() / EVENT_WORDS
}

// Word k of event j.
pub(crate) fn word(events: &[u32], j: usize, k: usize) -> u32
    requires { Gives events.now j × (k < event_words) }
    ensures { result ≡ field events.now j k }
{
    events[EVENT_WORDS * j + k]
}

// Whether a word of an event is out of its range.
fn fields_wrong(id: u32, size: u32, period: u32, jitter: u32, deadline: u32) -> bool
    ensures { result ≡ fields_wrong id size period jitter deadline }
{
    (2047 < id)
        | (8 < size)
        | is_outside(period, 1, LONGEST_PERIOD)
        | (period <= jitter)
        | is_outside(deadline, 1, period)
}

// Whether an earlier event has event j's identifier.
fn is_repeated(events: &[u32], j: usize) -> bool
    requires { Gives events.now j }
    ensures { result ≡ repeated events.now j }
{
    let id = word(events, j, IDENTIFIER);
    (0..j).any(|i| word(events, i, IDENTIFIER) == id)
}

// Whether event j breaks a rule.
fn event_wrong(events: &[u32], j: usize) -> bool
    requires { Gives events.now j }
    ensures { result ≡ event_wrong events.now j }
{
    let id = word(events, j, IDENTIFIER);
    let size = word(events, j, DATA);
    let period = word(events, j, PERIOD);
    let jitter = word(events, j, JITTER);
    let deadline = word(events, j, DEADLINE);
    fields_wrong(id, size, period, jitter, deadline) | is_repeated(events, j)
}

// The first event that breaks a rule.
fn first_fault(events: &[u32]) -> Result<(), Refusal>
    requires { Whole events.now }
    ensures { result ≡ first_fault (count events.now) (event_fault events.now) }
{
    for j in 0..count_of(events) {
        refuse_if(event_wrong(events, j), Refusal::Event(j as u32))?;
    }
    Ok(())
}

// Whether so many words aren't whole events, or are too many.
fn words_wrong(n: usize) -> bool
    ensures { result ≡ words_wrong n }
{
    (n % EVENT_WORDS != 0) | (MOST_WORDS < n)
}

// What is wrong with the events: how many words they are, or the first that breaks a rule.
pub(crate) fn events_fault(events: &[u32]) -> Result<(), Refusal>
    ensures { result ≡ events_fault events.now }
{
    refuse_if(words_wrong(events.len()), Refusal::EventWords)?;
    first_fault(events)
}

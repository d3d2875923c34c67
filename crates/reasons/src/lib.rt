// The desk's sentences: why a call refuses. Each says where it stands in what a person wrote, what is there, and what would be right, so that it can be mended from the answer alone.
#![tactic(auto)]

mod alone;
mod events;
mod placements;

use basics::is_outside;
use broken::fields;
use events::Events;
use origin::Subject;
use rules::{Paper, Refusal};
use std::rt::Env;
use wordlist::lines;

// What a call was given: a problem file, and the words of a proposal or of placements to keep, where it takes them. What a person wrote of both is lent too, and is empty
// for a problem file and for a list that nobody wrote.
#[derive(Clone, Copy)]
pub struct Call<'a> {
    pub file: &'a [u8],
    pub text: &'a [u8],
    pub words: &'a [u32],
    pub plan: &'a [u8],
    pub subject: Subject,
}

impl<'a> Call<'a> {
    // A call that takes a problem file alone.
    pub fn on(file: &'a [u8]) -> Call<'a> {
        Call {
            file,
            text: &[],
            words: &[],
            plan: &[],
            subject: Subject::Given,
        }
    }
}

// ---- parts of a line

// How a line begins: with the number.
fn begin(q: Refusal) {
    paper::say_count(b"refused ", Paper::from(q).number);
}

// ---- lines

// Why a call refused what it was given.
pub fn of_file(rt: &impl Env, q: Refusal, call: Call) {
    begin(q);
    match q {
        Refusal::ProposalLength
        | Refusal::Range(_)
        | Refusal::Width(_)
        | Refusal::Late(_)
        | Refusal::Meeting(_, _)
        | Refusal::NoPlan
        | Refusal::TooMany => placements::of_file(rt, q, call),
        _ => {
            origin::named(rt, b", ", call.subject.problem_at());
            broken::of_file(q, call.file);
        }
    }
    paper::say(b"\n");
}

// Why the writer refused a problem's words, which a text has.
pub fn of_words(rt: &impl Env, q: Refusal, words: &[u32], text: &[u8], subject: Subject) {
    begin(q);
    origin::named(rt, b", ", subject.problem_at());
    broken::of_words(q, words, text);
    if lines::mark_of(text).is_some() {
        paper::say(b"; it has a line # problem, as a plan has: is it one?");
    }
    paper::say(b"\n");
}

// Why events were refused, which a text has.
pub fn of_events(rt: &impl Env, q: Refusal, events: &[u32], text: &[u8]) {
    begin(q);
    origin::named(rt, b", ", origin::EVENTS);
    let events = Events {
        words: events,
        text,
    };
    match q {
        Refusal::EventWords => events.say_count(),
        Refusal::Event(j) => events.say_broken(j),
        Refusal::Endless(j) => events.say_endless(j),
        _ => broken::explain(q),
    }
    paper::say(b"\n");
}

// What is wrong with a log of so many words, or with the span that it is held for.
fn log_rule(rt: &impl Env, log_words: usize, span: u32) {
    if is_outside(span, 1, bus_log::MOST_SPAN) {
        paper::say(b", ");
        fields::range(b"SPAN", span, 1, bus_log::MOST_SPAN);
        paper::say(b" matrix cycles");
    } else {
        origin::named(rt, b", ", origin::LOG);
        paper::say_things(b": ", log_words, b" word");
        paper::say(b"; a log has two for each send, its time and its identifier");
    }
}

// Why a log of so many words was refused, or the list of what is due, which has none, for a span of matrix cycles.
pub fn of_log(rt: &impl Env, q: Refusal, call: Call, log_words: usize, span: u32) {
    match q {
        Refusal::Log => {
            begin(q);
            log_rule(rt, log_words, span);
            paper::say(b"\n");
        }
        _ => of_file(rt, q, call),
    }
}

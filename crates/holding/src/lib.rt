// A log of the bus held against the plan, and the log that is due.
#![tactic(auto)]

ghost use Rattle.std.specs.Prelude.{◌<◌, IfSome};
ghost use Rattle.rules.specs.Problem.{WellFormed, most_messages};
ghost use Rattle.holding.specs.Sources.{OfPlan};

use basics::FILL;
use bus_log::{Difference, PAIR};
use files::input::Told;
use files::{input, pieces};
use reasons::Call;
use rules::words;
use std::rt::{Env, Files};

// ---- a send

// What has an identifier: the reference message, or the message of this number.
#[derive(Clone, Copy)]
enum Source {
    Reference,
    Message(usize),
}

// What has this identifier, if the plan has it.
fn source_of(p: &[u32], identifier: usize) -> Option<Source>
    requires { WellFormed p.now }
    ensures { IfSome result OfPlan }
{
    if identifier == words::ref_id_of(p) {
        return Some(Source::Reference);
    }
    let j = carried::message_of(p, identifier)?;
    Some(Source::Message(j))
}

// Names what has an identifier.
fn name(source: Option<Source>) {
    match source {
        Some(Source::Reference) => paper::text(b"reference message"),
        Some(Source::Message(j)) => paper::text_count(b"message ", j),
        None => paper::text(b"no message of the plan"),
    }
}

// The column of a message that has one.
fn show_column(w: &[u32], source: Option<Source>)
    requires { IfSome source OfPlan }
{
    if let Some(Source::Message(j)) = source {
        if words::gives(w, j) {
            paper::text_count(b", column ", words::column_of(w, j));
        }
    }
}

// What the plan has at a time with this identifier: a message, its matrix cycle, row and column.
fn describe(p: &[u32], w: &[u32], time: usize, identifier: usize)
    requires { WellFormed p.now }
{
    let source = source_of(p, identifier);
    let row = time / words::cycle_of(p);
    name(source);
    paper::text_count(b", matrix cycle ", row / words::rows_of(p));
    paper::text_count(b", row ", row % words::rows_of(p));
    show_column(w, source);
}

// A time and an identifier.
fn show_pair(time: usize, identifier: usize) {
    paper::text_count(b"time ", time);
    paper::text_hex(b", identifier ", identifier);
    paper::text(b": ");
}

// ---- answers

// Says that the sends of so many matrix cycles are those that are due.
fn show_clean(sends: usize, span: u32) {
    paper::say(b"done\n");
    paper::text(b"clean: ");
    paper::things(sends, b" send");
    paper::text(b" in ");
    paper::things(span as usize, b" matrix cycle");
    paper::end_line();
}

// What a log has at a pair, or that it ends there.
fn show_logged(p: &[u32], log: &[u32], pair: usize)
    requires { WellFormed p.now × (pair < 4294967296) }
{
    paper::text(b"in the log: ");
    let Some([time, identifier, ..]) = log.get(PAIR * pair..) else {
        paper::line(b"nothing, the log ends there");
        return;
    };
    let identifier = *identifier as usize;
    show_pair(*time as usize, identifier);
    name(source_of(p, identifier));
    paper::end_line();
}

// The first pair that differs: what the log has there, and what is due.
fn show_difference(p: &[u32], w: &[u32], log: &[u32], d: Difference)
    requires { WellFormed p.now }
{
    paper::say(b"differs\n");
    paper::text_count(b"differs at pair ", d.index);
    paper::line(b", counted from 0");
    show_logged(p, log, d.index as usize);
    paper::text(b"due there:  ");
    if d.identifier == bus_log::NOTHING {
        paper::line(b"nothing, the span ends there");
        return;
    }
    let time = d.time as usize;
    let identifier = d.identifier as usize;
    show_pair(time, identifier);
    describe(p, w, time, identifier);
    paper::end_line();
}

// A line for each pair that is due, with what it is as a comment.
fn show_list(p: &[u32], w: &[u32], list: &[u32])
    requires { WellFormed p.now }
{
    paper::say(b"done\n");
    for pair in list.chunks_exact(PAIR) {
        let time = pair[0] as usize;
        let identifier = pair[1] as usize;
        paper::count(time);
        paper::text_hex(b" ", identifier);
        paper::text(b"  # ");
        describe(p, w, time, identifier);
        paper::end_line();
    }
}

// Holds a log against a proposal, and says what came of it; the problem is read once more where the log differs.
fn hold(rt: &impl Env, call: Call, log: &[u32], span: u32) -> Result<(), Told> {
    match bus_log::hold(call.file, call.words, log, span) {
        Err(q) => {
            reasons::of_log(rt, q, call, log.len(), span);
            return Err(Told);
        }
        Ok(None) => show_clean(log.len() / PAIR, span),
        Ok(Some(d)) => {
            let mut words = [FILL; words::MOST_WORDS];
            let p = input::decoded(rt, call.file, &mut words)?;
            show_difference(p, call.words, log, d);
        }
    }
    Ok(())
}

// Shows what a proposal has due in so many matrix cycles.
pub fn show_due(rt: &impl Env, call: Call, span: u32) -> Result<(), Told> {
    let mut sends = [FILL; bus_log::MOST_WORDS];
    match bus_log::due(call.file, call.words, span, &mut sends) {
        Err(q) => {
            reasons::of_log(rt, q, call, 0, span);
            Err(Told)
        }
        Ok(count) => {
            let mut words = [FILL; words::MOST_WORDS];
            let p = input::decoded(rt, call.file, &mut words)?;
            show_list(p, call.words, &sends[..input::within(count, &sends)]);
            Ok(())
        }
    }
}

// Holds the log that an argument names.
pub fn hold_file<R: Env + Files + Input>(rt: &R, call: Call, span: u32) -> Result<(), Told> {
    let mut buffer = [FILL; pieces::LOG_WORDS];
    let log = pieces::words(rt, origin::LOG, &mut buffer)?;
    hold(rt, call, log, span)
}

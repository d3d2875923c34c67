// The commands: what each is given and what it answers. The first line on standard error tells the script what came of it: done, missed, differs, refused and why,
// or that the program is used otherwise.
ghost use Rattle.rules.specs.Problem.{WellFormed};

use super::given::Room;
use super::{answers, example, extending, given};
use basics::FILL;
use files::input::{Told, Use};
use files::{input, output};
use origin::Subject;
use problem::Layout;
use problem::layout::version_of;
use problem::recast::column_words;
use reasons::Call;
use rules::{Refusal, words};
use std::rt::{Env, Files};
use views::matrix::Form;
use views::{matrix, tables};

// Each command has a frame of its own, so that none takes the room of the others: a log alone has 1.7 MB.

// ---- a problem

// Shows the header and the messages of a problem file that has these words.
fn show_header(file: &[u8], p: &[u32])
    requires { WellFormed p.now }
{
    tables::header(p, version_of(input::layout(file)));
    tables::messages(p);
}

// A problem: its header, its messages and its windows.
#[inline(never)]
fn show_problem<R: Env + Files + Input>(rt: &R) -> Result<(), Told> {
    let mut room = Room::new();
    let call = room.problem(rt)?;
    let mut words = [FILL; words::MOST_WORDS];
    let p = answers::shown(rt, call.file, &mut words)?;
    show_header(call.file, p);
    matrix::show(p, &[], &[], Form::Windows);
    Ok(())
}

// A problem as a word list.
#[inline(never)]
fn show_words<R: Env + Files + Input>(rt: &R) -> Result<(), Told> {
    let mut room = Room::new();
    let call = room.problem(rt)?;
    let mut words = [FILL; words::MOST_WORDS];
    let p = answers::shown(rt, call.file, &mut words)?;
    tables::problem_words(p, column_words(input::layout(call.file)));
    Ok(())
}

// The file of a problem's words.
#[inline(never)]
fn show_file<R: Env + Files + Input>(rt: &R) -> Result<(), Told> {
    let mut text = io::large_buffer();
    let mut words = [0u32; input::LIST_WORDS];
    let list = input::words(rt, 2, &mut text, &mut words, Use::List)?;
    let mut bytes = [0u8; problem::MOST_BYTES];
    let file = input::written(rt, list.words, list.text, &mut bytes, Subject::Given)?;
    paper::say(b"done\n");
    paper::text(file);
    Ok(())
}

// A file moved to a version: the layout is handed on, and not the call, since its version is printed too.
fn moved(file: &[u8], layout: Layout, out: &mut [u8]) -> Result<usize, Refusal> {
    match layout {
        Layout::One => versions::back(file, out),
        Layout::Two => versions::up(file, out),
    }
}

// A problem moved to a version, which is kept under the name that an argument gives.
#[inline(never)]
fn move_to<R: Env + Files + Input>(rt: &R, layout: Layout) -> Result<(), Told> {
    let mut room = Room::new();
    let call = room.problem(rt)?;
    if !call.text.is_empty() && output::is_same_name(rt, 2, 3) {
        paper::say(
            b"ttplan: OUT is the word list that is read; a problem file needs a name of its own\n",
        );
        return Err(Told);
    }
    let mut out = [0u8; problem::MOST_BYTES];
    let got = moved(call.file, layout, &mut out);
    let n = answers::answered(rt, call, got)?;
    let bytes = &out[..input::within(n, &out)];
    output::keep(rt, 3, bytes)?;
    paper::say(b"done\n");
    paper::text_count(b"version ", version_of(layout));
    paper::text_count(b", ", bytes.len());
    paper::line(b" bytes");
    Ok(())
}

// ---- plans

// The least acceptable proposal.
#[inline(never)]
fn plan<R: Env + Files + Input>(rt: &R) -> Result<(), Told> {
    let mut room = Room::new();
    let call = room.problem(rt)?;
    let mut proposal = [0u32; planner::PLAN_WORDS];
    let got = planner::plan(call.file, &mut proposal);
    answers::show_planned(rt, call, got, &proposal)?;
    Ok(())
}

// The least acceptable proposal that keeps what is to be kept.
#[inline(never)]
fn replan<R: Env + Files + Input>(rt: &R) -> Result<(), Told> {
    let mut room = Room::new();
    let call = room.kept(rt)?;
    let mut proposal = [0u32; words::MOST_PROPOSAL];
    let got = planner::replan(call.file, call.words, &mut proposal);
    answers::show_planned(rt, call, got, &proposal)?;
    Ok(())
}

// ---- a proposal

// Whether a proposal is accepted, and where the bus time then goes.
#[inline(never)]
fn check<R: Env + Files + Input>(rt: &R) -> Result<(), Told> {
    let mut room = Room::new();
    let call = room.proposal(rt, Subject::Given)?;
    let t = answers::judged(rt, call)?;
    paper::say(b"done\n");
    paper::line(b"accepted");
    tables::bus_time(t);
    Ok(())
}

// A problem with the matrix of a proposal that is accepted.
#[inline(never)]
fn show<R: Env + Files + Input>(rt: &R) -> Result<(), Told> {
    let mut room = Room::new();
    let call = room.proposal(rt, Subject::Given)?;
    let t = answers::judged(rt, call)?;
    let mut words = [FILL; words::MOST_WORDS];
    let p = answers::shown(rt, call.file, &mut words)?;
    show_header(call.file, p);
    answers::show_matrix(p, call.words, t);
    Ok(())
}

// The trigger list of one node, or those of all.
#[inline(never)]
fn lists<R: Env + Files + Input>(rt: &R, node: Option<usize>) -> Result<(), Told> {
    let mut room = Room::new();
    let call = room.proposal(rt, Subject::Given)?;
    answers::show_lists(rt, call, node)
}

// A log held against a proposal.
#[inline(never)]
fn hold<R: Env + Files + Input>(rt: &R) -> Result<(), Told> {
    let span = given::span(rt, 5)?;
    let mut room = Room::new();
    let call = room.proposal(rt, Subject::Given)?;
    holding::hold_file(rt, call, span)
}

// The log that a proposal has due.
#[inline(never)]
fn due<R: Env + Files + Input>(rt: &R) -> Result<(), Told> {
    let span = given::span(rt, 4)?;
    let mut room = Room::new();
    let call = room.proposal(rt, Subject::Given)?;
    holding::show_due(rt, call, span)
}

// ---- events

// The response times of events. The script is told whether all deadlines are met.
#[inline(never)]
fn times<R: Env + Files + Input>(rt: &R) -> Result<(), Told> {
    let mut text = io::large_buffer();
    let mut words = [0u32; input::LIST_WORDS];
    let events = input::words(rt, origin::EVENTS, &mut text, &mut words, Use::List)?;
    let mut times = [0u32; response::MOST_EVENTS];
    match response::responses(events.words, &mut times) {
        Err(q) => {
            reasons::of_events(rt, q, events.words, events.text);
            Err(Told)
        }
        Ok(misses) => {
            paper::say(if misses == 0 { b"done\n" } else { b"missed\n" });
            tables::events(events.words);
            paper::text_count(b"deadlines missed: ", misses);
            paper::end_line();
            Ok(())
        }
    }
}

// ---- the program

// Does what a command asks for, the first of so many arguments behind the program's name; with none it shows the example.
fn obey<R: Env + Files + Input>(rt: &R, command: &[u8], arguments: usize) -> Result<(), Told> {
    match (command, arguments) {
        (_, 0 | 1) => example::show(rt),
        (b"show", 3) => show_problem(rt),
        (b"show", 4) => show(rt),
        (b"check", 4) => check(rt),
        (b"plan", 3) => plan(rt),
        (b"replan", 4) => replan(rt),
        (b"extend", 5) => extending::extend(rt),
        (b"lists", 4) => lists(rt, None),
        (b"lists", 5) => {
            let node = given::node(rt, 4)?;
            lists(rt, Some(node))
        }
        (b"hold", 6) => hold(rt),
        (b"due", 5) => due(rt),
        (b"times", 3) => times(rt),
        (b"words", 3) => show_words(rt),
        (b"file", 3) => show_file(rt),
        (b"up", 4) => move_to(rt, Layout::Two),
        (b"back", 4) => move_to(rt, Layout::One),
        _ => {
            paper::say(b"use\n");
            Err(Told)
        }
    }
}

// Does what the arguments ask for. What came of it has been said, and the script makes the exit status of that.
pub fn run<R: Env + Files + Input>(rt: &R) {
    let mut command = io::buffer();
    let n = host::arg(rt, 1, &mut command);
    let _ = obey(rt, &command[..n], host::arg_count(rt));
}

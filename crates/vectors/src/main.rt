// Runs the prepared cases of the files that its arguments name against the calls, and says how many agree.
#![tactic(auto)]

mod calls;
mod compare;
mod record;

ghost use Rattle.std.specs.Prelude.{◌≤◌};

use calls::{Call, ToBytes, ToWords};
use compare::{Difference, compare};
use record::{
    Broken, Buffers, Case, INPUT_WORDS, LIST_WORDS, LOG_BYTES, LOG_WORDS, MOST_ROOM, are_words,
    gather,
};
use std::io::Read;
use std::rt::{Env, Files};

// "TSV2", with which a file of cases starts, read as a number.
const MARK: u32 = 0x54535632;

// How many disagreements of a file are shown.
const SHOWN: u32 = 20;

// Starts a line about a case.
fn start_line(name: &[u8], at: u32) {
    paper::text(name);
    paper::text_count(b": case ", at);
}

// Says why the cases end here.
fn stop(name: &[u8], at: u32, why: Broken) {
    start_line(name, at);
    paper::text(why.text());
}

// Whether the words are whole that a call takes and writes.
fn has_whole_words(call: Call, case: &Case) -> bool {
    let is_input = !call.takes_words() | are_words(case.input);
    let is_output = call.writes_bytes() | are_words(case.output);
    is_input & is_output
}

// Runs a call that writes bytes, in buffers of its own: input A also as words, and what is lent full of the pattern.
fn bytes_case(call: ToBytes, case: &Case, room: usize) -> Result<(), Difference>
    requires { room ≤ 8192 }
{
    let mut words = [0u32; INPUT_WORDS];
    let n = gather(case.input, &mut words);
    let mut lent = [calls::BYTE_PATTERN; MOST_ROOM];
    let got = calls::run_bytes(call, case.input, &words[..n], &mut lent[..room]);
    let expected = case.expected(case.output.len());
    compare(
        &got,
        &expected,
        &lent[..room],
        case.output,
        calls::BYTE_PATTERN,
    )
}

// Runs a call that writes words, or nothing, in the same way.
fn words_case(call: ToWords, case: &Case, room: usize) -> Result<(), Difference>
    requires { room ≤ 8192 }
{
    let mut words = [0u32; INPUT_WORDS];
    let n = gather(case.input, &mut words);
    let mut proposal = [0u32; LIST_WORDS];
    let m = gather(case.proposal, &mut proposal);
    let mut output = [0u32; MOST_ROOM];
    let k = gather(case.output, &mut output);
    let mut lent = [calls::WORD_PATTERN; MOST_ROOM];
    let got = calls::run_words(
        call,
        case.input,
        &words[..n],
        &proposal[..m],
        &mut lent[..room],
    );
    let expected = case.expected(case.output.len() / record::WORD);
    compare(
        &got,
        &expected,
        &lent[..room],
        &output[..k],
        calls::WORD_PATTERN,
    )
}

// Holds the list that is due, and what is behind it in a longer buffer, to a log that is clean.
fn try_due(file: &[u8], proposal: &[u32], log: &[u32], span: u32) -> Result<(), Difference> {
    let mut due = [calls::WORD_PATTERN; LOG_WORDS];
    let got = calls::due(file, proposal, span, &mut due);
    compare(
        &got,
        &calls::done(log.len()),
        &due,
        log,
        calls::WORD_PATTERN,
    )
}

// Holds a log against the plan and the answer to what is expected. A log that is clean is the list that is due.
fn try_log(case: &Case, proposal: &[u32], log: &[u32]) -> Result<(), Difference> {
    let got = calls::hold(case.input, proposal, log, case.span());
    let expected = case.expected(case.output.len());
    compare(&got, &expected, &[], &[], calls::WORD_PATTERN)?;
    if calls::is_clean(&got) {
        try_due(case.input, proposal, log, case.span())?;
    }
    Ok(())
}

// Runs a case with a log in buffers of its own.
fn log_case(case: &Case) -> Result<(), Difference> {
    let mut proposal = [0u32; LIST_WORDS];
    let n = gather(case.proposal, &mut proposal);
    let mut log = [basics::FILL; LOG_WORDS];
    let m = gather(case.log, &mut log);
    try_log(case, &proposal[..n], &log[..m])
}

// Runs a case that has been read, unless there is no such call or its lengths cannot be.
fn try_case(case: &Case, room: usize) -> Result<(), Difference>
    requires { room ≤ 8192 }
{
    let call = Call::try_from(case.call).map_err(|_| Difference::NoCall)?;
    if !has_whole_words(call, case) {
        return Err(Difference::NoWords);
    }
    match call {
        Call::Bytes(call) => bytes_case(call, case, room),
        Call::Words(call) => words_case(call, case, room),
        Call::Hold => log_case(case),
    }
}

// Shows the first difference of a case.
fn show(name: &[u8], at: u32, call: u8, d: Difference) {
    start_line(name, at);
    paper::text(b", ");
    calls::tell(call);
    paper::text(b": ");
    compare::tell(d);
}

// Reads the next case and runs it; answers whether it agrees, or why it could not be read.
fn next_case<F: Read>(
    file: &mut F,
    name: &[u8],
    at: u32,
    is_shown: bool,
    log: &mut [u8],
) -> Result<bool, Broken> {
    let mut buffers = Buffers::new();
    let case = record::read_record(file, &mut buffers, log)?;
    let room = case.room();
    if MOST_ROOM < room {
        return Err(Broken::TooLong);
    }
    let tried = try_case(&case, room);
    if let Err(d) = tried
        && is_shown
    {
        show(name, at, case.call, d);
    }
    Ok(tried.is_ok())
}

// The number of cases of a file that starts as one.
fn start_file<F: Read>(file: &mut F) -> Option<u32> {
    if record::read_number(file).ok()? != MARK {
        return None;
    }
    record::read_number(file).ok()
}

// The last line of a file, and whether there is more in it than its cases.
fn end_file<F: Read>(file: &mut F, name: &[u8], cases: u32, agree: u32) {
    let mut more = [0u8; 1];
    paper::text(name);
    if host::read_full(file, &mut more) != 0 {
        paper::text(b": there is more behind the last case\n");
        paper::text(name);
    }
    paper::text_count(b": ", cases);
    paper::text_count(b" cases, ", agree);
    paper::text(b" agree\n");
}

// Runs the cases of a file, up to the last or to one that cannot be read. The first SHOWN that differ are shown.
fn run_cases<F: Read>(file: &mut F, name: &[u8], log: &mut [u8]) {
    let Some(count) = start_file(file) else {
        paper::text(name);
        paper::text(b": this is no file of cases\n");
        return;
    };
    let mut agree: u32 = 0;
    for at in 0..count {
        match next_case(file, name, at, at - agree < SHOWN, log) {
            Ok(agrees) => agree += u32::from(agrees),
            Err(why) => {
                stop(name, at, why);
                return;
            }
        }
    }
    end_file(file, name, count, agree);
}

// Runs the cases of a file, with one buffer for all their logs.
fn run_file<F: Read>(file: &mut F, name: &[u8]) {
    let mut log = [0u8; LOG_BYTES];
    run_cases(file, name, &mut log);
}

// Runs the file that an argument names.
fn run_argument(rt: &(impl Env + Files), i: usize) {
    let mut path = io::buffer();
    match host::argument(rt, i, &mut path) {
        Ok(length) => run_named(rt, &path[..length]),
        Err(e) => host::fail(b"a file's name", &e),
    }
}

// Runs the file of this name.
fn run_named(rt: &impl Files, name: &[u8]) {
    match host::open_read(rt, name) {
        Ok(mut file) => run_file(&mut file, name),
        Err(e) => host::fail(name, &e),
    }
}

// Runs the files one after the other.
fn main(rt: HostRuntime) {
    let count = host::arg_count(&rt);
    if count < 2 {
        paper::text(b"vectors FILE..: runs the prepared cases of each file\n");
    }
    for i in 1..count {
        run_argument(&rt, i);
    }
}

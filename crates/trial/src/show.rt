// A case is shown on a line: what is tried, what came out, and whether that is what the document says.
ghost use Rattle.std.specs.Prelude.{◌≤◌};
ghost use Rattle.io.specs.Counts.{IsPrefixLen};
ghost use Rattle.response.specs.Events.{most_events};

use crate::build;
use response::{EVENT_WORDS, MOST_EVENTS};
use rules::words::{MOST_PROPOSAL, MOST_WORDS};
use rules::{Paper, Refusal};

// The most words that a case wants as text.
const WANTED_WORDS: usize = 256;

// The words that are lent for a list that is due, which is more than a case wants.
pub const LENT_WORDS: usize = 1208;

// The words that are lent for response times: one for each event of the most.
pub const LENT_TIMES: usize = MOST_EVENTS;

// What stands in each byte and each word that is lent, before.
pub const BEFORE: u8 = 7;

// What the document wants of a call: what comes of it, or a refusal by its number, its place and its second place.
pub type Wanted<T> = Result<T, [u32; 3]>;

// The front of a buffer, or all of it where there is less.
pub fn front(words: &[u32], n: usize) -> &[u32] {
    words.get(..n).unwrap_or(words)
}

// How much of a buffer a call says that it wrote; none where it was refused.
pub fn written(got: Result<usize, Refusal>, buffer: &[u8]) -> usize
    ensures { IsPrefixLen result buffer.now }
{
    match got {
        Ok(n) if n <= buffer.len() => n,
        _ => 0,
    }
}

// The file of a problem in the front of a buffer, none where it is not well-formed; answers its length.
pub fn file_of(problem: &[u32], file: &mut [u8]) -> usize
    ensures { IsPrefixLen result file.new }
{
    written(writer::write(problem, file), file)
}

// Starts a case's line.
pub fn start(title: &[u8], call: &[u8]) {
    paper::text(b"  ");
    paper::text(title);
    paper::text(call);
}

// Ends a case's line.
pub fn end(is_right: bool) {
    paper::text(if is_right { b": ok\n" } else { b": DIFFERS\n" });
}

// Shows a refusal where the document wants this number, place and second place, or none.
fn end_refused(q: Refusal, wanted: Option<[u32; 3]>) {
    let told = Paper::from(q);
    paper::text_count(b"refused ", told.number);
    paper::text(b", places ");
    paper::words(&[told.place, told.second]);
    end(wanted == Some([told.number, told.place, told.second]));
}

// Whether a lent buffer is as it was from a place on.
pub fn is_kept<T: Copy + Into<u32>>(lent: &[T], from: usize) -> bool {
    lent.iter()
        .skip(from)
        .all(|x| (*x).into() == u32::from(BEFORE))
}

// Shows a refusal, and if it wrote to the buffer that was lent.
pub fn end_kept<T: Copy + Into<u32>>(q: Refusal, lent: &[T], wanted: Option<[u32; 3]>) {
    if !is_kept(lent, 0) {
        paper::text(b"written to, ");
    }
    end_refused(q, wanted);
}

// Whether words start with those of a text.
fn starts_with(words: &[u32], text: &[u8]) -> bool {
    let mut w = [0u32; WANTED_WORDS];
    let n = build::words(text, &mut w);
    words.starts_with(&w[..n])
}

// Whether words are those of a text.
fn is_text(words: &[u32], text: &[u8]) -> bool {
    let mut w = [0u32; WANTED_WORDS];
    let n = build::words(text, &mut w);
    words == &w[..n]
}

// Shows words that came out where the document wants the words of a text, or a refusal.
fn end_words(words: &[u32], wanted: Wanted<&[u8]>) {
    if words.is_empty() {
        paper::text(b"no words");
    }
    paper::words(words);
    end(wanted.is_ok_and(|text| is_text(words, text)));
}

// A proposal judged: the losses that the document wants, or the refusal.
pub fn judge(title: &[u8], problem: &[u32], proposal: &[u8], wanted: Wanted<&[u8]>) {
    let mut file = [0u8; problem::MOST_BYTES];
    let n = file_of(problem, &mut file);
    let mut w = [0u32; MOST_PROPOSAL];
    let m = build::words(proposal, &mut w);
    start(title, b", judged: ");
    match judge::judge(&file[..n], &w[..m]) {
        Ok(losses) => {
            paper::text(b"accepted, losses ");
            end_words(&<[u32; 5]>::from(losses), wanted);
        }
        Err(q) => end_refused(q, wanted.err()),
    }
}

// An acceptable proposal: it is accepted, and its losses are those that the document wants.
pub fn accepted(title: &[u8], problem: &[u32], proposal: &[u8], losses: &[u8]) {
    judge(title, problem, proposal, Ok(losses));
}

// A proposal that the document wants refused, with this number and these places.
pub fn refused(title: &[u8], problem: &[u32], proposal: &[u8], wanted: [u32; 3]) {
    judge(title, problem, proposal, Err(wanted));
}

// Shows what came of planning, the proposal in the front of its buffer, where the document wants these words or this refusal.
fn end_planned(got: Result<usize, Refusal>, proposal: &[u32], wanted: Wanted<&[u8]>) {
    match got {
        Ok(n) => end_words(front(proposal, n), wanted),
        Err(q) => end_refused(q, wanted.err()),
    }
}

// A problem planned: the proposal that the document wants, or the refusal.
pub fn plan(title: &[u8], problem: &[u32], wanted: Wanted<&[u8]>) {
    let mut file = [0u8; problem::MOST_BYTES];
    let n = file_of(problem, &mut file);
    let mut proposal = [0u32; planner::PLAN_WORDS];
    start(title, b", planned: ");
    let got = planner::plan(&file[..n], &mut proposal);
    end_planned(got, &proposal, wanted);
}

// The same of a problem that stands as text.
pub fn plan_text(
    title: &[u8],
    header: &[u8],
    columns: &[u8],
    messages: &[u8],
    wanted: Wanted<&[u8]>,
) {
    let mut p = [0u32; MOST_WORDS];
    let n = build::problem(header, columns, messages, &mut p);
    plan(title, &p[..n], wanted);
}

// A problem planned again with placements to keep: the proposal that the document wants, or the refusal.
pub fn replan(title: &[u8], problem: &[u32], kept: &[u32], wanted: Wanted<&[u8]>) {
    let mut file = [0u8; problem::MOST_BYTES];
    let n = file_of(problem, &mut file);
    let mut proposal = [0u32; MOST_PROPOSAL];
    start(title, b", planned again: ");
    let got = planner::replan(&file[..n], kept, &mut proposal);
    end_planned(got, &proposal, wanted);
}

// Shows trigger lists by how many words they are and their 16 counts, where the document wants so many words that start with those of a text.
fn end_lists(words: &[u32], count: usize, wanted: &[u8]) {
    paper::count(words.len());
    paper::text(b" words, counts ");
    paper::words(front(words, triggers::NODES));
    end((words.len() == count) & starts_with(words, wanted));
}

// The trigger lists of an acceptable proposal.
pub fn lists(title: &[u8], problem: &[u32], proposal: &[u8], count: usize, wanted: &[u8]) {
    let mut file = [0u8; problem::MOST_BYTES];
    let n = file_of(problem, &mut file);
    let mut w = [0u32; MOST_PROPOSAL];
    let m = build::words(proposal, &mut w);
    let mut words = [0u32; triggers::MOST_WORDS];
    start(title, b", trigger lists: ");
    match triggers::lists(&file[..n], &w[..m], &mut words) {
        Ok(k) => end_lists(front(&words, k), count, wanted),
        Err(q) => end_refused(q, None),
    }
}

// Response times: the times that the document wants, and how many are missed.
pub fn responses(title: &[u8], events: &[u8], wanted: &[u8], misses: u32) {
    let mut e = [0u32; MOST_EVENTS * EVENT_WORDS];
    let n = build::words(events, &mut e);
    let mut times = [0u32; LENT_TIMES];
    start(title, b", response times: ");
    match response::responses(&e[..n], &mut times) {
        Ok(missed) => {
            let came = front(&times, n / EVENT_WORDS);
            paper::words(came);
            paper::text_count(b", missed ", missed);
            end(is_text(came, wanted) & (missed == misses));
        }
        Err(q) => end_refused(q, None),
    }
}

// Response times refused, with so much room for them: the number and the places that the document wants.
pub fn responses_refused(title: &[u8], events: &[u8], room: usize, wanted: [u32; 3])
    requires { room ≤ most_events }
{
    let mut e = [0u32; MOST_EVENTS * EVENT_WORDS];
    let n = build::words(events, &mut e);
    let mut times = [u32::from(BEFORE); LENT_TIMES];
    start(title, b", response times: ");
    match response::responses(&e[..n], &mut times[..room]) {
        Ok(_) => {
            paper::text(b"done");
            end(false);
        }
        Err(q) => end_kept(q, &times, Some(wanted)),
    }
}

// A problem written as a file and read back: the same words come.
pub fn round_trip(title: &[u8], problem: &[u32]) {
    let mut file = [0u8; problem::MOST_BYTES];
    let n = file_of(problem, &mut file);
    let mut words = [0u32; MOST_WORDS];
    start(title, b", written and read back: ");
    match reader::read(&file[..n], &mut words) {
        Ok(m) => {
            paper::count(n);
            paper::text_count(b" bytes, ", m);
            paper::text(b" words");
            end(front(&words, m) == problem);
        }
        Err(q) => end_refused(q, None),
    }
}

// Bytes of a file changed: pairs of an offset and a byte.
pub fn damage(pairs: &[u32], file: &mut [u8]) {
    for pair in pairs.chunks_exact(2) {
        build::set(file, pair[0] as usize, (pair[1] % 256) as u8);
    }
}

// The file of a problem read with bytes changed: the refusal that the document wants. The pairs of offset and byte stand as text.
pub fn damaged(title: &[u8], problem: &[u32], pairs: &[u8], wanted: [u32; 3]) {
    let mut file = [0u8; problem::MOST_BYTES];
    let n = file_of(problem, &mut file);
    let mut changed = [0u32; WANTED_WORDS];
    let m = build::words(pairs, &mut changed);
    damage(&changed[..m], &mut file[..n]);
    let mut words = [0u32; MOST_WORDS];
    start(title, b", read: ");
    match reader::read(&file[..n], &mut words) {
        Ok(_) => {
            paper::text(b"a problem");
            end(false);
        }
        Err(q) => end_refused(q, Some(wanted)),
    }
}

// A problem's words written: a file, or the refusal that the document wants.
pub fn write(title: &[u8], problem: &[u32], wanted: Wanted<()>) {
    let mut file = [0u8; problem::MOST_BYTES];
    start(title, b", written: ");
    match writer::write(problem, &mut file) {
        Ok(_) => {
            paper::text(b"a file");
            end(wanted.is_ok());
        }
        Err(q) => end_refused(q, wanted.err()),
    }
}

// A log held against an acceptable proposal: none where it is clean, the index and the pair that was due where it differs, or the refusal.
pub fn hold(
    title: &[u8],
    problem: &[u32],
    proposal: &[u8],
    log: &[u32],
    span: u32,
    wanted: Wanted<Option<&[u8]>>,
) {
    let mut file = [0u8; problem::MOST_BYTES];
    let n = file_of(problem, &mut file);
    let mut w = [0u32; MOST_PROPOSAL];
    let m = build::words(proposal, &mut w);
    start(title, b", held: ");
    match bus_log::hold(&file[..n], &w[..m], log, span) {
        Ok(None) => {
            paper::text(b"clean");
            end(wanted.is_ok_and(|difference| difference.is_none()));
        }
        Ok(Some(d)) => {
            let words = [d.index, d.time, d.identifier];
            paper::text(b"differs, ");
            paper::words(&words);
            end(wanted.is_ok_and(|difference| {
                difference.is_some_and(|text| is_text(&words, text))
            }));
        }
        Err(q) => end_refused(q, wanted.err()),
    }
}

// Whether a log is clean.
fn is_clean(file: &[u8], proposal: &[u32], log: &[u32], span: u32) -> bool {
    bus_log::hold(file, proposal, log, span).is_ok_and(|difference| difference.is_none())
}

// The list that is due of an acceptable proposal, in a buffer of so much room: the words that are wanted, and as a log they are clean; or the refusal.
pub fn due(
    title: &[u8],
    problem: &[u32],
    proposal: &[u8],
    span: u32,
    room: usize,
    wanted: Wanted<&[u32]>,
)
    requires { room ≤ 1208 }
{
    let mut file = [0u8; problem::MOST_BYTES];
    let n = file_of(problem, &mut file);
    let mut w = [0u32; MOST_PROPOSAL];
    let m = build::words(proposal, &mut w);
    let mut list = [u32::from(BEFORE); LENT_WORDS];
    start(title, b", due: ");
    match bus_log::due(&file[..n], &w[..m], span, &mut list[..room]) {
        Ok(k) => {
            let came = front(&list, k);
            paper::count(k);
            paper::text(b" words");
            let is_right = wanted.is_ok_and(|words| came == words);
            end(is_right & is_clean(&file[..n], &w[..m], came, span) & is_kept(&list, k));
        }
        Err(q) => end_kept(q, &list, wanted.err()),
    }
}

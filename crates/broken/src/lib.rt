// What is wrong with a problem, behind its name: where that stands in what a person wrote, what is there, and what would be right.
#![tactic(auto)]

ghost use Rattle.std.specs.Prelude.{◌≤◌, length};
ghost use Rattle.problem.specs.File.{head_bytes};

pub mod fields;
mod header;
mod records;

pub use header::wrong_line;
use paper::Number;
use problem::HEAD_BYTES;
use rules::{Paper, Refusal};

// A message or an event, by its place and its identifier.
pub fn name(thing: &[u8], j: impl Number, identifier: usize) {
    paper::say_count(thing, j);
    paper::say_hex(b" (", identifier);
    paper::say(b")");
}

// What is said without a number that was found. A refusal that a call does not have is told by its place.
pub fn explain(q: Refusal) {
    match q {
        Refusal::Room => paper::say(b": the output is longer than its room"),
        Refusal::Unheld(i) => paper::say_count(
            b": version 1 has no room for the kind of column, else for the identifier of message ",
            i,
        ),
        _ => paper::say_count(b": place ", Paper::from(q).place),
    }
}

// What is wrong with a file that is long enough for a header.
fn of_headed(q: Refusal, file: &[u8])
    requires { head_bytes ≤ length file.now }
{
    match q {
        Refusal::Length => header::file_length(file),
        Refusal::Mark => header::mark(file),
        Refusal::Version => header::version(file),
        Refusal::Header(b) => header::file_number(file, b),
        Refusal::Column(_) | Refusal::Identity(_) | Refusal::Timing(_) | Refusal::Triggers(_) =>
            records::of_file(q, file),
        _ => explain(q),
    }
}

// What is wrong with a problem file. One that is too short for a header is refused for that alone.
pub fn of_file(q: Refusal, file: &[u8]) {
    if file.len() < HEAD_BYTES {
        header::short_file(file);
    } else {
        of_headed(q, file);
    }
}

// What is wrong with a problem's words, which a text has.
pub fn of_words(q: Refusal, words: &[u32], text: &[u8]) {
    match q {
        Refusal::Length => header::words_length(words, text),
        Refusal::Header(b) => header::word_number(words, text, b),
        Refusal::Column(_) | Refusal::Identity(_) | Refusal::Timing(_) | Refusal::Triggers(_) => {
            records::of_said(q, words, text);
            header::wrong_record(words, text);
        }
        _ => explain(q),
    }
}

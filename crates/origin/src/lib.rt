// Where something stands in what a person wrote: the file by its name, and the line of a text or the byte of a problem file.
#![tactic(auto)]

ghost use Rattle.std.specs.Prelude.{◌≡◌, ◌<◌, ◌≤◌};
ghost use Rattle.origin.specs.Standing.{HasWord, words_before};

use problem::layout::{column_size, identifier_size, message_size};
use problem::{HEAD_BYTES, Layout};
use rules::words;
use rules::words::{HEADER_WORDS, MESSAGE_WORDS};
use std::rt::Env;
use wordlist::lines;

// What a sentence speaks of: what a call is given, an old problem and its plan, a list of placements to keep, or placements that were carried over from an old plan.
#[derive(Clone, Copy)]
pub enum Subject {
    Given,
    Old,
    Kept,
    Carried,
}

impl Subject {
    // The argument that names the problem.
    pub fn problem_at(self) -> usize {
        match self {
            Subject::Old => 3,
            _ => 2,
        }
    }

    // The argument that names the plan or the placements to keep; for those that were carried over, the problem.
    pub fn plan_at(self) -> usize {
        match self {
            Subject::Old => 4,
            Subject::Carried => 2,
            _ => 3,
        }
    }
}

// The arguments that name events and a log.
pub const EVENTS: usize = 2;

pub const LOG: usize = 4;

// Says a name; a dash is standard input.
pub fn say_name(name: &[u8]) {
    match name {
        b"-" => paper::say(b"standard input"),
        _ => paper::say(name),
    }
}

// Says text, and the name that an argument gives behind it.
pub fn named(rt: &impl Env, s: &[u8], i: usize) {
    let mut name = io::buffer();
    let n = host::arg(rt, i, &mut name);
    paper::say(s);
    say_name(&name[..n]);
}

// Says the line that has word k of a text, if there is one.
pub fn line(text: &[u8], k: usize) {
    if !text.is_empty() {
        paper::say_count(b", line ", lines::line_at(text, k));
    }
}

// ---- the words of a problem

// A word of a problem: of its header, or of the record of a column or a message, the first by its number.
#[derive(Clone, Copy)]
pub enum Word {
    Header(usize),
    Column(u32, usize),
    Message(u32, usize),
}

// How a problem was given: as a file of some version, or as a text in which a column has so many words.
#[derive(Clone, Copy)]
pub enum Given<'a> {
    File(Layout),
    Text(&'a [u8], usize),
}

// The byte of a file's header at which each of its words stands.
pub const HEADER_BYTES: [usize; HEADER_WORDS] = [
    problem::ROWS_AT,
    problem::CYCLE_AT,
    problem::REF_LEN_AT,
    problem::REF_ID_AT,
    problem::LIMIT_AT,
    problem::COLUMNS_AT,
    problem::MESSAGES_AT,
];

// How many words a text has before a word of a problem with so many columns, in which a column has so many words.
fn said_at(word: Word, columns: u32, size: usize) -> usize
    requires { HasWord word × (size ≤ 3) }
    ensures { result ≡ words_before size columns word }
{
    match word {
        Word::Header(k) => k,
        Word::Column(c, i) => HEADER_WORDS + size * c as usize + i,
        Word::Message(j, i) => HEADER_WORDS
            + size * columns as usize
            + MESSAGE_WORDS * j as usize
            + i,
    }
}

// The byte of a message's record at which a word of it stands, where the identifier has so many bytes.
fn message_byte(word: usize, identifier: usize) -> usize
    requires { identifier ≤ 4 }
    ensures { result < 32 }
{
    match word {
        words::IDENTIFIER => 0,
        words::SENDER => identifier,
        words::SIZE => identifier + 1,
        words::RECEIVERS => identifier + 2,
        words::PERIOD => identifier + 4,
        words::OFFSET => identifier + 8,
        _ => identifier + 12,
    }
}

// The byte at which a file of a version has a word of a problem with so many columns.
fn byte_at(word: Word, columns: u32, layout: Layout) -> usize
    requires { HasWord word }
{
    match word {
        Word::Header(k) => HEADER_BYTES[k],
        Word::Column(c, i) => HEAD_BYTES + column_size(layout) * c as usize + 2 * i,
        Word::Message(j, i) => {
            HEAD_BYTES
                + column_size(layout) * columns as usize
                + message_size(layout) * j as usize
                + message_byte(i, identifier_size(layout))
        }
    }
}

// Says where a problem with so many columns has a word: the byte of its file, or the line of its text, if there is one.
pub fn place(word: Word, columns: u32, given: Given)
    requires { HasWord word }
{
    match given {
        Given::File(layout) => paper::say_count(b", byte ", byte_at(word, columns, layout)),
        Given::Text(text, size) => line(text, said_at(word, columns, size.min(3))),
    }
}

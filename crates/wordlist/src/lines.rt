// Lines of a word list: where a word stands, which line has a wrong count of words, and which problem a plan was made for.
ghost use Rattle.std.specs.Prelude.{◌+◌, ◌<◌, ◌≤◌, IfSome, length};
ghost use Rattle.wordlist.specs.Text.{Ended, WordFrom};

use super::{Piece, front, number_in, word_end, word_from};

// ---- where a place is

// The line that a text ends in, from 1.
pub fn line_of(text: &[u8]) -> usize
    ensures { (1 ≤ result) × (result ≤ length text.now + 1) }
{
    1 + text.iter().filter(|b| **b == b'\n').count()
}

// The column of that line that a text ends before, from 1.
pub fn column_of(text: &[u8]) -> usize {
    match text.iter().rposition(|b| *b == b'\n') {
        Some(end) => text.len() - end,
        None => text.len() - front(text) + 1,
    }
}

// Where word k of a text stands, from 0, if it has so many.
fn word(text: &[u8], k: usize) -> Option<Piece>
    ensures { IfSome result (WordFrom text.now 0) }
{
    let mut at = front(text);
    for _ in 0..k {
        at = word_from(text, at)?.to;
    }
    word_from(text, at)
}

// The line that has word k of a text, or its last line if it has fewer.
pub fn line_at(text: &[u8], k: usize) -> usize {
    match word(text, k) {
        Some(word) => line_of(&text[..word.from]),
        None => line_of(text),
    }
}

// Where the line ends that has a place: behind its last byte.
pub fn line_end(text: &[u8], from: usize) -> usize
    requires { from < length text.now }
    ensures { Ended text.now from result }
{
    match text[from..].iter().position(|b| *b == b'\n') {
        Some(n) => from + n + 1,
        None => text.len(),
    }
}

// ---- records, one a line

// Records, each on a line of its own: the first has so many words, the next few so many, and the others so many.
#[derive(Clone, Copy)]
pub struct Shape {
    pub records: usize,
    pub first: usize,
    pub few: usize,
    pub short: usize,
    pub other: usize,
}

// A line, how many words it has, and how many it should have.
#[derive(Clone, Copy)]
pub struct Line {
    pub line: usize,
    pub count: usize,
    pub due: usize,
}

// How many words a text has.
fn count_of(text: &[u8]) -> usize {
    let mut count = 0;
    let mut at = 0;
    while let Some(word) = word_from(text, at) {
        count += 1;
        at = word.to;
    }
    count
}

// How many words a line has from word k of its text on.
pub fn words_from(text: &[u8], k: usize) -> usize {
    match word(text, k) {
        Some(word) => count_of(&text[word.from..line_end(text, word.from)]),
        None => 0,
    }
}

// How many words record r should have.
fn due(shape: Shape, r: usize) -> usize {
    if r == 0 {
        shape.first
    } else if r <= shape.few {
        shape.short
    } else {
        shape.other
    }
}

// The first line that has another count of words than its record, where there is one record a line; else none.
pub fn wrong_line(text: &[u8], shape: Shape) -> Option<Line> {
    let mut wrong = None;
    let mut records = 0;
    let lines = text[front(text)..].split_inclusive(|b| *b == b'\n');
    for (i, line) in lines.enumerate() {
        let count = count_of(line);
        if 0 < count {
            let due = due(shape, records);
            if wrong.is_none() && count != due {
                wrong = Some(Line {
                    line: i + 1,
                    count,
                    due,
                });
            }
            records += 1;
        }
    }
    if records == shape.records {
        wrong
    } else {
        None
    }
}

// ---- the problem of a plan

// How many hexadecimal digits the mark of a problem has.
const MARK_DIGITS: usize = 8;

// The mark on a line that begins with `# problem `, if it does.
fn mark_on(line: &[u8]) -> Option<u32> {
    let behind = line.strip_prefix(b"# problem ")?;
    if behind.is_empty() {
        return None;
    }
    let (mark, _) = behind.split_at(word_end(behind, 0));
    if mark.len() == MARK_DIGITS {
        number_in(16, mark)
    } else {
        None
    }
}

// The mark of the problem that a plan says it was made for, if it says so.
pub fn mark_of(text: &[u8]) -> Option<u32> {
    text[front(text)..]
        .split_inclusive(|b| *b == b'\n')
        .find_map(mark_on)
}

// What is wrong with a header, or with the length that it gives a file or a problem's words.
ghost use Rattle.std.specs.Prelude.{◌<◌, ◌≤◌, length};
ghost use Rattle.problem.specs.File.{head_bytes};

use super::fields::{identifier, range, value, word};
use problem::layout::{bytes_for, is_version, version_of};
use rules::words;
use wordlist::lines;
use wordlist::lines::Shape;

// ---- lengths

// So many bytes, which are too few for a header.
pub fn short_file(file: &[u8]) {
    paper::say_things(b": ", file.len(), b" byte");
    paper::say(b"; a problem file has at least 16");
}

// So many columns and messages.
fn contents(columns: usize, messages: usize) {
    paper::say_things(b"; ", columns, b" column");
    paper::say_things(b" and ", messages, b" message");
}

// The length of a file: another than its header says.
pub fn file_length(file: &[u8])
    requires { head_bytes ≤ length file.now }
{
    let columns = reader::columns_in(file);
    let messages = reader::messages_in(file);
    let layout = reader::layout_in(file);
    paper::say_things(b": ", file.len(), b" byte");
    contents(columns, messages);
    paper::say_count(b" make a file of version ", version_of(layout));
    paper::say_count(b" of ", bytes_for(layout, columns, messages));
}

// The line that has a wrong count of words, if there is one record a line.
pub fn wrong_line(text: &[u8], shape: Shape) {
    if let Some(wrong) = lines::wrong_line(text, shape) {
        paper::say_count(b"; line ", wrong.line);
        paper::say_things(b" has ", wrong.count, b" word");
        paper::say_count(b" where ", wrong.due);
        paper::say(b" are due");
    }
}

// How many words a column has where there is one a line, as the first says.
fn column_words(text: &[u8]) -> usize {
    if lines::words_from(text, words::HEADER_WORDS) == words::COLUMN_WORDS {
        words::COLUMN_WORDS
    } else {
        2
    }
}

// The line of a problem's text that has a wrong count of words, if there is one record a line.
pub fn wrong_record(words: &[u32], text: &[u8]) {
    let columns = word(words, words::COLUMNS) as usize;
    let messages = word(words, words::MESSAGES) as usize;
    wrong_line(
        text,
        Shape {
            records: 1 + columns + messages,
            first: words::HEADER_WORDS,
            few: columns,
            short: column_words(text),
            other: words::MESSAGE_WORDS,
        },
    );
}

// A header whose line has a word or two too many or too few: the numbers behind them are not what they seem.
fn wrong_header(text: &[u8]) {
    let count = lines::words_from(text, 0);
    if (5..10).contains(&count) && count != words::HEADER_WORDS {
        paper::say_count(b"; line ", lines::line_at(text, 0));
        paper::say_count(b" has ", count);
        paper::say(b" words where the 7 of the header are due");
    }
}

// The count of a problem's words: too few for a header, or another than its header says.
pub fn words_length(words: &[u32], text: &[u8]) {
    paper::say_things(b": ", words.len(), b" word");
    if words.len() < words::HEADER_WORDS {
        paper::say(b"; a problem has at least the 7 of its header");
        return;
    }
    let columns = words[words::COLUMNS] as usize;
    let messages = words[words::MESSAGES] as usize;
    let least = words::HEADER_WORDS + 2 * columns + words::MESSAGE_WORDS * messages;
    contents(columns, messages);
    paper::say_count(b" make ", least);
    paper::say_count(b" words in version 1 and ", least + columns);
    paper::say(b" in version 2");
    wrong_record(words, text);
}

// ---- mark and version

// The mark of a file.
pub fn mark(file: &[u8])
    requires { head_bytes ≤ length file.now }
{
    paper::say_count(b": the bytes ", u32::from(file[0]));
    paper::say_count(b" ", u32::from(file[1]));
    paper::say_count(b" ", u32::from(file[2]));
    paper::say(
        b" in front; a problem file has 84 83 77 there, the mark TSM, and a word list is not named .tsm",
    );
}

// The version of a file: there is no such, or it is the one that the file was to be moved to.
pub fn version(file: &[u8])
    requires { head_bytes ≤ length file.now }
{
    let version = reader::two_bytes(file, problem::VERSION_AT);
    if is_version(version) {
        paper::say_count(b": the file is already of version ", version);
        return;
    }
    paper::say(b", byte 3: ");
    value(b"version", version);
    paper::say(b"1 or 2");
}

// ---- numbers

// The reference window, or a basic cycle that has no room for one and a column.
fn reference_window(n: u32, cycle: u32) {
    if cycle <= 65 {
        paper::say_count(b"basic cycle ", cycle);
        paper::say(b"; it must be 66 at least, for the reference window and a column");
        return;
    }
    range(b"reference window", n, 65, cycle);
    paper::say(b", the basic cycle");
}

// Word k of a header, and its rule.
fn rule(words: &[u32], k: usize) {
    let n = word(words, k);
    paper::say(b": ");
    match k {
        words::ROWS => {
            value(b"rows", n);
            paper::say(b"1, 2, 4, 8, 16, 32 or 64");
        }
        words::CYCLE => range(b"basic cycle", n, 1, 65535),
        words::REF_LEN => reference_window(n, word(words, words::CYCLE)),
        words::REF_ID => identifier(b"reference identifier ", n),
        words::LIMIT => range(b"limit of triggers", n, 1, 32),
        words::COLUMNS => range(b"columns", n, 1, 32),
        _ => range(b"messages", n, 0, 64),
    }
}

// Which word of a header has the number that a file has at a byte.
fn word_of(at: usize) -> usize {
    origin::HEADER_BYTES
        .iter()
        .position(|byte| *byte == at)
        .unwrap_or(words::MESSAGES)
}

// The first wrong number of the header of a problem's words, which a text has. It is told by the byte of a file that would have it.
pub fn word_number(words: &[u32], text: &[u8], at: u32) {
    let k = word_of(at as usize);
    origin::line(text, k);
    rule(words, k);
    wrong_header(text);
}

// The first wrong number of a file's header, by its byte. Words have none for the last byte.
pub fn file_number(file: &[u8], at: u32)
    requires { head_bytes ≤ length file.now }
{
    paper::say_count(b", byte ", at);
    if at as usize == problem::LAST_AT {
        paper::say(b": ");
        value(
            b"the last byte of the header",
            u32::from(file[problem::LAST_AT]),
        );
        paper::say(b"0");
        return;
    }
    let mut head = [0u32; words::HEADER_WORDS];
    reader::read_header(file, &mut head);
    rule(&head, word_of(at as usize));
}

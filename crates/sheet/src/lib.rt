// Sheets: a problem as a text that a person reads. Each line is a record: its kind, and fields of the form name=value, in any order. # begins a comment.
#![tactic(auto)]

pub mod fields;
pub mod reading;
pub mod slips;

ghost use Rattle.std.specs.Prelude.{◌≤◌, IfSome, length};
ghost use Rattle.sheet.specs.Pieces.{PieceIn};

use fields::Field;
pub use wordlist::Piece;
use wordlist::lines::line_end;
use wordlist::{front, word_from};

// What a line of a sheet is about.
#[derive(Clone, Copy, PartialEq, Eq)]
pub enum Kind {
    Matrix,
    Node,
    Column,
    Message,
}

// Whether a byte is a letter; one beyond ASCII is part of one.
pub fn is_letter(b: u8) -> bool {
    b.is_ascii_alphabetic() || 128 <= b
}

// Whether a text is a sheet: its first word begins with a letter, where a word list has a digit.
pub fn is_sheet(text: &[u8]) -> bool {
    match word_from(text, front(text)) {
        Some(word) => is_letter(text[word.from]),
        None => false,
    }
}

// ---- lines

// Whether a line ends with a byte.
fn ends_line(b: &u8) -> bool {
    *b == b'\n'
}

// The kind of the records that begin with a word.
fn kind_of(word: &[u8]) -> Option<Kind> {
    match word {
        b"matrix" => Some(Kind::Matrix),
        b"node" => Some(Kind::Node),
        b"column" => Some(Kind::Column),
        b"message" => Some(Kind::Message),
        _ => None,
    }
}

// Whether a line is a record of a kind.
fn is_record(line: &[u8], kind: Kind) -> bool {
    match word_from(line, 0) {
        Some(word) => kind_of(&line[word.from..word.to]) == Some(kind),
        None => false,
    }
}

// The line of the first record of a kind for which a test holds, behind so many others.
fn record_where<F: Fn(&[u8]) -> bool>(
    text: &[u8],
    kind: Kind,
    others: usize,
    test: F,
) -> Option<Piece>
    requires { F.IsAlwaysCallable test }
    ensures { IfSome result (PieceIn text.now) }
{
    let mut left = others;
    let mut from = front(text);
    // No `for` over the lines: in a generic function Rattle does not admit its own module of that iterator.
    while from < text.len() {
        let to = line_end(text, from);
        let line = &text[from..to];
        if is_record(line, kind) && test(line) {
            if left == 0 {
                return Some(Piece { from, to });
            }
            left -= 1;
        }
        from = to;
    }
    None
}

// The line of record i of a kind, from 0.
pub fn record(text: &[u8], kind: Kind, i: usize) -> Option<Piece>
    ensures { IfSome result (PieceIn text.now) }
{
    record_where(text, kind, i, |_| true)
}

// How many records of a kind a text has.
pub fn count_of(text: &[u8], kind: Kind) -> usize
    ensures { result ≤ length text.now }
{
    text[front(text)..]
        .split_inclusive(ends_line)
        .filter(|line| is_record(line, kind))
        .count()
}

// ---- names

// The line of the record of a kind that has this name.
pub fn record_named(text: &[u8], kind: Kind, name: &[u8]) -> Option<Piece>
    ensures { IfSome result (PieceIn text.now) }
{
    record_where(
        text,
        kind,
        0,
        |line| fields::is_value(line, Field::Name, name),
    )
}

// The line of the record of the node of this number.
pub fn node(text: &[u8], n: u64) -> Option<Piece>
    ensures { IfSome result (PieceIn text.now) }
{
    record_where(text, Kind::Node, 0, |line| {
        fields::number(line, Field::Number).map(u64::from) == Some(n)
    })
}

// Which message has this identifier, from 0.
pub fn message_of(text: &[u8], identifier: u64) -> Option<usize> {
    text[front(text)..]
        .split_inclusive(ends_line)
        .filter(|line| is_record(line, Kind::Message))
        .position(|line| fields::number(line, Field::Identifier).map(u64::from) == Some(identifier))
}

// The line of a node by its number, of a column or a message by its place among its kind.
pub fn line_of(text: &[u8], kind: Kind, i: usize) -> Option<Piece>
    ensures { IfSome result (PieceIn text.now) }
{
    match kind {
        Kind::Node => node(text, i as u64),
        _ => record(text, kind, i),
    }
}

// The name of a node, a column or a message of a sheet; none if the text is no sheet.
pub fn name_of(text: &[u8], kind: Kind, i: usize) -> Option<Piece>
    ensures { IfSome result (PieceIn text.now) }
{
    if !is_sheet(text) {
        return None;
    }
    let line = line_of(text, kind, i)?;
    let name = fields::value(&text[line.from..line.to], Field::Name)?;
    Some(Piece {
        from: line.from + name.from,
        to: line.from + name.to,
    })
}

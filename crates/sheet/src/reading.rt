// The problem of a sheet: its words as a caller gives them, three for a column in version 2 and two in version 1.
ghost use Rattle.std.specs.Prelude.{◌≤◌, IfErr, length};
ghost use Rattle.sheet.specs.Pieces.{MisnamedIn, Left};

use super::fields::{self, Field, words_of};
use super::{Kind, count_of, ends_line, is_record, record, record_named};
use basics::{has_bit, with_bit};
use wordlist::{Piece, front};

// ---- nodes by their names

// The number of the node of this name.
pub fn node_number(text: &[u8], name: &[u8]) -> Option<u32> {
    let line = record_named(text, Kind::Node, name)?;
    fields::number(&text[line.from..line.to], Field::Number)
}

// Why a list of receivers is wrong: a piece of it names no node, or one again.
#[derive(Clone, Copy)]
pub enum Misnamed {
    Unknown(Piece),
    Again(Piece),
}

// The nodes whose names stand in a list with commas between them, a bit for each.
pub fn receivers(text: &[u8], list: &[u8]) -> Result<u32, Misnamed>
    ensures { IfErr result (MisnamedIn list.now) }
{
    let mut mask = 0;
    let mut from = 0;
    for name in list.split(|b| *b == b',') {
        let to = from + name.len();
        let n = match node_number(text, name) {
            Some(n) if n < 16 => n,
            _ => return Err(Misnamed::Unknown(Piece { from, to })),
        };
        if has_bit(mask, n) {
            return Err(Misnamed::Again(Piece { from, to }));
        }
        mask = with_bit(mask, n);
        from = to + 1;
    }
    Ok(mask)
}

// Whether a list of receivers is that of none.
pub fn is_none(list: &[u8]) -> bool {
    matches!(list, b"-")
}

// ---- words

// The word that a value stands for: a node's number, the mask of some nodes, or a number.
fn worth(text: &[u8], value: &[u8], field: Field) -> Option<u32> {
    match field {
        Field::Sender => node_number(text, value),
        Field::Receivers if is_none(value) => Some(0),
        Field::Receivers => receivers(text, value).ok(),
        _ => fields::number_in(value),
    }
}

// Puts a word at a place of a buffer, and where the next belongs; one that has no room is left out.
fn put(words: &mut [u32], at: usize, word: u32) -> usize
    requires { at ≤ length words.old }
    ensures { Left words.old words.new result }
{
    if at == words.len() {
        return at;
    }
    words[at] = word;
    at + 1
}

// Puts the words of some fields of a line, 0 for one that has none, and where the next belongs.
fn put_fields(text: &[u8], line: &[u8], fields: &[Field], words: &mut [u32], start: usize) -> usize
    requires { start ≤ length words.old }
    ensures { Left words.old words.new result }
{
    let mut at = start;
    for field in fields {
        let word = match fields::value(line, *field) {
            Some(value) => worth(text, &line[value.from..value.to], *field).unwrap_or(0),
            None => 0,
        };
        at = put(words, at, word);
    }
    at
}

// Puts the words of all records of a kind, a 0 behind each if it has more, and where the next belongs.
fn put_records(text: &[u8], kind: Kind, has_more: bool, words: &mut [u32], start: usize) -> usize
    requires { start ≤ length words.old }
    ensures { Left words.old words.new result }
{
    let mut next = start;
    for line in text[front(text)..].split_inclusive(ends_line) {
        if is_record(line, kind) {
            next = put_fields(text, line, words_of(kind), words, next);
            if has_more {
                next = put(words, next, 0);
            }
        }
    }
    next
}

// How many records of a kind a text has, as a word.
fn count_word(text: &[u8], kind: Kind) -> u32 {
    u32::try_from(count_of(text, kind)).unwrap_or(u32::MAX)
}

// Whether a sheet is of version 2, whose columns have a word for their kind: 0, an exclusive window.
fn has_kinds(text: &[u8]) -> bool {
    match record(text, Kind::Matrix, 0) {
        Some(line) => fields::number(&text[line.from..line.to], Field::Version) == Some(2),
        None => false,
    }
}

// Puts the words of a sheet without a slip into the front of a buffer: how many they are.
pub fn words(text: &[u8], words: &mut [u32]) -> usize
    ensures { Left words.old words.new result }
{
    let at = put_records(text, Kind::Matrix, false, words, 0);
    let at = put(words, at, count_word(text, Kind::Column));
    let at = put(words, at, count_word(text, Kind::Message));
    let at = put_records(text, Kind::Column, has_kinds(text), words, at);
    put_records(text, Kind::Message, false, words, at)
}

// The fields of a line: which there are, and their values.
ghost use Rattle.std.specs.Prelude.{IfSome};
ghost use Rattle.sheet.specs.Pieces.{PieceIn};

use super::Kind;
use wordlist::{Piece, word_from};

// The fields. Those of the matrix, of a column and of a message stand as a problem has their words.
#[derive(Clone, Copy, PartialEq, Eq)]
pub enum Field {
    Version,
    Rows,
    Cycle,
    ReferenceWindow,
    ReferenceIdentifier,
    Triggers,
    Number,
    Name,
    Start,
    Width,
    Identifier,
    Sender,
    Bytes,
    Receivers,
    Period,
    Offset,
    Deadline,
}

static OF_MATRIX: [Field; 6] = [
    Field::Version,
    Field::Rows,
    Field::Cycle,
    Field::ReferenceWindow,
    Field::ReferenceIdentifier,
    Field::Triggers,
];

static OF_NODE: [Field; 2] = [Field::Number, Field::Name];

static OF_COLUMN: [Field; 3] = [Field::Name, Field::Start, Field::Width];

static OF_MESSAGE: [Field; 8] = [
    Field::Name,
    Field::Identifier,
    Field::Sender,
    Field::Bytes,
    Field::Receivers,
    Field::Period,
    Field::Offset,
    Field::Deadline,
];

// The fields of each kind.
pub fn fields_of(kind: Kind) -> &'static [Field] {
    match kind {
        Kind::Matrix => &OF_MATRIX,
        Kind::Node => &OF_NODE,
        Kind::Column => &OF_COLUMN,
        Kind::Message => &OF_MESSAGE,
    }
}

// The fields of a kind that are words of a problem: those behind its version or its name. No node is one.
pub(super) fn words_of(kind: Kind) -> &'static [Field] {
    match kind {
        Kind::Matrix => &OF_MATRIX[1..],
        Kind::Node => &[],
        Kind::Column => &OF_COLUMN[1..],
        Kind::Message => &OF_MESSAGE[1..],
    }
}

// The field that has this name.
pub fn field_named(name: &[u8]) -> Option<Field> {
    match name {
        b"version" => Some(Field::Version),
        b"rows" => Some(Field::Rows),
        b"cycle" => Some(Field::Cycle),
        b"reference-window" => Some(Field::ReferenceWindow),
        b"reference-identifier" => Some(Field::ReferenceIdentifier),
        b"triggers" => Some(Field::Triggers),
        b"number" => Some(Field::Number),
        b"name" => Some(Field::Name),
        b"start" => Some(Field::Start),
        b"width" => Some(Field::Width),
        b"identifier" => Some(Field::Identifier),
        b"sender" => Some(Field::Sender),
        b"bytes" => Some(Field::Bytes),
        b"receivers" => Some(Field::Receivers),
        b"period" => Some(Field::Period),
        b"offset" => Some(Field::Offset),
        b"deadline" => Some(Field::Deadline),
        _ => None,
    }
}

// ---- values

// The value of a field of a line: what stands behind its name and =, if the line has it.
pub fn value(line: &[u8], field: Field) -> Option<Piece>
    ensures { IfSome result (PieceIn line.now) }
{
    let mut at = 0;
    while let Some(word) = word_from(line, at) {
        let (from, to) = (word.from, word.to);
        if let Some(n) = line[from..to].iter().position(|b| *b == b'=') {
            let sign = from + n;
            if field_named(&line[from..sign]) == Some(field) {
                return Some(Piece { from: sign + 1, to });
            }
        }
        at = to;
    }
    None
}

// Whether the value of a field is this text.
pub fn is_value(line: &[u8], field: Field, text: &[u8]) -> bool {
    match value(line, field) {
        Some(at) => &line[at.from..at.to] == text,
        None => false,
    }
}

// The number that a text writes; an empty text writes none.
pub fn number_in(text: &[u8]) -> Option<u32> {
    if text.is_empty() {
        None
    } else {
        wordlist::number(text)
    }
}

// The number that is the value of a field.
pub fn number(line: &[u8], field: Field) -> Option<u32> {
    let at = value(line, field)?;
    number_in(&line[at.from..at.to])
}

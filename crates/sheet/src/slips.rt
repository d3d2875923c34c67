// What keeps a sheet from being read: the first slip in it, with the piece of the text that is wrong.
ghost use Rattle.std.specs.Prelude.{◌≡◌, ◌+◌, ◌<◌, ◌≤◌, [], IfErr, MatchResult, length};
ghost use Rattle.sheet.specs.Pieces.{PieceIn, OtherIn, SlipIn};

use super::fields::{self, Field, field_named, fields_of};
use super::reading::{self, Misnamed};
use super::{Kind, count_of, ends_line, kind_of, node, record_named};
use wordlist::{Piece, front, word_from};

// The most bytes of a name, and the most columns and messages of a problem.
pub const MOST_NAME: usize = 24;

const MOST_COLUMNS: usize = 32;

const MOST_MESSAGES: usize = 64;

// What may be wrong: with a line, a field, a number, a name, a node, or with the whole. A name or a number that is taken tells where the line begins that has it.
#[derive(Clone, Copy)]
pub enum Wrong {
    Line,
    Surplus,
    Form,
    Field,
    Twice,
    Missing(Field),
    Empty,
    Number,
    Version,
    Name,
    Long,
    Taken(usize),
    Node,
    NodeTaken(usize),
    Unknown,
    Again,
    NoMatrix,
}

// What is wrong with a sheet, and the piece of the text that has it.
#[derive(Clone, Copy)]
pub struct Slip {
    pub wrong: Wrong,
    pub at: Piece,
}

// So much is wrong in a piece of a text.
fn slip_at(wrong: Wrong, at: Piece) -> Slip
    ensures { (result.wrong ≡ wrong) × (result.at ≡ at) }
{
    Slip { wrong, at }
}

// ---- names

// Whether a name may begin with a character: with a letter, or one behind ASCII, but none that a terminal might obey and no no-break space.
fn may_begin(c: char) -> bool {
    c.is_ascii_alphabetic() || '\u{A0}' < c
}

// Whether a text is a name: a letter first, then letters, digits and - _ .
fn is_name(name: &[u8]) -> bool {
    match str::from_utf8(name) {
        Ok(text) => {
            text.starts_with(may_begin)
                && text.chars().all(|c| may_begin(c) || matches!(c, '0'..='9' | '-' | '_' | '.'))
        }
        Err(_) => false,
    }
}

// ---- values

// What is wrong with a name, which a record has whose line begins at a place.
fn check_name(text: &[u8], kind: Kind, line: usize, name: &[u8]) -> Result<(), Wrong>
    ensures { IfErr result (OtherIn text.now) }
{
    if !is_name(name) {
        return Err(Wrong::Name);
    }
    if MOST_NAME < name.len() {
        return Err(Wrong::Long);
    }
    match record_named(text, kind, name) {
        Some(first) if first.from < line => Err(Wrong::Taken(first.from)),
        _ => Ok(()),
    }
}

// What is wrong with the number of a node, whose line begins at a place.
fn check_node(text: &[u8], n: u32, line: usize) -> Result<(), Wrong>
    ensures { IfErr result (OtherIn text.now) }
{
    if 15 < n {
        return Err(Wrong::Node);
    }
    match node(text, u64::from(n)) {
        Some(first) if first.from < line => Err(Wrong::NodeTaken(first.from)),
        _ => Ok(()),
    }
}

// What is wrong with a number, which a record has whose line begins at a place.
fn check_number(text: &[u8], field: Field, line: usize, value: &[u8]) -> Result<(), Wrong>
    ensures { IfErr result (OtherIn text.now) }
{
    let Some(n) = fields::number_in(value) else {
        return Err(Wrong::Number);
    };
    match field {
        Field::Number => check_node(text, n, line),
        Field::Version if n != 1 && n != 2 => Err(Wrong::Version),
        _ => Ok(()),
    }
}

// What is wrong with the name of a sender.
fn check_sender(text: &[u8], name: &[u8]) -> Result<(), Wrong>
    ensures { IfErr result (OtherIn text.now) }
{
    match reading::node_number(text, name) {
        Some(n) if n < 16 => Ok(()),
        _ => Err(Wrong::Unknown),
    }
}

// What is wrong with the names of receivers, which stand in a piece of a text.
fn check_receivers(text: &[u8], at: Piece) -> Result<(), Slip>
    requires { PieceIn text.now at }
    ensures { IfErr result (SlipIn text.now) }
{
    let list = &text[at.from..at.to];
    if reading::is_none(list) {
        return Ok(());
    }
    let (wrong, name) = match reading::receivers(text, list) {
        Ok(_) => return Ok(()),
        Err(Misnamed::Unknown(name)) => (Wrong::Unknown, name),
        Err(Misnamed::Again(name)) => (Wrong::Again, name),
    };
    let from = at.from + name.from;
    let to = at.from + name.to;
    Err(slip_at(wrong, Piece { from, to }))
}

// What is wrong with the value of a field, which stands in a piece of a text.
fn check_value(text: &[u8], kind: Kind, field: Field, line: usize, at: Piece) -> Result<(), Slip>
    requires { PieceIn text.now at }
    ensures { IfErr result (SlipIn text.now) }
{
    let value = &text[at.from..at.to];
    let checked = match field {
        Field::Receivers => return check_receivers(text, at),
        Field::Name => check_name(text, kind, line, value),
        Field::Sender => check_sender(text, value),
        _ => check_number(text, field, line, value),
    };
    checked.map_err(|wrong| slip_at(wrong, at))
}

// ---- lines

// The field that a word of a record names, and where its sign = stands; the record has some fields before it.
fn check_field(kind: Kind, before: &[u8], word: &[u8]) -> Result<(Field, usize), Wrong>
    ensures { MatchResult result (λ found. found.1 + 1 < length word.now) (OtherIn []) }
{
    let Some(sign) = word.iter().position(|b| *b == b'=') else {
        return Err(Wrong::Form);
    };
    let field = match field_named(&word[..sign]) {
        Some(field) if fields_of(kind).contains(&field) => field,
        _ => return Err(Wrong::Field),
    };
    if fields::value(before, field).is_some() {
        return Err(Wrong::Twice);
    }
    if word.len() == sign + 1 {
        return Err(Wrong::Empty);
    }
    Ok((field, sign))
}

// What is wrong with a word of a record, whose line begins at a place.
fn check_word(text: &[u8], kind: Kind, line: usize, word: Piece) -> Result<(), Slip>
    requires { PieceIn text.now word × (line ≤ word.from) }
    ensures { IfErr result (SlipIn text.now) }
{
    let (from, to) = (word.from, word.to);
    match check_field(kind, &text[line..from], &text[from..to]) {
        Ok((field, sign)) => check_value(
            text,
            kind,
            field,
            line,
            Piece {
                from: from + sign + 1,
                to,
            },
        ),
        Err(wrong) => Err(slip_at(wrong, word)),
    }
}

// The first field of a kind that a line does not have; the version may be left out.
fn missing(kind: Kind, line: &[u8]) -> Option<Field> {
    fields_of(kind).iter().copied().find(|field| *field != Field::Version
        && fields::value(line, *field).is_none())
}

// How many records of a kind there may be.
fn most_of(kind: Kind) -> usize {
    match kind {
        Kind::Matrix => 1,
        Kind::Node => 16,
        Kind::Column => MOST_COLUMNS,
        Kind::Message => MOST_MESSAGES,
    }
}

// What is wrong with the fields of a record, whose line is a piece and whose first word ends at a place.
fn check_fields(text: &[u8], kind: Kind, line: Piece, from: usize) -> Result<(), Slip>
    requires { PieceIn text.now line × (line.from ≤ from) × (from ≤ line.to) }
    ensures { IfErr result (SlipIn text.now) }
{
    let mut at = from;
    while let Some(word) = word_from(&text[..line.to], at) {
        check_word(text, kind, line.from, word)?;
        at = word.to;
    }
    match missing(kind, &text[line.from..line.to]) {
        Some(field) => Err(slip_at(Wrong::Missing(field), line)),
        None => Ok(()),
    }
}

// What is wrong with a line.
fn check_line(text: &[u8], line: Piece) -> Result<(), Slip>
    requires { PieceIn text.now line }
    ensures { IfErr result (SlipIn text.now) }
{
    let Some(word) = word_from(&text[..line.to], line.from) else {
        return Ok(());
    };
    let Some(kind) = kind_of(&text[word.from..word.to]) else {
        return Err(slip_at(Wrong::Line, word));
    };
    if most_of(kind) <= count_of(&text[..line.from], kind) {
        let rest = Piece {
            from: word.to,
            to: line.to,
        };
        return Err(slip_at(Wrong::Surplus, rest));
    }
    check_fields(text, kind, line, word.to)
}

// The first slip of a sheet, if it has one.
pub fn slip_of(text: &[u8]) -> Result<(), Slip>
    ensures { IfErr result (SlipIn text.now) }
{
    let mut from = front(text);
    for line in text[from..].split_inclusive(ends_line) {
        let to = from + line.len();
        check_line(text, Piece { from, to })?;
        from = to;
    }
    if count_of(text, Kind::Matrix) == 0 {
        return Err(slip_at(Wrong::NoMatrix, Piece { from: 0, to: 0 }));
    }
    Ok(())
}

// What a sheet calls a node, a column or a message; where there is no name, nothing is written.
#![tactic(auto)]

ghost use Rattle.std.specs.Prelude.{◌≤◌, length};

use basics::has_bit;
use sheet::Kind;

// How many nodes there are.
const NODES: u32 = 16;

// How many characters a text of UTF-8 has: as many as bytes that begin one.
fn characters(text: &[u8]) -> usize
    ensures { result ≤ length text.now }
{
    text.iter().filter(|b| !matches!(**b, 128..192)).count()
}

// How many characters a name has; 0 if there is none.
pub fn length(text: &[u8], kind: Kind, i: usize) -> usize {
    match sheet::name_of(text, kind, i) {
        Some(name) => characters(&text[name.from..name.to]),
        None => 0,
    }
}

// How many characters the longest of so many names has.
pub fn width(text: &[u8], kind: Kind, count: usize) -> usize {
    (0..count).map(|i| length(text, kind, i)).max().unwrap_or(0)
}

// ---- standard output

// Writes a name.
pub fn put(text: &[u8], kind: Kind, i: usize) {
    if let Some(name) = sheet::name_of(text, kind, i) {
        paper::text(&text[name.from..name.to]);
    }
}

// Writes a name, or where there is none a word and the number.
pub fn called(text: &[u8], kind: Kind, i: usize, word: &[u8]) {
    if 0 < length(text, kind, i) {
        put(text, kind, i);
    } else {
        paper::text_count(word, i);
    }
}

// Writes the nodes of a mask so, with something between them.
pub fn nodes(text: &[u8], mask: u32, word: &[u8], between: &[u8]) {
    let mut is_any = false;
    for n in 0..NODES {
        if has_bit(mask, n) {
            if is_any {
                paper::text(between);
            }
            called(text, Kind::Node, n as usize, word);
            is_any = true;
        }
    }
}

// Writes the spaces that are left of so many characters beside a name.
fn pad(text: &[u8], kind: Kind, i: usize, columns: usize) {
    paper::spaces(columns.saturating_sub(length(text, kind, i)));
}

// Writes a name with spaces behind it, so that it fills so many characters.
pub fn left(text: &[u8], kind: Kind, i: usize, columns: usize) {
    put(text, kind, i);
    pad(text, kind, i, columns);
}

// The same with the spaces before it.
pub fn right(text: &[u8], kind: Kind, i: usize, columns: usize) {
    pad(text, kind, i, columns);
    put(text, kind, i);
}

// Writes text and a number, and a name behind it in brackets.
pub fn number(s: &[u8], n: usize, text: &[u8], kind: Kind) {
    paper::text_count(s, n);
    bracketed(text, kind, n);
}

// Writes a name in brackets behind a space.
pub fn bracketed(text: &[u8], kind: Kind, i: usize) {
    if 0 < length(text, kind, i) {
        paper::text(b" (");
        put(text, kind, i);
        paper::text(b")");
    }
}

// ---- standard error

// Writes text, and a name behind it.
pub fn say(s: &[u8], text: &[u8], kind: Kind, i: usize) {
    if let Some(name) = sheet::name_of(text, kind, i)
        && name.from < name.to
    {
        paper::say(s);
        paper::say(&text[name.from..name.to]);
    }
}

// Writes text and a number, and a name behind it in brackets.
pub fn say_number(s: &[u8], n: usize, text: &[u8], kind: Kind) {
    paper::say_count(s, n);
    if 0 < length(text, kind, n) {
        say(b" (", text, kind, n);
        paper::say(b")");
    }
}

// What a word probably is that is no number, so that a person can be told.
use super::behind_prefix;

#[derive(Clone, Copy)]
pub enum Hint {
    File,
    Utf16,
    NoBreakSpace,
    Comma,
    Point,
    Dash,
    Sign,
    Large,
    Unit,
    Prefix,
    Other,
}

// Whether a text has a no-break space: the byte A0 by itself, or behind C2 as UTF-8 has it.
fn has_no_break_space(text: &[u8]) -> bool {
    let mut before = 0;
    for b in text {
        if *b == 0xA0 && (before == 0xC2 || before < 0x80) {
            return true;
        }
        before = *b;
    }
    false
}

// Whether a byte is of ms, us, ns, s, bit or kbit, or of the Greek letter for micro, which UTF-8 has in two ways.
fn is_of_unit(b: u8) -> bool {
    matches!(
        b,
        b'm' | b'u' | b'n' | b's' | b'b' | b'i' | b't' | b'k' | 0xC2 | 0xB5 | 0xCE | 0xBC
    )
}

// Whether a word is a unit, by itself or behind a number.
fn is_unit(word: &[u8]) -> bool {
    word.iter().all(|b| b.is_ascii_digit() || is_of_unit(*b))
}

// Whether a text is UTF-16, as its byte order mark says, or a zero beside its first letter.
fn is_utf16(text: &[u8]) -> bool {
    matches!(
        text,
        [0xFF, 0xFE, ..] | [0xFE, 0xFF, ..] | [0, _, ..] | [_, 0, ..]
    )
}

// Whether a word is a number that is too large.
fn is_large(word: &[u8]) -> bool {
    match behind_prefix(word) {
        Some(digits) => digits.iter().all(|b| b.is_ascii_hexdigit()),
        None => word.iter().all(|b| b.is_ascii_digit()),
    }
}

// What a word is that has no byte which tells.
fn by_shape(word: &[u8]) -> Hint {
    if is_large(word) {
        Hint::Large
    } else if is_unit(word) {
        Hint::Unit
    } else if word.iter().all(|b| b.is_ascii_hexdigit()) {
        Hint::Prefix
    } else {
        Hint::Other
    }
}

// What a word is that begins with a dash, or else by its shape.
fn by_front(word: &[u8]) -> Hint {
    match word {
        b"-" => Hint::Dash,
        [b'-', ..] => Hint::Sign,
        _ => by_shape(word),
    }
}

// What a word of a text is that is no number.
pub fn hint_of(text: &[u8], word: &[u8]) -> Hint {
    if text.starts_with(b"TSM") {
        Hint::File
    } else if is_utf16(text) {
        Hint::Utf16
    } else if has_no_break_space(word) {
        Hint::NoBreakSpace
    } else if word.contains(&b',') {
        Hint::Comma
    } else if word.contains(&b'.') {
        Hint::Point
    } else {
        by_front(word)
    }
}

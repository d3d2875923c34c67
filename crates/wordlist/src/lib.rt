// Word lists: numbers between white space, decimal or with 0x in front hexadecimal, where # begins a comment that the end of the line ends.
#![tactic(auto)]

pub mod hints;
pub mod lines;

ghost use Rattle.std.specs.Prelude.{◌<◌, ◌≤◌, ◌≡◌, IfSome, drop, length};
ghost use Rattle.wordlist.specs.Text.{Prefixed, InBase, Numeral, Next, Ended, WordFrom, Parses};

// A piece of a text: where it begins, and where it ends.
#[derive(Clone, Copy)]
pub struct Piece {
    pub from: usize,
    pub to: usize,
}

// Where the reading of a text stopped: at a word that is no number, or at one too many; and how many were taken before it.
#[derive(Clone, Copy)]
pub struct Stop {
    pub count: usize,
    pub at: usize,
}

// ---- numbers

// The number that digits of a base write; none for other bytes or a number that is too large for a word.
// No from_str_radix: that takes a sign in front, and no empty text.
fn number_in(base: u32, digits: &[u8]) -> Option<u32>
    requires { (2 ≤ base) × (base ≤ 16) }
    ensures { InBase base digits.now result }
{
    let mut value: u32 = 0;
    for b in digits {
        let digit = char::from(*b).to_digit(base)?;
        value = value.checked_mul(base)?.checked_add(digit)?;
    }
    Some(value)
}

// The digits behind 0x, if a word begins with it and has any.
fn behind_prefix(word: &[u8]) -> Option<&[u8]>
    ensures { IfSome result (λ digits. Prefixed word.now × (digits.now ≡ drop 2 word.now)) }
{
    match word {
        [b'0', b'x', digits @ ..] if !digits.is_empty() => Some(digits),
        _ => None,
    }
}

// The number that a word writes, if it writes one.
pub fn number(word: &[u8]) -> Option<u32>
    ensures { Numeral word.now result }
{
    match behind_prefix(word) {
        Some(digits) => number_in(16, digits),
        None => number_in(10, word),
    }
}

// ---- words in a text

// White space: space, tab, the ends of lines and pages.
fn is_blank(b: u8) -> bool {
    matches!(b, b' ' | b'\t'..=b'\r')
}

// Where a text begins: behind the byte order mark of UTF-8, if it has one.
pub fn front(text: &[u8]) -> usize
    ensures { result ≤ length text.now }
{
    match text {
        [0xEF, 0xBB, 0xBF, ..] => 3,
        _ => 0,
    }
}

// Where the next word begins, at a place or behind it: past white space and comments. The text's end if there is none.
fn next_word(text: &[u8], from: usize) -> usize
    requires { from ≤ length text.now }
    ensures { Next text.now from result }
{
    let mut in_comment = false;
    for i in from..text.len() {
        let b = text[i];
        in_comment = b == b'#' || in_comment && b != b'\n';
        if !in_comment && !is_blank(b) {
            return i;
        }
    }
    text.len()
}

// Where a word ends that begins at a place: at white space, at a comment or at the text's end.
pub fn word_end(text: &[u8], from: usize) -> usize
    requires { from < length text.now }
    ensures { Ended text.now from result }
{
    for i in from + 1..text.len() {
        if is_blank(text[i]) || text[i] == b'#' {
            return i;
        }
    }
    text.len()
}

// The first word of a text from a place on, if there is one.
pub fn word_from(text: &[u8], from: usize) -> Option<Piece>
    requires { from ≤ length text.now }
    ensures { IfSome result (WordFrom text.now from) }
{
    let at = next_word(text, from);
    if at == text.len() {
        return None;
    }
    let to = word_end(text, at);
    Some(Piece { from: at, to })
}

// The number that a word writes; a dash stands for what is given for it.
fn value_of(word: &[u8], dash: Option<u32>) -> Option<u32> {
    match word {
        b"-" => dash,
        _ => number(word),
    }
}

// Puts the words of a text into the front of a buffer, all of them numbers: how many they are.
pub fn parse(text: &[u8], words: &mut [u32]) -> Result<usize, Stop>
    ensures { Parses text.now words.new result }
{
    parse_with(text, words, None)
}

// Puts the words of a text into the front of a buffer, where a dash may stand for a number: how many they are.
pub fn parse_with(text: &[u8], words: &mut [u32], dash: Option<u32>) -> Result<usize, Stop>
    ensures { Parses text.now words.new result }
{
    let mut count = 0;
    let mut at = front(text);
    while let Some(word) = word_from(text, at) {
        match value_of(&text[word.from..word.to], dash) {
            Some(value) if count < words.len() => words[count] = value,
            _ => return Err(Stop {
                count,
                at: word.from,
            }),
        }
        count += 1;
        at = word.to;
    }
    Ok(count)
}

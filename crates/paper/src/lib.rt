// Printing for the programs: text, numbers, and columns of numbers on standard output; what is said besides on standard error.
// It stands on crate io and not on print!, which asks for the runtime: each function of the programs that prints would have to hand it on.
#![tactic(auto)]

ghost use Rattle.std.specs.Prelude.{◌≡◌, length};

// An identifier is shown with as many hexadecimal digits at least, as the field writes it: 0x031.
const IDENTIFIER_DIGITS: usize = 3;

// The mark of a problem is shown with so many.
const MARK_DIGITS: usize = 8;

// A number that can be shown: a word of a problem, or a count.
pub trait Number {
    fn shown(self) -> u64;
}

impl Number for u32 {
    fn shown(self) -> u64 {
        u64::from(self)
    }
}

impl Number for usize {
    fn shown(self) -> u64 {
        self as u64
    }
}

// ---- the two streams

// The system's numbers of them.
const OUTPUT: i32 = 1;

const ERROR: i32 = 2;

// Where text goes: to standard output, or to standard error what is said besides.
#[derive(Clone, Copy)]
enum Stream {
    Output,
    Error,
}

impl Stream {
    // Writes bytes as they stand. If output cannot be written, that is said; if that cannot, there is nobody to tell.
    fn text(self, s: &[u8]) {
        match self {
            Stream::Output => {
                if !io::write_all(OUTPUT, s) {
                    io::write_all(ERROR, b"unwritten\n");
                }
            }
            Stream::Error => {
                io::write_all(ERROR, s);
            }
        }
    }

    // Writes a number in decimal.
    fn decimal(self, n: u64) {
        let mut digits = [0u8; 20];
        let k = io::decimal(n, &mut digits);
        self.text(&digits[..k]);
    }

    // Writes a number in hexadecimal, with so many digits at least.
    fn hex(self, n: u64, least: usize) {
        let mut digits = [0u8; 16];
        let k = io::hex(n, least, &mut digits);
        self.text(&digits[..k]);
    }

    // Writes so many things, of this name.
    fn things(self, n: usize, one: &[u8]) {
        self.decimal(n as u64);
        self.text(one);
        if n != 1 {
            self.text(b"s");
        }
    }
}

// ---- standard error

// Writes text.
pub fn say(s: &[u8]) {
    Stream::Error.text(s);
}

// Writes text, and a number behind it.
pub fn say_count(s: &[u8], n: impl Number) {
    say(s);
    Stream::Error.decimal(n.shown());
}

// Writes text, and an identifier behind it.
pub fn say_hex(s: &[u8], n: usize) {
    say(s);
    say(b"0x");
    Stream::Error.hex(n as u64, IDENTIFIER_DIGITS);
}

// Writes text, and the mark of a problem behind it.
pub fn say_mark(s: &[u8], mark: u32) {
    say(s);
    Stream::Error.hex(u64::from(mark), MARK_DIGITS);
}

// Writes text, and so many things of this name behind it.
pub fn say_things(s: &[u8], n: usize, one: &[u8]) {
    say(s);
    Stream::Error.things(n, one);
}

// Writes text, and hundredths of a per cent behind it, as per cent with two decimals.
pub fn say_per_cent(s: &[u8], hundredths: usize) {
    say_count(s, hundredths / 100);
    say(&decimals(hundredths));
}

// ---- standard output

// Writes bytes as they stand. If they cannot be written, that is said.
pub fn text(s: &[u8]) {
    Stream::Output.text(s);
}

pub fn end_line() {
    text(b"\n");
}

// Writes text and ends the line.
pub fn line(s: &[u8]) {
    text(s);
    end_line();
}

// Writes a number in decimal.
pub fn count(n: impl Number) {
    Stream::Output.decimal(n.shown());
}

// Writes text, and a number behind it.
pub fn text_count(s: &[u8], n: impl Number) {
    text(s);
    count(n);
}

// Writes so many things, of this name.
pub fn things(n: usize, one: &[u8]) {
    Stream::Output.things(n, one);
}

// Writes so many spaces.
pub fn spaces(n: usize) {
    for _ in 0..n {
        text(b" ");
    }
}

// Writes the spaces that are left of so many characters behind a text of this length. The test, and not saturating_sub, is what must-fail/too_wide.edit turns round.
fn pad(length: usize, columns: usize) {
    if length < columns {
        spaces(columns - length);
    }
}

// Writes text with spaces in front, so that it ends a column of so many characters.
pub fn right_text(s: &[u8], columns: usize) {
    pad(s.len(), columns);
    text(s);
}

// Writes text with spaces behind, so that it fills a column of so many characters.
pub fn left_text(s: &[u8], columns: usize) {
    text(s);
    pad(s.len(), columns);
}

// Writes a number with spaces in front, so that it ends a column of so many characters.
pub fn right_count(n: impl Number, columns: usize) {
    let mut digits = [0u8; 20];
    let k = io::decimal(n.shown(), &mut digits);
    right_text(&digits[..k], columns);
}

// All of something, in hundredths of a per cent.
pub const ALL: usize = 10000;

// The character of a decimal digit, the lowest of n.
fn digit(n: usize) -> u8 {
    b'0' + (n % 10) as u8
}

// The two decimals of hundredths of a per cent, as they stand behind the whole per cents; by digits, as `write!` would ask for a buffer and a failure to answer for.
fn decimals(hundredths: usize) -> [u8; 5]
    ensures { 5 ≡ length result }
{
    [b'.', digit(hundredths / 10), digit(hundredths), b' ', b'%']
}

// Writes hundredths of a per cent as per cent with two decimals; the whole per cents end a column of so many characters.
pub fn right_per_cent(hundredths: usize, columns: usize) {
    right_count(hundredths / 100, columns);
    text(&decimals(hundredths));
}

// Writes hundredths of a per cent as a number of per cents with two decimals.
pub fn hundredths(n: usize) {
    count(n / 100);
    text(&[b'.', digit(n / 10), digit(n)]);
}

// Writes text, and the mark of a problem behind it.
pub fn text_mark(s: &[u8], mark: u32) {
    text(s);
    Stream::Output.hex(u64::from(mark), MARK_DIGITS);
}

// Writes an identifier in hexadecimal, so that it ends a column of so many characters.
pub fn right_hex(n: usize, columns: usize) {
    let mut digits = [0u8; 16];
    let k = io::hex(n as u64, IDENTIFIER_DIGITS, &mut digits);
    pad(k, columns.saturating_sub(2));
    text(b"0x");
    text(&digits[..k]);
}

// Writes text, and the hexadecimal digits of an identifier behind it.
pub fn text_digits(s: &[u8], n: usize) {
    text(s);
    Stream::Output.hex(n as u64, IDENTIFIER_DIGITS);
}

// Writes text, and an identifier behind it.
pub fn text_hex(s: &[u8], n: usize) {
    text(s);
    right_hex(n, 0);
}

// Writes a word, as an identifier or in decimal.
fn word(n: u32, is_identifier: bool) {
    if is_identifier {
        right_hex(n as usize, 0);
    } else {
        count(n);
    }
}

// Writes words with a space between them; one of them may be an identifier.
fn row(w: &[u32], identifier: Option<usize>) {
    for (i, n) in w.iter().enumerate() {
        if 0 < i {
            text(b" ");
        }
        word(*n, identifier == Some(i));
    }
}

// Writes words with a space between them; the one at this place is an identifier.
pub fn record(w: &[u32], identifier: usize) {
    row(w, Some(identifier));
}

// Writes words with a space between them, all of them in decimal.
pub fn words(w: &[u32]) {
    row(w, None);
}

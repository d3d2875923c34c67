// A log is a word list that may be long, so it is read in pieces of whole lines. A word and a comment both end with their line:
// each piece is a word list by itself.
ghost use Rattle.std.specs.Prelude.{◌≡◌, ◌+◌, ◌<◌, ◌≤◌, IfOk, length};
ghost use Rattle.files.specs.Reading.{IsFront, Reached};

use super::input;
use super::input::{Told, Use};
use std::io::Read;
use std::rt::{Env, Files};
use wordlist::lines;

// The most words of a log: one pair more than can be due, so that a log that is too long is answered and not refused.
pub const LOG_WORDS: usize = bus_log::MOST_WORDS + bus_log::PAIR;

// No log has so many bytes.
const MOST_BYTES: usize = 4294967296;

// How far a log has been read: so many bytes at the front of the buffer belong to a line that has not ended, so many words and lines
// are behind them, and so many bytes more may be read.
#[derive(Clone, Copy)]
struct Place {
    held: usize,
    count: usize,
    lines: usize,
    left: usize,
}

// Where the last whole line ends of the bytes that are held, or 0 if there is none.
fn lines_end(bytes: &[u8]) -> usize
    ensures { IsFront result bytes.now }
{
    match bytes.iter().rposition(|b| *b == b'\n') {
        Some(at) => at + 1,
        None => 0,
    }
}

// Reads once behind the bytes that are held, and answers how many more there are then: none at the end of the file.
fn refill<F: Read>(file: &mut F, name: &[u8], bytes: &mut [u8], held: usize) -> Result<usize, Told>
    requires { held ≤ length bytes.old }
    ensures { IfOk result (λ more. held + more ≤ length bytes.new) }
{
    match file.read(&mut bytes[held..]) {
        Ok(more) => Ok(more),
        Err(e) => Err(input::fail(name, &e)),
    }
}

// ---- pieces

// Takes the words of the whole lines that are held, and moves the line that has not ended to the front.
fn take_lines(name: &[u8], bytes: &mut [u8], words: &mut [u32], at: Place) -> Result<Place, Told>
    requires { Reached bytes.old words.old at.held at.count at.lines at.left }
    ensures { IfOk result (λ r. Reached bytes.new words.new r.held r.count r.lines r.left × (r.left ≡ at.left)) }
{
    let end = lines_end(&bytes[..at.held]);
    let whole = &bytes[..end];
    let count = input::text_words(name, at.lines, whole, &mut words[at.count..], Use::Log)?;
    let ended = lines::line_of(whole) - 1;
    bytes.copy_within(end..at.held, 0);
    Ok(Place {
        held: at.held - end,
        count: at.count + count,
        lines: at.lines + ended,
        left: at.left,
    })
}

// Takes the words of all that is held, where the file ends: how many words there are.
fn take_last(name: &[u8], bytes: &[u8], words: &mut [u32], at: Place) -> Result<usize, Told>
    requires { Reached bytes.now words.old at.held at.count at.lines at.left }
    ensures { IfOk result (λ n. IsFront n words.new) }
{
    let rest = &bytes[..at.held];
    let count = input::text_words(name, at.lines, rest, &mut words[at.count..], Use::Log)?;
    Ok(at.count + count)
}

// Takes the whole lines that are held with so many bytes more, unless one of them is wrong, a line fills the buffer or there are too many bytes.
fn take_more(
    name: &[u8],
    bytes: &mut [u8],
    words: &mut [u32],
    at: Place,
    more: usize,
) -> Result<Place, Told>
    requires { Reached bytes.old words.old at.held at.count at.lines at.left × (at.held + more ≤ length bytes.old) × (0 < more) }
    ensures { IfOk result (λ r. Reached bytes.new words.new r.held r.count r.lines r.left × (r.left < at.left)) }
{
    if at.left <= more {
        input::blame(name);
        paper::say(b": the file has 4,294,967,296 bytes or more\n");
        return Err(Told);
    }
    let with_more = Place {
        held: at.held + more,
        left: at.left - more,
        ..at
    };
    let next = take_lines(name, bytes, words, with_more)?;
    if next.held == bytes.len() {
        input::blame(name);
        paper::say_count(b", line ", next.lines + 1);
        paper::say(b": a line of a log has at most 65,535 bytes\n");
        return Err(Told);
    }
    Ok(next)
}

// The words of an open file, piece by piece: how many they are.
fn read_pieces<F: Read>(name: &[u8], file: &mut F, words: &mut [u32]) -> Result<usize, Told>
    ensures { IfOk result (λ n. IsFront n words.new) }
{
    let mut bytes = io::large_buffer();
    let mut place = Place {
        held: 0,
        count: 0,
        lines: 0,
        left: MOST_BYTES,
    };
    loop {
        let more = refill(file, name, &mut bytes, place.held)?;
        if more == 0 {
            return take_last(name, &bytes, words, place);
        }
        place = take_more(name, &mut bytes, words, place, more)?;
    }
}

// The words of the log that an argument names.
pub fn words<'a, R: Env + Files + Input>(
    rt: &R,
    i: usize,
    words: &'a mut [u32],
) -> Result<&'a [u32], Told>
    ensures { IfOk result (λ log. length log.now ≤ length words.old) }
{
    let mut name = io::buffer();
    let k = host::arg(rt, i, &mut name);
    let name = &name[..k];
    let mut file = input::open(rt, i, name)?;
    let n = read_pieces(name, &mut file, words)?;
    Ok(&words[..n])
}

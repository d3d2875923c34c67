// What the program is given: its arguments, and the files and word lists that they name. What cannot be read is said in one sentence on standard error.
ghost use Rattle.std.specs.Prelude.{◌<◌, ◌≤◌, IfOk, length};
ghost use Rattle.rules.specs.Problem.{WellFormed, most_words};
ghost use Rattle.files.specs.Reading.{IsFront, most_bytes};

use origin::Subject;
use problem::{HEAD_BYTES, Layout};
use reasons::Call;
use std::io::{Error, Read, Result as IoResult};
use std::rt::{Env, Files};
use wordlist::hints::Hint;
use wordlist::{hints, lines};

// The most words of a word list.
pub const LIST_WORDS: usize = 1024;

// That there is nothing to go on with: why not has been said on standard error.
#[derive(Clone, Copy)]
pub struct Told;

// The words of a word list, and the text that has them.
#[derive(Clone, Copy)]
pub struct List<'a> {
    pub words: &'a [u32],
    pub text: &'a [u8],
}

// A problem file, and the text that a person wrote of it; that is empty for a problem file.
#[derive(Clone, Copy)]
pub struct Source<'a> {
    pub file: &'a [u8],
    pub text: &'a [u8],
}

// So many items of a buffer, or all of them.
pub fn within<T>(n: usize, items: &[T]) -> usize
    ensures front { IsFront result items.now }
    ensures most { result ≤ n }
{
    n.min(items.len())
}

// ---- files

// Says on standard error what the system has against a file, by its name.
pub fn fail(name: &[u8], e: &Error) -> Told {
    paper::say(b"ttplan: ");
    if is_dash(name) {
        host::fail(b"standard input", e);
    } else {
        host::fail(name, e);
    }
    Told
}

// The name of standard input.
const DASH: &[u8] = b"-";

// Whether a name is that of standard input.
pub fn is_dash(name: &[u8]) -> bool {
    name == DASH
}

// Whether an argument is this word.
fn is_at(rt: &impl Env, i: usize, word: &[u8]) -> bool {
    let mut name = io::buffer();
    let n = host::arg(rt, i, &mut name);
    &name[..n] == word
}

// Whether standard input was read before argument i is: it is read once, and closed to an argument that comes behind. `extend` reads its argument 2 last.
fn is_spent(rt: &impl Env, i: usize) -> bool {
    let order: [usize; 3] = if is_at(rt, 1, b"extend") {
        [3, 4, 2]
    } else {
        [2, 3, 4]
    };
    for k in order {
        if k == i {
            return false;
        }
        if is_at(rt, k, DASH) {
            return true;
        }
    }
    false
}

// What the system says of an input that is closed.
const CLOSED: i32 = 9;

// What there is to read under a name.
#[derive(Drop)]
pub enum Opened<F: Drop, I: Drop> {
    File(F),
    Input(I),
}

impl<F: Read + Drop, I: Read + Drop> Read for Opened<F, I> {
    fn read(&mut self, bytes: &mut [u8]) -> IoResult<usize> {
        match self {
            Opened::File(file) => file.read(bytes),
            Opened::Input(input) => input.read(bytes),
        }
    }
}

// Opens the file of this name, which argument i has, for reading; a dash is standard input.
pub fn open<R: Env + Files + Input>(
    rt: &R,
    i: usize,
    name: &[u8],
) -> Result<Opened<R::File, R::Reader>, Told> {
    if is_dash(name) {
        if is_spent(rt, i) {
            return Err(fail(name, &Error::from_raw_os_error(CLOSED)));
        }
        return Ok(Opened::Input(rt.reader()));
    }
    match host::open_read(rt, name) {
        Ok(file) => Ok(Opened::File(file)),
        Err(e) => Err(fail(name, &e)),
    }
}

// The bytes of an open file. One byte more is asked for, which tells a file that cannot be read, or is too long, from one that ends.
fn read_open<'a, F: Read>(file: &mut F, name: &[u8], bytes: &'a mut [u8]) -> Result<&'a [u8], Told>
    ensures { IfOk result (λ read. length read.now ≤ length bytes.old) }
{
    let n = host::read_full(file, bytes);
    let mut more = [0u8; 1];
    match file.read(&mut more) {
        Ok(0) => Ok(&bytes[..n]),
        Ok(_) => {
            blame(name);
            paper::say(b": the file is longer than 65,536 bytes\n");
            Err(Told)
        }
        Err(e) => Err(fail(name, &e)),
    }
}

// The bytes of the file of this name, which argument i has; a dash is standard input.
fn read<'a, R: Env + Files + Input>(
    rt: &R,
    i: usize,
    name: &[u8],
    bytes: &'a mut [u8],
) -> Result<&'a [u8], Told>
    ensures { IfOk result (λ read. length read.now ≤ length bytes.old) }
{
    let mut file = open(rt, i, name)?;
    read_open(&mut file, name, bytes)
}

// ---- word lists

// What a word list is read for. Placements to keep may be none; a log has many words.
#[derive(Clone, Copy)]
pub enum Use {
    List,
    Kept,
    Log,
}

// What a dash stands for: for none among placements to keep, and elsewhere it is no word.
fn dash(to: Use) -> Option<u32> {
    match to {
        Use::Kept => Some(kept::NONE as u32),
        _ => None,
    }
}

// Begins a sentence on standard error with the name of a file.
pub fn blame(name: &[u8]) {
    paper::say(b"ttplan: ");
    origin::say_name(name);
}

// That a list has a word too many.
fn say_full(to: Use) {
    match to {
        Use::Log => paper::say(b": more than 422,402 words, where at most 422,400 can be due\n"),
        _ => paper::say(b": a word list has at most 1,024 words\n"),
    }
}

// The most bytes of a word that are shown.
const SHOWN: usize = 32;

// A byte as it is shown: one that a terminal might obey is a question mark.
fn shown(b: u8) -> u8 {
    match b {
        0..32 | 127 => b'?',
        _ => b,
    }
}

// Shows a word, or the front of a long one.
fn say_word(word: &[u8]) {
    paper::say(b": ");
    for b in word.iter().take(SHOWN) {
        paper::say(&[shown(*b)]);
    }
    if SHOWN < word.len() {
        paper::say(b"..");
    }
}

// What is wrong with a word that is no number.
fn sentence(hint: Hint) -> &'static [u8] {
    match hint {
        Hint::File => b": a problem file, where a word list is due; ttplan words makes one of it",
        Hint::Utf16 => b": the text is UTF-16; save it as UTF-8 or as plain text",
        Hint::NoBreakSpace => b": a no-break space; write a plain space",
        Hint::Comma => b": a comma; only white space parts numbers, and they have no comma in them",
        Hint::Point =>
            b": a decimal point; numbers are whole, and times are network time units (bit times)",
        Hint::Unit =>
            b": a unit; times are whole network time units (bit times), written without one",
        Hint::Large => b": larger than 4,294,967,295, the largest number",
        Hint::Dash => b": a - is for none, in a kept list (replan) alone",
        Hint::Sign => b": no number is below 0",
        Hint::Prefix => b": hexadecimal digits have 0x in front",
        Hint::Other => b": not a whole number, decimal or with 0x in front hexadecimal",
    }
}

// What is wrong with the word at a place of a text, which is no number.
fn say_wrong(text: &[u8], at: usize, to: Use)
    requires { at < length text.now }
{
    let word = &text[at..wordlist::word_end(text, at)];
    let hint = hints::hint_of(text, word);
    match hint {
        Hint::File | Hint::Utf16 | Hint::NoBreakSpace => {}
        _ => say_word(word),
    }
    paper::say(sentence(hint));
    if let Use::Kept = to {
        paper::say(b"; a - by itself is none");
    }
    paper::say(b"\n");
}

// Says where the word behind a text stands. So many lines are before the text.
fn say_where(name: &[u8], lines: usize, before: &[u8])
    requires { lines ≤ most_bytes }
{
    blame(name);
    paper::say_count(b", line ", lines + lines::line_of(before));
    paper::say_count(b", character ", lines::column_of(before));
}

// Puts the words of a text that has so many lines before it, in the file of this name, into the front of a buffer: how many they are.
pub fn text_words(
    name: &[u8],
    lines: usize,
    text: &[u8],
    words: &mut [u32],
    to: Use,
) -> Result<usize, Told>
    requires { lines ≤ most_bytes }
    ensures { IfOk result (λ n. IsFront n words.new) }
{
    match wordlist::parse_with(text, words, dash(to)) {
        Ok(n) => Ok(n),
        Err(stop) => {
            say_where(name, lines, &text[..stop.at]);
            if stop.count == words.len() {
                say_full(to);
            } else {
                say_wrong(text, stop.at, to);
            }
            Err(Told)
        }
    }
}

// The words of the word list that an argument names, and its text.
pub fn words<'a, R: Env + Files + Input>(
    rt: &R,
    i: usize,
    text: &'a mut [u8],
    words: &'a mut [u32],
    to: Use,
) -> Result<List<'a>, Told>
    ensures { IfOk result (λ list. (length list.words.now ≤ length words.old) × (length list.text.now ≤ length text.old)) }
{
    let mut name = io::buffer();
    let k = host::arg(rt, i, &mut name);
    let text = read(rt, i, &name[..k], text)?;
    let n = text_words(&name[..k], 0, text, words, to)?;
    Ok(List {
        words: &words[..n],
        text,
    })
}

// The number that an argument is, if it is one that a word has room for.
pub fn number(rt: &impl Env, i: usize) -> Option<u32> {
    let mut digits = [0u8; 16];
    match host::arg(rt, i, &mut digits) {
        0 => None,
        n => wordlist::number(&digits[..n]),
    }
}

// ---- problems

// Whether bytes begin with the mark of a problem file.
fn has_mark(bytes: &[u8]) -> bool {
    3 <= bytes.len() && reader::is_marked(bytes)
}

// The words of a problem file, in a buffer that is large enough; why it is refused is said.
pub fn decoded<'a>(rt: &impl Env, file: &[u8], words: &'a mut [u32]) -> Result<&'a [u32], Told>
    requires { most_words ≤ length words.old }
    ensures prefix { IfOk result (λ p. length p.now ≤ length words.old) }
    ensures well_formed { IfOk result (λ p. WellFormed p.now) }
{
    match reader::decode(file, words) {
        Ok(n) => Ok(&words[..n]),
        Err(q) => {
            reasons::of_file(rt, q, Call::on(file));
            Err(Told)
        }
    }
}

// The version of a problem file; one that is too short to say it is refused elsewhere.
pub fn layout(file: &[u8]) -> Layout {
    if file.len() < HEAD_BYTES {
        Layout::One
    } else {
        reader::layout_in(file)
    }
}

// Writes the file of a problem's words, which a text has, over the bytes lent, or says why they are refused.
pub fn written<'a>(
    rt: &impl Env,
    words: &[u32],
    text: &[u8],
    bytes: &'a mut [u8],
    subject: Subject,
) -> Result<&'a [u8], Told>
    ensures { IfOk result (λ file. length file.now ≤ length bytes.old) }
{
    match writer::write(words, bytes) {
        Ok(n) => Ok(&bytes[..within(n, bytes)]),
        Err(q) => {
            reasons::of_words(rt, q, words, text, subject);
            Err(Told)
        }
    }
}

// The problem file that an argument names, no more of it than there is room for, and its text. A name that ends in .tsm and a file that begins with the mark
// are problem files; anything else is a word list, of which the file is made here.
pub fn problem<'a, R: Env + Files + Input>(
    rt: &R,
    subject: Subject,
    text: &'a mut [u8],
    bytes: &'a mut [u8],
) -> Result<Source<'a>, Told>
    ensures { IfOk result (λ source. (length source.file.now ≤ length bytes.old) × (length source.text.now ≤ length text.old)) }
{
    let mut name = io::buffer();
    let i = subject.problem_at();
    let m = host::arg(rt, i, &mut name);
    let name = &name[..m];
    let text = read(rt, i, name, text)?;
    if name.ends_with(b".tsm") || has_mark(text) {
        return Ok(Source {
            file: &text[..within(bytes.len(), text)],
            text: &[],
        });
    }
    let mut words = [0u32; LIST_WORDS];
    let n = text_words(name, 0, text, &mut words, Use::List)?;
    let file = written(rt, &words[..n], text, bytes, subject)?;
    Ok(Source { file, text })
}

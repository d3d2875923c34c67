// From a problem file to its words.
#![tactic(auto)]

ghost use Rattle.std.specs.Prelude.{◌≡◌, ◌∷◌, ◌++◌, ◌+◌, ◌*◌, ◌<◌, ◌≤◌, length, get_or, drop};
ghost use Rattle.basics.specs.Runs.{Turned};
ghost use Rattle.rules.specs.Problem.{header_words, words_for, most_words};
ghost use Rattle.problem.specs.Bytes.{two, four};
ghost use Rattle.problem.specs.Layout.{kind_of, identifier_of, column_size, column_of, rest_of, message_size, message_of};
ghost use Rattle.problem.specs.File.{head_bytes, header_of, layout_in, columns_in, messages_in, words_in};
ghost use Rattle.problem.specs.Wrong.{marked, head_fault};
ghost use Rattle.reader.specs.Promise.{Taken, Decoded, Reading};
ghost use Rattle.reader.specs.Parts.{Sized};

use basics::FILL;
use problem::Layout;
use problem::layout::{
    bytes_for, column_size, identifier_size, is_version, layout_of, message_size,
};
use problem::recast::{column_words, recast, said_for};
use rules::{Refusal, refuse_if, words};
use wellformed::{header_fault, words_fault};

// The number that two bytes are.
pub fn two_bytes(s: &[u8], at: usize) -> u32
    requires { at + 2 ≤ length s.now }
    ensures { (result ≡ two s.now at) × (result < 65536) }
{
    u32::from(s[at]) * 256 + u32::from(s[at + 1])
}

// The number that four bytes are.
fn four_bytes(s: &[u8], at: usize) -> u32
    requires { at + 4 ≤ length s.now }
    ensures { result ≡ four s.now at }
{
    two_bytes(s, at) * 65536 + two_bytes(s, at + 2)
}

// Whether the file starts with the mark.
pub fn is_marked(file: &[u8]) -> bool
    requires { 3 ≤ length file.now }
    ensures { result ≡ marked file.now }
{
    file.starts_with(b"TSM")
}

// The header's seven words.
pub fn read_header(file: &[u8], words: &mut [u32])
    requires { (head_bytes ≤ length file.now) × (length words.old ≡ header_words) }
    ensures { words.new ≡ header_of file.now }
{
    words[words::ROWS] = u32::from(file[problem::ROWS_AT]);
    words[words::CYCLE] = two_bytes(file, problem::CYCLE_AT);
    words[words::REF_LEN] = two_bytes(file, problem::REF_LEN_AT);
    words[words::REF_ID] = two_bytes(file, problem::REF_ID_AT);
    words[words::LIMIT] = u32::from(file[problem::LIMIT_AT]);
    words[words::COLUMNS] = u32::from(file[problem::COLUMNS_AT]);
    words[words::MESSAGES] = u32::from(file[problem::MESSAGES_AT]);
}

// The kind in a column's record.
fn kind_in(layout: Layout, bytes: &[u8]) -> u32
    requires { length bytes.now ≡ column_size layout }
    ensures { result ≡ kind_of layout bytes.now }
{
    match layout {
        Layout::One => 0,
        Layout::Two => u32::from(bytes[4]),
    }
}

// A column's record, as three words.
fn read_column(layout: Layout, bytes: &[u8], words: &mut [u32])
    requires { (length bytes.now ≡ column_size layout) × (length words.old ≡ 3) }
    ensures { words.new ≡ column_of layout bytes.now }
{
    words[words::START] = two_bytes(bytes, 0);
    words[words::WIDTH] = two_bytes(bytes, 2);
    words[words::KIND] = kind_in(layout, bytes);
}

// The column records, each handed on as a part.
fn read_columns(layout: Layout, part: &[u8], k: usize, words: &mut [u32])
    requires { (column_size layout * k ≤ length part.now) × (3 * k ≤ length words.old) × (k ≤ 32) }
    ensures { Turned (column_of layout) (column_size layout) 3 part.now words.old k words.new }
{
    let size = column_size(layout);
    for c in 0..k {
        let from = size * c;
        let to = words::COLUMN_WORDS * c;
        read_column(
            layout,
            &part[from..from + size],
            &mut words[to..to + words::COLUMN_WORDS],
        );
    }
}

// The identifier in a message's record.
fn identifier_in(layout: Layout, bytes: &[u8]) -> u32
    requires { 4 ≤ length bytes.now }
    ensures { result ≡ identifier_of layout bytes.now }
{
    match layout {
        Layout::One => two_bytes(bytes, 0),
        Layout::Two => four_bytes(bytes, 0),
    }
}

// The 16 bytes behind a message's identifier, as the six words behind it.
fn read_rest(bytes: &[u8], words: &mut [u32])
    requires { (length bytes.now ≡ 16) × (length words.old ≡ 7) }
    ensures { words.new ≡ get_or words.old 0 0 ∷ rest_of bytes.now }
{
    words[words::SENDER] = u32::from(bytes[0]);
    words[words::SIZE] = u32::from(bytes[1]);
    words[words::RECEIVERS] = two_bytes(bytes, 2);
    words[words::PERIOD] = four_bytes(bytes, 4);
    words[words::OFFSET] = four_bytes(bytes, 8);
    words[words::DEADLINE] = four_bytes(bytes, 12);
}

// A message's record, as seven words.
fn read_message(layout: Layout, bytes: &[u8], words: &mut [u32])
    requires { (length bytes.now ≡ message_size layout) × (length words.old ≡ 7) }
    ensures { words.new ≡ message_of layout bytes.now }
{
    let behind = identifier_size(layout);
    read_rest(&bytes[behind..], words);
    words[words::IDENTIFIER] = identifier_in(layout, bytes);
}

// The message records, each handed on as a part.
fn read_messages(layout: Layout, part: &[u8], m: usize, words: &mut [u32])
    requires { (message_size layout * m ≤ length part.now) × (7 * m ≤ length words.old) × (m ≤ 64) }
    ensures { Turned (message_of layout) (message_size layout) 7 part.now words.old m words.new }
{
    let size = message_size(layout);
    for j in 0..m {
        let from = size * j;
        let to = words::MESSAGE_WORDS * j;
        read_message(
            layout,
            &part[from..from + size],
            &mut words[to..to + words::MESSAGE_WORDS],
        );
    }
}

// The layout of the version that the file says.
pub fn layout_in(file: &[u8]) -> Layout
    requires { head_bytes ≤ length file.now }
    ensures { result ≡ layout_in file.now }
{
    layout_of(two_bytes(file, problem::VERSION_AT))
}

// How many columns the file says that it has.
pub fn columns_in(file: &[u8]) -> usize
    requires { head_bytes ≤ length file.now }
    ensures { (result ≡ columns_in file.now) × (result < 256) }
{
    usize::from(file[problem::COLUMNS_AT])
}

// How many messages the file says that it has.
pub fn messages_in(file: &[u8]) -> usize
    requires { head_bytes ≤ length file.now }
    ensures { (result ≡ messages_in file.now) × (result < 256) }
{
    usize::from(file[problem::MESSAGES_AT])
}

// What is wrong with the header or the length.
fn head_fault(file: &[u8]) -> Result<(), Refusal>
    ensures { result ≡ head_fault file.now }
{
    refuse_if(file.len() < problem::HEAD_BYTES, Refusal::Length)?;
    refuse_if(!is_marked(file), Refusal::Mark)?;
    let version = two_bytes(file, problem::VERSION_AT);
    refuse_if(!is_version(version), Refusal::Version)?;
    let mut head = [0u32; words::HEADER_WORDS];
    read_header(file, &mut head);
    header_fault(&head)?;
    refuse_if(
        file[problem::LAST_AT] != 0,
        Refusal::Header(problem::LAST_AT as u32),
    )?;
    let bytes = bytes_for(layout_of(version), columns_in(file), messages_in(file));
    refuse_if(file.len() != bytes, Refusal::Length)
}

// The words of a file whose header and length are right, in front of what the buffer holds.
fn read_words(layout: Layout, file: &[u8], k: usize, m: usize, words: &mut [u32])
    requires { Sized layout file.now k m × (most_words ≤ length words.old) }
    ensures { words.new ≡ words_in layout file.now ++ drop (words_for k m) words.old }
{
    read_header(file, &mut words[..words::HEADER_WORDS]);
    read_columns(
        layout,
        &file[problem::HEAD_BYTES..],
        k,
        &mut words[words::HEADER_WORDS..],
    );
    let from = bytes_for(layout, k, 0);
    let to = words::column_at(k);
    read_messages(layout, &file[from..], m, &mut words[to..]);
}

// The words of a file whose header and length are right, in the front of a buffer that is large enough for any problem, or the refusal. The words are not tested.
pub fn words_in(file: &[u8], words: &mut [u32]) -> Result<usize, Refusal>
    requires { most_words ≤ length words.old }
    ensures { Taken file.now words.new result }
{
    head_fault(file)?;
    let k = columns_in(file);
    let m = messages_in(file);
    read_words(layout_in(file), file, k, m, words);
    Ok(words::message_at(k, m))
}

// A file's words in the front of a buffer that is large enough for any problem, or the refusal.
pub fn decode(file: &[u8], words: &mut [u32]) -> Result<usize, Refusal>
    requires { most_words ≤ length words.old }
    ensures { Decoded file.now words.new result }
{
    let n = words_in(file, words)?;
    words_fault(&words[..n], columns_in(file), messages_in(file))?;
    Ok(n)
}

// Reads a problem file of either version into the caller's buffer, which keeps its words beyond the problem's.
pub fn read(file: &[u8], words: &mut [u32]) -> Result<usize, Refusal>
    ensures { Reading file.now words.old words.new result }
{
    let mut buffer = [FILL; words::MOST_WORDS];
    // Document 01 names let .. else for this place.
    let got = decode(file, &mut buffer);
    let Ok(n) = got else {
        return got;
    };
    let said = column_words(layout_in(file));
    let k = columns_in(file);
    let m = messages_in(file);
    let count = said_for(said, k, m);
    if words.len() < count {
        return Err(Refusal::Room);
    }
    recast(&buffer[..n], words::COLUMN_WORDS, said, k, m, words);
    Ok(count)
}

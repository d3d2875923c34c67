// From a problem's words to its file.
#![tactic(auto)]

ghost use Rattle.std.specs.Prelude.{◌≡◌, [], ◌∷◌, ◌++◌, ◌+◌, ◌-◌, ◌*◌, ◌≤◌, length, drop};
ghost use Rattle.std.proofs.lemmas.List.Edits.{sets};
ghost use Rattle.basics.specs.Runs.{Turned};
ghost use Rattle.rules.specs.Problem.{header_words, most_words, columns, messages, WellFormed};
ghost use Rattle.problem.specs.Bytes.{low, high, third, top};
ghost use Rattle.problem.specs.Layout.{kind_bytes, identifier_bytes, column_size, column_bytes, rest_bytes, message_size, message_bytes};
ghost use Rattle.problem.specs.File.{head_bytes, bytes_for, header_bytes, file_of};
ghost use Rattle.problem.specs.Callers.{layout_by};
ghost use Rattle.problem.specs.Wrong.{count_fault};
ghost use Rattle.problem.specs.Parts.{Counted};
ghost use Rattle.writer.specs.Promise.{Taken, Laying, Writing};

use basics::FILL;
use problem::Layout;
use problem::layout::{bytes_for, column_size, identifier_size, message_size, version_of};
use problem::recast::{column_words, recast, said_for};
use rules::{Refusal, refuse_if, words};
use wellformed::{header_fault, words_fault};

// The last N bytes of a number.
fn put<const N: usize>(out: &mut [u8], at: usize, x: u32)
    requires { (N ≤ 4) × (at + N ≤ length out.old) }
    ensures { out.new ≡ sets out.old at (drop (4 - N) (top x ∷ third x ∷ high x ∷ low x ∷ [])) }
{
    out[at..at + N].copy_from_slice(&x.to_be_bytes()[4 - N..]);
}

// The mark.
fn put_mark(out: &mut [u8])
    requires { 3 ≤ length out.old }
    ensures { out.new ≡ sets out.old 0 (84 ∷ 83 ∷ 77 ∷ []) }
{
    out[..3].copy_from_slice(b"TSM");
}

// The header's 16 bytes.
fn write_header(layout: Layout, words: &[u32], out: &mut [u8])
    requires { (header_words ≤ length words.now) × (length out.old ≡ head_bytes) }
    ensures { out.new ≡ header_bytes layout words.now }
{
    put_mark(out);
    put::<2>(out, problem::VERSION_AT, version_of(layout));
    put::<1>(out, problem::ROWS_AT, words[words::ROWS]);
    put::<2>(out, problem::CYCLE_AT, words[words::CYCLE]);
    put::<2>(out, problem::REF_LEN_AT, words[words::REF_LEN]);
    put::<2>(out, problem::REF_ID_AT, words[words::REF_ID]);
    put::<1>(out, problem::LIMIT_AT, words[words::LIMIT]);
    put::<1>(out, problem::COLUMNS_AT, words[words::COLUMNS]);
    put::<1>(out, problem::MESSAGES_AT, words[words::MESSAGES]);
    out[problem::LAST_AT] = 0;
}

// A column's kind, where the version has a byte for it.
fn put_kind(layout: Layout, out: &mut [u8], x: u32)
    requires { length out.old ≡ column_size layout }
    ensures { out.new ≡ sets out.old 4 (kind_bytes layout x) }
{
    if let Layout::Two = layout {
        put::<1>(out, 4, x);
    }
}

// A column's three words, as its record.
fn write_column(layout: Layout, words: &[u32], out: &mut [u8])
    requires { (length words.now ≡ 3) × (length out.old ≡ column_size layout) }
    ensures { out.new ≡ column_bytes layout words.now }
{
    put::<2>(out, 0, words[words::START]);
    put::<2>(out, 2, words[words::WIDTH]);
    put_kind(layout, out, words[words::KIND]);
}

// The columns' words, each three handed on as a part.
fn write_columns(layout: Layout, part: &[u32], k: usize, out: &mut [u8])
    requires { (3 * k ≤ length part.now) × (column_size layout * k ≤ length out.old) × (k ≤ 32) }
    ensures { Turned (column_bytes layout) 3 (column_size layout) part.now out.old k out.new }
{
    let size = column_size(layout);
    for c in 0..k {
        let from = words::COLUMN_WORDS * c;
        let to = size * c;
        write_column(
            layout,
            &part[from..from + words::COLUMN_WORDS],
            &mut out[to..to + size],
        );
    }
}

// A message's identifier.
fn put_identifier(layout: Layout, out: &mut [u8], x: u32)
    requires { 4 ≤ length out.old }
    ensures { out.new ≡ sets out.old 0 (identifier_bytes layout x) }
{
    match layout {
        Layout::One => put::<2>(out, 0, x),
        Layout::Two => put::<4>(out, 0, x),
    }
}

// The six words behind a message's identifier, as the 16 bytes behind it.
fn write_rest(words: &[u32], out: &mut [u8])
    requires { (length words.now ≡ 7) × (length out.old ≡ 16) }
    ensures { out.new ≡ rest_bytes words.now }
{
    put::<1>(out, 0, words[words::SENDER]);
    put::<1>(out, 1, words[words::SIZE]);
    put::<2>(out, 2, words[words::RECEIVERS]);
    put::<4>(out, 4, words[words::PERIOD]);
    put::<4>(out, 8, words[words::OFFSET]);
    put::<4>(out, 12, words[words::DEADLINE]);
}

// A message's seven words, as its record.
fn write_message(layout: Layout, words: &[u32], out: &mut [u8])
    requires { (length words.now ≡ 7) × (length out.old ≡ message_size layout) }
    ensures { out.new ≡ message_bytes layout words.now }
{
    put_identifier(layout, out, words[words::IDENTIFIER]);
    let behind = identifier_size(layout);
    write_rest(words, &mut out[behind..]);
}

// The messages' words, each seven handed on as a part.
fn write_messages(layout: Layout, part: &[u32], m: usize, out: &mut [u8])
    requires { (7 * m ≤ length part.now) × (message_size layout * m ≤ length out.old) × (m ≤ 64) }
    ensures { Turned (message_bytes layout) 7 (message_size layout) part.now out.old m out.new }
{
    let size = message_size(layout);
    for j in 0..m {
        let from = words::MESSAGE_WORDS * j;
        let to = size * j;
        write_message(
            layout,
            &part[from..from + words::MESSAGE_WORDS],
            &mut out[to..to + size],
        );
    }
}

// The file of words without a fault, in front of what the buffer holds.
fn write_file(layout: Layout, words: &[u32], k: usize, m: usize, out: &mut [u8])
    requires { Counted words.now k m × (bytes_for layout k m ≤ length out.old) }
    ensures { out.new ≡ file_of layout words.now ++ drop (bytes_for layout k m) out.old }
{
    write_header(layout, words, &mut out[..problem::HEAD_BYTES]);
    write_columns(
        layout,
        &words[words::HEADER_WORDS..],
        k,
        &mut out[problem::HEAD_BYTES..],
    );
    let from = words::column_at(k);
    let to = bytes_for(layout, k, 0);
    write_messages(layout, &words[from..], m, &mut out[to..]);
}

// A well-formed problem as a file of a version, in front of what the buffer holds, if there is room.
pub fn lay(layout: Layout, problem: &[u32], file: &mut [u8]) -> Result<usize, Refusal>
    requires { WellFormed problem.now }
    ensures { Laying layout problem.now file.old file.new result }
{
    let k = words::columns_of(problem);
    let m = words::messages_of(problem);
    let n = bytes_for(layout, k, m);
    if file.len() < n {
        return Err(Refusal::Room);
    }
    write_file(layout, problem, k, m, file);
    Ok(n)
}

// The version that the count of a caller's words tells.
fn layout_by(words: &[u32], k: usize, m: usize) -> Layout
    requires { (k ≡ columns words.now) × (m ≡ messages words.now) × (k ≤ 32) × (m ≤ 64) }
    ensures { result ≡ layout_by words.now }
{
    if words.len() == said_for(column_words(Layout::One), k, m) {
        return Layout::One;
    }
    Layout::Two
}

// What is wrong with the count of a caller's words, or with their header.
fn count_fault(words: &[u32]) -> Result<(), Refusal>
    ensures { result ≡ count_fault words.now }
{
    refuse_if(words.len() < words::HEADER_WORDS, Refusal::Length)?;
    header_fault(words)?;
    let k = words[words::COLUMNS] as usize;
    let m = words[words::MESSAGES] as usize;
    let said = column_words(layout_by(words, k, m));
    refuse_if(words.len() != said_for(said, k, m), Refusal::Length)
}

// The problem that a caller's words are, in the front of a buffer that is large enough for any, or the refusal. Behind their header the words are not tested.
pub fn problem_in(words: &[u32], problem: &mut [u32]) -> Result<usize, Refusal>
    requires { most_words ≤ length problem.old }
    ensures { Taken words.now problem.new result }
{
    count_fault(words)?;
    let k = words[words::COLUMNS] as usize;
    let m = words[words::MESSAGES] as usize;
    let said = column_words(layout_by(words, k, m));
    recast(words, said, words::COLUMN_WORDS, k, m, problem);
    Ok(words::message_at(k, m))
}

// Writes a problem's words as a file, of the version that their count tells, into the caller's buffer, which keeps its bytes beyond the file's.
pub fn write(words: &[u32], file: &mut [u8]) -> Result<usize, Refusal>
    ensures { Writing words.now file.old file.new result }
{
    let mut buffer = [FILL; words::MOST_WORDS];
    let n = problem_in(words, &mut buffer)?;
    let k = words[words::COLUMNS] as usize;
    let m = words[words::MESSAGES] as usize;
    let problem = &buffer[..n];
    words_fault(problem, k, m)?;
    lay(layout_by(words, k, m), problem, file)
}

// The words of columns between callers, who see two or three by the version, and a problem, which has three.
ghost use Rattle.std.specs.Prelude.{◌≡◌, ◌++◌, ◌*◌, ◌≤◌, length, get_or, drop};
ghost use Rattle.basics.specs.Runs.{front, Turned};
ghost use Rattle.problem.specs.Callers.{column_words, said_for, recast as recasted};
ghost use Rattle.problem.specs.Parts.{Said};

use crate::layout::Layout;
use basics::copy_words;
use rules::words;

// How many words a caller has for a column.
pub fn column_words(layout: Layout) -> usize
    ensures { (result ≡ column_words layout) × (2 ≤ result) × (result ≤ 3) }
{
    match layout {
        Layout::One => 2,
        Layout::Two => 3,
    }
}

// So many words are k columns, of n each, and m messages.
pub fn said_for(n: usize, k: usize, m: usize) -> usize
    requires { (n ≤ 3) × (k ≤ 32) × (m ≤ 64) }
    ensures { result ≡ said_for n k m }
{
    words::HEADER_WORDS + n * k + words::MESSAGE_WORDS * m
}

// The kind that a column's words say; one that is not said is 0.
fn said_kind(from: &[u32]) -> u32
    ensures { result ≡ get_or from.now 2 0 }
{
    from.get(words::KIND).copied().unwrap_or(0)
}

// A column's words, as many as there is room for.
fn recast_column(from: &[u32], to: &mut [u32])
    requires { (2 ≤ length from.now) × (2 ≤ length to.old) × (length to.old ≤ 3) }
    ensures { to.new ≡ front (length to.old) from.now }
{
    let room = to.len();
    to[words::START] = from[words::START];
    to[words::WIDTH] = from[words::WIDTH];
    if words::KIND < room {
        to[words::KIND] = said_kind(from);
    }
}

// The words of the columns, a of each to be b of each.
fn recast_columns(part: &[u32], a: usize, b: usize, k: usize, out: &mut [u32])
    requires { (a * k ≤ length part.now) × (b * k ≤ length out.old) × (2 ≤ a) × (a ≤ 3) × (2 ≤ b) × (b ≤ 3) × (k ≤ 32) }
    ensures { Turned (front b) a b part.now out.old k out.new }
{
    for c in 0..k {
        let from = a * c;
        let to = b * c;
        recast_column(&part[from..from + a], &mut out[to..to + b]);
    }
}

// Words with a for each column, as words with b, in front of what the buffer holds.
pub fn recast(words: &[u32], a: usize, b: usize, k: usize, m: usize, out: &mut [u32])
    requires { Said words.now a k m × (2 ≤ b) × (b ≤ 3) × (said_for b k m ≤ length out.old) }
    ensures { out.new ≡ recasted a b words.now ++ drop (said_for b k m) out.old }
{
    copy_words(
        &words[..words::HEADER_WORDS],
        &mut out[..words::HEADER_WORDS],
    );
    recast_columns(
        &words[words::HEADER_WORDS..],
        a,
        b,
        k,
        &mut out[words::HEADER_WORDS..],
    );
    let from = said_for(a, k, 0);
    let to = said_for(b, k, 0);
    copy_words(&words[from..], &mut out[to..]);
}

// The places that messages may take, as a table: by themselves, in cells that are not taken, and beside a message that is placed.
#![tactic(auto)]

mod plannable;

ghost use Rattle.std.specs.Prelude.{◌≡◌, ◌*◌, ◌<◌, ◌≤◌};
ghost use Rattle.rules.specs.Problem.{most_rows, most_columns, messages, repeat};
ghost use Rattle.rules.specs.Parts.{Member};
ghost use Rattle.places.specs.Places.{most_planned, table_at, table_words, Allowed, Allows, Beside, Copied, FirstRow};

pub use plannable::Plannable;
use rules::{placing, words};

// The most messages that are planned, and the words of a table: one for each message and row. A table and the set `left` of messages that it is asked for stay two
// parameters: as one struct, each function that writes the table would have to promise besides that the set stays.
pub const MOST_PLANNED: usize = 16;

pub const TABLE_WORDS: usize = words::MOST_ROWS * MOST_PLANNED;

// The words of a plan: as many as the longest proposal that is planned has.
pub const PLAN_WORDS: usize = 2 * MOST_PLANNED;

// Where a table has the word of message j and row i. It is one list of words, as specs/ has it, and not an array of arrays, whose laws would speak of two.
pub fn table_at(j: usize, i: usize) -> usize
    requires { (j < most_planned) × (i < most_rows) }
    ensures { (result ≡ table_at j i) × (result < table_words) }
{
    words::MOST_ROWS * j + i
}

// The columns in which message j may stand with base row r.
pub fn allowed_in(
    p: &[u32],
    taken: &[u32; words::MOST_ROWS],
    j: usize,
    step: usize,
    r: usize,
) -> u32
    requires { Member p.now j × (step ≡ repeat p.now j) × (r < step) }
    ensures { Allowed p.now taken.now j r result }
{
    let mut x: u32 = 0;
    for c in 0..words::columns_of(p) {
        if placing::own_fault(p, j, step, c, r).is_ok() {
            x = basics::with_bit(x, c as u32);
        }
    }
    row_words::free_in(taken, words::rows_of(p), step, r, x)
}

// The columns in which each message may stand with each base row, as a table.
pub fn allowed(p: &Plannable, taken: &[u32; words::MOST_ROWS], table: &mut [u32; TABLE_WORDS])
    ensures { Allows p.now taken.now table.new }
{
    for j in 0..p.messages() {
        let step = p.step(j);
        for r in 0..step {
            table[table_at(j, r)] = allowed_in(p.words(), taken, j, step, r);
        }
    }
}

// Copies the words of each message of `left`.
pub fn copy(p: &Plannable, table: &[u32; TABLE_WORDS], left: u32, to: &mut [u32; TABLE_WORDS])
    ensures copied { Copied p.now left table.now to.new }
{
    for j in 0..p.messages() {
        if basics::has_bit(left, j as u32) {
            for r in 0..p.step(j) {
                let k = table_at(j, r);
                to[k] = table[k];
            }
        }
    }
}

// Takes out of the table what meets message m at column c and base row r.
fn strike(p: &Plannable, table: &mut [u32; TABLE_WORDS], left: u32, m: usize, c: usize, r: usize)
    requires m_bound { (m < messages p.now) × (c < most_columns) }
    ensures beside { Beside p.now left m c r table.old table.new }
{
    for j in 0..p.messages() {
        if basics::has_bit(left, j as u32) {
            let step = p.step(j);
            let common = p.step(m).min(step);
            for i in (r % common..step).step_by(common) {
                let k = table_at(j, i);
                table[k] = basics::clear_bit(table[k], c as u32);
            }
        }
    }
}

// The table with what the messages of `left` may take beside message m at column c and base row r.
pub fn beside(
    p: &Plannable,
    table: &[u32; TABLE_WORDS],
    left: u32,
    m: usize,
    c: usize,
    r: usize,
    to: &mut [u32; TABLE_WORDS],
)
    requires m_bound { (m < messages p.now) × (c < most_columns) }
    ensures beside { Beside p.now left m c r table.now to.new }
{
    copy(p, table, left, to);
    strike(p, to, left, m, c, r);
}

// The first base row with a place of message j, of `step`.
pub fn first_row(table: &[u32; TABLE_WORDS], j: usize, step: usize) -> Option<usize>
    requires { (j < most_planned) × (step ≤ most_rows) }
    ensures { FirstRow table.now j step result }
{
    for r in 0..step {
        if table[table_at(j, r)] != 0 {
            return Some(r);
        }
    }
    None
}

// How many places message j has.
pub fn count_of(table: &[u32; TABLE_WORDS], j: usize, step: usize) -> usize
    requires { (j < most_planned) × (step ≤ most_rows) }
    ensures { result ≤ most_rows * most_columns }
{
    let mut n = 0;
    for r in 0..step {
        n += basics::ones_of(table[table_at(j, r)]) as usize;
    }
    n
}

// Notes that message j finds room at column c and base row r.
pub fn note(seen: &mut [u32; PLAN_WORDS], j: usize, c: u32, r: usize)
    requires { (j < most_planned) × (r < most_rows) }
{
    seen[2 * j] = c;
    seen[2 * j + 1] = r as u32;
}

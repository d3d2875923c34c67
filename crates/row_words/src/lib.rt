// Row words: the occupied columns of a row as one word.
#![tactic(auto)]

ghost use Rattle.std.specs.Prelude.{◌≡◌, ◌<◌, ◌≤◌, length};
ghost use Rattle.rules.specs.Problem.{most_rows, most_columns};
ghost use Rattle.row_words.specs.RowWords.{Without, FreeIn, Occupied};

use rules::words;

// Sets column c in the rows r, r + step, r + 2 step and so on. Whether it was set in one of them before.
pub fn occupy(
    taken: &mut [u32; words::MOST_ROWS],
    rows: usize,
    step: usize,
    c: usize,
    r: usize,
) -> bool
    requires rows_le_most_rows { (rows ≤ most_rows) × (1 ≤ step) × (step ≤ most_rows) × (c < most_columns) × (r < most_rows) }
    requires taken_len { length taken.old ≡ most_rows }
    ensures { Occupied taken.old c r step rows taken.new result }
{
    let column = c as u32;
    let mut seen: u32 = 0;
    for i in (r..rows).step_by(step) {
        let x = taken[i];
        let y = basics::with_bit(x, column);
        seen |= x;
        taken[i] = y;
    }
    basics::has_bit(seen, column)
}

// The columns of x that y does not have.
fn without(x: u32, y: u32) -> u32
    ensures { Without x y result }
{
    x & !y
}

// The columns of x that are set in none of the rows r, r + step, r + 2 step and so on.
pub fn free_in(taken: &[u32; words::MOST_ROWS], rows: usize, step: usize, r: usize, x: u32) -> u32
    requires { (rows ≤ most_rows) × (1 ≤ step) × (step ≤ most_rows) × (r < most_rows) }
    ensures { FreeIn taken.now r step rows x result }
{
    let mut free = x;
    for row in (r..rows).step_by(step) {
        free = without(free, taken[row]);
    }
    free
}

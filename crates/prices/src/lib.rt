// Prices on cells: a place that costs more than the cells are worth, once each other message has its cheapest place, is in nothing without a fault.
// Nothing is asked of the prices.
#![tactic(auto)]

ghost use Rattle.std.specs.Prelude.{◌≡◌, ◌*◌, ◌<◌, ◌≤◌};
ghost use Rattle.rules.specs.Problem.{most_rows, most_columns, rows, messages};
ghost use Rattle.places.specs.Places.{most_planned};
ghost use Rattle.prices.specs.Prices.{cell_at, most_cells, dearest, worth_in, worth, row_worth, most_worth, JointIn, Joint};
ghost use Rattle.prices.specs.Prices.{sum_at, most_sums, Halved, Sums, Cheap, Owed, PaidIn, Paid};

use places::Plannable;
use rules::words;

// The cells of the largest matrix.
pub const CELLS: usize = words::MOST_ROWS * words::MOST_COLUMNS;

// What each cell costs before prices are sought: 1, which is filled in place, where 0 is a call of memset.
pub const FIRST_PRICE: u16 = 1;

// The words of the sums of prices: for each power s of two up to the rows, and each base row below it, one a column.
pub const SUMS: usize = 2 * CELLS;

// More than any place costs: at most 64 cells at the highest price, 65,535.
pub const DEAREST: u32 = 4194304;

// A place and at most what it costs.
#[derive(Drop)]
pub struct Offer {
    pub cost: u32,
    pub column: u32,
    pub row: usize,
}

// Where the price of the cell in row i and column c stands. Prices and sums are one list each, as specs/ has them, like the tables of places.
pub fn cell_at(i: usize, c: usize) -> usize
    requires { (i < most_rows) × (c < most_columns) }
    ensures { (result ≡ cell_at i c) × (result < most_cells) }
{
    words::MOST_COLUMNS * i + c
}

// Where the sum of column c in the rows r, r + s, .. stands.
pub fn sum_at(s: usize, r: usize, c: usize) -> usize
    requires { (s ≤ most_rows) × (r < s) × (c < most_columns) }
    ensures { (result ≡ sum_at s r c) × (result < most_sums) }
{
    words::MOST_COLUMNS * (s + r) + c
}

// The columns of row i in which a message of `left` may be sent.
fn joint_in(p: &Plannable, table: &[u32; places::TABLE_WORDS], left: u32, i: usize) -> u32
    requires i_lt_most_rows { i < most_rows }
    ensures { JointIn p.now table.now left i (messages p.now) result }
{
    let mut x: u32 = 0;
    for j in 0..p.messages() {
        if basics::has_bit(left, j as u32) {
            x |= table[places::table_at(j, i % p.step(j))];
        }
    }
    x
}

// The same for each row.
pub fn joint(
    p: &Plannable,
    table: &[u32; places::TABLE_WORDS],
    left: u32,
) -> [u32; words::MOST_ROWS]
    ensures { Joint p.now table.now left (rows p.now) result }
{
    let mut u = [0u32; words::MOST_ROWS];
    for i in 0..p.rows() {
        u[i] = joint_in(p, table, left, i);
    }
    u
}

// What the cells in the columns x of row i are worth.
fn worth_in(prices: &[u16; CELLS], i: usize, x: u32) -> u64
    requires { i < most_rows }
    ensures { (worth_in prices.now i x ≤ result) × (result ≤ row_worth) }
{
    let mut t: u64 = 0;
    for c in basics::digits_of(x) {
        t += u64::from(prices[cell_at(i, c as usize)]);
    }
    t
}

// What the cells u are worth.
pub fn worth_of(p: &Plannable, prices: &[u16; CELLS], u: &[u32; words::MOST_ROWS]) -> u64
    ensures { (worth prices.now (rows p.now) u.now ≤ result) × (result ≤ most_worth) }
{
    let mut t: u64 = 0;
    for i in 0..p.rows() {
        t += worth_in(prices, i, u[i]);
    }
    t
}

// The sums for a power of two from those for the next: they stand from n on, for n words, the others behind them.
fn halve(sums: &mut [u32; SUMS], n: usize)
    requires { 4 * n ≤ most_sums }
    ensures { Halved n sums.old sums.new }
{
    for k in 0..n {
        sums[n + k] = sums[2 * n + k].wrapping_add(sums[3 * n + k]);
    }
}

// The sums of the prices, for each power of two.
pub fn add_up(p: &Plannable, prices: &[u16; CELLS], sums: &mut [u32; SUMS])
    ensures { Sums p.now prices.now sums.new }
{
    let mut n = words::MOST_COLUMNS * p.rows();
    for k in 0..n {
        sums[n + k] = u32::from(prices[k]);
    }
    // n is halved: no range steps so
    while words::MOST_COLUMNS < n {
        n = n / 2;
        halve(sums, n);
    }
}

// The cheapest place of message j. A message without a place has DEAREST and the first cell, and not an option: the number is used as a bound all the same, and
// the look-ahead finds out by itself that there is no place.
pub fn cheapest(
    table: &[u32; places::TABLE_WORDS],
    sums: &[u32; SUMS],
    j: usize,
    step: usize,
) -> Offer
    requires { (j < most_planned) × (step ≤ most_rows) }
    ensures { Cheap table.now sums.now j step result.cost × (result.column < most_columns) × (result.row < most_rows) }
{
    let mut cost = DEAREST;
    let mut column: u32 = 0;
    let mut row = 0;
    for r in 0..step {
        for c in basics::digits_of(table[places::table_at(j, r)]) {
            let s = sums[sum_at(step, r, c as usize)];
            if s < cost {
                cost = s;
                column = c;
                row = r;
            }
        }
    }
    Offer { cost, column, row }
}

// The columns of x in which a place with base row r costs, with `others`, at most so much.
fn paid_in(sums: &[u32; SUMS], step: usize, r: usize, x: u32, others: u64, most: u64) -> u32
    requires { (step ≤ most_rows) × (r < step) × (others ≤ dearest * most_planned) }
    ensures { PaidIn sums.now step r others most x result }
{
    let mut kept = x;
    for c in basics::digits_of(x) {
        if most < others + u64::from(DEAREST.min(sums[sum_at(step, r, c as usize)])) {
            kept = basics::clear_bit(kept, c);
        }
    }
    kept
}

// Takes out every place that costs more than the cells are worth once each other message has its cheapest place: all, if even the cheapest places
// cost more together. Whether there was one.
pub fn narrow(
    p: &Plannable,
    table: &mut [u32; places::TABLE_WORDS],
    left: u32,
    sums: &[u32; SUMS],
    least: &[u32; places::MOST_PLANNED],
    cost: u64,
    worth: u64,
) -> bool
    requires owed { Owed p.now table.old sums.now left (messages p.now) least.now cost }
    requires worth_le_most_worth { worth ≤ most_worth }
    ensures paid { Paid p.now sums.now left least.now cost worth table.old table.new }
{
    let mut some = false;
    for j in 0..p.messages() {
        if basics::has_bit(left, j as u32) {
            let step = p.step(j);
            let most = worth + u64::from(least[j]);
            for r in 0..step {
                let k = places::table_at(j, r);
                let x = table[k];
                let z = paid_in(sums, step, r, x, cost, most);
                table[k] = z;
                some |= z != x;
            }
        }
    }
    some
}

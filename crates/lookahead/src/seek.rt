// How prices are found: what several messages want becomes dearer, what nobody wants cheaper. Nothing is promised of the prices.
ghost use Rattle.std.specs.Prelude.{◌+◌, ◌*◌, ◌<◌, ◌≤◌};
ghost use Rattle.rules.specs.Problem.{most_rows, most_columns, messages};
ghost use Rattle.places.specs.Places.{most_planned, Few, Narrowed};
ghost use Rattle.prices.specs.Prices.{most_price, row_worth, most_worth, Owed};

use places::Plannable;
use rules::words;

// How many steps the prices make before the search goes on: more of them found little more on the problems that were climbed for it.
const ROUNDS: usize = 16;

// What a message spreads over its places at the start: much, so that a whole number is a fine step. Cells that are worth less have no prices yet.
const SCALE: u32 = 16384;

const UNPRICED: u64 = SCALE as u64;

// By how much a step aims beyond a proof, so that it does not creep towards it.
const BEYOND: u64 = 1024;

// The highest price, and how far one moves at most.
const MOST_PRICE: u32 = 65535;

// What the cheapest places of some messages cost together, and whether two of them meet.
#[derive(Drop)]
struct Wanted {
    cost: u64,
    clash: bool,
}

// Counts one use more of each cell of a place, as far as a byte counts. Whether one was used before.
fn mark(uses: &mut [u8; prices::CELLS], rows: usize, step: usize, c: usize, r: usize) -> bool
    requires { (rows ≤ most_rows) × (1 ≤ step) × (step ≤ most_rows) × (c < most_columns) }
{
    let mut clash = false;
    for i in (r..rows).step_by(step) {
        let k = prices::cell_at(i, c);
        let n = uses[k];
        clash |= n != 0;
        uses[k] = n.saturating_add(1);
    }
    clash
}

// The cheapest place of each message of `left`, what it costs, and how often each cell is used by them.
fn survey(
    p: &Plannable,
    table: &[u32; places::TABLE_WORDS],
    left: u32,
    sums: &[u32; prices::SUMS],
    least: &mut [u32; places::MOST_PLANNED],
    uses: &mut [u8; prices::CELLS],
    seen: &mut [u32; places::PLAN_WORDS],
) -> Wanted
    ensures owed { Owed p.now table.now sums.now left (messages p.now) least.new result.cost }
    ensures few { Few p.now }
{
    let rows = p.rows();
    let mut cost: u64 = 0;
    let mut clash = false;
    for j in 0..p.messages() {
        if basics::has_bit(left, j as u32) {
            let step = p.step(j);
            let offer = prices::cheapest(table, sums, j, step);
            clash |= mark(uses, rows, step, offer.column as usize, offer.row);
            least[j] = offer.cost;
            cost += u64::from(offer.cost);
            places::note(seen, j, offer.column, offer.row);
        }
    }
    Wanted { cost, clash }
}

// How far a step moves the sums by a cell of this price: the square of its uses beyond one.
fn weight(price: u16, uses: u8) -> u64
    ensures { result ≤ most_price }
{
    if uses == 0 {
        return u64::from(price != 0);
    }
    let beyond = u64::from(uses) - 1;
    beyond * beyond
}

// By the cells in the columns x of row i. It isn't one function with what those are worth: that promises a number for each cell, and this only a bound for all.
fn weight_in(prices: &[u16; prices::CELLS], uses: &[u8; prices::CELLS], i: usize, x: u32) -> u64
    requires { i < most_rows }
    ensures { result ≤ row_worth }
{
    let mut n: u64 = 0;
    for c in basics::digits_of(x) {
        let k = prices::cell_at(i, c as usize);
        n += weight(prices[k], uses[k]);
    }
    n
}

// By the cells u.
fn weight_of(
    p: &Plannable,
    prices: &[u16; prices::CELLS],
    uses: &[u8; prices::CELLS],
    u: &[u32; words::MOST_ROWS],
) -> u64 {
    let mut n: u64 = 0;
    for i in 0..p.rows() {
        n += weight_in(prices, uses, i, u[i]);
    }
    n
}

// How far a price moves in a step that is to close this gap.
fn share(gap: u64, weight: u64) -> u32
    requires { gap ≤ most_worth + 1 }
    ensures { result ≤ most_price }
{
    if weight == 0 {
        return 1;
    }
    ((gap + BEYOND) / weight).clamp(1, u64::from(MOST_PRICE)) as u32
}

// A price, more by d where there is room.
fn raised(price: u16, d: u32) -> u16
    requires { d ≤ 256 * most_price }
{
    (u32::from(price) + d).min(MOST_PRICE) as u16
}

// A price behind a step: less by d where nobody uses the cell, more by d for each use beyond one.
fn moved(price: u16, uses: u8, d: u32) -> u16
    requires { d ≤ most_price }
{
    if uses == 0 {
        return u32::from(price).saturating_sub(d) as u16;
    }
    raised(price, (u32::from(uses) - 1) * d)
}

// A step of all prices of the cells u.
fn step(
    p: &Plannable,
    prices: &mut [u16; prices::CELLS],
    uses: &[u8; prices::CELLS],
    u: &[u32; words::MOST_ROWS],
    d: u32,
)
    requires d_le_most_price { d ≤ most_price }
{
    for i in 0..p.rows() {
        for c in basics::digits_of(u[i]) {
            let k = prices::cell_at(i, c as usize);
            prices[k] = moved(prices[k], uses[k], d);
        }
    }
}

// Each place of message j costs d more in every cell. The walk is that of `step`: closures for its columns and for the new price would be longer than its two lines.
fn spread(
    p: &Plannable,
    table: &[u32; places::TABLE_WORDS],
    prices: &mut [u16; prices::CELLS],
    j: usize,
    step: usize,
    d: u32,
)
    requires j_lt_most_planned { (j < most_planned) × (1 ≤ step) × (step ≤ most_rows) × (d ≤ most_price) }
{
    for i in 0..p.rows() {
        for c in basics::digits_of(table[places::table_at(j, i % step)]) {
            let k = prices::cell_at(i, c as usize);
            prices[k] = raised(prices[k], d);
        }
    }
}

// The first prices: each message spreads SCALE over its places.
fn start(
    p: &Plannable,
    table: &[u32; places::TABLE_WORDS],
    left: u32,
    prices: &mut [u16; prices::CELLS],
) {
    for j in 0..p.messages() {
        if basics::has_bit(left, j as u32) {
            let step = p.step(j);
            let n = places::count_of(table, j, step) as u32;
            if n != 0 {
                spread(p, table, prices, j, step, SCALE / n);
            }
        }
    }
}

// How much more the cells are worth than the places cost, counted from 1; 0 if they are worth less.
fn ahead(worth: u64, cost: u64) -> u64
    requires { worth ≤ most_worth }
    ensures { result ≤ most_worth + 1 }
{
    (worth + 1).saturating_sub(cost)
}

// Prices are sought and places ruled out. True if the cheapest places meet nowhere: then `seen` has them.
pub fn tighten(
    p: &Plannable,
    table: &mut [u32; places::TABLE_WORDS],
    left: u32,
    prices: &mut [u16; prices::CELLS],
    seen: &mut [u32; places::PLAN_WORDS],
) -> bool
    ensures narrowed { Narrowed p.now left table.old table.new }
{
    let mut sums = [basics::FILL; prices::SUMS];
    let mut least = [0u32; places::MOST_PLANNED];
    let mut u = prices::joint(p, table, left);
    // no round has come nearer yet
    let mut nearest = u64::MAX;
    for _ in 0..ROUNDS {
        let mut uses = [0u8; prices::CELLS];
        prices::add_up(p, prices, &mut sums);
        let found = survey(p, table, left, &sums, &mut least, &mut uses, seen);
        if !found.clash {
            return true;
        }
        let worth = prices::worth_of(p, prices, &u);
        let gap = ahead(worth, found.cost);
        if gap < nearest {
            nearest = gap;
            if prices::narrow(p, table, left, &sums, &least, found.cost, worth) {
                if gap == 0 {
                    return false;
                }
                u = prices::joint(p, table, left);
                nearest = u64::MAX;
            }
        }
        if worth < UNPRICED {
            start(p, table, left, prices);
        } else {
            let d = share(gap, weight_of(p, prices, &uses, &u));
            step(p, prices, &uses, &u, d);
        }
    }
    false
}

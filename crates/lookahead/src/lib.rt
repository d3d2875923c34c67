// The planner's look-ahead: whether the messages still unplaced may all find room.
#![tactic(auto)]

use places::Plannable;
use rules::words;

mod seek;

ghost use Rattle.std.specs.Prelude.{◌<◌};
ghost use Rattle.rules.specs.Problem.{messages};
ghost use Rattle.basics.specs.Bits.{Has};
ghost use Rattle.places.specs.Places.{Narrowed};
ghost use Rattle.lookahead.specs.Probe.{Picked, Cautious};

// No node tries more: one place of the message that is picked first, and each place of the one that is picked behind the look for prices.
const MOST_TRIES: usize = 1 + words::MOST_ROWS * words::MOST_COLUMNS;

// More than the rows of any message, so that fewer places count before fewer rows.
const PLACE: usize = 128;

// A message of `left` with the fewest places, of these one that is sent most often, if `left` has one.
fn pick(p: &Plannable, table: &[u32; places::TABLE_WORDS], left: u32) -> Option<usize>
    ensures { Picked p.now left result }
{
    let mut best = None;
    let mut least = usize::MAX;
    for j in 0..p.messages() {
        if basics::has_bit(left, j as u32) {
            let step = p.step(j);
            let rank = PLACE * places::count_of(table, j, step) + step;
            if rank < least {
                best = Some(j);
                least = rank;
            }
        }
    }
    best
}

// What to go on with once a place of message m has failed: m if that was its last, else, behind a look for prices, the message that then has the fewest places, or
// none if the cheapest places of all meet nowhere.
fn turn(
    p: &Plannable,
    table: &mut [u32; places::TABLE_WORDS],
    left: u32,
    m: usize,
    prices: &mut [u16; prices::CELLS],
    seen: &mut [u32; places::PLAN_WORDS],
) -> Option<usize>
    requires m_bound { (m < messages p.now) × Has left m }
    ensures picked { Picked p.now left result × Narrowed p.now left table.old table.new }
{
    if places::first_row(table, m, p.step(m)).is_none() {
        return Some(m);
    }
    if seek::tighten(p, table, left, prices, seen) {
        return None;
    }
    pick(p, table, left)
}

// Whether the messages of `left` may all find room within the table, which it uses up: false only where they cannot. The message with the fewest places is tried first. On
// the way down no prices are asked for: a node looks for them once, when its first place has failed. Where they find it is noted in place, one message a node: an option
// of a whole plan would be copied at each.
fn possible(
    p: &Plannable,
    table: &mut [u32; places::TABLE_WORDS],
    left: u32,
    prices: &mut [u16; prices::CELLS],
    seen: &mut [u32; places::PLAN_WORDS],
    deep: usize,
) -> bool
    ensures cautious { Cautious p.now table.old left result }
{
    if deep == 0 {
        return true;
    }
    let mut next = [basics::FILL; places::TABLE_WORDS];
    let mut picked = pick(p, table, left);
    for tries in 0..MOST_TRIES {
        let Some(m) = picked else {
            return true;
        };
        let Some(r) = places::first_row(table, m, p.step(m)) else {
            return false;
        };
        let k = places::table_at(m, r);
        let c = basics::lowest(table[k]);
        let rest = basics::clear_bit(left, m as u32);
        places::beside(p, table, rest, m, c as usize, r, &mut next);
        if possible(p, &mut next, rest, prices, seen, deep - 1) {
            places::note(seen, m, c, r);
            return true;
        }
        table[k] = basics::clear_bit(table[k], c);
        if tries == 0 {
            picked = turn(p, table, left, m, prices, seen);
        }
    }
    true
}

// Whether the messages of `left`, at most `deep`, may all find room within the table: false only where they cannot. If they do, `seen` has where.
pub fn has_room(
    p: &Plannable,
    table: &[u32; places::TABLE_WORDS],
    left: u32,
    prices: &mut [u16; prices::CELLS],
    seen: &mut [u32; places::PLAN_WORDS],
    deep: usize,
) -> bool
    ensures { Cautious p.now table.now left result }
{
    let mut own = [basics::FILL; places::TABLE_WORDS];
    places::copy(p, table, left, &mut own);
    possible(p, &mut own, left, prices, seen, deep)
}

// The planner: the least acceptable proposal, of all or of those that keep some placements, or that there is none.
#![tactic(auto)]

ghost use Rattle.std.specs.Prelude.{◌≡◌, ◌<◌, ◌≤◌, MatchOption, length};
ghost use Rattle.rules.specs.Problem.{most_rows, messages, WellFormed};
ghost use Rattle.places.specs.Places.{most_planned, Few};
ghost use Rattle.planner.specs.Search.{unplanned, From, Begun, Columns, Fitting, Full, Suiting, Searched};
ghost use Rattle.planner.specs.Least.{Decides};
ghost use Rattle.planner.specs.Promise.{unready, Answered, Planning, unready_again, AnsweredAgain, Replanning};
ghost use Rattle.planner.specs.Complete.{Sound, Completes};

pub use places::PLAN_WORDS;
use places::Plannable;
use rest::Group;
use rules::{Refusal, refuse_if, words};

// The messages from `at` on, as a set.
fn unplaced(at: usize, count: usize) -> u32
    requires { count ≤ most_planned }
    ensures { From at count result }
{
    let mut left: u32 = 0;
    for j in at..count {
        left = basics::with_bit(left, j as u32);
    }
    left
}

// Whether message j stands in a plan at column c and base row r.
fn stands_at(plan: &[u32; PLAN_WORDS], j: usize, c: u32, r: usize) -> bool
    requires { j < most_planned }
{
    plan[2 * j] == c && plan[2 * j + 1] as usize == r
}

// Where the messages from `at` on find room: as `seen` has it where that is known, else as the look-ahead finds it, unless it finds that there is none.
fn room_from(
    p: &Plannable,
    table: &[u32; places::TABLE_WORDS],
    prices: &mut [u16; prices::CELLS],
    seen: Option<&[u32; PLAN_WORDS]>,
    at: usize,
) -> Option<[u32; PLAN_WORDS]>
    requires { at ≤ messages p.now }
    ensures { MatchOption result (Full p.now table.now at) (λ room. Unit {0}) }
{
    if let Some(room) = seen {
        return Some(*room);
    }
    let count = p.messages();
    let left = unplaced(at, count);
    let mut room = [0u32; PLAN_WORDS];
    if lookahead::has_room(p, table, left, prices, &mut room, count - at) {
        Some(room)
    } else {
        None
    }
}

// The columns in which message j has a place, with one of its base rows or another.
fn columns_in(table: &[u32; places::TABLE_WORDS], j: usize, step: usize) -> u32
    requires { (j < most_planned) × (step ≤ most_rows) }
    ensures { Columns table.now j step result }
{
    let mut columns: u32 = 0;
    for r in 0..step {
        columns |= table[places::table_at(j, r)];
    }
    columns
}

// The least proposal that begins with the placements of the first `at` messages, or that there is none. The search calls itself on the
// messages still unplaced, whose number falls by one at each call. Where it is known that they find room, `seen` has it.
// What changes with each call stays four parameters: a struct of them would be made and taken apart at once, in the code and in each clause. The placements go by
// value, as document 01 has it; what is seen is lent, since each frame would hold it twice, and the header says how much stack a call takes.
fn search(
    p: &Plannable,
    table: &[u32; places::TABLE_WORDS],
    prices: &mut [u16; prices::CELLS],
    plan: [u32; PLAN_WORDS],
    seen: Option<&[u32; PLAN_WORDS]>,
    at: usize,
) -> Option<[u32; PLAN_WORDS]>
    requires { Begun p.now table.now at plan }
    ensures { Searched (Fitting p.now table.now at) (messages p.now) at plan result }
{
    let count = p.messages();
    if count <= at {
        return Some(plan);
    }
    let room = room_from(p, table, prices, seen, at)?;
    let mut next = [basics::FILL; places::TABLE_WORDS];
    let rest = unplaced(at + 1, count);
    let step = p.step(at);
    for c in basics::digits_of(columns_in(table, at, step)) {
        for r in 0..step {
            if basics::has_bit(table[places::table_at(at, r)], c) {
                places::beside(p, table, rest, at, c as usize, r, &mut next);
                let mut longer = plan;
                kept::put(&mut longer, at, c, r as u32);
                let known = stands_at(&room, at, c, r).then_some(&room);
                if let Some(least) = search(p, &next, prices, longer, known, at + 1) {
                    return Some(least);
                }
            }
        }
    }
    None
}

// The least proposal without a fault that has none of the cells that are taken, or that there is none.
fn plan_around(p: &[u32], taken: &[u32; words::MOST_ROWS]) -> Option<[u32; PLAN_WORDS]>
    requires { Few p.now }
    ensures { Searched (Suiting p.now taken.now) (messages p.now) 0 unplanned result }
{
    let problem = Plannable::of(p);
    let mut table = [basics::FILL; places::TABLE_WORDS];
    places::allowed(&problem, taken, &mut table);
    let mut prices = [prices::FIRST_PRICE; prices::CELLS];
    search(&problem, &table, &mut prices, [0u32; PLAN_WORDS], None, 0)
}

// Whether a problem has a plan.
pub fn has_plan(p: &[u32]) -> bool
    requires { Few p.now }
    ensures { Decides p.now result }
{
    plan_around(p, &[0u32; words::MOST_ROWS]).is_some()
}

// Writes the least acceptable proposal of a problem, or says why not.
fn plan_words(p: &[u32], proposal: &mut [u32]) -> Result<usize, Refusal>
    requires { WellFormed p.now }
    ensures { Answered (unready p.now proposal.old) p.now proposal.old proposal.new result }
{
    refuse_if(
        places::MOST_PLANNED < words::messages_of(p),
        Refusal::TooMany,
    )?;
    let n = words::proposal_words(p);
    refuse_if(proposal.len() < n, Refusal::Room)?;
    let Some(plan) = plan_around(p, &[0u32; words::MOST_ROWS]) else {
        return Err(Refusal::NoPlan);
    };
    basics::copy_words(&plan[..n], proposal);
    Ok(n)
}

// The least plan that keeps the kept placements, or that there is none: the other messages are a problem of their own, planned around the cells of the kept ones.
fn complete(
    p: &[u32],
    kept: &[u32],
    taken: &[u32; words::MOST_ROWS],
    group: &Group,
) -> Option<[u32; words::MOST_PROPOSAL]>
    requires { Sound p.now kept.now taken.now group.now (length group.now) }
    ensures { Completes p.now kept.now result }
{
    let mut words = [basics::FILL; rest::PART_WORDS];
    let part = rest::part_of(p, group, &mut words);
    let plan = plan_around(part, taken)?;
    Some(rest::joined(kept, group, &plan, words::messages_of(p)))
}

// Writes the least acceptable proposal of a problem that keeps the kept placements, or says why not.
fn replan_words(p: &[u32], kept: &[u32], proposal: &mut [u32]) -> Result<usize, Refusal>
    requires { WellFormed p.now }
    ensures { AnsweredAgain (unready_again p.now kept.now proposal.old) p.now kept.now proposal.old proposal.new result }
{
    let mut taken = [0u32; words::MOST_ROWS];
    proposal::kept_fault(p, kept, &mut taken)?;
    let group = rest::free_group(kept, words::messages_of(p))?;
    refuse_if(proposal.len() < kept.len(), Refusal::Room)?;
    let Some(whole) = complete(p, kept, &taken, &group) else {
        return Err(Refusal::NoPlan);
    };
    basics::copy_words(&whole[..kept.len()], proposal);
    Ok(kept.len())
}

// Plans the problem of a file: writes the least acceptable proposal into the caller's buffer, or says why not.
pub fn plan(file: &[u8], proposal: &mut [u32]) -> Result<usize, Refusal>
    ensures { Planning file.now proposal.old proposal.new result }
{
    let mut words = [basics::FILL; words::MOST_WORDS];
    // Document 01 names let .. else for this place.
    let got = reader::decode(file, &mut words);
    let Ok(n) = got else {
        return got;
    };
    plan_words(&words[..n], proposal)
}

// Plans the problem of a file again: writes the least acceptable proposal that keeps the kept placements into the caller's buffer, or says why not.
pub fn replan(file: &[u8], kept: &[u32], proposal: &mut [u32]) -> Result<usize, Refusal>
    ensures { Replanning file.now kept.now proposal.old proposal.new result }
{
    let mut words = [basics::FILL; words::MOST_WORDS];
    // Document 01 names let .. else for this place.
    let got = reader::decode(file, &mut words);
    let Ok(n) = got else {
        return got;
    };
    replan_words(&words[..n], kept, proposal)
}

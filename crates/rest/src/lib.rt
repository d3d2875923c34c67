// The messages without a kept placement: which they are, the problem that they make by themselves, and one proposal of what is kept and what is found for them.
#![tactic(auto)]

mod group;

ghost use Rattle.std.specs.Prelude.{◌≡◌, ◌+◌, ◌*◌, ◌<◌, ◌≤◌, IfOk, MatchResult, length};
ghost use Rattle.rules.specs.Problem.{WellFormed, messages as messageCount, most_messages};
ghost use Rattle.rules.specs.declared.Refusal.TheVariants.{TooMany};
ghost use Rattle.places.specs.Places.{most_planned};
ghost use Rattle.rest.specs.Free.{free_of, Free};
ghost use Rattle.rest.specs.Part.{Part, Numbers, Filed, part_words};
ghost use Rattle.rest.specs.Joined.{Joined};

pub use group::Group;
use rules::{Refusal, words};

// The words of the longest problem that is planned.
pub const PART_WORDS: usize = words::HEADER_WORDS
    + words::COLUMN_WORDS * words::MOST_COLUMNS
    + words::MESSAGE_WORDS * places::MOST_PLANNED;

// How many messages have no kept placement.
pub fn free_count(kept: &[u32], messages: usize) -> usize
    requires { (messages ≤ most_messages) × (length kept.now ≡ 2 * messages) }
    ensures { (result ≡ free_of kept.now messages) × (result ≤ most_messages) }
{
    let mut count = 0;
    for j in 0..messages {
        count += usize::from(!kept::keeps(kept, j));
    }
    count
}

// The messages without a kept placement, in file order, unless there are more than are planned.
pub fn free_group(kept: &[u32], messages: usize) -> Result<Group, Refusal>
    requires { (messages ≤ most_messages) × (length kept.now ≡ 2 * messages) }
    ensures free { IfOk result (λ g. Free kept.now messages g (length g)) }
    ensures count { MatchResult result (λ g. (length g ≡ free_of kept.now messages) × (length g ≤ most_planned)) (λ q. (q ≡ TooMany) × (most_planned < free_of kept.now messages)) }
{
    if places::MOST_PLANNED < free_count(kept, messages) {
        return Err(Refusal::TooMany);
    }
    let mut group = Group::none();
    for j in 0..messages {
        if !kept::keeps(kept, j) {
            group.add(j);
        }
    }
    Ok(group)
}

// Copies the record of message j to slot s of a problem with the same columns.
fn copy_message(p: &[u32], j: usize, s: usize, q: &mut [u32])
    requires { WellFormed p.now × (j < messageCount p.now) × (s < most_planned) × (part_words ≤ length q.old) }
    ensures { Filed p.now j s q.old q.new }
{
    let columns = words::columns_of(p);
    let from = words::message_at(columns, j);
    let to = words::message_at(columns, s);
    basics::copy_words(&p[from..from + words::MESSAGE_WORDS], &mut q[to..]);
}

// Some messages of a problem as a problem of their own, in a buffer that the caller lends.
pub fn part_of<'a>(p: &[u32], group: &Group, buffer: &'a mut [u32]) -> &'a [u32]
    requires well_formed { WellFormed p.now × Numbers p.now group.now (length group.now) }
    requires part_words_in_bounds { part_words ≤ length buffer.old }
    ensures { Part p.now group.now (length group.now) result.now }
{
    let columns = words::columns_of(p);
    let numbers = group.numbers();
    basics::copy_words(&p[..words::column_at(columns)], buffer);
    buffer[words::MESSAGES] = numbers.len() as u32;
    for (s, j) in numbers.iter().enumerate() {
        copy_message(p, *j, s, buffer);
    }
    &buffer[..words::message_at(columns, numbers.len())]
}

// One proposal of the kept placements and of a plan for the other messages.
pub fn joined(
    kept: &[u32],
    group: &Group,
    plan: &[u32; places::PLAN_WORDS],
    messages: usize,
) -> [u32; words::MOST_PROPOSAL]
    requires messages_le_most_messages { (messages ≤ most_messages) × (length kept.now ≡ 2 * messages) }
    requires free { Free kept.now messages group.now (length group.now) }
    ensures joined { Joined kept.now group.now (length group.now) plan.now messages result }
    ensures result_len { length result ≡ 2 * most_messages }
{
    let mut w = [0u32; words::MOST_PROPOSAL];
    basics::copy_words(kept, &mut w);
    for (s, j) in group.numbers().iter().enumerate() {
        kept::put(&mut w, *j, plan[2 * s], plan[2 * s + 1]);
    }
    w
}

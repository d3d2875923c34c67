// Why a problem has no plan: a smallest set of its messages that have none together, found by planning parts of it.
#![tactic(auto)]

ghost use Rattle.std.specs.Prelude.{◌≡◌, ◌≤◌, length};
ghost use Rattle.rules.specs.Problem.{WellFormed};
ghost use Rattle.places.specs.Places.{most_planned, Few};
ghost use Rattle.rest.specs.Part.{Numbers};
ghost use Rattle.crowd.specs.Crowd.{Explained};
ghost use Rattle.crowd.specs.Walk.{DecidesTogether, Counts, Without};

use rest::Group;
use rules::words;

// The messages 0, 1, 2 and so on, so many.
fn counted(count: usize) -> Group
    requires { count ≤ most_planned }
    ensures { (length result ≡ count) × Counts result count }
{
    let mut group = Group::none();
    for j in 0..count {
        group.add(j);
    }
    group
}

// A group without message j.
fn without(group: &Group, j: usize) -> Group
    ensures { Without group.now (length group.now) j result }
{
    let mut fewer = Group::none();
    for i in group.numbers() {
        if *i != j {
            fewer.add(*i);
        }
    }
    fewer
}

// Whether some messages of a problem have a plan together.
fn have_plan(p: &[u32], group: &Group) -> bool
    requires { WellFormed p.now × Numbers p.now group.now (length group.now) × (length group.now ≤ most_planned) }
    ensures { DecidesTogether p.now group.now (length group.now) result }
{
    let mut words = [basics::FILL; rest::PART_WORDS];
    planner::has_plan(rest::part_of(p, group, &mut words))
}

// A smallest set of messages that have no plan together, or no message where the problem has a plan. A message is dropped where the others that are left have no
// plan without it either; one pass is enough, since fewer messages are never harder to plan.
pub fn smallest(p: &[u32]) -> Group
    requires { Few p.now }
    ensures { Explained p.now result (length result) }
{
    if planner::has_plan(p) {
        return Group::none();
    }
    let messages = words::messages_of(p);
    let mut group = counted(messages);
    for j in 0..messages {
        let fewer = without(&group, j);
        if !have_plan(p, &fewer) {
            group = fewer;
        }
    }
    group
}

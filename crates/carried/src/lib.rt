// What an old plan has for the messages of a new problem, by their identifiers: the placements to keep when a line is extended.
#![tactic(auto)]

ghost use Rattle.std.specs.Prelude.{◌≡◌, ◌*◌, MatchOption, length};
ghost use Rattle.rules.specs.Problem.{WellFormed, messages as messageCount, most_messages};
ghost use Rattle.kept.specs.Kept.{none};
ghost use Rattle.carried.specs.Carried.{First, Unknown, Carries, Carried};

use rules::words;

// What a list of kept placements has twice for a message that it does not keep.
const NOWHERE: u32 = kept::NONE as u32;

// A column and a base row.
#[derive(Clone, Copy)]
struct Placement {
    column: u32,
    row: u32,
}

// The first message that has an identifier.
pub fn message_of(p: &[u32], identifier: usize) -> Option<usize>
    requires { WellFormed p.now }
    ensures { MatchOption result (Unknown p.now identifier) (First p.now identifier) }
{
    for i in 0..words::messages_of(p) {
        if words::identifier_of(p, i) == identifier {
            return Some(i);
        }
    }
    None
}

// The placement that a plan of a problem has for the message of an identifier.
fn placement_of(p: &[u32], w: &[u32], identifier: usize) -> Option<Placement>
    requires { WellFormed p.now }
    ensures { MatchOption result (Carries p.now w.now identifier none none) (λ at. Carries p.now w.now identifier at.column at.row) }
{
    let i = message_of(p, identifier)?;
    if !words::gives(w, i) {
        return None;
    }
    Some(Placement {
        column: words::column_of(w, i) as u32,
        row: words::row_of(w, i) as u32,
    })
}

// For each message of a problem the placement that a plan of an old problem has for the message of its identifier, or none.
pub fn carried(p: &[u32], old: &[u32], w: &[u32]) -> [u32; words::MOST_PROPOSAL]
    requires { WellFormed p.now × WellFormed old.now }
    ensures carried { Carried p.now old.now w.now result (messageCount p.now) }
    ensures result_len { length result ≡ 2 * most_messages }
{
    let mut k = [0u32; words::MOST_PROPOSAL];
    for j in 0..words::messages_of(p) {
        match placement_of(old, w, words::identifier_of(p, j)) {
            Some(at) => kept::put(&mut k, j, at.column, at.row),
            None => kept::put(&mut k, j, NOWHERE, NOWHERE),
        }
    }
    k
}

// Placements to keep: a list with two words for each message, a placement or none; and a message given a placement.
#![tactic(auto)]

ghost use Rattle.std.specs.Prelude.{◌≡◌};
ghost use Rattle.rules.specs.Problem.{Gives};
ghost use Rattle.kept.specs.Kept.{keeps as keepsMessage, put};

use rules::words;

// The word that stands twice where a message has no placement to keep. It stays a number: callers hand such lists over as words (the C interface).
pub const NONE: usize = 4294967295;

// Whether a list keeps message j. Half a none is a placement.
#[tactic(auto, unfolding(crate::specs::Kept::keeps))]
pub fn keeps(k: &[u32], j: usize) -> bool
    requires { Gives k.now j }
    ensures { result ≡ keepsMessage k.now j }
{
    words::column_of(k, j) != NONE || words::row_of(k, j) != NONE
}

// Gives message j column c and base row r.
pub fn put(w: &mut [u32], j: usize, c: u32, r: u32)
    requires { Gives w.old j }
    ensures { w.new ≡ put w.old j c r }
{
    w[2 * j] = c;
    w[2 * j + 1] = r;
}

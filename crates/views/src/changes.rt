// What a new plan changes, as comments behind it: which messages are new, kept and gone, and which nodes have another trigger list.
ghost use Rattle.rules.specs.Problem.{WellFormed};
ghost use Rattle.rules.specs.Parts.{Member};

use super::matrix::is_new;
use super::tables::list_of;
use rules::words;
use triggers::NODES;

// ---- messages

// What becomes of a message, its identifier and its placement.
fn message(fate: &[u8], p: &[u32], w: &[u32], j: usize)
    requires { Member p.now j }
{
    if !words::gives(w, j) {
        return;
    }
    paper::text(fate);
    paper::text_hex(b" ", words::identifier_of(p, j));
    paper::text_count(b" in column ", words::column_of(w, j));
    paper::text_count(b", base row ", words::row_of(w, j));
    paper::end_line();
}

// A line for each message of a problem that is new beside a list of placements to keep, or for each that is not. If there is none, that is said.
pub fn messages(fate: &[u8], p: &[u32], w: &[u32], kept: &[u32], is_wanted_new: bool)
    requires { WellFormed p.now }
{
    let mut is_any = false;
    for j in 0..words::messages_of(p) {
        if is_new(kept, j) == is_wanted_new {
            message(fate, p, w, j);
            is_any = true;
        }
    }
    if !is_any {
        paper::text(fate);
        paper::line(b" none");
    }
}

// ---- nodes

// The nodes that have the same trigger list in both, or those that have another.
pub fn nodes(
    heading: &[u8],
    old: &[u32; triggers::MOST_WORDS],
    new: &[u32; triggers::MOST_WORDS],
    is_wanted_same: bool,
) {
    paper::text(heading);
    let mut is_any = false;
    for n in 0..NODES {
        let has_stayed = list_of(old, n) == list_of(new, n);
        if has_stayed == is_wanted_same {
            paper::text_count(b" ", n);
            is_any = true;
        }
    }
    if !is_any {
        paper::text(b" none");
    }
    paper::end_line();
}

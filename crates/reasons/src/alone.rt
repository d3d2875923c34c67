// Why there is no plan: the messages that have no place even alone, beside what is kept, are named.
ghost use Rattle.std.specs.Prelude.{◌<◌, ◌≤◌};
ghost use Rattle.rules.specs.Parts.{Member};

use super::placements::Problem;
use broken::name;
use rules::words;

// Whether a list of placements to keep has one for message j.
fn is_kept(w: &[u32], j: usize) -> bool
    requires { j < 64 }
{
    words::gives(w, j) && kept::keeps(w, j)
}

// Whether message j has a place in cells that are not taken.
fn has_place(p: &[u32], taken: &[u32; words::MOST_ROWS], j: usize) -> bool
    requires { Member p.now j }
{
    let step = words::repeat_of(p, j);
    (0..step).any(|r| 0 < places::allowed_in(p, taken, j, step, r))
}

// Whether a column is as wide as the frame of message j.
fn fits_somewhere(p: &[u32], j: usize) -> bool
    requires { Member p.now j }
{
    let frame = words::frame_of(p, j);
    (0..words::columns_of(p)).any(|c| frame <= words::width_of(p, c))
}

// Why message j has no place: by itself, or because the kept messages have all of its places.
fn reason(p: &[u32], j: usize)
    requires { Member p.now j }
{
    if !fits_somewhere(p, j) {
        paper::say_count(
            b"no column is as wide as its frame, ",
            words::frame_of(p, j),
        );
    } else if !has_place(p, &[0u32; words::MOST_ROWS], j) {
        paper::say_count(
            b"wherever its frame fits it would end after its deadline, ",
            words::deadline_of(p, j),
        );
    } else {
        paper::say(b"kept messages have all of its places");
    }
}

// A line for message j, which has no place.
fn homeless(problem: &Problem, p: &[u32], j: usize)
    requires { Member p.now j }
{
    paper::say(b"\nno place even alone");
    problem.line_of(j);
    name(b", message ", j, words::identifier_of(p, j));
    paper::say(b": ");
    reason(p, j);
}

// A line for each message that has no place in cells that are not taken and no kept one, or that there is none.
pub fn show(problem: &Problem, taken: &[u32; words::MOST_ROWS]) {
    let p = problem.words();
    let mut is_any = false;
    for j in 0..words::messages_of(p) {
        if !is_kept(problem.placements(), j) && !has_place(p, taken, j) {
            homeless(problem, p, j);
            is_any = true;
        }
    }
    if !is_any {
        paper::say(b"; each message has a place alone, but not all of them together");
    }
}

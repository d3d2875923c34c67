// What a plan leaves: to each message behind its wait and its frame, and of the bus. Shares are in hundredths of a per cent.
#![tactic(auto)]

ghost use Rattle.std.specs.Prelude.{◌≡◌, ◌+◌, ◌≤◌};
ghost use Rattle.rules.specs.Problem.{lasts, period};
ghost use Rattle.rules.specs.Parts.{Member};
ghost use Rattle.margins.specs.Margins.{MarginAt, MarginOf};
ghost use Rattle.margins.specs.Shares.{Nearest, whole, most_part};

use losses::BusTime;
use rules::{placing, words};

// ---- a message

// How long each instance waits for its send, how long the frame takes, and what is left then of the deadline.
#[derive(Drop)]
pub struct Margin {
    pub wait: usize,
    pub frame: usize,
    pub slack: usize,
}

// What message j has at column c and base row r: no wait and no slack where it cannot stand there, as the promise says (MarginAt), so this is no Option.
fn margin_at(p: &[u32], j: usize, c: usize, r: usize) -> Margin
    requires { Member p.now j }
    ensures { MarginAt p.now j c r result }
{
    let frame = words::frame_of(p, j);
    if placing::own_fault(p, j, words::repeat_of(p, j), c, r).is_err() {
        return Margin {
            wait: 0,
            frame,
            slack: 0,
        };
    }
    let wait = placing::wait_of(p, j, c, r);
    Margin {
        wait,
        frame,
        slack: words::deadline_of(p, j) - wait - frame,
    }
}

// What message j has where a proposal places it. One that is cut short gives it nothing.
pub fn margin_of(p: &[u32], w: &[u32], j: usize) -> Margin
    requires { Member p.now j }
    ensures { MarginOf p.now w.now j result }
{
    if !words::gives(w, j) {
        return Margin {
            wait: 0,
            frame: words::frame_of(p, j),
            slack: 0,
        };
    }
    margin_at(p, j, words::column_of(w, j), words::row_of(w, j))
}

// ---- shares

// How many hundredths of a per cent a part is of the whole, to the nearest, a half up: twice as many and one, halved.
pub fn share(part: usize, whole: usize) -> usize
    requires { (part ≤ most_part) × (1 ≤ whole) }
    ensures { Nearest part whole result }
{
    (2 * part * paper::ALL / whole + 1) / 2
}

// The share of the bus that message j takes: its frame, once a period.
pub fn share_of(p: &[u32], j: usize) -> usize
    requires { Member p.now j }
    ensures { Nearest (lasts p.now j) (period p.now j) result }
{
    share(words::frame_of(p, j), words::period_of(p, j))
}

// All the time of one matrix cycle.
pub fn whole_of(t: BusTime) -> usize
    ensures { (result ≡ whole t) × (t.reference ≤ result) }
{
    t.reference as usize
        + t.used as usize
        + t.in_window as usize
        + t.empty as usize
        + t.gaps as usize
}

// The load of the bus: the share of the time in which a reference message or a frame is sent.
pub fn load_of(t: BusTime) -> usize
    requires { 1 ≤ t.reference }
    ensures { Nearest (t.reference + t.used) (whole t) result }
{
    share(t.reference as usize + t.used as usize, whole_of(t))
}

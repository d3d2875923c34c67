// The matrix of a plan as a picture (SVG) on standard output, to scale: a bar for each basic cycle, with what is sent in it and what is lost.
#![tactic(auto)]

mod axis;
mod cycles;
mod frames;
mod layout;
mod legend;
mod svg;

ghost use Rattle.std.specs.Prelude.{◌≤◌};
ghost use Rattle.rules.specs.Problem.{WellFormed};

use layout::Scale;
use losses::BusTime;
use rules::words;
use std::marker::Model;

// A problem, a proposal and the sheet that has the names, with the scale in which they are drawn. A clause sees it as the words of the problem.
#[derive(Drop)]
struct Picture<'a> {
    p: &'a [u32],
    w: &'a [u32],
    text: &'a [u8],
    scale: Scale,
}

impl<'a> Model for Picture<'a> {
    ghost use Rattle.std.specs.Prelude.{List, ℕ};
    ghost use Rattle.rules.specs.Problem.{WellFormed};

    ghost Value = { List ℕ };

    ghost view = { λ s. s.p.now };

    ghost invariant = { λ s. WellFormed s.p.now };
}

// What it is, in a line above it.
fn heading(p: &[u32])
    requires { WellFormed p.now }
{
    svg::begin_text(b"h", layout::LEFT, layout::HEADING);
    paper::things(words::rows_of(p), b" basic cycle");
    paper::text_count(b" of ", words::cycle_of(p));
    paper::text(b" bit times, ");
    paper::things(words::columns_of(p), b" window");
    paper::text(b", ");
    paper::things(words::messages_of(p), b" message");
    svg::end_text();
}

// The picture of a proposal: text is the sheet that has the names, and t is where the bus time goes.
pub fn show(p: &[u32], w: &[u32], text: &[u8], t: BusTime)
    requires { WellFormed p.now × (1 ≤ t.reference) }
{
    let scale = layout::scale_of(p, text);
    let bottom = scale.bar_top(words::rows_of(p));
    let picture = Picture { p, w, text, scale };
    svg::begin(scale.width(), bottom + legend::HEIGHT);
    heading(p);
    axis::show(&picture);
    cycles::show(&picture);
    frames::show(&picture);
    legend::show(&picture, t, bottom);
    svg::end();
}

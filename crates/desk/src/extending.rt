// A longer line: a new problem is planned so that each message which the old one has under the same identifier keeps its placement.
// What is shown can be read back as the new plan: all that is not its words is a comment.
ghost use Rattle.rules.specs.Problem.{WellFormed};

use super::answers;
use super::given::Room;
use basics::FILL;
use files::input;
use files::input::Told;
use origin::Subject;
use reasons::Call;
use rules::words;
use std::rt::{Env, Files};
use views::matrix::Form;
use views::{changes, matrix};

// A line as it runs: the words of its problem, its plan and its trigger lists.
#[derive(Clone, Copy)]
struct Line<'a> {
    p: &'a [u32],
    w: &'a [u32],
    lists: &'a [u32; triggers::MOST_WORDS],
}

// ---- answers

// Shows the matrix of a new plan, and which messages are new, kept and gone beside the old line.
fn show_messages(p: &[u32], w: &[u32], kept: &[u32], old: Line)
    requires { WellFormed p.now × WellFormed old.p.now }
{
    let back = carried::carried(old.p, p, w);
    paper::line(b"\n# The matrix; a new message has * behind its identifier");
    matrix::show(p, w, kept, Form::Comments);
    paper::end_line();
    changes::messages(b"# new ", p, w, kept, true);
    changes::messages(b"# kept", p, w, kept, false);
    changes::messages(b"# gone", old.p, old.w, &back, true);
    paper::end_line();
}

// Shows which nodes must be loaded anew, and which not.
fn show_nodes(rt: &impl Env, call: Call, old: Line) -> Result<(), Told> {
    let lists = answers::lists(rt, call)?;
    changes::nodes(
        b"# nodes with a changed trigger list:",
        old.lists,
        &lists,
        false,
    );
    changes::nodes(
        b"# nodes whose trigger list stayed:",
        old.lists,
        &lists,
        true,
    );
    Ok(())
}

// ---- the new problem

// Plans a new problem with what the old line has for its messages, and shows the plan and what it changes.
fn plan(rt: &impl Env, given: Call, p: &[u32], old: Line) -> Result<(), Told>
    requires { WellFormed p.now × WellFormed old.p.now }
{
    let list = carried::carried(p, old.p, old.w);
    let kept = &list[..input::within(words::proposal_words(p), &list)];
    let call = Call {
        words: kept,
        subject: Subject::Carried,
        ..given
    };
    let mut proposal = [0u32; words::MOST_PROPOSAL];
    let got = planner::replan(call.file, kept, &mut proposal);
    let w = answers::show_planned(rt, call, got, &proposal)?;
    show_messages(p, w, kept, old);
    let planned = Call {
        words: w,
        ..Call::on(given.file)
    };
    show_nodes(rt, planned, old)
}

// Reads the new problem, and plans it.
fn plan_given<R: Env + Files + Input>(rt: &R, old: Line) -> Result<(), Told>
    requires { WellFormed old.p.now }
{
    let mut room = Room::new();
    let call = room.problem(rt)?;
    let mut words = [FILL; words::MOST_WORDS];
    let p = input::decoded(rt, call.file, &mut words)?;
    plan(rt, call, p, old)
}

// ---- the old line

// Reads the old problem and its plan, which must be accepted, and goes on.
#[inline(never)]
pub fn extend<R: Env + Files + Input>(rt: &R) -> Result<(), Told> {
    let mut room = Room::new();
    let call = room.proposal(rt, Subject::Old)?;
    let lists = answers::lists(rt, call)?;
    let mut words = [FILL; words::MOST_WORDS];
    let p = input::decoded(rt, call.file, &mut words)?;
    let old = Line {
        p,
        w: call.words,
        lists: &lists,
    };
    plan_given(rt, old)
}

// Document 003's example: 16 messages of 8 bytes in 16 windows, all from node 0 to node 1.
use super::answers;
use basics::FILL;
use files::input;
use files::input::Told;
use origin::Subject;
use reasons::Call;
use rules::words;
use std::rt::Env;

// The words of its problem.
const PROBLEM: [u32; 151] = [
    // Rows, cycle, reference window and identifier, triggers, columns, messages.
    8, 2500, 78, 240, 32, 16, 16,
    // The columns: start, width.
    78, 145, 223, 150, 373, 150, 523, 150, 673, 150, 823, 150, 973, 150, 1123, 150, 1273, 150,
    1423, 150, 1573, 150, 1723, 150, 1873, 150, 2023, 150, 2173, 150, 2323, 177,
    // The messages: identifier, sender, bytes, receivers, period, offset, deadline.
    81, 0, 8, 2, 2500, 0, 2500, 82, 0, 8, 2, 2500, 0, 2500, 83, 0, 8, 2, 2500, 0, 2500, 257, 0, 8,
    2, 5000, 0, 5000, 258, 0, 8, 2, 5000, 0, 5000, 259, 0, 8, 2, 5000, 0, 5000, 260, 0, 8, 2, 5000,
    0, 5000, 261, 0, 8, 2, 5000, 0, 5000, 513, 0, 8, 2, 10000, 0, 10000, 514, 0, 8, 2, 10000, 0,
    10000, 515, 0, 8, 2, 10000, 0, 10000, 516, 0, 8, 2, 10000, 0, 10000, 1025, 0, 8, 2, 20000, 0,
    20000, 1026, 0, 8, 2, 20000, 0, 20000, 1027, 0, 8, 2, 20000, 0, 20000, 1028, 0, 8, 2, 20000, 0,
    20000,
];

// Plans a problem and shows all of it: the matrix, the losses and the list of node 0.
fn show_all(rt: &impl Env, file: &[u8]) -> Result<(), Told> {
    let mut proposal = [0u32; planner::PLAN_WORDS];
    let got = planner::plan(file, &mut proposal);
    let n = answers::answered(rt, Call::on(file), got)?;
    let call = Call {
        words: &proposal[..input::within(n, &proposal)],
        ..Call::on(file)
    };
    let t = answers::judged(rt, call)?;
    let mut words = [FILL; words::MOST_WORDS];
    let p = answers::shown(rt, file, &mut words)?;
    paper::line(b"Document 003's example, planned");
    answers::show_matrix(p, call.words, t);
    paper::end_line();
    answers::show_lists(rt, call, Some(0))
}

// Plans document 003's example, and shows all of it.
#[inline(never)]
pub fn show(rt: &impl Env) -> Result<(), Told> {
    let mut bytes = [0u8; problem::MOST_BYTES];
    let file = input::written(rt, &PROBLEM, &[], &mut bytes, Subject::Given)?;
    show_all(rt, file)
}

// What several commands answer: why a call refuses, the words of a problem that is shown, a plan, a matrix and trigger lists.
ghost use Rattle.std.specs.Prelude.{◌≡◌, ◌≤◌, IfOk, Ok, length};
ghost use Rattle.rules.specs.Problem.{WellFormed, most_words};

use basics::FILL;
use files::input::Told;
use files::{input, mark};
use losses::BusTime;
use reasons::Call;
use rules::{Refusal, words};
use std::rt::Env;
use views::matrix::Form;
use views::{matrix, tables};

// What a call answers that took a problem file; why it refuses is said.
pub fn answered<A>(rt: &impl Env, call: Call, got: Result<A, Refusal>) -> Result<A, Told>
    ensures { IfOk result (λ a. got ≡ Ok a) }
{
    match got {
        Ok(a) => Ok(a),
        Err(q) => {
            reasons::of_file(rt, q, call);
            Err(Told)
        }
    }
}

// The words of a problem that is shown, and the script is told so; why it is refused is said.
pub fn shown<'a>(rt: &impl Env, file: &[u8], words: &'a mut [u32]) -> Result<&'a [u32], Told>
    requires { most_words ≤ length words.old }
    ensures { IfOk result (λ p. WellFormed p.now) }
{
    let p = input::decoded(rt, file, words)?;
    paper::say(b"done\n");
    Ok(p)
}

// Where the bus time goes with a proposal that is accepted.
pub fn judged(rt: &impl Env, call: Call) -> Result<BusTime, Told>
    ensures { IfOk result (λ t. 1 ≤ t.reference) }
{
    let got = judge::judge(call.file, call.words);
    answered(rt, call, got)
}

// Shows the matrix of an accepted proposal and where the bus time then goes.
pub fn show_matrix(p: &[u32], w: &[u32], t: BusTime)
    requires { WellFormed p.now × (1 ≤ t.reference) }
{
    matrix::show(p, w, &[], Form::Matrix);
    paper::end_line();
    tables::bus_time(t);
}

// Shows what the planner wrote as a word list, which can be checked as it stands, and answers it.
pub fn show_planned<'a>(
    rt: &impl Env,
    call: Call,
    got: Result<usize, Refusal>,
    proposal: &'a [u32],
) -> Result<&'a [u32], Told> {
    let n = answered(rt, call, got)?;
    let w = &proposal[..input::within(n, proposal)];
    let mut words = [FILL; words::MOST_WORDS];
    let p = shown(rt, call.file, &mut words)?;
    tables::proposal_words(p, w, mark::of(p));
    Ok(w)
}

// The trigger lists of all nodes with a proposal that is accepted.
pub fn lists(rt: &impl Env, call: Call) -> Result<[u32; triggers::MOST_WORDS], Told> {
    let mut lists = [0u32; triggers::MOST_WORDS];
    let got = triggers::lists(call.file, call.words, &mut lists);
    answered(rt, call, got)?;
    Ok(lists)
}

// Shows the trigger list of one node, or those of all.
pub fn show_lists(rt: &impl Env, call: Call, node: Option<usize>) -> Result<(), Told> {
    let lists = lists(rt, call)?;
    paper::say(b"done\n");
    tables::lists(&lists, node);
    Ok(())
}

// The mark of a problem, which a plan carries: a number that two problems hardly ever share, so that a plan is not used with another one.
use basics::FILL;
use origin::Subject;
use reasons::Call;
use rules::words;
use std::rt::Env;
use wordlist::lines;

// The prime and the first value of the hash FNV-1a of 32 bits, here over words.
const PRIME: u32 = 16777619;

const FIRST: u32 = 2166136261;

// The mark of a problem's words.
pub fn of(p: &[u32]) -> u32 {
    p.iter()
        .fold(FIRST, |mark, word| (mark ^ *word).wrapping_mul(PRIME))
}

// Says that a plan was made for another problem, by both names and marks.
fn say_other(rt: &impl Env, made: u32, mark: u32, subject: Subject) {
    origin::named(rt, b"ttplan: ", subject.plan_at());
    paper::say_mark(b" was made for problem ", made);
    origin::named(rt, b", and ", subject.problem_at());
    paper::say_mark(b" is problem ", mark);
    paper::say(b"; plan it anew, or take the line # problem out to use the plan as it stands\n");
}

// Whether the text of a plan says that it was made for another problem than this one, which is said then.
fn is_of_other(rt: &impl Env, p: &[u32], plan: &[u8], subject: Subject) -> bool {
    let mark = of(p);
    match lines::mark_of(plan) {
        Some(made) if made != mark => {
            say_other(rt, made, mark, subject);
            true
        }
        _ => false,
    }
}

// The same for the problem file that a call takes with the plan; a file that has no problem tells nothing.
pub fn is_other(rt: &impl Env, call: Call) -> bool {
    let mut words = [FILL; words::MOST_WORDS];
    match reader::decode(call.file, &mut words) {
        Ok(n) => is_of_other(rt, &words[..n], call.plan, call.subject),
        Err(_) => false,
    }
}

// What a command is given: the problem that an argument names, the word list beside it, and numbers.
use files::input::{LIST_WORDS, Told, Use};
use files::{input, mark};
use origin::Subject;
use reasons::Call;
use rules::words;
use std::rt::{Env, Files};

// Room for a problem and for a word list beside it, with the text that a person wrote of each: fixed memory, since the desk allocates none.
#[derive(Drop)]
pub struct Room {
    text: [u8; 65536],
    bytes: [u8; 65536],
    plan: [u8; 65536],
    words: [u32; LIST_WORDS],
}

impl Room {
    // Room that holds nothing yet.
    pub fn new() -> Room {
        Room {
            text: io::large_buffer(),
            bytes: io::large_buffer(),
            plan: io::large_buffer(),
            words: [0; LIST_WORDS],
        }
    }

    // The problem that a command is given alone.
    pub fn problem<R: Env + Files + Input>(&mut self, rt: &R) -> Result<Call, Told> {
        let Room { text, bytes, .. } = self;
        let source = input::problem(rt, Subject::Given, text, bytes)?;
        Ok(Call {
            text: source.text,
            ..Call::on(source.file)
        })
    }

    // A problem and the word list beside it.
    fn list<R: Env + Files + Input>(
        &mut self,
        rt: &R,
        subject: Subject,
        to: Use,
    ) -> Result<Call, Told> {
        let Room {
            text,
            bytes,
            plan,
            words,
        } = self;
        let source = input::problem(rt, subject, text, bytes)?;
        let list = input::words(rt, subject.plan_at(), plan, words, to)?;
        Ok(Call {
            file: source.file,
            text: source.text,
            words: list.words,
            plan: list.text,
            subject,
        })
    }

    // A problem and placements to keep.
    pub fn kept<R: Env + Files + Input>(&mut self, rt: &R) -> Result<Call, Told> {
        self.list(rt, Subject::Kept, Use::Kept)
    }

    // A problem and a proposal, which was not made for another problem.
    pub fn proposal<R: Env + Files + Input>(
        &mut self,
        rt: &R,
        subject: Subject,
    ) -> Result<Call, Told> {
        let call = self.list(rt, subject, Use::List)?;
        if mark::is_other(rt, call) {
            return Err(Told);
        }
        Ok(call)
    }
}

// ---- numbers

// Says that an argument is not the number that it should be.
fn no_number(rt: &impl Env, due: &[u8], i: usize) -> Told {
    origin::named(rt, due, i);
    paper::say(b"\n");
    Told
}

// The node that an argument names.
pub fn node(rt: &impl Env, i: usize) -> Result<usize, Told> {
    match input::number(rt, i) {
        Some(node) if node < words::NODES => Ok(node as usize),
        _ => Err(no_number(rt, b"ttplan: NODE is a number from 0 to 15, and not ", i)),
    }
}

// The matrix cycles that an argument says. How many there may be is for the call to say that takes them.
pub fn span(rt: &impl Env, i: usize) -> Result<u32, Told> {
    match input::number(rt, i) {
        Some(span) => Ok(span),
        None => Err(no_number(
            rt,
            b"ttplan: SPAN is a number of matrix cycles from 1 to 100, and not ",
            i,
        )),
    }
}

// What is wrong with a proposal for a problem that is well formed, or with placements to keep.
ghost use Rattle.std.specs.Prelude.{◌<◌, ◌≤◌};
ghost use Rattle.rules.specs.Problem.{WellFormed};

use super::{Call, alone};
use basics::FILL;
use broken::name;
use origin::{Given, Subject, Word};
use problem::recast::column_words;
use rules::{Refusal, placing, words};
use std::marker::Model;
use std::rt::Env;
use wordlist::lines::Shape;

// The words of a placement.
const PAIR: usize = 2;

// ---- all messages

// The words of a well-formed problem, how many of them a text has for a column, and what a call was given.
// A clause sees them as the words of the problem.
#[derive(Drop)]
pub struct Problem<'a> {
    p: &'a [u32],
    column: usize,
    call: Call<'a>,
}

impl<'a> Model for Problem<'a> {
    ghost use Rattle.std.specs.Prelude.{List, ℕ};
    ghost use Rattle.rules.specs.Problem.{WellFormed};

    ghost Value = { List ℕ };

    ghost view = { λ s. s.p.now };

    ghost invariant = { λ s. WellFormed s.p.now };
}

impl<'a> Problem<'a> {
    // The problem's words.
    pub fn words(&self) -> &'a [u32]
        ensures { WellFormed result.now }
    {
        self.p
    }

    // The words of the placements.
    pub fn placements(&self) -> &'a [u32] {
        self.call.words
    }

    // Says the line of the problem's text that has message j.
    pub fn line_of(&self, j: usize)
        requires { j < 64 }
    {
        origin::place(
            Word::Message(j as u32, words::IDENTIFIER),
            words::columns_of(self.p) as u32,
            Given::Text(self.call.text, self.column),
        );
    }

    // How many words the placements have, which a text has.
    fn say_count(&self) {
        let messages = words::messages_of(self.p);
        paper::say_things(b": ", self.call.words.len(), b" word");
        paper::say_things(b"; ", messages, b" message");
        if messages == 1 {
            paper::say(b" needs ");
        } else {
            paper::say(b" need ");
        }
        paper::say_count(b"", words::proposal_words(self.p));
        paper::say(b", column and base row of each");
        broken::wrong_line(
            self.call.plan,
            Shape {
                records: messages,
                first: PAIR,
                few: 0,
                short: PAIR,
                other: PAIR,
            },
        );
    }

    // How many messages have no kept placement. A list of another length is refused for that before.
    fn free_count(&self) -> usize {
        if self.call.words.len() != words::proposal_words(self.p) {
            return 0;
        }
        rest::free_count(self.call.words, words::messages_of(self.p))
    }

    // More messages than the planner takes: all that there are, or those without a kept placement.
    fn say_many(&self) {
        match self.call.subject {
            Subject::Given => {
                paper::say_things(b": ", words::messages_of(self.p), b" message");
                paper::say(
                    b"; the planner takes at most 16: plan a file with the first 16, then extend it",
                );
            }
            _ => {
                paper::say_things(b": ", self.free_count(), b" message");
                paper::say(b" without a kept placement; the planner takes at most 16");
            }
        }
    }

    // That there is no plan, or none with what is kept, and which messages have no place even alone.
    fn say_no_plan(&self) {
        let mut taken = [0u32; words::MOST_ROWS];
        match self.call.subject {
            Subject::Given => paper::say(b": no plan exists"),
            _ => {
                let _ = proposal::kept_fault(self.p, self.call.words, &mut taken);
                paper::say(b": no plan exists that keeps the kept placements");
            }
        }
        alone::show(self, &taken);
    }

    // Message j and its placement, if there are both.
    fn sent<'b>(&'b self, j: u32) -> Option<Sent<'b>> {
        let j = j as usize;
        if j < words::messages_of(self.p) && words::gives(self.call.words, j) {
            Some(Sent {
                problem: self,
                p: self.p,
                w: self.call.words,
                j,
            })
        } else {
            None
        }
    }

    // What is wrong with message j, if there is one.
    fn one(&self, q: Refusal, j: u32) {
        if let Some(sent) = self.sent(j) {
            sent.own(q);
        }
    }

    // Where messages j and i meet, if there are both.
    fn two(&self, j: u32, i: u32) {
        if let Some(later) = self.sent(j) {
            if let Some(earlier) = self.sent(i) {
                later.meets(&earlier);
            }
        }
    }

    // What is wrong with the placements.
    fn of_plan(&self, rt: &impl Env, q: Refusal) {
        origin::named(rt, b", ", self.call.subject.plan_at());
        match q {
            Refusal::ProposalLength => self.say_count(),
            Refusal::Range(j) | Refusal::Width(j) | Refusal::Late(j) => self.one(q, j),
            Refusal::Meeting(j, i) => self.two(j, i),
            _ => {}
        }
    }

    // What is wrong with the placements, or with the problem for the planner.
    fn explain(&self, rt: &impl Env, q: Refusal) {
        match q {
            Refusal::NoPlan => {
                origin::named(rt, b", ", self.call.subject.problem_at());
                self.say_no_plan();
            }
            Refusal::TooMany => {
                origin::named(rt, b", ", self.call.subject.problem_at());
                origin::line(self.call.text, words::MESSAGES);
                self.say_many();
            }
            _ => self.of_plan(rt, q),
        }
    }
}

// ---- one message

// Message j of a problem, and its placement. A clause sees it as its number.
#[derive(Drop)]
struct Sent<'a> {
    problem: &'a Problem<'a>,
    p: &'a [u32],
    w: &'a [u32],
    j: usize,
}

impl<'a> Model for Sent<'a> {
    ghost use Rattle.std.specs.Prelude.{ℕ};
    ghost use Rattle.rules.specs.Problem.{Gives};
    ghost use Rattle.rules.specs.Parts.{Member};

    ghost Value = { ℕ };

    ghost view = { λ s. s.j };

    ghost invariant = { λ s. Member s.p.now s.j × Gives s.w.now s.j };
}

impl<'a> Sent<'a> {
    // Its column and its base row.
    fn column(&self) -> usize {
        words::column_of(self.w, self.j)
    }

    fn row(&self) -> usize {
        words::row_of(self.w, self.j)
    }

    // Says its name.
    fn say_name(&self) {
        let problem = self.problem;
        let identifier = words::identifier_of(self.p, self.j);
        match problem.call.subject {
            Subject::Kept | Subject::Carried => name(b"kept message ", self.j, identifier),
            _ => name(b"message ", self.j, identifier),
        }
    }

    // Says where its column or its base row stands: its line in a plan, or that of the message where the placement was carried over from an old plan.
    fn place(&self, word: usize)
        requires { word < 2 }
    {
        let problem = self.problem;
        match problem.call.subject {
            Subject::Carried => problem.line_of(self.j),
            _ => origin::line(problem.call.plan, PAIR * self.j + word),
        }
    }

    // Whether the problem does not have its column.
    fn is_outside(&self) -> bool {
        words::columns_of(self.p) <= self.column()
    }

    // A column or a base row that it cannot have.
    fn out_of_range(&self) {
        if self.is_outside() {
            range(b": column ", self.column(), words::columns_of(self.p) - 1);
        } else {
            range(
                b": base row ",
                self.row(),
                words::repeat_of(self.p, self.j) - 1,
            );
        }
    }

    // A frame that is longer than its column is wide.
    fn width(&self) {
        let c = self.column();
        if c < words::columns_of(self.p) {
            let frame = words::frame_of(self.p, self.j);
            paper::say_count(b": column ", c);
            paper::say_count(b" is ", words::width_of(self.p, c));
            paper::say_count(b" wide, and its frame takes ", frame);
            paper::say(b"; wide enough:");
            wide_columns(self.p, frame);
        }
    }

    // A send that ends after its deadline.
    fn late(&self) {
        let c = self.column();
        let r = self.row();
        if c < words::columns_of(self.p) && r < words::repeat_of(self.p, self.j) {
            paper::say_count(b": in column ", c);
            paper::say_count(b", base row ", r);
            times(
                placing::wait_of(self.p, self.j, c, r),
                words::frame_of(self.p, self.j),
                words::deadline_of(self.p, self.j),
            );
        }
    }

    // What is wrong with it by itself. The base row is wrong where the column is right.
    fn own(&self, q: Refusal) {
        match q {
            Refusal::Range(_) if !self.is_outside() => self.place(1),
            _ => self.place(0),
        }
        paper::say(b", ");
        self.say_name();
        match q {
            Refusal::Range(_) => self.out_of_range(),
            Refusal::Width(_) => self.width(),
            _ => self.late(),
        }
    }

    // ---- two messages

    // The first row in which it and a message that it meets are both sent: the base row of the one that is sent less often.
    fn common_row(&self, other: &Sent) -> usize {
        if words::repeat_of(other.p, other.j) <= words::repeat_of(self.p, self.j) {
            self.row()
        } else {
            other.row()
        }
    }

    // It and the earlier one that it meets, and where.
    fn meets(&self, earlier: &Sent) {
        self.place(0);
        paper::say(b", ");
        self.say_name();
        paper::say(b" meets ");
        earlier.say_name();
        earlier.place(0);
        paper::say_count(b", in column ", self.column());
        paper::say_count(b", row ", self.common_row(earlier));
    }
}

// ---- sentences

// A column or a base row by its name, which must be in a range.
fn range(rule: &[u8], n: usize, most: usize) {
    if n == kept::NONE {
        paper::say(rule);
        paper::say(b"-, none, beside a number");
    } else {
        paper::say_count(rule, n);
    }
    paper::say_count(b"; it must be 0 to ", most);
}

// The columns that are as wide as a frame.
fn wide_columns(p: &[u32], frame: usize)
    requires { WellFormed p.now }
{
    let mut is_any = false;
    for c in 0..words::columns_of(p) {
        if frame <= words::width_of(p, c) {
            paper::say_count(b" ", c);
            is_any = true;
        }
    }
    if !is_any {
        paper::say(b" none");
    }
}

// What a send waits and takes, and how much later than its deadline it ends.
fn times(wait: usize, frame: usize, deadline: usize)
    requires { (wait < 4294967296) × (frame < 4294967296) }
{
    let end = wait + frame;
    paper::say_count(b" it waits ", wait);
    paper::say_count(b" and its frame takes ", frame);
    paper::say_count(b", in all ", end);
    paper::say_count(b"; its deadline is ", deadline);
    if deadline < end {
        paper::say_count(b", so that it is late by ", end - deadline);
    }
}

// ---- all of them

// What is wrong with placements for a problem file.
pub fn of_file(rt: &impl Env, q: Refusal, call: Call) {
    let mut words = [FILL; words::MOST_WORDS];
    if let Ok(n) = reader::decode(call.file, &mut words) {
        let problem = Problem {
            p: &words[..n],
            column: column_words(reader::layout_in(call.file)),
            call,
        };
        problem.explain(rt, q);
    }
}

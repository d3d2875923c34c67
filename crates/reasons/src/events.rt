// What is wrong with events.
ghost use Rattle.std.specs.Prelude.{◌<◌, ◌≤◌};
ghost use Rattle.reasons.specs.Shares.{most_shares, most_load};

use basics::is_outside;
use broken::fields::{Records, range};
use broken::{fields, name};
use response::{
    DATA, DEADLINE, EVENT_WORDS, IDENTIFIER, JITTER, LONGEST_PERIOD, MOST_EVENTS, PERIOD,
};
use rules::words::frame_bits;
use wordlist::lines::Shape;

// All of the bus time, in shares so small that those of 64 events, each rounded up, are hardly more than the load, and how many of them are a hundredth of a per cent.
const WHOLE: usize = 10000000000;

const HUNDREDTH: usize = WHOLE / paper::ALL;

// The rules of an event, in the order in which they are tested.
#[derive(Clone, Copy)]
enum Rule {
    Identifier,
    Data,
    Period,
    Jitter,
    Deadline,
    Taken,
}

impl Rule {
    // The word of an event that breaks the rule.
    fn word(self) -> usize
        ensures { result < 5 }
    {
        match self {
            Rule::Identifier | Rule::Taken => IDENTIFIER,
            Rule::Data => DATA,
            Rule::Period => PERIOD,
            Rule::Jitter => JITTER,
            Rule::Deadline => DEADLINE,
        }
    }
}

// The words of events, and the text that has them.
#[derive(Clone, Copy)]
pub struct Events<'a> {
    pub words: &'a [u32],
    pub text: &'a [u8],
}

impl<'a> Events<'a> {
    // The words of each event.
    fn records(&self) -> Records<'a> {
        Records {
            words: self.words,
            size: EVENT_WORDS,
        }
    }

    // ---- their count

    // What is said of the count of the words.
    pub fn say_count(&self) {
        paper::say_things(b": ", self.words.len(), b" word");
        paper::say(b"; each event has five, and there are at most 64 events");
        if self.words.len() <= EVENT_WORDS * MOST_EVENTS {
            broken::wrong_line(
                self.text,
                Shape {
                    records: (self.words.len() + EVENT_WORDS / 2) / EVENT_WORDS,
                    first: EVENT_WORDS,
                    few: 0,
                    short: EVENT_WORDS,
                    other: EVENT_WORDS,
                },
            );
        }
    }

    // ---- a rule

    // The first rule that event j breaks.
    fn broken(&self, j: u32) -> Rule {
        let events = self.records();
        let period = events.field(j, PERIOD);
        if fields::MOST_IDENTIFIER < events.field(j, IDENTIFIER) {
            Rule::Identifier
        } else if fields::MOST_DATA < events.field(j, DATA) {
            Rule::Data
        } else if is_outside(period, 1, LONGEST_PERIOD) {
            Rule::Period
        } else if period <= events.field(j, JITTER) {
            Rule::Jitter
        } else if is_outside(events.field(j, DEADLINE), 1, period) {
            Rule::Deadline
        } else {
            Rule::Taken
        }
    }

    // What is said of event j, a word of which breaks a rule.
    fn say_rule(&self, rule: Rule, j: u32) {
        let events = self.records();
        let n = events.field(j, rule.word());
        let period = events.field(j, PERIOD);
        match rule {
            Rule::Identifier => fields::identifier(b"identifier ", n),
            Rule::Data => range(b"data bytes", n, 0, fields::MOST_DATA),
            Rule::Period => range(b"period", n, 1, LONGEST_PERIOD),
            Rule::Jitter => fields::below(b"jitter", n, period),
            Rule::Deadline => fields::deadline(n, period),
            Rule::Taken => fields::taken(n, b"; event ", events.first_like(j)),
        }
    }

    // Event j by its name, and the line that has a word of it.
    fn begin(&self, j: u32, at: usize)
        requires { at < 5 }
    {
        let id = self.records().field(j, IDENTIFIER);
        origin::line(self.text, EVENT_WORDS * j as usize + at);
        name(b", event ", j, id as usize);
        paper::say(b": ");
    }

    // Event j, and the first of its rules that it breaks.
    pub fn say_broken(&self, j: u32) {
        let rule = self.broken(j);
        self.begin(j, rule.word());
        self.say_rule(rule, j);
    }

    // ---- the load

    // How many shares of the bus time event j asks for, rounded up; none if it has no period or no frame.
    fn shares_of(&self, j: u32) -> usize
        ensures { result ≤ most_shares }
    {
        let data = self.records().field(j, DATA);
        let period = self.records().field(j, PERIOD) as usize;
        if fields::MOST_DATA < data || period == 0 {
            return 0;
        }
        (frame_bits(data as usize) * WHOLE).div_ceil(period)
    }

    // How many event j and those of higher priority ask for.
    fn shares_with(&self, j: u32) -> usize
        ensures { result ≤ most_load }
    {
        let id = self.records().field(j, IDENTIFIER);
        let n = (self.words.len() / EVENT_WORDS).min(MOST_EVENTS) as u32;
        let mut total: usize = 0;
        for i in 0..n {
            if self.records().field(i, IDENTIFIER) <= id {
                total += self.shares_of(i);
            }
        }
        total
    }

    // Event j, which has no busy period. Its shares are rounded up, and so is their sum, so that the load is at most what is shown.
    pub fn say_endless(&self, j: u32) {
        self.begin(j, IDENTIFIER);
        paper::say_per_cent(
            b"with it and the events of higher priority the load is ",
            self.shares_with(j).div_ceil(HUNDREDTH),
        );
        paper::say(b", rounded up; the bus must come to rest within 16777216 bit times");
    }
}

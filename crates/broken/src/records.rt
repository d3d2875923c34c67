// What is wrong with a column, a message or a node of a problem's words: first which rule is broken, then where, and what is said of it.
ghost use Rattle.std.specs.Prelude.{◌≡◌, ◌<◌, ◌≤◌, length, get_or};
ghost use Rattle.problem.specs.File.{head_bytes};
ghost use Rattle.origin.specs.Standing.{HasWord};
ghost use Rattle.broken.specs.Said.{AsSaid};

use super::fields::{Records, range};
use super::{fields, name};
use basics::{FILL, is_outside};
use origin::{Given, Word};
use rules::words::{COLUMN_WORDS, MESSAGE_WORDS};
use rules::{Refusal, words};

// No start, no width and no mask of receivers is larger.
const MOST: u32 = 65535;

// ---- which rule

// The rules of a column, in the order in which they are tested.
#[derive(Clone, Copy)]
enum ColumnRule {
    Start,
    Width,
    Kind,
    Early,
    Beyond,
}

impl ColumnRule {
    // The word of a column's record that breaks the rule.
    fn word(self) -> usize
        ensures { result < 3 }
    {
        match self {
            ColumnRule::Start | ColumnRule::Early => words::START,
            ColumnRule::Width | ColumnRule::Beyond => words::WIDTH,
            ColumnRule::Kind => words::KIND,
        }
    }
}

// The rules of a message: those of its identity and those of its timing, in the order in which they are tested.
#[derive(Clone, Copy)]
enum MessageRule {
    Identifier,
    Reference,
    Sender,
    Data,
    Receivers,
    Own,
    Taken,
    Period,
    Offset,
    Deadline,
}

impl MessageRule {
    // The word of a message's record that breaks the rule.
    fn word(self) -> usize
        ensures { result < 7 }
    {
        match self {
            MessageRule::Identifier | MessageRule::Reference | MessageRule::Taken =>
                words::IDENTIFIER,
            MessageRule::Sender => words::SENDER,
            MessageRule::Data => words::SIZE,
            MessageRule::Receivers | MessageRule::Own => words::RECEIVERS,
            MessageRule::Period => words::PERIOD,
            MessageRule::Offset => words::OFFSET,
            MessageRule::Deadline => words::DEADLINE,
        }
    }
}

// The words of a problem that are as many as its header says, and how it was given.
#[derive(Clone, Copy)]
struct Problem<'a> {
    words: &'a [u32],
    given: Given<'a>,
    ghost as_said: { AsSaid words.now },
}

impl<'a> Problem<'a> {
    // Word k of the header.
    fn header(&self, k: usize) -> u32
        requires { k < 7 }
        ensures { result ≡ get_or self.now.words.now k 0 }
    {
        self.words[k]
    }

    // The records of the columns.
    fn columns(&self) -> Records<'a> {
        Records {
            words: &self.words[words::HEADER_WORDS..],
            size: COLUMN_WORDS,
        }
    }

    // The records of the messages.
    fn messages(&self) -> Records<'a> {
        let columns = self.header(words::COLUMNS) as usize;
        Records {
            words: &self.words[words::column_at(columns)..],
            size: MESSAGE_WORDS,
        }
    }

    // The earliest place at which column c may start: where the reference window or the column before ends.
    fn earliest(&self, c: u32) -> usize {
        if c == 0 {
            return self.header(words::REF_LEN) as usize;
        }
        let start = self.columns().field(c - 1, words::START);
        let width = self.columns().field(c - 1, words::WIDTH);
        start as usize + width as usize
    }

    // The first rule that column c breaks.
    fn of_column(&self, c: u32) -> ColumnRule {
        let start = self.columns().field(c, words::START);
        if MOST < start {
            ColumnRule::Start
        } else if is_outside(self.columns().field(c, words::WIDTH), 1, MOST) {
            ColumnRule::Width
        } else if 0 < self.columns().field(c, words::KIND) {
            ColumnRule::Kind
        } else if (start as usize) < self.earliest(c) {
            ColumnRule::Early
        } else {
            ColumnRule::Beyond
        }
    }

    // The first rule that the identifier, the sender, the data bytes or the receivers of message j break.
    fn of_identity(&self, j: u32) -> MessageRule {
        let id = self.messages().field(j, words::IDENTIFIER);
        let sender = self.messages().field(j, words::SENDER);
        let receivers = self.messages().field(j, words::RECEIVERS);
        if fields::MOST_IDENTIFIER < id {
            MessageRule::Identifier
        } else if id == self.header(words::REF_ID) {
            MessageRule::Reference
        } else if words::NODES <= sender {
            MessageRule::Sender
        } else if fields::MOST_DATA < self.messages().field(j, words::SIZE) {
            MessageRule::Data
        } else if MOST < receivers {
            MessageRule::Receivers
        } else if wellformed::is_receiver(receivers, sender) {
            MessageRule::Own
        } else {
            MessageRule::Taken
        }
    }

    // The first rule that the period, the offset or the deadline of message j breaks.
    fn of_timing(&self, j: u32) -> MessageRule {
        let period = self.messages().field(j, words::PERIOD);
        let rows = self.header(words::ROWS);
        let cycle = self.header(words::CYCLE);
        if !wellformed::is_on_grid(rows, cycle, period) {
            MessageRule::Period
        } else if period <= self.messages().field(j, words::OFFSET) {
            MessageRule::Offset
        } else {
            MessageRule::Deadline
        }
    }

    // ---- where

    // Says where a word stands.
    fn place(&self, word: Word)
        requires { HasWord word }
    {
        origin::place(word, self.header(words::COLUMNS), self.given);
    }

    // ---- columns

    // A column that starts too early, or behind one that ends too late.
    fn early(&self, start: u32, c: u32) {
        let from = self.earliest(c);
        let cycle = self.header(words::CYCLE);
        fields::value(b"start", start);
        paper::say_count(b"at least ", from);
        before(c);
        if (cycle as usize) < from {
            paper::say_count(b", beyond the basic cycle, ", cycle);
        }
    }

    // A column that ends beyond the basic cycle.
    fn beyond(&self, start: u32, width: u32) {
        paper::say_count(b"start ", start);
        paper::say_count(b" and width ", width);
        paper::say_count(b" end at ", start as usize + width as usize);
        paper::say_count(b"; it must end at ", self.header(words::CYCLE));
        paper::say(b", the basic cycle, or before");
    }

    // A kind that there is not, in a text whose count of words says that its columns have one: perhaps they were not to have one.
    fn miscounted(&self, kind: u32) {
        if let Given::Text(..) = self.given
            && 1 < kind
        {
            paper::say(
                b"; so many words are version 2, with three for a column: if two were meant, columns or messages are miscounted",
            );
        }
    }

    // A column that breaks a rule.
    fn column(&self, c: u32) {
        let rule = self.of_column(c);
        let start = self.columns().field(c, words::START);
        let width = self.columns().field(c, words::WIDTH);
        let kind = self.columns().field(c, words::KIND);
        self.place(Word::Column(c, rule.word()));
        paper::say_count(b", column ", c);
        paper::say(b": ");
        match rule {
            ColumnRule::Start => range(b"start", start, 0, MOST),
            ColumnRule::Width => range(b"width", width, 1, MOST),
            ColumnRule::Kind => of_kind(kind),
            ColumnRule::Early => self.early(start, c),
            ColumnRule::Beyond => self.beyond(start, width),
        }
        self.miscounted(kind);
    }

    // ---- messages

    // A period that is not on the grid: it must be a power of two times the basic cycle, up to the rows.
    fn period(&self, n: u32) {
        fields::value(b"period", n);
        paper::say_count(b"", self.header(words::CYCLE));
        powers(self.header(words::ROWS));
    }

    // What is said of message j, a word of which breaks a rule.
    fn rule(&self, rule: MessageRule, j: u32) {
        let n = self.messages().field(j, rule.word());
        let sender = self.messages().field(j, words::SENDER);
        let period = self.messages().field(j, words::PERIOD);
        match rule {
            MessageRule::Identifier => fields::identifier(b"identifier ", n),
            MessageRule::Reference => reference(n),
            MessageRule::Sender => range(b"sender", n, 0, 15),
            MessageRule::Data => range(b"data bytes", n, 0, fields::MOST_DATA),
            MessageRule::Receivers => receivers(n),
            MessageRule::Own => own(n, sender),
            MessageRule::Taken => fields::taken(n, b"; message ", self.messages().first_like(j)),
            MessageRule::Period => self.period(n),
            MessageRule::Offset => fields::below(b"offset", n, period),
            MessageRule::Deadline => fields::deadline(n, period),
        }
    }

    // Message j, which breaks a rule.
    fn message(&self, rule: MessageRule, j: u32) {
        self.place(Word::Message(j, rule.word()));
        let id = self.messages().field(j, words::IDENTIFIER);
        name(b", message ", j, id as usize);
        paper::say(b": ");
        self.rule(rule, j);
    }

    // ---- nodes

    // A node, and how many triggers it needs.
    fn node(&self, n: u32) {
        let columns = self.header(words::COLUMNS) as usize;
        let messages = self.header(words::MESSAGES) as usize;
        self.place(Word::Header(words::LIMIT));
        paper::say_count(b", node ", n);
        paper::say_count(
            b": it needs ",
            wellformed::triggers_of(self.words, columns, messages, n),
        );
        paper::say(
            b" triggers, one for the reference and one for each message that it sends or receives; the limit is ",
        );
        paper::say_count(b"", self.header(words::LIMIT));
    }

    // ---- all of them

    // What is wrong behind the header.
    fn explain(&self, q: Refusal) {
        match q {
            Refusal::Column(c) => self.column(c),
            Refusal::Identity(j) => self.message(self.of_identity(j), j),
            Refusal::Timing(j) => self.message(self.of_timing(j), j),
            Refusal::Triggers(n) => self.node(n),
            _ => {}
        }
    }
}

// ---- sentences

// What ends at the earliest place at which a column may start.
fn before(c: u32) {
    if c == 0 {
        paper::say(b", where the reference window ends");
        return;
    }
    paper::say_count(b", where column ", c - 1);
    paper::say(b" ends");
}

// The rule of a column's kind: arbitration windows are known, but not taken yet.
fn of_kind(n: u32) {
    fields::value(b"kind", n);
    paper::say(b"0, an exclusive window (1, an arbitration window, is not taken yet)");
}

// An identifier that the reference message has.
fn reference(id: u32) {
    paper::say_hex(b"identifier ", id as usize);
    paper::say(b"; the reference message has it, and each must have its own");
}

// A mask of receivers that has nodes which there are not.
fn receivers(n: u32) {
    range(b"receivers", n, 0, MOST);
    paper::say(b", 1 for node 0 and 2 for node 1 and 4 for node 2 and so on");
}

// A message that its sender receives.
fn own(receivers: u32, sender: u32) {
    paper::say_count(b"receivers ", receivers);
    paper::say_count(b" have its sender among them, node ", sender);
    paper::say_count(
        b"; they must be ",
        basics::clear_bit(receivers, sender % words::NODES),
    );
    paper::say(b", or others without it");
}

// The powers of two up to the rows, which a period may be of the basic cycle.
fn powers(rows: u32) {
    paper::say(b" times 1");
    for n in [2, 4, 8, 16, 32, 64] {
        if n < rows {
            paper::say_count(b", ", n);
        } else if n == rows {
            paper::say_count(b" or ", n);
        }
    }
}

// ---- where the words are

// What is wrong with a caller's words behind their header, which a text has. They have fewer words than the problem if a column has two.
pub fn of_said(q: Refusal, said: &[u32], text: &[u8]) {
    let mut words = [FILL; words::MOST_WORDS];
    if let Ok(n) = writer::problem_in(said, &mut words) {
        let size = if said.len() < n { 2 } else { COLUMN_WORDS };
        let problem = Problem {
            words: &words[..n],
            given: Given::Text(text, size),
        };
        problem.explain(q);
    }
}

// What is wrong with a file behind its header.
pub fn of_file(q: Refusal, file: &[u8])
    requires { head_bytes ≤ length file.now }
{
    let mut words = [FILL; words::MOST_WORDS];
    if let Ok(n) = reader::words_in(file, &mut words) {
        let problem = Problem {
            words: &words[..n],
            given: Given::File(reader::layout_in(file)),
        };
        problem.explain(q);
    }
}

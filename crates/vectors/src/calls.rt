// The calls that a record can have, each with its number and its name, and one call on one case.
use bus_log::Difference;
use losses::BusTime;
use response::EVENT_WORDS;
use rules::{Paper, Refusal};

// A call that writes a file.
#[derive(Clone, Copy)]
pub enum ToBytes {
    Write,
    Up,
    Back,
}

// A call that takes no log and writes words, or nothing.
#[derive(Clone, Copy)]
pub enum ToWords {
    Read,
    Judge,
    Lists,
    Plan,
    Responses,
    Replan,
}

// A call. One that holds a log is made with larger buffers.
#[derive(Clone, Copy)]
pub enum Call {
    Bytes(ToBytes),
    Words(ToWords),
    Hold,
}

// That a number is no call's.
#[derive(Drop)]
pub struct NoCall;

// A call's number in a record; 4 is none any more. A further call takes the next number.
impl TryFrom<u8> for Call {
    type Error = NoCall;

    fn try_from(number: u8) -> Result<Call, NoCall> {
        match number {
            1 => Ok(Call::Words(ToWords::Read)),
            2 => Ok(Call::Bytes(ToBytes::Write)),
            3 => Ok(Call::Words(ToWords::Judge)),
            5 => Ok(Call::Words(ToWords::Lists)),
            6 => Ok(Call::Words(ToWords::Plan)),
            7 => Ok(Call::Words(ToWords::Responses)),
            8 => Ok(Call::Hold),
            9 => Ok(Call::Bytes(ToBytes::Up)),
            10 => Ok(Call::Bytes(ToBytes::Back)),
            11 => Ok(Call::Words(ToWords::Replan)),
            _ => Err(NoCall),
        }
    }
}

impl Call {
    // Whether the call takes words where the others take a file.
    pub fn takes_words(self) -> bool {
        match self {
            Call::Bytes(ToBytes::Write) | Call::Words(ToWords::Responses) => true,
            _ => false,
        }
    }

    // Whether the call writes bytes where the others write words.
    pub fn writes_bytes(self) -> bool {
        match self {
            Call::Bytes(_) => true,
            Call::Words(_) | Call::Hold => false,
        }
    }

    // The call's name, for people.
    fn name(self) -> &'static [u8] {
        match self {
            Call::Bytes(ToBytes::Write) => b"write",
            Call::Bytes(ToBytes::Up) => b"up",
            Call::Bytes(ToBytes::Back) => b"back",
            Call::Words(ToWords::Read) => b"read",
            Call::Words(ToWords::Judge) => b"judge",
            Call::Words(ToWords::Lists) => b"lists",
            Call::Words(ToWords::Plan) => b"plan",
            Call::Words(ToWords::Responses) => b"responses",
            Call::Words(ToWords::Replan) => b"replan",
            Call::Hold => b"hold",
        }
    }
}

// Writes the name of the call with this number, for people.
pub fn tell(number: u8) {
    match Call::try_from(number) {
        Ok(call) => paper::text(call.name()),
        Err(_) => paper::text_count(b"call ", u32::from(number)),
    }
}

// Each byte that is lent, before a call.
pub const BYTE_PATTERN: u8 = 0xA5;

// Each word that is lent, before a call.
pub const WORD_PATTERN: u32 = 0xA5A5A5A5;

// An answer as numbers: number, place, second place, five figures, and the lengths of the output and of the second output.
pub const NUMBERS: usize = 10;

// The figures among them, and where the first stands.
const FIGURES: usize = 5;

const FIGURE: usize = 3;

// An answer; none has a second output yet.
fn numbers(told: Paper, figures: [u32; FIGURES], written: usize) -> [u64; NUMBERS] {
    [
        u64::from(told.number),
        u64::from(told.place),
        u64::from(told.second),
        u64::from(figures[0]),
        u64::from(figures[1]),
        u64::from(figures[2]),
        u64::from(figures[3]),
        u64::from(figures[4]),
        written as u64,
        0,
    ]
}

// The answer of a call that is done, with its figures.
fn finished(figures: [u32; FIGURES], written: usize) -> [u64; NUMBERS] {
    numbers(Paper::DONE, figures, written)
}

// The answer of a call that is done and has no figures.
pub fn done(written: usize) -> [u64; NUMBERS] {
    finished([0; FIGURES], written)
}

// The answer of a call that refuses: all figures are 0.
fn refused(q: Refusal) -> [u64; NUMBERS] {
    numbers(Paper::from(q), [0; FIGURES], 0)
}

// The answer of a call that says how much it wrote.
fn counted(got: Result<usize, Refusal>) -> [u64; NUMBERS] {
    match got {
        Ok(written) => done(written),
        Err(q) => refused(q),
    }
}

// The answer of a proposal that is judged.
fn judged(got: Result<BusTime, Refusal>) -> [u64; NUMBERS] {
    match got {
        Ok(losses) => finished(<[u32; FIGURES]>::from(losses), 0),
        Err(q) => refused(q),
    }
}

// The answer of response times, one for each event.
fn responded(got: Result<u32, Refusal>, events: usize) -> [u64; NUMBERS] {
    match got {
        Ok(misses) => finished([misses, 0, 0, 0, 0], events),
        Err(q) => refused(q),
    }
}

// The answer of a log that is held: where it differs, that it does, where, and what was due there.
fn held(got: Result<Option<Difference>, Refusal>) -> [u64; NUMBERS] {
    match got {
        Ok(None) => done(0),
        Ok(Some(d)) => finished([1, d.index, d.time, d.identifier, 0], 0),
        Err(q) => refused(q),
    }
}

// Whether the answer to a log is that it is clean.
pub fn is_clean(answer: &[u64; NUMBERS]) -> bool {
    (answer[0] == 0) & (answer[FIGURE] == 0)
}

// Has a log held against the plan.
pub fn hold(file: &[u8], proposal: &[u32], log: &[u32], span: u32) -> [u64; NUMBERS] {
    held(bus_log::hold(file, proposal, log, span))
}

// Asks for the list that is due, which no record has as its call.
pub fn due(file: &[u8], proposal: &[u32], span: u32, list: &mut [u32]) -> [u64; NUMBERS] {
    counted(bus_log::due(file, proposal, span, list))
}

// Runs a call that writes bytes. Input A is there both as bytes and as words, of which each call takes what it is made for.
pub fn run_bytes(call: ToBytes, file: &[u8], words: &[u32], lent: &mut [u8]) -> [u64; NUMBERS] {
    counted(match call {
        ToBytes::Write => writer::write(words, lent),
        ToBytes::Up => versions::up(file, lent),
        ToBytes::Back => versions::back(file, lent),
    })
}

// Runs a call that writes words, or nothing. List B is the proposal, for a plan made again what is kept of one.
pub fn run_words(
    call: ToWords,
    file: &[u8],
    words: &[u32],
    proposal: &[u32],
    lent: &mut [u32],
) -> [u64; NUMBERS] {
    match call {
        ToWords::Read => counted(reader::read(file, lent)),
        ToWords::Judge => judged(judge::judge(file, proposal)),
        ToWords::Lists => counted(triggers::lists(file, proposal, lent)),
        ToWords::Plan => counted(planner::plan(file, lent)),
        ToWords::Replan => counted(planner::replan(file, proposal, lent)),
        ToWords::Responses => responded(
            response::responses(words, lent),
            words.len() / EVENT_WORDS,
        ),
    }
}

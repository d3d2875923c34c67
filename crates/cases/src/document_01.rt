// Document 01: the plans worked by hand, and the slips.
ghost use Rattle.io.specs.Counts.{IsPrefixLen};

use rules::words::MOST_WORDS;
use trial::show::Wanted;
use trial::{build, show};

// Where message 32's deadline stands in T1.
const DEADLINE_32: usize = 26;

// Where message 48's offset stands in T1.
const OFFSET_48: usize = 32;

// T1: two rows of 400 with three columns, and three messages.
pub fn t1(words: &mut [u32]) -> usize
    ensures { IsPrefixLen result words.new }
{
    t1_with(b"65 135  200 100  300 100", words)
}

// T1 with columns as they are said.
pub fn t1_with(columns: &[u8], words: &mut [u32]) -> usize
    ensures { IsPrefixLen result words.new }
{
    build::problem(
        b"2 400 65 1 32 3 3",
        columns,
        b"16 0 8 2 400   0 400
          32 1 1 1 800 400 300
          48 1 4 1 800   0 800",
        words,
    )
}

// A frame takes 55 NTU and 10 for each data byte: that is the response time of an event that is alone.
fn lengths() {
    let cases: [(&[u8], &[u8], &[u8]); 3] = [
        (b"0 data bytes alone on the bus", b"1 0 1000 0 1000", b"55"),
        (b"1 data byte alone on the bus", b"1 1 1000 0 1000", b"65"),
        (b"8 data bytes alone on the bus", b"1 8 1000 0 1000", b"135"),
    ];
    for (title, event, time) in cases {
        show::responses(title, event, time, 0);
    }
}

// T1's lists, word by word.
fn t1_lists(problem: &[u32], plan: &[u8]) {
    show::lists(
        b"T1 and its plan",
        problem,
        plan,
        104,
        b"4 4 1 1 1 1 1 1 1 1 1 1 1 1 1 1
          1 0 0 1  65552 65 0 1  131120 200 0 2  131104 200 1 2
          1 0 0 1  131088 65 0 1  65584 200 0 2  65568 200 1 2
          1 0 0 1  1 0 0 1  1 0 0 1  1 0 0 1  1 0 0 1  1 0 0 1  1 0 0 1
          1 0 0 1  1 0 0 1  1 0 0 1  1 0 0 1  1 0 0 1  1 0 0 1  1 0 0 1",
    );
}

// T1 as it stands, and a proposal that lets two messages meet.
fn first() {
    let mut p = [0u32; MOST_WORDS];
    let n = t1(&mut p);
    let problem = &p[..n];
    let plan: &[u8] = b"0 0 1 1 1 0";
    show::round_trip(b"T1", problem);
    show::plan(b"T1", problem, Ok(plan));
    show::accepted(b"T1 and its plan", problem, plan, b"130 430 40 200 0");
    t1_lists(problem, plan);
    show::refused(b"T1 and 0 0 1 1 1 1", problem, b"0 0 1 1 1 1", [13, 2, 1]);
}

// Message 32 can be sent by 265 after its release and no earlier.
fn deadlines() {
    let mut p = [0u32; MOST_WORDS];
    let n = t1(&mut p);
    let cases: [(&[u8], u32, Wanted<&[u8]>); 2] = [
        (
            b"T1 with deadline 265 for message 32",
            265,
            Ok(b"0 0 1 1 1 0"),
        ),
        (b"T1 with deadline 264 for message 32", 264, Err([14, 0, 0])),
    ];
    for (title, deadline, wanted) in cases {
        build::set(&mut p, DEADLINE_32, deadline);
        show::plan(title, show::front(&p, n), wanted);
    }
}

// T1's grid with no messages.
fn no_messages() {
    let mut p = [0u32; MOST_WORDS];
    let n = build::problem(
        b"2 400 65 1 32 3 0",
        b"65 135  200 100  300 100",
        b"",
        &mut p,
    );
    let problem = &p[..n];
    show::accepted(
        b"no messages and the empty proposal",
        problem,
        b"",
        b"130 0 0 670 0",
    );
    show::refused(
        b"no messages and a proposal of two words",
        problem,
        b"0 0",
        [9, 0, 0],
    );
    show::plan(b"no messages", problem, Ok(b""));
}

// The events of the table by document 02's rule: the third's second instance is the worst, with 470.
fn events() {
    let cases: [(&[u8], &[u8], &[u8], u32); 4] = [
        (
            b"three events of 8 bytes",
            b"1 8 337 0 337  2 8 475 0 475  3 8 475 0 440",
            b"270 405 0",
            1,
        ),
        (
            b"the third with deadline 404",
            b"1 8 337 0 337  2 8 475 0 475  3 8 475 0 404",
            b"270 405 0",
            1,
        ),
        (
            b"the third with deadline 469",
            b"1 8 337 0 337  2 8 475 0 475  3 8 475 0 469",
            b"270 405 0",
            1,
        ),
        (
            b"the third with deadline 475",
            b"1 8 337 0 337  2 8 475 0 475  3 8 475 0 475",
            b"270 405 470",
            0,
        ),
    ];
    for (title, events, times, misses) in cases {
        show::responses(title, events, times, misses);
    }
}

// First fit places the message of 4 bytes in the one column that has room for the other.
fn first_fit() {
    show::plan_text(
        b"4 bytes, then 8 bytes, on T1's grid",
        b"2 400 65 1 32 3 2",
        b"65 135  200 100  300 100",
        b"16 0 4 2 400 0 400
          32 0 8 2 400 0 400",
        Ok(b"1 0 0 0"),
    );
}

// A send before the first release carries nothing, and the next one serves; rows are compared modulo the smaller repeat.
fn offset_and_repeats() {
    let mut p = [0u32; MOST_WORDS];
    let n = t1(&mut p);
    show::refused(
        b"T1 with message 32 in row 1 of message 16's column",
        &p[..n],
        b"0 0 0 1 1 0",
        [13, 1, 0],
    );
    build::set(&mut p, OFFSET_48, 700);
    show::accepted(
        b"T1 with offset 700 for message 48",
        show::front(&p, n),
        b"0 0 1 1 1 0",
        b"130 430 40 200 0",
    );
}

// Nothing is due in the first matrix cycle, and still no instance is served.
fn beyond_the_first_cycle() {
    let mut p = [0u32; MOST_WORDS];
    let n = build::problem(
        b"1 400 65 1 32 1 1",
        b"200 100",
        b"16 0 1 2 400 350 100",
        &mut p,
    );
    let problem = &p[..n];
    show::refused(
        b"released at 350, due at 450, sent at 200",
        problem,
        b"0 0",
        [12, 0, 0],
    );
    show::plan(
        b"released at 350, due at 450, one column at 200",
        problem,
        Err([14, 0, 0]),
    );
}

// Every case of the document.
pub fn run() {
    paper::text(b"Document 01, the plans worked by hand\n");
    lengths();
    first();
    deadlines();
    no_messages();
    events();
    paper::text(b"Document 01, the slips\n");
    first_fit();
    offset_and_repeats();
    beyond_the_first_cycle();
}

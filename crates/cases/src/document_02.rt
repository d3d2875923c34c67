// Document 02, request a): logs held against T1 and its plan, and the list that is due.
use crate::document_01;
use rules::words::MOST_WORDS;
use trial::show::Wanted;
use trial::{build, show};

// The words of T1's log over one matrix cycle, and over 100.
const ONE: usize = 12;

const HUNDRED: usize = 100 * ONE;

// The most words of a log that stands here as text.
const TEXT_WORDS: usize = 16;

// T1's log over 100 matrix cycles. A matrix cycle is 800 long and has six sends: the reference and 16 in each row, 48 in the first and 32 in the second.
fn t1_log(words: &mut [u32]) {
    let sends: [(u32, u32); 6] = [(0, 1), (65, 16), (200, 48), (400, 1), (465, 16), (600, 32)];
    for cycle in 0..100usize {
        for (k, (time, identifier)) in sends.into_iter().enumerate() {
            let begin = 800 * cycle as u32;
            build::put(&[begin + time, identifier], ONE * cycle + 2 * k, words);
        }
    }
}

// What is wanted of a log that is held: none where it is clean, or where it differs and what was due there.
type WantedLog<'a> = Wanted<Option<&'a [u8]>>;

// A log held against T1's plan.
fn held(title: &[u8], problem: &[u32], log: &[u32], span: u32, wanted: WantedLog) {
    show::hold(title, problem, b"0 0 1 1 1 0", log, span, wanted);
}

// A log as text, over one matrix cycle.
fn text(title: &[u8], problem: &[u32], log: &[u8], wanted: WantedLog) {
    let mut l = [0u32; TEXT_WORDS];
    let n = build::words(log, &mut l);
    held(title, problem, &l[..n], 1, wanted);
}

// The logs that are clean, and what they are over other spans.
fn clean(problem: &[u32], log: &[u32]) {
    let one = show::front(log, ONE);
    let cases: [(&[u8], &[u32], u32, WantedLog); 4] = [
        (b"T1's log over a matrix cycle", one, 1, Ok(None)),
        (b"T1's log over 100 matrix cycles", log, 100, Ok(None)),
        (
            b"the same over 99",
            log,
            99,
            Ok(Some(b"594 4294967295 4294967295")),
        ),
        (
            b"T1's log of a matrix cycle over two",
            one,
            2,
            Ok(Some(b"6 800 1")),
        ),
    ];
    for (title, log, span, wanted) in cases {
        held(title, problem, log, span, wanted);
    }
}

// A log of one matrix cycle that differs, or ends too early or too late: the index, and the pair that was due.
const DIFFERING: [(&[u8], &[u8], &[u8]); 8] = [
    (
        b"two pairs swapped",
        b"0 1  200 48  65 16  400 1  465 16  600 32",
        b"1 65 16",
    ),
    (
        b"the second reference missing",
        b"0 1  65 16  200 48  465 16  600 32",
        b"3 400 1",
    ),
    (
        b"message 32 in row 0 and 48 in row 1",
        b"0 1  65 16  200 32  400 1  465 16  600 48",
        b"2 200 48",
    ),
    (
        b"a reference one late",
        b"0 1  65 16  200 48  401 1  465 16  600 32",
        b"3 400 1",
    ),
    (
        b"a pair too many",
        b"0 1  65 16  200 48  400 1  465 16  600 32  800 1",
        b"6 4294967295 4294967295",
    ),
    (
        b"a pair too many, of the words that say nothing was due",
        b"0 1  65 16  200 48  400 1  465 16  600 32  4294967295 4294967295",
        b"6 4294967295 4294967295",
    ),
    (
        b"the last pair missing",
        b"0 1  65 16  200 48  400 1  465 16",
        b"5 600 32",
    ),
    (b"an empty log", b"", b"0 0 1"),
];

// Each of these logs.
fn differing(problem: &[u32]) {
    for (title, log, difference) in DIFFERING {
        text(title, problem, log, Ok(Some(difference)));
    }
}

// An odd count of words, and spans that are not from 1 to 100.
fn refused(problem: &[u32], log: &[u32]) {
    text(b"a log of three words", problem, b"0 1 65", Err([24, 0, 0]));
    held(
        b"T1's log over no matrix cycle",
        problem,
        log,
        0,
        Err([24, 0, 0]),
    );
    held(
        b"T1's log over 101 matrix cycles",
        problem,
        log,
        101,
        Err([24, 0, 0]),
    );
    show::hold(
        b"a log of three words and a proposal of five",
        problem,
        b"0 0 1 1 1",
        show::front(log, 3),
        101,
        Err([9, 0, 0]),
    );
}

// The list that is due by T1's plan is T1's log, or it is refused: too little room, and spans that are not from 1 to 100.
fn lists(problem: &[u32], log: &[u32]) {
    let one = show::front(log, ONE);
    let cases: [(&[u8], u32, usize, Wanted<&[u32]>); 6] = [
        (b"T1 over a matrix cycle", 1, show::LENT_WORDS, Ok(one)),
        (b"T1 over 100 matrix cycles", 100, show::LENT_WORDS, Ok(log)),
        (b"the same with just the room", 100, HUNDRED, Ok(log)),
        (
            b"the same with a word less",
            100,
            HUNDRED - 1,
            Err([16, 0, 0]),
        ),
        (
            b"T1 over no matrix cycle",
            0,
            show::LENT_WORDS,
            Err([24, 0, 0]),
        ),
        (b"T1 over 101 matrix cycles", 101, 0, Err([24, 0, 0])),
    ];
    for (title, span, room, wanted) in cases {
        show::due(title, problem, b"0 0 1 1 1 0", span, room, wanted);
    }
}

// Every case of the request.
pub fn run() {
    paper::text(b"Document 02, a log held against the plan\n");
    let mut p = [0u32; MOST_WORDS];
    let n = document_01::t1(&mut p);
    let problem = &p[..n];
    let mut l = [0u32; HUNDRED];
    t1_log(&mut l);
    let log: &[u32] = &l;
    clean(problem, log);
    differing(problem);
    refused(problem, log);
    lists(problem, log);
}

// Document 02, request b): a header damaged in each field, in words and in a file, and who meets whom.
use crate::document_01;
use rules::words::{COLUMNS, CYCLE, LIMIT, MESSAGES, MOST_WORDS, REF_ID, REF_LEN, ROWS};
use trial::{build, show};

// T1 with one of the header's words changed: refused with 4 and the byte at which a file has the field.
fn word(title: &[u8], at: usize, value: u32, byte: u32) {
    let mut p = [0u32; MOST_WORDS];
    let n = document_01::t1(&mut p);
    build::set(&mut p, at, value);
    show::write(title, show::front(&p, n), Err([4, byte, 0]));
}

// A header's words, field by field.
fn words() {
    let cases: [(&[u8], usize, u32, u32); 9] = [
        (b"T1 with 3 rows", ROWS, 3, 5),
        (b"T1 with a cycle of 0", CYCLE, 0, 6),
        (b"T1 with a cycle of 64", CYCLE, 64, 8),
        (b"T1 with a reference window of 64", REF_LEN, 64, 8),
        (b"T1 with a reference window of 401", REF_LEN, 401, 8),
        (b"T1 with reference identifier 2048", REF_ID, 2048, 10),
        (b"T1 with a limit of 33", LIMIT, 33, 12),
        (b"T1 with no column", COLUMNS, 0, 13),
        (b"T1 with 65 messages", MESSAGES, 65, 14),
    ];
    for (title, at, value, byte) in cases {
        word(title, at, value, byte);
    }
}

// T1's file with bytes changed: refused with 4 and the byte at which the field begins.
fn file(title: &[u8], pairs: &[u8], byte: u32) {
    let mut p = [0u32; MOST_WORDS];
    let n = document_01::t1(&mut p);
    show::damaged(title, &p[..n], pairs, [4, byte, 0]);
}

// A header's bytes, field by field; of two fields that are wrong the first in file order is named.
fn files() {
    let cases: [(&[u8], &[u8], u32); 11] = [
        (b"T1 with byte 5 at 3", b"5 3", 5),
        (b"T1 with bytes 6 and 7 at 0", b"6 0 7 0", 6),
        (b"T1 with bytes 6 and 7 at 0 and 64", b"6 0 7 64", 8),
        (b"T1 with byte 9 at 64", b"9 64", 8),
        (b"T1 with byte 10 at 8", b"10 8", 10),
        (b"T1 with byte 12 at 0", b"12 0", 12),
        (b"T1 with byte 13 at 33", b"13 33", 13),
        (b"T1 with byte 14 at 65", b"14 65", 14),
        (b"T1 with byte 15 at 1", b"15 1", 15),
        (b"T1 with bytes 5 and 15 at 3", b"5 3 15 3", 5),
        (b"T1 with bytes 14 and 15 at 65", b"14 65 15 65", 14),
    ];
    for (title, pairs, byte) in cases {
        file(title, pairs, byte);
    }
}

// Of two messages that are met the lowest is named.
fn lowest() {
    let mut p = [0u32; MOST_WORDS];
    let n = build::problem(
        b"2 400 65 1 32 3 3",
        b"65 135  200 100  300 100",
        b"32 1 1 1 800 0 800
          48 1 4 1 800 0 800
          16 0 4 2 400 0 400",
        &mut p,
    );
    show::refused(
        b"a message of every row where two others take turns",
        &p[..n],
        b"1 0 1 1 1 0",
        [13, 2, 0],
    );
}

// Every case of the request.
pub fn run() {
    paper::text(b"Document 02, where and with whom\n");
    words();
    files();
    lowest();
}

// Document 02, request g): T1 planned again with placements to keep, after a message has come and another has gone too.
use crate::document_01;
use rules::words::{MOST_PROPOSAL, MOST_WORDS};
use trial::show::Wanted;
use trial::{build, show};

// A problem planned again with what a text keeps.
fn again(title: &[u8], problem: &[u32], kept: &[u8], wanted: Wanted<&[u8]>) {
    let mut k = [0u32; MOST_PROPOSAL];
    let n = build::words(kept, &mut k);
    show::replan(title, problem, &k[..n], wanted);
}

// What is kept stays, and the others get the least places beside it.
fn kept(problem: &[u32]) {
    let cases: [(&[u8], &[u8], Wanted<&[u8]>); 4] = [
        (
            b"T1 with nothing kept",
            b"4294967295 4294967295  4294967295 4294967295  4294967295 4294967295",
            Ok(b"0 0 1 1 1 0"),
        ),
        (
            b"T1 with message 48 kept at 2 0",
            b"4294967295 4294967295  4294967295 4294967295  2 0",
            Ok(b"0 0 1 1 2 0"),
        ),
        (
            b"T1 with message 48 kept at 1 1, the one place for message 32",
            b"4294967295 4294967295  4294967295 4294967295  1 1",
            Err([14, 0, 0]),
        ),
        (
            b"T1 with all kept, which is not its least plan",
            b"0 0 1 1 2 1",
            Ok(b"0 0 1 1 2 1"),
        ),
    ];
    for (title, kept, wanted) in cases {
        again(title, problem, kept, wanted);
    }
}

// What is to be kept has a fault.
fn refused(problem: &[u32]) {
    let cases: [(&[u8], &[u8], [u32; 3]); 3] = [
        (
            b"T1 with half a none for message 32",
            b"4294967295 4294967295  1 4294967295  4294967295 4294967295",
            [10, 1, 0],
        ),
        (
            b"T1 with words for two messages",
            b"0 0  4294967295 4294967295",
            [9, 0, 0],
        ),
        (
            b"T1 with messages 32 and 48 kept at 1 1",
            b"4294967295 4294967295  1 1  1 1",
            [13, 2, 1],
        ),
    ];
    for (title, kept, wanted) in cases {
        again(title, problem, kept, Err(wanted));
    }
}

// Messages on T1's grid, planned again.
fn on_the_grid(title: &[u8], header: &[u8], messages: &[u8], kept: &[u8], wanted_plan: &[u8]) {
    let mut p = [0u32; MOST_WORDS];
    let n = build::problem(header, b"65 135  200 100  300 100", messages, &mut p);
    again(title, &p[..n], kept, Ok(wanted_plan));
}

// A message comes to T1's plan; then message 32 goes, and its place can be used.
fn changed() {
    on_the_grid(
        b"T1's plan kept and message 64 new",
        b"2 400 65 1 32 3 4",
        b"16 0 8 2 400   0 400
          32 1 1 1 800 400 300
          48 1 4 1 800   0 800
          64 1 4 1 800   0 800",
        b"0 0  1 1  1 0  4294967295 4294967295",
        b"0 0 1 1 1 0 2 0",
    );
    on_the_grid(
        b"the same with message 32 gone",
        b"2 400 65 1 32 3 3",
        b"16 0 8 2 400   0 400
          48 1 4 1 800   0 800
          64 1 4 1 800   0 800",
        b"0 0  1 0  4294967295 4294967295",
        b"0 0 1 0 1 1",
    );
}

// Every case of the request on T1's grid; that 17 messages are too many is among the limits.
pub fn run() {
    paper::text(b"Document 02, planned again with placements to keep\n");
    let mut p = [0u32; MOST_WORDS];
    let n = document_01::t1(&mut p);
    let problem = &p[..n];
    kept(problem);
    refused(problem);
    changed();
}

// Document 02, request e): files and words of both versions, and files moved up and back.
ghost use Rattle.io.specs.Counts.{IsPrefixLen};

use crate::document_01;
use rules::words::MOST_WORDS;
use trial::show::Wanted;
use trial::{build, moving, show};

// Where T1's second column has its kind, and its first message the identifier, in version 2.
const KIND: usize = 12;

const IDENTIFIER: usize = 16;

// T1 with the words of version 2.
fn t1_of_two(words: &mut [u32]) -> usize
    ensures { IsPrefixLen result words.new }
{
    document_01::t1_with(b"65 135 0  200 100 0  300 100 0", words)
}

// T1 of version 2 is the problem that T1 is.
fn the_same(problem: &[u32]) {
    let plan: &[u8] = b"0 0 1 1 1 0";
    show::round_trip(b"T1 of version 2", problem);
    show::plan(b"T1 of version 2", problem, Ok(plan));
    show::accepted(
        b"T1 of version 2 and its plan",
        problem,
        plan,
        b"130 430 40 200 0",
    );
    show::refused(
        b"T1 of version 2 and 0 0 1 1 1 1",
        problem,
        b"0 0 1 1 1 1",
        [13, 2, 1],
    );
}

// T1 of version 2 with one word changed: settings that are not taken yet. At last a count of words that is of no version.
fn words() {
    let mut p = [0u32; MOST_WORDS];
    let cases: [(&[u8], usize, u32, Wanted<()>); 5] = [
        (b"T1 with a column of kind 1", KIND, 1, Err([5, 1, 0])),
        (b"T1 with a column of kind 256", KIND, 256, Err([5, 1, 0])),
        (b"T1 with identifier 2047", IDENTIFIER, 2047, Ok(())),
        (b"T1 with identifier 2048", IDENTIFIER, 2048, Err([6, 0, 0])),
        (
            b"T1 with a 29-bit identifier",
            IDENTIFIER,
            0x80000010,
            Err([6, 0, 0]),
        ),
    ];
    for (title, at, value, wanted) in cases {
        let n = t1_of_two(&mut p);
        build::set(&mut p, at, value);
        show::write(title, show::front(&p, n), wanted);
    }
    t1_of_two(&mut p);
    show::write(b"T1 with 36 words", show::front(&p, 36), Err([1, 0, 0]));
}

// Files with bytes changed, read.
fn files(problem: &[u32]) {
    let cases: [(&[u8], &[u8], [u32; 3]); 7] = [
        (b"T1 of version 0", b"4 0", [3, 0, 0]),
        (b"T1 of version 3", b"4 3", [3, 0, 0]),
        (b"T1 of version 513", b"3 2 4 1", [3, 0, 0]),
        (b"T1 of version 1 by mistake", b"4 1", [1, 0, 0]),
        (b"T1 with a column of kind 1", b"25 1", [5, 1, 0]),
        (b"T1 with a column of kind 2", b"30 2", [5, 2, 0]),
        (b"T1 with a 29-bit identifier", b"31 128", [6, 0, 0]),
    ];
    for (title, pairs, wanted) in cases {
        show::damaged(title, problem, pairs, wanted);
    }
}

// Files moved up and back.
fn moved(one: &[u32], two: &[u32]) {
    moving::there_and_again(b"T1", one, true);
    moving::there_and_again(b"T1 of version 2", two, false);
    let kind: &[u8] = b"T1 of version 2 with a column of kind 1";
    let cases: [(&[u8], &[u32], &[u8], bool, usize, [u32; 3]); 8] = [
        (b"T1", one, b"", false, 100, [3, 0, 0]),
        (b"T1 of version 2", two, b"", true, 100, [3, 0, 0]),
        (b"T1 of version 2, no room", two, b"", true, 0, [3, 0, 0]),
        (b"T1 of version 3", two, b"4 3", true, 100, [3, 0, 0]),
        (kind, two, b"25 1", true, 100, [5, 1, 0]),
        (kind, two, b"25 1", false, 100, [5, 1, 0]),
        (b"T1 with a byte too little", one, b"", true, 90, [16, 0, 0]),
        (
            b"T1 of version 2 with a byte too little",
            two,
            b"",
            false,
            81,
            [16, 0, 0],
        ),
    ];
    for (title, problem, pairs, is_up, room, wanted) in cases {
        moving::refused(title, problem, pairs, is_up, room, wanted);
    }
}

// Every case of the request.
pub fn run() {
    paper::text(b"Document 02, the new file version\n");
    let mut p = [0u32; MOST_WORDS];
    let n = document_01::t1(&mut p);
    let one = &p[..n];
    let mut q = [0u32; MOST_WORDS];
    let m = t1_of_two(&mut q);
    let two = &q[..m];
    the_same(two);
    words();
    files(two);
    moved(one, two);
}

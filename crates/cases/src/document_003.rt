// Document 003: 16 messages of 8 bytes in 8 rows of 2500, and the matrices of its figures 2 to 4, whose windows 1 to 16 are the columns.
ghost use Rattle.io.specs.Counts.{IsPrefixLen};

use rules::words::MOST_WORDS;
use trial::{build, moving, show};

// Identifiers 51, 52, 53, 101 to 105, 201 to 204 and 401 to 404, hexadecimal, the reference F0; node 0 sends all to node 1.
fn example(words: &mut [u32]) -> usize
    ensures { IsPrefixLen result words.new }
{
    build::problem(
        b"8 2500 78 240 32 16 16",
        b"78 145  223 150  373 150  523 150  673 150  823 150  973 150  1123 150
          1273 150  1423 150  1573 150  1723 150  1873 150  2023 150  2173 150  2323 177",
        b"  81 0 8 2  2500 0  2500
            82 0 8 2  2500 0  2500
            83 0 8 2  2500 0  2500
           257 0 8 2  5000 0  5000
           258 0 8 2  5000 0  5000
           259 0 8 2  5000 0  5000
           260 0 8 2  5000 0  5000
           261 0 8 2  5000 0  5000
           513 0 8 2 10000 0 10000
           514 0 8 2 10000 0 10000
           515 0 8 2 10000 0 10000
           516 0 8 2 10000 0 10000
          1025 0 8 2 20000 0 20000
          1026 0 8 2 20000 0 20000
          1027 0 8 2 20000 0 20000
          1028 0 8 2 20000 0 20000",
        words,
    )
}

// The least plan.
fn planned(problem: &[u32]) {
    let plan: &[u8] =
        b"0 0  1 0  2 0  3 0  3 1  4 0  4 1  5 0  5 1  5 3  6 0  6 1  6 2  6 3  6 6  6 7";
    show::plan(b"the example", problem, Ok(plan));
    show::accepted(
        b"the example and its plan",
        problem,
        plan,
        b"624 7560 800 11016 0",
    );
    lists(problem, plan);
}

// Node 0 sends 16 messages and node 1 receives them: 17 triggers each with the reference.
fn lists(problem: &[u32], plan: &[u8]) {
    show::lists(
        b"the example and its plan",
        problem,
        plan,
        208,
        b"17 17 1 1 1 1 1 1 1 1 1 1 1 1 1 1
          240 0 0 1  65617 78 0 1  65618 223 0 1  65619 373 0 1  65793 523 0 2  65794 523 1 2
          65795 673 0 2  65796 673 1 2  65797 823 0 2  66049 823 1 4  66050 823 3 4  66051 973 0 4
          66052 973 1 4  66561 973 2 8  66562 973 3 8  66563 973 6 8  66564 973 7 8
          240 0 0 1  131153 78 0 1  131154 223 0 1  131155 373 0 1  131329 523 0 2  131330 523 1 2
          131331 673 0 2  131332 673 1 2  131333 823 0 2  131585 823 1 4  131586 823 3 4  131587 973 0 4
          131588 973 1 4  132097 973 2 8  132098 973 3 8  132099 973 6 8  132100 973 7 8
          240 0 0 1  240 0 0 1  240 0 0 1  240 0 0 1  240 0 0 1  240 0 0 1  240 0 0 1
          240 0 0 1  240 0 0 1  240 0 0 1  240 0 0 1  240 0 0 1  240 0 0 1  240 0 0 1",
    );
}

// The matrices as the figures have them.
fn figures(problem: &[u32]) {
    let cases: [(&[u8], &[u8], &[u8]); 3] = [
        (
            b"figure 2",
            b"0 0  1 0  2 0  3 0  4 0  5 0  6 0  7 0  8 0  9 0  10 0  11 0  12 0  13 0  14 0  15 0",
            b"624 7560 827 10989 0",
        ),
        (
            b"figure 3",
            b"0 0  1 0  5 0  6 0  10 0  11 0  15 0  6 1  10 1  11 1  15 1  10 3  11 3  15 3  11 7  15 7",
            b"624 7560 1016 10800 0",
        ),
        (
            b"figure 4",
            b"1 0  3 0  5 0  7 0  9 0  11 0  13 0  7 1  9 1  11 1  13 1  9 3  11 3  13 3  11 7  13 7",
            b"624 7560 840 10976 0",
        ),
    ];
    for (title, proposal, losses) in cases {
        show::accepted(title, problem, proposal, losses);
    }
}

// Every case of the document.
pub fn run() {
    paper::text(b"Document 003\n");
    let mut p = [0u32; MOST_WORDS];
    let n = example(&mut p);
    let problem = &p[..n];
    show::round_trip(b"the example", problem);
    moving::there_and_again(b"the example", problem, true);
    planned(problem);
    figures(problem);
}

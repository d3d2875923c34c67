// Document 001: the 30 messages of its hard class, FL2 to RR31, in 32 rows of 800 with columns at 200, 400 and 600.
ghost use Rattle.io.specs.Counts.{IsPrefixLen};

use rules::words::MOST_WORDS;
use trial::show::Wanted;
use trial::{build, show};

// Where the first message's deadline stands.
const FIRST_DEADLINE: usize = 19;

// Where the last message's deadline stands.
const LAST_DEADLINE: usize = 222;

// Each is released when the document sends it and is due as soon as a frame of 8 bytes can end. The nodes FL, FR, RL, RR, Env and HMICom are 0 to 5.
fn hard(words: &mut [u32]) -> usize
    ensures { IsPrefixLen result words.new }
{
    build::problem(
        b"32 800 65 0 32 3 30",
        b"200 135  400 135  600 135",
        b" 2 0 8 0 25600  1000 135
           3 1 8 0 25600  1200 135
           4 2 8 0 25600  1400 135
           5 3 8 0 25600  1800 135
           6 4 8 0 25600  2000 135
           7 5 8 0 25600  2600 135
           8 0 8 0 25600  4200 135
           9 1 8 0 25600  4400 135
          10 2 8 0 25600  4600 135
          11 3 8 0 25600  5000 135
          12 0 8 0 25600  6000 135
          13 1 8 0 25600  6200 135
          14 2 8 0 25600  6600 135
          15 3 8 0 25600  6800 135
          16 0 8 0 25600 11400 135
          17 1 8 0 25600 11600 135
          18 2 8 0 25600 11800 135
          19 3 8 0 25600 12200 135
          20 0 8 0 25600 15400 135
          21 1 8 0 25600 15600 135
          22 2 8 0 25600 15800 135
          23 3 8 0 25600 16200 135
          24 0 8 0 25600 17200 135
          25 1 8 0 25600 17400 135
          26 2 8 0 25600 17800 135
          27 3 8 0 25600 18000 135
          28 0 8 0 25600 21200 135
          29 1 8 0 25600 21400 135
          30 2 8 0 25600 21800 135
          31 3 8 0 25600 22000 135",
        words,
    )
}

// The column and the row of each message in table 4.2, each in a window as long as its frame; 66 of 96 cells are empty.
fn table_4_2(title: &[u8], problem: &[u32], wanted: Wanted<&[u8]>) {
    show::judge(
        title,
        problem,
        b"0 1  1 1  2 1  0 2  1 2  0 3  0 5  1 5  2 5  0 6  1 7  2 7  0 8  1 8  0 14
      1 14  2 14  0 15  0 19  1 19  2 19  0 20  1 21  2 21  0 22  1 22  1 26  2 26  0 27  1 27",
        wanted,
    );
}

// Every case of the document.
pub fn run() {
    paper::text(b"Document 001\n");
    let mut p = [0u32; MOST_WORDS];
    let n = hard(&mut p);
    table_4_2(
        b"table 4.2, all due 135 after release",
        &p[..n],
        Ok(b"2080 4050 0 8910 10560"),
    );
    build::set(&mut p, LAST_DEADLINE, 134);
    table_4_2(
        b"table 4.2, the last due 134 after release",
        show::front(&p, n),
        Err([12, 29, 0]),
    );
    build::set(&mut p, FIRST_DEADLINE, 134);
    table_4_2(
        b"table 4.2, the first due 134 after release",
        show::front(&p, n),
        Err([12, 0, 0]),
    );
}

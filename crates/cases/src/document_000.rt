// Document 000: the message set of its table 3.1 in the matrices of its figures 4.4 to 4.6, and its figure 4.1.
// A bit is 2 microseconds there, and lengths of 65 to 135 bits are 1 to 8 data bytes.
ghost use Rattle.io.specs.Counts.{IsPrefixLen};

use rules::words::MOST_WORDS;
use trial::show::Wanted;
use trial::{build, show};

// Table 3.1 in 8 rows of 5000, with the columns given.
fn table_3_1(header: &[u8], columns: &[u8], words: &mut [u32]) -> usize
    ensures { IsPrefixLen result words.new }
{
    build::problem(
        header,
        columns,
        b" 1 1 8 0  5000 0  5000
           2 2 3 0  5000 0  5000
           3 1 3 0 10000 0 10000
           4 3 2 0  5000 0  5000
           5 4 5 0 10000 0 10000
           6 4 5 0 20000 0 20000
           7 4 4 0  5000 0  5000
           8 6 5 0 20000 0 20000
           9 5 4 0 10000 0 10000
          10 1 7 0 40000 0 40000
          11 3 5 0 20000 0 20000
          12 4 1 0 40000 0 40000",
        words,
    )
}

// Table 3.1 in the matrix of a figure.
fn figure(title: &[u8], header: &[u8], columns: &[u8], proposal: &[u8], losses: &[u8]) {
    let mut p = [0u32; MOST_WORDS];
    let n = table_3_1(header, columns, &mut p);
    show::accepted(title, &p[..n], proposal, losses);
}

// The matrices of figures 4.4 to 4.6.
fn figures() {
    let cases: [(&[u8], &[u8], &[u8], &[u8], &[u8]); 3] = [
        // The messages placed by their periods.
        (
            b"figure 4.4",
            b"8 5000 95 0 32 7 12",
            b"95 135  230 85  315 75  390 95  485 105  590 105  695 125",
            b"0 0  1 0  4 1  2 0  4 0  5 3  3 0  5 1  5 0  6 1  6 0  6 2",
            b"760 5080 220 500 33440",
        ),
        // The messages placed so that least is lost within the windows.
        (
            b"figure 4.5",
            b"8 5000 95 0 32 7 12",
            b"95 135  230 85  315 75  390 95  485 105  590 95  685 125",
            b"0 0  1 0  5 0  2 0  4 0  4 3  3 0  4 1  5 1  6 1  6 0  6 2",
            b"760 5080 140 500 33520",
        ),
        // One column more. The figure gives 40 + 40 microseconds lost within the windows; by its own rule four sends of 95 bits
        // in a column of 105 lose 80 and one of 65 in a column of 85 loses 40: 60 bits in all.
        (
            b"figure 4.6",
            b"8 5000 95 0 32 8 12",
            b"95 135  230 85  315 75  390 95  485 105  590 85  675 105  780 125",
            b"0 0  1 0  5 0  2 0  4 0  6 1  3 0  6 0  4 1  7 0  6 2  5 1",
            b"760 5080 60 1340 32760",
        ),
    ];
    for (title, header, columns, proposal, losses) in cases {
        figure(title, header, columns, proposal, losses);
    }
}

// 52 sends have no room in 48 cells.
fn six_columns() {
    let mut p = [0u32; MOST_WORDS];
    let n = table_3_1(
        b"8 5000 95 0 32 6 12",
        b"95 135  230 135  365 135  500 135  635 135  770 135",
        &mut p,
    );
    show::plan(b"table 3.1 in six columns of 135", &p[..n], Err([14, 0, 0]));
}

// Seven messages of one data byte planned: one for every row, four for every second and two for every fourth.
fn seven(title: &[u8], header: &[u8], columns: &[u8], wanted: Wanted<&[u8]>) {
    show::plan_text(
        title,
        header,
        columns,
        b"1 0 1 0 1000 0 1000
          2 0 1 0 2000 0 2000
          3 0 1 0 2000 0 2000
          4 0 1 0 2000 0 2000
          5 0 1 0 2000 0 2000
          6 0 1 0 4000 0 4000
          7 0 1 0 4000 0 4000",
        wanted,
    );
}

// The matrix of the figure is the least plan.
fn figure_4_1() {
    seven(
        b"figure 4.1",
        b"4 1000 95 0 32 4 7",
        b"95 65  160 65  225 65  290 65",
        Ok(b"0 0  1 0  1 1  2 0  2 1  3 0  3 1"),
    );
}

// 14 sends have no room in 12 cells.
fn three_columns() {
    seven(
        b"figure 4.1 with three columns",
        b"4 1000 95 0 32 3 7",
        b"95 65  160 65  225 65",
        Err([14, 0, 0]),
    );
}

// Every case of the document.
pub fn run() {
    paper::text(b"Document 000\n");
    figures();
    six_columns();
    figure_4_1();
    three_columns();
}

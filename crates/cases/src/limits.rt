// The largest matrix, full, and buses that are wanted whole, or more than that.
ghost use Rattle.std.specs.Prelude.{◌<◌, ◌≤◌};

use rules::words::{MOST_PROPOSAL, MOST_WORDS};
use trial::{build, moving, show};

// The most columns that a problem has.
const COLUMNS: usize = 32;

// The most messages that a problem has.
const MESSAGES: usize = 64;

// The words of a problem's header.
const HEADER_WORDS: usize = 7;

// The words of a column, as version 2 has them.
const COLUMN_WORDS: usize = 3;

// The words of a message.
const MESSAGE_WORDS: usize = 7;

// Where the first message stands in a problem of so many columns.
const FIRST_MESSAGE: usize = HEADER_WORDS + COLUMN_WORDS * COLUMNS;

// How long the reference is; the first column starts behind it.
const REFERENCE: u32 = 65;

// How wide each column is.
const WIDTH: u32 = 2045;

// The word that stands twice for a message without a placement to keep.
const FREE: u32 = kept::NONE as u32;

// The nodes that receive what a node sends: the next six.
fn receivers(node: u32) -> u32
    requires { node < 16 }
{
    u32::from(0x003Fu16.rotate_left(node + 1))
}

// Column c: all are of one width, one behind the other.
fn column(c: usize) -> [u32; COLUMN_WORDS]
    requires { c < 32 }
{
    [REFERENCE + WIDTH * c as u32, WIDTH, 0]
}

// The 32 columns, behind the header.
fn columns(words: &mut [u32]) {
    for c in 0..COLUMNS {
        build::put(&column(c), HEADER_WORDS + COLUMN_WORDS * c, words);
    }
}

// Message j, of 8 bytes and in every second row, from node j mod 16.
fn message(j: usize) -> [u32; MESSAGE_WORDS]
    requires { j < 64 }
{
    let node = (j % 16) as u32;
    [j as u32 + 1, node, 8, receivers(node), 131070, 0, 131070]
}

// The 64 messages, behind the columns.
fn messages(words: &mut [u32]) {
    for j in 0..MESSAGES {
        build::put(&message(j), FIRST_MESSAGE + MESSAGE_WORDS * j, words);
    }
}

// 64 rows, 32 columns and 64 messages, the most that a problem has.
fn full() {
    let mut p = [0u32; MOST_WORDS];
    build::put(&[64, 65535, REFERENCE, 0, 32, 32, 64], 0, &mut p);
    columns(&mut p);
    messages(&mut p);
    show::round_trip(b"64 rows, 32 columns, 64 messages", &p);
    moving::there_and_again(b"64 rows, 32 columns, 64 messages", &p, false);
    full_matrix(
        &p,
        b"0 0   0 1   1 0   1 1   2 0   2 1   3 0   3 1   4 0   4 1   5 0   5 1   6 0   6 1   7 0   7 1
          8 0   8 1   9 0   9 1  10 0  10 1  11 0  11 1  12 0  12 1  13 0  13 1  14 0  14 1  15 0  15 1
         16 0  16 1  17 0  17 1  18 0  18 1  19 0  19 1  20 0  20 1  21 0  21 1  22 0  22 1  23 0  23 1
         24 0  24 1  25 0  25 1  26 0  26 1  27 0  27 1  28 0  28 1  29 0  29 1  30 0  30 1  31 0  31 1",
    );
}

// The full matrix planned again with its first messages free: 17 are too many, 16 get back the one part that the others leave.
fn again(problem: &[u32], proposal: &[u8]) {
    let mut kept = [0u32; MOST_PROPOSAL];
    let n = build::words(proposal, &mut kept);
    build::put(&[FREE; 34], 0, &mut kept);
    show::replan(
        b"the same with 17 messages free",
        problem,
        show::front(&kept, n),
        Err([15, 0, 0]),
    );
    build::words(proposal, &mut kept);
    build::put(&[FREE; 32], 0, &mut kept);
    show::replan(
        b"the same with 16 messages free",
        problem,
        show::front(&kept, n),
        Ok(proposal),
    );
}

// Two messages fill each column.
fn full_matrix(problem: &[u32], proposal: &[u8]) {
    show::accepted(
        b"the same with all 2048 cells full",
        problem,
        proposal,
        b"4160 276480 3911680 0 1920",
    );
    full_lists(problem, proposal);
    show::plan(
        b"the same, which are more than 16 messages",
        problem,
        Err([15, 0, 0]),
    );
    again(problem, proposal);
}

// Each node sends 4 messages and receives 24. The text goes as far as node 0's list.
fn full_lists(problem: &[u32], proposal: &[u8]) {
    show::lists(
        b"the same with all 2048 cells full",
        problem,
        proposal,
        1872,
        b"29 29 29 29 29 29 29 29 29 29 29 29 29 29 29 29
          0 0 0 1  65537 65 0 2  131083 10290 0 2  131084 10290 1 2  131085 12335 0 2  131086 12335 1 2
          131087 14380 0 2  131088 14380 1 2  65553 16425 0 2  131099 26650 0 2  131100 26650 1 2  131101 28695 0 2
          131102 28695 1 2  131103 30740 0 2  131104 30740 1 2  65569 32785 0 2  131115 43010 0 2  131116 43010 1 2
          131117 45055 0 2  131118 45055 1 2  131119 47100 0 2  131120 47100 1 2  65585 49145 0 2  131131 59370 0 2
          131132 59370 1 2  131133 61415 0 2  131134 61415 1 2  131135 63460 0 2  131136 63460 1 2",
    );
}

// Response times refused, each with so much room for them.
fn refused(cases: &[(&[u8], &[u8], [u32; 3])], room: usize)
    requires { room ≤ 64 }
{
    for (title, events, wanted) in cases {
        show::responses_refused(title, events, room, *wanted);
    }
}

// A bus that is wanted just whole: it comes to rest if nothing blocks it and nothing is late.
fn whole_bus() {
    show::responses(
        b"an event that takes the whole bus",
        b"1 8 135 0 135",
        b"135",
        0,
    );
    refused(
        &[
            (b"the same with a jitter of 1", b"1 8 135 1 135", [19, 0, 0]),
            (
                b"the same with another event, which blocks it",
                b"1 8 135 0 135  2 0 4194304 0 4194304",
                [19, 0, 0],
            ),
        ],
        show::LENT_TIMES,
    );
}

// The longest busy period: frames are multiples of 5, so that none is 16,777,216, and the second event's is 16,777,215. With a jitter of one more it is 16,787,160.
fn longest_busy() {
    show::responses(
        b"a busy period of 16777215",
        b"1 6 117 0 117  2 3 4973 1687 4973",
        b"0 1887",
        1,
    );
    refused(
        &[
            (
                b"the same with a longer one",
                b"1 6 117 0 117  2 3 4973 1688 4973",
                [19, 1, 0],
            ),
            (
                b"the same with that event first",
                b"2 3 4973 1688 4973  1 6 117 0 117",
                [19, 0, 0],
            ),
        ],
        show::LENT_TIMES,
    );
}

// Two events that each want the whole bus, and one with the longest period and deadline.
fn overload() {
    refused(
        &[
            (
                b"two events that each want the whole bus, and one more",
                b"1 8 135 0 135  2 8 135 0 135  3 8 4194304 0 4194304",
                [19, 0, 0],
            ),
            (
                b"the same with a wrong event behind them",
                b"1 8 135 0 135  2 8 135 0 135  3 9 4194304 0 4194304",
                [18, 2, 0],
            ),
        ],
        show::LENT_TIMES,
    );
    refused(
        &[
            (
                b"the same with no room",
                b"1 8 135 0 135  2 8 135 0 135  3 8 4194304 0 4194304",
                [19, 0, 0],
            ),
            (
                b"an event that takes the whole bus, with no room",
                b"1 8 135 0 135",
                [16, 0, 0],
            ),
        ],
        0,
    );
}

// The full matrix, and buses at their limit and above.
pub fn run() {
    paper::text(b"Limits\n");
    full();
    whole_bus();
    longest_busy();
    overload();
}

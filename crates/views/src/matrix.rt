// The matrix as a table, as in document 003's figure 2: a line for each basic cycle, a column for each window. Wide ones are cut into blocks.
// Where there are placements to keep, a message without one is new, and its identifier has a mark behind it.
ghost use Rattle.std.specs.Prelude.{ℕ, ◌<◌, ◌≤◌, IfSome};
ghost use Rattle.rules.specs.Problem.{WellFormed, columns};
ghost use Rattle.rules.specs.Parts.{Member};

use rules::words;
use std::marker::Model;

// How many characters a column of the table has: an identifier, a mark and a space.
const WIDTH: usize = 7;

// What is shown, and where: the windows alone, the matrix, or the matrix as comments of a word list.
#[derive(Clone, Copy, PartialEq, Eq)]
pub enum Form {
    Windows,
    Matrix,
    Comments,
}

// Whether a message has no placement in a list of those to keep. A list that is cut short tells nothing of messages beyond its end.
pub fn is_new(kept: &[u32], j: usize) -> bool
    requires { j < 64 }
{
    words::gives(kept, j) && !kept::keeps(kept, j)
}

// ---- a block of the table

// The windows from one to before another, with what a proposal has sent there, and the placements that were to be kept. A clause sees it as the words of the problem.
#[derive(Drop)]
struct Block<'a> {
    p: &'a [u32],
    w: &'a [u32],
    kept: &'a [u32],
    form: Form,
    from: usize,
    to: usize,
}

impl<'a> Model for Block<'a> {
    ghost use Rattle.std.specs.Prelude.{◌≤◌, List, ℕ};
    ghost use Rattle.rules.specs.Problem.{WellFormed, columns};

    ghost Value = { List ℕ };

    ghost view = { λ b. b.p.now };

    ghost invariant = { λ b. WellFormed b.p.now × (b.to ≤ columns b.p.now) };
}

impl<'a> Block<'a> {
    // Begins a line, a comment with its mark.
    fn begin(&self, name: &[u8]) {
        if self.form == Form::Comments {
            paper::text(b"# ");
        }
        paper::text(name);
    }

    // Whether message j is sent in column c of row r. A proposal that is cut short has nothing sent beyond its end.
    fn is_sent(&self, j: usize, r: usize, c: usize) -> bool
        requires { Member self.now j }
    {
        let w = self.w;
        words::gives(w, j)
            && words::column_of(w, j) == c
            && words::row_of(w, j) == r % words::repeat_of(self.p, j)
    }

    // The message that is sent in column c of row r.
    fn sent_in(&self, r: usize, c: usize) -> Option<usize>
        ensures { IfSome result (Member self.now) }
    {
        (0..words::messages_of(self.p)).find(|j| self.is_sent(*j, r, c))
    }

    // One cell: an identifier, with a mark if it is new, or a dot.
    fn show_cell(&self, r: usize, c: usize) {
        match self.sent_in(r, c) {
            Some(j) if is_new(self.kept, j) => {
                paper::right_hex(words::identifier_of(self.p, j), WIDTH - 1);
                paper::text(b"*");
            }
            Some(j) => paper::right_hex(words::identifier_of(self.p, j), WIDTH),
            None => paper::right_text(b".", WIDTH),
        }
    }

    // The lines of all basic cycles, the reference first.
    fn show_rows(&self) {
        for r in 0..words::rows_of(self.p) {
            self.begin(b"cycle ");
            paper::right_count(r, 2);
            paper::right_hex(words::ref_id_of(self.p), WIDTH);
            for c in self.from..self.to {
                self.show_cell(r, c);
            }
            paper::end_line();
        }
    }

    // A number for each window, which ends the line.
    fn show_numbers<F: Fn(usize) -> usize>(&self, number_of: F)
        requires { (c : ℕ) → c < columns self.now → F.pre number_of c }
    {
        for c in self.from..self.to {
            paper::right_count(number_of(c), WIDTH);
        }
        paper::end_line();
    }

    // The windows' numbers, starts and widths, the reference first, and under them what is sent there, if it is to be shown.
    fn show(&self) {
        let p = self.p;
        paper::end_line();
        self.begin(b"window      ref");
        self.show_numbers(|c| c);
        self.begin(b"start         0");
        self.show_numbers(|c| words::start_of(p, c));
        self.begin(b"width   ");
        paper::right_count(words::ref_len_of(p), WIDTH);
        self.show_numbers(|c| words::width_of(p, c));
        if self.form != Form::Windows {
            self.show_rows();
        }
    }
}

// ---- the table

// How many windows stand side by side: blocks of like size, with at most 9 windows so that a line fits a terminal.
fn block_size(columns: usize) -> usize
    requires { (1 ≤ columns) × (columns ≤ 32) }
    ensures { (1 ≤ result) × (result ≤ 9) }
{
    match columns {
        0..=9 => columns,
        10..=18 => columns.div_ceil(2),
        19..=27 => columns.div_ceil(3),
        _ => 8,
    }
}

// The windows and, if it is to be shown, the matrix that a proposal gives.
pub fn show(p: &[u32], w: &[u32], kept: &[u32], form: Form)
    requires { WellFormed p.now }
{
    let columns = words::columns_of(p);
    let size = block_size(columns);
    for from in (0..columns).step_by(size) {
        let block = Block {
            p,
            w,
            kept,
            form,
            from,
            to: (from + size).min(columns),
        };
        block.show();
    }
}
